// Does a tree keep the rules? Nobody sits twice or has nobody's number, and the unmerged members of every keyed parent
// are named once, sit below it, and are not all who do.
ghost use Rattle.std.specs.Prelude.{◌≡◌};
ghost use Rattle.theory.specs.Wellformed.{all_seated, apart, consistent, distinct, merges, leaf_apart, leaf_merged, leaf_numbered, numbered, some_merged, well_formed};
ghost use Rattle.ratchet_tree.specs.Nodes.{leaf_of, numbers, parent_of};
ghost use Rattle.ratchet_tree.specs.Parts.{part_tree};
ghost use Rattle.ratchet_tree.specs.Trees.{the_tree};

use commits::NOBODY;
use ratchet_tree::{MemberId, Node, Part, RatchetTree, Split, is_among};

// Has whoever sits at this leaf a member's number?
fn is_leaf_numbered(node: &Node) -> bool
    ensures { result ≡ leaf_numbered (leaf_of node.now) }
{
    node.occupant()
        .is_none_or(|occupant| occupant.member != MemberId(NOBODY))
}

// Does nobody sit both at this leaf and in the part?
fn is_leaf_apart(node: &Node, part: Part) -> bool
    ensures { result ≡ leaf_apart (leaf_of node.now) (part_tree part.entry) }
{
    // No `is_none_or`: of a closure that takes an occupant and asks a part, the check learns nothing.
    match node.occupant() {
        Some(occupant) => !part.is_seated(occupant.member),
        None => true,
    }
}

// Does somebody sit at this leaf who isn't unmerged?
fn is_leaf_merged(node: &Node, unmerged: &[MemberId]) -> bool
    ensures { result ≡ leaf_merged (numbers unmerged.now) (leaf_of node.now) }
{
    node.occupant()
        .is_some_and(|occupant| !is_among(unmerged, occupant.member))
}

// Is nobody named twice? By recursion, as the rule is stated: each is compared with those behind.
#[tactic(auto, unfolding(theory::specs::Wellformed::distinct))]
fn is_distinct(members: &[MemberId]) -> bool
    ensures { result ≡ distinct (numbers members.now) }
{
    match members.split_first() {
        Some((first, others)) => !is_among(others, *first) && is_distinct(others),
        None => true,
    }
}

// Is everybody named seated in the part?
fn are_seated(members: &[MemberId], part: Part) -> bool
    ensures { result ≡ all_seated (numbers members.now) (part_tree part.entry) }
{
    members.iter().all(|member| part.is_seated(*member))
}

// The three walks below go by recursion, as the rules are stated, and so need no proof of their own: a chain over the
// leaves would ask for a lemma on lines of nodes each.

// Is somebody seated in the part who isn't unmerged?
#[tactic(auto, unfolding(theory::specs::Wellformed::some_merged))]
fn has_merged(part: Part, unmerged: &[MemberId]) -> bool
    ensures { result ≡ some_merged (numbers unmerged.now) (part_tree part.entry) }
{
    match part.split() {
        Split::Leaf(node) => is_leaf_merged(node, unmerged),
        Split::Parent(left, _, right) => has_merged(left, unmerged) || has_merged(right, unmerged),
    }
}

// Are the unmerged members of this parent named once, seated in the part below, and not all who are?
// Who isn't seated is looked for first: of more names than the part has leaves, two of the first are then the same,
// so that the look for names that stand twice goes no deeper.
fn is_merging(node: &Node, part: Part) -> bool
    ensures { result ≡ merges (parent_of node.now) (part_tree part.entry) }
{
    // no `is_none_or`: of a closure that asks a part, the check learns nothing
    let Some(keyed) = node.node_key() else {
        return true;
    };
    are_seated(keyed.unmerged, part)
        && is_distinct(keyed.unmerged)
        && has_merged(part, keyed.unmerged)
}

// Is nobody seated in both parts?
#[tactic(auto, unfolding(theory::specs::Wellformed::apart))]
fn are_apart(part: Part, other: Part) -> bool
    ensures { result ≡ apart (part_tree part.entry) (part_tree other.entry) }
{
    match part.split() {
        Split::Leaf(node) => is_leaf_apart(node, other),
        Split::Parent(left, _, right) => are_apart(left, other) && are_apart(right, other),
    }
}

// Has everybody a member's number?
#[tactic(auto, unfolding(theory::specs::Wellformed::numbered))]
fn is_numbered(part: Part) -> bool
    ensures { result ≡ numbered (part_tree part.entry) }
{
    match part.split() {
        Split::Leaf(node) => is_leaf_numbered(node),
        Split::Parent(left, _, right) => is_numbered(left) && is_numbered(right),
    }
}

// Does nobody sit twice, and does every keyed parent keep the rule of unmerged members?
#[tactic(auto, unfolding(theory::specs::Wellformed::consistent))]
fn is_consistent(part: Part) -> bool
    ensures { result ≡ consistent (part_tree part.entry) }
{
    match part.split() {
        Split::Leaf(_) => true,
        Split::Parent(left, node, right) => {
            are_apart(left, right)
                && is_merging(node, part)
                && is_consistent(left)
                && is_consistent(right)
        }
    }
}

pub fn is_well_formed(tree: &RatchetTree) -> bool
    ensures value { result ≡ well_formed (the_tree tree.now) }
{
    is_numbered(tree.as_part()) && is_consistent(tree.as_part())
}
