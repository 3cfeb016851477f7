// The committer's path: a new leaf key, and node keys from its leaf to the top.
ghost use Rattle.std.specs.Prelude.{◌≡◌, ◌≤◌, not, [], length, if◌then◌else◌, MatchOption};
ghost use Rattle.theory.specs.Limits.{max_depth};
ghost use Rattle.theory.specs.Tree.{blank_parent, is_at, keyed, occupied, resolution};
ghost use Rattle.tree_math.specs.Span.{span};
ghost use Rattle.ratchet_tree.specs.Nodes.{leaf_of, parent_of, tree_of};
ghost use Rattle.ratchet_tree.specs.Parts.{part_tree};
ghost use Rattle.ratchet_tree.specs.Trees.{the_tree};
ghost use Rattle.commits.specs.Path.{IsOwnHalf, is_none, key_from, path_laid};

use ratchet_tree::{Leaf, MemberId, Node, Parent, Part, PublicKey, RatchetTree, Split};
use std::alloc::Global;
use std::ops::Range;

// The public halves that a committer brings: its new leaf key, and the node keys from below.
#[derive(Clone, Copy)]
pub struct PathKeys<'a> {
    pub leaf: PublicKey,
    pub nodes: &'a [PublicKey],
}

// Is there anybody in this part to seal to? Not by `resolution_count`: the look ends at the first who is.
fn is_reached(part: Part) -> bool
    ensures { result ≡ not (is_none (resolution (part_tree part.entry))) }
{
    match part.split() {
        Split::Leaf(node) => node.is_occupied(),
        Split::Parent(left, node, right) => {
            node.node_key().is_some() || is_reached(left) || is_reached(right)
        }
    }
}

// The half of a part that the committer sits in: where it stands, and whether there is anybody in the other half to
// seal to.
#[derive(Drop)]
struct OwnHalf {
    nodes: Range<usize>,
    reached: bool,
}

// None where the committer sits in neither half. A left and a right arm, since the answer is where the half stands.
fn own_half(part: Part, committer: MemberId) -> Option<OwnHalf>
    ensures { IsOwnHalf committer.0 part.entry.height part.entry.nodes.now result }
{
    let middle = part.nodes.len() / 2;
    match part.split() {
        Split::Leaf(_) => None,
        Split::Parent(left, _, right) => {
            if left.is_seated(committer) {
                Some(OwnHalf {
                    nodes: 0..middle,
                    reached: is_reached(right),
                })
            } else if right.is_seated(committer) {
                Some(OwnHalf {
                    nodes: middle + 1..part.nodes.len(),
                    reached: is_reached(left),
                })
            } else {
                None
            }
        }
    }
}

// The committer's leaf gets its new key.
fn renew_leaf(node: &mut Node, member: MemberId, key: PublicKey)
    ensures { leaf_of node.new ≡ (if is_at member.0 (leaf_of node.old) then occupied member.0 key else leaf_of node.old) }
{
    if node.seats(member) {
        *node = Node::Leaf(Leaf::Occupied { member, key });
    }
}

// The node key of a level; the leaf key stands in where fewer were brought, which a message's count rules out.
fn key_at(keys: PathKeys, level: usize) -> PublicKey
    ensures { result ≡ key_from keys.entry level }
{
    keys.nodes.get(level).copied().unwrap_or(keys.leaf)
}

// The parent above a level: keyed where a key is laid, else blank.
fn lay_parent(alloc: Global, node: &mut Node, key: Option<PublicKey>)
    ensures { MatchOption key (parent_of node.new ≡ blank_parent) (λ k. parent_of node.new ≡ keyed k []) }
{
    *node = Node::Parent(match key {
        Some(key) => Parent::Keyed {
            key,
            unmerged: Vec::new(alloc),
        },
        None => Parent::Blank,
    });
}

// Lays the path in a part; answers how many node keys that took. The nodes and their height are two parameters: a
// struct of both that is written through gets no proof by value, and behind a `&mut` each call would also have to
// promise that it still lends the same nodes.
fn lay_in(
    alloc: Global,
    nodes: &mut [Node],
    height: usize,
    member: MemberId,
    keys: PathKeys,
) -> usize
    requires { (length nodes.old ≡ span height) × (height ≤ max_depth) }
    ensures tree { tree_of height nodes.new ≡ (path_laid member keys.entry (tree_of height nodes.old)).tree }
    ensures value { result ≡ (path_laid member keys.entry (tree_of height nodes.old)).levels }
{
    if height == 0 {
        renew_leaf(&mut nodes[0], member, keys.leaf);
        return 0;
    }
    let middle = nodes.len() / 2;
    let Some(half) = own_half(Part { nodes, height }, member) else {
        return 0;
    };
    let level = lay_in(alloc, &mut nodes[half.nodes], height - 1, member, keys);
    let key = half.reached.then_some(key_at(keys, level));
    lay_parent(alloc, &mut nodes[middle], key);
    level + half.reached as usize
}

// The committer takes its new leaf key and lays its node keys from its leaf to the top; answers how many that took.
pub fn lay_path(alloc: Global, tree: &mut RatchetTree, committer: MemberId, keys: PathKeys) -> usize
    ensures tree { the_tree tree.new ≡ (path_laid committer keys.entry (the_tree tree.old)).tree }
    ensures value { result ≡ (path_laid committer keys.entry (the_tree tree.old)).levels }
{
    let depth = tree.depth;
    lay_in(alloc, &mut tree.nodes, depth, committer, keys)
}
