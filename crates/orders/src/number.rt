// Which key of a part's resolution reaches a member, and where the member holds it.
ghost use Rattle.std.specs.Prelude.{◌≡◌, suc, ◌≤◌, if◌then◌else◌};
ghost use Rattle.theory.specs.Held.{is_unmerged};
ghost use Rattle.vault_theory.specs.Numbers.{before, height_of_key, number_of_key};
ghost use Rattle.ratchet_tree.specs.Nodes.{numbers};
ghost use Rattle.ratchet_tree.specs.Parts.{part_tree};
ghost use Rattle.commits.specs.Counts.{capped};

use crate::height::Height;
use commits::resolution_count;
use ratchet_tree::{MemberId, Part, Split, is_among};

// The node key comes first, and then the leaf keys of the unmerged.
fn unmerged_number(members: &[MemberId], member: MemberId) -> usize
    ensures { result ≡ (if is_unmerged member.0 (numbers members.now) then suc (before member.0 (numbers members.now)) else 0) }
{
    members
        .iter()
        .position(|other| *other == member)
        .map_or(0, |i| i + 1)
}

// The number of the key that reaches the member, who is seated here.
pub fn key_number(part: Part, member: MemberId) -> usize
    ensures { result ≡ capped (number_of_key member.0 (part_tree part.entry)) }
{
    match part.split() {
        Split::Leaf(_) => 0,
        Split::Parent(left, node, right) => match node.node_key() {
            Some(keyed) => unmerged_number(keyed.unmerged, member),
            None if left.is_seated(member) => key_number(left, member),
            None => resolution_count(left).saturating_add(key_number(right, member)),
        },
    }
}

// The height at which the member holds that key.
pub fn key_height(part: Part, member: MemberId) -> Height
    ensures value { result.value ≡ height_of_key member.0 (part_tree part.entry) }
    ensures low { result.value ≤ part.entry.height }
{
    match part.split() {
        Split::Leaf(_) => Height::leaf(),
        Split::Parent(left, node, right) => match node.node_key() {
            Some(keyed) if is_among(keyed.unmerged, member) => Height::leaf(),
            Some(_) => Height::of(part),
            None if left.is_seated(member) => key_height(left, member),
            None => key_height(right, member),
        },
    }
}
