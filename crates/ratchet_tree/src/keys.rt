// The keys of a part: a member's leaf key, the resolution, and the node key that a member holds.
ghost use Rattle.std.specs.Prelude.{◌≡◌, IfOk, MatchOption};
ghost use Rattle.std.specs.Option.{option_to_list};
ghost use Rattle.theory.specs.Held.{held_at, is_unmerged, node_key_held};
ghost use Rattle.theory.specs.Tree.{blank_parent, leaf_key, leaf_keys};
ghost use Rattle.theory.specs.Tree.{resolution as resolution_of};
ghost use Rattle.ratchet_tree.specs.Keys.{Appends, IsKeyed};
ghost use Rattle.ratchet_tree.specs.Nodes.{numbers, parent_of};
ghost use Rattle.ratchet_tree.specs.Parts.{part_tree};
ghost use Rattle.ratchet_tree.specs.Seats.{Seats};

use crate::member::{MemberId, PublicKey};
use crate::node::{Node, Parent};
use crate::part::Part;
use crate::seats::{Entry, Seat, seat_at, seats_of};
use crate::split::Split;
use std::alloc::{AllocError, Global};

// A table of who sits where has an entry for each number up to the largest: for so many members it takes longer to make.
const FEW: usize = 16;

// A node key and its unmerged members, lent from the parent.
#[derive(Clone, Copy)]
pub struct Keyed<'a> {
    pub key: PublicKey,
    pub unmerged: &'a [MemberId],
}

impl Node {
    // The key and unmerged members of this node, taken as a parent.
    pub fn node_key(&self) -> Option<Keyed<'_>>
        ensures { MatchOption result (parent_of self.now ≡ blank_parent) (λ k. IsKeyed k (parent_of self.now)) }
    {
        match self {
            Node::Parent(Parent::Keyed { key, unmerged }) => Some(Keyed {
                key: *key,
                unmerged,
            }),
            Node::Parent(Parent::Blank) | Node::Leaf(_) => None,
        }
    }
}

fn push_some(out: &mut Vec<PublicKey>, key: Option<PublicKey>) -> Result<(), AllocError>
    ensures { Appends out.old.items (option_to_list key) out.new.items result }
{
    if let Some(key) = key {
        out.push(key)?;
    }
    Ok(())
}

// Is the member among these?
pub fn is_among(members: &[MemberId], member: MemberId) -> bool
    ensures { result ≡ is_unmerged member.0 (numbers members.now) }
{
    members.contains(&member)
}

impl<'a> Part<'a> {
    // Appends the member's leaf key, looked up at its leaf; nothing where it isn't seated here.
    fn push_leaf_key(self, member: MemberId, out: &mut Vec<PublicKey>) -> Result<(), AllocError>
        ensures { Appends out.old.items (leaf_key member.0 (part_tree self.entry)) out.new.items result }
    {
        match self.split() {
            Split::Leaf(node) => push_some(out, node.leaf_key_of(member)),
            Split::Parent(left, _, right) => {
                left.push_leaf_key(member, out)?;
                right.push_leaf_key(member, out)
            }
        }
    }

    // Appends the member's leaf key, looked up where the table says; where that doesn't say it, all leaves are looked at.
    fn push_key_at(
        self,
        seats: &[Entry],
        member: MemberId,
        out: &mut Vec<PublicKey>,
    ) -> Result<(), AllocError>
        requires { Seats (part_tree self) seats.now }
        ensures { Appends out.old.items (leaf_key member.0 (part_tree self.entry)) out.new.items result }
    {
        match seat_at(seats, member) {
            Some(Seat::Nowhere) => Ok(()),
            Some(Seat::At(leaf)) => push_some(out, self.nodes[2 * leaf.0].leaf_key_of(member)),
            Some(Seat::Several) | None => self.push_leaf_key(member, out),
        }
    }

    // Appends the leaf keys of these members, few of them looked up one by one.
    fn push_leaf_keys(
        self,
        alloc: Global,
        members: &[MemberId],
        out: &mut Vec<PublicKey>,
    ) -> Result<(), AllocError>
        ensures { Appends out.old.items (leaf_keys (numbers members.now) (part_tree self.entry)) out.new.items result }
    {
        if members.len() <= FEW {
            for member in members {
                self.push_leaf_key(*member, out)?;
            }
            return Ok(());
        }
        let seats = seats_of(alloc, self, members)?;
        for member in members {
            self.push_key_at(&seats, *member, out)?;
        }
        Ok(())
    }

    // Appends the fewest keys that reach everybody seated here.
    fn push_resolution(self, alloc: Global, out: &mut Vec<PublicKey>) -> Result<(), AllocError>
        ensures { Appends out.old.items (resolution_of (part_tree self.entry)) out.new.items result }
    {
        match self.split() {
            Split::Leaf(node) => push_some(out, node.leaf_key()),
            Split::Parent(left, node, right) => match node.node_key() {
                Some(keyed) => {
                    out.push(keyed.key)?;
                    self.push_leaf_keys(alloc, keyed.unmerged, out)
                }
                None => {
                    left.push_resolution(alloc, out)?;
                    right.push_resolution(alloc, out)
                }
            },
        }
    }

    // The fewest keys that reach everybody seated here.
    pub fn resolution(self, alloc: Global) -> Result<Vec<PublicKey>, AllocError>
        ensures { IfOk result (λ v. v.items ≡ resolution_of (part_tree self.entry)) }
    {
        let mut keys = Vec::new(alloc);
        self.push_resolution(alloc, &mut keys)?;
        Ok(keys)
    }
}

impl Node {
    // The node key that the member, seated below, holds of this parent.
    fn node_key_held(&self, member: MemberId) -> Option<PublicKey>
        ensures { option_to_list result ≡ node_key_held member.0 (parent_of self.now) }
    {
        self.node_key()
            .filter(|keyed| !is_among(keyed.unmerged, member))
            .map(|keyed| keyed.key)
    }
}

impl<'a> Part<'a> {
    // The key that the member holds at this height above its leaf: its leaf key at 0, and then the node keys of the
    // parents above it at which it isn't unmerged.
    pub fn key_held(self, member: MemberId, height: usize) -> Option<PublicKey>
        ensures { option_to_list result ≡ held_at member.0 height (part_tree self.entry) }
    {
        match self.split() {
            Split::Leaf(node) if height == 0 => node.leaf_key_of(member),
            Split::Leaf(_) => None,
            Split::Parent(left, node, right) => {
                if height == self.height {
                    // an `if`: by `then` and `flatten` it says no more
                    if self.is_seated(member) {
                        node.node_key_held(member)
                    } else {
                        None
                    }
                } else if left.is_seated(member) {
                    left.key_held(member, height)
                } else {
                    right.key_held(member, height)
                }
            }
        }
    }
}
