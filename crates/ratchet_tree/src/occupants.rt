// Who sits at a node, taken as a leaf.
ghost use Rattle.std.specs.Prelude.{◌≡◌, [], not, if◌then◌else◌, MatchOption};
ghost use Rattle.std.specs.Option.{option_to_list};
ghost use Rattle.theory.specs.Tree.{blank_leaf, is_at, is_blank, key_at, occupied};
ghost use Rattle.ratchet_tree.specs.Nodes.{leaf_of};

use crate::member::{MemberId, PublicKey};
use crate::node::{Leaf, Node};

// A member at its leaf, with its leaf key.
#[derive(Clone, Copy, PartialEq, Eq, Debug)]
pub struct Occupant {
    pub member: MemberId,
    pub key: PublicKey,
}

impl Node {
    // Who sits at this node, taken as a leaf; a parent has nobody.
    pub fn occupant(&self) -> Option<Occupant>
        ensures { MatchOption result (leaf_of self.now ≡ blank_leaf) (λ o. leaf_of self.now ≡ occupied o.member.0 o.key) }
    {
        match self {
            Node::Leaf(Leaf::Occupied { member, key }) => Some(Occupant {
                member: *member,
                key: *key,
            }),
            Node::Leaf(Leaf::Blank) | Node::Parent(_) => None,
        }
    }

    // Does the member sit at this node? Asked of every leaf, and by way of `occupant` it takes a third longer.
    pub fn seats(&self, member: MemberId) -> bool
        ensures { result ≡ is_at member.0 (leaf_of self.now) }
    {
        matches!(self, Node::Leaf(Leaf::Occupied { member: who, .. }) if *who == member)
    }

    // Does anybody sit at this node?
    pub fn is_occupied(&self) -> bool
        ensures { result ≡ not (is_blank (leaf_of self.now)) }
    {
        self.occupant().is_some()
    }

    // The key at this node.
    pub(crate) fn leaf_key(&self) -> Option<PublicKey>
        ensures { option_to_list result ≡ key_at (leaf_of self.now) }
    {
        self.occupant().map(|occupant| occupant.key)
    }

    // The key at this node, if the member sits there.
    pub(crate) fn leaf_key_of(&self, member: MemberId) -> Option<PublicKey>
        ensures { option_to_list result ≡ (if is_at member.0 (leaf_of self.now) then key_at (leaf_of self.now) else []) }
    {
        self.occupant()
            .filter(|occupant| occupant.member == member)
            .map(|occupant| occupant.key)
    }
}
