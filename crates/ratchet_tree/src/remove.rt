// A member leaves: its leaf and every parent above it become blank.
ghost use Rattle.std.specs.Prelude.{◌≡◌, ◌≤◌, length, if◌then◌else◌};
ghost use Rattle.theory.specs.Limits.{max_depth};
ghost use Rattle.theory.specs.Tree.{blank_leaf, blank_parent, is_at, removed};
ghost use Rattle.tree_math.specs.Span.{span};
ghost use Rattle.ratchet_tree.specs.Nodes.{leaf_of, parent_of, tree_of};
ghost use Rattle.ratchet_tree.specs.Trees.{the_tree};

use crate::member::MemberId;
use crate::node::{Leaf, Node, Parent};
use crate::part::Part;
use crate::tree::RatchetTree;
use tree_math::halves_mut;

// Blanks the leaf if the member sits there.
fn vacate(node: &mut Node, member: MemberId)
    ensures { leaf_of node.new ≡ (if is_at member.0 (leaf_of node.old) then blank_leaf else leaf_of node.old) }
{
    if node.seats(member) {
        *node = Node::Leaf(Leaf::Blank);
    }
}

// Blanks a parent.
fn blank(node: &mut Node)
    ensures { parent_of node.new ≡ blank_parent }
{
    *node = Node::Parent(Parent::Blank);
}

// Nodes and height go apart: a struct of both, that keeps their fact, gets no generated proof where its slice is lent on.
fn remove_in(nodes: &mut [Node], height: usize, member: MemberId)
    requires { (length nodes.old ≡ span height) × (height ≤ max_depth) }
    ensures { tree_of height nodes.new ≡ removed member.0 (tree_of height nodes.old) }
{
    if height == 0 {
        vacate(&mut nodes[0], member);
        return;
    }
    let part = Part { nodes, height };
    if part.is_seated(member) {
        let (left, rest) = halves_mut(nodes);
        let Some((node, right)) = rest.split_first_mut() else {
            unreachable!();
        };
        blank(node);
        remove_in(left, height - 1, member);
        remove_in(right, height - 1, member);
    }
}

impl RatchetTree {
    // Blanks the member's leaf and every parent above it.
    pub fn remove(&mut self, member: MemberId)
        ensures { the_tree self.new ≡ removed member.0 (the_tree self.old) }
    {
        let depth = self.depth;
        remove_in(&mut self.nodes, depth, member);
    }
}
