// A newcomer sits down at the leftmost blank leaf; a full tree grows first.
ghost use Rattle.std.specs.Prelude.{◌≡◌, ◌≤◌, true, length, is_ok, IfOk, if◌then◌else◌};
ghost use Rattle.theory.specs.Limits.{max_depth};
ghost use Rattle.theory.specs.Tree.{added, is_blank, leaf, occupied, unmerged_at};
ghost use Rattle.tree_math.specs.Span.{span};
ghost use Rattle.ratchet_tree.specs.Add.{Grown, Joined};
ghost use Rattle.ratchet_tree.specs.Nodes.{leaf_of, parent_of, tree_of};
ghost use Rattle.ratchet_tree.specs.Trees.{the_tree};

use crate::copy::{copy_nodes, double};
use crate::error::TreeError;
use crate::member::{MemberId, PublicKey};
use crate::node::{Leaf, Node, Parent};
use crate::part::Part;
use crate::tree::RatchetTree;
use std::alloc::{AllocError, Global};
use tree_math::{MAX_DEPTH, left_half, right_half};

// Seats the newcomer at this leaf if it is blank.
fn seat(node: &mut Node, member: MemberId, key: PublicKey)
    ensures { leaf_of node.new ≡ (if is_blank (leaf_of node.old) then occupied member.0 key else leaf_of node.old) }
{
    if !node.is_occupied() {
        *node = Node::Leaf(Leaf::Occupied { member, key });
    }
}

// The newcomer is unmerged at this parent if it has a key.
fn note_unmerged(node: &mut Node, member: MemberId) -> Result<(), AllocError>
    ensures { is_ok result ≡ true → parent_of node.new ≡ unmerged_at member.0 (parent_of node.old) }
{
    if let Node::Parent(Parent::Keyed { unmerged, .. }) = node {
        unmerged.insert(0, member)?;
    }
    Ok(())
}

// Nodes and height go apart: a struct of both, that keeps their fact, gets no generated proof where its slice is lent on.
fn add_in(
    nodes: &mut [Node],
    height: usize,
    member: MemberId,
    key: PublicKey,
) -> Result<(), AllocError>
    requires { (length nodes.old ≡ span height) × (height ≤ max_depth) }
    ensures { is_ok result ≡ true → tree_of height nodes.new ≡ added member.0 key (tree_of height nodes.old) }
{
    if height == 0 {
        seat(&mut nodes[0], member, key);
        return Ok(());
    }
    // by a rule of the project the half that is written is lent on in sight, the left one or the right one
    let middle = nodes.len() / 2;
    let left = Part {
        nodes: left_half(nodes),
        height: height - 1,
    };
    if !left.is_full() {
        note_unmerged(&mut nodes[middle], member)?;
        return add_in(&mut nodes[0..middle], height - 1, member, key);
    }
    let right = Part {
        nodes: right_half(nodes),
        height: height - 1,
    };
    if !right.is_full() {
        note_unmerged(&mut nodes[middle], member)?;
        return add_in(&mut nodes[middle + 1..], height - 1, member, key);
    }
    Ok(())
}

impl RatchetTree {
    // A tree of one leaf, with its founder.
    pub fn founded(
        alloc: Global,
        member: MemberId,
        key: PublicKey,
    ) -> Result<RatchetTree, AllocError>
        ensures { IfOk result (λ t. the_tree t ≡ leaf (occupied member.0 key)) }
    {
        let nodes = vec![in alloc; Node::Leaf(Leaf::Occupied { member, key })]?;
        Ok(RatchetTree { nodes, depth: 0 })
    }

    // A copy that has a blank leaf: where there was none, the tree doubles and the old one is the left half.
    fn with_room(&self, alloc: Global) -> Result<RatchetTree, TreeError>
        ensures { Grown self.now result }
    {
        let mut nodes = copy_nodes(alloc, &self.nodes)?;
        let depth = self.depth;
        if !self.as_part().is_full() {
            return Ok(RatchetTree { nodes, depth });
        }
        if depth >= MAX_DEPTH {
            return Err(TreeError::NoRoom);
        }
        double(&mut nodes)?;
        Ok(RatchetTree {
            nodes,
            depth: depth + 1,
        })
    }

    // The tree with the newcomer at the leftmost blank leaf, unmerged at every keyed parent above it.
    pub fn with_member(
        &self,
        alloc: Global,
        member: MemberId,
        key: PublicKey,
    ) -> Result<RatchetTree, TreeError>
        ensures { Joined member.0 key self.now result }
    {
        let mut next = self.with_room(alloc)?;
        let depth = next.depth;
        add_in(&mut next.nodes, depth, member, key)?;
        Ok(next)
    }
}
