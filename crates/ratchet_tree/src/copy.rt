// Copies of a tree's nodes, so that a change that finds no memory leaves the tree as it was.
ghost use Rattle.std.specs.Prelude.{◌≡◌, ◌+◌, [], ◌∷◌, map, length, replicate, IfOk};
ghost use Rattle.theory.specs.Tree.{blank_leaf, blank_parent};
ghost use Rattle.ratchet_tree.specs.Keys.{Appends};
ghost use Rattle.ratchet_tree.specs.Nodes.{seen};
ghost use Rattle.ratchet_tree.specs.Trees.{the_tree};

use crate::node::{Leaf, Node, Parent};
use crate::tree::RatchetTree;
use std::alloc::{AllocError, Global};

// Appends a copy of the node.
// Each kind is pushed where it is made: a derived clone moves a node, which is large, once more, and takes 7 % longer.
fn push_copy(alloc: Global, node: &Node, copies: &mut Vec<Node>) -> Result<(), AllocError>
    ensures { Appends (map seen copies.old.items) (seen node.now ∷ []) (map seen copies.new.items) result }
{
    match node {
        Node::Leaf(Leaf::Blank) => copies.push(Node::Leaf(Leaf::Blank))?,
        Node::Leaf(Leaf::Occupied { member, key }) => copies.push(Node::Leaf(Leaf::Occupied {
            member: *member,
            key: *key,
        }))?,
        Node::Parent(Parent::Blank) => copies.push(Node::Parent(Parent::Blank))?,
        Node::Parent(Parent::Keyed { key, unmerged }) => {
            let unmerged = Vec::from_slice(alloc, unmerged)?;
            copies.push(Node::Parent(Parent::Keyed {
                key: *key,
                unmerged,
            }))?
        }
    }
    Ok(())
}

pub(crate) fn copy_nodes(alloc: Global, nodes: &[Node]) -> Result<Vec<Node>, AllocError>
    ensures { IfOk result (λ v. map seen v.items ≡ map seen nodes.now) }
{
    let mut copies = Vec::with_capacity(alloc, nodes.len())?;
    for node in nodes {
        push_copy(alloc, node, &mut copies)?;
    }
    Ok(copies)
}

// A blank node for this index: leaves stand at the even ones.
fn blank_node(index: usize) -> Node
    ensures { seen result ≡ (blank_leaf, blank_parent) }
{
    if index % 2 == 0 {
        Node::Leaf(Leaf::Blank)
    } else {
        Node::Parent(Parent::Blank)
    }
}

// Appends a blank parent, and behind it as many blank nodes as there were.
pub(crate) fn double(nodes: &mut Vec<Node>) -> Result<(), AllocError>
    ensures { Appends (map seen nodes.old.items) (replicate (length nodes.old.items + 1) (blank_leaf, blank_parent)) (map seen nodes.new.items) result }
{
    let count = nodes.len();
    // a `for` over the new indices, which tell the leaves: by `extend` of a map, how many nodes come stays unproved
    for index in count..2 * count + 1 {
        nodes.push(blank_node(index))?;
    }
    Ok(())
}

impl RatchetTree {
    // The same tree, in memory of its own.
    pub fn copy(&self, alloc: Global) -> Result<RatchetTree, AllocError>
        ensures { IfOk result (λ t. the_tree t ≡ the_tree self.now) }
    {
        let nodes = copy_nodes(alloc, &self.nodes)?;
        Ok(RatchetTree {
            nodes,
            depth: self.depth,
        })
    }
}
