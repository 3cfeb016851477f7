// A part taken apart: its leaf, or the node between its halves.
ghost use Rattle.std.specs.Prelude.{◌≡◌};
ghost use Rattle.ratchet_tree.specs.Parts.{Shows, part_tree};
ghost use Rattle.ratchet_tree.specs.Trees.{the_tree};

use crate::node::Node;
use crate::part::Part;
use crate::tree::RatchetTree;
use tree_math::{left_half, right_half};

pub enum Split<'a> {
    Leaf(&'a Node),
    Parent(Part<'a>, &'a Node, Part<'a>),
}

impl<'a> Part<'a> {
    // The part's leaf, or its halves and the node between them.
    pub fn split(self) -> Split<'a>
        ensures { Shows self.entry result }
    {
        let nodes = self.nodes;
        if self.height == 0 {
            return Split::Leaf(&nodes[0]);
        }
        let height = self.height - 1;
        let left = Part {
            nodes: left_half(nodes),
            height,
        };
        let right = Part {
            nodes: right_half(nodes),
            height,
        };
        Split::Parent(left, &nodes[nodes.len() / 2], right)
    }
}

impl RatchetTree {
    // The whole tree as a part.
    pub fn as_part(&self) -> Part<'_>
        ensures { part_tree result ≡ the_tree self.now }
    {
        Part {
            nodes: &self.nodes,
            height: self.depth,
        }
    }
}
