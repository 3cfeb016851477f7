// A part of a tree: the lent nodes below some node, and that node's height.
ghost use Rattle.std.specs.Prelude.{◌≡◌, ◌≤◌, length};
ghost use Rattle.theory.specs.Limits.{max_depth};
ghost use Rattle.tree_math.specs.Span.{span};

use crate::node::Node;

#[derive(Clone, Copy)]
pub struct Part<'a> {
    pub nodes: &'a [Node],
    pub height: usize,
    ghost whole: { length nodes.now ≡ span height },
    ghost shallow: { height ≤ max_depth },
}
