// A tree as its nodes in a line, leaves at the even indices and parents at the odd ones.
ghost use Rattle.std.specs.Prelude.{◌≡◌, ◌≤◌, vec_len};
ghost use Rattle.theory.specs.Limits.{max_depth};
ghost use Rattle.tree_math.specs.Span.{span};

use crate::node::Node;

#[derive(Drop)]
pub struct RatchetTree {
    pub nodes: Vec<Node>,
    pub depth: usize,
    ghost whole: { vec_len nodes ≡ span depth },
    ghost shallow: { depth ≤ max_depth },
}
