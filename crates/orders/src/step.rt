// A parent on the committer's path.
ghost use Rattle.std.specs.Prelude.{◌≤◌};
ghost use Rattle.theory.specs.Limits.{max_depth};

use crate::height::Height;
use ratchet_tree::{Node, Part};

// `other` is the side that the path does not come from, `level` that of the path secret which comes from below.
#[derive(Clone, Copy)]
pub struct PathStep<'a> {
    pub node: &'a Node,
    pub height: Height,
    pub other: Part<'a>,
    pub level: usize,
    ghost low: { level ≤ max_depth },
}
