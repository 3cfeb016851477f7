// What the orders for a commit are worked out from.
ghost use Rattle.std.specs.Prelude.{◌≡◌, true};
ghost use Rattle.theory.specs.Tree.{seated};
ghost use Rattle.ratchet_tree.specs.Parts.{part_tree};

use messages::MessageChange;
use ratchet_tree::{MemberId, Part};

// A commit with the tree before it, and the tree with what is asked, that the path is laid on.
#[derive(Clone, Copy)]
pub struct CommitView<'a> {
    pub committer: MemberId,
    pub change: MessageChange,
    pub before: Part<'a>,
    pub readied: Part<'a>,
    ghost seated: { seated committer.0 (part_tree readied) ≡ true },
}
