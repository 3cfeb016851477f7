// Why a tree takes nobody.
ghost use Rattle.std.specs.Prelude.{◌≡◌};
ghost use Rattle.ratchet_tree.specs.declared.error.TreeError.TheVariants.{OutOfMemory};

use std::alloc::AllocError;

#[derive(Clone, Copy, PartialEq, Eq, Debug)]
pub enum TreeError {
    // Every leaf of the deepest tree is occupied.
    NoRoom,
    OutOfMemory,
}

impl From<AllocError> for TreeError {
    ghost from_gives = { λ _ e. e ≡ OutOfMemory };

    fn from(_error: AllocError) -> TreeError {
        TreeError::OutOfMemory
    }
}
