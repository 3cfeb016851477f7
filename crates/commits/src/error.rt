// Why a commit is not carried out.
ghost use Rattle.std.specs.Prelude.{◌≡◌};
ghost use Rattle.commits.specs.Errors.{told};
ghost use Rattle.commits.specs.declared.error.CommitError.TheVariants as commit_error;

use crate::refusal::Refusal;
use ratchet_tree::TreeError;
use std::alloc::AllocError;

#[derive(Clone, Copy, PartialEq, Eq, Debug)]
pub enum CommitError {
    Refused(Refusal),
    OutOfMemory,
}

impl From<Refusal> for CommitError {
    ghost from_gives = { λ refusal e. e ≡ commit_error.Refused refusal };

    fn from(refusal: Refusal) -> CommitError {
        CommitError::Refused(refusal)
    }
}

impl From<AllocError> for CommitError {
    ghost from_gives = { λ _ e. e ≡ commit_error.OutOfMemory };

    fn from(_error: AllocError) -> CommitError {
        CommitError::OutOfMemory
    }
}

// A tree with no room for a newcomer is a full group.
impl From<TreeError> for CommitError {
    ghost from_gives = { λ error e. e ≡ told error };

    fn from(error: TreeError) -> CommitError {
        match error {
            TreeError::NoRoom => CommitError::Refused(Refusal::GroupFull),
            TreeError::OutOfMemory => CommitError::OutOfMemory,
        }
    }
}
