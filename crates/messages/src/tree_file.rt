// What a tree file begins with, and why bytes are none. Whether the tree keeps the rules is not judged here.
ghost use Rattle.std.specs.Prelude.{◌≡◌};
ghost use Rattle.messages.specs.Errors.{unparsed};
ghost use Rattle.messages.specs.declared.tree_file.FileError.TheVariants as file_error;

use commits::{CommitError, Epoch, Refusal};
use std::alloc::{AllocError, AllocFailed};

#[derive(Clone, Copy)]
pub struct FileHeader {
    pub epoch: Epoch,
    pub depth: usize,
}

#[derive(Clone, Copy, PartialEq, Eq, Debug)]
pub enum FileError {
    // Not the bytes of a tree.
    Malformed,
    OutOfMemory,
}

impl From<AllocError> for FileError {
    ghost from_gives = { λ _ e. e ≡ file_error.OutOfMemory };

    fn from(_error: AllocError) -> FileError {
        FileError::OutOfMemory
    }
}

impl<T: Drop> From<AllocFailed<T>> for FileError {
    ghost from_gives = { λ _ e. e ≡ file_error.OutOfMemory };

    fn from(_error: AllocFailed<T>) -> FileError {
        FileError::OutOfMemory
    }
}

// Bytes of no tree are refused as such.
impl From<FileError> for CommitError {
    ghost from_gives = { λ error e. e ≡ unparsed error };

    fn from(error: FileError) -> CommitError {
        match error {
            FileError::Malformed => CommitError::Refused(Refusal::Malformed),
            FileError::OutOfMemory => CommitError::OutOfMemory,
        }
    }
}
