// Tree files: a group's epoch and tree as bytes, read, judged and written.
#![tactic(auto)]

mod judge;
mod laws;
mod read;
mod write;

// Why a file is not read.
pub use commits::CommitError as FileError;
pub use judge::is_well_formed;
pub use laws::{file_precedence_holds, file_round_trip_holds, runs_filed_holds};
// Why a file is not written.
pub use messages::WriteError;
pub use read::read_tree;
pub use write::write_tree;
