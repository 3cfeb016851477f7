// Commit messages and tree files as bytes, and a handset that takes a message.
#![tactic(auto)]

mod handset;
mod laws;
mod message;
mod read;
mod read_tree;
mod receive;
mod send;
mod tree_file;
mod write;

pub use handset::{Handset, accept, take_message};
pub use laws::{
    letter_runs_hold, letters_arrive_holds, letters_deliver_holds, no_message_is_a_tree_holds,
    one_reading_holds, one_tree_holds, round_trip_holds,
};
pub use message::{CommitMessage, MessageChange, WriteError};
pub use read::read_message;
pub use read_tree::parse_tree;
pub use receive::take;
pub use send::{VaultAnswers, compose};
pub use tree_file::{FileError, FileHeader};
pub use write::write_message;
