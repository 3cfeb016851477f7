// Commits: what is asked, who may ask it, the path that is laid, and the tree that comes of it.
#![tactic(auto)]

mod carry;
mod change;
mod count;
mod error;
mod judge;
mod limits;
mod path;
mod refusal;
mod targets;

pub use carry::{Applied, CommitKeys, apply, commit_counts, message_counts, ready};
pub use change::{Change, Commit, Epoch};
pub use count::{Counts, path_counts, resolution_count};
pub use error::CommitError;
pub use judge::verdict;
pub use limits::{LAST_EPOCH, MAX_MEMBERS, NOBODY};
pub use path::{PathKeys, lay_path};
pub use refusal::Refusal;
pub use targets::{Target, path_targets};
