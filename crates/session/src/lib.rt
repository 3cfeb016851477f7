// What the program `handset` prints: a member and a tree file to start from, then one reply to each message.
#![tactic(auto)]

mod opening;
mod replies;
mod text;

pub use opening::start;
pub use replies::{refuse, reply};
pub use text::write_order;
