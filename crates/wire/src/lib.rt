// Values and runs of parts at the front of some bytes, and values appended to some.
#![tactic(auto)]

mod encode;
mod run;

pub use encode::{Encode, read, read_all, write, write_all};
pub use run::{PartSize, read_run};
