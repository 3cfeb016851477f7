// What a station does with a script, and what it prints of each commit.
#![tactic(auto)]

pub mod laws;
mod report;
mod script;

pub use script::play;
