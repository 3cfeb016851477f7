// The lines of a script as bytes: to values, and back.
#![tactic(auto)]

pub mod laws;
pub mod line;
pub mod lines;
pub mod numbers;
mod split;
