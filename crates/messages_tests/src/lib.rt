// Tables of cases: letters that a handset is handed, and messages that a committer makes.
#![tactic(auto)]

mod composing;
mod taking;
