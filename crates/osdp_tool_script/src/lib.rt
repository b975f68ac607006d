//! The command `test script`: a script of one's own is run line by line, between somebody who sends its packets and the program's own verdicts.
#![tactic(auto)]

mod command;
pub mod laws;
mod telling;

pub use command::script;
