//! Options of a command: words in any order, of which a later one of a kind holds.
#![tactic(auto)]

pub mod laws;
mod reading;

pub use reading::{CommandOption, read_options};
