//! The command `sim`: a script of a schedule, run over a simulated line, and the texts of the accounts of what happened.
#![tactic(auto)]

mod account;
mod command;
mod laws;
mod lines;
mod one;
mod reading;
mod run;
mod several;
mod told;

pub use account::account_text;
pub use command::sim;
pub use laws::{ends_in_turn, has_one_account, has_one_each, input_decides};
