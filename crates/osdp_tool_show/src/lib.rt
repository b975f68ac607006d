//! The commands `show` and `check`: what stands in a capture of the line, told in a line of text for each item.
//!
//! The lines of items and counts are those that a listener prints too.
#![tactic(auto)]

mod capture;
mod commands;
mod detail;
mod hex_text;
mod item_text;
pub mod laws;
mod message_text;
mod number;
mod packet_text;
mod reading;
mod report;
mod runs;
mod tally;
mod telling;

pub use commands::{command, show};
pub use detail::{Detail, Filter};
pub use item_text::{push_counts, push_end};
pub use tally::Tally;
pub use telling::tell;
