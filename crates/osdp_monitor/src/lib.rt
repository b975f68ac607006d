//! The listener's machine: what happens on a line, and which end breaks its rules.
//!
//! A `Monitor` is given the items of the line and says of each packet what is worth a person's look. It accuses an end of a packet that no end
//! may send after what is known of its address. It begins with nothing known, and where a packet may have been missed it forgets.
#![tactic(auto)]

mod accusation;
mod device;
mod devices;
mod found;
mod judging;
mod kept;
pub mod laws;
mod monitor;
mod panel;
mod reader;
mod said;

pub use accusation::{Accusation, Basis};
pub use found::{Found, Notice};
pub use monitor::Monitor;
pub use said::{Said, is_poll};
