//! The command `test panel`: what a panel sent and what the device said to it, line by line, and the verdict on each rule.
#![tactic(auto)]

mod command;
mod fault;
mod laws;
mod rules;
mod said;
mod tested;

pub use command::test_panel;
pub use laws::{ends_by_its_lines, ends_in_turn, tells_by_the_line};
pub use rules::{PANEL_RULES, PanelRule};
