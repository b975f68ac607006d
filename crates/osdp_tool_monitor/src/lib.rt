//! The command `monitor`: what a listener prints of a line as it goes, what happens on it and which end breaks its rules.
#![tactic(auto)]

mod command;
mod counts;
mod diagnosis;
mod input;
pub mod laws;
mod listener;
mod mode;
mod moments;
mod open_line;
mod output;
mod session;
mod table;
mod talk;
mod text;
mod trail;
mod window;

pub use command::monitor;
pub use counts::Counts;
pub use listener::Listener;
pub use mode::{MonitorMode, MonitorOption, monitor_mode};
pub use moments::Moments;
pub use open_line::OpenLine;
