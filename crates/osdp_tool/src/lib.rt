//! The words of the command line: which command they choose, the helps that they ask for, and the packet that they spell for `make`.
#![tactic(auto)]

mod capture_options;
mod choice;
mod command_line;
mod help;
mod help_test;
mod input_words;
mod jobs;
pub mod laws;
mod making;
mod order;
mod words;

pub use capture_options::{CaptureMode, CaptureOption, capture_mode};
pub use choice::{Choice, Topic, choose, unknown_command};
pub use command_line::{arguments, lent};
pub use help::{VERSION, help_text};
pub use input_words::{are_files, format_of, without_formats};
pub use jobs::Job;
pub use making::make;
pub use order::{Message, PacketOrder};
pub use words::job;
