//! An input of lines, each answered at once: its answer is written and flushed before more is read.
#![tactic(auto)]

mod answerer;
mod answering;
pub mod laws;
mod lines;

pub use answerer::{LONGEST, LineAnswerer};
pub use answering::answer_lines;
