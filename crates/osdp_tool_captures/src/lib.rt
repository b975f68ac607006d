//! Captures of other tools: their lines, as lines of digits that `show`, `check` and `monitor` read.
#![tactic(auto)]

mod digits;
mod entry;
mod fault;
mod format;
mod hint;
pub mod laws;
mod line;
mod mark;
mod translation;
mod whole;

pub use fault::{BadLine, LineFault};
pub use format::{Format, Tool};
pub use hint::{FRONT, Hint, looks_like};
pub use mark::Unmarked;
pub use translation::{Translated, line_length, translate};
pub use whole::{Whole, read_whole};
