//! The inputs of `show`, `check` and `monitor`: standard input or files by name, in any form, one after the other.
#![tactic(auto)]

mod asked;
mod capture;
mod clock;
mod ears;
mod echoes;
mod heard;
mod hinted;
mod inputs;
pub mod laws;
mod lines;
mod places;
mod printable;
mod tasks;
mod times;
mod told;

pub use asked::{Asked, Reads, Task, read_words};
pub use inputs::do_all;
