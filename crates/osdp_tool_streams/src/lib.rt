//! What the program reads and writes: streams that are watched for failures, inputs that are cut into lines of digits, and the faults.
#![tactic(auto)]

mod answer;
mod digits;
mod fault;
mod form;
pub mod laws;
mod line;
mod mode;
mod piece;
mod transfer;
mod watch;

pub use answer::{final_answer, finish};
pub use digits::Digits;
pub use fault::ToolFault;
pub use form::Form;
pub use line::{keep, read_line};
pub use mode::Mode;
pub use piece::{LIMIT, Piece, read_piece};
pub use transfer::{flush_out, read_some, write_out};
pub use watch::Watched;
