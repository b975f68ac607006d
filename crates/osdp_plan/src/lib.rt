//! How long a line that is planned takes: a round of POLLs, the wait of an order and of a card, and the time until a device that falls silent is told lost.
//!
//! The figures are the bounds of the laws in time, of the settings of a plan. Each byte has ten bits on the wire. Times are in milliseconds.
#![tactic(auto)]

mod bounds;
mod judging;
pub mod laws;
mod plan;

pub use bounds::Others;
pub use judging::{TooShort, judge};
pub use plan::Plan;
