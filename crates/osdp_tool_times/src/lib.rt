//! How long the devices of a line take to answer, by the moments that the comments of a capture tell.
#![tactic(auto)]

mod capture;
mod day_time;
pub mod laws;
mod line;
mod moment;
mod object;
mod presence;
mod presence_object;
mod presence_text;
mod run;
mod table;
#[cfg(test)]
mod tests;
mod text;
mod waits;

pub use capture::Timed;
pub use day_time::clock_stamp;
pub use waits::Told;
