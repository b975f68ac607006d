//! A simulated line: what a schedule of orders, events, moments and losses makes of a controller and a reader.
//!
//! `run_session` runs one controller and one reader over a list of steps, with the machines of a panel and a device, and hands back the
//! account of what happened. Bursts go over the line as bytes, and are read from bytes at the other end.
//!
//! ```text
//! let steps = [
//!     SimStep::Issue(1, command),
//!     SimStep::Wait(400), // the opening ID goes out
//!     SimStep::ToReader(Move::Deliver),
//!     SimStep::ToController(Move::Deliver),
//!     SimStep::Wait(50), // the command goes out
//!     SimStep::ToReader(Move::Repeat), // and reaches the reader twice
//!     SimStep::ToReader(Move::Deliver),
//!     SimStep::ToController(Move::Deliver),
//! ];
//! let account = run_session(alloc, &config, door, &steps)?; // it was taken once
//! ```
//!
//! What holds of each account, whatever the schedule, is said by the laws of `osdp_sim_laws`.
#![tactic(auto)]

mod account;
mod config;
mod fault;
pub mod hearing;
mod kept;
pub mod line;
pub mod running;
mod schedule;
mod session;
mod settled;
mod simulation;
mod step;
pub mod steps;

pub use account::{Account, End, Lengths};
pub use config::SimConfig;
pub use fault::{Cause, Fault};
pub use kept::{Kept, KeptLeft};
pub use schedule::Schedule;
pub use session::{run_schedule, run_session};
pub use settled::{Settled, SettledLeft};
pub use step::{Move, SimStep};
