//! A simulated line with several readers: what a schedule of orders, events, moments and losses makes of a bus and its readers.
//!
//! `run_bus` runs a bus, as a panel has it, and up to sixteen readers over a list of steps, and hands back the account of each reader.
//! Each burst to the readers reaches all of them, and each that they send goes to the bus.
//!
//! ```text
//! let steps = [
//!     SimStep::Issue(2, command), // for the second reader
//!     SimStep::Wait(400),         // the first reader's opening ID goes out
//!     SimStep::ToReader(Move::Deliver),
//!     SimStep::ToController(Move::Deliver),
//!     SimStep::Wait(0), // then the second reader's
//! ];
//! let accounts = run_bus(alloc, &config, readers, &steps)?;
//! ```
#![tactic(auto)]

pub mod laws;
mod line;
mod run;
mod settings;
mod simulation;
mod site;

pub use run::{run_bus, run_bus_schedule};
