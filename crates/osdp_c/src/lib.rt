//! The machines for C: a panel, a reader and a monitor by handles, statuses and plain structs.
//!
//! `include/osdp.h` declares what is exported here. Each call moves the machine out of its handle, calls it, and moves it back. What
//! a call does is the definitions in `specs/`, over those of the machines.
#![tactic(auto)]

mod events;
mod fields;
mod held;
pub mod laws;
mod messages;
mod monitor;
mod panel;
mod panel_calls;
mod read;
mod reader;
mod reader_calls;
mod reader_events;
