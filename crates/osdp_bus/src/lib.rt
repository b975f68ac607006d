//! The panel's end of a line with several readers: commands in for each of them, frames out one exchange at a time.
//!
//! A bus holds a controller for each of up to sixteen devices. An exchange holds the line until it ends, its pauses
//! included; then the devices are asked in turn, beginning after the last that held it. Bytes come in in any pieces, and a
//! packet goes to the controller of its address alone. Moments are milliseconds that the caller hands in.
//!
//! ```text
//! let mut bus = Bus::new(alloc, BusConfig::new(CheckKind::Crc, Room::of(16)))?;
//! let door = bus.add(address)?;
//! bus.begin(door, clock.now())?;
//! let mut burst = Burst::new();
//! loop {
//!     .. bus.on_bytes(bytes, clock.now()), where bytes have come ..
//!     if let Some((entry, report)) = bus.report() { .. }
//!     bus.settle();
//!     if bus.tick(clock.now(), &mut burst) { .. it goes out .. }
//!     if let Some((entry, report)) = bus.report() { .. }
//!     bus.settle();
//! }
//! ```
//!
//! What a bus does is the definitions in `specs/`. Only `Bus::new` and `Bus::add` take memory.
#![tactic(auto)]

mod asking;
mod boxed_entry;
mod bus;
mod calls;
mod config;
mod deadlines;
mod entry;
mod entry_list;
mod fault;
mod line;
mod memory;
mod told;

pub use asking::Question;
pub use bus::Bus;
pub use config::BusConfig;
pub use fault::BusFault;
pub use told::Told;

/// A device of a bus, by its number: 0 to 15, in the order of adding.
pub type EntryNumber = usize;
