//! A panel: the bus of a serial line, and for each order its number and its last moment. A panel with one reader runs a bus of one.
//!
//! An order has a number, and a moment until which it may be sent. Once that has passed it is told as expired, and never goes out. While it is on its way its
//! answer is waited for at any moment, but its packet isn't given out again after that moment.
//!
//! No call reads or writes by itself, and none but `Panel::new` and `Panel::add` takes memory.
//!
//! ```text
//! let mut panel = Panel::new(alloc, BusConfig::new(CheckKind::Crc, Room::of(16)))?;
//! let door = panel.add(address, next_number)?;
//! panel.begin(door, clock.now())?;
//! let mut turn = Turn::new();
//! let mut told = KeptPanelReport::new();
//! loop {
//!     // first waits for bytes, at most until the deadline; then takes the moment; then reads all that is there
//!     port.wait(panel.next_deadline());
//!     let now = clock.now();
//!     let count = port.read_what_is_there(&mut buffer);
//!     panel.hear(&buffer[..count], now);
//!     while panel.next_report(&mut told) {
//!         .. the panel's own code, which looks at `maybe_again` and `since` before it opens for a card ..
//!     }
//!     if let Some(unsent) = panel.tick(now, &mut turn) {
//!         .. panel.write(unsent, clock.now(), &turn) is written, all of it, and flushed ..
//!     }
//! }
//! ```
//!
//! The moment is taken after the wait and before the read. Bytes that are read after it are no older than it says. Were it taken after the read, a program that
//! stood still between the two would hand in bytes that are older than their moment. The moment for the burst is taken anew: a program that stood still while it
//! stored a report gives out no order that has grown too old since.
//!
//! A read that gives nothing ends no run of bytes: what was begun may go on with the next read. A run ends once the line has been silent for the gap of the bus, by
//! the moments handed in, and before each burst.
#![tactic(auto)]

mod expiry;
mod fault;
mod kept;
mod lists;
mod orders;
mod panel;
mod report;
mod turning;
mod unsent;

pub use fault::PanelFault;
pub use kept::KeptPanelReport;
pub use lists::OrderLists;
pub use osdp_bus::{Bus, BusConfig, BusFault, EntryNumber};
pub use osdp_controller::{LostCause, Report};
pub use osdp_frame::{Address, Burst, CheckKind};
pub use osdp_msg::{
    Buzzer, Capability, Command, Communication, Event, Formatted, Keypad, LedRecord, Leds,
    LocalState, MakerMessage, MsgFault, Nak, NakReason, OutputRecord, Outputs, PdCap, PdId, Raw,
    Reply, Room, Spelling, Text,
};
pub use panel::Panel;
pub use report::{PanelReport, What};
pub use unsent::{Turn, Unsent};
