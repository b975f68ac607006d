//! The loop of a reader that runs on a serial line: what its port has given goes in, and what is to be sent comes out.
//!
//! Nothing here reads or writes. The device's program reads from its port, takes the moment after the read, and hands both
//! in; then it asks for answers until there is none. No bytes, as of a read that timed out or would block, end no run: a
//! run is over where no byte came for the gap, by the moments of `take` and `tick` alone, or where the program saw the line
//! silent. None of it takes memory, but what makes a reader, a device and their parts.
//!
//! ```text
//! let reader = Reader::new(alloc, config, DeviceStatus::new(), Room::of(64))?;
//! let mut device = Device::new(alloc, reader, 20)?;
//! let mut out = Burst::new();
//! loop {
//!     .. the port is read, for some milliseconds at most ..
//!     let now = clock.now();
//!     let mut at = 0;
//!     loop {
//!         at += device.take(&bytes[at..], now);
//!         while let Some(kind) = device.next(&mut out) {
//!             .. out.as_slice() goes out ..
//!             let heard = device.heard(kind);
//!             if let Some(command) = taken(&heard) { .. the device does it, unless the answer is a NAK ..  }
//!             if let Some(setting) = heard.comset() { .. the port is set to setting.baud_rate .. }
//!         }
//!         if at == bytes.len() { break }
//!     }
//!     device.tick(now);
//!     while let Some(kind) = device.next(&mut out) { .. the same .. }
//!     .. device.submit_event(.., now), device.handler_mut().outputs = .. ..
//!     while device.expire_event(now, 30_000) { .. the event is told to nobody any more .. }
//! }
//! ```
//!
//! `DeviceStatus` is the handler for programs that set beforehand what is to be told.
#![tactic(auto)]

mod ages;
mod device;
mod events;
mod first;
pub mod laws;
mod order;
mod program;
mod question;
mod settled;
mod status;
mod turns;
mod unsent;

pub use ages::Ages;
pub use device::Device;
pub use events::{Expired, OFFLINE_AFTER};
pub use order::{Order, again, order_of, ordered, taken};
pub use osdp_frame::{Address, Burst, Receiver};
pub use osdp_msg::{
    Buzzer, Capability, Command, Communication, Event, Formatted, Keypad, LedRecord, Leds,
    LocalState, MAX_DATA, MakerMessage, NakReason, OutputRecord, Outputs, PdCap, PdId, Raw, Room,
    Spelling, States, Text,
};
pub use osdp_reader::{
    Answer, Handler, Heard, Kind, Reader, ReaderConfig, ReaderFault, ReaderParts, lend,
};
pub use program::ProgramAnswers;
pub use question::{KeptQuestion, Question};
pub use settled::{Settled, Turn};
pub use status::DeviceStatus;
pub use unsent::Unsent;
