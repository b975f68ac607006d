//! Above a bus: when sessions begin, which devices are online since when, and states that a device gets again whose session opens anew. Makers of panels write
//! these each time.
//!
//! A site stands beside a bus with the same entries. Its program says once how an LED, an output, a buzzer or a text is to be (`Site::wants`), hands on each
//! report (`Site::heed`), and calls `Site::act` in each turn. It begins the sessions that are due, and submits what is wanted and not submitted yet.
//!
//! ```text
//! let mut site = Site::new(alloc, bus.entries(), SiteConfig::new(config.room), clock.now())?; // `config` is that of the bus
//! site.wants(door, &red)?;
//! loop {
//!     .. waits for bytes, at most until the earlier of bus.next_deadline() and site.next_deadline() ..
//!     site.act(&mut bus, now);
//!     bus.on_bytes(bytes, now);
//!     if let Some((entry, report)) = bus.report() {
//!         if let Some(presence) = site.heed(entry, &report, now) { .. it is online or offline from now on .. }
//!     }
//!     bus.settle();
//!     if bus.tick(now, &mut burst) { .. it goes out .. }
//! }
//! ```
//!
//! A state is what holds until something else is said: it may be said again. What lasts for a time is an order: an OUT that opens a door for five seconds would
//! open it again after each session that was lost. So an output or an LED for a time, a counted sound and a text for a time are refused (P5), and so is all
//! else that puts nothing. A state that is longer than the panel's room for commands would never go out, so it is refused too (P7).
#![tactic(auto)]

mod fault;
pub mod laws;
mod place;
mod site;
mod subject;

pub use fault::SiteFault;
pub use osdp_bus::{Bus, EntryNumber};
pub use osdp_controller::Report;
pub use osdp_msg::{Command, Room};
pub use place::Presence;
pub use site::{Site, SiteConfig};
