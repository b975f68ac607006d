//! Whom a bus has asked, and what.

use crate::EntryNumber;
use osdp_controller::Asked;

/// The exchange that is outstanding: whom it asks, what, and how often its packet went out.
#[derive(Clone, Copy, Debug, PartialEq, Eq)]
pub struct Question {
    /// The entry of the device that is asked.
    pub entry: EntryNumber,
    /// Whether that is the opening ID, a POLL or an order.
    pub asked: Asked,
    /// How often the packet went out in this exchange.
    pub sent: u32,
}
