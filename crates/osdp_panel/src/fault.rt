//! Why a panel takes no order.

use osdp_bus::BusFault;
use thiserror::Error;

/// Why an order isn't taken. Nothing has changed then.
#[derive(Clone, Copy, Debug, PartialEq, Eq, Error)]
pub enum PanelFault {
    /// The bus refuses it, as its code says.
    #[error("{0}")]
    Bus(BusFault),
    /// B7: the entry has used up its numbers: the next one would be 2^64 - 1, which no order has.
    #[error("B7: no number is left")]
    NumbersUsedUp,
}
