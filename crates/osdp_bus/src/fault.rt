//! Why a bus refuses a call.

use thiserror::Error;

/// Why a call is refused. A refused call has changed nothing.
#[derive(Clone, Copy, Debug, PartialEq, Eq, Error)]
pub enum BusFault {
    /// B1: there is no memory.
    #[error("B1: no memory")]
    NoMemory,
    /// B2: sixteen devices are there.
    #[error("B2: sixteen devices are there")]
    TooMany,
    /// B3: the address is that of another device or reserved for one, or a COMSET stands in the way.
    #[error("B3: the address is taken")]
    AddressTaken,
    /// B4: there is no such entry.
    #[error("B4: no such entry")]
    NoEntry,
    /// B5: the address is above 126, or a parameter is out of its range.
    #[error("B5: out of range")]
    OutOfRange,
    /// B6: a COMSET goes to an address that no device has: 127 and above.
    #[error("B6: no device's address")]
    AddressOutOfRange,
    /// C3: as many commands wait as there is room for, or their bytes and those of the command that is on its way leave no room
    /// for this one's.
    #[error("C3: no room for another command")]
    Full,
    /// C4: a POLL, which the controllers send by themselves.
    #[error("C4: a POLL is not submitted")]
    PollSubmitted,
    /// C5: the session is not closed.
    #[error("C5: the session is not closed")]
    NotClosed,
}
