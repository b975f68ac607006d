//! Why there is no reader.

use thiserror::Error;

/// Why a reader can't be made.
#[derive(Clone, Copy, Debug, PartialEq, Eq, Error)]
pub enum ReaderFault {
    /// N1: there is no memory for the events, or for what is answered to CAP.
    #[error("N1: no memory")]
    NoMemory,
    /// N3: the address is above 126, the room isn't for 1 to 1024 events and 1 to 1,467,392 bytes of them, or a device's gap is out of its
    /// range.
    #[error("N3: out of range")]
    OutOfRange,
}
