//! Why a byte of the line that could begin a packet does not.

use thiserror::Error;

/// Why no packet begins at a byte 0x53. Where several hold it is the first of F1, F2, F4, F3.
#[derive(Clone, Copy, Debug, PartialEq, Eq, Hash, Error)]
pub enum FrameFault {
    /// F1: the length is below the smallest packet with its check.
    #[error("F1: the length is below that of the smallest packet")]
    TooShort,
    /// F2: the length is above 1440.
    #[error("F2: the length is above 1440")]
    TooLong,
    /// F3: the bytes are there, and the check does not fit them.
    #[error("F3: the check does not fit the bytes")]
    BadCheck,
    /// F4: the run ends before the length, or before the bytes that the length says.
    #[error("F4: the run ended within the packet")]
    Ended,
}
