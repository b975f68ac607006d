//! Why a site refuses a call.

use thiserror::Error;

/// Why a call is refused. A refused call has changed nothing.
#[derive(Clone, Copy, Debug, PartialEq, Eq, Error)]
pub enum SiteFault {
    /// P1: there is no memory.
    #[error("P1: no memory")]
    NoMemory,
    /// P2: there is no such entry.
    #[error("P2: no such entry")]
    NoEntry,
    /// P3: as many states are wanted of the device as there is room for.
    #[error("P3: no room for another state")]
    Full,
    /// P4: several outputs or LEDs in one command: each is wanted by itself.
    #[error("P4: several outputs or LEDs")]
    Several,
    /// P5: it lasts for a time, so it is an order and no state.
    #[error("P5: for a time")]
    Timed,
    /// P6: the command says nothing that holds from then on.
    #[error("P6: no state")]
    NoState,
    /// P7: the command has more bytes than the panel has room for, so it would never go out.
    #[error("P7: too long for the panel")]
    TooLong,
}
