//! Why a controller refuses a call.

use thiserror::Error;

/// Why a call is refused. A refused call has changed nothing.
#[derive(Clone, Copy, Debug, PartialEq, Eq, Error)]
pub enum ControllerFault {
    /// C1: there is no memory for the waiting commands.
    #[error("C1: no memory")]
    NoMemory,
    /// C2: the address is above 126, or a parameter is out of its range.
    #[error("C2: out of range")]
    OutOfRange,
    /// C3: as many commands wait as there is room for, or their bytes and those of the command that is on its way leave no room
    /// for this one's.
    #[error("C3: no room for another command")]
    Full,
    /// C4: a POLL, which the controller sends by itself.
    #[error("C4: a POLL is not submitted")]
    PollSubmitted,
    /// C5: the session is not closed.
    #[error("C5: the session is not closed")]
    NotClosed,
}
