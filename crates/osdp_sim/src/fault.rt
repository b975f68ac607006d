//! Why a schedule stops.

use thiserror::Error;

/// Why a schedule stops.
#[derive(Clone, Copy, Debug, PartialEq, Eq, Error)]
pub enum Cause {
    /// S2: a packet stands among the bytes of a damaged burst.
    #[error("S2: damage holds a packet")]
    HoldsPacket,
    /// S3: there is no memory.
    #[error("S3: no memory")]
    NoMemory,
    /// S4: a session is to begin again while a burst is on the line, or before it has ended.
    #[error("S4: the line is not quiet")]
    NotQuiet,
    /// S5: a setting is out of its range.
    #[error("S5: out of range")]
    OutOfRange,
}

/// Where and why a schedule stopped, and what had come of the steps before.
#[derive(Debug, Drop)]
pub struct Fault<A> {
    /// The step, counted from 1; 0 where the ends could not be set up.
    pub step: usize,
    /// Why it stopped.
    pub cause: Cause,
    /// The account of the steps before it. It is empty where the ends could not be set up.
    pub account: A,
}
