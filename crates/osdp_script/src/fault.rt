//! Why there is no script.

use thiserror::Error;

/// Why there is no script.
#[derive(Clone, Copy, Debug, PartialEq, Eq, Error)]
pub enum ScriptFault {
    /// S1: the line of this number, counted from 1, is no line of a script, or isn't in its place. It is the first such line. Where no
    /// line is a reader's, it is the one after the last.
    #[error("line {0}: bad step")]
    BadLine(u64),
    /// S3: there is no memory.
    #[error("no memory")]
    NoMemory,
}
