//! What is wrong with a line of another tool.

use thiserror::Error;

/// What is wrong with a line.
#[derive(Clone, Copy, Debug, PartialEq, Eq, Error)]
pub enum LineFault {
    /// It is no object of JSON.
    #[error("no object of JSON")]
    NotJson,
    /// It has no bytes, as pairs of digits.
    #[error("no data in pairs of hexadecimal digits")]
    NoData,
    /// It has no offset with a colon.
    #[error("no colon after the offset")]
    NoOffset,
    /// It has neither TX nor RX.
    #[error("no TX or RX before the digits")]
    NoWay,
}

/// A line that is bad.
#[derive(Clone, Copy, Debug, PartialEq, Eq, Error)]
#[error("line {number}: {fault}")]
pub struct BadLine {
    /// Its number, from 1.
    pub number: u64,
    /// What is wrong with it.
    pub fault: LineFault,
}
