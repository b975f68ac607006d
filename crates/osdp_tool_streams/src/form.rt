//! How the bytes of an input stand in runs.

/// How the bytes of an input stand in runs.
#[derive(Clone, Copy, Debug, PartialEq, Eq)]
pub enum Form {
    /// The input is bytes, and one run.
    Raw,
    /// The input is lines of digits, and all of them are one run.
    Joined,
    /// The input is lines of digits, and each line with digits is a run.
    Apart,
}
