//! The lines of the reader's table.

/// Which line of the table a packet meets.
#[derive(Clone, Copy, Debug, PartialEq, Eq)]
pub enum Kind {
    /// For another device, or from one.
    Silent,
    /// With a security block.
    Secured,
    /// Sequence number 0, which begins anew.
    Zero,
    /// The last number, which isn't 0: that of the packet taken last.
    Repeat,
    /// The next number.
    Taken,
    /// Number 0 or the next, while the reader is busy.
    Busy,
    /// Any other number. A new reader, and one that has moved, has no last number: there it is each number but 0.
    Wrong,
}
