//! What a rule looks at.

/// What a rule looks at in an answer.
#[derive(Clone, Copy, Debug, PartialEq, Eq)]
pub enum Aspect {
    /// The answer has the address of the packet.
    Address,
    /// .. its check,
    Check,
    /// .. and its number.
    Number,
    /// It has no security block.
    Plain,
    /// Number 0 and the next number are not refused by NAK 4.
    Turn,
    /// The answer is one of its command.
    Fit,
    /// POLL, ID and CAP are not refused.
    Served,
    /// An unknown code is refused.
    Code,
    /// A wrong length is refused.
    Length,
    /// The answer has a length and counts that its code allows.
    Read,
    /// BUSY has number 0.
    Busy,
    /// A packet that comes again has the answer that it had.
    Repeat,
    /// A number out of turn is refused.
    Wrong,
    /// A security block is refused.
    Block,
    /// What isn't to the device is not answered.
    Quiet,
    /// Bytes without a packet are not answered.
    Deaf,
    /// One packet has one answer.
    Single,
    /// Answers begin within 200 ms.
    Prompt,
    /// A status list has as many entries as CAP tells.
    Listed,
    /// What the device doesn't have by CAP is refused.
    Beyond,
}
