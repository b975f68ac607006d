//! What an answer shows.

/// What a packet and its answer show of a rule.
#[derive(Clone, Copy, Debug, PartialEq, Eq)]
pub enum Finding {
    /// Nothing.
    Nothing,
    /// The rule is kept.
    Kept,
    /// Something that the standard leaves open.
    Either,
    /// The rule is broken.
    Broken,
}
