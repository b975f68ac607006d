//! What is found in a packet.

use crate::accusation::Accusation;

/// What is worth a look and breaks no rule.
#[derive(Clone, Copy, Debug, PartialEq, Eq)]
pub enum Notice {
    /// A packet with number 0 was answered for the first time, and not by a NAK: a session is open.
    Opened,
    /// The device has gone to this address.
    Moved(u8),
    /// NAK 4: the device has no last number, as after a restart, or the number was none that it takes.
    Restarted,
    /// The packet before this one had no reply, and it is the first in a row.
    Unanswered,
    /// A reply that answers an earlier packet, or an earlier copy: it comes later than the panel waits.
    Late,
    /// A reply that may answer a packet which wasn't heard, or the next number where an answer may not have been heard.
    Unsure,
}

/// What is found in a packet.
#[derive(Clone, Copy, Debug, PartialEq, Eq)]
pub struct Found {
    /// What its sender is accused of.
    pub accusation: Option<Accusation>,
    /// What else is worth a look.
    pub notice: Option<Notice>,
    /// Whether it was held to the rules: what was known of its address was enough for that.
    pub judged: bool,
}

/// Nothing is found, since nothing is known.
pub(crate) const NOTHING: Found = Found {
    accusation: None,
    notice: None,
    judged: false,
};

/// One packet that was missed explains it.
pub(crate) const DOUBT: Found = Found {
    accusation: None,
    notice: Some(Notice::Unsure),
    judged: false,
};
