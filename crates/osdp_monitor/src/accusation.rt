//! What an end is accused of.

ghost use Rattle.std.specs.Prelude.{◌≡◌};
ghost use Rattle.osdp_monitor.specs.Accused.{basis};

/// What an end is accused of: the first three the panel, all others the reader at the address.
#[derive(Clone, Copy, Debug, PartialEq, Eq)]
pub enum Accusation {
    /// Another packet with the number of the last.
    AnotherPacket,
    /// The next number, but the last packet was not answered.
    NotAnswered,
    /// A number that is neither 0, the last nor the next.
    SentOutOfTurn,
    /// A second reply to one copy of a packet.
    SecondReply,
    /// Another number than the packet's.
    AnotherNumber,
    /// Another check than the packet's.
    AnotherCheck,
    /// BUSY to a packet that was answered.
    BusyToRepeat,
    /// NAK 4 to number 0.
    RefusedZero,
    /// A repeat is answered by something else than the packet was.
    AnotherReply,
    /// A number was taken that is neither 0, the last nor the next.
    TakenOutOfTurn,
    /// A reply that can't be read.
    UnreadReply,
    /// A reply that doesn't fit the command.
    UnfitReply,
    /// An event at number 0.
    EventAtZero,
}

/// What asks for a rule.
#[derive(Clone, Copy, Debug, PartialEq, Eq)]
pub enum Basis {
    /// The standard.
    Standard,
    /// The profile of these crates alone: other makers may do otherwise.
    Profile,
}

impl Accusation {
    /// What asks for the rule that was broken.
    pub fn basis(self) -> Basis
        ensures { result ≡ basis self }
    {
        match self {
            Accusation::BusyToRepeat
            | Accusation::RefusedZero
            | Accusation::UnfitReply
            | Accusation::EventAtZero => Basis::Profile,
            Accusation::AnotherPacket
            | Accusation::NotAnswered
            | Accusation::SentOutOfTurn
            | Accusation::SecondReply
            | Accusation::AnotherNumber
            | Accusation::AnotherCheck
            | Accusation::AnotherReply
            | Accusation::TakenOutOfTurn
            | Accusation::UnreadReply => Basis::Standard,
        }
    }
}
