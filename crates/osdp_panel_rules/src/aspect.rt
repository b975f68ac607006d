//! What a rule looks at.

/// What a rule looks at in the next packet of a panel.
#[derive(Clone, Copy, Debug, PartialEq, Eq)]
pub enum Aspect {
    /// Bit 7 of the address is clear.
    Asks,
    /// The reserved bits are 0.
    Reserved,
    /// It has no security block.
    Plain,
    /// Its number is 0, the last or the next.
    Turn,
    /// With the last number it is the last packet.
    Copy,
    /// An answer is followed by the next number.
    Answer,
    /// A packet to which nothing was said comes again,
    Silence,
    /// .. and so does an order,
    Order,
    /// .. one that noise followed,
    Noise,
    /// .. one after which another's answer came,
    Astray,
    /// .. one that was answered BUSY,
    Busy,
    /// .. and one that was answered NAK 1.
    Damage,
    /// After NAK 4 a session begins.
    Refusal,
    /// So it does where the device was silent for long.
    Lapse,
    /// A packet comes again 200 ms later at the soonest.
    Wait,
    /// A packet comes within 8 seconds.
    Online,
}
