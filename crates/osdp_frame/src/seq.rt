//! Sequence numbers.

ghost use Rattle.std.specs.Prelude.{◌≡◌, ◌<◌, ◌%◌};
ghost use Rattle.std.specs.Option.{SomeIff};
ghost use Rattle.osdp_frame.specs.Packet.{next_sequence};

use std::marker::Model;

/// A sequence number, 0 to 3. 0 opens a session; after it 1, 2 and 3 take turns.
#[derive(Clone, Copy, Debug, PartialEq, Eq, PartialOrd, Ord, Hash)]
pub struct Seq(u8);

impl Model for Seq {
    ghost use Rattle.std.specs.Prelude.{ℕ, ◌<◌};

    ghost Value = { ℕ };

    ghost view = { λ s. s.0 };

    ghost invariant = { λ s. s.0 < 4 };

    ghost inverse = { λ n. record { 0 = n } };
}

impl Seq {
    /// The sequence number of this value. None from 4 on.
    pub fn new(value: u8) -> Option<Seq>
        ensures { SomeIff result (value < 4) value }
    {
        if value < 4 { Some(Seq(value)) } else { None }
    }

    /// The sequence number in the low two bits of a byte.
    pub(crate) fn of(byte: u8) -> Seq
        ensures { result ≡ byte % 4 }
    {
        Seq(byte % 4)
    }

    /// The value of this sequence number, 0 to 3.
    pub fn get(self) -> u8
        ensures value { result ≡ self }
        ensures range { self < 4 }
    {
        self.0
    }

    /// The number of the exchange after this one: 0 to 1, 1 to 2, 2 to 3, 3 to 1.
    pub fn next(self) -> Seq
        ensures { result ≡ next_sequence self }
    {
        Seq(self.0 % 3 + 1)
    }
}
