//! What a turn of a device comes to.

ghost use Rattle.std.specs.Prelude.{◌≡◌};
ghost use Rattle.osdp_device.specs.Lent.{settled_kind};

use osdp_reader::Kind;

/// What a turn comes to. The command of it is the device's (`command`).
#[derive(Clone, Copy, Debug, PartialEq, Eq)]
pub enum Settled {
    /// No packet that is answered is held any more.
    Nothing,
    /// The turn stopped before a command: the next turn answers it, by `answer_next` or by the device's status.
    Pending,
    /// A packet is answered, by this line of the reader's table: the bytes go out before the next turn.
    Said(Kind),
}

impl Settled {
    /// The line of the table, where a packet is answered.
    pub fn kind(self) -> Option<Kind>
        ensures { result ≡ settled_kind self }
    {
        match self {
            Settled::Said(kind) => Some(kind),
            Settled::Nothing | Settled::Pending => None,
        }
    }
}

/// A turn that took bytes.
#[derive(Clone, Copy, Debug, PartialEq, Eq)]
pub struct Turn {
    /// How many of the bytes were taken.
    pub taken: usize,
    /// What it comes to.
    pub settled: Settled,
}
