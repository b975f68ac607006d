//! What comes of a packet.

ghost use Rattle.std.specs.Prelude.{◌≡◌};
ghost use Rattle.osdp_reader.specs.Heard.{accepted_comset};

use crate::kind::Kind;
use osdp_msg::{Command, Communication};

/// What a reader makes of a packet.
#[derive(Debug, Drop)]
pub struct Heard<'p> {
    /// The line of the table that answered.
    pub kind: Kind,
    /// The command that was acted on, at number 0 or the next number, where it could be read. At number 0 the device may see the same
    /// order again: what must not happen twice for one order is done at `Kind::Taken` alone. It is done unless the reply is a NAK.
    pub command: Option<Command<'p>>,
}

impl<'p> Heard<'p> {
    /// The address and the rate in baud that a COMSET sets that was acted on, where the address is 126 or below. The device
    /// sends the answer at its old rate, and listens at the new one from then on; the reader's address is the new one already.
    ///
    /// None at a repeat: the rate was told when the COMSET was taken.
    pub fn comset(&self) -> Option<Communication>
        ensures { result ≡ accepted_comset self.now.command }
    {
        match &self.command {
            Some(Command::Comset(setting)) if setting.address <= 126 => Some(*setting),
            Some(_) | None => None,
        }
    }
}
