//! What a device does.

ghost use Rattle.std.specs.Prelude.{◌≡◌, ◌≤◌, length};

use osdp_frame::Burst;
use osdp_msg::{Command, MAX_DATA, MakerMessage, NakReason, States};
use osdp_ring::put;

/// What a handler answers to a command. An answer that doesn't belong to the command is told as NAK 9.
#[derive(Debug, Drop)]
pub enum Answer<'a> {
    /// It is done: of OUT, LED, BUZ, TEXT and MFG.
    Done,
    /// The state of the device itself, tamper and power: of LSTAT.
    Local(u8, u8),
    /// A byte for each input, output or reader: of ISTAT, OSTAT and RSTAT.
    List(States<'a>),
    /// It isn't done. Reasons 2, 3 and 9 are told as they are, all others as 9.
    Refuse(NakReason),
    /// The maker's own reply: of MFG.
    Maker(MakerMessage<'a>),
}

impl<'a> Answer<'a> {
    ghost use Rattle.osdp_reader.specs.declared.handler.Answer.TheVariants as answer;

    /// A byte for each input, output or reader, of a slice of at most 1,432 of them.
    pub fn list(states: &'a [u8]) -> Answer<'a>
        requires { length states.now ≤ MAX_DATA }
        ensures { result ≡ answer.List (record { items = states.now }) }
    {
        Answer::List(States::new(states).unwrap())
    }
}

/// What a device does with the commands that aren't the reader's own: LSTAT, ISTAT, OSTAT, RSTAT, OUT, LED, BUZ, TEXT and MFG.
///
/// Its answer and its new state are functions of its old state and the command.
pub trait Handler: Drop {
    ghost use Rattle.osdp_msg.specs.declared.command.Command.{Command};
    ghost use Rattle.osdp_reader.specs.declared.handler.Answer.{Answer};

    /// The answer in a state.
    ghost answer_of: { Self → Command → Answer };

    /// The state after a command.
    ghost after: { Self → Command → Self };

    /// Acts on a command. What the answer has of bytes may be written into `place`, which is where the packet of the reply is put after that.
    fn answer<'a>(&mut self, command: &Command<'_>, place: &'a mut Burst) -> Answer<'a>
        ensures answer { result ≡ answer_of self.old command.now }
        ensures state { self.new ≡ after self.old command.now };
}

/// Puts these bytes in place of what stands in `place`, and lends them there: for a handler whose answer has bytes that it keeps itself.
pub fn lend<'a>(bytes: &[u8], place: &'a mut Burst) -> &'a [u8]
    requires { length bytes.now ≤ MAX_DATA }
    ensures { result.now ≡ bytes.now }
{
    put(place, bytes);
    place.as_slice()
}
