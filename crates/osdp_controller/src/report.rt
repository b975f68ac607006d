//! What a controller tells its caller.

ghost use Rattle.std.specs.Prelude.{◌≡◌};
ghost use Rattle.osdp_controller.specs.Causes.{cause_name};

use osdp_msg::{Command, Communication, Event, PdId, Reply};

/// What happened, as a place that keeps it lends it. Each report comes once.
#[derive(Debug, Drop)]
pub enum Report<'a> {
    /// The session is open; the reader said what it is.
    Opened(PdId),
    /// A command was answered. The reply may be one that doesn't fit it.
    Settled(Command<'a>, Reply<'a>),
    /// A COMSET was answered by its COM: the reader is at its new address, and the session has ended.
    Moved(Command<'a>, Communication),
    /// The reader told an event.
    Event(Event<'a>),
    /// The reader answered a POLL by a reply that is neither ACK nor an event.
    PollAnswered(Reply<'a>),
    /// The answer to this command, or to a POLL (None), cannot be read. Its code.
    Unread(Option<Command<'a>>, u8),
    /// The session has ended. What became of the outstanding command, if there was one, is unknown; it is
    /// not sent again.
    Lost(LostCause, Option<Command<'a>>),
}

/// Why a session ended with its exchange unsettled.
#[derive(Clone, Copy, Debug, PartialEq, Eq)]
pub enum LostCause {
    /// No reply that answers came to the last of the sends.
    NoReply,
    /// The reader answered BUSY more often than is allowed.
    TooBusy,
    /// The reader did not expect the sequence number: NAK 4.
    NumberRefused,
}

impl LostCause {
    /// The cause in one word: `no-reply`, `too-busy` or `number-refused`. Accounts and the lines of a panel tell it so.
    pub fn name(self) -> &'static str
        ensures { result.now ≡ cause_name self }
    {
        match self {
            LostCause::NoReply => "no-reply",
            LostCause::TooBusy => "too-busy",
            LostCause::NumberRefused => "number-refused",
        }
    }
}
