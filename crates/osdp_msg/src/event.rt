//! Events: what a reader tells when it is polled.

ghost use Rattle.std.specs.Prelude.{◌≡◌, ◌∷◌, IfOk, Ok, Some, None};
ghost use Rattle.osdp_words.specs.Reading.{ReadsWords};
ghost use Rattle.osdp_words.specs.Word.{AllStandFor, texts, words_in};
ghost use Rattle.osdp_msg.specs.Events.{EventFits, event_in, event_reply, event_text, event_words};
ghost use Rattle.osdp_msg.specs.Kept.{event_kept};
ghost use Rattle.osdp_msg.specs.ReplyTable.{reply_code, reply_data};

use crate::event_fields::{Formatted, Keypad, States};
use crate::fault::BadWords;
use crate::limits::MAX_MESSAGE;
use crate::raw::Raw;
use crate::reply::{self, Reply};
use crate::reply_fields::LocalState;
use crate::spelling::Spelling;
use arrayvec::ArrayVec;
use osdp_words::Fields;
use std::fmt;

/// What happened at a reader: the seven replies to a POLL that tell something.
#[derive(Debug, Drop)]
pub enum Event<'a> {
    /// The state of the device itself.
    LocalState(LocalState),
    /// A byte for each input.
    Inputs(States<'a>),
    /// A byte for each output.
    Outputs(States<'a>),
    /// A byte for each reader.
    Readers(States<'a>),
    /// A card's bits.
    Raw(Raw<'a>),
    /// A card as the reader formatted it.
    Formatted(Formatted<'a>),
    /// Pressed keys.
    Keypad(Keypad<'a>),
}

/// The event whose text has these words.
fn parse_fields<'a>(fields: Fields<'_>, place: &'a mut Spelling) -> Option<Event<'a>>
    ensures { ReadsWords event_words EventFits fields.entry result }
{
    reply::parse_fields(fields, place)?.event()
}

impl<'a> Event<'a> {
    /// The reply that tells the event.
    pub fn reply(&self) -> Reply<'a>
        ensures { result ≡ event_reply self.now }
    {
        match self {
            Event::LocalState(state) => Reply::LocalState(*state),
            Event::Inputs(states) => Reply::Inputs(states.copy()),
            Event::Outputs(states) => Reply::Outputs(states.copy()),
            Event::Readers(states) => Reply::Readers(states.copy()),
            Event::Raw(raw) => Reply::Raw(raw.copy()),
            Event::Formatted(formatted) => Reply::Formatted(formatted.copy()),
            Event::Keypad(keypad) => Reply::Keypad(keypad.copy()),
        }
    }

    /// Puts the code and the data of the reply that tells the event in place of what stands in `spelling`.
    pub fn write_into(&self, spelling: &mut ArrayVec<u8, MAX_MESSAGE>)
        ensures spelled { spelling.new.items ≡ reply_code (event_reply self.now) ∷ reply_data (event_reply self.now) }
        ensures kept { event_kept spelling.new.items ≡ self.now }
        ensures fits { EventFits self.now }
    {
        self.reply().write_into(spelling);
    }

    /// The event whose text has these words. The digits of byte lists may have either case. What the event has of bytes
    /// stands in `place` then.
    pub fn parse(
        words: &[&str],
        place: &'a mut ArrayVec<u8, MAX_MESSAGE>,
    ) -> Result<Event<'a>, BadWords>
        ensures value { IfOk result (λ e. AllStandFor (event_words e) (texts words.now) × EventFits e) }
        ensures only { (e : Event) → EventFits e → AllStandFor (event_words e) (texts words.now) → result ≡ Ok e }
    {
        parse_fields(Fields::new(words), place).ok_or(BadWords)
    }

    /// The event whose text a line is. Its words have one or more spaces between each two.
    pub fn parse_line(
        line: &str,
        place: &'a mut ArrayVec<u8, MAX_MESSAGE>,
    ) -> Result<Event<'a>, BadWords>
        ensures value { IfOk result (λ e. AllStandFor (event_words e) (words_in line.now) × EventFits e) }
        ensures only { (e : Event) → EventFits e → AllStandFor (event_words e) (words_in line.now) → result ≡ Ok e }
    {
        parse_fields(Fields::of_line(line), place).ok_or(BadWords)
    }

    /// The same event, lent again.
    pub fn copy(&self) -> Event<'a>
        ensures { result ≡ self.now }
    {
        match self {
            Event::LocalState(state) => Event::LocalState(*state),
            Event::Inputs(states) => Event::Inputs(states.copy()),
            Event::Outputs(states) => Event::Outputs(states.copy()),
            Event::Readers(states) => Event::Readers(states.copy()),
            Event::Raw(raw) => Event::Raw(raw.copy()),
            Event::Formatted(formatted) => Event::Formatted(formatted.copy()),
            Event::Keypad(keypad) => Event::Keypad(keypad.copy()),
        }
    }
}

impl<'a> Reply<'a> {
    /// The event that the reply tells, if it tells one.
    pub fn event(&self) -> Option<Event<'a>>
        ensures { result ≡ event_in self.now }
    {
        match self {
            Reply::LocalState(state) => Some(Event::LocalState(*state)),
            Reply::Inputs(states) => Some(Event::Inputs(states.copy())),
            Reply::Outputs(states) => Some(Event::Outputs(states.copy())),
            Reply::Readers(states) => Some(Event::Readers(states.copy())),
            Reply::Raw(raw) => Some(Event::Raw(raw.copy())),
            Reply::Formatted(formatted) => Some(Event::Formatted(formatted.copy())),
            Reply::Keypad(keypad) => Some(Event::Keypad(keypad.copy())),
            Reply::Ack
            | Reply::Nak(_)
            | Reply::PdId(_)
            | Reply::PdCap(_)
            | Reply::Com(_)
            | Reply::Busy
            | Reply::MakerReply(_) => None,
        }
    }
}

impl<'a> fmt::Display for Event<'a> {
    ghost output = { λ e. Some (event_text e) };

    fn fmt<W: fmt::Write>(&self, f: &mut fmt::Formatter<W>) -> fmt::Result {
        let reply = self.reply();
        write!(f, "{reply}")
    }
}
