//! Messages that are kept as their bytes: the code, and the data after it.

ghost use Rattle.std.specs.Prelude.{◌≡◌};
ghost use Rattle.osdp_msg.specs.CommandTable.{CommandFits};
ghost use Rattle.osdp_msg.specs.CommandText.{command_words};
ghost use Rattle.osdp_msg.specs.Events.{EventFits, event_words};
ghost use Rattle.osdp_msg.specs.Kept.{command_from, command_kept, event_from, event_kept, reply_from, reply_kept};
ghost use Rattle.osdp_words.specs.Reading.{ReadsWords};
ghost use Rattle.osdp_words.specs.Word.{texts};

use crate::command::Command;
use crate::event::Event;
use crate::event_fields::States;
use crate::reply::Reply;
use crate::spelling::Spelling;
use std::marker::Model;

/// The command that these bytes are.
fn command_from(bytes: &[u8]) -> Option<Command<'_>>
    ensures { result ≡ command_from bytes.now }
{
    let (code, data) = bytes.split_first()?;
    Command::read(*code, data).ok()
}

/// The reply that they are.
fn reply_from(bytes: &[u8]) -> Option<Reply<'_>>
    ensures { result ≡ reply_from bytes.now }
{
    let (code, data) = bytes.split_first()?;
    Reply::read(*code, data).ok()
}

/// The event whose reply they are.
fn event_from(bytes: &[u8]) -> Option<Event<'_>>
    ensures { result ≡ event_from bytes.now }
{
    reply_from(bytes)?.event()
}

impl<'a> Command<'a> {
    /// The command whose code and data these bytes are, as `write_into` puts them; POLL where they are none.
    pub fn kept(bytes: &'a [u8]) -> Command<'a>
        ensures { result ≡ command_kept bytes.now }
    {
        command_from(bytes).unwrap_or(Command::Poll)
    }
}

impl<'a> Reply<'a> {
    /// The reply whose code and data these bytes are, as `write_into` puts them; ACK where they are none.
    pub fn kept(bytes: &'a [u8]) -> Reply<'a>
        ensures { result ≡ reply_kept bytes.now }
    {
        reply_from(bytes).unwrap_or(Reply::Ack)
    }
}

impl<'a> Event<'a> {
    /// The event whose reply has these bytes as its code and data, as `write_into` puts them; no inputs where they are none.
    pub fn kept(bytes: &'a [u8]) -> Event<'a>
        ensures { result ≡ event_kept bytes.now }
    {
        event_from(bytes).unwrap_or(Event::Inputs(States::none()))
    }
}

/// A command that is kept: it outlives the bytes or the words that it was read from.
#[derive(Debug, Drop)]
pub struct KeptCommand {
    bytes: Spelling,
}

impl Model for KeptCommand {
    ghost use Rattle.osdp_msg.specs.declared.command.Command.{Command};
    ghost use Rattle.osdp_msg.specs.Kept.{command_kept};

    ghost Value = { Command };

    ghost view = { λ k. command_kept k.bytes.items };
}

impl KeptCommand {
    /// A command equal to this one.
    pub fn new(command: &Command<'_>) -> KeptCommand
        ensures { result ≡ command.now }
    {
        let mut bytes = Spelling::new();
        command.write_into(&mut bytes);
        KeptCommand { bytes }
    }

    /// The command whose text has these words.
    pub fn parse(words: &[&str]) -> Option<KeptCommand>
        ensures { ReadsWords command_words CommandFits (texts words.now) result }
    {
        let mut place = Spelling::new();
        let command = Command::parse(words, &mut place).ok()?;
        Some(KeptCommand::new(&command))
    }

    /// The command. It lends the bytes that are kept here.
    pub fn command(&self) -> Command<'_>
        ensures { result ≡ self.now }
    {
        Command::kept(self.bytes.as_slice())
    }
}

/// An event that is kept: it outlives the bytes or the words that it was read from.
#[derive(Debug, Drop)]
pub struct KeptEvent {
    bytes: Spelling,
}

impl Model for KeptEvent {
    ghost use Rattle.osdp_msg.specs.declared.event.Event.{Event};
    ghost use Rattle.osdp_msg.specs.Kept.{event_kept};

    ghost Value = { Event };

    ghost view = { λ k. event_kept k.bytes.items };
}

impl KeptEvent {
    /// An event equal to this one.
    pub fn new(event: &Event<'_>) -> KeptEvent
        ensures { result ≡ event.now }
    {
        let mut bytes = Spelling::new();
        event.write_into(&mut bytes);
        KeptEvent { bytes }
    }

    /// The event whose text has these words.
    pub fn parse(words: &[&str]) -> Option<KeptEvent>
        ensures { ReadsWords event_words EventFits (texts words.now) result }
    {
        let mut place = Spelling::new();
        let event = Event::parse(words, &mut place).ok()?;
        Some(KeptEvent::new(&event))
    }

    /// The event. It lends the bytes that are kept here.
    pub fn event(&self) -> Event<'_>
        ensures { result ≡ self.now }
    {
        Event::kept(self.bytes.as_slice())
    }
}
