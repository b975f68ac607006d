//! A report that is kept as bytes, until it is read.

ghost use Rattle.std.specs.Prelude.{◌≡◌, ◌≤◌, IfSome, None, Some, is_some, length};
ghost use Rattle.std.specs.Option.{option_map};
ghost use Rattle.osdp_msg.specs.Kept.{command_kept};
ghost use Rattle.osdp_controller.specs.declared.report.Report.TheVariants.{Lost, Moved, Opened, PollAnswered, Settled, Unread};
ghost use Rattle.osdp_controller.specs.declared.report.Report.TheVariants as reports;
ghost use Rattle.osdp_controller.specs.Kept.{told_as};

use crate::report::{LostCause, Report};
use osdp_msg::{Command, Communication, Event, MAX_MESSAGE, PdId, Reply, Spelling};
use osdp_ring::put;
use std::marker::Model;

/// Which report it is, without what it has of bytes.
#[derive(Clone, Copy, Debug, PartialEq, Eq)]
pub enum Telling {
    /// The session is open.
    Opened(PdId),
    /// A command was answered.
    Settled,
    /// A COMSET was answered by its COM.
    Moved(Communication),
    /// The reader told an event.
    Event,
    /// The reader answered a POLL by a reply that is neither ACK nor an event.
    PollAnswered,
    /// The answer to a command can't be read. Its code.
    CommandUnread(u8),
    /// The answer to a POLL can't be read. Its code.
    PollUnread(u8),
    /// The session has ended, with a command outstanding.
    CommandLost(LostCause),
    /// The session has ended, and no command was outstanding.
    Lost(LostCause),
}

/// A place for a report. It keeps the command and the reply as bytes, so that what tells it need not stay.
#[derive(Debug, Drop)]
pub struct KeptReport {
    telling: Option<Telling>,
    command: Spelling,
    reply: Spelling,
}

impl Model for KeptReport {
    ghost use Rattle.std.specs.Prelude.{Option};
    ghost use Rattle.std.specs.Option.{option_map};
    ghost use Rattle.osdp_controller.specs.declared.report.Report.{Report};
    ghost use Rattle.osdp_controller.specs.Kept.{told_as};

    ghost Value = { Option Report };

    ghost view = { λ k. option_map (λ telling. told_as telling k.command.items k.reply.items) k.telling };
}

impl KeptReport {
    /// No report.
    pub fn new() -> KeptReport
        ensures { result ≡ None }
    {
        KeptReport {
            telling: None,
            command: Spelling::new(),
            reply: Spelling::new(),
        }
    }

    /// Whether there is one.
    pub fn is_some(&self) -> bool
        ensures { result ≡ is_some self.now }
    {
        self.telling.is_some()
    }

    /// The report, if there is one. It lends the bytes that are kept here.
    pub fn read(&self) -> Option<Report<'_>>
        ensures { result ≡ self.now }
    {
        let telling = self.telling?;
        Some(read_as(telling, self.command.as_slice(), self.reply.as_slice()))
    }

    /// Puts a report in place of what stands here.
    pub fn keep(&mut self, report: &Report<'_>)
        ensures { self.new ≡ Some report.now }
    {
        match report {
            Report::Opened(id) => self.tell_opened(*id),
            Report::Settled(command, reply) => {
                command.write_into(&mut self.command);
                reply.write_into(&mut self.reply);
                self.telling = Some(Telling::Settled);
            }
            Report::Moved(command, answered) => {
                command.write_into(&mut self.command);
                self.telling = Some(Telling::Moved(*answered));
            }
            Report::Event(event) => self.tell_event(event),
            Report::PollAnswered(reply) => self.tell_poll_answered(reply),
            Report::Unread(command, code) => self.keep_unread(command, *code),
            Report::Lost(cause, command) => self.keep_lost(*cause, command),
        }
    }

    /// The answer to this command, or to a POLL, can't be read.
    fn keep_unread(&mut self, command: &Option<Command<'_>>, code: u8)
        ensures { self.new ≡ Some (Unread command.now code) }
    {
        match command {
            Some(command) => {
                command.write_into(&mut self.command);
                self.telling = Some(Telling::CommandUnread(code));
            }
            None => self.telling = Some(Telling::PollUnread(code)),
        }
    }

    /// The session has ended, with this command outstanding, or with none.
    fn keep_lost(&mut self, cause: LostCause, command: &Option<Command<'_>>)
        ensures { self.new ≡ Some (Lost cause command.now) }
    {
        match command {
            Some(command) => {
                command.write_into(&mut self.command);
                self.telling = Some(Telling::CommandLost(cause));
            }
            None => self.telling = Some(Telling::Lost(cause)),
        }
    }

    /// Lets the report go.
    pub fn clear(&mut self)
        ensures { self.new ≡ None }
    {
        self.telling = None;
    }

    /// The session is open.
    pub(crate) fn tell_opened(&mut self, id: PdId)
        ensures { self.new ≡ Some (Opened id) }
    {
        self.telling = Some(Telling::Opened(id));
    }

    /// The command of these bytes was answered by this reply.
    pub(crate) fn tell_settled(&mut self, command: &[u8], reply: &Reply<'_>)
        requires { length command.now ≤ MAX_MESSAGE }
        ensures { self.new ≡ Some (Settled (command_kept command.now) reply.now) }
    {
        put(&mut self.command, command);
        reply.write_into(&mut self.reply);
        self.telling = Some(Telling::Settled);
    }

    /// The COMSET of these bytes was answered by this COM.
    pub(crate) fn tell_moved(&mut self, command: &[u8], answered: Communication)
        requires { length command.now ≤ MAX_MESSAGE }
        ensures { self.new ≡ Some (Moved (command_kept command.now) answered) }
    {
        put(&mut self.command, command);
        self.telling = Some(Telling::Moved(answered));
    }

    /// The reader told this event.
    pub(crate) fn tell_event(&mut self, event: &Event<'_>)
        ensures { self.new ≡ Some (reports.Event event.now) }
    {
        event.write_into(&mut self.reply);
        self.telling = Some(Telling::Event);
    }

    /// A POLL was answered by this reply.
    pub(crate) fn tell_poll_answered(&mut self, reply: &Reply<'_>)
        ensures { self.new ≡ Some (PollAnswered reply.now) }
    {
        reply.write_into(&mut self.reply);
        self.telling = Some(Telling::PollAnswered);
    }

    /// The answer to the command of these bytes, or to a POLL, can't be read.
    pub(crate) fn tell_unread(&mut self, command: Option<&[u8]>, code: u8)
        requires { IfSome command (λ bytes. length bytes.now ≤ MAX_MESSAGE) }
        ensures { self.new ≡ Some (Unread (option_map (λ bytes. command_kept bytes.now) command.entry) code) }
    {
        match command {
            Some(command) => {
                put(&mut self.command, command);
                self.telling = Some(Telling::CommandUnread(code));
            }
            None => self.telling = Some(Telling::PollUnread(code)),
        }
    }

    /// The session has ended, with the command of these bytes outstanding, or with none.
    pub(crate) fn tell_lost(&mut self, cause: LostCause, command: Option<&[u8]>)
        requires { IfSome command (λ bytes. length bytes.now ≤ MAX_MESSAGE) }
        ensures { self.new ≡ Some (Lost cause (option_map (λ bytes. command_kept bytes.now) command.entry)) }
    {
        match command {
            Some(command) => {
                put(&mut self.command, command);
                self.telling = Some(Telling::CommandLost(cause));
            }
            None => self.telling = Some(Telling::Lost(cause)),
        }
    }
}

/// The report that these bytes of a command and of a reply make.
fn read_as<'a>(telling: Telling, command: &'a [u8], reply: &'a [u8]) -> Report<'a>
    ensures { result ≡ told_as telling command.now reply.now }
{
    match telling {
        Telling::Opened(id) => Report::Opened(id),
        Telling::Settled => Report::Settled(Command::kept(command), Reply::kept(reply)),
        Telling::Moved(answered) => Report::Moved(Command::kept(command), answered),
        Telling::Event => Report::Event(Event::kept(reply)),
        Telling::PollAnswered => Report::PollAnswered(Reply::kept(reply)),
        Telling::CommandUnread(code) => Report::Unread(Some(Command::kept(command)), code),
        Telling::PollUnread(code) => Report::Unread(None, code),
        Telling::CommandLost(cause) => Report::Lost(cause, Some(Command::kept(command))),
        Telling::Lost(cause) => Report::Lost(cause, None),
    }
}
