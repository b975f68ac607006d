//! What a schedule comes to.

ghost use Rattle.std.specs.Prelude.{◌≡◌, OnOk, Some};
ghost use Rattle.osdp_sim.specs.Account.{empty_account, lists_of, taken_by, taken_command, with_issued, with_queued, with_report, with_session, with_taken};
ghost use Rattle.osdp_msg.specs.Events.{EventFits};
ghost use Rattle.osdp_msg.specs.Kept.{command_kept, event_kept};
ghost use Rattle.osdp_sim.specs.Room.{HasPlaces};
ghost use Rattle.osdp_msg.specs.CommandTable.{CommandFits};

use crate::kept::Kept;
use crate::settled::Settled;
use osdp_controller::{KeptReport, LostCause, Report};
use osdp_msg::{Command, Event, Reply, Spelling};
use osdp_reader::{Heard, Kind};
use std::alloc::{AllocError, Global};

/// How a session ended.
#[derive(Clone, Copy, Debug, PartialEq, Eq)]
pub enum End {
    /// Its exchange was given up for this cause.
    Lost(LostCause),
    /// The reader has gone to another address.
    Moved,
}

/// How long the lists of an account were.
#[derive(Clone, Copy, Debug, PartialEq, Eq)]
pub struct Lengths {
    /// How many commands were accepted.
    pub issued: usize,
    /// How many commands the reader had taken.
    pub taken: usize,
    /// How many commands were settled.
    pub settled: usize,
    /// How many commands were told unsettled.
    pub unsettled: usize,
    /// How many events were accepted.
    pub queued: usize,
    /// How many events were reported.
    pub reported: usize,
    /// How many sessions had ended.
    pub ends: usize,
}

/// What a schedule came to, for one reader. Messages are kept by their bytes.
#[derive(Debug, Drop)]
pub struct Account {
    /// The commands that the controller accepted.
    pub issued: Kept,
    /// The commands, other than POLL, that the reader has taken with the number that it expected.
    pub taken: Kept,
    /// The commands that were settled, each with its answer. A COMSET that moved the reader stands with its COM.
    pub settled: Settled,
    /// The commands that were outstanding where a session was lost.
    pub unsettled: Kept,
    /// The events that the reader accepted.
    pub queued: Kept,
    /// The events that the controller reported.
    pub reported: Kept,
    /// How the sessions ended.
    pub ends: Vec<End>,
    /// How long the other lists were when each session began.
    pub sessions: Vec<Lengths>,
    /// A place for the bytes of a message on its way into a list.
    spelling: Spelling,
}

impl Account {
    /// Nothing has happened.
    pub fn new(alloc: Global) -> Account
        ensures { lists_of result ≡ empty_account }
    {
        Account {
            issued: Kept::new(alloc),
            taken: Kept::new(alloc),
            settled: Settled::new(alloc),
            unsettled: Kept::new(alloc),
            queued: Kept::new(alloc),
            reported: Kept::new(alloc),
            ends: Vec::new(alloc),
            sessions: Vec::new(alloc),
            spelling: Spelling::new(),
        }
    }

    /// Makes a place in each list.
    pub fn grow(&mut self) -> Result<(), AllocError>
        ensures same { lists_of self.new ≡ lists_of self.old }
        ensures places { OnOk result (HasPlaces self.new) }
    {
        self.issued.grow()?;
        self.taken.grow()?;
        self.settled.grow()?;
        self.unsettled.grow()?;
        self.queued.grow()?;
        self.reported.grow()?;
        self.ends.try_reserve(1)?;
        self.sessions.try_reserve(1)
    }

    /// A session begins.
    pub fn begin(&mut self)
        requires { HasPlaces self.old }
        ensures { lists_of self.new ≡ with_session (lists_of self.old) }
    {
        self.sessions.push_reserved(Lengths {
            issued: self.issued.len(),
            taken: self.taken.len(),
            settled: self.settled.len(),
            unsettled: self.unsettled.len(),
            queued: self.queued.len(),
            reported: self.reported.len(),
            ends: self.ends.len(),
        });
    }

    /// Puts the bytes of a command into the place for those of a message.
    pub(crate) fn spell(&mut self, command: &Command<'_>)
        ensures kept { command_kept self.new.spelling.items ≡ command.now }
        ensures fits { CommandFits command.now }
        ensures lists { lists_of self.new ≡ lists_of self.old }
        ensures places { HasPlaces self.old → HasPlaces self.new }
    {
        command.write_into(&mut self.spelling);
    }

    /// The command whose bytes stand in the place for those of a message was accepted.
    pub(crate) fn issue_spelled(&mut self)
        requires { HasPlaces self.old }
        ensures { lists_of self.new ≡ with_issued (command_kept self.old.spelling.items) (lists_of self.old) }
    {
        self.issued.add(self.spelling.as_slice());
    }

    /// Puts the bytes of an event into that place.
    pub(crate) fn spell_event(&mut self, event: &Event<'_>)
        ensures kept { event_kept self.new.spelling.items ≡ event.now }
        ensures fits { EventFits event.now }
        ensures lists { lists_of self.new ≡ lists_of self.old }
        ensures places { HasPlaces self.old → HasPlaces self.new }
    {
        event.write_into(&mut self.spelling);
    }

    /// The event whose bytes stand in that place was accepted.
    pub(crate) fn queue_spelled(&mut self)
        requires { HasPlaces self.old }
        ensures { lists_of self.new ≡ with_queued (event_kept self.old.spelling.items) (lists_of self.old) }
    {
        self.queued.add(self.spelling.as_slice());
    }

    /// A command was accepted.
    pub fn issue(&mut self, command: &Command<'_>)
        requires { HasPlaces self.old }
        ensures { lists_of self.new ≡ with_issued command.now (lists_of self.old) }
    {
        self.spell(command);
        self.issue_spelled();
    }

    /// An event was accepted.
    pub fn queue(&mut self, event: &Event<'_>)
        requires { HasPlaces self.old }
        ensures { lists_of self.new ≡ with_queued event.now (lists_of self.old) }
    {
        self.spell_event(event);
        self.queue_spelled();
    }

    /// The reader has taken a command: a POLL isn't counted.
    fn take(&mut self, command: &Command<'_>)
        requires { HasPlaces self.old }
        ensures { lists_of self.new ≡ with_taken (taken_command (Some command.now)) (lists_of self.old) }
    {
        if !matches!(command, Command::Poll) {
            self.taken.push_command(command, &mut self.spelling);
        }
    }

    /// The reader has heard a packet, and made this of it.
    pub fn take_heard(&mut self, heard: &Heard<'_>)
        requires { HasPlaces self.old }
        ensures { lists_of self.new ≡ with_taken (taken_by heard.now.kind heard.now.command) (lists_of self.old) }
    {
        if heard.kind != Kind::Taken {
            return;
        }
        if let Some(command) = &heard.command {
            self.take(command);
        }
    }

    /// The controller has reported what stands there, if anything does.
    pub fn tell_any(&mut self, report: &KeptReport)
        requires { HasPlaces self.old }
        ensures { lists_of self.new ≡ with_report report.now (lists_of self.old) }
    {
        if let Some(report) = report.read() {
            self.tell(&report);
        }
    }

    /// The controller has reported this.
    pub fn tell(&mut self, report: &Report<'_>)
        requires { HasPlaces self.old }
        ensures { lists_of self.new ≡ with_report (Some report.now) (lists_of self.old) }
    {
        match report {
            Report::Opened(_) | Report::PollAnswered(_) | Report::Unread(..) => {}
            Report::Settled(command, answer) => {
                self.settled.push(command, answer, &mut self.spelling);
            }
            Report::Moved(command, answered) => {
                let answer = Reply::Com(*answered);
                self.settled.push(command, &answer, &mut self.spelling);
                self.ends.push_reserved(End::Moved);
            }
            Report::Event(event) => self.reported.push_event(event, &mut self.spelling),
            Report::Lost(cause, command) => {
                if let Some(command) = command {
                    self.unsettled.push_command(command, &mut self.spelling);
                }
                self.ends.push_reserved(End::Lost(*cause));
            }
        }
    }
}
