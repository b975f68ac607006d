//! What a site keeps of one entry.

ghost use Rattle.std.specs.Prelude.{◌≡◌, IfErr, IfOk};
ghost use Rattle.osdp_site.specs.declared.fault.SiteFault.TheVariants.{NoMemory};
ghost use Rattle.osdp_controller.specs.Machine.{command_size};
ghost use Rattle.osdp_site.specs.Acting.{acts_at, begins_anew, emptied, submits, submitted};
ghost use Rattle.osdp_site.specs.Places.{after_wants, change_of, changed_unless, due_of, goes_offline, goes_online, heeds, is_due, is_online, is_refreshed, new_place, unless_refused, wants_refusal};

use crate::fault::SiteFault;
use crate::subject::Subject;
use osdp_bus::{Bus, EntryNumber};
use osdp_controller::Report;
use osdp_msg::{Command, KeptCommand, Spelling};
use std::alloc::Global;
use std::marker::Model;

/// Whether a device is there, and from which moment on. Moments are those of the program's clock, in milliseconds.
#[derive(Clone, Copy, Debug, PartialEq, Eq)]
pub enum Presence {
    /// Its session opened then, and is open.
    Online(u64),
    /// Its session was lost or moved then, and none has opened since; or none ever has, and the site was made then.
    Offline(u64),
}

/// One entry.
#[derive(Drop)]
pub struct Place {
    room: usize,
    bytes: usize,
    wanted: Vec<KeptCommand>,
    done: usize,
    presence: Presence,
    begins: Option<u64>,
}

impl Model for Place {
    ghost use Rattle.std.specs.Prelude.{◌≤◌, vec_capacity};
    ghost use Rattle.osdp_site.specs.Places.{PlaceState};

    ghost Value = { PlaceState };

    ghost view = { λ p. record { room = p.room; bytes = p.bytes; wanted = p.wanted.items; done = p.done; presence = p.presence; begins = p.begins } };

    ghost invariant = { λ p. p.room ≤ vec_capacity p.wanted };
}

/// How many bytes a command has: its code and its data.
// its place of a spelling is no part of the stack of what calls it
#[inline(never)]
fn size_of(command: &Command<'_>) -> usize
    ensures { result ≡ command_size command.now }
{
    let mut spelling = Spelling::new();
    command.write_into(&mut spelling);
    spelling.len()
}

/// The session of a device begins, where none has. The orders that wait are stale, and are taken back then.
fn begin_anew(panel: &mut Bus, entry: EntryNumber, now: u64)
    ensures { panel.new ≡ begins_anew entry now panel.old }
{
    if panel.begin(entry, now).is_ok() {
        take_all_back(panel, entry);
    }
}

/// The orders that wait for a device are taken back.
fn take_all_back(panel: &mut Bus, entry: EntryNumber)
    ensures { panel.new ≡ emptied entry panel.old }
{
    for _ in 0..panel.waiting(entry).unwrap_or(0) {
        let _ = panel.withdraw(entry);
    }
}

impl Presence {
    fn is_online(self) -> bool
        ensures { result ≡ is_online self }
    {
        matches!(self, Presence::Online(_))
    }

    fn online_from(self, now: u64) -> Presence
        ensures { result ≡ goes_online now self }
    {
        match self {
            Presence::Online(since) => Presence::Online(since),
            Presence::Offline(_) => Presence::Online(now),
        }
    }

    fn offline_from(self, now: u64) -> Presence
        ensures { result ≡ goes_offline now self }
    {
        match self {
            Presence::Online(_) => Presence::Offline(now),
            Presence::Offline(since) => Presence::Offline(since),
        }
    }

    /// What is told where it was so before.
    fn change_from(self, before: Presence) -> Option<Presence>
        ensures { result ≡ change_of before self }
    {
        if before.is_online() == self.is_online() {
            None
        } else {
            Some(self)
        }
    }
}

impl Place {
    /// An entry that is offline, and whose session is due. It takes the memory for so many states.
    pub(crate) fn new(
        alloc: Global,
        room: usize,
        bytes: usize,
        now: u64,
    ) -> Result<Place, SiteFault>
        ensures made { IfOk result (λ p. p ≡ new_place room bytes now) }
        ensures fault { IfErr result (λ fault. fault ≡ NoMemory) }
    {
        match Vec::with_capacity(alloc, room) {
            Ok(wanted) => Ok(Place {
                room,
                bytes,
                wanted,
                done: 0,
                presence: Presence::Offline(now),
                begins: Some(now),
            }),
            Err(_) => Err(SiteFault::NoMemory),
        }
    }

    pub(crate) fn presence(&self) -> Presence
        ensures { result ≡ self.now.presence }
    {
        self.presence
    }

    pub(crate) fn begins(&self) -> Option<u64>
        ensures { result ≡ self.now.begins }
    {
        self.begins
    }

    /// Whether its session is due.
    pub(crate) fn is_due(&self, now: u64) -> bool
        ensures { result ≡ is_due now self.now }
    {
        match self.begins {
            Some(begins) => begins <= now,
            None => false,
        }
    }

    /// A state is wanted, in place of the one of the same that was wanted before.
    pub(crate) fn wants(&mut self, command: &Command<'_>) -> Result<(), SiteFault>
        ensures result { result ≡ unless_refused (wants_refusal command.now self.old) }
        ensures place { self.new ≡ changed_unless (wants_refusal command.now self.old) self.old (after_wants command.now self.old) }
    {
        let subject = Subject::of(command)?;
        if size_of(command) > self.bytes {
            return Err(SiteFault::TooLong);
        }
        match subject.first_in(self.wanted.as_slice()) {
            Some(i) => {
                let _ = self.wanted.remove(i);
                if i < self.done {
                    self.done -= 1;
                }
            }
            None if self.wanted.len() >= self.room => return Err(SiteFault::Full),
            None => {}
        }
        self.wanted.push_reserved(KeptCommand::new(command));
        Ok(())
    }

    /// A report of the entry is heeded. What is told of whether the device is online.
    pub(crate) fn heed(&mut self, report: &Report<'_>, pause: u32, now: u64) -> Option<Presence>
        ensures told { result ≡ change_of self.old.presence self.new.presence }
        ensures place { self.new ≡ heeds pause now report.now self.old }
    {
        let before = self.presence;
        match report {
            Report::Opened(_) => {
                self.done = 0;
                self.presence = before.online_from(now);
            }
            Report::Moved(..) | Report::Lost(..) => {
                self.presence = before.offline_from(now);
                self.begins = Some(now.saturating_add(u64::from(pause)));
            }
            Report::Settled(..) | Report::Event(_) | Report::PollAnswered(_) | Report::Unread(..) =>
                {}
        }
        self.presence.change_from(before)
    }

    /// What is wanted and not submitted yet goes to the panel, up to the first that it refuses.
    fn refresh(&mut self, panel: &mut Bus, entry: EntryNumber)
        ensures place { self.new ≡ (submitted self.old (submits entry (due_of self.old) panel.old)).place }
        ensures panel { panel.new ≡ (submits entry (due_of self.old) panel.old).panel }
    {
        for at in self.done..self.wanted.len() {
            match panel.submit(entry, &self.wanted[at].command()) {
                Ok(()) => self.done = at + 1,
                Err(_) => return,
            }
        }
    }

    /// Begins a session that is due, and submits what is wanted to a device that is online.
    pub(crate) fn act(&mut self, panel: &mut Bus, entry: EntryNumber, now: u64)
        ensures place { self.new ≡ (acts_at entry now (record { place = self.old; panel = panel.old })).place }
        ensures panel { panel.new ≡ (acts_at entry now (record { place = self.old; panel = panel.old })).panel }
    {
        if self.is_due(now) {
            self.begins = None;
            begin_anew(panel, entry, now);
        }
        if self.presence.is_online() {
            self.refresh(panel, entry);
        }
    }

    /// Whether the device is online, and all that is wanted of it was submitted since its session opened.
    pub(crate) fn is_refreshed(&self) -> bool
        ensures { result ≡ is_refreshed self.now }
    {
        self.presence.is_online() && self.done >= self.wanted.len()
    }
}
