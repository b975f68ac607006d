//! A device of a bus.

ghost use Rattle.std.specs.Prelude.{◌≡◌, IfErr, None, OnOk, Some, is_some, option_map};
ghost use Rattle.osdp_controller.specs.Comsets.{is_comset};
ghost use Rattle.osdp_controller.specs.Hearing.{comset_of};
ghost use Rattle.osdp_controller.specs.Lent.{IsWritten};
ghost use Rattle.osdp_controller.specs.Machine.{begin_refusal, retarget_refusal, submit_refusal};
ghost use Rattle.osdp_bus.specs.Asking.{question_of};
ghost use Rattle.osdp_bus.specs.Entries.{entry_hears, entry_ticks, freed_with, holds, is_at, is_entry_due, is_reserved, reserved_after, reserved_for, step_of, takes_up, told_of};
ghost use Rattle.osdp_bus.specs.Machine.{bus_fault, entry_begins, entry_retargets, entry_submits, entry_withdraws, reserved_without, withdrawn_of};
ghost use Rattle.osdp_bus.specs.Waits.{IsDueFrom};

use crate::EntryNumber;
use crate::asking::Question;
use crate::fault::BusFault;
use osdp_controller::{Controller, ControllerFault, KeptReport, Report};
use osdp_frame::{Address, Burst, FrameView};
use osdp_msg::{Command, Communication};

/// A device: its controller, and the address that is reserved for it.
#[derive(Debug, Drop)]
pub struct Entry {
    pub controller: Controller,
    pub reserved: Option<u8>,
}

impl Entry {
    /// Whether it is at this address.
    pub(crate) fn is_at(&self, address: u8) -> bool
        ensures { result ≡ is_at address self.now }
    {
        self.controller.address().get() == address
    }

    /// Whether the address is its own, or reserved for it.
    pub(crate) fn takes_up(&self, address: u8) -> bool
        ensures { result ≡ takes_up address self.now }
    {
        self.is_at(address) || is_reserved(address, self.reserved)
    }

    /// Whether an exchange of its controller is outstanding.
    pub(crate) fn holds(&self) -> bool
        ensures { result ≡ holds self.now }
    {
        self.controller.outstanding()
    }

    /// What it was asked, and how often, where its exchange is outstanding; its entry has this number.
    pub(crate) fn question(&self, entry: EntryNumber) -> Option<Question>
        ensures { result ≡ question_of entry self.now }
    {
        let asked = self.controller.asked()?;
        Some(Question {
            entry,
            asked,
            sent: self.controller.sent_in_exchange(),
        })
    }

    /// Whether its controller would send or report at this moment.
    pub(crate) fn is_due(&self, now: u64) -> bool
        ensures { result ≡ is_entry_due now self.now }
    {
        self.controller.due(now)
    }

    /// Whether an accepted COMSET would reserve an address beside one that is reserved already.
    pub(crate) fn has_reserved(&self) -> bool
        ensures { result ≡ is_some self.now.reserved }
    {
        self.reserved.is_some()
    }

    /// Begins a session.
    pub(crate) fn begin(&mut self, now: u64)
        requires { begin_refusal self.old.controller ≡ None }
        ensures { self.new ≡ entry_begins now self.old }
    {
        let _ = self.controller.begin(now);
    }

    /// Puts a command after those that wait. A COMSET reserves its address.
    pub(crate) fn submit(&mut self, command: &Command<'_>) -> Result<(), BusFault>
        ensures ok { OnOk result ((submit_refusal command.now self.old.controller ≡ None) × (self.new ≡ entry_submits command.now self.old)) }
        ensures err { IfErr result (λ fault. (option_map bus_fault (submit_refusal command.now self.old.controller) ≡ Some fault) × (self.new ≡ self.old)) }
    {
        match self.controller.submit(command) {
            Ok(()) => {
                self.reserved = reserved_for(comset_of(command), self.reserved);
                Ok(())
            }
            Err(fault) => Err(bus_fault(fault)),
        }
    }

    /// Sets the address, and frees what is reserved.
    pub(crate) fn retarget(&mut self, address: Address)
        requires { retarget_refusal address self.old.controller ≡ None }
        ensures { self.new ≡ entry_retargets address self.old }
    {
        let _ = self.controller.retarget(address);
        self.reserved = None;
    }

    /// The command that may be withdrawn: the one that has waited longest, where none is on its way.
    pub(crate) fn withdrawable(&self) -> Option<Command<'_>>
        ensures { result ≡ withdrawn_of self.now }
    {
        self.controller.withdrawable()
    }

    /// Takes it back. Whether there was one.
    pub(crate) fn withdraw(&mut self) -> bool
        ensures command { result ≡ is_some (withdrawn_of self.old) }
        ensures device { self.new ≡ entry_withdraws self.old }
    {
        self.reserved = reserved_without(&self.withdrawable(), self.reserved);
        self.controller.withdraw()
    }

    /// From when on its controller would send or report, but not before this moment. None where it never would.
    pub(crate) fn deadline(&self, now: u64) -> Option<u64>
        ensures { IsDueFrom (λ at. is_entry_due at self.now) now result }
    {
        let deadline = self.controller.next_deadline()?;
        if self.is_due(now) {
            Some(now)
        } else {
            Some(deadline)
        }
    }

    /// A packet comes from the line. What it says, or that nothing is to be told, stands in `report`.
    pub(crate) fn hear(&mut self, frame: &FrameView<'_>, now: u64, report: &mut KeptReport)
        ensures report { report.new ≡ told_of frame.now now self.old }
        ensures device { self.new ≡ entry_hears frame.now now self.old }
    {
        self.controller.hear(frame, now, report);
        self.free_after(report);
    }

    /// What is due at a moment: whether a packet goes out, whose bytes stand in `out` then, and what is told, in `report`.
    pub(crate) fn tick(&mut self, now: u64, out: &mut Burst, report: &mut KeptReport) -> bool
        ensures sent { result ≡ is_some (step_of now self.old).frame }
        ensures bytes { IsWritten (step_of now self.old).frame out.old.items out.new.items }
        ensures report { report.new ≡ (step_of now self.old).report }
        ensures device { self.new ≡ entry_ticks now self.old }
    {
        let sends = self.controller.tick(now, out, report);
        self.free_after(report);
        sends
    }

    /// Frees what is reserved where a report settles its COMSET. The report is read only where something is.
    fn free_after(&mut self, report: &KeptReport)
        ensures { self.new ≡ record self.old { reserved = reserved_after report.now self.old.reserved } }
    {
        if self.has_reserved() {
            self.reserved = reserved_after(&report.read(), self.reserved);
        }
    }
}

fn is_reserved(address: u8, reserved: Option<u8>) -> bool
    ensures { result ≡ is_reserved address reserved }
{
    match reserved {
        None => false,
        Some(reserved) => reserved == address,
    }
}

/// Where and how fast a COMSET asks a reader to go.
pub(crate) fn comset_of(command: &Command<'_>) -> Option<Communication>
    ensures { result ≡ comset_of command.now }
{
    match command {
        Command::Comset(asked) => Some(*asked),
        _ => None,
    }
}

/// What is reserved once a command is accepted.
fn reserved_for(asked: Option<Communication>, reserved: Option<u8>) -> Option<u8>
    ensures { result ≡ reserved_for asked reserved }
{
    match asked {
        Some(asked) => Some(asked.address),
        None => reserved,
    }
}

/// What stays reserved once a command is withdrawn.
fn reserved_without(command: &Option<Command<'_>>, reserved: Option<u8>) -> Option<u8>
    ensures { result ≡ reserved_without command.now reserved }
{
    match command {
        None => reserved,
        Some(command) => freed_with(command, reserved),
    }
}

/// A controller's refusal, told by the bus.
pub(crate) fn bus_fault(fault: ControllerFault) -> BusFault
    ensures { result ≡ bus_fault fault }
{
    match fault {
        ControllerFault::NoMemory => BusFault::NoMemory,
        ControllerFault::OutOfRange => BusFault::OutOfRange,
        ControllerFault::Full => BusFault::Full,
        ControllerFault::PollSubmitted => BusFault::PollSubmitted,
        ControllerFault::NotClosed => BusFault::NotClosed,
    }
}

/// Whether it is a COMSET.
fn is_comset(command: &Command<'_>) -> bool
    ensures { result ≡ is_comset command.now }
{
    matches!(command, Command::Comset(_))
}

/// What stays reserved once a command is done with.
fn freed_with(command: &Command<'_>, reserved: Option<u8>) -> Option<u8>
    ensures { result ≡ freed_with command.now reserved }
{
    if is_comset(command) { None } else { reserved }
}

/// What stays reserved after a report.
fn reserved_after(report: &Option<Report<'_>>, reserved: Option<u8>) -> Option<u8>
    ensures { result ≡ reserved_after report.now reserved }
{
    match report {
        Some(Report::Settled(command, _) | Report::Moved(command, _)) => {
            freed_with(command, reserved)
        }
        None
        | Some(
            Report::Opened(_)
            | Report::Event(_)
            | Report::PollAnswered(_)
            | Report::Unread(..)
            | Report::Lost(..),
        ) => reserved,
    }
}
