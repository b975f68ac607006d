//! The report that waits to be taken.

ghost use Rattle.std.specs.Prelude.{◌≡◌, false, is_some, None, Some, option_map};
ghost use Rattle.osdp_controller.specs.Lent.{IsWritten};
ghost use Rattle.osdp_bus.specs.Buses.{waiting_after};
ghost use Rattle.osdp_bus.specs.Entries.{entry_hears, entry_ticks, step_of, told_of};

use crate::EntryNumber;
use crate::boxed_entry::BoxedEntry;
use osdp_controller::{KeptReport, Report};
use osdp_frame::{Burst, FrameView};
use std::marker::Model;

/// The report that waits to be taken, where one does, with the entry of the device whose controller told it. The controllers tell into this
/// place, which keeps it as bytes, and it is read where it lies.
#[derive(Debug, Drop)]
pub struct Told {
    entry: EntryNumber,
    report: KeptReport,
}

impl Model for Told {
    ghost use Rattle.std.specs.Prelude.{ℕ, Option, option_map};
    ghost use Rattle.osdp_controller.specs.declared.report.Report.{Report};

    ghost Value = { Option (ℕ × Report) };

    ghost view = { λ t. option_map (λ r. (t.entry, r)) t.report };
}

impl Told {
    /// No report waits.
    pub fn new() -> Told
        ensures { result ≡ None }
    {
        Told {
            entry: 0,
            report: KeptReport::new(),
        }
    }

    /// Whether one waits.
    pub fn is_some(&self) -> bool
        ensures { result ≡ is_some self.now }
    {
        self.report.is_some()
    }

    /// The entry of the device that it is about.
    pub fn entry(&self) -> Option<EntryNumber>
        ensures { result ≡ option_map (λ told. told.0) self.now }
    {
        if self.report.is_some() {
            Some(self.entry)
        } else {
            None
        }
    }

    /// The report where it lies, with its entry.
    pub fn read(&self) -> Option<(EntryNumber, Report<'_>)>
        ensures { result ≡ self.now }
    {
        Some((self.entry, self.report.read()?))
    }

    /// Puts a report in place of what stands here.
    pub fn keep(&mut self, entry: EntryNumber, report: &Report<'_>)
        ensures { self.new ≡ Some (entry, report.now) }
    {
        self.entry = entry;
        self.report.keep(report);
    }

    /// Lets the report go.
    pub fn clear(&mut self)
        ensures { self.new ≡ None }
    {
        self.report.clear();
    }

    /// A packet reaches the device of an entry. What its controller tells waits in place of what waited; where it tells nothing, that stays.
    #[tactic(auto, using(crate::proofs::Telling::telling))]
    pub(crate) fn hear(
        &mut self,
        entry: EntryNumber,
        device: &mut BoxedEntry,
        frame: &FrameView<'_>,
        now: u64,
    )
        ensures told { self.new ≡ waiting_after entry (told_of frame.now now device.old) self.old }
        ensures device { device.new ≡ entry_hears frame.now now device.old }
    {
        if self.report.is_some() {
            self.hear_beside(entry, device, frame, now);
            return;
        }
        self.entry = entry;
        device.hear(frame, now, &mut self.report);
    }

    /// The same where a report waits already: what is told has a place of its own first.
    // It stands by itself, since that place is written whole.
    #[inline(never)]
    #[tactic(auto, using(crate::proofs::Telling::telling))]
    fn hear_beside(
        &mut self,
        entry: EntryNumber,
        device: &mut BoxedEntry,
        frame: &FrameView<'_>,
        now: u64,
    )
        ensures told { self.new ≡ waiting_after entry (told_of frame.now now device.old) self.old }
        ensures device { device.new ≡ entry_hears frame.now now device.old }
    {
        let mut report = KeptReport::new();
        device.hear(frame, now, &mut report);
        if report.is_some() {
            self.entry = entry;
            self.report = report;
        }
    }

    /// The device of an entry does what is due, where no report waits. Whether a packet goes out, whose bytes stand in `out` then. What is told
    /// waits.
    #[tactic(auto, using(crate::proofs::Telling::telling))]
    pub(crate) fn tick(
        &mut self,
        entry: EntryNumber,
        device: &mut BoxedEntry,
        now: u64,
        out: &mut Burst,
    ) -> bool
        requires { is_some self.old ≡ false }
        ensures sent { result ≡ is_some (step_of now device.old).frame }
        ensures bytes { IsWritten (step_of now device.old).frame out.old.items out.new.items }
        ensures told { self.new ≡ waiting_after entry (step_of now device.old).report self.old }
        ensures device { device.new ≡ entry_ticks now device.old }
    {
        self.entry = entry;
        device.tick(now, out, &mut self.report)
    }
}
