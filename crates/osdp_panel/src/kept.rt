//! A report of a panel that is kept, so that the panel can be called while it is read.

ghost use Rattle.std.specs.Prelude.{◌≡◌, None, Some, is_some};
ghost use Rattle.osdp_panel.specs.Kept.{what_in};

use crate::report::{PanelReport, What};
use osdp_bus::EntryNumber;
use osdp_controller::{KeptReport, LostCause, Report};
use std::marker::Model;

/// A place for a report of a panel.
#[derive(Debug, Drop)]
pub struct KeptPanelReport {
    entry: EntryNumber,
    number: Option<u64>,
    since: Option<u64>,
    maybe_again: bool,
    too_late: bool,
    is_expired: bool,
    report: KeptReport,
}

impl Model for KeptPanelReport {
    ghost use Rattle.std.specs.Prelude.{Option, option_map};
    ghost use Rattle.osdp_panel.specs.Kept.{what_in};
    ghost use Rattle.osdp_panel.specs.declared.report.PanelReport.{PanelReport};

    ghost Value = { Option PanelReport };

    ghost view = { λ k. option_map (λ r. record { entry = k.entry; number = k.number; since = k.since; maybe_again = k.maybe_again; too_late = k.too_late; what = what_in k.is_expired r }) k.report };
}

/// What happened, as it is kept.
fn what_in<'a>(is_expired: bool, report: Report<'a>) -> What<'a>
    ensures { result ≡ what_in is_expired report.entry }
{
    match report {
        Report::Lost(_, Some(command)) if is_expired => What::Expired(command),
        other => What::Told(other),
    }
}

impl KeptPanelReport {
    /// No report.
    pub fn new() -> KeptPanelReport
        ensures { result ≡ None }
    {
        KeptPanelReport {
            entry: 0,
            number: None,
            since: None,
            maybe_again: false,
            too_late: false,
            is_expired: false,
            report: KeptReport::new(),
        }
    }

    /// Whether there is one.
    pub fn is_some(&self) -> bool
        ensures { result ≡ is_some self.now }
    {
        self.report.is_some()
    }

    /// The report, if there is one. It lends the bytes that are kept here.
    pub fn read(&self) -> Option<PanelReport<'_>>
        ensures { result ≡ self.now }
    {
        let report = self.report.read()?;
        Some(PanelReport {
            entry: self.entry,
            number: self.number,
            since: self.since,
            maybe_again: self.maybe_again,
            too_late: self.too_late,
            what: what_in(self.is_expired, report),
        })
    }

    /// Puts a report in place of what stands here.
    pub fn keep(&mut self, told: PanelReport<'_>)
        ensures { self.new ≡ Some told.entry }
    {
        self.entry = told.entry;
        self.number = told.number;
        self.since = told.since;
        self.maybe_again = told.maybe_again;
        self.too_late = told.too_late;
        match told.what {
            What::Told(report) => {
                self.is_expired = false;
                self.report.keep(&report);
            }
            What::Expired(command) => {
                self.is_expired = true;
                let report = Report::Lost(LostCause::NoReply, Some(command));
                self.report.keep(&report);
            }
        }
    }

    /// Lets the report go.
    pub fn clear(&mut self)
        ensures { self.new ≡ None }
    {
        self.report.clear();
    }
}
