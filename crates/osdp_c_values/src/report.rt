//! What a panel tells.

ghost use Rattle.std.specs.Prelude.{◌≡◌, None};
ghost use Rattle.std.specs.Option.{option_copied};
ghost use Rattle.osdp_c_values.specs.Reports.{about, cause_number, report_of, report_struct, tells, what_of};
ghost use Rattle.osdp_c_values.specs.Structs.{flag};

use crate::message::MessageStruct;
use osdp_controller::{LostCause, Report};
use osdp_msg::{Command, Reply};
use osdp_panel::{PanelReport, What};

/// What a panel tells, where it tells anything.
#[repr(C)]
#[derive(Drop)]
pub struct ReportStruct {
    /// The entry of the device of which it tells.
    pub entry: usize,
    /// The number of the order that it is about, where it is about one.
    pub number: u64,
    /// Of an event: the moment, in milliseconds, at which the POLL was first sent that it answers. The device offered the event no earlier.
    pub since: u64,
    /// What it tells: 0 nothing, 1 opened, 2 settled, 3 moved, 4 an event, 5 a POLL answered otherwise, 6 unread, 7 lost, 8 expired.
    pub kind: u32,
    /// Of an event 1 where it may have been reported before; of an answer that can't be read its code; of a lost session why: 1 no reply, 2 too busy, 3 the
    /// number was refused.
    pub detail: u32,
    /// 1 where it is about an order, else 0.
    pub numbered: u32,
    /// 1 where a session was lost with an order that wasn't sent again, since its last moment had passed; else 0.
    pub too_late: u32,
    /// The command.
    pub command: MessageStruct,
    /// The reply.
    pub reply: MessageStruct,
}

/// The number of why a session was lost.
fn cause_number(cause: LostCause) -> u32
    ensures { result ≡ cause_number cause }
{
    match cause {
        LostCause::NoReply => 1,
        LostCause::TooBusy => 2,
        LostCause::NumberRefused => 3,
    }
}

/// Whether something is so: 1, or else 0.
fn flag(so: bool) -> u32
    ensures { result ≡ flag so }
{
    if so { 1 } else { 0 }
}

impl ReportStruct {
    /// Tells that this happened.
    fn tell(
        &mut self,
        kind: u32,
        detail: u32,
        command: Option<&Command<'_>>,
        reply: Option<&Reply<'_>>,
    )
        ensures { self.new ≡ tells kind detail (option_copied command.entry) (option_copied reply.entry) self.old }
    {
        self.kind = kind;
        self.detail = detail;
        self.command.set_command(command);
        self.reply.set_reply(reply);
    }

    /// Tells a report.
    fn tell_report(&mut self, report: &Report<'_>)
        ensures { self.new ≡ report_of report.now self.old }
    {
        match report {
            Report::Opened(id) => self.tell(1, 0, None, Some(&Reply::PdId(*id))),
            Report::Settled(command, reply) => self.tell(2, 0, Some(command), Some(reply)),
            Report::Moved(command, answered) => {
                self.tell(3, 0, Some(command), Some(&Reply::Com(*answered)));
            }
            Report::Event(event) => self.tell(4, 0, None, Some(&event.reply())),
            Report::PollAnswered(reply) => self.tell(5, 0, None, Some(reply)),
            Report::Unread(command, code) => {
                self.tell(6, u32::from(*code), command.as_ref(), None);
            }
            Report::Lost(cause, command) => {
                self.tell(7, cause_number(*cause), command.as_ref(), None);
            }
        }
    }

    /// Tells what happened.
    fn tell_what(&mut self, what: &What<'_>)
        ensures { self.new ≡ what_of what.now self.old }
    {
        match what {
            What::Told(report) => self.tell_report(report),
            What::Expired(command) => self.tell(8, 0, Some(command), None),
        }
    }

    /// Tells what it is about.
    fn tell_about(&mut self, told: &PanelReport<'_>)
        ensures { self.new ≡ about told.now self.old }
    {
        self.entry = told.entry;
        self.number = told.number.unwrap_or(0);
        self.since = told.since.unwrap_or(0);
        self.numbered = flag(told.number.is_some());
        self.too_late = flag(told.too_late);
    }

    /// Tells that there is nothing to tell.
    fn tell_nothing(&mut self)
        ensures { self.new ≡ report_struct None self.old }
    {
        self.entry = 0;
        self.number = 0;
        self.since = 0;
        self.numbered = 0;
        self.too_late = 0;
        self.tell(0, 0, None, None);
    }

    /// Writes what is to be told, where it lies, or that nothing is.
    pub fn set(&mut self, told: &Option<PanelReport<'_>>)
        ensures { self.new ≡ report_struct told.now self.old }
    {
        match told {
            Some(told) => {
                self.tell_about(told);
                self.tell_what(&told.what);
                if told.maybe_again {
                    self.detail = 1;
                }
            }
            None => self.tell_nothing(),
        }
    }
}
