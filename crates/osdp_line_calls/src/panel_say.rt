//! The lines that answer a call.

ghost use Rattle.std.specs.Prelude.{◌≡◌, ◌<◌, ◌^◌, ◌++◌, [], IfSome, OnOk, None, Some, codes, string_bytes};
ghost use Rattle.osdp_controller.specs.Causes.{cause_name};
ghost use Rattle.osdp_msg.specs.Events.{event_text};
ghost use Rattle.osdp_line_calls.specs.PanelTexts.{burst_line, due_line, event_name, fault_name, lost_text, order_fault_name, order_text, refusal_line, report_line, send_line, since_text, submit_line, told_line, what_line, with_command, withdrawal_line};

use osdp_bus::{BusFault, EntryNumber};
use osdp_controller::{LostCause, Report};
use osdp_msg::{Command, Event, Reply};
use osdp_panel::{PanelFault, PanelReport, What};
use osdp_words::ByteList;
use std::alloc::AllocError;

/// Writes that a burst is to go out, where one is.
pub(crate) fn push_burst(text: &mut String, is_burst: bool) -> Result<(), AllocError>
    ensures { OnOk result (string_bytes text.new ≡ string_bytes text.old ++ burst_line is_burst) }
{
    if !is_burst {
        return Ok(());
    }
    text.push_str("burst\n")
}

/// Writes the bytes that are given out, where there are some.
pub(crate) fn push_sent(text: &mut String, bytes: &[u8]) -> Result<(), AllocError>
    ensures { OnOk result (string_bytes text.new ≡ string_bytes text.old ++ send_line bytes.now) }
{
    if bytes.is_empty() {
        return Ok(());
    }
    writeln!(text, "send {}", ByteList(bytes))
}

/// Writes the number of an order, where a line tells of one.
fn push_order(text: &mut String, number: Option<u64>) -> Result<(), AllocError>
    ensures { OnOk result (string_bytes text.new ≡ string_bytes text.old ++ order_text number) }
{
    match number {
        None => Ok(()),
        Some(number) => write!(text, "order {number} "),
    }
}

/// Ends a line with the command that it tells of, where there is one.
fn push_command(text: &mut String, command: &Option<Command<'_>>) -> Result<(), AllocError>
    ensures { OnOk result (string_bytes text.new ≡ string_bytes text.old ++ (with_command [] command.now ++ codes "\n")) }
{
    match command {
        None => text.push_str("\n"),
        Some(command) => writeln!(text, " {command}"),
    }
}

/// How the line of an event begins.
fn event_name(maybe_again: bool) -> &'static str
    ensures { result.now ≡ event_name maybe_again }
{
    if maybe_again { "maybe-again" } else { "event" }
}

/// Writes an event, and from when on its device may have offered it.
fn push_event(text: &mut String, since: Option<u64>, event: &Event<'_>) -> Result<(), AllocError>
    ensures { OnOk result (string_bytes text.new ≡ string_bytes text.old ++ (since_text since ++ (event_text event.now ++ codes "\n"))) }
{
    if let Some(moment) = since {
        write!(text, "since {moment} ")?;
    }
    writeln!(text, "{event}")
}

/// Writes why a session was lost, and whether an order was withheld in it.
fn push_cause(text: &mut String, cause: LostCause, too_late: bool) -> Result<(), AllocError>
    ensures { OnOk result (string_bytes text.new ≡ string_bytes text.old ++ lost_text (cause_name cause) too_late) }
{
    text.push_str(cause.name())?;
    if !too_late {
        return Ok(());
    }
    text.push_str(" withheld")
}

/// Writes what an entry's controller tells, with what the panel knows of it.
fn push_told(
    text: &mut String,
    told: &PanelReport<'_>,
    report: &Report<'_>,
) -> Result<(), AllocError>
    ensures { OnOk result (string_bytes text.new ≡ string_bytes text.old ++ told_line told.now report.now) }
{
    let number = told.entry as u128 + 1;
    match report {
        Report::Opened(id) => {
            let reply = Reply::PdId(*id);
            writeln!(text, "opened {number} {reply}")
        }
        Report::Settled(command, reply) => writeln!(text, "settled {number} {command} = {reply}"),
        Report::Moved(command, answered) => {
            let reply = Reply::Com(*answered);
            writeln!(text, "moved {number} {command} = {reply}")
        }
        Report::Event(event) => {
            let name = event_name(told.maybe_again);
            write!(text, "{name} {number} ")?;
            push_event(text, told.since, event)
        }
        Report::PollAnswered(reply) => writeln!(text, "answered {number} {reply}"),
        Report::Unread(command, code) => {
            let bytes = [*code];
            write!(text, "unread {number} code {}", ByteList(&bytes))?;
            push_command(text, command)
        }
        Report::Lost(cause, command) => {
            write!(text, "lost {number} ")?;
            push_cause(text, *cause, told.too_late)?;
            push_command(text, command)
        }
    }
}

/// Writes what happened.
fn push_what(text: &mut String, told: &PanelReport<'_>) -> Result<(), AllocError>
    ensures { OnOk result (string_bytes text.new ≡ string_bytes text.old ++ what_line told.now told.now.what) }
{
    match &told.what {
        What::Told(report) => push_told(text, told, report),
        What::Expired(command) => {
            let number = told.entry as u128 + 1;
            writeln!(text, "expired {number} {command}")
        }
    }
}

/// Writes a report of a panel.
pub(crate) fn push_report(text: &mut String, told: &PanelReport<'_>) -> Result<(), AllocError>
    ensures { OnOk result (string_bytes text.new ≡ string_bytes text.old ++ report_line (Some told.now)) }
{
    push_order(text, told.number)?;
    push_what(text, told)
}

/// A refusal's name.
fn fault_name(fault: BusFault) -> &'static str
    ensures { result.now ≡ fault_name fault }
{
    match fault {
        BusFault::NoMemory => "B1",
        BusFault::TooMany => "B2",
        BusFault::AddressTaken => "B3",
        BusFault::NoEntry => "B4",
        BusFault::OutOfRange => "B5",
        BusFault::AddressOutOfRange => "B6",
        // Of the controller of an entry.
        BusFault::Full => "C3",
        BusFault::PollSubmitted => "C4",
        BusFault::NotClosed => "C5",
    }
}

/// Writes why a call is refused.
pub(crate) fn push_refusal(text: &mut String, fault: BusFault) -> Result<(), AllocError>
    ensures { OnOk result (string_bytes text.new ≡ string_bytes text.old ++ refusal_line (Some fault)) }
{
    let name = fault_name(fault);
    writeln!(text, "refused {name}")
}

/// The name of why an order is refused.
fn order_fault_name(fault: PanelFault) -> &'static str
    ensures { result.now ≡ order_fault_name fault }
{
    match fault {
        PanelFault::Bus(fault) => fault_name(fault),
        PanelFault::NumbersUsedUp => "B7",
    }
}

/// Writes why an order is refused.
pub(crate) fn push_order_refusal(
    text: &mut String,
    entry: EntryNumber,
    fault: PanelFault,
) -> Result<(), AllocError>
    ensures { OnOk result (string_bytes text.new ≡ string_bytes text.old ++ submit_line entry (Some fault) None) }
{
    let name = order_fault_name(fault);
    writeln!(text, "refused {name}")
}

/// Writes that an order waits, and its number.
pub(crate) fn push_waits(
    text: &mut String,
    entry: EntryNumber,
    number: u64,
) -> Result<(), AllocError>
    ensures { OnOk result (string_bytes text.new ≡ string_bytes text.old ++ submit_line entry None (Some number)) }
{
    let place = entry as u128 + 1;
    writeln!(text, "order {number} waits {place}")
}

/// Writes the order that was taken back, with its number, or why the call is refused.
pub(crate) fn push_withdrawal(
    text: &mut String,
    entry: EntryNumber,
    number: u64,
    taken: &Result<Option<Command<'_>>, BusFault>,
) -> Result<(), AllocError>
    ensures { OnOk result (string_bytes text.new ≡ string_bytes text.old ++ withdrawal_line entry number taken.now) }
{
    let place = entry as u128 + 1;
    match taken {
        Ok(None) => Ok(()),
        Ok(Some(command)) => writeln!(text, "order {number} withdrawn {place} {command}"),
        Err(fault) => push_refusal(text, *fault),
    }
}

/// Writes the moment of the next turn, which ends an answer.
pub(crate) fn push_due(text: &mut String, due: Option<u64>) -> Result<(), AllocError>
    ensures text { OnOk result (string_bytes text.new ≡ string_bytes text.old ++ due_line due) }
    ensures range { IfSome due (λ moment. moment < 2 ^ 64) }
{
    match due {
        None => text.push_str("due none\n"),
        Some(moment) => writeln!(text, "due {moment}"),
    }
}
