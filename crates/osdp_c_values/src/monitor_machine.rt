//! The monitor that a handle holds.

ghost use Rattle.std.specs.Prelude.{◌≡◌, ◌≤◌, [], drop, length};
ghost use Rattle.std.specs.Result.{result_map_both};
ghost use Rattle.osdp_tool_monitor.specs.Hearing.{Come, RunEnds, TableDue};
ghost use Rattle.osdp_c_values.specs.Monitors.{EventEnds, MonitorMade, detail_at, is_standard, next_text, stopped_by, takes_text, writes_text, wrong_of};

use crate::monitor_fault::MonitorFault;
use crate::status::Status;
use crate::text::fill_text;
use osdp_tool_monitor::OpenLine;
use osdp_tool_show::{Detail, Filter};
use osdp_tool_streams::ToolFault;
use std::alloc::Global;
use std::marker::Model;

/// A line that is listened to, and the text of what was found on it, until that is taken.
#[derive(Drop)]
pub struct MonitorMachine {
    line: OpenLine,
    listens: bool,
    text: String,
    taken: usize,
}

impl Model for MonitorMachine {
    ghost use Rattle.std.specs.Prelude.{◌≡◌, ◌≤◌, true, drop, length, string_bytes};
    ghost use Rattle.osdp_tool_monitor.specs.Hearing.{IsOpen};
    ghost use Rattle.osdp_c_values.specs.HeldMonitors.{HeldMonitor};

    ghost Value = { HeldMonitor };

    ghost view = { λ m. record { line = m.line; listens = m.listens; waiting = drop m.taken (string_bytes m.text) } };

    ghost invariant = { λ m. (m.listens ≡ true → IsOpen m.line) × (m.taken ≤ length (string_bytes m.text)) };
}

/// Which items have a line of text, by the number of that.
fn detail_at(prints: u32) -> Option<Detail>
    ensures { result ≡ detail_at prints }
{
    match prints {
        0 => Some(Detail::Refusals),
        1 => Some(Detail::Filtered(Filter {
            address: None,
            no_polls: true,
        })),
        2 => Some(Detail::Full),
        _ => None,
    }
}

/// Why a line is not told any more. Of all faults of the program it can have no other.
fn stopped_by(fault: ToolFault) -> Status
    ensures { result ≡ stopped_by fault }
{
    match fault {
        ToolFault::TooLong => Status::Monitor(MonitorFault::TooLong),
        _ => Status::Monitor(MonitorFault::NoMemory),
    }
}

/// Does a call on the line, by which text comes after that which waits. A monitor that has stopped does nothing, and where the call fails it stops.
macro_rules! told {
    ($self:ident, $call:expr) => {{
        if !$self.listens {
            return Status::Monitor(MonitorFault::Stopped);
        }
        $self.listens = false;
        match $call {
            Ok(()) => {
                $self.listens = true;
                Status::Done
            }
            Err(fault) => {
                $self.text.clear();
                $self.taken = 0;
                stopped_by(fault)
            }
        }
    }};
}

impl MonitorMachine {
    /// A monitor of a line of which nothing was heard, on the heap, by the numbers that C gives: what is printed, 0 to 2, and whether accusations by the
    /// profile alone are left out. It is put there without `?`, which would copy it on the stack.
    pub fn new_box(
        alloc: Global,
        prints: u32,
        standard: u32,
    ) -> Result<Box<MonitorMachine>, MonitorFault>
        ensures { MonitorMade (detail_at prints) (is_standard standard) (result_map_both (λ b. b.value) (λ fault. fault) result) }
    {
        let Some(detail) = detail_at(prints) else {
            return Err(MonitorFault::OutOfRange);
        };
        let Ok(line) = OpenLine::new(alloc, detail, standard != 0) else {
            return Err(MonitorFault::NoMemory);
        };
        let text = String::new(alloc);
        match Box::new(
            alloc,
            MonitorMachine {
                line,
                listens: true,
                text,
                taken: 0,
            },
        ) {
            Ok(machine) => Ok(machine),
            Err(_) => Err(MonitorFault::NoMemory),
        }
    }

    /// The run goes on by these bytes.
    pub fn hear(&mut self, bytes: &[u8]) -> Status
        ensures { EventEnds (Come bytes.now) self.old result self.new }
    {
        told!(self, self.line.come(bytes, &mut self.text))
    }

    /// The run has ended.
    pub fn end_run(&mut self) -> Status
        ensures { EventEnds (RunEnds []) self.old result self.new }
    {
        told!(self, self.line.end_run(&mut self.text))
    }

    /// The table is told.
    pub fn tell_table(&mut self) -> Status
        ensures { EventEnds TableDue self.old result self.new }
    {
        told!(self, self.line.push_table(&mut self.text))
    }

    /// Takes so many bytes off the text that waits.
    fn take_off(&mut self, count: usize)
        requires { count ≤ length self.old.waiting }
        ensures { self.new ≡ record self.old { waiting = drop count self.old.waiting } }
    {
        self.taken += count;
        if self.taken == self.text.len() {
            self.text.clear();
            self.taken = 0;
        }
    }

    /// Writes as much of the text that waits as there is room for, and a zero after it where there is room for one more; and takes it off. Gives how
    /// many bytes of text they are.
    pub fn take_text(&mut self, out: &mut [u8]) -> usize
        ensures count { result ≡ length (next_text (length out.old) self.old) }
        ensures written { out.new ≡ writes_text self.old out.old }
        ensures left { self.new ≡ (takes_text (length out.old) self.old).machine }
    {
        let rest = &self.text.as_bytes()[self.taken..];
        let count = out.len().min(rest.len());
        fill_text(&rest[..count], out);
        self.take_off(count);
        count
    }

    /// Whether somebody was accused, something refused, or of all packets none judged. None where it has stopped.
    pub fn is_wrong(&self) -> Option<bool>
        ensures { result ≡ wrong_of self.now }
    {
        if !self.listens {
            return None;
        }
        Some(self.line.is_wrong())
    }
}
