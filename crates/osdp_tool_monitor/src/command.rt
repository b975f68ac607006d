//! The command `monitor`.

ghost use Rattle.std.specs.Prelude.{◌≡◌, [], ◌∷◌, Bool, None, Option, false, if◌then◌else◌, IfErr, IfOk};
ghost use Rattle.osdp_tool_streams.specs.Watched.{inner_of, has_failed};
ghost use Rattle.osdp_tool_monitor.specs.Ending.{Ends};
ghost use Rattle.osdp_tool_monitor.specs.Events.{bad_at_end, end_events};
ghost use Rattle.osdp_tool_monitor.specs.Reading.{TellsEvents};
ghost use Rattle.osdp_tool_monitor.specs.Hearing.{IsOpen, TableDue};

use crate::mode::MonitorMode;
use crate::moments::Moments;
use crate::output::{after_failed_read, tell};
use crate::session::Session;
use osdp_tool_streams::{ToolFault, Watched};
use std::alloc::Global;
use std::io::{Read, Write};

impl Session {
    ghost use Rattle.osdp_tool_monitor.specs.Session.{IsReady, cut_of};

    /// Nothing more is read: the table is written out.
    fn break_off<W: Write>(
        &self,
        text: &mut String,
        output: &mut Watched<W>,
    ) -> Result<(), ToolFault>
        requires is_open { IsOpen self.now.line }
        requires output { has_failed output.old ≡ false }
        ensures { TellsEvents (TableDue ∷ []) self.now self.now (W.contents (inner_of output.old)) (W.contents (inner_of output.new)) (has_failed output.new) result }
    {
        text.clear();
        self.line.push_table(text)?;
        tell(text, output)
    }

    /// The input has ended: what it ends with is written out, and the table. False where its last line is bad.
    fn close<W: Write>(
        &mut self,
        text: &mut String,
        output: &mut Watched<W>,
    ) -> Result<bool, ToolFault>
        requires ready { IsReady self.old }
        requires output { has_failed output.old ≡ false }
        ensures told { TellsEvents (end_events self.old.mode.hex (cut_of self.old)) self.old self.new
            (W.contents (inner_of output.old)) (W.contents (inner_of output.new)) (has_failed output.new) result }
        ensures bad { IfOk result (λ good. bad_at_end self.old.mode.hex (cut_of self.old) ≡ (if good then None else Option.Some self.new.ended)) }
    {
        text.clear();
        let good = match self.end(text) {
            Ok(good) => good,
            Err(fault) => return Err(fault),
        };
        tell(text, output)?;
        Ok(good)
    }
}

/// Listens to a line as its bytes come, or reads a capture of it, and prints what happens there and which end breaks the rules, and at the end a
/// table. True where somebody was accused, or something refused.
///
/// What is told of each piece of the input is written and flushed before more is read. Beyond the text of a piece of 4,096 bytes, memory is a block
/// for each address that a packet was sent to, and a line of digits. At a bad line of digits (`NotHex`) and at a failed read what was read is told, and
/// the table. Where memory is refused, or a write fails, what was written is a beginning of what is told. TooLong only after 2^57 bytes or more.
pub fn monitor<M: Moments, R: Read, W: Write>(
    alloc: Global,
    mode: MonitorMode,
    clock: &mut M,
    input: &mut Watched<R>,
    output: &mut Watched<W>,
) -> Result<bool, ToolFault>
    requires input { has_failed input.old ≡ false }
    requires output { has_failed output.old ≡ false }
    ensures { Ends M.tells mode clock.old clock.new
        (R.remaining (inner_of input.old)) (R.remaining (inner_of input.new)) (has_failed input.new)
        (W.contents (inner_of output.old)) (W.contents (inner_of output.new)) (has_failed output.new) result }
{
    let mut session = Session::new(alloc, mode)?;
    let mut text = String::new(alloc);
    match session.read_all(clock, &mut text, input, output) {
        Ok(true) => match session.close(&mut text, output)? {
            true => Ok(session.line.is_wrong()),
            false => Err(ToolFault::NotHex(session.ended)),
        },
        Ok(false) => {
            session.break_off(&mut text, output)?;
            Err(ToolFault::NotHex(session.ended))
        }
        Err(ToolFault::ReadFailed) => match session.break_off(&mut text, output) {
            Ok(()) => Err(ToolFault::ReadFailed),
            Err(fault) => Err(after_failed_read(fault)),
        },
        Err(fault) => Err(fault),
    }
}
