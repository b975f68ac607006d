//! What is written out, and why nothing more is.

ghost use Rattle.std.specs.Prelude.{◌≡◌, false};
ghost use Rattle.osdp_tool_streams.specs.Watched.{inner_of, has_failed};
ghost use Rattle.osdp_tool_monitor.specs.Reading.{Wrote, after_failed_read};

use osdp_tool_streams::{ToolFault, Watched, flush_out, write_out};
use std::io::Write;

/// Writes a text out, and flushes the output.
pub(crate) fn tell<W: Write>(text: &str, output: &mut Watched<W>) -> Result<(), ToolFault>
    requires { has_failed output.old ≡ false }
    ensures { Wrote text.now (W.contents (inner_of output.old)) (W.contents (inner_of output.new)) (has_failed output.new) result }
{
    write_out(output, text.as_bytes())?;
    flush_out(output)
}

/// What is told of a fault that comes after a failed read: the failed read, where the fault is a failed write.
pub(crate) fn after_failed_read(fault: ToolFault) -> ToolFault
    ensures { result ≡ after_failed_read fault }
{
    match fault {
        ToolFault::WriteFailed => ToolFault::ReadFailed,
        _ => ToolFault::NoMemory,
    }
}
