//! The reading of a script.

ghost use Rattle.std.specs.Prelude.{IfErr, IfOk};
ghost use Rattle.osdp_script.specs.Drafts.{EndsReading, StopsReading, plan_of};
ghost use Rattle.osdp_script.specs.Reading.{Answers};

use crate::draft::Draft;
use crate::fault::ScriptFault;
use crate::line::first_line;
use crate::script::Script;
use std::alloc::Global;

/// All lines, one after the other, and how many they are.
fn read_lines(alloc: Global, bytes: &[u8]) -> Result<(Draft, u64), ScriptFault>
    ensures read { IfOk result (λ end. EndsReading bytes.now (plan_of end.0) end.1) }
    ensures fault { IfErr result (StopsReading bytes.now) }
{
    let mut draft = Draft::new(alloc);
    let mut rest = bytes;
    let mut count = 0;
    'lines: while let Some((line, below)) = first_line(rest) {
        rest = below;
        count += 1;
        match draft.take_line(alloc, line) {
            Ok(true) => {}
            Ok(false) => return Err(ScriptFault::BadLine(count)),
            Err(_) => return Err(ScriptFault::NoMemory),
        }
    }
    Ok((draft, count))
}

/// The script that these bytes are.
///
/// A line ends at a line feed, or at the end of the bytes where some stand before it. It is words with one or more spaces between each
/// two; carriage returns are dropped wherever they stand. A blank line is passed over, and so is a comment, whose first character but
/// spaces is a `#`; it may hold any bytes. Of the others, the first that is no line of a script, or isn't in its place after those above
/// it, is the bad line. A script without a reader is bad at the line after its last.
pub fn read_script(alloc: Global, bytes: &[u8]) -> Result<Script, ScriptFault>
    ensures { Answers bytes.now result }
{
    let (draft, count) = read_lines(alloc, bytes)?;
    if draft.readers.is_empty() {
        return Err(ScriptFault::BadLine(count + 1));
    }
    Ok(draft.finish())
}
