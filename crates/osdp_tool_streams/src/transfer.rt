ghost use Rattle.std.specs.Prelude.{◌≡◌, ◌||◌, ◌<◌, ◌↔◌, [], length, is_err, IfOk, IfSome, OnOk, OnErr, IsOkUnless};
ghost use Rattle.std.specs.Io.{ReadsAtMost};
ghost use Rattle.std.specs.Io.KnownBytes.{Appends, Keeps, ReadConsumes};
ghost use Rattle.osdp_tool_streams.specs.Watched.{inner_of, has_failed, AppendsPart};

use crate::fault::ToolFault;
use crate::watch::Watched;
use std::io::{Read, Write};

/// Reads once, and says how many bytes now stand at the front of the buffer: none only at the end
/// of the input, or where the buffer is empty.
///
/// Any error is `ReadFailed`, an interruption too.
pub fn read_some<R: Read>(input: &mut Watched<R>, buffer: &mut [u8]) -> Result<usize, ToolFault>
    ensures fault { IsOkUnless result ToolFault.ReadFailed }
    ensures failed { has_failed input.new ≡ (has_failed input.old || is_err result) }

    ensures bound { ReadsAtMost result buffer.new }
    ensures bytes { ReadConsumes (R.remaining (inner_of input.old))
        (R.remaining (inner_of input.new)) result buffer.new }
    ensures end { IfSome (R.remaining (inner_of input.old)) (λ left.
        IfOk result (λ count. 0 < length buffer.old → ((count ≡ 0) ↔ (left ≡ [])))) }
{
    match input.read(buffer) {
        Ok(count) => Ok(count),
        Err(_) => Err(ToolFault::ReadFailed),
    }
}

/// Writes all the bytes, in as many writes as the output wants.
///
/// The first write that answers an error, or takes none of what is left, ends it with
/// `WriteFailed`, an interruption too.
pub fn write_out<W: Write>(output: &mut Watched<W>, bytes: &[u8]) -> Result<(), ToolFault>
    ensures fault { IsOkUnless result ToolFault.WriteFailed }
    ensures failed { has_failed output.new ≡ (has_failed output.old || is_err result) }

    ensures ok { OnOk result (Appends (W.contents (inner_of output.old))
        (W.contents (inner_of output.new)) bytes.now) }
    ensures err { OnErr result (AppendsPart (W.contents (inner_of output.old))
        (W.contents (inner_of output.new)) bytes.now) }
{
    let mut done = 0;
    while done < bytes.len() {
        match output.write(&bytes[done..]) {
            Ok(0) => return Err(ToolFault::WriteFailed),
            Ok(taken) => done += taken,
            Err(_) => return Err(ToolFault::WriteFailed),
        }
    }
    Ok(())
}

/// Flushes the output. Any error is `WriteFailed`, an interruption too.
pub fn flush_out<W: Write>(output: &mut Watched<W>) -> Result<(), ToolFault>
    ensures fault { IsOkUnless result ToolFault.WriteFailed }
    ensures failed { has_failed output.new ≡ (has_failed output.old || is_err result) }
    ensures bytes { Keeps (W.contents (inner_of output.old)) (W.contents (inner_of output.new)) }
{
    match output.flush() {
        Ok(()) => Ok(()),
        Err(_) => Err(ToolFault::WriteFailed),
    }
}
