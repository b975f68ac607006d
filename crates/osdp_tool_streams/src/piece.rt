//! An input with a limit, read piece by piece.

ghost use Rattle.std.specs.Prelude.{◌≡◌, ◌||◌, ◌<◌, length, is_err, IfOk, OnErr, IsOkUnless};
ghost use Rattle.std.specs.Io.KnownBytes.{Keeps};
ghost use Rattle.osdp_tool_streams.specs.Reading.{ReadsPiece};
ghost use Rattle.osdp_tool_streams.specs.Watched.{inner_of, has_failed};

use crate::fault::ToolFault;
use crate::transfer::read_some;
use crate::watch::Watched;
use std::io::Read;

/// The longest input of a command, in bytes. What it holds past so many bytes is not read, but for one byte, which tells that it is longer.
pub const LIMIT: usize = 67_108_864;

/// What one read of an input with a limit gave.
#[derive(Clone, Copy, Debug, PartialEq, Eq)]
pub enum Piece {
    /// So many bytes stand at the front of the buffer, one or more.
    Bytes(usize),
    /// The input has ended.
    AtEnd,
    /// No byte was left of the limit, and one more came.
    PastLimit,
}

/// Reads once, at most as many bytes as are left of the limit and as the buffer has room for. Where none is left, one byte is asked for.
///
/// Any error is `ReadFailed`, an interruption too.
pub fn read_piece<R: Read>(
    input: &mut Watched<R>,
    buffer: &mut [u8],
    left: usize,
) -> Result<Piece, ToolFault>
    requires { 0 < length buffer.old }
    ensures fault { IsOkUnless result ToolFault.ReadFailed }
    ensures failed { has_failed input.new ≡ (is_err result || has_failed input.old) }
    ensures read { IfOk result (ReadsPiece left (R.remaining (inner_of input.old)) (R.remaining (inner_of input.new)) buffer.new) }
    ensures kept { OnErr result (Keeps (R.remaining (inner_of input.old)) (R.remaining (inner_of input.new))) }
{
    let room = left.max(1).min(buffer.len());
    let count = read_some(input, &mut buffer[..room])?;
    if count == 0 {
        return Ok(Piece::AtEnd);
    }
    if left == 0 {
        return Ok(Piece::PastLimit);
    }
    Ok(Piece::Bytes(count))
}
