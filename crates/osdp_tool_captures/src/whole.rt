//! An input that is read to its end before anything is told of it.

ghost use Rattle.std.specs.Prelude.{◌≡◌, ◌<◌, ◌^◌, Some, IfErr, IfOk};
ghost use Rattle.osdp_tool_streams.specs.Watched.{inner_of};
ghost use Rattle.osdp_tool_captures.specs.Whole.{ReadWhole};

use osdp_tool_streams::{Piece, ToolFault, Watched, read_piece};
use std::alloc::Global;
use std::io::Read;

/// What an input has, and why it has no more where it didn't come to its end.
#[derive(Debug, Drop)]
pub struct Whole {
    /// The bytes that were read.
    pub bytes: Vec<u8>,
    /// `TooLong` where there are more bytes than the limit, and `ReadFailed` where a read failed.
    pub fault: Option<ToolFault>,
}

/// Reads an input to its end, or so many bytes of it. What was read stays where a read fails. `NoMemory` where there is none for the bytes.
pub fn read_whole<R: Read>(
    alloc: Global,
    limit: usize,
    input: &mut Watched<R>,
) -> Result<Whole, ToolFault>
    requires limit { limit < 2 ^ 40 }
    ensures read { IfOk result (λ whole. ReadWhole limit (R.remaining (inner_of input.old)) (R.remaining (inner_of input.new)) whole.bytes.items whole.fault) }
    ensures fault { IfErr result (λ fault. fault ≡ ToolFault.NoMemory) }
{
    let mut bytes = Vec::new(alloc);
    let mut piece = [0u8; 4096];
    let mut left = limit;
    'reads: loop {
        match read_piece(input, &mut piece, left) {
            Ok(Piece::Bytes(count)) => {
                left -= count;
                if bytes.extend_from_slice(&piece[..count]).is_err() {
                    return Err(ToolFault::NoMemory);
                }
            }
            Ok(Piece::AtEnd) => return Ok(Whole { bytes, fault: None }),
            Ok(Piece::PastLimit) => return Ok(cut_short(bytes, ToolFault::TooLong)),
            Err(_) => return Ok(cut_short(bytes, ToolFault::ReadFailed)),
        }
    }
}

/// These bytes, after which something is wrong.
fn cut_short(bytes: Vec<u8>, fault: ToolFault) -> Whole
    ensures bytes { result.bytes ≡ bytes }
    ensures fault { result.fault ≡ Some fault }
{
    Whole {
        bytes,
        fault: Some(fault),
    }
}
