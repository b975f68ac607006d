//! An input that is read whole.

ghost use Rattle.osdp_tool_streams.specs.Watched.{inner_of, has_failed};
ghost use Rattle.osdp_tool_sim.specs.Reading.{ReadsAll};

use osdp_tool_streams::{Piece, ToolFault, Watched, read_piece};
use std::alloc::Global;
use std::io::Read;

/// All bytes of the input, where they are at most `limit`; else it is `TooLong`, and one byte more than these has been read.
pub(crate) fn read_all<R: Read>(
    alloc: Global,
    limit: usize,
    input: &mut Watched<R>,
) -> Result<Vec<u8>, ToolFault>
    ensures { ReadsAll limit (R.remaining (inner_of input.old)) (R.remaining (inner_of input.new)) (has_failed input.old) (has_failed input.new) result }
{
    let mut bytes = Vec::new(alloc);
    let mut piece = [0u8; 65536];
    let mut left = limit;
    'reads: loop {
        let count = match read_piece(input, &mut piece, left) {
            Ok(Piece::Bytes(count)) => count,
            Ok(Piece::AtEnd) => return Ok(bytes),
            Ok(Piece::PastLimit) => return Err(ToolFault::TooLong),
            Err(_) => return Err(ToolFault::ReadFailed),
        };
        left -= count;
        if bytes.extend_from_slice(&piece[..count]).is_err() {
            return Err(ToolFault::NoMemory);
        }
    }
}
