//! An input that is read piece by piece, to its end.

ghost use Rattle.std.specs.Prelude.{◌≡◌, true, false, string_bytes};
ghost use Rattle.osdp_tool_streams.specs.Watched.{inner_of, has_failed};
ghost use Rattle.osdp_tool_monitor.specs.Reading.{ReadsAll, TellsPiece};

use crate::moments::Moments;
use crate::output::tell;
use crate::session::Session;
use osdp_tool_streams::{ToolFault, Watched, read_some};
use std::io::{Read, Write};

/// So many bytes are asked for at once.
const PIECE: usize = 4096;

impl Session {
    ghost use Rattle.osdp_tool_monitor.specs.Session.{IsNew, IsReady};

    /// The input goes on by a piece, which has come at this moment, and what is told of it is written out; false where a bad line has ended in it.
    fn tell_piece<W: Write>(
        &mut self,
        piece: &[u8],
        now: u64,
        text: &mut String,
        output: &mut Watched<W>,
    ) -> Result<bool, ToolFault>
        requires ready { IsReady self.old }
        requires output { has_failed output.old ≡ false }
        ensures { TellsPiece (record { bytes = piece.now; moment = now }) self.old self.new
            (W.contents (inner_of output.old)) (W.contents (inner_of output.new)) (has_failed output.new) result }
    {
        text.clear();
        let good = match self.take_piece(piece, now, text) {
            Ok(good) => good,
            Err(fault) => return Err(fault),
        };
        tell(text, output)?;
        Ok(good)
    }

    /// Reads to the end of the input, and writes out what is told of each piece before more is read; false where a bad line has ended.
    pub fn read_all<M: Moments, R: Read, W: Write>(
        &mut self,
        clock: &mut M,
        text: &mut String,
        input: &mut Watched<R>,
        output: &mut Watched<W>,
    ) -> Result<bool, ToolFault>
        requires ready { IsReady self.old }
        requires new { IsNew self.old }
        requires input { has_failed input.old ≡ false }
        requires output { has_failed output.old ≡ false }
        ensures { ReadsAll M.tells self.old.mode clock.old clock.new
            (R.remaining (inner_of input.old)) (R.remaining (inner_of input.new)) (has_failed input.new)
            (W.contents (inner_of output.old)) (W.contents (inner_of output.new)) (has_failed output.new) self.new result }
    {
        let mut piece = [0u8; PIECE];
        'reads: for _ in 0..u64::MAX {
            let count = read_some(input, &mut piece)?;
            if count == 0 {
                return Ok(true);
            }
            let now = clock.now();
            if !self.tell_piece(&piece[..count], now, text, output)? {
                return Ok(false);
            }
        }
        Err(ToolFault::TooLong)
    }
}
