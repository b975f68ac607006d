//! A capture that is read from a stream to its end.

ghost use Rattle.std.specs.Prelude.{◌≡◌, ◌+◌, ◌*◌, ◌<◌, ◌≤◌, ◌^◌, ◌↔◌, ℕ, List, [], length, take, Bool, Option, is_err, true, false, if◌then◌else◌, Result, IfOk, OnOk, OnErr, IfErr};
ghost use Rattle.osdp_tool_streams.specs.declared.form.Form.{Form};
ghost use Rattle.osdp_tool_show.specs.declared.detail.Detail.{Detail};
ghost use Rattle.osdp_tool_streams.specs.Watched.{inner_of, has_failed};
ghost use Rattle.osdp_tool_show.specs.Machine.{written_or_held, IsStep, IsSettled};

use crate::capture::Capture;
use osdp_tool_streams::{Piece, ToolFault, Watched, read_piece};
use std::io::{Read, Write};

impl Capture {
    ghost use Rattle.osdp_tool_show.specs.Capture.{load, HasShown};
    ghost use Rattle.osdp_tool_show.specs.Ending.{streamed, watched};
    ghost use Rattle.osdp_tool_show.specs.Works.{Works, Answered};

    /// Reads the input and tells of it, and gives the answer.
    pub fn read<R: Read, W: Write>(
        &mut self,
        limit: usize,
        input: &mut Watched<R>,
        output: &mut Watched<W>,
    ) -> Result<bool, ToolFault>
        requires settled { IsSettled self.old.framer }
        requires limit { limit < 2 ^ 40 }
        requires load { load self.old ≡ 0 }
        requires input { has_failed input.old ≡ false }
        requires output { has_failed output.old ≡ false }
        ensures { (detail : Detail) (form : Form) (start : Option (List ℕ))
            → HasShown detail form start [] self.old (written_or_held (W.contents (inner_of output.old)) self.old.report)
            → Works detail form limit
            (watched R.remaining input.old input.new)
            (streamed start (W.contents (inner_of output.new)) (has_failed output.new)) result }
    {
        let mut piece = [0u8; 65536];
        let mut left = limit;
        'reads: loop {
            let count = match read_piece(input, &mut piece, left) {
                Ok(Piece::Bytes(count)) => count,
                Ok(Piece::AtEnd) => return self.answer(output),
                Ok(Piece::PastLimit) => {
                    self.report.write_out(output)?;
                    return Err(ToolFault::TooLong);
                }
                Err(_) => {
                    // A failed read is told before a failed write.
                    let _ = self.report.write_out(output);
                    return Err(ToolFault::ReadFailed);
                }
            };
            left -= count;
            if !self.take_read(&piece[..count], output)? {
                self.close(output)?;
                return Err(ToolFault::NotHex(self.ended));
            }
        }
    }

    /// The answer at the end of the input, once the last line and the counts are told.
    fn answer<W: Write>(&mut self, output: &mut Watched<W>) -> Result<bool, ToolFault>
        requires settled { IsSettled self.old.framer }
        requires load { load self.old < 2 ^ 60 }
        ensures { Answered self.old result (has_failed output.old) (has_failed output.new)
            (written_or_held (W.contents (inner_of output.old)) self.old.report) (W.contents (inner_of output.new)) }
    {
        let good = self.end_last_line(output)?;
        self.close(output)?;
        if good {
            Ok(self.report.tally.refused > 0)
        } else {
            Err(ToolFault::NotHex(self.ended))
        }
    }
}
