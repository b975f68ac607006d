//! A capture: its lines, and the runs of bytes that stand in them.

ghost use Rattle.std.specs.Prelude.{◌≡◌, ◌+◌, ◌*◌, ◌<◌, ◌^◌, ◌++◌, ℕ, List, [], ◌∷◌, Bool, true, false, length, Option, string_bytes, OnOk, OnErr, IfOk, IfErr, MatchOption};
ghost use Rattle.osdp_tool_streams.specs.Watched.{inner_of, has_failed};
ghost use Rattle.osdp_tool_streams.specs.Cut.{HasLine, IsLine, line_feed};
ghost use Rattle.osdp_tool_show.specs.Machine.{written_or_held, IsStep, IsSettled};

use crate::report::Report;
use crate::runs::{end_run, take};
use crate::{Detail, Tally};
use memchr::memchr;
use osdp_frame::Framer;
use osdp_tool_streams::{Digits, Form, ToolFault, Watched, keep, read_line};
use std::alloc::Global;
use std::io::Write;

/// Room for the text that is gathered and the longest line after it, so that no line needs memory.
const ROOM: usize = 73728;

/// A capture that is read.
#[derive(Drop)]
pub struct Capture {
    /// How the input stands in runs.
    pub form: Form,
    /// The values of its digits.
    pub digits: Digits,
    /// The characters that count of the line that has not ended.
    pub line: Vec<u8>,
    /// The bytes of the line that ended last.
    pub bytes: Vec<u8>,
    /// How many lines have ended.
    pub ended: u64,
    /// The bytes of the open run that aren't decided yet.
    pub framer: Framer,
    /// What has been told of the items.
    pub report: Report,
}

impl Capture {
    ghost use Rattle.osdp_tool_show.specs.Capture.{load, HasShown, TookPiece, TookPart, StopsInPiece};

    /// Nothing has been read.
    pub fn new(alloc: Global, detail: Detail, form: Form) -> Result<Capture, ToolFault>
        ensures follows { IfOk result (λ capture. (start : Option (List ℕ)) → HasShown detail form start [] capture (written_or_held start capture.report)) }
        ensures settled { IfOk result (λ capture. IsSettled capture.framer) }
        ensures load { IfOk result (λ capture. load capture ≡ 0) }
        ensures form { IfOk result (λ capture. capture.form ≡ form) }
        ensures fault { IfErr result (λ fault. fault ≡ ToolFault.NoMemory) }
    {
        let Ok(text) = String::with_capacity(alloc, ROOM) else {
            return Err(ToolFault::NoMemory);
        };
        let tally = Tally::new();
        Ok(Capture {
            form,
            digits: Digits::new(),
            line: Vec::new(alloc),
            bytes: Vec::new(alloc),
            ended: 0,
            framer: Framer::new(),
            report: Report {
                detail,
                tally,
                text,
            },
        })
    }

    /// The line goes on by these characters.
    fn hold(&mut self, characters: &[u8]) -> Result<(), ToolFault>
        requires settled { IsSettled self.old.framer }
        requires lines { self.old.form ≡ Form.Raw → ⊥ }
        requires line { IsLine characters.now }
        ensures step { (failed : Bool) → IsStep result failed failed }
        ensures took { OnOk result ((now : Option (List ℕ)) → TookPiece characters.now true self.old self.new now now) }
        ensures report { OnOk result (self.new.report ≡ self.old.report) }
    {
        match keep(&mut self.line, characters) {
            Ok(()) => Ok(()),
            Err(_) => Err(ToolFault::NoMemory),
        }
    }

    /// The line has ended, with these characters after those held; false where it is bad.
    fn end_line<W: Write>(
        &mut self,
        characters: &[u8],
        output: &mut Watched<W>,
    ) -> Result<bool, ToolFault>
        requires settled { IsSettled self.old.framer }
        requires lines { self.old.form ≡ Form.Raw → ⊥ }
        requires line { IsLine characters.now }
        requires load { load self.old + 5 * length characters.now < 2 ^ 61 }
        ensures step { IsStep result (has_failed output.old) (has_failed output.new) }
        ensures took { IfOk result (λ good. TookPiece (characters.now ++ line_feed ∷ []) good self.old self.new
            (written_or_held (W.contents (inner_of output.old)) self.old.report) (written_or_held (W.contents (inner_of output.new)) self.new.report)) }
        ensures stops { OnErr result (StopsInPiece (characters.now ++ line_feed ∷ []) self.old
            (written_or_held (W.contents (inner_of output.old)) self.old.report) (W.contents (inner_of output.new))) }
    {
        let good = match read_line(&self.digits, &mut self.line, characters, &mut self.bytes) {
            Ok(good) => good,
            Err(_) => return Err(ToolFault::NoMemory),
        };
        self.ended += 1;
        if !good {
            return Ok(false);
        }
        take(&mut self.framer, &mut self.report, &self.bytes, output)?;
        // An arm for each form, here and at the last line, since the proof goes by forms.
        match self.form {
            Form::Raw => Ok(true),
            Form::Joined => Ok(true),
            Form::Apart => {
                end_run(&mut self.framer, &mut self.report, output)?;
                Ok(true)
            }
        }
    }

    /// The lines go on by these bytes; false where a bad line has ended.
    fn take_lines<W: Write>(
        &mut self,
        piece: &[u8],
        output: &mut Watched<W>,
    ) -> Result<bool, ToolFault>
        requires settled { IsSettled self.old.framer }
        requires lines { self.old.form ≡ Form.Raw → ⊥ }
        requires load { load self.old + 5 * length piece.now < 2 ^ 61 }
        ensures step { IsStep result (has_failed output.old) (has_failed output.new) }
        ensures took { IfOk result (λ good. TookPart piece.now good self.old self.new
            (written_or_held (W.contents (inner_of output.old)) self.old.report) (written_or_held (W.contents (inner_of output.new)) self.new.report)) }
        ensures stops { OnErr result (StopsInPiece piece.now self.old (written_or_held (W.contents (inner_of output.old)) self.old.report) (W.contents (inner_of output.new))) }
    {
        let mut at = 0;
        'lines: while let Some(length) = line_length(&piece[at..]) {
            let end = at + length;
            if !self.end_line(&piece[at..end], output)? {
                return Ok(false);
            }
            at = end + 1;
        }
        self.hold(&piece[at..])?;
        Ok(true)
    }

    /// The capture goes on by what one read gave; false where a bad line has ended. The next bytes may be a while in coming, so what waits
    /// is written out.
    pub fn take_read<W: Write>(
        &mut self,
        piece: &[u8],
        output: &mut Watched<W>,
    ) -> Result<bool, ToolFault>
        requires settled { IsSettled self.old.framer }
        requires load { load self.old + 5 * length piece.now < 2 ^ 61 }
        ensures step { IsStep result (has_failed output.old) (has_failed output.new) }
        ensures took { IfOk result (λ good. TookPart piece.now good self.old self.new
            (written_or_held (W.contents (inner_of output.old)) self.old.report) (written_or_held (W.contents (inner_of output.new)) self.new.report)) }
        ensures waits { OnOk result (string_bytes self.new.report.text ≡ []) }
        ensures stops { OnErr result (StopsInPiece piece.now self.old (written_or_held (W.contents (inner_of output.old)) self.old.report) (W.contents (inner_of output.new))) }
    {
        let good = match self.form {
            Form::Raw => {
                take(&mut self.framer, &mut self.report, piece, output)?;
                true
            }
            Form::Joined | Form::Apart => self.take_lines(piece, output)?,
        };
        self.report.write_out(output)?;
        Ok(good)
    }
}

impl Capture {
    ghost use Rattle.osdp_tool_show.specs.Capture.{load};
    ghost use Rattle.osdp_tool_show.specs.Works.{Closed, EndsLine, StopsAtEnd, StopsClosing};

    /// The input has ended, and with it its last line; false where that is bad.
    pub fn end_last_line<W: Write>(&mut self, output: &mut Watched<W>) -> Result<bool, ToolFault>
        requires settled { IsSettled self.old.framer }
        requires load { load self.old < 2 ^ 61 }
        ensures step { IsStep result (has_failed output.old) (has_failed output.new) }
        ensures ends { IfOk result (λ good. EndsLine good self.old self.new
            (written_or_held (W.contents (inner_of output.old)) self.old.report) (written_or_held (W.contents (inner_of output.new)) self.new.report)) }
        ensures stops { OnErr result (StopsAtEnd self.old (written_or_held (W.contents (inner_of output.old)) self.old.report) (W.contents (inner_of output.new))) }
    {
        match self.form {
            Form::Raw => Ok(true),
            Form::Joined => self.end_line(&[], output),
            Form::Apart => self.end_line(&[], output),
        }
    }

    /// The run ends here: its last items are told, then the counts where they are wanted, and all of it is
    /// written.
    pub fn close<W: Write>(&mut self, output: &mut Watched<W>) -> Result<(), ToolFault>
        requires settled { IsSettled self.old.framer }
        requires load { load self.old < 2 ^ 61 }
        ensures step { IsStep result (has_failed output.old) (has_failed output.new) }
        ensures closed { OnOk result (Closed self.old self.new
            (written_or_held (W.contents (inner_of output.old)) self.old.report) (W.contents (inner_of output.new))) }
        ensures stops { OnErr result (StopsClosing self.old (written_or_held (W.contents (inner_of output.old)) self.old.report) (W.contents (inner_of output.new))) }
    {
        end_run(&mut self.framer, &mut self.report, output)?;
        self.report.end(output)
    }
}

/// How many bytes stand before the first line feed.
fn line_length(bytes: &[u8]) -> Option<usize>
    ensures { MatchOption result (IsLine bytes.now) (λ length. HasLine bytes.now length) }
{
    memchr(b'\n', bytes)
}
