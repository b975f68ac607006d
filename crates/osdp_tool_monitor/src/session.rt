//! A session of listening, which takes the pieces of an input.

ghost use Rattle.std.specs.Prelude.{◌≡◌, ◌≢◌, ◌+◌, ◌*◌, ◌<◌, ◌≤◌, ◌^◌, ◌++◌, [], ◌∷◌, List, ℕ, Err, Option, true, false, length, take, get_or, is_some, IfErr, IfOk, OnOk, MatchOption, string_bytes};
ghost use Rattle.osdp_frame.specs.Silence.{is_silent_for};
ghost use Rattle.osdp_tool_streams.specs.Cut.{IsLine, ended_after, line_feed, unended_after};
ghost use Rattle.osdp_tool_streams.specs.Line.{kept};
ghost use Rattle.osdp_tool_streams.specs.Runs.{bad_line};
ghost use Rattle.osdp_tool_monitor.specs.Events.{bad_in, byte_events, gap_events, is_due, is_over, is_run_over, nothing_cut, run_events, table_events, tabled_after};
ghost use Rattle.osdp_tool_monitor.specs.Hearing.{TableDue, hearing_of, load, nothing_yet, line_detail};
ghost use Rattle.osdp_tool_monitor.specs.Listening.{IsLineFault};

use crate::mode::MonitorMode;
use crate::open_line::OpenLine;
use memchr::memchr;
use osdp_tool_streams::{Digits, ToolFault, keep, read_line};
use std::alloc::Global;

/// A session of listening.
#[derive(Drop)]
pub struct Session {
    /// How the input is read, and what is printed of it.
    pub mode: MonitorMode,
    /// The line, as far as it was heard.
    pub line: OpenLine,
    /// The moment of the last piece.
    pub last: Option<u64>,
    /// The moment of the last table, or of the first piece.
    pub tabled: Option<u64>,
    /// The values of digits.
    pub digits: Digits,
    /// The characters that count of the line that has not ended.
    pub characters: Vec<u8>,
    /// The bytes of the line that ended last.
    pub bytes: Vec<u8>,
    /// How many lines have ended.
    pub ended: u64,
}

/// Whether so many milliseconds have passed since a moment.
fn has_passed(wait: u64, since: u64, now: u64) -> bool
    ensures { result ≡ is_silent_for wait since now }
{
    now.saturating_sub(since) >= wait
}

/// Whether so many milliseconds have passed since a moment, where there was one.
fn is_over(wait: u64, since: Option<u64>, now: u64) -> bool
    ensures { result ≡ is_over wait since now }
{
    match since {
        None => false,
        Some(since) => has_passed(wait, since, now),
    }
}

/// Whether a run of bytes is over at this moment. Of bytes that were recorded before the moments tell nothing.
fn is_run_over(recorded: bool, gap: u32, last: Option<u64>, now: u64) -> bool
    ensures { result ≡ is_run_over recorded gap last now }
{
    !recorded && is_over(u64::from(gap), last, now)
}

/// Whether the table is due.
fn is_due(every: Option<u32>, tabled: Option<u64>, now: u64) -> bool
    ensures { result ≡ is_due every tabled now }
{
    match every {
        None => false,
        Some(every) => is_over(1000 * u64::from(every), tabled, now),
    }
}

/// The moment of the last table, or of the first piece.
fn tabled_after(due: bool, tabled: Option<u64>, now: u64) -> Option<u64>
    ensures { result ≡ tabled_after due tabled now }
{
    match tabled {
        None => Some(now),
        Some(_) if due => Some(now),
        Some(tabled) => Some(tabled),
    }
}

/// How many bytes stand before the first line feed.
fn line_length(bytes: &[u8]) -> Option<usize>
    ensures { MatchOption result (IsLine bytes.now)
        (λ count. (count < length bytes.now) × IsLine (take count bytes.now) × (get_or bytes.now count 0 ≡ line_feed)) }
{
    memchr(b'\n', bytes)
}

impl Session {
    ghost use Rattle.osdp_tool_monitor.specs.Session.{EndsAll, EndsInput, Goes, TakesBytes, GoesOrBreaks, IsNew, IsReady, TakesPiece, cut_of, weight};

    /// Nothing was heard.
    pub fn new(alloc: Global, mode: MonitorMode) -> Result<Session, ToolFault>
        ensures ready { IfOk result (λ s. IsReady s) }
        ensures new { IfOk result (λ s. IsNew s) }
        ensures mode { IfOk result (λ s. s.mode ≡ mode) }
        ensures fault { IfErr result (λ fault. fault ≡ ToolFault.NoMemory) }
    {
        Ok(Session {
            mode,
            line: OpenLine::new(alloc, mode.detail, mode.standard)?,
            last: None,
            tabled: None,
            digits: Digits::new(),
            characters: Vec::new(alloc),
            bytes: Vec::new(alloc),
            ended: 0,
        })
    }

    /// The run ends, where it is over.
    fn end_if(&mut self, over: bool, text: &mut String) -> Result<(), ToolFault>
        requires ready { IsReady self.old }
        requires form { self.old.mode.hex ≡ false }
        ensures goes { OnOk result (Goes (gap_events over) (cut_of self.old) self.old self.new (string_bytes text.old) (string_bytes text.new)) }
        ensures weighs { OnOk result (weight self.new ≤ weight self.old) }
        ensures fault { IfErr result (IsLineFault (weight self.old)) }
    {
        if !over {
            return Ok(());
        }
        self.line.end_run(text)
    }

    /// Bytes come.
    fn take_bytes(&mut self, bytes: &[u8], now: u64, text: &mut String) -> Result<(), ToolFault>
        requires ready { IsReady self.old }
        requires form { self.old.mode.hex ≡ false }
        ensures goes { OnOk result (Goes (byte_events self.old.mode.recorded self.old.mode.gap self.old.last (record { bytes = bytes.now; moment = now })) (cut_of self.old)
            self.old self.new (string_bytes text.old) (string_bytes text.new)) }
        ensures weighs { OnOk result (weight self.new ≤ weight self.old + 5 * length bytes.now) }
        ensures fault { IfErr result (IsLineFault (weight self.old + 5 * length bytes.now)) }
    {
        let over = is_run_over(self.mode.recorded, self.mode.gap, self.last, now);
        self.end_if(over, text)?;
        self.line.come(bytes, text)
    }

    /// A line of digits has ended, with these characters after those held; false where it is bad.
    fn end_line(&mut self, characters: &[u8], text: &mut String) -> Result<bool, ToolFault>
        requires ready { IsReady self.old }
        requires form { self.old.mode.hex ≡ true }
        ensures goes { IfOk result (λ good. let line = self.old.characters.items ++ characters.now in
            GoesOrBreaks good (run_events (line ∷ [])) (bad_line (self.old.ended + 1) (line ∷ []))
            (record (cut_of self.old) { line = []; ended = self.old.ended + 1 }) self.old self.new (string_bytes text.old) (string_bytes text.new)) }
        ensures weighs { IfOk result (λ good. weight self.new ≤ weight self.old + 5 * (length characters.now + 1)) }
        ensures fault { IfErr result (IsLineFault (weight self.old + 5 * (length characters.now + 1))) }
    {
        if self.ended == u64::MAX {
            return Err(ToolFault::TooLong);
        }
        let good = match read_line(
            &self.digits,
            &mut self.characters,
            characters,
            &mut self.bytes,
        ) {
            Ok(good) => good,
            Err(_) => return Err(ToolFault::NoMemory),
        };
        self.ended += 1;
        if !good {
            return Ok(false);
        }
        self.line.hear_run(&self.bytes, text)?;
        Ok(true)
    }

    /// The line goes on by these characters.
    fn hold(&mut self, characters: &[u8]) -> Result<(), ToolFault>
        requires ready { IsReady self.old }
        ensures goes { OnOk result ((text : List ℕ) → Goes [] (record (cut_of self.old) { line = self.old.characters.items ++ kept characters.now }) self.old self.new text text) }
        ensures weighs { OnOk result (weight self.new ≤ weight self.old + 5 * length characters.now) }
        ensures fault { IfErr result (λ fault. fault ≡ ToolFault.NoMemory) }
    {
        match keep(&mut self.characters, characters) {
            Ok(()) => Ok(()),
            Err(_) => Err(ToolFault::NoMemory),
        }
    }

    /// Lines of digits go on by these characters; false where a bad line has ended.
    fn take_lines(&mut self, piece: &[u8], text: &mut String) -> Result<bool, ToolFault>
        requires ready { IsReady self.old }
        requires form { self.old.mode.hex ≡ true }
        ensures goes { IfOk result (λ good. let lines = ended_after self.old.characters.items piece.now in
            GoesOrBreaks good (run_events lines) (bad_line (self.old.ended + 1) lines)
            (record (cut_of self.old) { line = kept (unended_after self.old.characters.items piece.now); ended = self.old.ended + length lines })
            self.old self.new (string_bytes text.old) (string_bytes text.new)) }
        ensures weighs { IfOk result (λ good. weight self.new ≤ weight self.old + 5 * length piece.now) }
        ensures fault { IfErr result (IsLineFault (weight self.old + 5 * length piece.now)) }
    {
        let mut at = 0;
        'lines: while let Some(length) = line_length(&piece[at..]) {
            let end = at + length;
            if !self.end_line(&piece[at..end], text)? {
                return Ok(false);
            }
            at = end + 1;
        }
        self.hold(&piece[at..])?;
        Ok(true)
    }

    /// The table is told, where it is due.
    fn tell_if(&mut self, due: bool, text: &mut String) -> Result<(), ToolFault>
        requires ready { IsReady self.old }
        ensures goes { OnOk result (Goes (table_events due) (cut_of self.old) self.old self.new (string_bytes text.old) (string_bytes text.new)) }
        ensures weighs { OnOk result (weight self.new ≡ weight self.old) }
        ensures fault { IfErr result (λ fault. fault ≡ ToolFault.NoMemory) }
    {
        if !due {
            return Ok(());
        }
        self.line.push_table(text)?;
        self.line.end_table()
    }

    /// A piece has come at this moment: the table is told where it is due.
    fn tell_table(&mut self, now: u64, text: &mut String) -> Result<(), ToolFault>
        requires ready { IsReady self.old }
        ensures goes { OnOk result (let due = is_due self.old.mode.every self.old.tabled now in
            Goes (table_events due) (record (cut_of self.old) { last = Option.Some now; tabled = tabled_after due self.old.tabled now }) self.old self.new
            (string_bytes text.old) (string_bytes text.new)) }
        ensures weighs { OnOk result (weight self.new ≡ weight self.old) }
        ensures fault { IfErr result (λ fault. fault ≡ ToolFault.NoMemory) }
    {
        let due = is_due(self.mode.every, self.tabled, now);
        let tabled = tabled_after(due, self.tabled, now);
        self.tell_if(due, text)?;
        self.tabled = tabled;
        self.last = Some(now);
        Ok(())
    }

    /// Bytes of the input come; false where a bad line has ended in them.
    fn take_input(&mut self, piece: &[u8], now: u64, text: &mut String) -> Result<bool, ToolFault>
        requires ready { IsReady self.old }
        ensures takes { IfOk result (λ good. TakesBytes good (record { bytes = piece.now; moment = now }) self.old self.new (string_bytes text.old) (string_bytes text.new)) }
        ensures weighs { IfOk result (λ good. weight self.new ≤ weight self.old + 5 * length piece.now) }
        ensures fault { IfErr result (IsLineFault (weight self.old + 5 * length piece.now)) }
    {
        if self.mode.hex {
            return self.take_lines(piece, text);
        }
        self.take_bytes(piece, now, text)?;
        Ok(true)
    }

    /// The input goes on by a piece, which has come at this moment; false where a bad line has ended in it.
    pub fn take_piece(
        &mut self,
        piece: &[u8],
        now: u64,
        text: &mut String,
    ) -> Result<bool, ToolFault>
        requires ready { IsReady self.old }
        ensures takes { IfOk result (λ good. TakesPiece good (record { bytes = piece.now; moment = now }) self.old self.new (string_bytes text.old) (string_bytes text.new)) }
        ensures weighs { IfOk result (λ good. weight self.new ≤ weight self.old + 5 * length piece.now) }
        ensures fault { IfErr result (IsLineFault (weight self.old + 5 * length piece.now)) }
    {
        if !self.take_input(piece, now, text)? {
            return Ok(false);
        }
        self.tell_table(now, text)?;
        Ok(true)
    }

    /// The input has ended, and with it its run or its last line; false where that is bad.
    fn end_input(&mut self, text: &mut String) -> Result<bool, ToolFault>
        requires ready { IsReady self.old }
        ensures ends { IfOk result (λ good. EndsInput good self.old self.new (string_bytes text.old) (string_bytes text.new)) }
        ensures fault { IfErr result (IsLineFault (weight self.old + 5)) }
    {
        if self.mode.hex {
            return self.end_line(&[], text);
        }
        self.line.end_run(text)?;
        Ok(true)
    }

    /// The same, and the table is told.
    pub fn end(&mut self, text: &mut String) -> Result<bool, ToolFault>
        requires ready { IsReady self.old }
        ensures ends { IfOk result (λ good. EndsAll good self.old self.new (string_bytes text.old) (string_bytes text.new)) }
        ensures fault { IfErr result (IsLineFault (weight self.old + 5)) }
    {
        let good = self.end_input(text)?;
        self.line.push_table(text)?;
        Ok(good)
    }
}
