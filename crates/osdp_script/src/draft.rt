//! What the lines of a script say, as far as they are read.

ghost use Rattle.std.specs.Prelude.{◌≡◌, ◌↔◌, ◌++◌, IsTrue, IfOk, OnOk, IsUtf8};
ghost use Rattle.osdp_script.specs.Drafts.{Judges, JudgesText, plan_of};
ghost use Rattle.osdp_script.specs.Reading.{IsFree, IsInPlace};
ghost use Rattle.osdp_script.specs.Script.{IsScript, no_plan, with_line};

use crate::kept::KeptLines;
use crate::line::{characters, is_passed_over};
use crate::parse::parse_line;
use crate::script::{Script, ScriptLine};
use osdp_frame::{Address, CheckKind};
use osdp_msg::Spelling;
use osdp_words::all_words_in;
use std::alloc::{AllocError, Global};
use std::str;

/// What the lines so far say.
#[derive(Drop)]
pub(crate) struct Draft {
    /// The check, where a line says it.
    pub check: Option<CheckKind>,
    /// The readers.
    pub readers: Vec<(Address, usize)>,
    /// The lines below those of the readers.
    pub lines: KeptLines,
}

/// Whether no reader is at this address.
fn is_free(address: Address, readers: &[(Address, usize)]) -> bool
    ensures { IsTrue result ↔ IsFree address readers.now }
{
    readers.iter().all(|reader| reader.0 != address)
}

impl Draft {
    /// No line has been read.
    pub(crate) fn new(alloc: Global) -> Draft
        ensures { plan_of result ≡ no_plan }
    {
        Draft {
            check: None,
            readers: Vec::new(alloc),
            lines: KeptLines::new(alloc),
        }
    }

    /// Whether a line may stand after those above it.
    fn is_in_place(&self, line: &ScriptLine<'_>) -> bool
        ensures { IsTrue result ↔ IsInPlace (plan_of self.now) line.now }
    {
        match line {
            ScriptLine::Check(_) => self.check.is_none() && self.readers.is_empty(),
            ScriptLine::Reader(address, _) => {
                self.lines.is_empty() && self.readers.len() < 16 && is_free(*address, &self.readers)
            }
            ScriptLine::Step(_) => true,
            ScriptLine::Clean(_) => self.readers.len() == 1,
        }
    }

    /// Adds what a line says.
    fn add(&mut self, line: &ScriptLine<'_>) -> Result<(), AllocError>
        ensures { OnOk result (plan_of self.new ≡ with_line line.now (plan_of self.old)) }
    {
        match line {
            ScriptLine::Check(kind) => self.check = Some(*kind),
            ScriptLine::Reader(address, room) => self.readers.push((*address, *room))?,
            ScriptLine::Step(step) => self.lines.push(step)?,
            ScriptLine::Clean(count) => self.lines.push_clean(*count)?,
        }
        Ok(())
    }

    /// Reads a text that isn't passed over; false where it is bad.
    fn take_text(&mut self, alloc: Global, text: &str) -> Result<bool, AllocError>
        requires { IsUtf8 text.now }
        ensures { IfOk result (λ good. JudgesText good (plan_of self.old) text.now (plan_of self.new)) }
    {
        let words = all_words_in(alloc, text)?;
        let mut place = Spelling::new();
        let line = match parse_line(&words, self.readers.len(), &mut place) {
            Some(line) => line,
            None => return Ok(false),
        };
        if !self.is_in_place(&line) {
            return Ok(false);
        }
        self.add(&line)?;
        Ok(true)
    }

    /// Reads a line; false where it is bad.
    pub(crate) fn take_line(&mut self, alloc: Global, line: &[u8]) -> Result<bool, AllocError>
        ensures { IfOk result (λ good. Judges good (plan_of self.old) line.now (plan_of self.new)) }
    {
        let characters = characters(alloc, line)?;
        if is_passed_over(&characters) {
            return Ok(true);
        }
        match str::from_utf8(&characters) {
            Ok(text) => self.take_text(alloc, text),
            Err(_) => Ok(false),
        }
    }

    /// The script that the lines say, where one of them is a reader's.
    pub(crate) fn finish(self) -> Script
        ensures { IsScript (plan_of self) result }
    {
        Script {
            check: self.check.unwrap_or(CheckKind::Crc),
            readers: self.readers,
            lines: self.lines,
        }
    }
}
