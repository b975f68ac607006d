//! A script that answers its lines.

ghost use Rattle.std.specs.Prelude.{◌≡◌, IfOk, IsUtf8, MatchOption, OnOk, string_bytes};
ghost use Rattle.osdp_test_script.specs.Runs.{Called, Comes};
ghost use Rattle.osdp_tool_script.specs.Answers.{IsTold, Tells, kept};
ghost use Rattle.osdp_tool_script.specs.Ending.{new_script};

use osdp_line_answers::{LONGEST, LineAnswerer};
use osdp_test_script::{Refusal, ScriptRun};
use std::alloc::{AllocError, Global};
use std::str;

/// A script as far as it is run.
#[derive(Drop)]
pub(crate) struct Script {
    pub run: ScriptRun,
}

/// The characters of a line without carriage returns.
fn kept(alloc: Global, line: &[u8]) -> Result<Vec<u8>, AllocError>
    ensures { IfOk result (λ characters. characters.items ≡ kept line.now) }
{
    let mut characters = Vec::new(alloc);
    for byte in line {
        if *byte != b'\r' {
            characters.push(*byte)?;
        }
    }
    Ok(characters)
}

/// The text that characters are, if they are one.
fn text_of(characters: &[u8]) -> Option<&str>
    ensures { MatchOption result (IsUtf8 characters.now → ⊥) (λ text. IsUtf8 characters.now × (text.now ≡ characters.now)) }
{
    match str::from_utf8(characters) {
        Ok(text) => Some(text),
        Err(_) => None,
    }
}

impl Script {
    /// Nothing was read yet.
    pub(crate) fn new() -> Script
        ensures { result ≡ new_script }
    {
        Script {
            run: ScriptRun::new(),
        }
    }

    /// Answers a line.
    fn tell(&mut self, alloc: Global, line: &[u8], text: &mut String) -> Result<(), AllocError>
        ensures { OnOk result ((c : Called) × IsTold line.now self.old.run c × Comes (string_bytes text.old) (string_bytes text.new) self.new.run c) }
    {
        if line.len() > LONGEST {
            return self.run.refuse_unread(alloc, Refusal::TooLong, text);
        }
        let characters = kept(alloc, line)?;
        match text_of(characters.as_slice()) {
            Some(said) => self.run.take_line(alloc, said, text),
            None => self.run.refuse_unread(alloc, Refusal::NoText, text),
        }
    }
}

impl LineAnswerer for Script {
    ghost answers = { Tells };

    ghost is_ready = { λ s. Unit {0} };

    fn answer_line(
        &mut self,
        alloc: Global,
        line: &[u8],
        text: &mut String,
    ) -> Result<(), AllocError> {
        self.tell(alloc, line, text)
    }
}
