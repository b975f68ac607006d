//! The command.

ghost use Rattle.std.specs.Prelude.{◌≡◌, MatchOption};
ghost use Rattle.osdp_tool_streams.specs.Watched.{inner_of, has_failed};
ghost use Rattle.osdp_refused_words.specs.Stops.{StopsAt};
ghost use Rattle.osdp_words.specs.Word.{texts};
ghost use Rattle.osdp_tool_test.specs.Running.{AsksForm, AsksNone, Tests, asking_words};
ghost use Rattle.osdp_tool_test.specs.Tests.{DeviceFinds, DeviceShows, DeviceStops, Refuses, Takes, all_entries, model};

use crate::entry::Entry;
use crate::judging::{LineTest, judge_lines};
use crate::report::Form;
use crate::rules::{RULES, Rule};
use crate::said::said_in;
use crate::tested::Tested;
use osdp_refused_words::{Slot, slots_stop};
use osdp_tool_streams::{LIMIT, ToolFault, Watched};
use std::alloc::{AllocError, Global};
use std::io::{Read, Write};

impl LineTest for Tested {
    ghost takes = { Takes };

    ghost refuses = { Refuses };

    ghost found = { λ test. all_entries (model test) };

    fn take_words(&mut self, words: &[&str]) -> Result<bool, AllocError> {
        if words.is_empty() {
            return Ok(true);
        }
        match said_in(words) {
            Some(said) => {
                self.take_said(&said)?;
                Ok(true)
            }
            None => Ok(false),
        }
    }

    fn into_entries(self) -> Result<Vec<Entry>, AllocError> {
        self.end()
    }
}

/// The form that the words after the command's name ask for.
pub fn form_of(words: &[&str]) -> Option<Form>
    ensures { MatchOption result (AsksNone (texts words.now)) (λ form. texts words.now ≡ asking_words form) }
{
    match words {
        [] => Some(Form::Plain),
        ["--tap"] => Some(Form::Tap),
        _ => None,
    }
}

/// The place of the first of the words after the command's name that cannot stand there; as many as there are words, where each may.
pub fn form_stop(words: &[&str]) -> usize
    ensures { StopsAt AsksForm (texts words.now) result }
{
    slots_stop(&[Slot::Text("--tap")], words)
}

/// Reads the lines of a test, and judges by these rules.
fn test_by<R: Read, W: Write>(
    alloc: Global,
    rules: &'static [Rule],
    words: &[&str],
    input: &mut Watched<R>,
    output: &mut Watched<W>,
) -> Result<u8, ToolFault>
    ensures { Tests (λ form. DeviceFinds form rules.now) DeviceStops LIMIT (texts words.now) (R.remaining (inner_of input.old)) (R.remaining (inner_of input.new))
        (W.contents (inner_of output.old)) (W.contents (inner_of output.new)) (has_failed output.new) result }
{
    match form_of(words) {
        Some(form) => judge_lines(alloc, form, Tested::new(alloc, form, rules), input, output),
        None => Err(ToolFault::BadWords),
    }
}

/// Reads the lines of a test, which `osdp-port` writes, and prints the verdict on each rule, and then the counts. The status: 1 where a rule was
/// broken. Other words are `BadWords`: nothing is read then.
pub fn test<R: Read, W: Write>(
    alloc: Global,
    words: &[&str],
    input: &mut Watched<R>,
    output: &mut Watched<W>,
) -> Result<u8, ToolFault>
    ensures { Tests DeviceShows DeviceStops LIMIT (texts words.now) (R.remaining (inner_of input.old)) (R.remaining (inner_of input.new))
        (W.contents (inner_of output.old)) (W.contents (inner_of output.new)) (has_failed output.new) result }
{
    test_by(alloc, &RULES, words, input, output)
}
