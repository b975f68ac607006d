//! The command.

ghost use Rattle.osdp_tool_streams.specs.Watched.{inner_of, has_failed};
ghost use Rattle.osdp_words.specs.Word.{texts};
ghost use Rattle.osdp_tool_test.specs.Running.{Tests};
ghost use Rattle.osdp_tool_test_panel.specs.Tests.{PanelFinds, PanelShows, PanelStops, Refuses, Takes, entries_of, model};

use crate::rules::{PANEL_RULES, PanelRule};
use crate::said::said_in;
use crate::tested::Tested;
use osdp_tool_streams::{LIMIT, ToolFault, Watched};
use osdp_tool_test::{Entry, LineTest, form_of, judge_lines};
use std::alloc::{AllocError, Global};
use std::io::{Read, Write};

impl LineTest for Tested {
    ghost takes = { Takes };

    ghost refuses = { Refuses };

    ghost found = { λ test. entries_of (model test) };

    fn take_words(&mut self, words: &[&str]) -> Result<bool, AllocError> {
        if words.is_empty() {
            return Ok(true);
        }
        match said_in(words) {
            Some(said) => {
                self.take_said(said)?;
                Ok(true)
            }
            None => Ok(false),
        }
    }

    fn into_entries(self) -> Result<Vec<Entry>, AllocError> {
        Ok(self.end())
    }
}

/// Reads the lines of a test of a panel, and judges by these rules.
fn test_by<R: Read, W: Write>(
    alloc: Global,
    rules: &'static [PanelRule],
    words: &[&str],
    input: &mut Watched<R>,
    output: &mut Watched<W>,
) -> Result<u8, ToolFault>
    ensures { Tests (λ form. PanelFinds form rules.now) PanelStops LIMIT (texts words.now) (R.remaining (inner_of input.old)) (R.remaining (inner_of input.new))
        (W.contents (inner_of output.old)) (W.contents (inner_of output.new)) (has_failed output.new) result }
{
    let Some(form) = form_of(words) else {
        return Err(ToolFault::BadWords);
    };
    match Tested::new(alloc, form, rules) {
        Ok(tested) => judge_lines(alloc, form, tested, input, output),
        Err(_) => Err(ToolFault::NoMemory),
    }
}

/// Reads the lines of a test of a panel, which `osdp-port` writes, and prints the verdict on each rule, and then the counts. `words` stand after
/// `test panel`. The status: 1 where a rule was broken. Other words are `BadWords`: nothing is read then.
pub fn test_panel<R: Read, W: Write>(
    alloc: Global,
    words: &[&str],
    input: &mut Watched<R>,
    output: &mut Watched<W>,
) -> Result<u8, ToolFault>
    ensures { Tests PanelShows PanelStops LIMIT (texts words.now) (R.remaining (inner_of input.old)) (R.remaining (inner_of input.new))
        (W.contents (inner_of output.old)) (W.contents (inner_of output.new)) (has_failed output.new) result }
{
    test_by(alloc, &PANEL_RULES, words, input, output)
}
