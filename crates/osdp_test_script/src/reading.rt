//! A line of text in its turn.

ghost use Rattle.std.specs.Prelude.{◌≡◌, OnOk, string_bytes};
ghost use Rattle.osdp_words.specs.Word.{texts};
ghost use Rattle.osdp_test_script.specs.Lines.{IsAnswered, IsAnsweredBy, is_passed};
ghost use Rattle.osdp_test_script.specs.Runs.{Called, Comes};

use crate::parse::parse_call;
use crate::run::ScriptRun;
use crate::stopping::line_stop;
use osdp_words::all_words_in;
use std::alloc::{AllocError, Global};

/// Whether the words say nothing: there are none, or they are a comment.
fn is_passed(words: &[&str]) -> bool
    ensures { result ≡ is_passed (texts words.now) }
{
    match words {
        [] => true,
        [first, ..] => first.as_bytes().first() == Some(&b'#'),
    }
}

impl ScriptRun {
    /// Does what these words say.
    #[tactic(auto, using(crate::proofs::WordTexts::within))]
    fn take_words(
        &mut self,
        alloc: Global,
        words: &[&str],
        text: &mut String,
    ) -> Result<(), AllocError>
        ensures { OnOk result ((c : Called) × IsAnsweredBy (texts words.now) self.old c × Comes (string_bytes text.old) (string_bytes text.new) self.new c) }
    {
        if is_passed(words) {
            return self.pass_line(alloc, text);
        }
        match parse_call(words) {
            Some(call) => self.answer(alloc, &call, text),
            None => {
                let place = line_stop(words);
                self.refuse_line(alloc, place, words, text)
            }
        }
    }

    /// Does what a line says, and writes what comes of it: bytes to send, how long nothing is to be sent, a verdict, or why the line is refused. A blank
    /// line and a comment say nothing. An error is one of memory: nothing is known of the run and the text then.
    pub fn take_line(
        &mut self,
        alloc: Global,
        line: &str,
        text: &mut String,
    ) -> Result<(), AllocError>
        ensures { OnOk result ((c : Called) × IsAnswered line.now self.old c × Comes (string_bytes text.old) (string_bytes text.new) self.new c) }
    {
        let words = all_words_in(alloc, line)?;
        self.take_words(alloc, words.as_slice(), text)
    }
}
