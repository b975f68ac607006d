//! What answers lines.

ghost use Rattle.std.specs.Prelude.{◌≡◌, ◌++◌, ℕ, List, OnOk, string_bytes};
ghost use Rattle.osdp_line_calls.specs.Calls.{Says, SaysNothing};

use crate::call::{LineCall, read_line};
use std::alloc::{AllocError, Global};

/// A machine that is called by lines.
pub trait LineMachine {
    /// What a line may order.
    type Call: LineCall;

    ghost answers: { Self → List ℕ → List ℕ → Self → Type 0 };

    ghost answers_call: { Self → Self.Call → List ℕ → Self → Type 0 };

    ghost refuses: { Self → List ℕ → Self → Type 0 };

    ghost is_ready: { Self → Type 0 };

    /// Does what a call orders, and writes the lines that answer it.
    ///
    /// An error is one of memory. After it nothing is known of the text, and the machine is not called again.
    fn answer_call(&mut self, call: Self::Call, text: &mut String) -> Result<(), AllocError>
        requires ready { is_ready self.old }
        ensures answered { OnOk result ((answer : List ℕ) × answers_call self.old call answer self.new × (string_bytes text.new ≡ string_bytes text.old ++ answer)) }
        ensures ready { OnOk result (is_ready self.new) };

    /// Writes the lines that answer a line that is no call; it changes nothing. An error is that of `answer_call`.
    fn refuse_line(&mut self, text: &mut String) -> Result<(), AllocError>
        requires ready { is_ready self.old }
        ensures refused { OnOk result ((answer : List ℕ) × refuses self.old answer self.new × (string_bytes text.new ≡ string_bytes text.old ++ answer)) }
        ensures ready { OnOk result (is_ready self.new) };

    ghost call_answers: { (s next : Self) (line text : List ℕ) (call : Self.Call)
        → Says Self.Call.LineCall.words_of Self.Call.LineCall.fits line call → answers_call s call text next → answers s line text next };

    ghost refusal_answers: { (s next : Self) (line text : List ℕ)
        → SaysNothing Self.Call.LineCall.words_of Self.Call.LineCall.fits line → refuses s text next → answers s line text next };

    /// Does what a line orders, and writes the lines that answer it. A line that is no call is answered too, and changes nothing.
    ///
    /// An error is that of `answer_call`.
    final fn answer_line(
        &mut self,
        alloc: Global,
        line: &[u8],
        text: &mut String,
    ) -> Result<(), AllocError>
        requires ready { is_ready self.old }
        ensures answered { OnOk result ((answer : List ℕ) × answers self.old line.now answer self.new × (string_bytes text.new ≡ string_bytes text.old ++ answer)) }
        ensures ready { OnOk result (is_ready self.new) }
    {
        match read_line::<Self::Call>(alloc, line)? {
            Some(call) => self.answer_call(call, text),
            None => self.refuse_line(text),
        }
    }
}
