//! A panel as a machine that is called by lines.

ghost use Rattle.std.proofs.Common.{inl, inr};
ghost use Rattle.osdp_line_calls.specs.PanelCalls.{CallFits, call_words};
ghost use Rattle.osdp_line_calls.specs.PanelLines.{Answers, TellsAndLeaves, refuses};
ghost use Rattle.osdp_line_calls.specs.PanelSessions.{answered};

use crate::call::LineCall;
use crate::machine::LineMachine;
use crate::panel_call::{PanelCall, parse_row};
use crate::panel_session::LinePanel;
use osdp_line_answers::LineAnswerer;
use std::alloc::{AllocError, Global};

impl LineCall for PanelCall {
    ghost words_of = { call_words };

    ghost fits = { CallFits };

    fn parse(words: &[&str]) -> Option<PanelCall> {
        let [name, rest @ ..] = words else {
            return None;
        };
        parse_row(name, rest)
    }
}

impl LineMachine for LinePanel {
    type Call = PanelCall;

    ghost answers = { Answers };

    ghost answers_call = { λ s call. TellsAndLeaves (answered call s) };

    ghost refuses = { λ s. TellsAndLeaves (refuses s) };

    ghost is_ready = { λ p. Unit {0} };

    ghost call_answers = { λ s next line text call says gives. record { called = gives.0; is = inl (call, says, gives.1); text_is = gives.2; next_is = gives.3 } };

    ghost refusal_answers = { λ s next line text nothing gives. record { called = gives.0; is = inr (nothing, gives.1); text_is = gives.2; next_is = gives.3 } };

    fn answer_call(&mut self, call: PanelCall, text: &mut String) -> Result<(), AllocError> {
        self.answer(call, text)
    }

    fn refuse_line(&mut self, text: &mut String) -> Result<(), AllocError> {
        self.refuse(text)
    }
}

impl LineAnswerer for LinePanel {
    ghost answers = { Answers };

    ghost is_ready = { λ p. Unit {0} };

    fn answer_line(
        &mut self,
        alloc: Global,
        line: &[u8],
        text: &mut String,
    ) -> Result<(), AllocError> {
        LineMachine::answer_line(self, alloc, line, text)
    }
}
