//! A device as a machine that is called by lines.

ghost use Rattle.std.proofs.Common.{inl, inr, refl};
ghost use Rattle.osdp_frame.specs.Receiving.{IsAllRead};
ghost use Rattle.osdp_line_calls.specs.ReaderCalls.{CallFits, call_words};
ghost use Rattle.osdp_line_calls.specs.ReaderLines.{Answers, TellsAndLeaves, refuses};
ghost use Rattle.osdp_line_calls.specs.ReaderSessions.{answered};

use crate::call::LineCall;
use crate::machine::LineMachine;
use crate::reader_call::{ReaderCall, parse_row};
use crate::reader_session::LineDevice;
use osdp_line_answers::LineAnswerer;
use std::alloc::{AllocError, Global};

impl LineCall for ReaderCall {
    ghost words_of = { call_words };

    ghost fits = { CallFits };

    fn parse(words: &[&str]) -> Option<ReaderCall> {
        let [name, rest @ ..] = words else {
            return None;
        };
        parse_row(name, rest)
    }
}

impl LineMachine for LineDevice {
    type Call = ReaderCall;

    ghost answers = { Answers };

    ghost answers_call = { λ s call. TellsAndLeaves (answered call s) };

    ghost refuses = { λ s. TellsAndLeaves (refuses s) };

    ghost is_ready = { λ d. IsAllRead d.line };

    ghost call_answers = { λ s next line text call says gives. record { called = answered call s; is = inl (call, says, refl); text_is = gives.0; next_is = gives.1 } };

    ghost refusal_answers = { λ s next line text nothing gives. record { called = refuses s; is = inr (nothing, refl); text_is = gives.0; next_is = gives.1 } };

    fn answer_call(&mut self, call: ReaderCall, text: &mut String) -> Result<(), AllocError> {
        self.answer(call, text)
    }

    fn refuse_line(&mut self, text: &mut String) -> Result<(), AllocError> {
        self.refuse(text)
    }
}

impl LineAnswerer for LineDevice {
    ghost answers = { Answers };

    ghost is_ready = { λ d. IsAllRead d.line };

    fn answer_line(
        &mut self,
        alloc: Global,
        line: &[u8],
        text: &mut String,
    ) -> Result<(), AllocError> {
        LineMachine::answer_line(self, alloc, line, text)
    }
}
