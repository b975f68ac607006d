//! The verdicts on lines.

ghost use Rattle.std.specs.Prelude.{◌≡◌, IfOk, OnOk, string_bytes};
ghost use Rattle.osdp_test_script.specs.Runs.{Comes, counts_in, expects, keeps, reads};
ghost use Rattle.osdp_test_script.specs.Texts.{expect_text};

use crate::awaited::Awaited;
use crate::call::Term;
use crate::refusal::Refusal;
use crate::run::{KeptByte, ScriptRun};
use crate::say::{push_expect, push_verdict};
use crate::seen::{counts_seen, expected_seen, kept_byte, reads_seen};
use osdp_frame::{Frame, FrameView};
use osdp_msg::Reply;
use std::alloc::{AllocError, Global};

/// A packet, lent, where there is one.
pub(crate) fn view(packet: &Option<Frame>) -> Option<FrameView<'_>>
    ensures { result ≡ packet.now }
{
    match packet {
        None => None,
        Some(packet) => Some(packet.view()),
    }
}

/// What a line expects, in words.
pub(crate) fn expect_text(alloc: Global, awaited: Awaited, term: Term) -> Result<String, AllocError>
    ensures { IfOk result (λ text. string_bytes text ≡ expect_text awaited term) }
{
    let mut text = String::new(alloc);
    push_expect(&mut text, awaited, term)?;
    Ok(text)
}

impl ScriptRun {
    /// What the line expects of the last packet.
    pub(crate) fn expect(
        &mut self,
        alloc: Global,
        awaited: Awaited,
        term: Term,
        text: &mut String,
    ) -> Result<(), AllocError>
        ensures { OnOk result (Comes (string_bytes text.old) (string_bytes text.new) self.new (expects awaited term self.old.exchange self.old)) }
    {
        let Some(exchange) = &self.exchange else {
            return self.refuse(Refusal::NothingSent, text);
        };
        let seen = expected_seen(
            awaited,
            term,
            &view(&exchange.first),
            &view(&exchange.heard),
            exchange.delay,
        );
        let says = expect_text(alloc, awaited, term)?;
        push_verdict(text, self.line, seen, says.as_str(), exchange)?;
        self.counts = self.counts.counted(seen);
        Ok(())
    }

    /// What the last answer begins with.
    pub(crate) fn read(
        &mut self,
        alloc: Global,
        reply: &Reply<'_>,
        text: &mut String,
    ) -> Result<(), AllocError>
        ensures { OnOk result (Comes (string_bytes text.old) (string_bytes text.new) self.new (reads reply.now self.old.exchange self.old)) }
    {
        let Some(exchange) = &self.exchange else {
            return self.refuse(Refusal::NothingSent, text);
        };
        let seen = reads_seen(reply, &view(&exchange.heard));
        let mut says = String::new(alloc);
        write!(says, "reads {reply}")?;
        push_verdict(text, self.line, seen, says.as_str(), exchange)?;
        self.counts = self.counts.counted(seen);
        Ok(())
    }

    /// Keeps a byte of the last answer.
    pub(crate) fn keep(&mut self, place: u16, text: &mut String) -> Result<(), AllocError>
        ensures { OnOk result (Comes (string_bytes text.old) (string_bytes text.new) self.new (keeps place self.old.exchange self.old)) }
    {
        let Some(exchange) = &self.exchange else {
            return self.refuse(Refusal::NothingSent, text);
        };
        let value = kept_byte(place, &view(&exchange.heard));
        self.kept = Some(KeptByte { place, value });
        Ok(())
    }

    /// How many more the byte is than the one that was kept.
    pub(crate) fn count(
        &mut self,
        alloc: Global,
        more: u8,
        text: &mut String,
    ) -> Result<(), AllocError>
        ensures { OnOk result (Comes (string_bytes text.old) (string_bytes text.new) self.new (counts_in more self.old.exchange self.old.kept self.old)) }
    {
        let Some(exchange) = &self.exchange else {
            return self.refuse(Refusal::NothingSent, text);
        };
        let Some(kept) = self.kept else {
            return self.refuse(Refusal::NothingKept, text);
        };
        let seen = counts_seen(kept.value, kept.place, more, &view(&exchange.heard));
        let mut says = String::new(alloc);
        write!(says, "counts {more}")?;
        push_verdict(text, self.line, seen, says.as_str(), exchange)?;
        self.counts = self.counts.counted(seen);
        Ok(())
    }
}
