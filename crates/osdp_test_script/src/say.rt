//! The lines that a run prints.

ghost use Rattle.std.specs.Prelude.{◌≡◌, ◌<◌, ◌≤◌, ◌^◌, ◌++◌, OnOk, length, slice_get, string_bytes};
ghost use Rattle.osdp_frame.specs.Spelling.{spelling};
ghost use Rattle.osdp_words.specs.Word.{bytes, printed, texts};
ghost use Rattle.osdp_test_script.specs.Texts.{broken_lines, exchange_lines, expect_text, heard_text, refusal_line, refusal_text, seen_name, send_line, term_text, text_in, verdict_lines, wait_line, wrong_word_text};

use crate::awaited::Awaited;
use crate::call::Term;
use crate::refusal::Refusal;
use crate::run::Exchange;
use crate::seen::Seen;
use osdp_frame::{Burst, Frame};
use osdp_words::ByteList;
use std::alloc::AllocError;

/// Writes why a line is refused that says something.
pub(crate) fn push_refusal(text: &mut String, line: u64, why: Refusal) -> Result<(), AllocError>
    ensures { OnOk result (string_bytes text.new ≡ string_bytes text.old ++ refusal_line line (refusal_text why)) }
{
    let why = why.text();
    writeln!(text, "line {line} refused: {why}")
}

/// Writes which word of a line cannot stand where it is: this one, or that none stands at this place.
fn push_wrong(text: &mut String, place: usize, word: Option<&str>) -> Result<(), AllocError>
    requires { place < 2 ^ 63 }
    ensures { OnOk result (string_bytes text.new ≡ string_bytes text.old ++ wrong_word_text place (text_in word.entry)) }
{
    let number = place + 1;
    match word {
        None => write!(text, "word {number} is missing"),
        Some(word) => {
            if place == 0 {
                return write!(text, "no line begins with {word}");
            }
            write!(text, "word {number} cannot be {word}")
        }
    }
}

/// The same of the word at this place.
fn push_word_at(text: &mut String, place: usize, words: &[&str]) -> Result<(), AllocError>
    requires { place ≤ length (texts words.now) }
    ensures { OnOk result (string_bytes text.new ≡ string_bytes text.old ++ wrong_word_text place (slice_get (texts words.now) place)) }
{
    // The call brings in how many words there may be.
    let _count = words.len();
    push_wrong(text, place, words.get(place).copied())
}

/// Writes why a line is refused that says nothing.
pub(crate) fn push_wrong_word(
    text: &mut String,
    line: u64,
    place: usize,
    words: &[&str],
) -> Result<(), AllocError>
    requires { place ≤ length (texts words.now) }
    ensures { OnOk result (string_bytes text.new ≡ string_bytes text.old ++ refusal_line line (wrong_word_text place (slice_get (texts words.now) place))) }
{
    write!(text, "line {line} refused: ")?;
    push_word_at(text, place, words)?;
    text.push_str("\n")
}

/// Writes the bytes that go out.
pub(crate) fn push_send(text: &mut String, list: &[u8]) -> Result<(), AllocError>
    ensures { OnOk result (string_bytes text.new ≡ string_bytes text.old ++ send_line list.now) }
{
    writeln!(text, "send {}", ByteList(list))
}

/// Writes how long nothing is to go out.
pub(crate) fn push_wait(text: &mut String, time: u32) -> Result<(), AllocError>
    ensures { OnOk result (string_bytes text.new ≡ string_bytes text.old ++ wait_line time) }
{
    writeln!(text, "wait {time}")
}

/// Writes until when something is expected.
fn push_term(text: &mut String, term: Term) -> Result<(), AllocError>
    ensures { OnOk result (string_bytes text.new ≡ string_bytes text.old ++ term_text term) }
{
    match term {
        Term::Open => Ok(()),
        Term::Within(time) => write!(text, " within {time}"),
        Term::FromUser(time) => write!(text, " from user within {time}"),
    }
}

/// Writes what a line expects.
pub(crate) fn push_expect(text: &mut String, awaited: Awaited, term: Term) -> Result<(), AllocError>
    ensures { OnOk result (string_bytes text.new ≡ string_bytes text.old ++ expect_text awaited term) }
{
    let name = awaited.name();
    write!(text, "expect {name}")?;
    push_term(text, term)
}

/// The word of a verdict.
fn seen_name(seen: Seen) -> &'static str
    ensures { result.now ≡ seen_name seen }
{
    match seen {
        Seen::Ok => "ok",
        Seen::Broken => "broken",
        Seen::Unclear => "unclear",
    }
}

/// Writes the bytes of a packet.
#[tactic(auto, using(osdp_frame::proofs::Spelled::spelled_is))]
fn push_packet(text: &mut String, packet: &Frame) -> Result<(), AllocError>
    ensures { OnOk result (string_bytes text.new ≡ string_bytes text.old ++ printed (bytes (spelling packet.now))) }
{
    let list: Burst = packet.encode();
    write!(text, "{}", ByteList(list.as_slice()))
}

/// Writes the bytes of the answer, or that there was none.
fn push_heard(text: &mut String, heard: &Option<Frame>) -> Result<(), AllocError>
    ensures { OnOk result (string_bytes text.new ≡ string_bytes text.old ++ heard_text heard.now) }
{
    match heard {
        None => text.push_str("none"),
        Some(answer) => push_packet(text, answer),
    }
}

/// Writes what was sent and read.
fn push_exchange(text: &mut String, exchange: &Exchange) -> Result<(), AllocError>
    ensures { OnOk result (string_bytes text.new ≡ string_bytes text.old ++ exchange_lines exchange.now) }
{
    let moment = exchange.moment;
    let delay = exchange.delay;
    write!(text, "  at {moment} ms sent ")?;
    push_packet(text, &exchange.sent)?;
    text.push_str("\n  read ")?;
    push_heard(text, &exchange.heard)?;
    writeln!(text, " after {delay} ms")
}

/// Writes what was sent and read, where a line is broken.
fn push_broken(text: &mut String, seen: Seen, exchange: &Exchange) -> Result<(), AllocError>
    ensures { OnOk result (string_bytes text.new ≡ string_bytes text.old ++ broken_lines seen exchange.now) }
{
    match seen {
        Seen::Broken => push_exchange(text, exchange),
        Seen::Ok | Seen::Unclear => Ok(()),
    }
}

/// Writes the verdict on a line that says this.
pub(crate) fn push_verdict(
    text: &mut String,
    line: u64,
    seen: Seen,
    says: &str,
    exchange: &Exchange,
) -> Result<(), AllocError>
    ensures { OnOk result (string_bytes text.new ≡ string_bytes text.old ++ verdict_lines line seen says.now exchange.now) }
{
    let name = seen_name(seen);
    writeln!(text, "line {line} {name}: {says}")?;
    push_broken(text, seen, exchange)
}
