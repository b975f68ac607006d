//! The words of a line.

ghost use Rattle.std.specs.Prelude.{◌≡◌, ◌↔◌, ◌<◌, ◌≤◌, ◌^◌, ◌∷◌, ◌++◌, ℕ, List, [], IsTrue, codes};
ghost use Rattle.std.specs.Fmt.{decimal};
ghost use Rattle.arrayvec.specs.ArrayVec.{ArrayVec as Items};
ghost use Rattle.osdp_frame.specs.Check.{check_name};
ghost use Rattle.osdp_frame.specs.Times.{longest_time};
ghost use Rattle.osdp_words.specs.Reading.{Reads, ReadsWords};
ghost use Rattle.osdp_words.specs.Word.{bytes, number, plain, texts};
ghost use Rattle.osdp_test_script.specs.Awaited.{awaited_name};
ghost use Rattle.osdp_test_script.specs.Calls.{CallFits, IsHeard, IsPlace, PermitFits, TermFits, call_words, permit_text, term_words};
ghost use Rattle.osdp_test_script.specs.declared.awaited.Awaited.{Awaited as Wanted};
ghost use Rattle.osdp_test_script.specs.declared.call.Term.{Term as Until};

use crate::awaited::Awaited;
use crate::call::{Permit, ScriptCall, Term};
use crate::kept::KeptReply;
use arrayvec::ArrayVec;
use osdp_frame::{Address, CheckKind, LONGEST_TIME};
use osdp_msg::KeptCommand;
use osdp_words::{byte_list, number_u8, number_u16, number_u32, number_u64};

/// The address of a device.
fn parse_device(words: &[&str]) -> Option<Address>
    ensures { ReadsWords (λ n. number n ∷ []) (λ n. n < 127) (texts words.now) result }
{
    let [word] = words else {
        return None;
    };
    Address::device(number_u8(word)?)
}

/// The name of a check.
fn parse_check(words: &[&str]) -> Option<CheckKind>
    ensures { ReadsWords (λ kind. plain (check_name kind) ∷ []) (λ kind. Unit {0}) (texts words.now) result }
{
    let [word] = words else {
        return None;
    };
    CheckKind::named(word)
}

/// The output after `out:`.
fn parse_output(word: &str) -> Option<u8>
    ensures { Reads (λ n. plain (codes "out:" ++ decimal n)) (λ n. n < 2 ^ 8) word.now result }
{
    number_u8(word.strip_prefix("out:")?)
}

/// What may be done.
pub(crate) fn parse_permit(word: &str) -> Option<Permit>
    ensures { Reads (λ permit. plain (permit_text permit)) PermitFits word.now result }
{
    match word {
        "led" => Some(Permit::Led),
        "buz" => Some(Permit::Buzzer),
        "text" => Some(Permit::Text),
        "comset" => Some(Permit::Comset),
        "mfg" => Some(Permit::Maker),
        _ => Some(Permit::Output(parse_output(word)?)),
    }
}

/// One word, and no other: what may be done.
fn parse_may(words: &[&str]) -> Option<Permit>
    ensures { ReadsWords (λ permit. plain (permit_text permit) ∷ []) PermitFits (texts words.now) result }
{
    let [word] = words else {
        return None;
    };
    parse_permit(word)
}

/// One word, and no other: a place, counted from 1.
fn parse_place(words: &[&str]) -> Option<u16>
    ensures { ReadsWords (λ n. number n ∷ []) IsPlace (texts words.now) result }
{
    let [word] = words else {
        return None;
    };
    let place = number_u16(word)?;
    (place > 0).then_some(place)
}

/// Milliseconds, up to an hour.
fn parse_time(word: &str) -> Option<u32>
    ensures { Reads number (λ n. n ≤ longest_time) word.now result }
{
    let time = number_u32(word)?;
    (time <= LONGEST_TIME).then_some(time)
}

/// One word, and no other: milliseconds, up to an hour.
fn parse_wait(words: &[&str]) -> Option<u32>
    ensures { ReadsWords (λ n. number n ∷ []) (λ n. n ≤ longest_time) (texts words.now) result }
{
    let [word] = words else {
        return None;
    };
    parse_time(word)
}

/// Until when something is expected.
fn parse_term(words: &[&str]) -> Option<Term>
    ensures { ReadsWords term_words TermFits (texts words.now) result }
{
    match words {
        [] => Some(Term::Open),
        ["within", time] => Some(Term::Within(parse_time(time)?)),
        ["from", "user", "within", time] => Some(Term::FromUser(parse_time(time)?)),
        _ => None,
    }
}

/// What is expected, and until when.
fn parse_expect(words: &[&str]) -> Option<(Awaited, Term)>
    ensures { ReadsWords (λ (x : Wanted × Until). plain (awaited_name x.0) ∷ term_words x.1) (λ (x : Wanted × Until). TermFits x.1) (texts words.now) result }
{
    let [name, rest @ ..] = words else {
        return None;
    };
    let awaited = Awaited::named(name)?;
    Some((awaited, parse_term(rest)?))
}

/// One word, and no other: a number of a byte.
fn parse_more(words: &[&str]) -> Option<u8>
    ensures { ReadsWords (λ n. number n ∷ []) (λ n. n < 2 ^ 8) (texts words.now) result }
{
    let [word] = words else {
        return None;
    };
    number_u8(word)
}

/// The word `answer`, and no other.
fn is_answer(words: &[&str]) -> bool
    ensures { IsTrue result ↔ (texts words.now ≡ codes "answer" ∷ []) }
{
    matches!(words, ["answer"])
}

/// A moment, a delay and what was heard.
fn parse_heard(words: &[&str]) -> Option<(u64, u64, ArrayVec<u8, 4096>)>
    ensures { ReadsWords (λ (x : ℕ × ℕ × Items ℕ). number x.0 ∷ number x.1 ∷ bytes x.2.items ∷ [])
        (λ (x : ℕ × ℕ × Items ℕ). (x.0 < 2 ^ 64) × (x.1 < 2 ^ 64) × IsHeard x.2.items) (texts words.now) result }
{
    let [moment, delay, list] = words else {
        return None;
    };
    let moment = number_u64(moment)?;
    let delay = number_u64(delay)?;
    Some((moment, delay, byte_list(list)?))
}

/// The line whose words begin with a name and go on with these.
fn parse_row(name: &str, words: &[&str]) -> Option<ScriptCall>
    ensures { ReadsWords call_words CallFits (name.now ∷ texts words.now) result }
{
    match name {
        "device" => Some(ScriptCall::Device(parse_device(words)?)),
        "check" => Some(ScriptCall::Check(parse_check(words)?)),
        "may" => Some(ScriptCall::May(parse_may(words)?)),
        "send" => Some(ScriptCall::Send(KeptCommand::parse(words)?)),
        "repeat" => words.is_empty().then_some(ScriptCall::Repeat),
        "reopen" => words.is_empty().then_some(ScriptCall::Reopen),
        "lose" => is_answer(words).then_some(ScriptCall::Lose),
        "damage" => Some(ScriptCall::Damage(parse_place(words)?)),
        "wait" => Some(ScriptCall::Wait(parse_wait(words)?)),
        "expect" => {
            let (awaited, term) = parse_expect(words)?;
            Some(ScriptCall::Expect(awaited, term))
        }
        "reads" => Some(ScriptCall::Reads(KeptReply::parse(words)?)),
        "keep" => Some(ScriptCall::Keep(parse_place(words)?)),
        "counts" => Some(ScriptCall::Counts(parse_more(words)?)),
        "heard" => {
            let (moment, delay, list) = parse_heard(words)?;
            Some(ScriptCall::Heard(moment, delay, list))
        }
        "ready" => words.is_empty().then_some(ScriptCall::Ready),
        _ => None,
    }
}

/// What a line says that has these words: one line at most has them.
pub fn parse_call(words: &[&str]) -> Option<ScriptCall>
    ensures { ReadsWords call_words CallFits (texts words.now) result }
{
    let [name, rest @ ..] = words else {
        return None;
    };
    parse_row(name, rest)
}
