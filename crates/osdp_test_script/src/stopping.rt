//! Which word of a line cannot stand where it is.

ghost use Rattle.std.specs.Prelude.{MatchOption, codes};
ghost use Rattle.osdp_words.specs.Word.{texts};
ghost use Rattle.osdp_refused_words.specs.Stops.{StopsAt};
ghost use Rattle.osdp_test_script.specs.Lines.{HasNoLine, SaysLine, SaysLineOf, SaysTerm};

use crate::awaited::Awaited;
use crate::parse::parse_permit;
use osdp_frame::CheckKind;
use osdp_refused_words::{Slot, command_stop, reply_stop, slots_stop};

/// The place, among the words after `check`, of the first word that cannot stand there.
fn check_stop(words: &[&str]) -> usize
    ensures { StopsAt (SaysLineOf (codes "check")) (texts words.now) result }
{
    let Some((name, rest)) = words.split_first() else {
        return 0;
    };
    let Some(_kind) = CheckKind::named(name) else {
        return 0;
    };
    1 + slots_stop(&[], rest)
}

/// The same of the words after `may`.
fn may_stop(words: &[&str]) -> usize
    ensures { StopsAt (SaysLineOf (codes "may")) (texts words.now) result }
{
    let Some((name, rest)) = words.split_first() else {
        return 0;
    };
    let Some(_permit) = parse_permit(name) else {
        return 0;
    };
    1 + slots_stop(&[], rest)
}

/// The same of the words that tell until when something is expected.
fn term_stop(words: &[&str]) -> usize
    ensures { StopsAt SaysTerm (texts words.now) result }
{
    let within = Slot::Text("within");
    let time = Slot::Number(0, 3_600_000);
    let Some((first, rest)) = words.split_first() else {
        return 0;
    };
    if *first == "from" {
        return 1 + slots_stop(&[Slot::Text("user"), within, time], rest);
    }
    slots_stop(&[within, time], words)
}

/// The same of the words after `expect`.
fn expect_stop(words: &[&str]) -> usize
    ensures { StopsAt (SaysLineOf (codes "expect")) (texts words.now) result }
{
    let Some((name, rest)) = words.split_first() else {
        return 0;
    };
    let Some(_awaited) = Awaited::named(name) else {
        return 0;
    };
    1 + term_stop(rest)
}

/// The same of the words after a name; none where no line has this name.
fn fields_stop(name: &str, words: &[&str]) -> Option<usize>
    ensures { MatchOption result (HasNoLine name.now) (StopsAt (SaysLineOf name.now) (texts words.now)) }
{
    let place = Slot::Number(1, 65535);
    let moment = Slot::Number(0, u64::MAX);
    match name {
        "device" => Some(slots_stop(&[Slot::Number(0, 126)], words)),
        "check" => Some(check_stop(words)),
        "may" => Some(may_stop(words)),
        "send" => Some(command_stop(words)),
        "repeat" => Some(slots_stop(&[], words)),
        "reopen" => Some(slots_stop(&[], words)),
        "lose" => Some(slots_stop(&[Slot::Text("answer")], words)),
        "damage" => Some(slots_stop(&[place], words)),
        "wait" => Some(slots_stop(&[Slot::Number(0, 3_600_000)], words)),
        "expect" => Some(expect_stop(words)),
        "reads" => Some(reply_stop(words)),
        "keep" => Some(slots_stop(&[place], words)),
        "counts" => Some(slots_stop(&[Slot::Number(0, 255)], words)),
        "heard" => Some(slots_stop(&[moment, moment, Slot::Bytes(0, 4096)], words)),
        "ready" => Some(slots_stop(&[], words)),
        _ => None,
    }
}

/// The place of the first word of a line that cannot stand where it is; as many as there are words, where each may.
pub(crate) fn line_stop(words: &[&str]) -> usize
    ensures { StopsAt SaysLine (texts words.now) result }
{
    let Some((name, rest)) = words.split_first() else {
        return 0;
    };
    match fields_stop(name, rest) {
        None => 0,
        Some(place) => 1 + place,
    }
}
