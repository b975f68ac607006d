//! The words of a line of a script.

ghost use Rattle.std.specs.Prelude.{◌≡◌, ◌<◌, ◌≤◌, ◌^◌, ◌∷◌, [], Bool, List, MatchOption, None, Some, ℕ};
ghost use Rattle.osdp_frame.specs.Check.{check_name};
ghost use Rattle.osdp_msg.specs.CommandText.{command_words};
ghost use Rattle.osdp_msg.specs.Events.{event_words};
ghost use Rattle.osdp_words.specs.Reading.{Reads, ReadsWords};
ghost use Rattle.osdp_words.specs.Word.{number, plain, texts};
ghost use Rattle.osdp_script.specs.Lines.{IsHappening, IsOrder, IsReader, IsSetting, LineFits, MoveFits, line_words, move_words, switch_word};

use crate::script::ScriptLine;
use osdp_frame::{Address, CheckKind, LONGEST_TIME, MAX_PACKET};
use osdp_msg::{Command, Event, MAX_WAITING, Spelling};
use osdp_sim::{Move, SimStep};
use osdp_words::{byte_list, number_u8, number_u32};

/// A number that is at least so much, and at most so much.
fn number_within(word: &str, least: u32, most: u32) -> Option<u32>
    ensures { Reads number (λ n. (least ≤ n) × (n ≤ most)) word.now result }
{
    let number = number_u32(word)?;
    (least <= number && number <= most).then_some(number)
}

/// One word, and no other: a number that is at most so much.
fn parse_number(words: &[&str], most: u32) -> Option<u32>
    ensures { ReadsWords (λ n. number n ∷ []) (λ n. n ≤ most) (texts words.now) result }
{
    let [word] = words else {
        return None;
    };
    let number = number_u32(word)?;
    (number <= most).then_some(number)
}

/// One of so many readers, counted from 1.
fn reader_of(word: &str, readers: usize) -> Option<usize>
    ensures { Reads number (IsReader readers) word.now result }
{
    let reader = number_within(word, 1, 16)? as usize;
    (reader <= readers).then_some(reader)
}

/// The first word: one of so many readers. It gives the words after it too.
fn reader_first<'a>(words: &'a [&'a str], readers: usize) -> Option<(usize, &'a [&'a str])>
    ensures { MatchOption result ((first : List ℕ) (rest : List (List ℕ)) → texts words.now ≡ first ∷ rest → Reads number (IsReader readers) first None)
        (λ r. (first : List ℕ) × (texts words.now ≡ first ∷ texts r.1.now) × Reads number (IsReader readers) first (Some r.0)) }
{
    let [reader, rest @ ..] = words else {
        return None;
    };
    let reader = reader_of(reader, readers)?;
    Some((reader, rest))
}

/// One word, and no other: one of so many readers.
fn parse_reopen(words: &[&str], readers: usize) -> Option<usize>
    ensures { ReadsWords (λ n. number n ∷ []) (IsReader readers) (texts words.now) result }
{
    let [reader] = words else {
        return None;
    };
    reader_of(reader, readers)
}

/// The name of a check.
fn parse_check(words: &[&str]) -> Option<CheckKind>
    ensures { ReadsWords (λ kind. plain (check_name kind) ∷ []) (λ kind. Unit {0}) (texts words.now) result }
{
    let [word] = words else {
        return None;
    };
    CheckKind::named(word)
}

/// A reader's address, and its room for events.
fn parse_reader(words: &[&str]) -> Option<(Address, usize)>
    ensures { ReadsWords (λ (r : ℕ × ℕ). number r.0 ∷ number r.1 ∷ []) (λ (r : ℕ × ℕ). IsSetting r.0 r.1) (texts words.now) result }
{
    let [address, room] = words else {
        return None;
    };
    let address = Address::device(number_u8(address)?)?;
    let room = number_within(room, 1, MAX_WAITING as u32)?;
    Some((address, room as usize))
}

/// A reader, and a command other than POLL. What it has of bytes stands in `place` then.
fn parse_issue<'a>(
    words: &[&str],
    readers: usize,
    place: &'a mut Spelling,
) -> Option<(usize, Command<'a>)>
    ensures { ReadsWords (λ (x : ℕ × Command). number x.0 ∷ command_words x.1) (λ (x : ℕ × Command). IsOrder readers x.0 x.1)
        (texts words.now) result }
{
    let (reader, text) = reader_first(words, readers)?;
    match Command::parse(text, place) {
        Ok(Command::Poll) | Err(_) => None,
        Ok(command) => Some((reader, command)),
    }
}

/// A reader, and an event. What it has of bytes stands in `place` then.
fn parse_queue<'a>(
    words: &[&str],
    readers: usize,
    place: &'a mut Spelling,
) -> Option<(usize, Event<'a>)>
    ensures { ReadsWords (λ (x : ℕ × Event). number x.0 ∷ event_words x.1) (λ (x : ℕ × Event). IsHappening readers x.0 x.1)
        (texts words.now) result }
{
    let (reader, text) = reader_first(words, readers)?;
    match Event::parse(text, place) {
        Ok(event) => Some((reader, event)),
        Err(_) => None,
    }
}

/// A reader, and whether it is busy from now on.
fn parse_busy(words: &[&str], readers: usize) -> Option<(usize, bool)>
    ensures { ReadsWords (λ (x : ℕ × Bool). number x.0 ∷ switch_word x.1 ∷ []) (λ (x : ℕ × Bool). IsReader readers x.0) (texts words.now) result }
{
    let (reader, [switch]) = reader_first(words, readers)? else {
        return None;
    };
    match *switch {
        "on" => Some((reader, true)),
        "off" => Some((reader, false)),
        _ => None,
    }
}

/// What the line does with the burst in front.
fn parse_move(words: &[&str]) -> Option<Move>
    ensures { ReadsWords move_words MoveFits (texts words.now) result }
{
    let [name, rest @ ..] = words else {
        return None;
    };
    match *name {
        "deliver" => rest.is_empty().then_some(Move::Deliver),
        "drop" => rest.is_empty().then_some(Move::Drop),
        "repeat" => rest.is_empty().then_some(Move::Repeat),
        "damage" => {
            let [bytes] = rest else {
                return None;
            };
            Some(Move::Damage(byte_list::<MAX_PACKET>(bytes)?))
        }
        _ => None,
    }
}

/// The line whose words begin with a name and go on with these, where there are so many readers. What a message has of bytes stands in
/// `place` then.
fn parse_row<'a>(
    name: &str,
    words: &[&str],
    readers: usize,
    place: &'a mut Spelling,
) -> Option<ScriptLine<'a>>
    ensures { ReadsWords line_words (LineFits readers) (name.now ∷ texts words.now) result }
{
    match name {
        "check" => Some(ScriptLine::Check(parse_check(words)?)),
        "reader" => {
            let (address, room) = parse_reader(words)?;
            Some(ScriptLine::Reader(address, room))
        }
        "issue" => {
            let (reader, command) = parse_issue(words, readers, place)?;
            Some(ScriptLine::Step(SimStep::Issue(reader, command)))
        }
        "queue" => {
            let (reader, event) = parse_queue(words, readers, place)?;
            Some(ScriptLine::Step(SimStep::Queue(reader, event)))
        }
        "busy" => {
            let (reader, busy) = parse_busy(words, readers)?;
            Some(ScriptLine::Step(SimStep::Busy(reader, busy)))
        }
        "wait" => {
            let time = parse_number(words, LONGEST_TIME)?;
            Some(ScriptLine::Step(SimStep::Wait(u64::from(time))))
        }
        "to-reader" => Some(ScriptLine::Step(SimStep::ToReader(parse_move(words)?))),
        "to-controller" => Some(ScriptLine::Step(SimStep::ToController(parse_move(words)?))),
        "reopen" => {
            let reader = parse_reopen(words, readers)?;
            Some(ScriptLine::Step(SimStep::Reopen(reader)))
        }
        "clean" => Some(ScriptLine::Clean(parse_number(words, 1000)? as usize)),
        _ => None,
    }
}

/// The line that has these words, where there are so many readers. What a message has of bytes stands in `place` then.
pub(crate) fn parse_line<'a>(
    words: &[&str],
    readers: usize,
    place: &'a mut Spelling,
) -> Option<ScriptLine<'a>>
    ensures { ReadsWords line_words (LineFits readers) (texts words.now) result }
{
    let [name, rest @ ..] = words else {
        return None;
    };
    parse_row(name, rest, readers, place)
}
