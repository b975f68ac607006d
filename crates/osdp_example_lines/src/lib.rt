//! What the small programs share: lines from a program beside them, which carries the port and the moments to them.
//!
//! A line is a turn, such as `400 none` or `410 5305..`: a moment in milliseconds, and the bytes that have come up to it. To a device a line such as
//! `card 12345640` says that a card was read.
#![tactic(auto)]

ghost use Rattle.std.specs.Prelude.{[], ◌∷◌, IfOk};
ghost use Rattle.osdp_words.specs.Reading.{ReadsWords};
ghost use Rattle.osdp_words.specs.Word.{texts, words_in};
ghost use Rattle.osdp_example_lines.specs.Due.{IsFirstOf};
ghost use Rattle.osdp_example_lines.specs.Lines.{IsCard, IsTold, IsTurn, card_words, turn_words};

pub mod laws;

use arrayvec::ArrayVec;
use osdp_words::{ByteList, all_words_in, byte_list, number_u64};
use std::alloc::{AllocError, Global};
use std::io;

/// What a line says.
#[derive(Debug, Drop)]
pub enum Line {
    /// A moment, and the bytes that have come up to it.
    Turn(u64, ArrayVec<u8, 4096>),
    /// A card was read, with these bytes.
    Card(ArrayVec<u8, 4>),
    /// Nothing that is known.
    Other,
}

/// Two words, and no others: a moment, and the bytes that have come up to it.
fn moment_and_bytes(words: &[&str]) -> Option<(u64, ArrayVec<u8, 4096>)>
    ensures { ReadsWords turn_words IsTurn (texts words.now) result }
{
    let [moment, list] = words else {
        return None;
    };
    Some((number_u64(moment)?, byte_list(list)?))
}

/// The bytes of a card, whose name and bytes these are.
#[tactic(auto, using(crate::proofs::Telling::card_read))]
fn card_in(name: &str, list: &str) -> Option<ArrayVec<u8, 4>>
    ensures { ReadsWords card_words IsCard (name.now ∷ list.now ∷ []) result }
{
    if name == "card" {
        byte_list(list)
    } else {
        None
    }
}

/// Two words, and no others: `card`, and its bytes.
fn card_bytes(words: &[&str]) -> Option<ArrayVec<u8, 4>>
    ensures { ReadsWords card_words IsCard (texts words.now) result }
{
    let [name, list] = words else {
        return None;
    };
    card_in(name, list)
}

/// What these words say.
fn line_of(words: &[&str]) -> Line
    ensures { IsTold (texts words.now) result }
{
    match moment_and_bytes(words) {
        Some((now, bytes)) => Line::Turn(now, bytes),
        None => match card_bytes(words) {
            Some(bytes) => Line::Card(bytes),
            None => Line::Other,
        },
    }
}

/// What a line says. An error where there is no memory for its words.
pub fn read_line(alloc: Global, line: &str) -> Result<Line, AllocError>
    ensures { IfOk result (IsTold (words_in line.now)) }
{
    let words = all_words_in(alloc, line)?;
    Ok(line_of(words.as_slice()))
}

/// Bytes go out to the line.
pub fn send(rt: &HostRuntime, bytes: &[u8]) -> io::Result<()> {
    println!(rt; "send {}", ByteList(bytes))
}

/// The first of two moments, where there are some.
pub fn first_of(one: Option<u64>, other: Option<u64>) -> Option<u64>
    ensures { IsFirstOf one other result }
{
    let Some(moment) = one else { return other };
    match other {
        Some(later) if later < moment => other,
        Some(_) | None => one,
    }
}

/// Tells the moment of the next turn: the first of these.
pub fn tell_due(rt: &HostRuntime, moments: [Option<u64>; 2]) -> io::Result<()> {
    let [one, other] = moments;
    match first_of(one, other) {
        Some(due) => println!(rt; "due {due}"),
        None => println!(rt; "due none"),
    }
}
