//! The words of a reply's text.

ghost use Rattle.std.specs.Prelude.{◌≡◌, ◌≤◌, ◌+◌, ◌/◌, MatchOption, codes};
ghost use Rattle.osdp_words.specs.Word.{texts};
ghost use Rattle.osdp_refused_words.specs.Messages.{HasNoReply, IsCountOf, SaysReply, SaysReplyOf};
ghost use Rattle.osdp_refused_words.specs.Stops.{StopsAt};

use crate::slot::Slot;
use crate::slots::{records_stop, slots_stop};
use osdp_words::number_u16;

/// How many bytes so many bits need, where a card may have them.
fn bytes_of(bits: u16) -> usize
    ensures few { result ≤ 1428 }
    ensures needed { bits ≤ 11424 → result ≡ (bits + 7) / 8 }
{
    if bits > 11_424 {
        return 0;
    }
    (usize::from(bits) + 7) / 8
}

/// How many bytes a card has by the count of bits among its words.
fn card_bytes(words: &[&str]) -> usize
    ensures few { result ≤ 1428 }
    ensures needed { IsCountOf (texts words.now) result }
{
    let [_, _, bits, ..] = words else {
        return 0;
    };
    match number_u16(bits) {
        None => 0,
        Some(bits) => bytes_of(bits),
    }
}

/// The place, among the words after its name, of the first word that cannot stand there in a card.
fn card_stop(words: &[&str]) -> usize
    ensures { StopsAt (SaysReplyOf (codes "RAW")) (texts words.now) result }
{
    let byte = Slot::Number(0, 255);
    let bits = Slot::Number(0, 11_424);
    let count = card_bytes(words);
    slots_stop(&[byte, byte, bits, Slot::Bytes(count, count)], words)
}

/// The place, among the words after its name, of the first word that cannot stand there in a reply of this name.
fn fields_stop(name: &str, words: &[&str]) -> Option<usize>
    ensures { MatchOption result (HasNoReply name.now) (StopsAt (SaysReplyOf name.now) (texts words.now)) }
{
    let byte = Slot::Number(0, 255);
    let long = Slot::Number(0, 4_294_967_295);
    let vendor = Slot::Bytes(3, 3);
    let text = Slot::Bytes(0, 255);
    let states = Slot::Bytes(0, 1432);
    match name {
        "ACK" => Some(slots_stop(&[], words)),
        "NAK" => Some(slots_stop(&[byte, Slot::Bytes(1, 1431)], words)),
        "PDID" => Some(slots_stop(&[vendor, byte, byte, long, byte, byte, byte], words)),
        "PDCAP" => Some(records_stop(Slot::Capability, 477, words)),
        "LSTATR" => Some(slots_stop(&[byte, byte], words)),
        "ISTATR" => Some(slots_stop(&[states], words)),
        "OSTATR" => Some(slots_stop(&[states], words)),
        "RSTATR" => Some(slots_stop(&[states], words)),
        "RAW" => Some(card_stop(words)),
        "FMT" => Some(slots_stop(&[byte, byte, text], words)),
        "KEYPAD" => Some(slots_stop(&[byte, text], words)),
        "COM" => Some(slots_stop(&[byte, long], words)),
        "BUSY" => Some(slots_stop(&[], words)),
        "MFGREP" => Some(slots_stop(&[vendor, Slot::Bytes(0, 1429)], words)),
        _ => None,
    }
}

/// The place of the first word that cannot stand there in the text of a reply; as many as there are words, where each may.
pub fn reply_stop(words: &[&str]) -> usize
    ensures { StopsAt SaysReply (texts words.now) result }
{
    let Some((name, rest)) = words.split_first() else {
        return 0;
    };
    match fields_stop(name, rest) {
        None => 0,
        Some(place) => 1 + place,
    }
}
