//! The words of a command's text.

ghost use Rattle.std.specs.Prelude.{MatchOption};
ghost use Rattle.osdp_words.specs.Word.{texts};
ghost use Rattle.osdp_refused_words.specs.Messages.{HasNoCommand, SaysCommand, SaysCommandOf};
ghost use Rattle.osdp_refused_words.specs.Stops.{StopsAt};

use crate::slot::Slot;
use crate::slots::{records_stop, slots_stop};

/// The place, among the words after its name, of the first word that cannot stand there in a command of this name.
fn fields_stop(name: &str, words: &[&str]) -> Option<usize>
    ensures { MatchOption result (HasNoCommand name.now) (StopsAt (SaysCommandOf name.now) (texts words.now)) }
{
    let byte = Slot::Number(0, 255);
    let rate = Slot::Number(0, 4_294_967_295);
    let text = Slot::Bytes(0, 255);
    let vendor = Slot::Bytes(3, 3);
    let data = Slot::Bytes(0, 1429);
    match name {
        "POLL" => Some(slots_stop(&[], words)),
        "ID" => Some(slots_stop(&[byte], words)),
        "CAP" => Some(slots_stop(&[byte], words)),
        "LSTAT" => Some(slots_stop(&[], words)),
        "ISTAT" => Some(slots_stop(&[], words)),
        "OSTAT" => Some(slots_stop(&[], words)),
        "RSTAT" => Some(slots_stop(&[], words)),
        "OUT" => Some(records_stop(Slot::Output, 358, words)),
        "LED" => Some(records_stop(Slot::Led, 102, words)),
        "BUZ" => Some(slots_stop(&[byte, byte, byte, byte, byte], words)),
        "TEXT" => Some(slots_stop(&[byte, byte, byte, byte, byte, text], words)),
        "COMSET" => Some(slots_stop(&[byte, rate], words)),
        "MFG" => Some(slots_stop(&[vendor, data], words)),
        _ => None,
    }
}

/// The place of the first word that cannot stand there in the text of a command; as many as there are words, where each may.
pub fn command_stop(words: &[&str]) -> usize
    ensures { StopsAt SaysCommand (texts words.now) result }
{
    let Some((name, rest)) = words.split_first() else {
        return 0;
    };
    match fields_stop(name, rest) {
        None => 0,
        Some(place) => 1 + place,
    }
}
