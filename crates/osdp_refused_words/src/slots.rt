//! Texts of as many words as there are slots.

ghost use Rattle.std.specs.List.{AllByRecursion};
ghost use Rattle.osdp_words.specs.Word.{texts};
ghost use Rattle.osdp_refused_words.specs.Slots.{Fills, IsSlot, SaysRecords};
ghost use Rattle.osdp_refused_words.specs.Stops.{StopsAt};

use crate::slot::Slot;
use osdp_words::Fields;

/// The place of the first word that cannot stand there, where a word for each slot may; as many as there are words, where each may.
pub fn slots_stop(slots: &[Slot], words: &[&str]) -> usize
    requires { AllByRecursion IsSlot slots.now }
    ensures { StopsAt (Fills slots.now) (texts words.now) result }
{
    let mut left = Fields::new(words);
    let mut place = 0;
    'words: while let Some(word) = left.word() {
        let Some(slot) = slots.get(place) else {
            return place;
        };
        if !slot.takes(word) {
            return place;
        }
        place += 1;
    }
    place
}

/// The same, where so many words of one sort may stand, and no others.
pub fn records_stop(slot: Slot, most: usize, words: &[&str]) -> usize
    requires { IsSlot slot }
    ensures { StopsAt (SaysRecords slot most) (texts words.now) result }
{
    let mut left = Fields::new(words);
    let mut room = most;
    let mut place = 0;
    'words: while let Some(word) = left.word() {
        if room == 0 {
            return place;
        }
        if !slot.takes(word) {
            return place;
        }
        room -= 1;
        place += 1;
    }
    place
}
