//! What one word of a text may be.

ghost use Rattle.std.specs.Prelude.{◌↔◌, ◌≤◌, IsTrue};
ghost use Rattle.osdp_refused_words.specs.Slots.{IsSlot, SlotTakes};

use osdp_msg::{Capability, LedRecord, OutputRecord, Record};
use osdp_words::{byte_list, number_u64};

/// What one word of a text may be.
#[derive(Clone, Copy, Debug, PartialEq, Eq)]
pub enum Slot {
    /// This word.
    Text(&'static str),
    /// A number from the least to the greatest.
    Number(u64, u64),
    /// A list of so many bytes, from the fewest to the most.
    Bytes(usize, usize),
    /// What an output is to do.
    Output,
    /// What an LED is to do.
    Led,
    /// One ability of a device.
    Capability,
}

/// Whether a word is a number from the least to the greatest.
fn is_number(word: &str, least: u64, most: u64) -> bool
    requires { IsSlot (Slot.Number least most) }
    ensures { IsTrue result ↔ SlotTakes (Slot.Number least most) word.now }
{
    match number_u64(word) {
        None => false,
        Some(number) => least <= number && number <= most,
    }
}

/// Whether so many are from the fewest to the most.
fn is_within(count: usize, least: usize, most: usize) -> bool
    ensures { IsTrue result ↔ ((least ≤ count) × (count ≤ most)) }
{
    least <= count && count <= most
}

/// Whether a word is a list of so many bytes.
fn is_list(word: &str, least: usize, most: usize) -> bool
    requires { IsSlot (Slot.Bytes least most) }
    ensures { IsTrue result ↔ SlotTakes (Slot.Bytes least most) word.now }
{
    match byte_list::<4096>(word) {
        None => false,
        Some(list) => is_within(list.len(), least, most),
    }
}

impl Slot {
    /// Whether a word may stand there.
    pub(crate) fn takes(self, word: &str) -> bool
        requires { IsSlot self }
        ensures { IsTrue result ↔ SlotTakes self word.now }
    {
        match self {
            Slot::Text(text) => word == text,
            Slot::Number(least, most) => is_number(word, least, most),
            Slot::Bytes(least, most) => is_list(word, least, most),
            Slot::Output => OutputRecord::parse(word).is_some(),
            Slot::Led => LedRecord::parse(word).is_some(),
            Slot::Capability => Capability::parse(word).is_some(),
        }
    }
}
