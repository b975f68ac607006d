//! What a line may order.

ghost use Rattle.std.specs.Prelude.{◌<◌, ◌^◌, ◌∷◌, ℕ, []};
ghost use Rattle.osdp_words.specs.Reading.{ReadsWords};
ghost use Rattle.osdp_words.specs.Word.{bytes, number, texts};
ghost use Rattle.osdp_settings.specs.Values.{switch_word};
ghost use Rattle.osdp_line_calls.specs.ReaderCalls.{AreStates, CallFits, call_words};

use crate::words::{one_list, one_moment, one_word};
use arrayvec::ArrayVec;
use osdp_msg::{KeptEvent, MAX_DATA};
use osdp_settings::read_switch;
use osdp_words::{byte_list, number_u8};

/// What a line orders.
#[derive(Debug, Drop)]
pub enum ReaderCall {
    /// The moment of the calls to come, in milliseconds.
    At(u64),
    /// Bytes have come.
    Bytes(ArrayVec<u8, 4096>),
    /// The line was seen silent.
    Silence,
    /// No bytes have come up to now.
    Tick,
    /// An event for the controller.
    Event(KeptEvent),
    /// Whether the reader is busy from now on.
    Busy(bool),
    /// A byte for each input, from now on.
    Inputs(ArrayVec<u8, MAX_DATA>),
    /// A byte for each output, from now on.
    Outputs(ArrayVec<u8, MAX_DATA>),
    /// A byte for each reader, from now on.
    Readers(ArrayVec<u8, MAX_DATA>),
    /// Tamper and power, from now on.
    Local(u8, u8),
}

/// One word, and no other: a byte for each input, output or reader.
fn parse_states(words: &[&str]) -> Option<ArrayVec<u8, MAX_DATA>>
    ensures { ReadsWords (λ list. bytes list.items ∷ []) (λ list. AreStates list.items) (texts words.now) result }
{
    byte_list(one_word(words)?)
}

/// Two words, and no others: tamper and power.
fn parse_local(words: &[&str]) -> Option<(u8, u8)>
    ensures { ReadsWords (λ (x : ℕ × ℕ). number x.0 ∷ number x.1 ∷ []) (λ (x : ℕ × ℕ). (x.0 < 2 ^ 8) × (x.1 < 2 ^ 8)) (texts words.now) result }
{
    let [tamper, power] = words else {
        return None;
    };
    Some((number_u8(tamper)?, number_u8(power)?))
}

/// One word, and no other: `on` or `off`.
fn parse_switch(words: &[&str]) -> Option<bool>
    ensures { ReadsWords (λ busy. switch_word busy ∷ []) (λ busy. Unit {0}) (texts words.now) result }
{
    read_switch(one_word(words)?)
}

/// The call whose words begin with a name and go on with these.
pub(crate) fn parse_row(name: &str, words: &[&str]) -> Option<ReaderCall>
    ensures { ReadsWords call_words CallFits (name.now ∷ texts words.now) result }
{
    match name {
        "at" => Some(ReaderCall::At(one_moment(words)?)),
        "bytes" => Some(ReaderCall::Bytes(one_list(words)?)),
        "silence" => words.is_empty().then_some(ReaderCall::Silence),
        "tick" => words.is_empty().then_some(ReaderCall::Tick),
        "event" => Some(ReaderCall::Event(KeptEvent::parse(words)?)),
        "busy" => Some(ReaderCall::Busy(parse_switch(words)?)),
        "inputs" => Some(ReaderCall::Inputs(parse_states(words)?)),
        "outputs" => Some(ReaderCall::Outputs(parse_states(words)?)),
        "readers" => Some(ReaderCall::Readers(parse_states(words)?)),
        "local" => {
            let (tamper, power) = parse_local(words)?;
            Some(ReaderCall::Local(tamper, power))
        }
        _ => None,
    }
}
