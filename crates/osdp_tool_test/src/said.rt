//! What a line of a test of a device says.

ghost use Rattle.std.specs.Prelude.{◌≡◌, ◌∷◌, [], option_map};
ghost use Rattle.osdp_words.specs.Reading.{ReadsWords};
ghost use Rattle.osdp_words.specs.Word.{number, plain, texts};
ghost use Rattle.osdp_tool_test.specs.Rules.{IsRule};
ghost use Rattle.osdp_tool_test.specs.Lines.{SaidFits, said_of, said_words};

use crate::exchange::{Exchange, Skip, number_within, parse_device, parse_exchange, parse_skip};
use crate::rules::COUNT;
use osdp_frame::Address;

/// What a line says.
#[derive(Drop)]
pub(crate) enum Said<'a> {
    /// The address of the device under test.
    Device(Address),
    /// What was sent, and what was heard after it: no rule is judged by it.
    Opens(Exchange),
    /// The same, and its rule is judged by it.
    Asks(Exchange),
    /// A rule was left out.
    Skips(Skip<'a>),
    /// The rule of this number is judged by the times of all answers so far.
    Times(u8),
    /// Somebody beside the line saw that the rule of this number is kept.
    Keeps(u8),
    /// .. or what breaks it.
    Breaks(Skip<'a>),
}

/// The number of a rule, alone.
fn parse_number(words: &[&str]) -> Option<u8>
    ensures { ReadsWords (λ n. number n ∷ []) IsRule (texts words.now) result }
{
    let [word] = words else {
        return None;
    };
    number_within(word, 1, COUNT)
}

/// The line whose words begin with a name and go on with these.
fn parse_row<'a>(name: &str, words: &[&'a str]) -> Option<Said<'a>>
    ensures { ReadsWords said_words SaidFits (name.now ∷ texts words.now) (option_map said_of result) }
{
    match name {
        "device" => Some(Said::Device(parse_device(words)?)),
        "opens" => Some(Said::Opens(parse_exchange(words, 1, COUNT)?)),
        "asks" => Some(Said::Asks(parse_exchange(words, 1, COUNT)?)),
        "skips" => Some(Said::Skips(parse_skip(words, COUNT)?)),
        "times" => Some(Said::Times(parse_number(words)?)),
        "keeps" => Some(Said::Keeps(parse_number(words)?)),
        "breaks" => Some(Said::Breaks(parse_skip(words, COUNT)?)),
        _ => None,
    }
}

/// What a line says that has these words: one line at most has them.
pub(crate) fn said_in<'a>(words: &[&'a str]) -> Option<Said<'a>>
    ensures { ReadsWords said_words SaidFits (texts words.now) (option_map said_of result) }
{
    let [name, rest @ ..] = words else {
        return None;
    };
    parse_row(name, rest)
}
