//! What a line of a test of a panel says.

ghost use Rattle.std.specs.Prelude.{◌≡◌, ◌∷◌, [], option_map};
ghost use Rattle.osdp_words.specs.Reading.{ReadsWords};
ghost use Rattle.osdp_words.specs.Word.{plain, texts};
ghost use Rattle.osdp_tool_test_panel.specs.Lines.{MoreFits, SaidFits, more_words, said_of, said_words};

use crate::rules::COUNT;
use osdp_frame::Address;
use osdp_tool_test::{Bytes, Exchange, Skip, heard_in, parse_device, parse_exchange, parse_skip};

/// What the device said too, some time later.
#[derive(Drop)]
pub(crate) struct More {
    /// How many milliseconds later.
    pub delay: u64,
    /// What it said.
    pub said: Bytes,
}

/// What a line says.
#[derive(Drop)]
pub(crate) enum Said<'a> {
    /// The address at which the device answers.
    Device(Address),
    /// What the panel sent, and what was said to it.
    Hears(Exchange),
    /// What the device said too, some time later.
    Says(More),
    /// A rule was left out.
    Skips(Skip<'a>),
}

/// What the device said too, and how much later.
fn more_in(delay: &str, said: &str) -> Option<More>
    ensures { ReadsWords more_words MoreFits (delay.now ∷ said.now ∷ []) result }
{
    let (delay, said) = heard_in(delay, said)?;
    Some(More { delay, said })
}

/// What the device said too.
fn parse_more(words: &[&str]) -> Option<More>
    ensures { ReadsWords more_words MoreFits (texts words.now) result }
{
    let [delay, said] = words else {
        return None;
    };
    more_in(delay, said)
}

/// The line whose words begin with a name and go on with these.
fn parse_row<'a>(name: &str, words: &[&'a str]) -> Option<Said<'a>>
    ensures { ReadsWords said_words SaidFits (name.now ∷ texts words.now) (option_map said_of result) }
{
    match name {
        "device" => Some(Said::Device(parse_device(words)?)),
        "hears" => Some(Said::Hears(parse_exchange(words, 0, COUNT)?)),
        "says" => Some(Said::Says(parse_more(words)?)),
        "skips" => Some(Said::Skips(parse_skip(words, COUNT)?)),
        _ => None,
    }
}

/// What a line says that has these words: one line at most has them.
pub(crate) fn said_in<'a>(words: &[&'a str]) -> Option<Said<'a>>
    ensures { ReadsWords said_words SaidFits (texts words.now) (option_map said_of result) }
{
    let [name, rest @ ..] = words else {
        return None;
    };
    parse_row(name, rest)
}
