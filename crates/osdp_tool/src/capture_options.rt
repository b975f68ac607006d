//! What is printed of a capture, and the words that say so.

ghost use Rattle.std.specs.Prelude.{◌≡◌, ◌↔◌, Option};
ghost use Rattle.osdp_tool.specs.CaptureOptions.{IsAddress, ReadsCaptureMode, TakesOption, name_text, with_option};
ghost use Rattle.osdp_tool_options.specs.Options.{TakesNumber};
ghost use Rattle.osdp_words.specs.Reading.{Reads};
ghost use Rattle.osdp_words.specs.Word.{number, texts};

use osdp_tool_options::{CommandOption, read_options};
use osdp_words::{Fields, number_u8};

/// How lines of digits stand in runs, and what is printed of them.
#[derive(Clone, Copy, Debug, PartialEq, Eq)]
pub struct CaptureMode {
    /// All lines of digits are one run.
    pub join: bool,
    /// Whether the moment and the way of its run stand before each line.
    pub times: bool,
    /// Whether POLL and ACK are left out.
    pub no_polls: bool,
    /// The address whose packets alone are printed, 0 to 127, where one is given.
    pub address: Option<u8>,
}

/// An option of the commands `show` and `check`, with its number.
#[derive(Clone, Copy, Debug, PartialEq, Eq)]
pub enum CaptureOption {
    /// `--join`
    Join,
    /// `--times`
    Times,
    /// `--no-polls`
    NoPolls,
    /// `--address` and the address.
    Address(u8),
}

/// Which option a word names.
#[derive(Clone, Copy, Debug, PartialEq, Eq)]
pub(crate) enum OptionName {
    Join,
    Times,
    NoPolls,
    Address,
}

/// The option of this name.
fn option_name(word: &str) -> Option<OptionName>
    ensures { (name : OptionName) → (result ≡ Option.Some name) ↔ (word.now ≡ name_text name) }
{
    match word {
        "--join" => Some(OptionName::Join),
        "--times" => Some(OptionName::Times),
        "--no-polls" => Some(OptionName::NoPolls),
        "--address" => Some(OptionName::Address),
        _ => None,
    }
}

/// An address of the line, 0 to 127.
fn address(word: &str) -> Option<u8>
    ensures { Reads number IsAddress word.now result }
{
    let address = number_u8(word)?;
    if address > 127 {
        return None;
    }
    Some(address)
}

/// The address at the head of the words, which it takes off.
fn take_address(words: &mut Fields<'_>) -> Option<u8>
    ensures { TakesNumber IsAddress words.old words.new result }
{
    address(words.word()?)
}

impl CaptureOption {
    /// The option of this name, and of the address at the head of the words, which it takes off, where it has one.
    fn named(name: OptionName, words: &mut Fields<'_>) -> Option<CaptureOption>
        ensures { TakesOption name words.old words.new result }
    {
        match name {
            OptionName::Join => Some(CaptureOption::Join),
            OptionName::Times => Some(CaptureOption::Times),
            OptionName::NoPolls => Some(CaptureOption::NoPolls),
            OptionName::Address => Some(CaptureOption::Address(take_address(words)?)),
        }
    }
}

impl CommandOption for CaptureOption {
    type Mode = CaptureMode;

    ghost use Rattle.osdp_tool.specs.CaptureOptions.{OptionFits, name_of, numbers_of};

    ghost name = { λ option. name_text (name_of option) };

    ghost numbers = { numbers_of };

    ghost Fits = { OptionFits };

    ghost with = { with_option };

    fn take(word: &str, following: &mut Fields<'_>) -> Option<CaptureOption> {
        CaptureOption::named(option_name(word)?, following)
    }

    fn set(self, mode: &mut CaptureMode) {
        match self {
            CaptureOption::Join => mode.join = true,
            CaptureOption::Times => mode.times = true,
            CaptureOption::NoPolls => mode.no_polls = true,
            CaptureOption::Address(address) => mode.address = Some(address),
        }
    }
}

/// What the words ask for: options in any order, of which a later one of a kind holds. Without options each line of digits is a run, and each item is
/// printed. None where the words are no options.
pub fn capture_mode(words: &[&str]) -> Option<CaptureMode>
    ensures { ReadsCaptureMode (texts words.now) result }
{
    let mode = CaptureMode {
        join: false,
        times: false,
        no_polls: false,
        address: None,
    };
    read_options::<CaptureOption>(mode, words)
}
