//! How a line is listened to, and the words that say so.

ghost use Rattle.std.specs.Prelude.{◌≡◌, ◌↔◌, Option};
ghost use Rattle.osdp_frame.specs.Times.{IsTime};
ghost use Rattle.osdp_tool_monitor.specs.Options.{ReadsMode, TakesOption, name_text, with_option};
ghost use Rattle.osdp_tool_options.specs.Options.{TakesNumber};
ghost use Rattle.osdp_words.specs.Reading.{Reads};
ghost use Rattle.osdp_words.specs.Word.{number, texts};

use osdp_frame::is_time;
use osdp_tool_options::{CommandOption, read_options};
use osdp_tool_show::{Detail, Filter};
use osdp_words::{Fields, number_u32};

/// After so many milliseconds of silence a run is over, where no option says another number.
const GAP: u32 = 20;

/// How the input is read, and what is printed of it.
#[derive(Clone, Copy, Debug, PartialEq, Eq)]
pub struct MonitorMode {
    /// The input is a capture in lines of hexadecimal digits, each of which is a run; else it is bytes as they come.
    pub hex: bool,
    /// Which packets, skipped bytes and refused bytes have a line.
    pub detail: Detail,
    /// After how long a silence a run of bytes is over, in milliseconds, 1 to 3,600,000.
    pub gap: u32,
    /// After how many seconds the table is printed again, 1 to 3,600,000, where it is.
    pub every: Option<u32>,
    /// Whether accusations by the profile alone are left out.
    pub standard: bool,
    /// Whether bytes were recorded before, so that no moment at which they come ends a run.
    pub recorded: bool,
    /// Whether the moments of a capture are told too.
    pub times: bool,
    /// Whether an object of JSON is printed for each line.
    pub json: bool,
    /// Whether a moment that is told is told as the day's time.
    pub clock: bool,
}

/// A word of the command `monitor`, with its number.
#[derive(Clone, Copy, Debug, PartialEq, Eq)]
pub enum MonitorOption {
    /// `--packets`
    Packets,
    /// `--talk`
    Talk,
    /// `--gap` and the milliseconds.
    Gap(u32),
    /// `--every` and the seconds.
    Every(u32),
    /// `--standard`
    Standard,
    /// `--recorded`
    Recorded,
    /// `--times`
    Times,
    /// `--json`
    Json,
    /// `--clock`
    Clock,
}

/// Which option a word names.
#[derive(Clone, Copy, Debug, PartialEq, Eq)]
pub(crate) enum OptionName {
    Packets,
    Talk,
    Gap,
    Every,
    Standard,
    Recorded,
    Times,
    Json,
    Clock,
}

/// The option of this name.
fn option_name(word: &str) -> Option<OptionName>
    ensures { (name : OptionName) → (result ≡ Option.Some name) ↔ (word.now ≡ name_text name) }
{
    match word {
        "--packets" => Some(OptionName::Packets),
        "--talk" => Some(OptionName::Talk),
        "--gap" => Some(OptionName::Gap),
        "--every" => Some(OptionName::Every),
        "--standard" => Some(OptionName::Standard),
        "--recorded" => Some(OptionName::Recorded),
        "--times" => Some(OptionName::Times),
        "--json" => Some(OptionName::Json),
        "--clock" => Some(OptionName::Clock),
        _ => None,
    }
}

/// A number from 1 to 3,600,000.
fn wait(word: &str) -> Option<u32>
    ensures { Reads number IsTime word.now result }
{
    let wait = number_u32(word)?;
    if !is_time(wait) {
        return None;
    }
    Some(wait)
}

/// The number at the head of the words, which it takes off.
fn take_wait(words: &mut Fields<'_>) -> Option<u32>
    ensures { TakesNumber IsTime words.old words.new result }
{
    wait(words.word()?)
}

impl MonitorOption {
    /// The option of this name, and of the number at the head of the words, which it takes off, where it has one.
    fn named(name: OptionName, words: &mut Fields<'_>) -> Option<MonitorOption>
        ensures { TakesOption name words.old words.new result }
    {
        match name {
            OptionName::Packets => Some(MonitorOption::Packets),
            OptionName::Talk => Some(MonitorOption::Talk),
            OptionName::Gap => Some(MonitorOption::Gap(take_wait(words)?)),
            OptionName::Every => Some(MonitorOption::Every(take_wait(words)?)),
            OptionName::Standard => Some(MonitorOption::Standard),
            OptionName::Recorded => Some(MonitorOption::Recorded),
            OptionName::Times => Some(MonitorOption::Times),
            OptionName::Json => Some(MonitorOption::Json),
            OptionName::Clock => Some(MonitorOption::Clock),
        }
    }
}

impl CommandOption for MonitorOption {
    type Mode = MonitorMode;

    ghost use Rattle.osdp_tool_monitor.specs.Options.{OptionFits, name_of, numbers_of};

    ghost name = { λ option. name_text (name_of option) };

    ghost numbers = { numbers_of };

    ghost Fits = { OptionFits };

    ghost with = { with_option };

    fn take(word: &str, following: &mut Fields<'_>) -> Option<MonitorOption> {
        MonitorOption::named(option_name(word)?, following)
    }

    fn set(self, mode: &mut MonitorMode) {
        match self {
            MonitorOption::Packets => mode.detail = Detail::Full,
            MonitorOption::Talk => {
                mode.detail = Detail::Filtered(Filter {
                    address: None,
                    no_polls: true,
                });
            }
            MonitorOption::Gap(gap) => mode.gap = gap,
            MonitorOption::Every(seconds) => mode.every = Some(seconds),
            MonitorOption::Standard => mode.standard = true,
            MonitorOption::Recorded => mode.recorded = true,
            MonitorOption::Times => mode.times = true,
            MonitorOption::Json => mode.json = true,
            MonitorOption::Clock => {
                mode.times = true;
                mode.clock = true;
            }
        }
    }
}

/// How the words after `monitor` ask to listen to an input of lines of digits, or to one of bytes: options in any order, of which a later one of a kind holds.
/// Without options only what is found is printed, in lines of text, a run is over after 20 milliseconds, the table comes at the end alone, no accusation is
/// left out, and no moment is told.
/// None where the words are no options.
pub fn monitor_mode(hex: bool, words: &[&str]) -> Option<MonitorMode>
    ensures { ReadsMode hex (texts words.now) result }
{
    let mode = MonitorMode {
        hex,
        detail: Detail::Refusals,
        gap: GAP,
        every: None,
        standard: false,
        recorded: false,
        times: false,
        json: false,
        clock: false,
    };
    read_options::<MonitorOption>(mode, words)
}
