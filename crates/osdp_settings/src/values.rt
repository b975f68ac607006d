//! The values of settings.

ghost use Rattle.std.specs.Prelude.{◌≤◌};
ghost use Rattle.osdp_words.specs.Reading.{Reads};
ghost use Rattle.osdp_words.specs.Word.{number};
ghost use Rattle.osdp_settings.specs.Values.{switch_word};

use osdp_words::number_u32;

/// A number from the least to the greatest.
pub fn number_within(word: &str, least: u32, greatest: u32) -> Option<u32>
    ensures { Reads number (λ n. (least ≤ n) × (n ≤ greatest)) word.now result }
{
    let value = number_u32(word)?;
    if value < least || greatest < value {
        return None;
    }
    Some(value)
}

/// `on` or `off`.
pub fn read_switch(word: &str) -> Option<bool>
    ensures { Reads switch_word (λ on. Unit {0}) word.now result }
{
    match word {
        "on" => Some(true),
        "off" => Some(false),
        _ => None,
    }
}
