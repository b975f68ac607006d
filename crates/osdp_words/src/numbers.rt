//! Decimal words.

ghost use Rattle.std.specs.Prelude.{◌≡◌, ◌<◌, ◌^◌, ◌↔◌, ◌⊎◌, IsTrue, length, slice_index};
ghost use Rattle.osdp_words.specs.Reading.{Reads};
ghost use Rattle.osdp_words.specs.Word.{number};

/// The number from 0 to 255 that a decimal word stands for.
pub fn number_u8(word: &str) -> Option<u8>
    ensures { Reads number (λ n. n < 2 ^ 8) word.now result }
{
    u8::try_from(number_u32(word)?).ok()
}

/// The number from 0 to 65,535 that a decimal word stands for.
pub fn number_u16(word: &str) -> Option<u16>
    ensures { Reads number (λ n. n < 2 ^ 16) word.now result }
{
    u16::try_from(number_u32(word)?).ok()
}

/// The number from 0 to 4,294,967,295 that a decimal word stands for.
pub fn number_u32(word: &str) -> Option<u32>
    ensures { Reads number (λ n. n < 2 ^ 32) word.now result }
{
    u32::try_from(number_u64(word)?).ok()
}

/// The number from 0 to the greatest `u64` that a decimal word stands for: digits with no sign, and with no
/// leading zero but that of `0` itself.
pub fn number_u64(word: &str) -> Option<u64>
    ensures { Reads number (λ n. n < 2 ^ 64) word.now result }
{
    if has_sign_or_leading_zero(word.as_bytes()) {
        return None;
    }
    word.parse().ok()
}

// What std's `parse` takes beside decimal words.
fn has_sign_or_leading_zero(characters: &[u8]) -> bool
    ensures { IsTrue result
        ↔ ((slice_index characters.now 0 ≡ 43) ⊎ ((slice_index characters.now 0 ≡ 48) × (1 < length characters.now))) }
{
    matches!(characters, [b'+', ..] | [b'0', _, ..])
}
