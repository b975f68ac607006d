//! The values of hexadecimal digits, as `hex` reads them.

ghost use Rattle.std.specs.Prelude.{◌≡◌, ◌*◌, ◌<◌, ℕ, true, false, length, MatchOption};
ghost use Rattle.std.specs.Result.{result_ok};
ghost use Rattle.hex.specs.Hex.{decode_of, hex_digit_value, pair_value};
ghost use Rattle.osdp_tool_streams.specs.Digits.{value_or_none};

use std::marker::Model;

/// What the table has where a character is no digit.
const NO_DIGIT: u8 = 255;

/// The value of each character as a digit. `hex` reads every character once, and lines of digits are read by what
/// it said: it looks at the kind of each digit in turn, which in a line of mixed ones takes several times as long.
#[derive(Drop)]
pub struct Digits {
    values: [u8; 256],
}

impl Model for Digits {
    ghost use Rattle.std.specs.Prelude.{ℕ, List};

    ghost Value = { List ℕ };

    ghost use Rattle.osdp_tool_streams.specs.Digits.{AreValues};

    ghost view = { λ digits. digits.values };

    ghost invariant = { λ digits. AreValues digits.values };
}

/// The value of a character as a digit: `hex` reads it after a zero.
fn value(character: u8) -> u8
    ensures { result ≡ value_or_none (hex_digit_value character) }
{
    let mut bytes = [0];
    match hex::decode_to_slice([b'0', character], &mut bytes) {
        Ok(()) => bytes[0],
        Err(_) => NO_DIGIT,
    }
}

impl Digits {
    /// The values of all characters.
    pub fn new() -> Digits {
        let mut values = [NO_DIGIT; 256];
        'characters: for character in 0..values.len() {
            values[character] = value(character as u8);
        }
        Digits { values }
    }

    /// The byte of two digits; None where one of them is none.
    #[inline(always)]
    fn byte(&self, high: u8, low: u8) -> Option<u8>
        ensures { (index : ℕ) → result ≡ result_ok (pair_value high low index) }
    {
        let high = self.values[high as usize];
        let low = self.values[low as usize];
        if high > 15 || low > 15 {
            return None;
        }
        Some(high * 16 + low)
    }

    /// Reads digits into a slice of half as many bytes; false where one of them is no digit.
    pub(crate) fn read(&self, characters: &[u8], bytes: &mut [u8]) -> bool
        requires { length characters.now ≡ 2 * length bytes.old }
        ensures { MatchOption (result_ok (decode_of characters.now)) (result ≡ false)
            (λ bytes_read. (result ≡ true) × (bytes.new ≡ bytes_read)) }
    {
        'pairs: for place in 0..bytes.len() {
            let Some(byte) = self.byte(characters[2 * place], characters[2 * place + 1]) else {
                return false;
            };
            bytes[place] = byte;
        }
        true
    }
}
