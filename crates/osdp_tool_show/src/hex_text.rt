//! Bytes as upper case hexadecimal digits.

ghost use Rattle.std.specs.Prelude.{◌≡◌, ◌++◌, ◌<◌, ℕ, OnOk, slice_index, string_bytes};
ghost use Rattle.hex.specs.Hex.{encode_upper, upper_digits};

use std::alloc::AllocError;

const DIGITS: &[u8; 16] = b"0123456789ABCDEF";

fn digit(value: u8) -> char
    requires { value < 16 }
    ensures digit { result ≡ slice_index upper_digits value }
    ensures ascii { result < 128 }
{
    DIGITS[value as usize] as char
}

pub(crate) fn push_bytes(text: &mut String, bytes: &[u8]) -> Result<(), AllocError>
    ensures { OnOk result (string_bytes text.new ≡ string_bytes text.old ++ encode_upper bytes.now) }
{
    for byte in bytes {
        text.push(digit(*byte / 16))?;
        text.push(digit(*byte % 16))?;
    }
    Ok(())
}
