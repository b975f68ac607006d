//! What prints words, to be put into texts by `write!`.

ghost use Rattle.std.specs.Prelude.{◌≡◌, ◌<◌, ◌^◌, Some};
ghost use Rattle.osdp_words.specs.Word.{bytes, numbers, printed};

use std::fmt;

/// Prints a list of bytes as upper case hexadecimal digits, two for each byte, or as `none` where it is
/// empty.
#[derive(Clone, Copy)]
pub struct ByteList<'a>(pub &'a [u8]);

impl fmt::Display for ByteList<'_> {
    ghost output = { λ list. Some (printed (bytes list.0.now)) };

    fn fmt<W: fmt::Write>(&self, f: &mut fmt::Formatter<W>) -> fmt::Result {
        if self.0.is_empty() {
            return f.write_str("none");
        }
        for byte in self.0 {
            write!(f, "{:02X}", ranged(*byte))?;
        }
        Ok(())
    }
}

// The byte itself: in `fmt`, whose writer may be any, a proof knows no range of a slice's elements.
fn ranged(byte: u8) -> u8
    ensures value { result ≡ byte }
    ensures range { result < 2 ^ 8 }
{
    byte
}

/// Prints numbers as a record word: decimal digits, joined by colons.
#[derive(Clone, Copy)]
pub struct Record<'a>(pub &'a [u16]);

impl fmt::Display for Record<'_> {
    ghost output = { λ ns. Some (printed (numbers ns.0.now)) };

    fn fmt<W: fmt::Write>(&self, f: &mut fmt::Formatter<W>) -> fmt::Result {
        let Some((first, others)) = self.0.split_first() else {
            return Ok(());
        };
        write!(f, "{first}")?;
        for number in others {
            write!(f, ":{number}")?;
        }
        Ok(())
    }
}
