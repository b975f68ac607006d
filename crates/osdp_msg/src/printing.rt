//! Texts that several messages share.

ghost use Rattle.std.specs.Prelude.{◌≡◌, ◌∷◌, [], map};
ghost use Rattle.std.specs.Fmt.{WritesOnOk};
ghost use Rattle.osdp_words.specs.Word.{bytes, number, plain, printed, text_of};

use crate::lent::Records;
use crate::records::Record;
use osdp_words::ByteList;
use std::fmt;

/// A name and a number.
pub(crate) fn print_byte<W: fmt::Write>(
    f: &mut fmt::Formatter<W>,
    name: &str,
    byte: u8,
) -> fmt::Result
    ensures { WritesOnOk W.write_str_gives f.old result (text_of (plain name.now ∷ number byte ∷ [])) f.new }
{
    write!(f, "{name} {byte}")
}

/// A name and a list of bytes.
pub(crate) fn print_bytes<W: fmt::Write>(
    f: &mut fmt::Formatter<W>,
    name: &str,
    list: &[u8],
) -> fmt::Result
    ensures { WritesOnOk W.write_str_gives f.old result (text_of (plain name.now ∷ bytes list.now ∷ [])) f.new }
{
    let list = ByteList(list);
    write!(f, "{name} {list}")
}

/// A name and records.
pub(crate) fn print_records<R: Record, W: fmt::Write>(
    f: &mut fmt::Formatter<W>,
    name: &str,
    records: Records<'_, R>,
) -> fmt::Result
    ensures { WritesOnOk W.write_str_gives f.old result (text_of (plain name.now ∷ map R.word records.entry)) f.new }
{
    write!(f, "{name}")?;
    let mut left = records;
    'records: while let Some(record) = left.next() {
        print_record(f, record)?;
    }
    Ok(())
}

/// A space and a record.
fn print_record<R: Record, W: fmt::Write>(f: &mut fmt::Formatter<W>, one: R) -> fmt::Result
    ensures { WritesOnOk W.write_str_gives f.old result (32 ∷ printed (R.word one)) f.new }
{
    write!(f, " {one}")
}
