//! Pieces of texts.

ghost use Rattle.std.specs.Prelude.{◌++◌, ◌∷◌, [], map};
ghost use Rattle.std.specs.Fmt.{decimal};
ghost use Rattle.std.specs.List.{flat_map};
ghost use Rattle.osdp_words.specs.Word.{bytes, number, plain, text_of};
ghost use Rattle.osdp_c_values.specs.Pieces.{IsPut, following, two_digits};

use itoa::Buffer;

/// How many bytes the longest text has: that of a PDCAP with 477 capabilities.
pub const MAX_TEXT: usize = 5729;

/// A text is longer than the longest one.
#[derive(Drop)]
pub(crate) struct NoRoom;

/// Fields of a value as numbers.
macro_rules! numbers_of {
    ($of:ident: $($field:ident)*) => { [$(u32::from($of.$field)),*] };
}

pub(crate) use numbers_of;

const DIGITS: &[u8; 16] = b"0123456789ABCDEF";

/// Puts bytes of a text at their place, where the room reaches so far. Gives the place after them.
fn put_bytes(out: &mut [u8], at: usize, piece: &[u8]) -> Result<usize, NoRoom>
    ensures { IsPut MAX_TEXT at out.old result out.new piece.now }
{
    if at > MAX_TEXT || piece.len() > MAX_TEXT - at {
        return Err(NoRoom);
    }
    let end = at + piece.len();
    if end <= out.len() {
        out[at..end].copy_from_slice(piece);
    }
    Ok(end)
}

/// Puts characters.
pub(crate) fn put(out: &mut [u8], at: usize, piece: &str) -> Result<usize, NoRoom>
    ensures { IsPut MAX_TEXT at out.old result out.new piece.now }
{
    put_bytes(out, at, piece.as_bytes())
}

/// Puts a number in decimal digits.
pub(crate) fn put_decimal(out: &mut [u8], at: usize, number: u32) -> Result<usize, NoRoom>
    ensures { IsPut MAX_TEXT at out.old result out.new (decimal number) }
{
    let mut buffer = Buffer::new();
    put(out, at, buffer.format(number))
}

/// Puts a byte as two digits.
fn put_byte(out: &mut [u8], at: usize, byte: u8) -> Result<usize, NoRoom>
    ensures { IsPut MAX_TEXT at out.old result out.new (two_digits byte) }
{
    let digits = [DIGITS[(byte / 16) as usize], DIGITS[(byte % 16) as usize]];
    put_bytes(out, at, &digits)
}

/// Puts bytes as digits, two for each.
fn put_digits(out: &mut [u8], at: usize, list: &[u8]) -> Result<usize, NoRoom>
    ensures { IsPut MAX_TEXT at out.old result out.new (flat_map two_digits list.now) }
{
    let mut end = at;
    for byte in list {
        end = put_byte(out, end, *byte)?;
    }
    Ok(end)
}

/// Puts a list of bytes, after a space.
pub(crate) fn put_list(out: &mut [u8], at: usize, list: &[u8]) -> Result<usize, NoRoom>
    ensures { IsPut MAX_TEXT at out.old result out.new (following (bytes list.now ∷ [])) }
{
    if list.is_empty() {
        return put(out, at, " none");
    }
    let first = put(out, at, " ")?;
    put_digits(out, first, list)
}

/// Puts a number, after a space or a colon.
#[tactic(auto, using(crate::proofs::Putting::put_then))]
fn put_number(out: &mut [u8], at: usize, before: &str, number: u32) -> Result<usize, NoRoom>
    ensures { IsPut MAX_TEXT at out.old result out.new (before.now ++ decimal number) }
{
    let first = put(out, at, before)?;
    put_decimal(out, first, number)
}

/// Puts numbers, each after a space or a colon.
pub(crate) fn put_numbers(
    out: &mut [u8],
    at: usize,
    before: &str,
    numbers: &[u32],
) -> Result<usize, NoRoom>
    ensures { IsPut MAX_TEXT at out.old result out.new (flat_map (λ n. before.now ++ decimal n) numbers.now) }
{
    let mut end = at;
    for one in numbers {
        end = put_number(out, end, before, *one)?;
    }
    Ok(end)
}

/// Puts a name and numbers.
pub(crate) fn put_plain(
    out: &mut [u8],
    at: usize,
    name: &str,
    numbers: &[u32],
) -> Result<usize, NoRoom>
    ensures { IsPut MAX_TEXT at out.old result out.new (text_of (plain name.now ∷ map number numbers.now)) }
{
    let first = put(out, at, name)?;
    put_numbers(out, first, " ", numbers)
}

/// Puts a name, numbers and a list of bytes.
pub(crate) fn put_listed(
    out: &mut [u8],
    at: usize,
    name: &str,
    numbers: &[u32],
    list: &[u8],
) -> Result<usize, NoRoom>
    ensures { IsPut MAX_TEXT at out.old result out.new (text_of (plain name.now ∷ (map number numbers.now ++ bytes list.now ∷ []))) }
{
    let first = put_plain(out, at, name, numbers)?;
    put_list(out, first, list)
}
