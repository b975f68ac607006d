//! Bytes of messages, as they are read and written.

ghost use Rattle.std.specs.Prelude.{◌≡◌, ◌<◌, ◌≤◌, ◌+◌, [], ◌∷◌, ◌++◌, ◌^◌, length, drop};
ghost use Rattle.arrayvec.specs.ArrayVec.{array_vec_len};
ghost use Rattle.byteorder.specs.Endian.{little_bytes};
ghost use Rattle.hex.specs.Hex.{IsBytes};

use crate::limits::{MAX_DATA, MAX_MESSAGE};
use arrayvec::ArrayVec;

/// A message's code and data.
pub type Spelling = ArrayVec<u8, MAX_MESSAGE>;

/// The bytes from place `from` on.
pub(crate) fn rest(bytes: &[u8], from: usize) -> &[u8]
    requires { from ≤ length bytes.now }
    ensures { result.now ≡ drop from bytes.now }
{
    bytes.split_at(from).1
}

/// Puts a message of a code alone in place of what stands in `spelling`.
pub(crate) fn put_code(spelling: &mut Spelling, code: u8)
    ensures { spelling.new.items ≡ code ∷ [] }
{
    spelling.clear();
    spelling.push(code);
}

/// Puts a message of one byte in place of what stands in `spelling`.
pub(crate) fn put_byte(spelling: &mut Spelling, code: u8, byte: u8)
    ensures spelled { spelling.new.items ≡ code ∷ byte ∷ [] }
    ensures fits { byte < 256 }
{
    put_code(spelling, code);
    spelling.push(byte);
}

/// Puts a message of some bytes in place of what stands in `spelling`.
pub(crate) fn put_bytes(spelling: &mut Spelling, code: u8, bytes: &[u8])
    requires { length bytes.now ≤ MAX_DATA }
    ensures spelled { spelling.new.items ≡ code ∷ bytes.now }
    ensures fits { IsBytes bytes.now }
{
    put_code(spelling, code);
    append(spelling, bytes);
}

/// Appends some bytes.
pub(crate) fn append(spelling: &mut Spelling, bytes: &[u8])
    requires { array_vec_len spelling.old + length bytes.now ≤ MAX_MESSAGE }
    ensures appended { spelling.new.items ≡ spelling.old.items ++ bytes.now }
    ensures fits { IsBytes bytes.now }
{
    spelling.try_extend_from_slice(bytes).unwrap();
}

/// Appends a number as two bytes, low byte first.
pub(crate) fn append_u16(spelling: &mut Spelling, number: u16)
    requires { array_vec_len spelling.old + 2 ≤ MAX_MESSAGE }
    ensures appended { spelling.new.items ≡ spelling.old.items ++ little_bytes 2 number }
    ensures fits { number < 2 ^ 16 }
{
    append(spelling, &u16::to_le_bytes(number));
}

/// Appends a number as four bytes, low byte first.
pub(crate) fn append_u32(spelling: &mut Spelling, number: u32)
    requires { array_vec_len spelling.old + 4 ≤ MAX_MESSAGE }
    ensures appended { spelling.new.items ≡ spelling.old.items ++ little_bytes 4 number }
    ensures fits { number < 2 ^ 32 }
{
    append(spelling, &u32::to_le_bytes(number));
}
