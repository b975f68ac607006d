//! Hexadecimal words.

ghost use Rattle.std.specs.Prelude.{◌≡◌, ◌≤◌, length};
ghost use Rattle.std.specs.Bool.{then_some};
ghost use Rattle.arrayvec.specs.ArrayVec.{array_vec_len};
ghost use Rattle.hex.specs.Hex.{IsBytes};
ghost use Rattle.osdp_words.specs.Reading.{Reads};
ghost use Rattle.osdp_words.specs.Word.{bytes};

use arrayvec::ArrayVec;
use hex::FromHex;

/// The bytes that a hexadecimal word stands for, two digits in either case for each, or no bytes where it
/// is `none`; None where they are more than `CAP`.
pub fn byte_list<const CAP: usize>(word: &str) -> Option<ArrayVec<u8, CAP>>
    ensures { Reads (λ list. bytes list.items) (λ list. (array_vec_len list ≤ CAP) × IsBytes list.items) word.now result }
{
    let mut list = ArrayVec::new();
    read_byte_list(word, &mut list).then_some(list)
}

/// Puts the bytes that a hexadecimal word stands for in place of those of a list. Whether there are such, and no more than `CAP`; else
/// some of them may stand there.
pub(crate) fn read_byte_list<const CAP: usize>(word: &str, list: &mut ArrayVec<u8, CAP>) -> bool
    ensures { Reads (λ read. bytes read.items) (λ read. (array_vec_len read ≤ CAP) × IsBytes read.items) word.now (then_some result list.new) }
{
    list.clear();
    if word == "none" {
        return true;
    }
    let count = word.len() / 2;
    if count == 0 || CAP < count {
        return false;
    }
    let mut room = [0; CAP];
    let read = &mut room[..count];
    if hex::decode_to_slice(word, read).is_err() {
        return false;
    }
    list.try_extend_from_slice(read).is_ok()
}

/// The three bytes of a vendor, as a hexadecimal word of six digits.
pub fn vendor(word: &str) -> Option<[u8; 3]>
    ensures { Reads bytes (λ bs. (length bs ≡ 3) × IsBytes bs) word.now result }
{
    <[u8; 3]>::from_hex(word).ok()
}
