//! Records of a fixed size, of which messages have lists.

ghost use Rattle.std.specs.Prelude.{◌≡◌, ◌<◌, ◌≤◌, ◌+◌, ◌*◌, ◌%◌, ℕ, ◌++◌, List, ◌∷◌, Some, length};
ghost use Rattle.std.specs.List.{All, flat_map};
ghost use Rattle.arrayvec.specs.ArrayVec.{array_vec_len};
ghost use Rattle.hex.specs.Hex.{IsBytes};
ghost use Rattle.osdp_words.specs.Reading.{Reads};
ghost use Rattle.osdp_words.specs.Word.{Word, printed};
ghost use Rattle.osdp_msg.specs.Records.{IsRecord};
ghost use Rattle.osdp_msg.specs.Lending.{AreAtMost, lent_records};

use crate::lent::Lent;
use crate::limits::{MAX_DATA, MAX_MESSAGE};
use crate::spelling::{Spelling, put_bytes, put_code};
use std::fmt;

/// A record of a fixed size in bytes.
pub trait Record: Copy + Default + Drop + fmt::Display {
    ghost SIZE: { ℕ };

    ghost spelled: { Self → List ℕ };

    ghost fits: { Self → Type 0 };

    ghost read_at: { List ℕ → Self };

    ghost word: { Self → Word };

    /// How many bytes a record takes.
    const SIZE: usize;

    /// The record in the bytes in front.
    fn read(bytes: &[u8]) -> Self
        requires { SIZE ≤ length bytes.now }
        ensures { result ≡ read_at bytes.now };

    /// Appends the bytes of the record.
    fn append_to(self, spelling: &mut Spelling)
        requires { array_vec_len spelling.old + SIZE ≤ MAX_MESSAGE }
        ensures appended { spelling.new.items ≡ spelling.old.items ++ spelled self }
        ensures fits { fits self };

    /// The record that a word stands for.
    fn parse(given: &str) -> Option<Self>
        ensures { Reads word fits given.now result };

    ghost some: { 0 < SIZE };

    ghost length_spelled: { (r : Self) → length (spelled r) ≡ SIZE };

    ghost prints: { (r : Self) → Self.output r ≡ Some (printed (word r)) };
}

/// Puts a message of records in place of what stands in `spelling`.
pub(crate) fn put_records<R: Record>(spelling: &mut Spelling, code: u8, records: &[R])
    requires { R.SIZE * length records.now ≤ MAX_DATA }
    ensures spelled { spelling.new.items ≡ code ∷ flat_map R.spelled records.now }
    ensures fits { All R.fits records.now }
{
    put_code(spelling, code);
    for record in records {
        record.append_to(spelling);
    }
}

/// Puts a message of records that are lent in place of what stands in `spelling`.
pub(crate) fn put_lent<R: Record, const MOST: usize>(
    spelling: &mut Spelling,
    code: u8,
    records: Lent<'_, R>,
)
    requires kind { IsRecord R.SIZE R.spelled R.fits R.read_at }
    requires most { AreAtMost R.SIZE MOST records }
    requires room { R.SIZE * MOST ≤ MAX_DATA }
    requires bound { MAX_DATA < R.SIZE * (MOST + 1) }
    ensures spelled { spelling.new.items ≡ code ∷ flat_map R.spelled (lent_records R.read_at R.SIZE records.entry) }
    ensures fits { All R.fits (lent_records R.read_at R.SIZE records.entry) }
{
    match records {
        Lent::Records(records) => put_records(spelling, code, records),
        Lent::Bytes(bytes) => put_bytes(spelling, code, bytes),
    }
}
