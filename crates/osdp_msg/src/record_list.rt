//! The records of a command: one at least.

ghost use Rattle.std.specs.Prelude.{◌≡◌, ◌<◌, ◌≤◌, ◌+◌, ◌*◌, ◌%◌, ◌∷◌, length, map};
ghost use Rattle.std.specs.Fmt.{WritesOnOk};
ghost use Rattle.osdp_words.specs.Reading.{ReadsWords};
ghost use Rattle.osdp_words.specs.Word.{plain, text_of};
ghost use Rattle.std.specs.List.{All, flat_map};
ghost use Rattle.osdp_msg.specs.CommandFields.{records_within};
ghost use Rattle.osdp_msg.specs.Records.{IsRecord, records_at};

use crate::lent::{Lent, Records};
use crate::limits::MAX_DATA;
use crate::parsing::read_records;
use crate::printing::print_records;
use crate::records::{Record, put_lent};
use crate::spelling::Spelling;
use osdp_words::Fields;
use std::fmt;
use std::marker::Model;

/// One record at least, and at most `MOST`, as many as a packet has room for.
#[derive(Debug, Drop)]
pub struct RecordList<'a, R: Record, const MOST: usize> {
    records: Lent<'a, R>,
}

impl<'a, R: Record, const MOST: usize> Model for RecordList<'a, R, MOST> {
    ghost use Rattle.std.specs.Prelude.{List, ◌<◌, length};
    ghost use Rattle.osdp_msg.specs.Lending.{AreAtMost, lent_records};

    ghost Value = { List R };

    ghost view = { λ l. lent_records R.read_at R.SIZE l.records };

    ghost invariant = { λ l. (0 < length (lent_records R.read_at R.SIZE l.records)) × AreAtMost R.SIZE MOST l.records };
}

impl<'a, R: Record, const MOST: usize> RecordList<'a, R, MOST> {
    /// These records. None where there is none, or more than `MOST`.
    pub fn new(records: &'a [R]) -> Option<RecordList<'a, R, MOST>>
        ensures { result ≡ records_within MOST records.now }
    {
        if records.is_empty() || records.len() > MOST {
            return None;
        }
        Some(RecordList {
            records: Lent::Records(records),
        })
    }

    /// The records: one at least.
    pub fn records(&self) -> Records<'a, R>
        ensures value { result ≡ self.now }
        ensures some { 0 < length self.now }
        ensures room { length self.now ≤ MOST }
    {
        Records::new(self.records)
    }

    /// The records that the bytes are.
    pub(crate) fn read(bytes: &'a [u8]) -> RecordList<'a, R, MOST>
        requires some { R.SIZE ≤ length bytes.now }
        requires room { length bytes.now < R.SIZE * (MOST + 1) }
        requires whole { length bytes.now % R.SIZE ≡ 0 }
        ensures { result ≡ records_at R.read_at R.SIZE bytes.now }
    {
        RecordList {
            records: Lent::Bytes(bytes),
        }
    }

    /// Puts a message of these records in place of what stands in `spelling`.
    pub(crate) fn write_into(&self, spelling: &mut Spelling, code: u8)
        requires kind { IsRecord R.SIZE R.spelled R.fits R.read_at }
        requires room { R.SIZE * MOST ≤ MAX_DATA }
        requires bound { MAX_DATA < R.SIZE * (MOST + 1) }
        ensures spelled { spelling.new.items ≡ code ∷ flat_map R.spelled self.now }
        ensures some { 0 < length self.now }
        ensures room { length self.now ≤ MOST }
        ensures fits { All R.fits self.now }
    {
        put_lent::<R, MOST>(spelling, code, self.records);
    }

    /// The records that the words are, each a word of its own. They stand in `place` then.
    pub(crate) fn parse(
        fields: Fields<'_>,
        place: &'a mut Spelling,
    ) -> Option<RecordList<'a, R, MOST>>
        requires kind { IsRecord R.SIZE R.spelled R.fits R.read_at }
        requires room { R.SIZE * MOST ≤ MAX_DATA }
        ensures { ReadsWords (λ records. map R.word records) (λ records. (0 < length records) × (length records ≤ MOST) × All R.fits records) fields.entry result }
    {
        if !read_records::<R, MOST>(fields, place) || place.is_empty() {
            return None;
        }
        Some(RecordList::read(place.as_slice()))
    }

    /// The same records, lent again.
    pub fn copy(&self) -> RecordList<'a, R, MOST>
        ensures { result ≡ self.now }
    {
        RecordList {
            records: self.records,
        }
    }

    pub(crate) fn print<W: fmt::Write>(&self, f: &mut fmt::Formatter<W>, name: &str) -> fmt::Result
        ensures { WritesOnOk W.write_str_gives f.old result (text_of (plain name.now ∷ map R.word self.now)) f.new }
    {
        print_records(f, name, self.records())
    }
}
