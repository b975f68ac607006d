//! Pieces that are records.

ghost use Rattle.std.specs.Prelude.{◌≡◌, ◌++◌, ◌∷◌, codes, map, slice_get};
ghost use Rattle.std.specs.List.{flat_map};
ghost use Rattle.osdp_words.specs.Word.{numbers, plain, printed, text_of};
ghost use Rattle.osdp_msg.specs.CommandFields.{led_word, output_word};
ghost use Rattle.osdp_msg.specs.ReplyFields.{capability_word};
ghost use Rattle.osdp_c_values.specs.Pieces.{IsPut};

use crate::pieces::{MAX_TEXT, NoRoom, numbers_of, put, put_decimal, put_numbers};
use osdp_msg::{Capability, LedRecord, OutputRecord, Record, Records};

/// Puts a record of numbers, after a space.
fn put_record(out: &mut [u8], at: usize, first: u8, others: &[u32]) -> Result<usize, NoRoom>
    ensures { IsPut MAX_TEXT at out.old result out.new (codes " " ++ printed (numbers (first ∷ others.now))) }
{
    let number = put(out, at, " ")?;
    let rest = put_decimal(out, number, u32::from(first))?;
    put_numbers(out, rest, ":", others)
}

/// What a record is in a text.
pub(crate) trait Recorded: Record {
    ghost use Rattle.osdp_words.specs.Word.{Word};

    /// Its word, as it is put.
    ghost put_as: { Self → Word };

    /// Puts its word, after a space.
    fn put_word(&self, out: &mut [u8], at: usize) -> Result<usize, NoRoom>
        ensures { IsPut MAX_TEXT at out.old result out.new (codes " " ++ printed (put_as self.now)) };
}

impl Recorded for OutputRecord {
    ghost put_as = { output_word };

    fn put_word(&self, out: &mut [u8], at: usize) -> Result<usize, NoRoom> {
        put_record(out, at, self.output, &numbers_of!(self: control timer))
    }
}

impl Recorded for LedRecord {
    ghost put_as = { led_word };

    fn put_word(&self, out: &mut [u8], at: usize) -> Result<usize, NoRoom> {
        let others = numbers_of!(self:
            led temporary_control temporary_on_time temporary_off_time temporary_on_color temporary_off_color timer
            permanent_control permanent_on_time permanent_off_time permanent_on_color permanent_off_color);
        put_record(out, at, self.reader, &others)
    }
}

impl Recorded for Capability {
    ghost put_as = { capability_word };

    fn put_word(&self, out: &mut [u8], at: usize) -> Result<usize, NoRoom> {
        put_record(out, at, self.function, &numbers_of!(self: level count))
    }
}

/// Puts records, each after a space.
fn put_words<R: Recorded>(
    out: &mut [u8],
    at: usize,
    records: Records<'_, R>,
) -> Result<usize, NoRoom>
    ensures { IsPut MAX_TEXT at out.old result out.new (flat_map (λ r. codes " " ++ printed (R.put_as r)) records.entry) }
{
    let (mut left, mut end) = (records, at);
    'records: while let Some(record) = left.next() {
        end = record.put_word(out, end)?;
    }
    Ok(end)
}

/// Puts a name and records.
pub(crate) fn put_records<R: Recorded>(
    out: &mut [u8],
    at: usize,
    name: &str,
    records: Records<'_, R>,
) -> Result<usize, NoRoom>
    ensures { IsPut MAX_TEXT at out.old result out.new (text_of (plain name.now ∷ map R.put_as records.entry)) }
{
    let first = put(out, at, name)?;
    put_words(out, first, records)
}

/// The record at a place, counted from 0. None where there are no more than so many.
pub(crate) fn record_at<R: Record>(records: Records<'_, R>, at: usize) -> Option<R>
    ensures { result ≡ slice_get records.entry at }
{
    let (mut left, mut before) = (records, at);
    'records: while let Some(record) = left.next() {
        if before == 0 {
            return Some(record);
        }
        before -= 1;
    }
    None
}
