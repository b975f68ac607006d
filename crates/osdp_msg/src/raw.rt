//! A card's bits as they were read.

ghost use Rattle.std.specs.Prelude.{◌≡◌, ◌∷◌, ◌+◌, ◌-◌, ◌/◌, ◌≤◌, codes, drop, length};
ghost use Rattle.std.specs.Fmt.{WritesOnOk};
ghost use Rattle.byteorder.specs.Endian.{little_number};
ghost use Rattle.osdp_words.specs.Reading.{ReadsWords};
ghost use Rattle.osdp_words.specs.Word.{plain, text_of};
ghost use Rattle.osdp_msg.specs.Raw.{raw_card};
ghost use Rattle.osdp_msg.specs.ReplyFields.{RawFits, raw_at, raw_data, raw_words};

use crate::limits::{MAX_CARD_BYTES, MAX_DATA};
use crate::parsing::take_list;
use crate::spelling::{Spelling, append, append_u16, put_bytes, rest};
use byteorder::{ByteOrder, LittleEndian};
use osdp_words::{ByteList, Fields};
use std::fmt;
use std::marker::Model;

/// The bits of a card, in as many bytes as they need. The unused bits of the last byte are kept as read.
#[derive(Debug, Drop)]
pub struct Raw<'a> {
    reader: u8,
    format: u8,
    bits: u16,
    bytes: &'a [u8],
}

impl<'a> Model for Raw<'a> {
    ghost use Rattle.osdp_msg.specs.Raw.{IsCard, RawCard};

    ghost Value = { RawCard };

    ghost view = { λ r. record { reader = r.reader; format = r.format; bits = r.bits; bytes = r.bytes.now } };

    ghost invariant = { λ r. IsCard r.bits r.bytes.now };
}

impl<'a> Raw<'a> {
    /// A card's bits, read at this reader of the device. None where the bytes aren't as many as the bits need, or are more than 1,428.
    pub fn new(reader: u8, format: u8, bits: u16, bytes: &'a [u8]) -> Option<Raw<'a>>
        ensures { result ≡ raw_card reader format bits bytes.now }
    {
        if bytes.len() > MAX_CARD_BYTES || bytes.len() != (usize::from(bits) + 7) / 8 {
            return None;
        }
        Some(Raw {
            reader,
            format,
            bits,
            bytes,
        })
    }

    /// Which reader of the device.
    pub fn reader(&self) -> u8
        ensures { result ≡ self.now.reader }
    {
        self.reader
    }

    /// How the bits are to be understood.
    pub fn format(&self) -> u8
        ensures { result ≡ self.now.format }
    {
        self.format
    }

    /// How many bits there are.
    pub fn bits(&self) -> u16
        ensures { result ≡ self.now.bits }
    {
        self.bits
    }

    /// The bits, the first in the highest place of the first byte.
    pub fn bytes(&self) -> &'a [u8]
        ensures value { result.now ≡ self.now.bytes }
        ensures len { length self.now.bytes ≡ (self.now.bits + 7) / 8 }
        ensures room { length self.now.bytes ≤ MAX_CARD_BYTES }
    {
        self.bytes
    }

    pub(crate) fn read(bytes: &'a [u8]) -> Raw<'a>
        requires some { 4 ≤ length bytes.now }
        requires room { length bytes.now ≤ MAX_DATA }
        requires needed { (little_number 2 (drop 2 bytes.now) + 7) / 8 ≡ length bytes.now - 4 }
        ensures { result ≡ raw_at bytes.now }
    {
        Raw {
            reader: bytes[0],
            format: bytes[1],
            bits: LittleEndian::read_u16(rest(bytes, 2)),
            bytes: rest(bytes, 4),
        }
    }

    /// Puts the message in place of what stands in `spelling`.
    pub(crate) fn write_into(&self, spelling: &mut Spelling)
        ensures spelled { spelling.new.items ≡ 0x50 ∷ raw_data self.now }
        ensures fits { RawFits self.now }
    {
        put_bytes(spelling, 0x50, &[self.reader, self.format]);
        append_u16(spelling, self.bits);
        append(spelling, self.bytes);
    }

    /// The card whose text has these words. Its bytes stand in `place` then.
    pub(crate) fn parse(mut fields: Fields<'_>, place: &'a mut Spelling) -> Option<Raw<'a>>
        ensures { ReadsWords raw_words RawFits fields.entry result }
    {
        let [reader, format] = fields.numbers_u8::<2>()?;
        let bits = fields.number_u16()?;
        let bytes = take_list(&mut fields, MAX_CARD_BYTES, place)?;
        if !fields.is_empty() {
            return None;
        }
        Raw::new(reader, format, bits, bytes.bytes())
    }

    /// The same card, lent again.
    pub fn copy(&self) -> Raw<'a>
        ensures { result ≡ self.now }
    {
        Raw {
            reader: self.reader,
            format: self.format,
            bits: self.bits,
            bytes: self.bytes,
        }
    }

    pub(crate) fn print<W: fmt::Write>(&self, f: &mut fmt::Formatter<W>) -> fmt::Result
        ensures { WritesOnOk W.write_str_gives f.old result (text_of (plain (codes "RAW") ∷ raw_words self.now)) f.new }
    {
        let (reader, format, bits) = (self.reader, self.format, self.bits);
        let bytes = ByteList(self.bytes);
        write!(f, "RAW {reader} {format} {bits} {bytes}")
    }
}
