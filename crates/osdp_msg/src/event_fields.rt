//! The fields of events: cards, keys and states.

ghost use Rattle.std.specs.Prelude.{◌≡◌, ◌≤◌, ◌∷◌, [], codes, length, nat_le};
ghost use Rattle.std.specs.Bool.{then_some};
ghost use Rattle.std.specs.Fmt.{WritesOnOk};
ghost use Rattle.osdp_words.specs.Reading.{ReadsWords};
ghost use Rattle.osdp_words.specs.Word.{plain, text_of};
ghost use Rattle.osdp_msg.specs.ListedCommands.{HasLength};
ghost use Rattle.osdp_msg.specs.ReplyTable.{StatesFit};
ghost use Rattle.osdp_msg.specs.ReplyFields.{FormattedFits, formatted_at, formatted_data, formatted_words, KeypadFits, keypad_at, keypad_data, keypad_words};

use crate::limits::MAX_DATA;
use crate::parsing::take_list;
use crate::spelling::{Spelling, append, put_bytes, rest};
use osdp_words::{ByteList, Fields};
use std::fmt;
use std::marker::Model;

/// A card as the reader formatted it.
#[derive(Debug, Drop)]
pub struct Formatted<'a> {
    reader: u8,
    direction: u8,
    digits: &'a [u8],
}

impl<'a> Model for Formatted<'a> {
    ghost use Rattle.std.specs.Prelude.{◌≤◌, length};
    ghost use Rattle.osdp_msg.specs.Values.{FormattedValue};

    ghost Value = { FormattedValue };

    ghost view = { λ f. record { reader = f.reader; direction = f.direction; digits = record { items = f.digits.now } } };

    ghost invariant = { λ f. length f.digits.now ≤ 255 };
}

impl<'a> Formatted<'a> {
    /// A card of these characters, 0 to 255 bytes. None where they are more.
    pub fn new(reader: u8, direction: u8, digits: &'a [u8]) -> Option<Formatted<'a>>
        ensures { result ≡ then_some (nat_le (length digits.now) 255) (record { reader = reader; direction = direction; digits = record { items = digits.now } }) }
    {
        if digits.len() > 255 {
            return None;
        }
        Some(Formatted {
            reader,
            direction,
            digits,
        })
    }

    /// The reader of the device, counted from 0.
    pub fn reader(&self) -> u8
        ensures { result ≡ self.now.reader }
    {
        self.reader
    }

    /// 0 forward, 1 backward.
    pub fn direction(&self) -> u8
        ensures { result ≡ self.now.direction }
    {
        self.direction
    }

    /// The characters of the card, 0 to 255 bytes.
    pub fn digits(&self) -> &'a [u8]
        ensures value { result.now ≡ self.now.digits.items }
        ensures room { length self.now.digits.items ≤ 255 }
    {
        self.digits
    }

    pub(crate) fn read(bytes: &'a [u8]) -> Formatted<'a>
        requires { HasLength 3 258 bytes.now }
        ensures { result ≡ formatted_at bytes.now }
    {
        Formatted {
            reader: bytes[0],
            direction: bytes[1],
            digits: rest(bytes, 3),
        }
    }

    /// Puts the message in place of what stands in `spelling`.
    pub(crate) fn write_into(&self, spelling: &mut Spelling)
        ensures spelled { spelling.new.items ≡ 0x51 ∷ formatted_data self.now }
        ensures fits { FormattedFits self.now }
    {
        let count = self.digits.len() as u8;
        put_bytes(spelling, 0x51, &[self.reader, self.direction, count]);
        append(spelling, self.digits);
    }

    /// The card whose text has these words. Its characters stand in `place` then.
    pub(crate) fn parse(mut fields: Fields<'_>, place: &'a mut Spelling) -> Option<Formatted<'a>>
        ensures { ReadsWords formatted_words FormattedFits fields.entry result }
    {
        let [reader, direction] = fields.numbers_u8::<2>()?;
        let digits = take_list(&mut fields, 255, place)?;
        if !fields.is_empty() {
            return None;
        }
        Formatted::new(reader, direction, digits.bytes())
    }

    /// The same card, lent again.
    pub fn copy(&self) -> Formatted<'a>
        ensures { result ≡ self.now }
    {
        Formatted {
            reader: self.reader,
            direction: self.direction,
            digits: self.digits,
        }
    }

    pub(crate) fn print<W: fmt::Write>(&self, f: &mut fmt::Formatter<W>) -> fmt::Result
        ensures { WritesOnOk W.write_str_gives f.old result (text_of (plain (codes "FMT") ∷ formatted_words self.now)) f.new }
    {
        let (reader, direction) = (self.reader, self.direction);
        let digits = ByteList(self.digits);
        write!(f, "FMT {reader} {direction} {digits}")
    }
}

/// Keys that were pressed.
#[derive(Debug, Drop)]
pub struct Keypad<'a> {
    reader: u8,
    digits: &'a [u8],
}

impl<'a> Model for Keypad<'a> {
    ghost use Rattle.std.specs.Prelude.{◌≤◌, length};
    ghost use Rattle.osdp_msg.specs.Values.{KeypadValue};

    ghost Value = { KeypadValue };

    ghost view = { λ k. record { reader = k.reader; digits = record { items = k.digits.now } } };

    ghost invariant = { λ k. length k.digits.now ≤ 255 };
}

impl<'a> Keypad<'a> {
    /// These keys, 0 to 255. None where they are more.
    pub fn new(reader: u8, digits: &'a [u8]) -> Option<Keypad<'a>>
        ensures { result ≡ then_some (nat_le (length digits.now) 255) (record { reader = reader; digits = record { items = digits.now } }) }
    {
        if digits.len() > 255 {
            return None;
        }
        Some(Keypad { reader, digits })
    }

    /// The reader of the device, counted from 0.
    pub fn reader(&self) -> u8
        ensures { result ≡ self.now.reader }
    {
        self.reader
    }

    /// The keys in their order, 0 to 255 bytes.
    pub fn digits(&self) -> &'a [u8]
        ensures value { result.now ≡ self.now.digits.items }
        ensures room { length self.now.digits.items ≤ 255 }
    {
        self.digits
    }

    pub(crate) fn read(bytes: &'a [u8]) -> Keypad<'a>
        requires { HasLength 2 257 bytes.now }
        ensures { result ≡ keypad_at bytes.now }
    {
        Keypad {
            reader: bytes[0],
            digits: rest(bytes, 2),
        }
    }

    /// Puts the message in place of what stands in `spelling`.
    pub(crate) fn write_into(&self, spelling: &mut Spelling)
        ensures spelled { spelling.new.items ≡ 0x53 ∷ keypad_data self.now }
        ensures fits { KeypadFits self.now }
    {
        let count = self.digits.len() as u8;
        put_bytes(spelling, 0x53, &[self.reader, count]);
        append(spelling, self.digits);
    }

    /// The keys whose text has these words. Their digits stand in `place` then.
    pub(crate) fn parse(mut fields: Fields<'_>, place: &'a mut Spelling) -> Option<Keypad<'a>>
        ensures { ReadsWords keypad_words KeypadFits fields.entry result }
    {
        let reader = fields.number_u8()?;
        let digits = take_list(&mut fields, 255, place)?;
        if !fields.is_empty() {
            return None;
        }
        Keypad::new(reader, digits.bytes())
    }

    /// The same keys, lent again.
    pub fn copy(&self) -> Keypad<'a>
        ensures { result ≡ self.now }
    {
        Keypad {
            reader: self.reader,
            digits: self.digits,
        }
    }

    pub(crate) fn print<W: fmt::Write>(&self, f: &mut fmt::Formatter<W>) -> fmt::Result
        ensures { WritesOnOk W.write_str_gives f.old result (text_of (plain (codes "KEYPAD") ∷ keypad_words self.now)) f.new }
    {
        let reader = self.reader;
        let digits = ByteList(self.digits);
        write!(f, "KEYPAD {reader} {digits}")
    }
}

/// A byte for each input, output or reader.
#[derive(Debug, Drop)]
pub struct States<'a> {
    bytes: &'a [u8],
}

impl<'a> Model for States<'a> {
    ghost use Rattle.std.specs.Prelude.{◌≤◌, length};
    ghost use Rattle.osdp_msg.specs.Limits.{most_data};
    ghost use Rattle.osdp_msg.specs.Values.{Held};

    ghost Value = { Held };

    ghost view = { λ s. record { items = s.bytes.now } };

    ghost invariant = { λ s. length s.bytes.now ≤ most_data };
}

impl<'a> States<'a> {
    /// These states, 0 to 1,432 bytes. None where they are more.
    pub fn new(bytes: &'a [u8]) -> Option<States<'a>>
        ensures { result ≡ then_some (nat_le (length bytes.now) MAX_DATA) (record { items = bytes.now }) }
    {
        if bytes.len() > MAX_DATA {
            return None;
        }
        Some(States { bytes })
    }

    /// No states.
    pub fn none() -> States<'a>
        ensures { result.items ≡ [] }
    {
        States { bytes: &[] }
    }

    /// The states, 0 to 1,432 bytes.
    pub fn bytes(&self) -> &'a [u8]
        ensures value { result.now ≡ self.now.items }
        ensures room { length self.now.items ≤ MAX_DATA }
    {
        self.bytes
    }

    pub(crate) fn read(bytes: &'a [u8]) -> States<'a>
        requires { length bytes.now ≤ MAX_DATA }
        ensures { result.items ≡ bytes.now }
    {
        States { bytes }
    }

    /// Puts the message with this code in place of what stands in `spelling`.
    pub(crate) fn write_into(&self, spelling: &mut Spelling, code: u8)
        ensures spelled { spelling.new.items ≡ code ∷ self.now.items }
        ensures fits { StatesFit self.now.items }
    {
        put_bytes(spelling, code, self.bytes);
    }

    /// The same states, lent again.
    pub fn copy(&self) -> States<'a>
        ensures { result ≡ self.now }
    {
        States { bytes: self.bytes }
    }
}
