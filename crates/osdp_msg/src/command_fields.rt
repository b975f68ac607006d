//! The fields of commands, and of the replies that have the same.

ghost use Rattle.std.specs.Prelude.{◌≡◌, ◌≤◌, ◌∷◌, [], codes, length, nat_le};
ghost use Rattle.std.specs.Bool.{then_some};
ghost use Rattle.std.specs.Fmt.{WritesOnOk};
ghost use Rattle.osdp_words.specs.Reading.{ReadsWords};
ghost use Rattle.osdp_words.specs.Word.{plain, text_of};
ghost use Rattle.osdp_msg.specs.CommandFields.{BuzzerFits, buzzer_at, buzzer_data, buzzer_words, TextFits, text_at, text_data, text_words, CommunicationFits, communication_at, communication_data, communication_words, MakerFits, maker_at, maker_data, maker_words};
ghost use Rattle.osdp_msg.specs.ListedCommands.{HasLength};

use crate::limits::{MAX_DATA, MAX_MAKER_BYTES};
use crate::parsing::{parse_numbers, take_list};
use crate::spelling::{Spelling, append, append_u32, put_byte, put_bytes, rest};
use byteorder::{ByteOrder, LittleEndian};
use osdp_words::{ByteList, Fields};
use std::fmt;
use std::marker::Model;

/// How the buzzer of a reader sounds.
#[derive(Clone, Copy, Debug, PartialEq, Eq)]
pub struct Buzzer {
    /// The reader of the device, counted from 0.
    pub reader: u8,
    /// 0 none, 1 off, 2 default.
    pub tone: u8,
    /// In 100 ms.
    pub on_time: u8,
    /// In 100 ms.
    pub off_time: u8,
    /// How often; 0 means until another command.
    pub count: u8,
}

impl Buzzer {
    pub(crate) fn read(bytes: &[u8]) -> Buzzer
        requires { length bytes.now ≡ 5 }
        ensures { result ≡ buzzer_at bytes.now }
    {
        Buzzer {
            reader: bytes[0],
            tone: bytes[1],
            on_time: bytes[2],
            off_time: bytes[3],
            count: bytes[4],
        }
    }

    /// Puts the message in place of what stands in `spelling`.
    pub(crate) fn write_into(self, spelling: &mut Spelling)
        ensures spelled { spelling.new.items ≡ 0x6A ∷ buzzer_data self }
        ensures fits { BuzzerFits self }
    {
        let data = [
            self.reader,
            self.tone,
            self.on_time,
            self.off_time,
            self.count,
        ];
        put_bytes(spelling, 0x6A, &data);
    }

    /// The buzzer's message whose text has these words.
    pub(crate) fn parse(fields: Fields<'_>) -> Option<Buzzer>
        ensures { ReadsWords buzzer_words BuzzerFits fields.entry result }
    {
        let [reader, tone, on_time, off_time, count] = parse_numbers::<5>(fields)?;
        Some(Buzzer {
            reader,
            tone,
            on_time,
            off_time,
            count,
        })
    }

    pub(crate) fn print<W: fmt::Write>(self, f: &mut fmt::Formatter<W>) -> fmt::Result
        ensures { WritesOnOk W.write_str_gives f.old result (text_of (plain (codes "BUZ") ∷ buzzer_words self)) f.new }
    {
        let Buzzer {
            reader,
            tone,
            on_time,
            off_time,
            count,
        } = self;
        write!(f, "BUZ {reader} {tone} {on_time} {off_time} {count}")
    }
}

/// What the display of a reader shows.
#[derive(Debug, Drop)]
pub struct Text<'a> {
    reader: u8,
    command: u8,
    time: u8,
    row: u8,
    column: u8,
    characters: &'a [u8],
}

impl<'a> Model for Text<'a> {
    ghost use Rattle.std.specs.Prelude.{◌≤◌, length};
    ghost use Rattle.osdp_msg.specs.Values.{TextValue};

    ghost Value = { TextValue };

    ghost view = { λ t. record { reader = t.reader; command = t.command; time = t.time; row = t.row; column = t.column; characters = record { items = t.characters.now } } };

    ghost invariant = { λ t. length t.characters.now ≤ 255 };
}

impl<'a> Text<'a> {
    /// A text of these characters, 0 to 255 bytes, at a place of a display. None where they are more.
    pub fn new(
        reader: u8,
        command: u8,
        time: u8,
        row: u8,
        column: u8,
        characters: &'a [u8],
    ) -> Option<Text<'a>>
        ensures { result ≡ then_some (nat_le (length characters.now) 255) (record { reader = reader; command = command; time = time; row = row; column = column; characters = record { items = characters.now } }) }
    {
        if characters.len() > 255 {
            return None;
        }
        Some(Text {
            reader,
            command,
            time,
            row,
            column,
            characters,
        })
    }

    /// The reader of the device, counted from 0.
    pub fn reader(&self) -> u8
        ensures { result ≡ self.now.reader }
    {
        self.reader
    }

    /// 1 permanent, 2 permanent with wrap, 3 temporary, 4 temporary with wrap.
    pub fn command(&self) -> u8
        ensures { result ≡ self.now.command }
    {
        self.command
    }

    /// In seconds, of a temporary text.
    pub fn time(&self) -> u8
        ensures { result ≡ self.now.time }
    {
        self.time
    }

    /// The row of the first character, counted from 1.
    pub fn row(&self) -> u8
        ensures { result ≡ self.now.row }
    {
        self.row
    }

    /// The column of the first character, counted from 1.
    pub fn column(&self) -> u8
        ensures { result ≡ self.now.column }
    {
        self.column
    }

    /// The characters, 0 to 255 bytes.
    pub fn characters(&self) -> &'a [u8]
        ensures value { result.now ≡ self.now.characters.items }
        ensures room { length self.now.characters.items ≤ 255 }
    {
        self.characters
    }

    pub(crate) fn read(bytes: &'a [u8]) -> Text<'a>
        requires { HasLength 6 261 bytes.now }
        ensures { result ≡ text_at bytes.now }
    {
        Text {
            reader: bytes[0],
            command: bytes[1],
            time: bytes[2],
            row: bytes[3],
            column: bytes[4],
            characters: rest(bytes, 6),
        }
    }

    /// The same text, lent again.
    pub fn copy(&self) -> Text<'a>
        ensures { result ≡ self.now }
    {
        let Text {
            reader,
            command,
            time,
            row,
            column,
            characters,
        } = *self;
        Text {
            reader,
            command,
            time,
            row,
            column,
            characters,
        }
    }

    /// Puts the message in place of what stands in `spelling`.
    pub(crate) fn write_into(&self, spelling: &mut Spelling)
        ensures spelled { spelling.new.items ≡ 0x6B ∷ text_data self.now }
        ensures fits { TextFits self.now }
    {
        let count = self.characters.len() as u8;
        let front = [
            self.reader,
            self.command,
            self.time,
            self.row,
            self.column,
            count,
        ];
        put_bytes(spelling, 0x6B, &front);
        append(spelling, self.characters);
    }

    /// The text's message whose text has these words. Its characters stand in `place` then.
    pub(crate) fn parse(mut fields: Fields<'_>, place: &'a mut Spelling) -> Option<Text<'a>>
        ensures { ReadsWords text_words TextFits fields.entry result }
    {
        let [reader, command, time, row, column] = fields.numbers_u8::<5>()?;
        let characters = take_list(&mut fields, 255, place)?;
        if !fields.is_empty() {
            return None;
        }
        Text::new(reader, command, time, row, column, characters.bytes())
    }

    pub(crate) fn print<W: fmt::Write>(&self, f: &mut fmt::Formatter<W>) -> fmt::Result
        ensures { WritesOnOk W.write_str_gives f.old result (text_of (plain (codes "TEXT") ∷ text_words self.now)) f.new }
    {
        let (reader, command, time) = (self.reader, self.command, self.time);
        let (row, column) = (self.row, self.column);
        let characters = ByteList(self.characters);
        write!(
            f,
            "TEXT {reader} {command} {time} {row} {column} {characters}"
        )
    }
}

/// How a device communicates, as the controller sets it and the device confirms it.
#[derive(Clone, Copy, Debug, PartialEq, Eq)]
pub struct Communication {
    /// The device's new address; one above 126 is refused.
    pub address: u8,
    /// In bits per second.
    pub baud_rate: u32,
}

impl Communication {
    pub(crate) fn read(bytes: &[u8]) -> Communication
        requires { length bytes.now ≡ 5 }
        ensures { result ≡ communication_at bytes.now }
    {
        Communication {
            address: bytes[0],
            baud_rate: LittleEndian::read_u32(rest(bytes, 1)),
        }
    }

    /// Puts the message with this code in place of what stands in `spelling`.
    pub(crate) fn write_into(self, spelling: &mut Spelling, code: u8)
        ensures spelled { spelling.new.items ≡ code ∷ communication_data self }
        ensures fits { CommunicationFits self }
    {
        put_byte(spelling, code, self.address);
        append_u32(spelling, self.baud_rate);
    }

    /// The address and baud rate whose text has these words.
    pub(crate) fn parse(mut fields: Fields<'_>) -> Option<Communication>
        ensures { ReadsWords communication_words CommunicationFits fields.entry result }
    {
        let address = fields.number_u8()?;
        let baud_rate = fields.number_u32()?;
        fields
            .is_empty()
            .then_some(Communication { address, baud_rate })
    }

    pub(crate) fn print<W: fmt::Write>(self, f: &mut fmt::Formatter<W>, name: &str) -> fmt::Result
        ensures { WritesOnOk W.write_str_gives f.old result (text_of (plain name.now ∷ communication_words self)) f.new }
    {
        let Communication { address, baud_rate } = self;
        write!(f, "{name} {address} {baud_rate}")
    }
}

/// A message of a device's maker, with the maker's code in front.
#[derive(Debug, Drop)]
pub struct MakerMessage<'a> {
    vendor: [u8; 3],
    bytes: &'a [u8],
}

impl<'a> Model for MakerMessage<'a> {
    ghost use Rattle.std.specs.Prelude.{◌≤◌, length};
    ghost use Rattle.osdp_msg.specs.Limits.{most_maker_bytes};
    ghost use Rattle.osdp_msg.specs.Values.{MakerValue};

    ghost Value = { MakerValue };

    ghost view = { λ m. record { vendor = m.vendor; bytes = record { items = m.bytes.now } } };

    ghost invariant = { λ m. length m.bytes.now ≤ most_maker_bytes };
}

impl<'a> MakerMessage<'a> {
    /// A maker's message. None where it has more than 1,429 bytes.
    pub fn new(vendor: [u8; 3], bytes: &'a [u8]) -> Option<MakerMessage<'a>>
        ensures { result ≡ then_some (nat_le (length bytes.now) MAX_MAKER_BYTES) (record { vendor = vendor; bytes = record { items = bytes.now } }) }
    {
        if bytes.len() > MAX_MAKER_BYTES {
            return None;
        }
        Some(MakerMessage { vendor, bytes })
    }

    /// The maker's code, three bytes.
    pub fn vendor(&self) -> [u8; 3]
        ensures { result ≡ self.now.vendor }
    {
        self.vendor
    }

    /// What follows it, 0 to 1,429 bytes.
    pub fn bytes(&self) -> &'a [u8]
        ensures value { result.now ≡ self.now.bytes.items }
        ensures room { length self.now.bytes.items ≤ MAX_MAKER_BYTES }
    {
        self.bytes
    }

    pub(crate) fn read(bytes: &'a [u8]) -> MakerMessage<'a>
        requires { HasLength 3 MAX_DATA bytes.now }
        ensures { result ≡ maker_at bytes.now }
    {
        MakerMessage {
            vendor: [bytes[0], bytes[1], bytes[2]],
            bytes: rest(bytes, 3),
        }
    }

    /// Puts the message with this code in place of what stands in `spelling`.
    pub(crate) fn write_into(&self, spelling: &mut Spelling, code: u8)
        ensures spelled { spelling.new.items ≡ code ∷ maker_data self.now }
        ensures fits { MakerFits self.now }
    {
        put_bytes(spelling, code, &self.vendor);
        append(spelling, self.bytes);
    }

    /// The maker's message whose text has these words. Its bytes stand in `place` then.
    pub(crate) fn parse(mut fields: Fields<'_>, place: &'a mut Spelling) -> Option<MakerMessage<'a>>
        ensures { ReadsWords maker_words MakerFits fields.entry result }
    {
        let vendor = fields.vendor()?;
        let bytes = take_list(&mut fields, MAX_MAKER_BYTES, place)?;
        if !fields.is_empty() {
            return None;
        }
        MakerMessage::new(vendor, bytes.bytes())
    }

    /// The same message, lent again.
    pub fn copy(&self) -> MakerMessage<'a>
        ensures { result ≡ self.now }
    {
        MakerMessage {
            vendor: self.vendor,
            bytes: self.bytes,
        }
    }

    pub(crate) fn print<W: fmt::Write>(&self, f: &mut fmt::Formatter<W>, name: &str) -> fmt::Result
        ensures { WritesOnOk W.write_str_gives f.old result (text_of (plain name.now ∷ maker_words self.now)) f.new }
    {
        let vendor = ByteList(&self.vendor);
        let bytes = ByteList(self.bytes);
        write!(f, "{name} {vendor} {bytes}")
    }
}
