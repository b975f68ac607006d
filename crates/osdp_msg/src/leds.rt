//! LEDs, and what a command tells them.

use crate::record_list::RecordList;
use crate::records::Record;
use crate::spelling::{Spelling, append, append_u16, rest};
use byteorder::{ByteOrder, LittleEndian};
use std::fmt;

/// What one LED of a reader is to do. Times are in 100 ms. Colors: 0 off, 1 red, 2 green, 3 amber, 4 blue,
/// 5 magenta, 6 cyan, 7 white.
#[derive(Clone, Copy, Debug, Default, PartialEq, Eq)]
pub struct LedRecord {
    /// The reader of the device, counted from 0.
    pub reader: u8,
    /// The LED of the reader, counted from 0.
    pub led: u8,
    /// 0 nothing, 1 cancel, 2 set.
    pub temporary_control: u8,
    /// In 100 ms.
    pub temporary_on_time: u8,
    /// In 100 ms.
    pub temporary_off_time: u8,
    /// 0 to 7, as above.
    pub temporary_on_color: u8,
    /// 0 to 7, as above.
    pub temporary_off_color: u8,
    /// How long the temporary state lasts.
    pub timer: u16,
    /// 0 nothing, 1 set.
    pub permanent_control: u8,
    /// In 100 ms.
    pub permanent_on_time: u8,
    /// In 100 ms.
    pub permanent_off_time: u8,
    /// 0 to 7, as above.
    pub permanent_on_color: u8,
    /// 0 to 7, as above.
    pub permanent_off_color: u8,
}

impl fmt::Display for LedRecord {
    ghost use Rattle.std.specs.Prelude.{Some};
    ghost use Rattle.osdp_words.specs.Word.{printed};
    ghost use Rattle.osdp_msg.specs.CommandFields.{led_word};

    ghost output = { λ r. Some (printed (led_word r)) };

    /// The numbers of the record, joined by colons.
    fn fmt<W: fmt::Write>(&self, f: &mut fmt::Formatter<W>) -> fmt::Result {
        let numbers = [
            u16::from(self.reader),
            u16::from(self.led),
            u16::from(self.temporary_control),
            u16::from(self.temporary_on_time),
            u16::from(self.temporary_off_time),
            u16::from(self.temporary_on_color),
            u16::from(self.temporary_off_color),
            self.timer,
            u16::from(self.permanent_control),
            u16::from(self.permanent_on_time),
            u16::from(self.permanent_off_time),
            u16::from(self.permanent_on_color),
            u16::from(self.permanent_off_color),
        ];
        let word = osdp_words::Record(&numbers);
        write!(f, "{word}")
    }
}

impl Record for LedRecord {
    ghost use Rattle.osdp_msg.specs.CommandFields.{LedFits, led_at, led_data, led_word};
    ghost use Rattle.std.proofs.Common.{arith, refl};

    ghost SIZE = { 14 };

    ghost spelled = { led_data };

    ghost fits = { LedFits };

    ghost read_at = { led_at };

    ghost word = { led_word };

    const SIZE: usize = 14;

    fn read(bytes: &[u8]) -> LedRecord {
        LedRecord {
            reader: bytes[0],
            led: bytes[1],
            temporary_control: bytes[2],
            temporary_on_time: bytes[3],
            temporary_off_time: bytes[4],
            temporary_on_color: bytes[5],
            temporary_off_color: bytes[6],
            timer: LittleEndian::read_u16(rest(bytes, 7)),
            permanent_control: bytes[9],
            permanent_on_time: bytes[10],
            permanent_off_time: bytes[11],
            permanent_on_color: bytes[12],
            permanent_off_color: bytes[13],
        }
    }

    fn append_to(self, spelling: &mut Spelling) {
        let temporary = [
            self.reader,
            self.led,
            self.temporary_control,
            self.temporary_on_time,
            self.temporary_off_time,
            self.temporary_on_color,
            self.temporary_off_color,
        ];
        let permanent = [
            self.permanent_control,
            self.permanent_on_time,
            self.permanent_off_time,
            self.permanent_on_color,
            self.permanent_off_color,
        ];
        append(spelling, &temporary);
        append_u16(spelling, self.timer);
        append(spelling, &permanent);
    }

    fn parse(given: &str) -> Option<LedRecord> {
        let limits = [
            255, 255, 255, 255, 255, 255, 255, 65535, 255, 255, 255, 255, 255,
        ];
        let numbers: [u16; 13] = osdp_words::record(given, &limits)?;
        Some(LedRecord {
            reader: numbers[0] as u8,
            led: numbers[1] as u8,
            temporary_control: numbers[2] as u8,
            temporary_on_time: numbers[3] as u8,
            temporary_off_time: numbers[4] as u8,
            temporary_on_color: numbers[5] as u8,
            temporary_off_color: numbers[6] as u8,
            timer: numbers[7],
            permanent_control: numbers[8] as u8,
            permanent_on_time: numbers[9] as u8,
            permanent_off_time: numbers[10] as u8,
            permanent_on_color: numbers[11] as u8,
            permanent_off_color: numbers[12] as u8,
        })
    }

    ghost some = { Prim.omega arith };

    ghost length_spelled = { λ r. refl };

    ghost prints = { λ r. refl };
}

/// One to 102 records of LEDs.
pub type Leds<'a> = RecordList<'a, LedRecord, 102>;
