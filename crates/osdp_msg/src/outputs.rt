//! Outputs, and what a command tells them.

use crate::record_list::RecordList;
use crate::records::Record;
use crate::spelling::{Spelling, append_u16, rest};
use byteorder::{ByteOrder, LittleEndian};
use std::fmt;

/// What one output is to do.
#[derive(Clone, Copy, Debug, Default, PartialEq, Eq)]
pub struct OutputRecord {
    /// The output of the device, counted from 0.
    pub output: u8,
    /// 0 no change; 1 off for good, timed operation ended; 2 on for good, timed operation ended;
    /// 3 off for good, timed operation left to end; 4 on for good, timed operation left to end;
    /// 5 on for a time; 6 off for a time.
    pub control: u8,
    /// In 100 ms.
    pub timer: u16,
}

impl fmt::Display for OutputRecord {
    ghost use Rattle.std.specs.Prelude.{Some};
    ghost use Rattle.osdp_words.specs.Word.{printed};
    ghost use Rattle.osdp_msg.specs.CommandFields.{output_word};

    ghost output = { λ r. Some (printed (output_word r)) };

    /// The numbers of the record, joined by colons.
    fn fmt<W: fmt::Write>(&self, f: &mut fmt::Formatter<W>) -> fmt::Result {
        let numbers = [u16::from(self.output), u16::from(self.control), self.timer];
        let word = osdp_words::Record(&numbers);
        write!(f, "{word}")
    }
}

impl Record for OutputRecord {
    ghost use Rattle.osdp_msg.specs.CommandFields.{OutputFits, output_at, output_data, output_word};
    ghost use Rattle.std.proofs.Common.{arith, refl};

    ghost SIZE = { 4 };

    ghost spelled = { output_data };

    ghost fits = { OutputFits };

    ghost read_at = { output_at };

    ghost word = { output_word };

    const SIZE: usize = 4;

    fn read(bytes: &[u8]) -> OutputRecord {
        OutputRecord {
            output: bytes[0],
            control: bytes[1],
            timer: LittleEndian::read_u16(rest(bytes, 2)),
        }
    }

    fn append_to(self, spelling: &mut Spelling) {
        spelling.push(self.output);
        spelling.push(self.control);
        append_u16(spelling, self.timer);
    }

    fn parse(given: &str) -> Option<OutputRecord> {
        let [output, control, timer] = osdp_words::record::<3>(given, &[255, 255, 65535])?;
        Some(OutputRecord {
            output: output as u8,
            control: control as u8,
            timer,
        })
    }

    ghost some = { Prim.omega arith };

    ghost length_spelled = { λ r. refl };

    ghost prints = { λ r. refl };
}

/// One to 358 records of outputs.
pub type Outputs<'a> = RecordList<'a, OutputRecord, 358>;
