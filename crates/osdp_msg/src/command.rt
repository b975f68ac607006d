//! Commands: what the controller sends to a reader.

ghost use Rattle.std.specs.Prelude.{◌≡◌, ◌↔◌, ◌∷◌, length, None, Some, Ok, IfOk, IfErr, IfSome, IsOk, IsSome, true};
ghost use Rattle.std.specs.Result.{result_ok};
ghost use Rattle.osdp_words.specs.Reading.{ReadsWords};
ghost use Rattle.osdp_words.specs.Word.{AllStandFor, texts, words_in};
ghost use Rattle.osdp_msg.specs.CommandTable.{CommandFits, IsCommand, command_code, command_data, command_fault, command_of, command_at};
ghost use Rattle.osdp_msg.specs.Kept.{command_kept};
ghost use Rattle.osdp_msg.specs.CommandText.{command_words, command_text};

use crate::command_fields::{Buzzer, Communication, MakerMessage, Text};
use crate::fault::{BadWords, MsgFault};
use crate::leds::Leds;
use crate::limits::MAX_MESSAGE;
use crate::outputs::Outputs;
use crate::parsing::{parse_byte, parse_nothing};
use crate::printing::{print_byte, print_records};
use crate::spelling::{Spelling, put_byte, put_code};
use crate::tabled::{Tabled, first_fault};
use arrayvec::ArrayVec;
use osdp_words::Fields;
use std::fmt;

/// A command. Each value has the lengths and counts of its row in the table of commands.
#[derive(Debug, Drop)]
pub enum Command<'a> {
    /// Asks for the next event.
    Poll,
    /// Asks what the device is. The byte is kept as read.
    Id(u8),
    /// Asks what the device can do. The byte is kept as read.
    Cap(u8),
    /// Asks for the state of the device itself.
    LocalStatus,
    /// Asks for the states of the inputs.
    InputStatus,
    /// Asks for the states of the outputs.
    OutputStatus,
    /// Asks for the states of the readers.
    ReaderStatus,
    /// Sets outputs.
    Output(Outputs<'a>),
    /// Sets LEDs of readers.
    Led(Leds<'a>),
    /// Sounds the buzzer of a reader.
    Buzzer(Buzzer),
    /// Shows a text on a reader.
    Text(Text<'a>),
    /// Sets the device's address and baud rate.
    Comset(Communication),
    /// A command of the device's maker.
    Maker(MakerMessage<'a>),
}

/// The table of commands.
struct CommandRows;

impl Tabled for CommandRows {
    ghost use Rattle.osdp_msg.specs.CommandTable.{command_counts_agree, command_length_allowed};

    ghost length_allowed = { command_length_allowed };

    ghost counts_agree = { command_counts_agree };

    fn length_allowed(code: u8, len: usize) -> Option<bool> {
        match code {
            0x60 | 0x64 | 0x65 | 0x66 | 0x67 => Some(len == 0),
            0x61 | 0x62 => Some(len == 1),
            0x68 => Some(4 <= len && len % 4 == 0),
            0x69 => Some(14 <= len && len % 14 == 0),
            0x6A | 0x6E => Some(len == 5),
            0x6B => Some(6 <= len),
            0x80 => Some(3 <= len),
            _ => None,
        }
    }

    fn counts_agree(code: u8, bytes: &[u8]) -> bool {
        match code {
            0x6B => usize::from(bytes[5]) == bytes.len() - 6,
            _ => true,
        }
    }
}

/// The command that a code and data without a fault stand for.
#[inline(always)]
#[tactic(auto, unfolding(crate::specs::CommandTable::command_at))]
fn value_at(code: u8, bytes: &[u8]) -> Command<'_>
    requires { command_fault code bytes.now ≡ None }
    ensures { result ≡ command_at code bytes.now }
{
    match code {
        0x61 => Command::Id(bytes[0]),
        0x62 => Command::Cap(bytes[0]),
        0x64 => Command::LocalStatus,
        0x65 => Command::InputStatus,
        0x66 => Command::OutputStatus,
        0x67 => Command::ReaderStatus,
        0x68 => Command::Output(Outputs::read(bytes)),
        0x69 => Command::Led(Leds::read(bytes)),
        0x6A => Command::Buzzer(Buzzer::read(bytes)),
        0x6B => Command::Text(Text::read(bytes)),
        0x6E => Command::Comset(Communication::read(bytes)),
        0x80 => Command::Maker(MakerMessage::read(bytes)),
        _ => Command::Poll,
    }
}

/// The command whose text begins with a name and goes on with these fields. What it has of bytes stands in `place` then.
#[tactic(auto, using(crate::proofs::CommandRows::outputs, crate::proofs::CommandRows::leds))]
fn parse_row<'a>(name: &str, fields: Fields<'_>, place: &'a mut Spelling) -> Option<Command<'a>>
    ensures { ReadsWords command_words CommandFits (name.now ∷ fields.entry) result }
{
    match name {
        "POLL" => {
            parse_nothing(fields)?;
            Some(Command::Poll)
        }
        "ID" => Some(Command::Id(parse_byte(fields)?)),
        "CAP" => Some(Command::Cap(parse_byte(fields)?)),
        "LSTAT" => {
            parse_nothing(fields)?;
            Some(Command::LocalStatus)
        }
        "ISTAT" => {
            parse_nothing(fields)?;
            Some(Command::InputStatus)
        }
        "OSTAT" => {
            parse_nothing(fields)?;
            Some(Command::OutputStatus)
        }
        "RSTAT" => {
            parse_nothing(fields)?;
            Some(Command::ReaderStatus)
        }
        "OUT" => Some(Command::Output(Outputs::parse(fields, place)?)),
        "LED" => Some(Command::Led(Leds::parse(fields, place)?)),
        "BUZ" => Some(Command::Buzzer(Buzzer::parse(fields)?)),
        "TEXT" => Some(Command::Text(Text::parse(fields, place)?)),
        "COMSET" => Some(Command::Comset(Communication::parse(fields)?)),
        "MFG" => Some(Command::Maker(MakerMessage::parse(fields, place)?)),
        _ => None,
    }
}

/// The command whose text has these words.
fn parse_fields<'a>(mut fields: Fields<'_>, place: &'a mut Spelling) -> Option<Command<'a>>
    ensures { ReadsWords command_words CommandFits fields.entry result }
{
    let name = fields.word()?;
    parse_row(name, fields, place)
}

/// The first fault of a code and data, or the command that they stand for.
// Inlined, so that what is read needn't be written out and read again.
#[inline(always)]
#[tactic(auto, unfolding(crate::specs::CommandTable::command_of, crate::specs::CommandTable::command_fault))]
fn decode(code: u8, bytes: &[u8]) -> Result<Command<'_>, MsgFault>
    ensures { result ≡ command_of code bytes.now }
{
    match first_fault::<CommandRows>(code, bytes) {
        Some(fault) => Err(fault),
        None => Ok(value_at(code, bytes)),
    }
}

impl<'a> Command<'a> {
    /// The command that a code and data stand for, or the first fault that holds.
    #[inline(always)]
    pub fn read(code: u8, bytes: &'a [u8]) -> Result<Command<'a>, MsgFault>
        ensures value { IfOk result (IsCommand code bytes.now) }
        ensures fault { IfErr result (λ e. command_fault code bytes.now ≡ Some e) }
        ensures only { (m : Command) → IsCommand code bytes.now m → result ≡ Ok m }
        ensures function { result ≡ command_of code bytes.now }
    {
        decode(code, bytes)
    }

    /// The code and the data of the command.
    pub fn write(&self) -> ArrayVec<u8, MAX_MESSAGE>
        ensures spelled { result.items ≡ command_code self.now ∷ command_data self.now }
        ensures fits { CommandFits self.now }
    {
        let mut spelling = ArrayVec::new();
        self.write_into(&mut spelling);
        spelling
    }

    /// Puts the code and the data of the command in place of what stands in `spelling`.
    pub fn write_into(&self, spelling: &mut ArrayVec<u8, MAX_MESSAGE>)
        ensures spelled { spelling.new.items ≡ command_code self.now ∷ command_data self.now }
        ensures kept { command_kept spelling.new.items ≡ self.now }
        ensures fits { CommandFits self.now }
    {
        self.spell(spelling);
    }

    /// Puts its code and its data there.
    #[tactic(auto, using(crate::proofs::CommandRows::outputs, crate::proofs::CommandRows::leds))]
    fn spell(&self, spelling: &mut ArrayVec<u8, MAX_MESSAGE>)
        ensures spelled { spelling.new.items ≡ command_code self.now ∷ command_data self.now }
        ensures fits { CommandFits self.now }
    {
        match self {
            Command::Poll => put_code(spelling, 0x60),
            Command::Id(kept) => put_byte(spelling, 0x61, *kept),
            Command::Cap(kept) => put_byte(spelling, 0x62, *kept),
            Command::LocalStatus => put_code(spelling, 0x64),
            Command::InputStatus => put_code(spelling, 0x65),
            Command::OutputStatus => put_code(spelling, 0x66),
            Command::ReaderStatus => put_code(spelling, 0x67),
            Command::Output(outputs) => outputs.write_into(spelling, 0x68),
            Command::Led(leds) => leds.write_into(spelling, 0x69),
            Command::Buzzer(buzzer) => buzzer.write_into(spelling),
            Command::Text(text) => text.write_into(spelling),
            Command::Comset(communication) => communication.write_into(spelling, 0x6E),
            Command::Maker(message) => message.write_into(spelling, 0x80),
        }
    }

    /// The command whose text has these words. The digits of byte lists may have either case. What the command has of bytes
    /// stands in `place` then.
    pub fn parse(
        words: &[&str],
        place: &'a mut ArrayVec<u8, MAX_MESSAGE>,
    ) -> Result<Command<'a>, BadWords>
        ensures value { IfOk result (λ m. AllStandFor (command_words m) (texts words.now) × CommandFits m) }
        ensures only { (m : Command) → CommandFits m → AllStandFor (command_words m) (texts words.now) → result ≡ Ok m }
    {
        parse_fields(Fields::new(words), place).ok_or(BadWords)
    }

    /// The command whose text a line is. Its words have one or more spaces between each two.
    pub fn parse_line(
        line: &str,
        place: &'a mut ArrayVec<u8, MAX_MESSAGE>,
    ) -> Result<Command<'a>, BadWords>
        ensures value { IfOk result (λ m. AllStandFor (command_words m) (words_in line.now) × CommandFits m) }
        ensures only { (m : Command) → CommandFits m → AllStandFor (command_words m) (words_in line.now) → result ≡ Ok m }
    {
        parse_fields(Fields::of_line(line), place).ok_or(BadWords)
    }

    /// The same command, lent again.
    pub fn copy(&self) -> Command<'a>
        ensures { result ≡ self.now }
    {
        match self {
            Command::Poll => Command::Poll,
            Command::Id(kept) => Command::Id(*kept),
            Command::Cap(kept) => Command::Cap(*kept),
            Command::LocalStatus => Command::LocalStatus,
            Command::InputStatus => Command::InputStatus,
            Command::OutputStatus => Command::OutputStatus,
            Command::ReaderStatus => Command::ReaderStatus,
            Command::Output(outputs) => Command::Output(outputs.copy()),
            Command::Led(leds) => Command::Led(leds.copy()),
            Command::Buzzer(buzzer) => Command::Buzzer(*buzzer),
            Command::Text(text) => Command::Text(text.copy()),
            Command::Comset(communication) => Command::Comset(*communication),
            Command::Maker(message) => Command::Maker(message.copy()),
        }
    }
}

impl<'a> fmt::Display for Command<'a> {
    ghost output = { λ m. Some (command_text m) };

    #[tactic(auto, unfolding(crate::specs::CommandText::command_text))]
    fn fmt<W: fmt::Write>(&self, f: &mut fmt::Formatter<W>) -> fmt::Result {
        match self {
            Command::Poll => f.write_str("POLL"),
            Command::Id(kept) => print_byte(f, "ID", *kept),
            Command::Cap(kept) => print_byte(f, "CAP", *kept),
            Command::LocalStatus => f.write_str("LSTAT"),
            Command::InputStatus => f.write_str("ISTAT"),
            Command::OutputStatus => f.write_str("OSTAT"),
            Command::ReaderStatus => f.write_str("RSTAT"),
            Command::Output(outputs) => outputs.print(f, "OUT"),
            Command::Led(leds) => leds.print(f, "LED"),
            Command::Buzzer(buzzer) => buzzer.print(f),
            Command::Text(text) => text.print(f),
            Command::Comset(communication) => communication.print(f, "COMSET"),
            Command::Maker(message) => message.print(f, "MFG"),
        }
    }
}
