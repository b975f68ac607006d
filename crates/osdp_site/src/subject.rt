//! Which commands are states, and of what they say how it is.

ghost use Rattle.std.specs.Prelude.{◌≡◌, ◌≤◌, ◌+◌, ◌<◌, ◌^◌, IfSome, length};
ghost use Rattle.osdp_site.specs.States.{buzzer_subject, first_about, is_about, is_same, led_subject, only, output_subject, subject_of, text_subject};

use crate::fault::SiteFault;
use osdp_msg::{Buzzer, Command, KeptCommand, LedRecord, OutputRecord, Record, Records, Text};

/// What a state is of. There is one state of each at a time.
#[derive(Clone, Copy, Debug, PartialEq, Eq)]
pub enum Subject {
    /// An output of the device.
    Output(u8),
    /// An LED: its reader, and which of its LEDs.
    Led(u8, u8),
    /// The buzzer of a reader.
    Buzzer(u8),
    /// A text: its reader, its row and its column.
    Text(u8, u8, u8),
}

/// An output that is on or off from then on.
fn output_subject(given: &OutputRecord) -> Result<Subject, SiteFault>
    ensures { result ≡ output_subject given.now }
{
    match given.control {
        1..=4 => Ok(Subject::Output(given.output)),
        5 | 6 => Err(SiteFault::Timed),
        _ => Err(SiteFault::NoState),
    }
}

/// An LED that blinks or shines from then on, without a state for a time.
fn led_subject(given: &LedRecord) -> Result<Subject, SiteFault>
    ensures { result ≡ led_subject given.now }
{
    if given.temporary_control > 1 {
        return Err(SiteFault::Timed);
    }
    if given.permanent_control != 1 {
        return Err(SiteFault::NoState);
    }
    Ok(Subject::Led(given.reader, given.led))
}

/// A buzzer that is off from then on, or sounds until it is told otherwise.
fn buzzer_subject(buzzer: &Buzzer) -> Result<Subject, SiteFault>
    ensures { result ≡ buzzer_subject buzzer.now }
{
    if buzzer.tone == 0 {
        return Err(SiteFault::NoState);
    }
    if buzzer.tone > 1 && buzzer.count > 0 {
        return Err(SiteFault::Timed);
    }
    Ok(Subject::Buzzer(buzzer.reader))
}

/// A text that stays.
fn text_subject(text: &Text<'_>) -> Result<Subject, SiteFault>
    ensures { result ≡ text_subject text.now }
{
    match text.command() {
        1 | 2 => Ok(Subject::Text(text.reader(), text.row(), text.column())),
        3 | 4 => Err(SiteFault::Timed),
        _ => Err(SiteFault::NoState),
    }
}

/// The one record of a list. None where there are several.
fn only<R: Record>(mut records: Records<'_, R>) -> Option<R>
    ensures { result ≡ only records.entry }
{
    let first = records.next()?;
    match records.next() {
        Some(_) => None,
        None => Some(first),
    }
}

impl Subject {
    /// What a command says the state of, or why it says none.
    pub(crate) fn of(command: &Command<'_>) -> Result<Subject, SiteFault>
        ensures { result ≡ subject_of command.now }
    {
        match command {
            Command::Output(outputs) => match only(outputs.records()) {
                Some(given) => output_subject(&given),
                None => Err(SiteFault::Several),
            },
            Command::Led(leds) => match only(leds.records()) {
                Some(given) => led_subject(&given),
                None => Err(SiteFault::Several),
            },
            Command::Buzzer(buzzer) => buzzer_subject(buzzer),
            Command::Text(text) => text_subject(text),
            Command::Poll
            | Command::Id(_)
            | Command::Cap(_)
            | Command::LocalStatus
            | Command::InputStatus
            | Command::OutputStatus
            | Command::ReaderStatus
            | Command::Comset(_)
            | Command::Maker(_) => Err(SiteFault::NoState),
        }
    }

    /// Whether it is the same.
    fn is_same(self, other: Subject) -> bool
        ensures { result ≡ is_same self other }
    {
        match (self, other) {
            (Subject::Output(output), Subject::Output(known)) => output == known,
            (Subject::Led(reader, led), Subject::Led(at, known)) => reader == at && led == known,
            (Subject::Buzzer(reader), Subject::Buzzer(known)) => reader == known,
            (Subject::Text(reader, row, column), Subject::Text(at, line, known)) => {
                reader == at && row == line && column == known
            }
            (Subject::Output(_), _)
            | (Subject::Led(..), _)
            | (Subject::Buzzer(_), _)
            | (Subject::Text(..), _) => false,
        }
    }

    /// Whether a command says its state.
    fn is_of(self, command: &Command<'_>) -> bool
        ensures { result ≡ is_about self command.now }
    {
        match Subject::of(command) {
            Ok(other) => self.is_same(other),
            Err(_) => false,
        }
    }

    /// The first of these commands that says its state.
    pub(crate) fn first_in(self, commands: &[KeptCommand]) -> Option<usize>
        ensures place { result ≡ first_about 0 self commands.now }
        ensures within { IfSome result (λ i. i < length commands.now) }
    {
        for (i, command) in commands.iter().enumerate() {
            if self.is_of(&command.command()) {
                return Some(i);
            }
        }
        None
    }
}
