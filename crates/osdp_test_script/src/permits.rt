//! What a script may do to a device.

ghost use Rattle.std.specs.Prelude.{◌≡◌};
ghost use Rattle.osdp_test_script.specs.Permits.{all_allowed, is_allowed, new_permits, with_permit};

use crate::call::Permit;
use osdp_msg::{Command, OutputRecord, Records};

/// What the lines so far allow.
#[derive(Clone, Copy)]
pub struct Permits {
    /// For each output whether an OUT may name it.
    pub outputs: [bool; 256],
    pub led: bool,
    pub buzzer: bool,
    pub text: bool,
    pub comset: bool,
    pub maker: bool,
}

impl Permits {
    /// Nothing is allowed.
    pub(crate) fn new() -> Permits
        ensures { result ≡ new_permits }
    {
        Permits {
            outputs: [false; 256],
            led: false,
            buzzer: false,
            text: false,
            comset: false,
            maker: false,
        }
    }

    /// One thing more is allowed.
    pub(crate) fn with(mut self, permit: Permit) -> Permits
        ensures { result ≡ with_permit permit self }
    {
        match permit {
            Permit::Output(output) => self.outputs[usize::from(output)] = true,
            Permit::Led => self.led = true,
            Permit::Buzzer => self.buzzer = true,
            Permit::Text => self.text = true,
            Permit::Comset => self.comset = true,
            Permit::Maker => self.maker = true,
        }
        self
    }
}

/// Whether an OUT may name the outputs of all these records.
fn are_allowed(outputs: &[bool; 256], records: Records<'_, OutputRecord>) -> bool
    ensures { result ≡ all_allowed outputs.now records.entry }
{
    let mut left = records;
    'records: while let Some(record) = left.next() {
        if !outputs[usize::from(record.output)] {
            return false;
        }
    }
    true
}

/// Whether a command may be sent: one that changes nothing of the device may always.
pub(crate) fn is_allowed(permits: &Permits, command: &Command<'_>) -> bool
    ensures { result ≡ is_allowed permits.now command.now }
{
    match command {
        Command::Poll
        | Command::Id(_)
        | Command::Cap(_)
        | Command::LocalStatus
        | Command::InputStatus
        | Command::OutputStatus
        | Command::ReaderStatus => true,
        Command::Output(outputs) => are_allowed(&permits.outputs, outputs.records()),
        Command::Led(_) => permits.led,
        Command::Buzzer(_) => permits.buzzer,
        Command::Text(_) => permits.text,
        Command::Comset(_) => permits.comset,
        Command::Maker(_) => permits.maker,
    }
}
