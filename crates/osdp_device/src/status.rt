//! A handler for devices whose program sets beforehand what is to be told.

ghost use Rattle.std.specs.Prelude.{◌≡◌};
ghost use Rattle.osdp_device.specs.Status.{are_there, new_status, status_answer};

use arrayvec::ArrayVec;
use osdp_frame::Burst;
use osdp_msg::{Command, MAX_DATA, NakReason, OutputRecord, Records};
use osdp_reader::{Answer, Handler, lend};

/// What there is at a device, as its program has set it: by `Reader::handler_mut` between two packets.
///
/// LSTAT, ISTAT, OSTAT and RSTAT are answered from it. OUT is refused where one of its outputs isn't there, and MFG always. OUT,
/// LED, BUZ and TEXT are confirmed; to do them is the program's part, which is told of each (`taken`).
#[derive(Debug, Drop)]
pub struct DeviceStatus {
    /// 1 where the device is tampered with, else 0.
    pub tamper: u8,
    /// 1 where its power fails, else 0.
    pub power: u8,
    /// A byte for each input: 1 where it is active, else 0.
    pub inputs: ArrayVec<u8, MAX_DATA>,
    /// A byte for each output: 1 where it is on, else 0.
    pub outputs: ArrayVec<u8, MAX_DATA>,
    /// A byte for each reader: 0 where it works.
    pub readers: ArrayVec<u8, MAX_DATA>,
}

impl DeviceStatus {
    /// No inputs, no outputs, no readers; no tamper and no failure of power.
    pub fn new() -> DeviceStatus
        ensures { result ≡ new_status }
    {
        DeviceStatus {
            tamper: 0,
            power: 0,
            inputs: ArrayVec::new(),
            outputs: ArrayVec::new(),
            readers: ArrayVec::new(),
        }
    }

    /// What is told of a command; its bytes are put into `place`. It changes nothing.
    fn told<'a>(&self, command: &Command<'_>, place: &'a mut Burst) -> Answer<'a>
        ensures { result ≡ status_answer self.now command.now }
    {
        match command {
            Command::LocalStatus => Answer::Local(self.tamper, self.power),
            Command::InputStatus => Answer::list(lend(self.inputs.as_slice(), place)),
            Command::OutputStatus => Answer::list(lend(self.outputs.as_slice(), place)),
            Command::ReaderStatus => Answer::list(lend(self.readers.as_slice(), place)),
            Command::Output(outputs) => {
                if are_there(self.outputs.len(), outputs.records()) {
                    Answer::Done
                } else {
                    Answer::Refuse(NakReason::RecordNotProcessed)
                }
            }
            Command::Led(_) | Command::Buzzer(_) | Command::Text(_) => Answer::Done,
            _ => Answer::Refuse(NakReason::RecordNotProcessed),
        }
    }
}

/// Whether each record is of an output that there is.
fn are_there(count: usize, records: Records<'_, OutputRecord>) -> bool
    ensures { result ≡ are_there count records.entry }
{
    let mut left = records;
    'records: while let Some(record) = left.next() {
        if usize::from(record.output) >= count {
            return false;
        }
    }
    true
}

impl Handler for DeviceStatus {
    ghost use Rattle.osdp_device.specs.Status.{status_after, status_answer};

    ghost answer_of = { status_answer };

    ghost after = { status_after };

    fn answer<'a>(&mut self, command: &Command<'_>, place: &'a mut Burst) -> Answer<'a> {
        self.told(command, place)
    }
}
