//! The handler of a script's readers.

ghost use Rattle.std.specs.Prelude.{◌≡◌};
ghost use Rattle.osdp_script.specs.Handler.{answer_to_maker, new_handler};

use crate::known::are_known;
use crate::outputs::switch_all;
use osdp_frame::Burst;
use osdp_msg::{Command, MakerMessage, NakReason};
use osdp_reader::{Answer, Handler, lend};

/// The maker's code of a script's readers.
const VENDOR: [u8; 3] = [0x53, 0x49, 0x4d];

/// A device with eight outputs, which ignores all timers. It has one input and one reader, both at 0, and LEDs, a buzzer and a text
/// that nobody sees.
#[derive(Clone, Copy, Debug, PartialEq, Eq)]
pub struct ScriptReader {
    /// For each output 1 where it is on, and else 0.
    outputs: [u8; 8],
}

impl ScriptReader {
    /// All outputs are off.
    pub fn new() -> ScriptReader
        ensures { result ≡ new_handler }
    {
        ScriptReader { outputs: [0; 8] }
    }
}

/// The maker's own reply has the bytes of the command, which are put into `place`. Another maker's command is refused.
fn answer_to_maker<'a>(message: &MakerMessage<'_>, place: &'a mut Burst) -> Answer<'a>
    ensures { result ≡ answer_to_maker message.now }
{
    let vendor = message.vendor();
    if vendor != VENDOR {
        return Answer::Refuse(NakReason::RecordNotProcessed);
    }
    let bytes = lend(message.bytes(), place);
    Answer::Maker(MakerMessage::new(vendor, bytes).unwrap())
}

impl Handler for ScriptReader {
    ghost use Rattle.osdp_script.specs.Handler.{handler_after, handler_answer};

    ghost answer_of = { handler_answer };

    ghost after = { handler_after };

    fn answer<'a>(&mut self, command: &Command<'_>, place: &'a mut Burst) -> Answer<'a> {
        match command {
            Command::LocalStatus => Answer::Local(0, 0),
            Command::InputStatus | Command::ReaderStatus => Answer::list(&[0]),
            Command::OutputStatus => Answer::list(lend(&self.outputs, place)),
            Command::Output(outputs) => {
                if !are_known(outputs.records()) {
                    return Answer::Refuse(NakReason::RecordNotProcessed);
                }
                switch_all(&mut self.outputs, outputs.records());
                Answer::Done
            }
            Command::Led(_) | Command::Buzzer(_) | Command::Text(_) => Answer::Done,
            Command::Maker(message) => answer_to_maker(message, place),
            _ => Answer::Refuse(NakReason::RecordNotProcessed),
        }
    }
}
