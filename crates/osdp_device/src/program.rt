//! A handler for devices whose program decides what is said to a command.

ghost use Rattle.std.specs.Prelude.{◌≡◌};
ghost use Rattle.osdp_device.specs.Program.{new_program};

use crate::question::KeptQuestion;
use crate::status::DeviceStatus;
use osdp_frame::Burst;
use osdp_msg::Command;
use osdp_reader::{Answer, Handler};

/// What there is at a device, and what its program says to the command that it was asked about.
#[derive(Debug, Drop)]
pub struct ProgramAnswers {
    /// What answers where the program says nothing.
    pub status: DeviceStatus,
    /// What the program was asked, and what it says.
    pub question: KeptQuestion,
}

impl ProgramAnswers {
    /// There is nothing at the device, and its program hasn't been asked.
    pub fn new() -> ProgramAnswers
        ensures { result ≡ new_program }
    {
        ProgramAnswers {
            status: DeviceStatus::new(),
            question: KeptQuestion::new(),
        }
    }
}

impl Handler for ProgramAnswers {
    ghost use Rattle.osdp_device.specs.Program.{program_after, program_answer};

    ghost answer_of = { program_answer };

    ghost after = { program_after };

    fn answer<'a>(&mut self, command: &Command<'_>, place: &'a mut Burst) -> Answer<'a> {
        if !self.question.is_set() {
            self.question.forget();
            return self.status.answer(command, place);
        }
        let answer = self.question.answer(place);
        self.question.forget();
        answer
    }
}
