//! The device of the reader's rows.

ghost use Rattle.std.specs.Prelude.{◌≡◌};
ghost use Rattle.osdp_machine_tests.specs.Bench.{answer_given};

use osdp_frame::Burst;
use osdp_msg::{Command, MakerMessage, NakReason};
use osdp_reader::{Answer, Handler, lend};
use std::mem;

/// An answer that a device gives.
#[derive(Clone, Copy, Debug)]
pub enum Given {
    /// It is done.
    Done,
    /// Tamper and power.
    Local(u8, u8),
    /// A list of this byte.
    List(u8),
    /// It isn't done.
    Refuse(NakReason),
    /// The reply of the maker SIM, with this byte.
    Maker(u8),
}

impl Given {
    /// The answer, with its bytes in `place`.
    fn answer<'a>(self, place: &'a mut Burst) -> Answer<'a>
        ensures { result ≡ answer_given self }
    {
        match self {
            Given::Done => Answer::Done,
            Given::Local(tamper, power) => Answer::Local(tamper, power),
            Given::List(state) => Answer::list(lend(&[state], place)),
            Given::Refuse(reason) => Answer::Refuse(reason),
            Given::Maker(byte) => {
                let bytes = lend(&[byte], place);
                Answer::Maker(MakerMessage::new([0x53, 0x49, 0x4d], bytes).unwrap())
            }
        }
    }
}

/// A device that gives one answer to the first command that reaches it, and is done with all others.
#[derive(Drop)]
pub struct Bench {
    /// The answer.
    pub first: Given,
}

impl Handler for Bench {
    ghost use Rattle.osdp_machine_tests.specs.declared.bench.Given.TheVariants.{Done};

    ghost answer_of = { λ bench command. answer_given bench.first };

    ghost after = { λ bench command. record { first = Done } };

    fn answer<'a>(&mut self, _command: &Command<'_>, place: &'a mut Burst) -> Answer<'a> {
        mem::replace(&mut self.first, Given::Done).answer(place)
    }
}
