//! A handler of one of two types.

use osdp_frame::Burst;
use osdp_msg::Command;
use osdp_reader::{Answer, Handler};

/// What a device does whose handler is of one of two types. So devices with handlers of different types stand on one line: a third type is one more `EitherHandler`.
#[derive(Drop)]
pub enum EitherHandler<A: Handler, B: Handler> {
    First(A),
    Second(B),
}

/// It does what the handler does that it holds.
impl<A: Handler, B: Handler> Handler for EitherHandler<A, B> {
    ghost use Rattle.osdp_mixed_devices.specs.Either.{after_either, answer_of_either};

    ghost answer_of = { answer_of_either A.answer_of B.answer_of };

    ghost after = { after_either A.after B.after };

    fn answer<'a>(&mut self, command: &Command<'_>, place: &'a mut Burst) -> Answer<'a> {
        match self {
            EitherHandler::First(handler) => handler.answer(command, place),
            EitherHandler::Second(handler) => handler.answer(command, place),
        }
    }
}
