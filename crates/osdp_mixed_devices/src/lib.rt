//! Devices with handlers of different types on one line: those whose programs are in C beside those that are run by lines, or any others.
#![tactic(auto)]

ghost use Rattle.osdp_calls_instance.specs.CPrograms.{c_device, c_panel};
ghost use Rattle.osdp_calls_instance.specs.LinePrograms.{line_device, line_panel};
ghost use Rattle.osdp_device.specs.Program.{program_after, program_answer};
ghost use Rattle.osdp_device.specs.Status.{status_after, status_answer};
ghost use Rattle.osdp_mixed_devices.specs.Either.{after_either, answer_of_either};
ghost use Rattle.osdp_mixed_devices.specs.Mixed.{EitherDoesTheSame, either_device};
ghost use Rattle.osdp_programs_ledger.specs.Programs.{ProgramsHoldOnce, RuledProgramsHoldOnce};

pub mod either;

use either::EitherHandler;
use osdp_device::{DeviceStatus, ProgramAnswers};
use osdp_reader::Handler;

/// What a device does is the same where its handler is seen as one of two types, whatever is called of it. So devices with handlers of different types stand
/// on one line, and all that is promised of any handlers holds of them. A third type is one more `EitherHandler`.
pub fn either_does_the_same<A: Handler, B: Handler>()
    ensures { EitherDoesTheSame A B A.answer_of A.after B.answer_of B.after }
{}

/// Where a panel in C has devices of which some are in C and some are run by lines, each entry keeps the ledger's promises, as
/// law `c_programs_hold_once` of `osdp_programs_ledger` says of devices in C alone. The same of a panel by lines. The rule for
/// programs may stand for the premise on addresses.
pub fn mixed_programs_hold_once()
    ensures c { ProgramsHoldOnce c_panel (either_device c_device line_device) (answer_of_either program_answer status_answer) (after_either program_after status_after) }
    ensures c_ruled { RuledProgramsHoldOnce c_panel (either_device c_device line_device) (answer_of_either program_answer status_answer) (after_either program_after status_after) }
    ensures lines { ProgramsHoldOnce line_panel (either_device c_device line_device) (answer_of_either program_answer status_answer) (after_either program_after status_after) }
    ensures lines_ruled { RuledProgramsHoldOnce line_panel (either_device c_device line_device) (answer_of_either program_answer status_answer) (after_either program_after status_after) }
{
    osdp_calls::adds_make_the_bus();
    osdp_calls::ends_go_by_their_own_calls::<EitherHandler<ProgramAnswers, DeviceStatus>>();
    osdp_calls::calls_rule_suffices::<EitherHandler<ProgramAnswers, DeviceStatus>>();
    osdp_calls_ledger::ledger_holds_once::<EitherHandler<ProgramAnswers, DeviceStatus>>();
}
