//! What makers' programs are promised, by the ledger of each entry: programs in C and by lines. The functions do nothing: their contracts are laws.
#![tactic(auto)]

ghost use Rattle.osdp_calls_instance.specs.CPrograms.{c_device, c_panel};
ghost use Rattle.osdp_calls_instance.specs.LinePrograms.{line_device, line_panel};
ghost use Rattle.osdp_calls_instance.specs.Panels.{rattle_device, rattle_panel};
ghost use Rattle.osdp_device.specs.Program.{program_after, program_answer};
ghost use Rattle.osdp_device.specs.Status.{status_after, status_answer};
ghost use Rattle.osdp_programs_ledger.specs.OwnOrder.{AnyProgramsKeep, OwnProgramsHoldOnce};
ghost use Rattle.osdp_programs_ledger.specs.PanelWords.{AcceptedOrdersAreSteps, ExpiredOrdersAreSteps};
ghost use Rattle.osdp_programs_ledger.specs.Programs.{ProgramsHoldOnce, RuledProgramsHoldOnce};

use osdp_device::{DeviceStatus, ProgramAnswers};
use osdp_reader::Handler;

/// **The theorem.** An `osdp_panel::Panel` and devices of `osdp_device::Device` are called in any way, where these calls keep the premises: orders of any last moment, late and
/// held ones, `retarget`, losses of power of either side, and entries that are added in use. Our entries stand in any order, with entries of others between them, and a panel that is made anew may leave some out. Then of each of our devices,
/// with the entry that the panel has of it, if it has one: each order that `submit` accepted is settled once with its answer, is told in doubt once, is taken back or has expired, is lost with its panel's power, or is
/// ahead. None is acted on twice, and what is settled was acted on, with that answer. Each accepted event has left the device's queue once, or waits. Events are reported in
/// their order, in each session once, and at most the last of a session is told again later. None is skipped but by its device's program, or by a loss of the device's power.
///
/// The premises are those of law `own_order_holds_once` of `osdp_entry_numbers`, of the calls of the bus and the devices that these calls are. A burst that the panel withholds
/// after its tick, since the last moment of its order has passed, counts as said and lost on the line: nobody reads it. Calls that keep the premises of any calls keep these,
/// where the panel's entries could be added as they stand.
pub fn panel_holds_once_in_any_order<H: Handler>()
    ensures calls { OwnProgramsHoldOnce rattle_panel (rattle_device H.answer_of H.after) H.answer_of H.after }
    ensures less { AnyProgramsKeep rattle_panel (rattle_device H.answer_of H.after) H.answer_of H.after }
{
    osdp_calls::ends_go_by_their_own_calls::<H>();
    osdp_calls_instance::panel_calls_are_calls::<H>();
    osdp_entry_numbers::own_order_holds_once::<H>();
}

/// The same where no entry is added in use, and our entries come first in each panel that is made anew, in one order. The rule for programs may stand for the premise on
/// addresses.
pub fn panel_holds_once<H: Handler>()
    ensures calls { ProgramsHoldOnce rattle_panel (rattle_device H.answer_of H.after) H.answer_of H.after }
    ensures ruled { RuledProgramsHoldOnce rattle_panel (rattle_device H.answer_of H.after) H.answer_of H.after }
{
    osdp_calls_instance::panel_calls_are_calls::<H>();
    osdp_calls_ledger::ledger_holds_once::<H>();
    osdp_calls::calls_rule_suffices::<H>();
}

/// To the ledger an order that `submit` of a panel accepts is the step Submit, with its command and the next place. One that it refuses is no step.
pub fn accepted_orders_are_steps<H: Handler>()
    ensures { AcceptedOrdersAreSteps H.answer_of H.after }
{}

/// A report of a panel that an order has expired is the step Withdraw of the front order, with the command that is told, while none of its entry is on its way.
pub fn expired_orders_are_steps<H: Handler>()
    ensures { ExpiredOrdersAreSteps H.answer_of H.after }
{}

/// Whatever programs in C call, each entry of the panel keeps the ledger's promises, where these calls keep the premises. Losses of power are among the
/// calls, and the premises are those of the calls of a line in use that these are: so no entry is added to a panel in use. A panel that is made anew lets a POLL
/// stand between any two commands of an entry, as each that these calls make; one that waits for it is accepted. Of each entry, with the device that its program has: each accepted
/// command is settled once with its answer, is told in doubt once, is given back, is lost with its panel's power, or is ahead. None is taken twice, and
/// what is settled was taken, with that answer. Each accepted event has left the device's queue once, or waits. Events are reported in their order, in each
/// session once, and at most the last of a session is told again later. None is skipped but by its device's program, or by a loss of the device's power.
///
/// The rule for programs may stand for the premise on addresses.
pub fn c_programs_hold_once()
    ensures calls { ProgramsHoldOnce c_panel c_device program_answer program_after }
    ensures ruled { RuledProgramsHoldOnce c_panel c_device program_answer program_after }
{
    osdp_calls_instance::calls_for_c_are_calls();
    osdp_calls_ledger::ledger_holds_once::<ProgramAnswers>();
    osdp_calls::calls_rule_suffices::<ProgramAnswers>();
}

/// The same of lines to `osdp panel` and to `osdp reader`.
pub fn line_programs_hold_once()
    ensures calls { ProgramsHoldOnce line_panel line_device status_answer status_after }
    ensures ruled { RuledProgramsHoldOnce line_panel line_device status_answer status_after }
{
    osdp_calls_instance::lines_are_calls();
    osdp_calls_ledger::ledger_holds_once::<DeviceStatus>();
    osdp_calls::calls_rule_suffices::<DeviceStatus>();
}

/// What programs in C are promised holds, too, where the panel's entries stand in any order, with entries of others between ours, and where the panel is
/// made anew in another order, or without some of ours, which it may add in use. It holds of each of our devices, with the entry that the panel has of
/// it, if it has one. The premises are those of law `own_order_holds_once` of `osdp_entry_numbers`. Calls of programs that keep the premises of any calls
/// keep these, where the panel's entries could be added as they stand.
pub fn c_programs_hold_once_in_any_order()
    ensures calls { OwnProgramsHoldOnce c_panel c_device program_answer program_after }
    ensures less { AnyProgramsKeep c_panel c_device program_answer program_after }
{
    osdp_calls::ends_go_by_their_own_calls::<ProgramAnswers>();
    osdp_calls_instance::calls_for_c_are_calls();
    osdp_entry_numbers::own_order_holds_once::<ProgramAnswers>();
}

/// The same of lines to `osdp panel` and to `osdp reader`.
pub fn line_programs_hold_once_in_any_order()
    ensures calls { OwnProgramsHoldOnce line_panel line_device status_answer status_after }
    ensures less { AnyProgramsKeep line_panel line_device status_answer status_after }
{
    osdp_calls::ends_go_by_their_own_calls::<DeviceStatus>();
    osdp_calls_instance::lines_are_calls();
    osdp_entry_numbers::own_order_holds_once::<DeviceStatus>();
}
