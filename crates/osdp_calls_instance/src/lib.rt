//! Lists of calls that keep the premises of `osdp_calls`, and those of programs in C and by lines.
//!
//! So the premises are not empty, and the theorem of any calls names what such programs call. The functions do nothing: their contracts are laws.
#![tactic(auto)]

ghost use Rattle.osdp_calls_instance.specs.CPrograms.{AddsInUse, MakesAnew, PanelCallsAreCalls, c_device, c_panel};
ghost use Rattle.osdp_calls_instance.specs.Fitting.{CallsForCFit, LinesFit};
ghost use Rattle.osdp_calls_instance.specs.Instance.{SomeCallsKeep};
ghost use Rattle.osdp_calls_instance.specs.LinePrograms.{LinesAreThese, PanelLinesAreCalls, PanelsRunAnew, line_device, line_panel};
ghost use Rattle.osdp_calls_instance.specs.OwnCalls.{CallTheLine, StandsOnCalls};
ghost use Rattle.osdp_calls_instance.specs.Panels.{PanelIsCalled, rattle_device, rattle_panel};
ghost use Rattle.osdp_calls_instance.specs.Rule.{TwoCallsKeepRule};
ghost use Rattle.osdp_calls_instance.specs.TwoEntries.{TwoCallsKeep};
ghost use Rattle.osdp_device.specs.Program.{program_after, program_answer};
ghost use Rattle.osdp_device.specs.Status.{status_after, status_answer};

use osdp_device::{DeviceStatus, ProgramAnswers};
use osdp_reader::Handler;

/// One list of calls with a session, a lost COMSET and restarts of both ends keeps all premises, whatever the device's handler answers. A session is begun,
/// and its opening ID comes to the device in two pieces. The PDID comes back in two pieces, and the report is taken. A COMSET goes out and is lost. Then
/// the device fails, and after it the panel.
pub fn premises_are_met<H: Handler>()
    ensures { (handler : H) → SomeCallsKeep H.answer_of H.after handler }
{}

/// So does a list with two entries, a COMSET that is lost, and a session that opens while that is unread. A session opens, and the device at the other
/// address passes its opening ID over. An order is settled, a COMSET is lost and told unsettled, the panel asks at its address and goes back, and a second
/// session opens while it is unread, and then one of the other entry.
pub fn premises_are_met_by_two<H: Handler>()
    ensures { (handler : H) → TwoCallsKeep H.answer_of H.after handler }
{}

/// In that list with two entries programs keep to the rule that stands for the premise on addresses. Each address that `retarget` sets is one of the two of
/// the COMSET.
pub fn rule_is_kept_by_two<H: Handler>()
    ensures { (handler : H) → TwoCallsKeepRule H.answer_of H.after handler }
{}

/// What the laws of programs stand on: adding makes the bus, and each end goes by its own calls.
fn stands_on_calls<H: Handler>()
    ensures { StandsOnCalls H.answer_of H.after }
{
    osdp_calls::adds_make_the_bus();
    osdp_calls::ends_go_by_their_own_calls::<H>();
}

/// Whatever an `osdp_panel::Panel` and devices of any handler are called, losses of power among it, is a list of calls of a line in use, which leads to the same bus
/// and devices. Each call of the panel is the calls of its bus that `bus_calls` of `osdp_panel_laws` names, and each of a device is one. A panel that is made anew has the
/// settings and entries that it is made with, and a POLL stands between any two orders of a device. A burst that a tick gives and that is withheld, since the last moment of
/// its order has passed, counts as said and lost on the line. What is promised of them then is law `panel_holds_once_in_any_order` of `osdp_programs_ledger`.
pub fn panel_calls_are_calls<H: Handler>()
    ensures bus { PanelIsCalled H }
    ensures line { CallTheLine rattle_panel (rattle_device H.answer_of H.after) H.answer_of H.after }
{
    stands_on_calls::<H>();
}

/// Whatever programs in C call, losses of power among it, is a list of calls of a line in use, which leads to the same bus and devices. A panel's handle holds an
/// `osdp_panel::Panel`: each of its calls is the calls of this panel that `calls_for_c` names, at most one, and so calls of its bus. Each call of a device's handle is those that
/// `device_calls` names. What is promised of them then is law `c_programs_hold_once` of `osdp_programs_ledger`.
/// An event that is too old lapses where it was ever offered, and else it is taken back. A panel whose handle is freed, made and given its devices, each call
/// done, is one made anew, whether it is made with room for each command or for so many bytes of them: a POLL stands between any two orders of a device. A device
/// that is added in use is one of the panel; where memory ends the panel stays as it is.
pub fn calls_for_c_are_calls()
    ensures added { AddsInUse }
    ensures anew { MakesAnew }
    ensures line { CallTheLine c_panel c_device program_answer program_after }
{
    stands_on_calls::<ProgramAnswers>();
}

/// What a run of lines to `osdp panel` and to `osdp reader`, leaves is what the calls leave that these lines say. The panel that `osdp panel` runs by any words is
/// one that is made anew, where a POLL stands between any two orders of a device. It holds an `osdp_panel::Panel`: each line is calls of this panel, the one that it says, and the taking
/// of each report that waits then. And whatever such a panel and its devices are called by lines, power losses among it, is a list of calls of a line in use, which brings the bus and
/// the devices to the same. An event that leaves by a line lapses where it is in doubt, and else it is taken back. What is promised of them then is
/// law `line_programs_hold_once` of `osdp_programs_ledger`.
pub fn lines_are_calls()
    ensures lines { LinesAreThese }
    ensures anew { PanelsRunAnew }
    ensures line { CallTheLine line_panel line_device status_answer status_after }
{
    stands_on_calls::<DeviceStatus>();
    osdp_line_laws::a_panels_run_is_its_calls();
    osdp_line_laws::a_devices_run_is_its_calls();
}

/// The laws of programs leave out nearly none of the calls for C and of the lines. Of calls for C they speak of each, also of one that makes a device
/// anew as another model, but of one that makes a panel anew with entries that can't be added. Of lines to a panel they speak of each, but of such a run anew;
/// two at different addresses can be added. Of lines to a device they speak of each, also of one by which a key leaves that is in doubt, and of one by which a
/// key leaves that was never offered.
pub fn laws_speak_of_programs<H: Handler>()
    ensures c { CallsForCFit H }
    ensures lines { LinesFit H }
{}

/// A panel in C or by lines may stand on a line with any devices: what it calls are calls of the panel that it holds, which do to its bus what they do.
pub fn panels_stand_beside_any_devices<H: Handler>()
    ensures c { PanelCallsAreCalls H }
    ensures lines { PanelLinesAreCalls H }
{
    osdp_calls::adds_make_the_bus();
}
