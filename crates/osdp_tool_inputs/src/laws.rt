//! What the crate's definitions say, in the subject's words. A law has no code: it holds for all values, and its proof is the law's.

ghost use Rattle.osdp_tool_inputs.specs.Echoes.{KeepsOthers, LeavesAllElse, LeavesEchoOut, SortsAll};
ghost use Rattle.osdp_tool_inputs.specs.Laws.{MomentsLeaveLines, NamesPlaces, StampsOneRun, TellsInOrder, TimesByRuns};
ghost use Rattle.osdp_tool_inputs.specs.OneTask.{AskOnce};
ghost use Rattle.osdp_tool_inputs.specs.Printable.{ShowsControls};

/// The moments that the runtime's clock tells are in order.
pub fn tells_in_order()
    ensures { TellsInOrder }
{}

/// A comment with a moment is the stamp of the line of digits below it, and of no other below that.
pub fn stamps_one_run()
    ensures { StampsOneRun }
{}

/// A line of `show` that begins with the number of a run stands after the stamp of that run. The number after a colon names the place of its packet.
pub fn times_by_runs()
    ensures runs { TimesByRuns }
    ensures places { NamesPlaces }
{}

/// With the moments of a capture, whose echoes are left out before, the monitor tells the lines that it tells without: none is left out, none comes to them. Only the moment and the way of its run may stand before
/// each, and after it only the times of a late answer at the place that it names.
pub fn moments_leave_lines()
    ensures { MomentsLeaveLines }
{}

/// Of a capture with ways a run that came in and is the one that went out just before is left out, and a second such run is not.
pub fn leaves_echo_out()
    ensures { LeavesEchoOut }
{}

/// A line of a capture that isn't the one that went out just before is not left out.
pub fn keeps_others()
    ensures { KeepsOthers }
{}

/// Of a capture without ways nothing is left out.
pub fn leaves_all_else()
    ensures { LeavesAllElse }
{}

/// What is left of a capture and its echoes are together all its lines, each once and in their order.
pub fn sorts_all()
    ensures { SortsAll }
{}

/// The words of a command that reads captures ask for one thing at most.
#[tactic(auto, using(crate::proofs::OneTask::ask_once))]
pub fn words_ask_once()
    ensures { AskOnce }
{}

/// No control character of a comment is printed: each is shown by its number, as `\x1B`, and text without one stands as it is.
#[tactic(auto, using(crate::proofs::Printables::shows_controls))]
pub fn shows_controls()
    ensures { ShowsControls }
{}
