//! What the crate's definitions say, in the subject's words. A law has no code: it holds for all
//! values, and its proof is the law's.

ghost use Rattle.osdp_line_calls.specs.PassingLaws.{TellsWhatIsPassedOver};

/// A reply is told as passed over exactly where each session that isn't open does nothing on it: one that is closed, one that waits for
/// quiet, and one that opens, whatever its number. For each other reply there is such a session that it opens, ends or has wait.
pub fn what_is_told_is_passed_over()
    ensures { TellsWhatIsPassedOver }
{}
