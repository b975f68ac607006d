//! What came of an input.

ghost use Rattle.std.specs.Prelude.{◌≡◌};
ghost use Rattle.osdp_tool_inputs.specs.Done.{instead, told_of, wrong_with};

use osdp_tool_captures::BadLine;
use osdp_tool_streams::ToolFault;

/// What came of an input.
#[derive(Clone, Copy)]
pub enum Told {
    /// Whether a refusal was met, or an end accused.
    Refused(bool),
    /// A line of another tool is bad.
    Bad(BadLine),
    /// The input is bad, or has failed.
    Failed(ToolFault),
}

/// What came of an answer. Where the output or memory fails, nothing more is done.
pub fn told_of(answer: Result<bool, ToolFault>) -> Result<Told, ToolFault>
    ensures { result ≡ told_of answer }
{
    match answer {
        Ok(refused) => Ok(Told::Refused(refused)),
        Err(ToolFault::WriteFailed) => Err(ToolFault::WriteFailed),
        Err(ToolFault::NoMemory) => Err(ToolFault::NoMemory),
        Err(fault) => Ok(Told::Failed(fault)),
    }
}

/// What is wrong with an input beside what came of its text: it failed, or a line of it is bad.
fn wrong_with(fault: Option<ToolFault>, bad: Option<BadLine>) -> Option<Told>
    ensures { result ≡ wrong_with fault bad }
{
    if let Some(fault) = fault {
        return Some(Told::Failed(fault));
    }
    Some(Told::Bad(bad?))
}

/// What came of an input whose text had this answer. What is wrong with the input is told in place of it.
pub fn told_with(
    fault: Option<ToolFault>,
    bad: Option<BadLine>,
    answer: Result<bool, ToolFault>,
) -> Result<Told, ToolFault>
    ensures { result ≡ instead (wrong_with fault bad) (told_of answer) }
{
    let told = told_of(answer)?;
    match wrong_with(fault, bad) {
        Some(other) => Ok(other),
        None => Ok(told),
    }
}
