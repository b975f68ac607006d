//! The runs of both commands.

ghost use Rattle.std.specs.Prelude.{◌≡◌, ℕ, List, IfErr, IfOk};
ghost use Rattle.osdp_words.specs.Word.{texts};
ghost use Rattle.osdp_line_calls.specs.Runs.{HasNotFailed, Runs, RunsPanel, RunsReader, SetsNone};

use crate::machine::LineMachine;
use crate::panel_session::LinePanel;
use crate::reader_session::LineDevice;
use osdp_line_answers::{LineAnswerer, answer_lines};
use osdp_tool_streams::{ToolFault, Watched};
use std::alloc::Global;
use std::io::{Read, Write};

/// What a command runs on: where its memory comes from, its words, its input and its output.
#[derive(Drop)]
pub struct LineRun<'a, R, W> {
    /// Where its memory comes from.
    pub alloc: Global,
    /// The words after its name.
    pub words: &'a [&'a str],
    /// The lines that it reads.
    pub input: Watched<R>,
    /// Where it writes its answers.
    pub output: Watched<W>,
}

/// A machine that is called by lines, and that the words after a command's name set.
pub trait LineCommand: LineAnswerer + Drop + Sized {
    ghost is_set_by: { List (List ℕ) → Self → Type 0 };

    /// The machine that the words set.
    ///
    /// BadWords where the words are no settings; else NoMemory where there is none for it.
    fn of_words(alloc: Global, words: &[&str]) -> Result<Self, ToolFault>
        ensures set { IfOk result (λ machine. is_set_by (texts words.now) machine) }
        ensures ready { IfOk result (λ machine. Self.is_ready machine) }
        ensures none { IfErr result (λ fault. SetsNone is_set_by (texts words.now) fault) };
}

/// Makes the machine that the words set, and answers each line of the input to its end.
///
/// BadWords where the words are no settings: nothing is read then.
pub fn run_lines<P: LineCommand, R: Read, W: Write>(
    run: &mut LineRun<'_, R, W>,
) -> Result<(), ToolFault>
    requires unfailed { HasNotFailed run.old }
    ensures run { Runs P.is_set_by P.answers R.remaining W.contents run.old run.new result }
    ensures words { run.new.words ≡ run.old.words }
{
    let mut machine = P::of_words(run.alloc, run.words)?;
    answer_lines(run.alloc, &mut machine, &mut run.input, &mut run.output)
}

/// The run of a panel without devices.
pub fn panel_lines<R: Read, W: Write>(run: &mut LineRun<'_, R, W>) -> Result<(), ToolFault>
    requires unfailed { HasNotFailed run.old }
    ensures run { RunsPanel R.remaining W.contents run.old run.new result }
    ensures words { run.new.words ≡ run.old.words }
{
    run_lines::<LinePanel, R, W>(run)
}

/// The run of a reader's device.
pub fn reader_lines<R: Read, W: Write>(run: &mut LineRun<'_, R, W>) -> Result<(), ToolFault>
    requires unfailed { HasNotFailed run.old }
    ensures run { RunsReader R.remaining W.contents run.old run.new result }
    ensures words { run.new.words ≡ run.old.words }
{
    run_lines::<LineDevice, R, W>(run)
}
