//! The command `plan`.

ghost use Rattle.std.specs.Prelude.{IfErr, IfOk, false, string_bytes, ◌≡◌};
ghost use Rattle.osdp_plan.specs.Plans.{IsPlan};
ghost use Rattle.osdp_tool_plan.specs.Ending.{Ends, Plans, RefusesPlan, RefusesWords};
ghost use Rattle.osdp_tool_streams.specs.Watched.{has_failed, inner_of};
ghost use Rattle.osdp_words.specs.Word.{texts};

use crate::setting::read_plan;
use crate::text::plan_text;
use osdp_plan::{Plan, TooShort, judge};
use osdp_settings::WrongSetting;
use osdp_tool_streams::{ToolFault, Watched, finish, write_out};
use std::alloc::Global;
use std::io::Write;
use thiserror::Error;

/// Why nothing is planned. Times are in milliseconds.
#[derive(Clone, Copy, Debug, PartialEq, Eq, Error)]
pub enum WrongPlan<'a> {
    /// The first words that are no setting.
    #[error("{0}")]
    Setting(WrongSetting<'a>),
    /// The wait for an answer, the bytes of the longest packet, how long they are on the wire, and its rate.
    #[error("osdp: reply-wait {0}: {1} bytes take {2} ms at {3}")]
    PacketPasses(u32, u32, u64, u32),
    /// The wait for an answer, and how long after a packet was handed out its answer may come.
    #[error("osdp: reply-wait {0}: a packet and its answer may take {1} ms")]
    AnswerComes(u32, u64),
    /// The quiet before a session, and how long a packet of the session before and its answer may take.
    #[error("osdp: quiet-wait {0}: an old packet and its answer may take {1} ms")]
    LineIsQuiet(u32, u64),
}

/// What is wrong with a plan, where a setting of it is too short.
fn told<'a>(plan: &Plan, short: TooShort) -> WrongPlan<'a>
    ensures { RefusesPlan plan.now short result }
{
    match short {
        TooShort::PacketPasses(time) => {
            WrongPlan::PacketPasses(plan.reply_wait, plan.longest, time, plan.rate)
        }
        TooShort::AnswerComes(time) => WrongPlan::AnswerComes(plan.reply_wait, time),
        TooShort::LineIsQuiet(time) => WrongPlan::LineIsQuiet(plan.quiet_wait, time),
    }
}

/// What the words plan, where they are settings, of which none is too short for the line. Else the first words that are no settings, or the first setting that is
/// too short.
pub fn planned<'a>(words: &'a [&'a str]) -> Result<Plan, WrongPlan<'a>>
    ensures planned { IfOk result (λ plan. Plans (texts words.now) plan) }
    ensures refused { IfErr result (λ wrong. RefusesWords (texts words.now) wrong) }
{
    let plan = match read_plan(words) {
        Ok(planned) => planned.plan,
        Err(wrong) => return Err(WrongPlan::Setting(wrong)),
    };
    match judge(&plan) {
        Some(short) => Err(told(&plan, short)),
        None => Ok(plan),
    }
}

/// Prints the figures of what the words plan.
fn print<W: Write>(alloc: Global, words: &[&str], output: &mut Watched<W>) -> Result<(), ToolFault>
    ensures { has_failed output.old ≡ false → Ends (texts words.now) (W.contents (inner_of output.old)) (W.contents (inner_of output.new)) (has_failed output.new) result }
{
    let Ok(plan) = planned(words) else {
        return Err(ToolFault::BadWords);
    };
    match plan_text(alloc, &plan) {
        Ok(text) => write_out(output, text.as_bytes()),
        Err(_) => Err(ToolFault::NoMemory),
    }
}

/// Prints how long a line takes that is planned by these words. Words that plan no line are `BadWords`, and then nothing is printed.
pub fn plan<W: Write>(
    alloc: Global,
    words: &[&str],
    output: &mut Watched<W>,
) -> Result<(), ToolFault>
    ensures { Ends (texts words.now) (W.contents (inner_of output.old)) (W.contents (inner_of output.new)) (has_failed output.new) result }
{
    if output.failed() {
        return Err(ToolFault::WriteFailed);
    }
    let answer = print(alloc, words, output);
    finish(false, output, answer)
}
