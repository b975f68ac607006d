//! Settings that are too short for their line.

ghost use Rattle.osdp_plan.specs.Judging.{Judges};
ghost use Rattle.osdp_plan.specs.Plans.{IsPlan};

use crate::plan::Plan;

/// A setting that is too short, with how long it has to be.
#[derive(Clone, Copy, Debug, PartialEq, Eq)]
pub enum TooShort {
    /// `reply-wait`: so long takes the longest packet on the wire, and the wait begins as it is handed out.
    PacketPasses(u64),
    /// `reply-wait`: so long after a packet was handed out its answer may come.
    AnswerComes(u64),
    /// `quiet-wait`: so long a packet of the session before and its answer may take, and the quiet has to last longer.
    LineIsQuiet(u64),
}

/// The first setting of a plan that is too short for its line.
pub fn judge(plan: &Plan) -> Option<TooShort>
    requires { IsPlan plan.now }
    ensures { Judges plan.now result }
{
    let packet = plan.wire(plan.longest);
    let wait = u64::from(plan.reply_wait);
    if wait < packet {
        return Some(TooShort::PacketPasses(packet));
    }
    let answer = plan.answered();
    if wait <= answer {
        return Some(TooShort::AnswerComes(answer));
    }
    if u64::from(plan.quiet_wait) <= answer {
        return Some(TooShort::LineIsQuiet(answer));
    }
    None
}
