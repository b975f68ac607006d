//! The settings of a plan.

ghost use Rattle.std.specs.Prelude.{◌≡◌, ◌∷◌, [], IfErr, IfOk, Some};
ghost use Rattle.std.specs.Result.{result_ok};
ghost use Rattle.osdp_plan.specs.Plans.{IsPlan};
ghost use Rattle.osdp_settings.specs.Settings.{ReadsSettings, SettingFits, setting_words};
ghost use Rattle.osdp_settings.specs.Wrong.{IsWrong};
ghost use Rattle.osdp_words.specs.Reading.{ReadsWords};
ghost use Rattle.osdp_words.specs.Word.{texts};
ghost use Rattle.osdp_tool_plan.specs.Settings.{AreInRange, defaults, entry, put, with_setting};

use osdp_frame::CheckKind;
use osdp_plan::Plan;
use osdp_settings::{Configured, WrongSetting, number_within, read_settings};

/// An hour in milliseconds, the longest time of a setting.
const HOUR: u32 = 3_600_000;

/// What one setting of a plan sets. Times are in milliseconds, up to an hour.
#[derive(Clone, Copy, Debug, PartialEq, Eq)]
pub enum PlanSetting {
    /// `check`: which check packets end with, `sum` or `crc`.
    Check(CheckKind),
    /// `readers`: how many readers are on the line, 1 to 16.
    Readers(u32),
    /// `rate`: how many bits pass in a second, 300 to 1,000,000.
    Rate(u32),
    /// `longest`: how many bytes the longest packet has, 8 to 1440.
    Longest(u32),
    /// `answer`: how long a reader thinks before it answers.
    Answer(u32),
    /// `hold`: for how long the line holds a packet back.
    Hold(u32),
    /// `late`: how late the panel's program is.
    Late(u32),
    /// `orders`: how many orders of its reader wait before an order or a card, 0 to 1024.
    Orders(u32),
    /// `reply-wait`: how long an answer is waited for.
    ReplyWait(u32),
    /// `poll-interval`: from an answer to the next POLL.
    PollInterval(u32),
    /// `sends`: how often a packet is sent while no answer comes, 1 to 255.
    Sends(u32),
    /// `busy-wait`: from a BUSY to the next send.
    BusyWait(u32),
    /// `busy-limit`: how often a reader may answer BUSY in one exchange, 0 to 255.
    BusyLimit(u32),
    /// `quiet-wait`: how long a device is left quiet before a session opens.
    QuietWait(u32),
}

impl PlanSetting {
    /// The setting of this name with this value.
    pub fn parse(name: &str, value: &str) -> Option<PlanSetting>
        ensures { ReadsWords (setting_words entry) (SettingFits entry) (name.now ∷ value.now ∷ []) result }
    {
        match name {
            "check" => Some(PlanSetting::Check(CheckKind::named(value)?)),
            "readers" => Some(PlanSetting::Readers(number_within(value, 1, 16)?)),
            "rate" => Some(PlanSetting::Rate(number_within(value, 300, 1_000_000)?)),
            "longest" => Some(PlanSetting::Longest(number_within(value, 8, 1440)?)),
            "answer" => Some(PlanSetting::Answer(number_within(value, 0, HOUR)?)),
            "hold" => Some(PlanSetting::Hold(number_within(value, 0, HOUR)?)),
            "late" => Some(PlanSetting::Late(number_within(value, 0, HOUR)?)),
            "orders" => Some(PlanSetting::Orders(number_within(value, 0, 1024)?)),
            "reply-wait" => Some(PlanSetting::ReplyWait(number_within(value, 1, HOUR)?)),
            "poll-interval" => Some(PlanSetting::PollInterval(number_within(value, 1, HOUR)?)),
            "sends" => Some(PlanSetting::Sends(number_within(value, 1, 255)?)),
            "busy-wait" => Some(PlanSetting::BusyWait(number_within(value, 1, HOUR)?)),
            "busy-limit" => Some(PlanSetting::BusyLimit(number_within(value, 0, 255)?)),
            "quiet-wait" => Some(PlanSetting::QuietWait(number_within(value, 1, HOUR)?)),
            _ => None,
        }
    }

    /// The plan with this setting.
    pub fn set(self, plan: Plan) -> Plan
        ensures { result ≡ with_setting self plan }
    {
        match self {
            PlanSetting::Check(check) => Plan { check, ..plan },
            PlanSetting::Readers(readers) => Plan { readers, ..plan },
            PlanSetting::Rate(rate) => Plan { rate, ..plan },
            PlanSetting::Longest(longest) => Plan { longest, ..plan },
            PlanSetting::Answer(answer) => Plan { answer, ..plan },
            PlanSetting::Hold(hold) => Plan { hold, ..plan },
            PlanSetting::Late(late) => Plan { late, ..plan },
            PlanSetting::Orders(orders) => Plan { orders, ..plan },
            PlanSetting::ReplyWait(reply_wait) => Plan { reply_wait, ..plan },
            PlanSetting::PollInterval(poll_interval) => Plan {
                poll_interval,
                ..plan
            },
            PlanSetting::Sends(sends) => Plan { sends, ..plan },
            PlanSetting::BusyWait(busy_wait) => Plan { busy_wait, ..plan },
            PlanSetting::BusyLimit(busy_limit) => Plan { busy_limit, ..plan },
            PlanSetting::QuietWait(quiet_wait) => Plan { quiet_wait, ..plan },
        }
    }
}

/// A plan that words make.
#[derive(Clone, Copy, Debug, PartialEq, Eq, Drop)]
pub struct Planned {
    /// The plan.
    pub plan: Plan,
}

impl Configured for Planned {
    type Setting = PlanSetting;

    ghost entry = { entry };

    ghost put = { put };

    ghost defaults = { defaults };

    ghost is_in_range = { AreInRange };

    fn default_settings() -> Planned {
        Planned { plan: Plan::new() }
    }

    fn parse(name: &str, value: &str) -> Option<PlanSetting> {
        PlanSetting::parse(name, value)
    }

    fn set(self, setting: PlanSetting) -> Option<Planned> {
        Some(Planned {
            plan: setting.set(self.plan),
        })
    }
}

/// What the words plan: each name, in any order, with its value after it. What no word sets has its default, and where a name stands twice, its later value
/// holds. Where the words are no settings, the first that are none.
pub fn read_plan<'a>(words: &'a [&'a str]) -> Result<Planned, WrongSetting<'a>>
    ensures reads { ReadsSettings (setting_words entry) (SettingFits entry) put defaults (texts words.now) (result_ok result) }
    ensures range { IfOk result AreInRange }
    ensures wrong { IfErr result (λ wrong. IsWrong (setting_words entry) (SettingFits entry) put defaults (texts words.now) wrong) }
{
    read_settings(words)
}
