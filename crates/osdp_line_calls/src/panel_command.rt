//! The settings of a panel, and the panel that they make.

ghost use Rattle.std.specs.Prelude.{◌≡◌, ◌∷◌, [], IfErr, IfOk};
ghost use Rattle.std.specs.Result.{result_ok};
ghost use Rattle.osdp_words.specs.Reading.{ReadsWords};
ghost use Rattle.osdp_words.specs.Word.{texts};
ghost use Rattle.osdp_line_calls.specs.PanelSettings.{AreInRange, defaults, entry, put, with_setting};
ghost use Rattle.osdp_msg.specs.Limits.{room_for};
ghost use Rattle.osdp_line_calls.specs.Runs.{IsPanelOf};
ghost use Rattle.osdp_settings.specs.Settings.{ReadsSettings, SettingFits, setting_words};
ghost use Rattle.osdp_settings.specs.Wrong.{IsWrong};

use crate::panel_session::LinePanel;
use crate::run::LineCommand;
use crate::values::{room, sends, time};
use osdp_bus::BusConfig;
use osdp_frame::CheckKind;
use osdp_msg::Room;
use osdp_settings::{Configured, WrongSetting, read_settings};
use osdp_tool_streams::ToolFault;
use osdp_words::number_u8;
use std::alloc::Global;

/// What one setting of a panel sets. Times are in milliseconds, 1 to 3,600,000.
#[derive(Clone, Copy, Debug, PartialEq, Eq)]
pub enum PanelSetting {
    /// `check`: which check packets end with, `sum` or `crc`.
    Check(CheckKind),
    /// `reply-wait`: how long an answer is waited for.
    ReplyWait(u32),
    /// `poll-interval`: from an answer to the next POLL.
    PollInterval(u32),
    /// `sends`: how often a packet is sent while no answer comes, 1 to 255.
    Sends(u8),
    /// `busy-wait`: from a BUSY to the next send.
    BusyWait(u32),
    /// `busy-limit`: how often a reader may answer BUSY in one exchange, 0 to 255.
    BusyLimit(u8),
    /// `quiet-wait`: how long a device is left quiet before a session opens.
    QuietWait(u32),
    /// `gap`: after how long a silence a run of bytes is over.
    Gap(u32),
    /// `capacity`: how many commands may wait for each device, 1 to 1024.
    Capacity(u32),
}

impl PanelSetting {
    /// The setting of this name with this value.
    pub fn parse(name: &str, value: &str) -> Option<PanelSetting>
        ensures { ReadsWords (setting_words entry) (SettingFits entry) (name.now ∷ value.now ∷ []) result }
    {
        match name {
            "check" => Some(PanelSetting::Check(CheckKind::named(value)?)),
            "reply-wait" => Some(PanelSetting::ReplyWait(time(value)?)),
            "poll-interval" => Some(PanelSetting::PollInterval(time(value)?)),
            "sends" => Some(PanelSetting::Sends(sends(value)?)),
            "busy-wait" => Some(PanelSetting::BusyWait(time(value)?)),
            "busy-limit" => Some(PanelSetting::BusyLimit(number_u8(value)?)),
            "quiet-wait" => Some(PanelSetting::QuietWait(time(value)?)),
            "gap" => Some(PanelSetting::Gap(time(value)?)),
            "capacity" => Some(PanelSetting::Capacity(room(value)?)),
            _ => None,
        }
    }

    /// Sets what it says of the bus.
    fn set(self, config: &mut BusConfig)
        ensures { config.new ≡ with_setting self config.old }
    {
        match self {
            PanelSetting::Check(kind) => config.check = kind,
            PanelSetting::ReplyWait(wait) => config.reply_wait = wait,
            PanelSetting::PollInterval(wait) => config.poll_interval = wait,
            PanelSetting::Sends(count) => config.sends = count,
            PanelSetting::BusyWait(wait) => config.busy_wait = wait,
            PanelSetting::BusyLimit(count) => config.busy_limit = count,
            PanelSetting::QuietWait(wait) => config.quiet_wait = wait,
            PanelSetting::Gap(wait) => config.gap = wait,
            PanelSetting::Capacity(count) => config.room = Room::of(count as usize),
        }
    }
}

/// The settings of a panel, which words set.
#[derive(Clone, Copy, Debug, PartialEq, Eq, Drop)]
pub struct PanelSettings {
    /// The settings of its bus.
    pub config: BusConfig,
}

impl Configured for PanelSettings {
    type Setting = PanelSetting;

    ghost entry = { entry };

    ghost put = { put };

    ghost defaults = { defaults };

    ghost is_in_range = { AreInRange };

    fn default_settings() -> PanelSettings {
        PanelSettings {
            config: BusConfig::new(CheckKind::Crc, Room::of(64)),
        }
    }

    fn parse(name: &str, value: &str) -> Option<PanelSetting> {
        PanelSetting::parse(name, value)
    }

    fn set(self, setting: PanelSetting) -> Option<PanelSettings> {
        let mut settings = self;
        setting.set(&mut settings.config);
        Some(settings)
    }
}

/// The panel that the words set: each name, in any order, with its value after it. What no word sets has its default, and where
/// a name stands twice, its later value holds. Where the words are no settings, the first that are none.
pub fn panel_settings<'a>(words: &'a [&'a str]) -> Result<PanelSettings, WrongSetting<'a>>
    ensures reads { ReadsSettings (setting_words entry) (SettingFits entry) put defaults (texts words.now) (result_ok result) }
    ensures range { IfOk result AreInRange }
    ensures wrong { IfErr result (λ wrong. IsWrong (setting_words entry) (SettingFits entry) put defaults (texts words.now) wrong) }
{
    read_settings(words)
}

impl LineCommand for LinePanel {
    ghost is_set_by = { IsPanelOf };

    fn of_words(alloc: Global, words: &[&str]) -> Result<LinePanel, ToolFault> {
        let Ok(settings) = panel_settings(words) else {
            return Err(ToolFault::BadWords);
        };
        match LinePanel::new(alloc, settings.config) {
            Ok(panel) => Ok(panel),
            Err(_) => Err(ToolFault::NoMemory),
        }
    }
}
