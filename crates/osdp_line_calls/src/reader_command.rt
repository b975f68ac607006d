//! The settings of a reader, and the device that they make.

ghost use Rattle.std.specs.Prelude.{◌≡◌, ◌∷◌, [], IfErr, IfOk};
ghost use Rattle.std.specs.Result.{result_ok};
ghost use Rattle.osdp_words.specs.Reading.{ReadsWords};
ghost use Rattle.osdp_words.specs.Word.{texts};
ghost use Rattle.osdp_line_calls.specs.ReaderSettings.{AreInRange, defaults, entry, put, put_capability};
ghost use Rattle.osdp_line_calls.specs.Runs.{IsDeviceOf};
ghost use Rattle.osdp_settings.specs.Settings.{ReadsSettings, SettingFits, setting_words};
ghost use Rattle.osdp_settings.specs.Wrong.{IsWrong};

use crate::reader_absence::Absence;
use crate::reader_session::LineDevice;
use crate::run::LineCommand;
use crate::values::{device_address, limit, room, time, triple};
use arrayvec::ArrayVec;
use osdp_frame::Address;
use osdp_msg::{Capability, PdId};
use osdp_reader::ReaderConfig;
use osdp_settings::{Configured, WrongSetting, read_settings, read_switch};
use osdp_tool_streams::ToolFault;
use osdp_words::{number_u8, number_u32, vendor};
use std::alloc::Global;

/// What one setting of a reader sets.
#[derive(Clone, Copy, Debug, PartialEq, Eq)]
pub enum ReaderSetting {
    /// `address`: where the reader is at first, 0 to 126.
    At(Address),
    /// `vendor`: the maker's code, three bytes in hexadecimal digits.
    Vendor([u8; 3]),
    /// `model`: the maker's number of the model, 0 to 255.
    Model(u8),
    /// `version`: the maker's number of the model's version, 0 to 255.
    Version(u8),
    /// `serial`: the serial number.
    Serial(u32),
    /// `firmware`: the three numbers of the firmware's version.
    Firmware([u8; 3]),
    /// `cap`: one capability more, its function, level and count.
    Cap([u8; 3]),
    /// `room`: how many events may wait, 1 to 1024.
    Room(usize),
    /// `gap`: after how long a silence a run of bytes is over, in milliseconds, 1 to 3,600,000.
    Gap(u32),
    /// `expire`: how old an event may become while the device is offline, in milliseconds, up to 3,600,000; at 0 none is too old.
    Expire(u32),
    /// `presence`: whether it is told when the device goes offline and when it comes online.
    Presence(bool),
}

/// What a reader's device is made of.
#[derive(Debug, Drop)]
pub struct ReaderSettings {
    /// What the reader is.
    pub config: ReaderConfig,
    /// How many events may wait, 1 to 1024.
    pub room: usize,
    /// After how long a silence a run of bytes is over, in milliseconds, 1 to 3,600,000.
    pub gap: u32,
    /// What the device does while its panel is gone.
    pub absence: Absence,
}

impl ReaderSetting {
    /// The setting of this name with this value.
    pub fn parse(name: &str, value: &str) -> Option<ReaderSetting>
        ensures { ReadsWords (setting_words entry) (SettingFits entry) (name.now ∷ value.now ∷ []) result }
    {
        match name {
            "address" => Some(ReaderSetting::At(device_address(value)?)),
            "vendor" => Some(ReaderSetting::Vendor(vendor(value)?)),
            "model" => Some(ReaderSetting::Model(number_u8(value)?)),
            "version" => Some(ReaderSetting::Version(number_u8(value)?)),
            "serial" => Some(ReaderSetting::Serial(number_u32(value)?)),
            "firmware" => Some(ReaderSetting::Firmware(triple(value)?)),
            "cap" => Some(ReaderSetting::Cap(triple(value)?)),
            "room" => Some(ReaderSetting::Room(room(value)? as usize)),
            "gap" => Some(ReaderSetting::Gap(time(value)?)),
            "expire" => Some(ReaderSetting::Expire(limit(value)?)),
            "presence" => Some(ReaderSetting::Presence(read_switch(value)?)),
            _ => None,
        }
    }

    /// Sets it. None where there are as many capabilities as a reply has room for.
    fn set(self, settings: ReaderSettings) -> Option<ReaderSettings>
        ensures { result ≡ put self settings }
    {
        let mut settings = settings;
        match self {
            ReaderSetting::At(address) => settings.config.address = address,
            ReaderSetting::Vendor(vendor) => settings.config.id.vendor = vendor,
            ReaderSetting::Model(model) => settings.config.id.model = model,
            ReaderSetting::Version(version) => settings.config.id.version = version,
            ReaderSetting::Serial(serial) => settings.config.id.serial = serial,
            ReaderSetting::Firmware(numbers) => {
                let [major, minor, build] = numbers;
                settings.config.id.firmware_major = major;
                settings.config.id.firmware_minor = minor;
                settings.config.id.firmware_build = build;
            }
            ReaderSetting::Cap(numbers) => return add_capability(settings, numbers),
            ReaderSetting::Room(count) => settings.room = count,
            ReaderSetting::Gap(wait) => settings.gap = wait,
            ReaderSetting::Expire(limit) => settings.absence.expire = limit,
            ReaderSetting::Presence(told) => settings.absence.told = told,
        }
        Some(settings)
    }
}

/// One capability more, where there is room for it.
fn add_capability(settings: ReaderSettings, numbers: [u8; 3]) -> Option<ReaderSettings>
    ensures { result ≡ put_capability numbers settings }
{
    let mut settings = settings;
    let [function, level, count] = numbers;
    let capability = Capability {
        function,
        level,
        count,
    };
    match settings.config.caps.try_push(capability) {
        Ok(()) => Some(settings),
        Err(_) => None,
    }
}

/// A reader at address 0 that tells zeros of itself, with room for 64 events and a gap of 20 milliseconds. Its events wait without end, and it isn't
/// told whether its panel is there.
fn default_settings() -> ReaderSettings
    ensures { result ≡ defaults }
{
    let id = PdId {
        vendor: [0; 3],
        model: 0,
        version: 0,
        serial: 0,
        firmware_major: 0,
        firmware_minor: 0,
        firmware_build: 0,
    };
    ReaderSettings {
        config: ReaderConfig {
            address: Address::new(0).unwrap(),
            id,
            caps: ArrayVec::new(),
        },
        room: 64,
        gap: 20,
        absence: Absence {
            expire: 0,
            told: false,
        },
    }
}

impl Configured for ReaderSettings {
    type Setting = ReaderSetting;

    ghost entry = { entry };

    ghost put = { put };

    ghost defaults = { defaults };

    ghost is_in_range = { AreInRange };

    fn default_settings() -> ReaderSettings {
        default_settings()
    }

    fn parse(name: &str, value: &str) -> Option<ReaderSetting> {
        ReaderSetting::parse(name, value)
    }

    fn set(self, setting: ReaderSetting) -> Option<ReaderSettings> {
        setting.set(self)
    }
}

/// The reader that the words set: each name, in any order, with its value after it. What no word sets has its default; where a
/// name stands twice, its later value holds, but each `cap` adds a capability, 477 at most. Where the words are no settings, the
/// first that are none.
pub fn reader_settings<'a>(words: &'a [&'a str]) -> Result<ReaderSettings, WrongSetting<'a>>
    ensures reads { ReadsSettings (setting_words entry) (SettingFits entry) put defaults (texts words.now) (result_ok result) }
    ensures range { IfOk result AreInRange }
    ensures wrong { IfErr result (λ wrong. IsWrong (setting_words entry) (SettingFits entry) put defaults (texts words.now) wrong) }
{
    read_settings(words)
}

impl LineCommand for LineDevice {
    ghost is_set_by = { IsDeviceOf };

    fn of_words(alloc: Global, words: &[&str]) -> Result<LineDevice, ToolFault> {
        let Ok(settings) = reader_settings(words) else {
            return Err(ToolFault::BadWords);
        };
        match LineDevice::new(
            alloc,
            settings.config,
            settings.room,
            settings.gap,
            settings.absence,
        ) {
            Ok(device) => Ok(device),
            Err(_) => Err(ToolFault::NoMemory),
        }
    }
}
