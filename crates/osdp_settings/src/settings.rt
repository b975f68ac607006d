//! Settings as words: each name, in any order, with its value after it.

ghost use Rattle.std.specs.Prelude.{◌≡◌, ◌∷◌, [], IfErr, IfOk, Option, Some};
ghost use Rattle.std.specs.Result.{result_ok};
ghost use Rattle.osdp_words.specs.Reading.{ReadsWords};
ghost use Rattle.osdp_words.specs.Word.{texts};
ghost use Rattle.osdp_settings.specs.Settings.{Entry, ReadsSettings, SettingFits, setting_words};
ghost use Rattle.osdp_settings.specs.Wrong.{IsWrong};

use crate::wrong::WrongSetting;
use osdp_words::Fields;

/// What settings make of its defaults.
pub trait Configured: Drop + Sized {
    /// One setting.
    type Setting: Copy;

    ghost entry: { Self.Setting → Entry };

    ghost put: { Self.Setting → Self → Option Self };

    ghost defaults: { Self };

    ghost is_in_range: { Self → Type 0 };

    /// What is set where no word sets it.
    fn default_settings() -> Self
        ensures defaults { result ≡ defaults }
        ensures range { is_in_range result };

    /// The setting of this name with this value.
    fn parse(name: &str, value: &str) -> Option<Self::Setting>
        ensures { ReadsWords (setting_words entry) (SettingFits entry) (name.now ∷ value.now ∷ []) result };

    /// Sets it. None where there is no room for it.
    fn set(self, setting: Self::Setting) -> Option<Self>
        ensures put { result ≡ put setting self }
        ensures range { (next : Self) → SettingFits entry setting → result ≡ Some next → is_in_range self → is_in_range next };
}

/// What the words set: each name, in any order, with its value after it. What no word sets has its default. Where the words are no settings, the
/// first that are none.
pub fn read_settings<'a, C: Configured>(words: &'a [&'a str]) -> Result<C, WrongSetting<'a>>
    ensures reads { ReadsSettings (setting_words C.entry) (SettingFits C.entry) C.put C.defaults (texts words.now) (result_ok result) }
    ensures range { IfOk result C.is_in_range }
    ensures wrong { IfErr result (λ wrong. IsWrong (setting_words C.entry) (SettingFits C.entry) C.put C.defaults (texts words.now) wrong) }
{
    let mut settings = C::default_settings();
    let mut fields = Fields::new(words);
    'settings: while let Some(name) = fields.word() {
        let Some(value) = fields.word() else {
            return Err(WrongSetting::NoValue(name));
        };
        let Some(setting) = C::parse(name, value) else {
            return Err(WrongSetting::NoSetting(name, value));
        };
        let Some(set) = settings.set(setting) else {
            return Err(WrongSetting::OneTooMany(name, value));
        };
        settings = set;
    }
    Ok(settings)
}
