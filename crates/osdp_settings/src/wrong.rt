//! What is wrong with words that are no settings.

use thiserror::Error;

/// The first words that are no setting.
#[derive(Clone, Copy, Debug, PartialEq, Eq, Error)]
pub enum WrongSetting<'a> {
    /// The last word: there is no value after it.
    #[error("osdp: no value after {0}")]
    NoValue(&'a str),
    /// A name and a value: there is no such setting, or its value is none or out of its range.
    #[error("osdp: no setting: {0} {1}")]
    NoSetting(&'a str, &'a str),
    /// A name and a value: a setting for which there is no room.
    #[error("osdp: one too many: {0} {1}")]
    OneTooMany(&'a str, &'a str),
}
