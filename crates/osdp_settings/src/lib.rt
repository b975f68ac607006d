//! Settings of a command as words: each name, in any order, with its value after it; what no word sets has its default, and where a name stands twice, its
//! later value holds. `read_settings` reads them for what is `Configured`, or tells the first words that are none.
#![tactic(auto)]

mod laws;
mod settings;
mod values;
mod wrong;

pub use laws::{sets_what_is_said, tells_once};
pub use settings::{Configured, read_settings};
pub use values::{number_within, read_switch};
pub use wrong::WrongSetting;
