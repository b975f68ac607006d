//! Scripts: a schedule of a simulated line as text, a line for each step; what such a text means, and what its readers are.
//!
//! `read_script` reads one: which check the controller uses, the readers, and the steps. `Script::schedule` hands the steps out one at a
//! time, as a run of `osdp_sim` takes them.
//!
//! ```text
//! check crc
//! # a reader at address 5, with room for four events
//! reader 5 4
//! # a command and an event of reader 1, the first one
//! issue 1 OUT 0:2:0
//! queue 1 KEYPAD 0 31
//! # opens the session; then three rounds without losses
//! clean 3
//! ```
//!
//! A comment stands on a line of its own.
//!
//! A script's readers are devices with eight outputs (`ScriptReader`). Which OUT is refused is a rule of its own (`are_known`), and so is what the
//! records of an OUT do to the outputs (`switch_all`).
#![tactic(auto)]

mod draft;
mod fault;
mod handler;
mod identity;
mod kept;
mod known;
pub mod laws;
mod line;
pub mod meaning;
mod outputs;
mod parse;
mod reading;
mod schedule;
mod script;
mod step;

pub use fault::ScriptFault;
pub use handler::ScriptReader;
pub use identity::script_config;
pub use known::are_known;
pub use line::{characters, first_line};
pub use outputs::switch_all;
pub use reading::read_script;
pub use schedule::ScriptSteps;
pub use script::{Script, ScriptLine};
