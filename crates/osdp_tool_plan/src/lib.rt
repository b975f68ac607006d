//! The command `plan`: how long a line takes that is planned, by its settings.
#![tactic(auto)]

mod command;
mod laws;
mod setting;
mod text;

pub use command::{WrongPlan, plan, planned};
pub use laws::{ends_in_turn, plans_once, refuses_once};
pub use setting::{PlanSetting, Planned, read_plan};
pub use text::plan_text;
