//! The command `test`: what was sent to a device and what it answered, line by line, and the verdict on each rule.
#![tactic(auto)]

mod command;
mod entry;
mod exchange;
mod fault;
mod judging;
mod laws;
mod report;
mod rules;
mod runs;
mod said;
mod tested;
mod times;

pub use command::{form_of, form_stop, test};
pub use entry::{Entry, Outcome};
pub use exchange::{Bytes, Exchange, Skip, heard_in, parse_device, parse_exchange, parse_skip};
pub use fault::mark;
pub use judging::{LineTest, judge_lines};
pub use laws::{ends_by_its_lines, ends_in_turn};
pub use report::{Counts, Form, report_text};
pub use rules::{Ground, RULES, Rule, rule_of};
pub use runs::{Found, packets};
