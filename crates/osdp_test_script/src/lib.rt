//! Scripts of one's own for a device under test: what a line says, what it sends, and what its verdict is. The meaning of a script is the definitions in
//! `specs/`: what is sent next, and each verdict, is a function of the lines so far and of what was heard.
#![tactic(auto)]

mod answering;
mod answers;
mod awaited;
mod call;
mod hearing;
mod judging;
mod kept;
pub mod laws;
mod parse;
mod permits;
mod reading;
mod refusal;
mod run;
mod say;
mod seen;
mod sending;
mod stopping;

pub use awaited::Awaited;
pub use call::{Permit, ScriptCall, Term};
pub use kept::KeptReply;
pub use parse::parse_call;
pub use permits::Permits;
pub use refusal::Refusal;
pub use run::{Awaits, Counts, Exchange, Fault, Heard, KeptByte, ScriptRun, UserWait};
pub use seen::Seen;
