//! The rules to which a device is held by its answers: what an answer shows of a rule, and what a scenario comes to. A device that follows the
//! standard in another way than ours breaks none.
#![tactic(auto)]

mod aspect;
mod claiming;
mod claims;
mod delays;
mod finding;
mod findings;
mod judging;
mod known;
mod laws;
mod packets;
mod showing;
mod verdict;

pub use aspect::Aspect;
pub use claims::Claims;
pub use delays::Delays;
pub use finding::Finding;
pub use known::{Known, Turn};
pub use laws::compares_packets;
pub use packets::{has_reason, is_busy, same_check, same_packet, takes_nothing};
pub use showing::{Heard, shown};
pub use verdict::Verdict;
