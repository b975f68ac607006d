//! The rules to which a panel is held by its packets, as a device sees them that knows what it said itself: what the next packet shows of a rule. A
//! panel that follows the standard in another way than ours breaks none.
#![tactic(auto)]

mod aspect;
mod findings;
mod judging;
mod known;
mod said;
mod sequel;

pub use aspect::Aspect;
pub use judging::judged;
pub use known::Known;
pub use said::Said;
pub use sequel::Sequel;
