//! A queue of byte strings in room that was taken once: so many strings at most, and so many bytes of all together at most.
//!
//! Each string stands in one piece, so that the first one can be lent. `put` fills a place for one string.
#![tactic(auto)]

mod place;
mod ring;

pub use place::put;
pub use ring::Ring;
