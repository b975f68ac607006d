//! The first word of a text that cannot stand there. A text that is refused has one such word, or lacks one after its last, and that is the same whatever
//! comes after it. What "cannot stand there" means is the definitions in `specs/`: no text of a value goes on with it.
#![tactic(auto)]

mod command;
mod laws;
mod reply;
mod slot;
mod slots;

pub use command::command_stop;
pub use laws::{one_place, stays_refused, tells_missing_words};
pub use reply::reply_stop;
pub use slot::Slot;
pub use slots::slots_stop;
