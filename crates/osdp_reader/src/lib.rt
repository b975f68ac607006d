//! The reader's machine: the device end of the link.
//!
//! A `Reader` is given the packets of the line and answers each by the reader's table. A command that comes again with the last
//! number, if that isn't 0, is answered by the reply that was kept and isn't acted on again; at number 0 each is acted on. Each
//! event stays until the controller has it. What a command does is the matter of a `Handler`. Only `Reader::new` and
//! `ReaderParts::new` take memory, and no rule depends on time.
#![tactic(auto)]

mod config;
mod events;
mod fault;
mod handler;
mod heard;
mod kind;
mod parts;
mod reader;
mod reply;
mod stored;

pub use config::ReaderConfig;
pub use fault::ReaderFault;
pub use handler::{Answer, Handler, lend};
pub use heard::Heard;
pub use kind::Kind;
pub use parts::ReaderParts;
pub use reader::Reader;
