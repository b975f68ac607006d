//! Exchanges: a command and the wait for its answer.

use osdp_msg::Command;

/// What an exchange asks, as the tables say it.
#[derive(Debug, Drop)]
pub enum Exchange<'a> {
    /// The opening ID.
    Opening,
    /// A POLL.
    Polling,
    /// A command that was submitted.
    Asking(Command<'a>),
}

/// An exchange that waits for its answer, as the tables say it.
#[derive(Debug, Drop)]
pub struct Outstanding<'a> {
    /// The opening ID, the POLL or the command that waits for its answer.
    pub exchange: Exchange<'a>,
    /// How often the reader answered BUSY.
    pub busies: u8,
    /// How many frames went out.
    pub sent: u32,
}

/// What an exchange asks, without the command.
#[derive(Clone, Copy, Debug, PartialEq, Eq)]
pub enum Asked {
    /// The opening ID.
    Opening,
    /// A POLL.
    Polling,
    /// A command that was submitted.
    Submitted,
}
