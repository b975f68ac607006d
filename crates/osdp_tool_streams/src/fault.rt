ghost use Rattle.std.specs.Prelude.{◌≡◌};
ghost use Rattle.osdp_tool_streams.specs.ToolFault.{status_of};

use thiserror::Error;

/// Why a command of the program ended without doing all of its work.
#[derive(Clone, Copy, Debug, PartialEq, Eq, Error)]
pub enum ToolFault {
    /// The line of this number, counted from 1, is no line of hexadecimal digits.
    #[error("osdp: line {0}: not hex")]
    NotHex(u64),
    /// The input is longer than the limit.
    #[error("osdp: input too long")]
    TooLong,
    /// The words after the program's name are none that it knows.
    #[error("osdp: bad words")]
    BadWords,
    /// The line of this number, counted from 1, is no line of a script.
    #[error("osdp: line {0}: bad step")]
    BadStep(u64),
    /// The damage of the step of this number holds a packet.
    #[error("osdp: step {0}: damage holds a packet")]
    HoldsPacket(u64),
    /// The step of this number opens a session while a burst is on the line.
    #[error("osdp: step {0}: line not quiet")]
    NotQuiet(u64),
    /// A read of the input failed.
    #[error("osdp: read failed")]
    ReadFailed,
    /// A write or a flush of the output failed.
    #[error("osdp: write failed")]
    WriteFailed,
    /// Memory was refused.
    #[error("osdp: no memory")]
    NoMemory,
}

impl ToolFault {
    /// The status with which the program ends: 2 at bad words or input, 3 at a failed read or
    /// write, 4 without memory.
    pub fn status(&self) -> u8
        ensures { result ≡ status_of self.now }
    {
        match self {
            ToolFault::NotHex(_)
            | ToolFault::TooLong
            | ToolFault::BadWords
            | ToolFault::BadStep(_)
            | ToolFault::HoldsPacket(_)
            | ToolFault::NotQuiet(_) => 2,
            ToolFault::ReadFailed | ToolFault::WriteFailed => 3,
            ToolFault::NoMemory => 4,
        }
    }
}
