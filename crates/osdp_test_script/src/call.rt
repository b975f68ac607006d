//! What a line of a script says.

use crate::awaited::Awaited;
use crate::kept::KeptReply;
use arrayvec::ArrayVec;
use osdp_frame::{Address, CheckKind};
use osdp_msg::KeptCommand;

/// What a script may do only where a line of it says so.
#[derive(Clone, Copy, Debug, PartialEq, Eq)]
pub enum Permit {
    /// An OUT of this output.
    Output(u8),
    /// An LED.
    Led,
    /// A BUZ.
    Buzzer,
    /// A TEXT.
    Text,
    /// A COMSET.
    Comset,
    /// A maker's command.
    Maker,
}

/// Until when something is expected, in milliseconds.
#[derive(Clone, Copy, Debug, PartialEq, Eq)]
pub enum Term {
    /// The answer may take its time.
    Open,
    /// The answer begins within so many milliseconds.
    Within(u32),
    /// The device is polled until its user makes it say so, or so many milliseconds are over.
    FromUser(u32),
}

/// A line of a script, or what was heard after a packet that it sent.
#[derive(Debug, Drop)]
pub enum ScriptCall {
    /// The lines to come are of the device at this address.
    Device(Address),
    /// Packets end with this check from now on.
    Check(CheckKind),
    /// This may be done to the device.
    May(Permit),
    /// A packet with this command and the next number.
    Send(KeptCommand),
    /// The packet that was sent last, with the same number.
    Repeat,
    /// The next packet has number 0.
    Reopen,
    /// The answer to the next packet is passed over.
    Lose,
    /// This byte of the next packet, counted from 1, is sent inverted; the last, where there are fewer.
    Damage(u16),
    /// Nothing is sent for so many milliseconds.
    Wait(u32),
    /// What is expected, and until when.
    Expect(Awaited, Term),
    /// The answer begins with the code and the data of this reply.
    Reads(KeptReply),
    /// The byte of the answer's data at this place, counted from 1, is kept.
    Keep(u16),
    /// The same byte of this answer is so many more than the one that was kept.
    Counts(u8),
    /// What was heard after the packet that was sent at a moment: so many milliseconds later the answer in it began, or its first byte where there is none.
    Heard(u64, u64, ArrayVec<u8, 4096>),
    /// Whoever sends the packets asks whether all that is to be printed was printed.
    Ready,
}
