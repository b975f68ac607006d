//! The kinds of work.

use crate::exchanges::{Asked, exchanges, turns};
use crate::heard::{heard, repeats};
use crate::hearing::{idle_ticks, ignored_frames};
use crate::packets::{checks, encoded, encoded_to, framed};
use crate::sessions::{out_rounds, poll_rounds};
use osdp_frame::CheckKind;
use std::alloc::Global;

/// What is done so many times.
#[derive(Clone, Copy, Debug, PartialEq, Eq)]
pub enum Work {
    /// A POLL and its ACK over both machines.
    Polls,
    /// An OUT and its ACK over both machines.
    Outs,
    /// A POLL and its ACK at a controller alone.
    Turns,
    /// A POLL with the next number to a reader alone.
    PollHeard,
    /// The same of an OUT.
    OutHeard,
    /// A packet that a reader has answered already.
    Repeats,
    /// A reply that a controller has no exchange for.
    Ignored,
    /// A tick with nothing due.
    Idle,
    /// A POLL written as bytes, in a burst of its own.
    Encode,
    /// A POLL written as bytes, in a burst that is there.
    EncodeTo,
    /// A packet of 1440 bytes with a checksum through a framer.
    FramerSum,
    /// A packet of 1440 bytes with a CRC through a framer.
    FramerCrc,
    /// The CRC of 1438 bytes.
    Crc,
    /// A round of POLL and ACK in a schedule over a simulated line.
    SessionPolls,
    /// A round of OUT and ACK in a schedule over a simulated line.
    SessionOuts,
}

impl Work {
    /// The kind of this name.
    pub fn of(name: &str) -> Option<Work> {
        match name {
            "poll" => Some(Work::Polls),
            "out" => Some(Work::Outs),
            "turn" => Some(Work::Turns),
            "poll_heard" => Some(Work::PollHeard),
            "out_heard" => Some(Work::OutHeard),
            "repeat" => Some(Work::Repeats),
            "ignored" => Some(Work::Ignored),
            "idle" => Some(Work::Idle),
            "encode" => Some(Work::Encode),
            "encode_to" => Some(Work::EncodeTo),
            "framer_sum" => Some(Work::FramerSum),
            "framer_crc" => Some(Work::FramerCrc),
            "crc" => Some(Work::Crc),
            "session_poll" => Some(Work::SessionPolls),
            "session_out" => Some(Work::SessionOuts),
            _ => None,
        }
    }

    /// Does it so many times, and tells how often it came out as it should. None where there is no memory.
    pub fn done(self, alloc: Global, count: u64) -> Option<u64> {
        match self {
            Work::Polls => exchanges(alloc, Asked::Poll, count),
            Work::Outs => exchanges(alloc, Asked::Out, count),
            Work::Turns => turns(alloc, count),
            Work::PollHeard => heard(alloc, &[0x60], count),
            Work::OutHeard => heard(alloc, &[0x68, 3, 2, 0, 0], count),
            Work::Repeats => repeats(alloc, count),
            Work::Ignored => ignored_frames(alloc, count),
            Work::Idle => idle_ticks(alloc, count),
            Work::Encode => encoded(count),
            Work::EncodeTo => encoded_to(count),
            Work::FramerSum => framed(CheckKind::Sum, count),
            Work::FramerCrc => framed(CheckKind::Crc, count),
            Work::Crc => Some(checks(count)),
            Work::SessionPolls => poll_rounds(alloc, count),
            Work::SessionOuts => out_rounds(alloc, count),
        }
    }
}
