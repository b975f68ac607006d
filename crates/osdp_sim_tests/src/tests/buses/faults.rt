//! The texts of the public faults: each begins with its short name, where it has one.

use osdp_bus::BusFault;
use osdp_controller::ControllerFault;
use osdp_frame::FrameFault;
use osdp_msg::{BadWords, MsgFault};
use osdp_reader::ReaderFault;
use osdp_sim::Cause;
use std::alloc::Global;
use std::error::Error;
use std::process::Abort;

/// The text of each fault stands beside it.
fn are_told<E: Error>(rt: &impl Abort, alloc: Global, rows: &[(E, &str)]) {
    for (fault, text) in rows {
        let told = format!(in alloc; "{fault}");
        let told = told.ok().expect(rt, "memory for a text");
        assert_eq!(rt; told.as_str(), *text);
    }
}

/// The faults of a kind, each with its text.
macro_rules! told {
    ($rt:ident, $kind:ident: $($fault:ident = $text:literal),*) => {
        are_told(&$rt, $rt.alloc(), &[$(($kind::$fault, $text)),*]);
    };
}

#[test]
fn of_packets(rt: HostRuntime) {
    told!(rt, FrameFault:
        TooShort = "F1: the length is below that of the smallest packet", TooLong = "F2: the length is above 1440",
        BadCheck = "F3: the check does not fit the bytes", Ended = "F4: the run ended within the packet");
}

#[test]
fn of_messages(rt: HostRuntime) {
    told!(rt, MsgFault:
        UnknownCode = "M1: unknown code", Length = "M2: wrong length of the data", Count = "M3: a count disagrees with the data");
    are_told(&rt, rt.alloc(), &[(BadWords, "no text of a value")]);
}

#[test]
fn of_readers_and_schedules(rt: HostRuntime) {
    told!(rt, ReaderFault:
        NoMemory = "N1: no memory", OutOfRange = "N3: out of range");
    told!(rt, Cause:
        HoldsPacket = "S2: damage holds a packet", NoMemory = "S3: no memory", NotQuiet = "S4: the line is not quiet",
        OutOfRange = "S5: out of range");
}

#[test]
fn of_controllers(rt: HostRuntime) {
    told!(rt, ControllerFault:
        NoMemory = "C1: no memory", OutOfRange = "C2: out of range", Full = "C3: no room for another command",
        PollSubmitted = "C4: a POLL is not submitted", NotClosed = "C5: the session is not closed");
}

#[test]
fn of_buses(rt: HostRuntime) {
    told!(rt, BusFault:
        NoMemory = "B1: no memory", TooMany = "B2: sixteen devices are there", AddressTaken = "B3: the address is taken",
        NoEntry = "B4: no such entry", OutOfRange = "B5: out of range", AddressOutOfRange = "B6: no device's address",
        Full = "C3: no room for another command", PollSubmitted = "C4: a POLL is not submitted", NotClosed = "C5: the session is not closed");
}
