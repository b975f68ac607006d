//! Rows of calls with their answers.

use osdp_bus::{Bus, BusConfig, BusFault, EntryNumber};
use osdp_controller::Report;
use osdp_frame::{Address, Burst, CheckKind};
use osdp_msg::{Command, Room, Spelling};
use osdp_test_packets::{bytes_of, is_spelled};
use std::alloc::Global;
use std::process::Abort;

/// A call of a bus, and what it answers.
#[derive(Clone, Copy)]
pub enum Row {
    /// A tick at a moment sends the packet of these digits.
    Sends(u64, &'static str),
    /// A tick at a moment sends nothing.
    Stays(u64),
    /// The bytes of these digits come at a moment.
    Hears(u64, &'static str),
    /// The line is silent at a moment.
    Silence(u64),
    /// A report of this kind waits from this entry.
    Told(EntryNumber, &'static str),
    /// No report waits.
    Quiet,
    /// A session begins at a moment.
    Begins(EntryNumber, u64, Result<(), BusFault>),
    /// The next tick that does something is at this moment.
    Due(Option<u64>),
}

/// How the bytes of a row are handed over: those after the first so many come so much later.
#[derive(Clone, Copy)]
pub struct Cut {
    pub after: usize,
    pub later: u64,
}

/// A bus with checksums, default times and room for four commands each.
pub fn new_bus(rt: &impl Abort, alloc: Global, addresses: &[u8]) -> Bus {
    let made = Bus::new(alloc, BusConfig::new(CheckKind::Sum, Room::of(4)));
    let mut bus = made.ok().expect(rt, "a bus");
    for (i, address) in addresses.iter().enumerate() {
        assert_eq!(rt; add(rt, &mut bus, *address), Ok(i));
    }
    bus
}

/// Adds a device at the address of this number.
pub fn add(rt: &impl Abort, bus: &mut Bus, address: u8) -> Result<EntryNumber, BusFault> {
    bus.add(Address::new(address).expect(rt, "an address"))
}

/// The command of these words. Its bytes stand in `place`.
pub fn command<'a>(rt: &impl Abort, words: &[&str], place: &'a mut Spelling) -> Command<'a> {
    Command::parse(words, place).ok().expect(rt, "a command")
}

/// Why a command of these words is refused, if it is.
pub fn submit(
    rt: &impl Abort,
    bus: &mut Bus,
    entry: EntryNumber,
    words: &[&str],
) -> Option<BusFault> {
    let mut place = Spelling::new();
    bus.submit(entry, &command(rt, words, &mut place)).err()
}

/// The kind of a report.
pub fn kind(report: &Report<'_>) -> &'static str {
    match report {
        Report::Opened(_) => "opened",
        Report::Settled(..) => "settled",
        Report::Moved(..) => "moved",
        Report::Event(_) => "event",
        Report::PollAnswered(_) => "answered",
        Report::Unread(..) => "unread",
        Report::Lost(..) => "lost",
    }
}

/// A report of this kind waits from this entry. The word `none` is for no report.
pub fn is_told(rt: &impl Abort, bus: &mut Bus, entry: EntryNumber, expected: &str) {
    match bus.report() {
        Some((teller, report)) => {
            assert_eq!(rt; teller, entry);
            assert_eq!(rt; kind(&report), expected);
        }
        None => assert_eq!(rt; expected, "none"),
    }
    bus.settle();
}

/// Hands over the bytes of these digits, cut as is asked for.
fn hands_over(rt: &impl Abort, bus: &mut Bus, now: u64, digits: &str, cut: Cut) {
    let mut buffer = [0; 32];
    let bytes = bytes_of(digits, &mut buffer).expect(rt, digits);
    let count = cut.after.min(bytes.len().saturating_sub(1));
    bus.on_bytes(&bytes[..count], now);
    bus.on_bytes(&bytes[count..], now.saturating_add(cut.later));
}

/// Makes the calls of the rows one after the other.
pub fn run(rt: &impl Abort, bus: &mut Bus, rows: &[Row], cut: Cut) {
    let mut out = Burst::new();
    for row in rows {
        match row {
            Row::Sends(now, digits) => {
                assert!(rt; bus.tick(*now, &mut out), "{digits}");
                assert!(rt; is_spelled(out.as_slice(), digits), "{digits}");
            }
            Row::Stays(now) => assert!(rt; !bus.tick(*now, &mut out), "at {now}"),
            Row::Hears(now, digits) => hands_over(rt, bus, *now, digits, cut),
            Row::Silence(now) => bus.on_silence(*now),
            Row::Told(entry, expected) => is_told(rt, bus, *entry, expected),
            Row::Quiet => is_told(rt, bus, 0, "none"),
            Row::Begins(entry, now, answer) => assert_eq!(rt; bus.begin(*entry, *now), *answer),
            Row::Due(moment) => assert_eq!(rt; bus.next_deadline(), *moment),
        }
    }
}

/// Bytes come in one piece.
pub const WHOLE: Cut = Cut { after: 0, later: 0 };
