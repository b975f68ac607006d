//! Damaged packets.

use super::*;
use crate::tests::damage::{changed, checked_count};
use crate::tests::responses::{Response, response_of};
use osdp_check::{Check, Crc16};
use osdp_test_packets::{PACKETS, check_anew};

/// Hands the packets in a run to a reader, and answers how many there were and the last answer.
fn hand_over(rt: &impl Abort, reader: &mut Reader<Bench>, run: &[u8]) -> (usize, Response) {
    let mut framer = Framer::new();
    assert_eq!(rt; framer.push(run), run.len());
    framer.gap();
    let mut answer = Response::silent();
    let mut count: usize = 0;
    for _ in 0..=run.len() {
        match framer.next() {
            None => break,
            Some(Item::Packet(packet)) => {
                answer = response_of(reader, &packet);
                count = count.saturating_add(1);
            }
            Some(Item::Skipped(_) | Item::Refused(_)) => {}
        }
        framer.advance();
    }
    (count, answer)
}

/// A TEXT with a wrong checksum, which holds a POLL.
const DAMAGED: &str = "53001400016B0001000101075300070000604624";

#[test]
fn a_packet_within_a_damaged_one_is_answered(rt: HostRuntime) {
    let mut reader = reader_with(&rt, rt.alloc(), 0, 4, Given::Done);
    let mut buffer = [0; 32];
    let run = bytes_of(DAMAGED, &mut buffer).expect(&rt, DAMAGED);
    let (count, answer) = hand_over(&rt, &mut reader, run);
    assert_eq!(rt; count, 1);
    assert_eq!(rt; answer.kind, Kind::Zero);
    assert!(rt; is_spelled(answer.bytes(), "538007000040E6"));
}

/// Each change of the byte at this place reaches a reader, which says nothing. Answers how many packets there were.
fn changes_at(rt: &impl Abort, reader: &mut Reader<Bench>, packet: &[u8], place: usize) -> usize {
    let mut count: usize = 0;
    for change in 1..=255u8 {
        let run = changed(rt, packet, place, change);
        assert!(rt; packet.len() <= 32);
        let (packets, answer) = hand_over(rt, reader, &run[..packet.len()]);
        assert_eq!(rt; answer.kind, Kind::Silent);
        count = count.saturating_add(packets);
    }
    count
}

/// Each change of each byte of the packet likewise.
fn changes_of(rt: &impl Abort, reader: &mut Reader<Bench>, digits: &str) -> usize {
    let mut buffer = [0; 32];
    let packet = bytes_of(digits, &mut buffer).expect(rt, digits);
    let mut count: usize = 0;
    for place in 0..packet.len() {
        count = count.saturating_add(changes_at(rt, reader, packet, place));
    }
    count
}

/// One changed byte leaves no packet but `53000800B060EBAA`: with another kind of check the byte EB is data, and AA the checksum.
#[test]
fn no_changed_byte_stops_a_reader(rt: HostRuntime) {
    let mut reader = opened(&rt, rt.alloc(), 4, Given::Done);
    let mut count: usize = 0;
    for digits in PACKETS.lines() {
        count = count.saturating_add(changes_of(&rt, &mut reader, digits));
    }
    assert_eq!(rt; count, 1);
    is_answered(&rt, &mut reader, "53050700016040 Taken 538507000140E0");
}

/// The packet of an ID with number 0 to this address.
fn id_to(rt: &impl Abort, address: u8) -> [u8; 8] {
    let mut packet = [0x53, address, 0x08, 0x00, 0x00, 0x61, 0x00, 0x00];
    check_anew(&mut packet);
    packet
}

/// The packet which stands first in these bytes meets this line; where none does, silence.
fn meets(rt: &impl Abort, reader: &mut Reader<Bench>, run: &[u8]) -> Response {
    match response_to(rt, reader, run) {
        Some(response) => response,
        None => Response::silent(),
    }
}

/// An ID with number 0 comes to the reader at this address, and is answered.
fn opens(rt: &impl Abort, reader: &mut Reader<Bench>, address: u8) {
    let answer = meets(rt, reader, &id_to(rt, address));
    assert_eq!(rt; answer.kind, Kind::Zero);
}

/// A reader at this address that was opened by ID; at 5 for the configuration address.
fn opened_at(rt: &impl Abort, alloc: Global, named: u8) -> Reader<Bench> {
    let address = if named >= 127 { 5 } else { named };
    let mut reader = reader_with(rt, alloc, address, 4, Given::Done);
    opens(rt, &mut reader, address);
    reader
}

/// How many changes of each packet of `PACKETS` met the lines of silence, a security block, number 0, a taken number and a wrong one, and the CRC
/// of all answers in turn. `tests/damage.py` derives it from the tables of `docs/PROTOCOL.md`.
const MET: &str = "\
1021 64 397 16 32 9255
893 128 413 32 64 1E5C
1402 0 0 128 0 E43F
893 128 668 32 64 4F0F
893 128 32 1433 64 CDDD
893 128 32 1433 64 E33B
893 128 32 32 4015 0B2F
893 128 32 1688 64 42C8
4462 0 128 0 0 8B55
2932 0 0 128 0 B7A1
1912 0 0 0 128 7FB1
3442 0 0 128 0 B7A1
2422 0 0 0 128 7FB1
1657 0 0 0 128 7BF6
1402 0 128 0 0 8B55
1402 0 128 0 0 37DA
893 128 32 32 1465 41D0
2167 0 0 0 128 7BF6
";

/// How many packets met each of these lines, and the CRC of all answers.
#[derive(Drop)]
struct Met {
    silent: usize,
    secured: usize,
    zero: usize,
    taken: usize,
    wrong: usize,
    check: Crc16,
}

/// No packet met any.
fn none() -> Met {
    Met {
        silent: 0,
        secured: 0,
        zero: 0,
        taken: 0,
        wrong: 0,
        check: Crc16::start(),
    }
}

impl Met {
    /// One more.
    fn count(&mut self, rt: &impl Abort, kind: Kind) {
        let counter = match kind {
            Kind::Silent => &mut self.silent,
            Kind::Secured => &mut self.secured,
            Kind::Zero => &mut self.zero,
            Kind::Taken => &mut self.taken,
            Kind::Wrong => &mut self.wrong,
            Kind::Repeat | Kind::Busy => {
                assert!(rt; false, "the reader is not busy, and 0 is no last number");
                return;
            }
        };
        *counter = counter.saturating_add(1);
    }

    /// One more, and its answer.
    fn tell(&mut self, rt: &impl Abort, response: &Response) {
        self.count(rt, response.kind);
        for byte in response.bytes() {
            self.check.add(*byte);
        }
    }
}

/// A reader, and what the packets to it have met.
#[derive(Drop)]
struct Trial {
    reader: Reader<Bench>,
    met: Met,
}

impl Trial {
    /// The packet reaches the reader at its address, and the next ID is answered. A reader at another address is opened first.
    fn meet(&mut self, rt: &impl Abort, alloc: Global, packet: &[u8]) {
        assert!(rt; packet.len() >= 7);
        let named = packet[1] & 127;
        if self.reader.address().get() != named {
            self.reader = opened_at(rt, alloc, named);
        }
        self.met.tell(rt, &meets(rt, &mut self.reader, packet));
        let address = self.reader.address().get();
        opens(rt, &mut self.reader, address);
    }

    /// Each change of the byte at this place, with the check spelled anew.
    fn meet_changes_at(&mut self, rt: &impl Abort, alloc: Global, packet: &[u8], place: usize) {
        let count = packet.len();
        for change in 1..=255u8 {
            let mut run = changed(rt, packet, place, change);
            assert!(rt; count <= 32);
            check_anew(&mut run[..count]);
            self.meet(rt, alloc, &run[..count]);
        }
    }

    /// Each change of each byte before the check.
    fn meet_changes(&mut self, rt: &impl Abort, alloc: Global, digits: &str) {
        let mut buffer = [0; 32];
        let packet = bytes_of(digits, &mut buffer).expect(rt, digits);
        for place in 0..checked_count(rt, packet) {
            self.meet_changes_at(rt, alloc, packet, place);
        }
    }
}

/// The number that stands in front of a row, and the rest of the row.
fn number<'a>(rt: &impl Abort, row: &'a str) -> (usize, &'a str) {
    let (word, rest) = row.split_once(' ').expect(rt, row);
    (word.parse().ok().expect(rt, row), rest)
}

/// What the packets have met is what a row says.
fn is_row(rt: &impl Abort, met: &Met, row: &str) {
    let (silent, rest) = number(rt, row);
    let (secured, rest) = number(rt, rest);
    let (zero, rest) = number(rt, rest);
    let (taken, rest) = number(rt, rest);
    let (wrong, check) = number(rt, rest);
    assert_eq!(rt;
        (met.silent, met.secured, met.zero),
        (silent, secured, zero),
        "{row}"
    );
    assert_eq!(rt; (met.taken, met.wrong), (taken, wrong), "{row}");
    assert!(rt; is_spelled(&met.check.spell(), check), "{row}");
}

/// Each change of a byte before the check, with the check spelled anew, reaches a reader at its address that was just opened by an
/// ID. It is answered as the reader's table says, and the next ID is answered.
#[test]
fn no_changed_packet_stops_a_reader(rt: HostRuntime) {
    let mut trial = Trial {
        reader: opened_at(&rt, rt.alloc(), 5),
        met: none(),
    };
    let mut rows = MET.lines();
    for digits in PACKETS.lines() {
        trial.met = none();
        trial.meet_changes(&rt, rt.alloc(), digits);
        is_row(&rt, &trial.met, rows.next().expect(&rt, digits));
    }
}
