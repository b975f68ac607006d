//! Packets with one byte changed, while one of three devices holds the line.

use crate::bus::rows::{Row, WHOLE, new_bus, run, submit};
use osdp_bus::Bus;
use osdp_check::{Check, Crc16};
use osdp_controller::{LostCause, Report};
use osdp_frame::Burst;
use osdp_msg::{Command, Spelling};
use osdp_test_packets::{PACKETS, bytes_of, check_anew, is_spelled};
use osdp_words::Fields;
use std::alloc::Global;
use std::process::Abort;

/// The first POLL of the device at 0, and of that at 6.
const POLL_0: &str = "53000700016045";

const POLL_6: &str = "5306070001603F";

/// What is told of the changes of each packet of `PACKETS`: how many settle the OUT, are an answer that can't be read, and refuse its number; and
/// the CRC of what is told of all of them in turn. A byte says which of these it was, 1, 2 or 3, or 0 where nothing is told; code and data of the
/// answer follow, or the code that can't be read. `tests/damage.py` derives it from the tables of `docs/PROTOCOL.md`.
const TOLD: &str = "\
0 0 0 D1E1
0 0 0 6BF1
1 0 0 C9D4
0 0 0 6BF1
0 1 0 09ED
0 1 0 819F
0 0 0 EFF1
0 1 0 2135
16 16 0 DA3E
1805 266 0 817A
16 16 0 F710
1812 769 0 8B9A
16 16 0 5530
0 16 16 6659
0 0 0 D1E1
0 0 0 D1E1
0 0 0 6EF2
16 16 0 742B
";

/// How often each was told, and the CRC of all that was told.
#[derive(Drop)]
struct Told {
    settled: usize,
    unread: usize,
    lost: usize,
    check: Crc16,
}

/// Nothing was told.
fn nothing() -> Told {
    Told {
        settled: 0,
        unread: 0,
        lost: 0,
        check: Crc16::start(),
    }
}

/// The words of the OUT, and its bytes.
const OUT: [&str; 2] = ["OUT", "0:2:0"];

const OUT_BYTES: [u8; 5] = [0x68, 0, 2, 0, 0];

/// The command is the OUT.
fn is_out(rt: &impl Abort, command: &Command<'_>) {
    let mut spelling = Spelling::new();
    command.write_into(&mut spelling);
    assert_eq!(rt; spelling.as_slice(), OUT_BYTES.as_slice());
}

impl Told {
    /// The OUT is settled by the reply of these bytes.
    fn settles(&mut self, reply: &[u8]) {
        self.settled = self.settled.saturating_add(1);
        self.check.add(1);
        for byte in reply {
            self.check.add(*byte);
        }
    }

    /// What is told of the OUT counts.
    fn tell(&mut self, rt: &impl Abort, report: &Report<'_>) {
        match report {
            Report::Settled(told, reply) => {
                is_out(rt, told);
                self.settles(reply.write().as_slice());
            }
            Report::Unread(Some(told), code) => {
                is_out(rt, told);
                self.unread = self.unread.saturating_add(1);
                self.check.add(2);
                self.check.add(*code);
            }
            Report::Lost(LostCause::NumberRefused, Some(told)) => {
                is_out(rt, told);
                self.lost = self.lost.saturating_add(1);
                self.check.add(3);
            }
            _ => assert!(rt; false, "another report"),
        }
    }

    /// The report that waits counts, if there is one. It is of entry 0, and the only one.
    fn take(&mut self, rt: &impl Abort, bus: &mut Bus) -> bool {
        let Some((entry, report)) = bus.report() else {
            self.check.add(0);
            return false;
        };
        assert_eq!(rt; entry, 0);
        self.tell(rt, &report);
        bus.settle();
        assert!(rt; bus.report().is_none());
        true
    }
}

/// Three sessions are open, and the device of entry 0, at 5, holds the line with an OUT.
fn holding(rt: &impl Abort, alloc: Global) -> Bus {
    let mut bus = new_bus(rt, alloc, &[5, 0, 6]);
    assert_eq!(rt; submit(rt, &mut bus, 0, &OUT), None);
    let rows = [
        Row::Begins(0, 0, Ok(())),
        Row::Begins(1, 0, Ok(())),
        Row::Begins(2, 0, Ok(())),
        Row::Sends(400, "530508000061003F"),
        Row::Hears(400, "53851300004553494D010101000000010000E3"),
        Row::Told(0, "opened"),
        Row::Sends(400, "5300080000610044"),
        Row::Hears(400, "53801300004553494D010101000000010000E8"),
        Row::Told(1, "opened"),
        Row::Sends(400, "530608000061003E"),
        Row::Hears(400, "53861300004553494D010101000000010000E2"),
        Row::Told(2, "opened"),
        Row::Sends(400, "53050B0001680002000032"),
    ];
    run(rt, &mut bus, &rows, WHOLE);
    bus
}

/// The next frame of each other device is its first POLL.
fn goes_on(rt: &impl Abort, bus: &mut Bus) {
    let mut polled = [false; 2];
    let mut out = Burst::new();
    for second in 1..20u64 {
        if bus.tick(second * 1000, &mut out) {
            let bytes = out.as_slice();
            assert!(rt; bytes.len() >= 7);
            if bytes[1] == 0 && !polled[0] {
                assert!(rt; is_spelled(bytes, POLL_0));
                polled[0] = true;
            }
            if bytes[1] == 6 && !polled[1] {
                assert!(rt; is_spelled(bytes, POLL_6));
                polled[1] = true;
            }
        }
        bus.settle();
    }
    assert!(rt; polled[0] && polled[1]);
}

/// The packet reaches a bus of which entry 0 holds the line. Where it ends the exchange, another such bus takes its place.
fn comes(rt: &impl Abort, alloc: Global, bus: &mut Bus, told: &mut Told, packet: &[u8]) {
    bus.on_bytes(packet, 410);
    bus.on_silence(410);
    if told.take(rt, bus) {
        goes_on(rt, bus);
        *bus = holding(rt, alloc);
    }
}

/// The byte of a packet at a place is changed in each way, without and with its check.
fn comes_changed(rt: &impl Abort, alloc: Global, told: &mut Told, digits: &str, place: usize) {
    let mut bus = holding(rt, alloc);
    for change in 1..=255u8 {
        let mut buffer = [0; 32];
        let count = bytes_of(digits, &mut buffer).expect(rt, digits).len();
        assert!(rt; count <= 32 && place < count);
        let packet = &mut buffer[..count];
        packet[place] ^= change;
        comes(rt, alloc, &mut bus, told, packet);
        check_anew(packet);
        comes(rt, alloc, &mut bus, told, packet);
    }
    goes_on(rt, &mut bus);
}

/// What is told of each change of each byte of a packet.
fn told_of(rt: &impl Abort, alloc: Global, digits: &str) -> Told {
    let mut told = nothing();
    for place in 0..digits.len() / 2 {
        comes_changed(rt, alloc, &mut told, digits, place);
    }
    told
}

/// What was told is what a row says.
fn is_row(rt: &impl Abort, told: &Told, row: &str) {
    let mut words = Fields::of_line(row);
    for count in [told.settled, told.unread, told.lost] {
        let wanted = words.number_u32().expect(rt, row);
        assert_eq!(rt; count, wanted as usize, "{row}");
    }
    let check = words.word().expect(rt, row);
    assert!(rt; is_spelled(&told.check.spell(), check), "{row}");
}

/// Each packet with each byte changed in each way: the holder alone tells of it, and what it has to, and nothing of the others changes.
#[test]
fn packets_with_one_byte_changed(rt: HostRuntime) {
    let mut rows = TOLD.lines();
    for digits in PACKETS.lines() {
        let row = rows.next().expect(&rt, digits);
        is_row(&rt, &told_of(&rt, rt.alloc(), digits), row);
    }
}
