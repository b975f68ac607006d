//! Packets with one byte changed.

use super::*;
use crate::tests::damage::{changed, checked_count};
use osdp_frame::FrameView;
use osdp_msg::NakReason;
use osdp_test_packets::{PACKETS, check_anew};

/// Each packet that a run of these bytes has goes to the controller, which tells nothing of it. Answers how many there are.
fn feed(rt: &impl Abort, controller: &mut Controller, bytes: &[u8]) -> usize {
    let mut framer = framer_of(rt, bytes);
    framer.gap();
    let mut report = KeptReport::new();
    let mut packets = 0usize;
    for _ in 0..bytes.len() {
        if let Some(Item::Packet(frame)) = framer.next() {
            controller.hear(&frame, 420, &mut report);
            assert!(rt; !report.is_some());
            packets = packets.saturating_add(1);
        }
        framer.advance();
    }
    packets
}

/// The byte of the packet at this place is changed in each way.
fn feed_changes_at(
    rt: &impl Abort,
    controller: &mut Controller,
    packet: &[u8],
    place: usize,
) -> usize {
    let len = packet.len();
    let mut packets = 0usize;
    for change in 1..=255u8 {
        let bytes = changed(rt, packet, place, change);
        assert!(rt; len <= 32);
        packets = packets.saturating_add(feed(rt, controller, &bytes[..len]));
    }
    packets
}

/// Each byte of the packet is changed in each way.
fn feed_changes(rt: &impl Abort, controller: &mut Controller, digits: &str) -> usize {
    let mut buffer = [0; 32];
    let packet = bytes_of(digits, &mut buffer).expect(rt, digits);
    let mut packets = 0usize;
    for place in 0..packet.len() {
        packets = packets.saturating_add(feed_changes_at(rt, controller, packet, place));
    }
    packets
}

/// One changed byte leaves no packet but `53000800B060EBAA`, which is none of the reader's. So the answer to the OUT that is outstanding is still
/// awaited after all of them, and settles it.
#[test]
fn packets_with_one_byte_changed(rt: HostRuntime) {
    let mut controller = opened(&rt, rt.alloc());
    let mut place = Spelling::new();
    let output = submits_output(&rt, &mut controller, &mut place);
    sends(&rt, &mut controller, 411, OUT_1);
    let mut packets = 0usize;
    for digits in PACKETS.lines() {
        packets = packets.saturating_add(feed_changes(&rt, &mut controller, digits));
    }
    assert_eq!(rt; packets, 1);
    is_due(&rt, &controller, Some(611));
    let report = hear(&rt, &mut controller, ACK_1, 420);
    assert!(rt; is_settled(&report, &output, &Reply::Ack));
}

/// Whether it is told that a number was refused while this command was outstanding.
fn is_number_refused(report: &KeptReport, command: &Command<'_>) -> bool {
    match report.read() {
        Some(Report::Lost(LostCause::NumberRefused, Some(told))) => is_same(&told, command),
        _ => false,
    }
}

/// Whether it is told that the reply to this command has this code and cannot be read.
fn is_unread(report: &KeptReport, command: &Command<'_>, code: u8) -> bool {
    let Some(Report::Unread(told, told_code)) = report.read() else {
        return false;
    };
    match &told {
        Some(told) => is_same(told, command) && told_code == code,
        None => false,
    }
}

/// Whether the report is what this reply to the command has to bring about.
fn is_due_to(report: &KeptReport, reply: &Reply<'_>, command: &Command<'_>) -> bool {
    match reply {
        Reply::Busy => !report.is_some(),
        Reply::Nak(nak) => match nak.reason() {
            NakReason::CheckCharacters => !report.is_some(),
            NakReason::UnexpectedSequence => is_number_refused(report, command),
            _ => is_settled(report, command, reply),
        },
        _ => is_settled(report, command, reply),
    }
}

/// Whether the report is what a frame has to bring about while this command of 5 is outstanding with this number.
fn is_due_report(
    report: &KeptReport,
    frame: &FrameView<'_>,
    command: &Command<'_>,
    number: u8,
) -> bool {
    let is_from_reader = frame.is_reply() && frame.address().get() == 5 && !frame.has_block();
    if !is_from_reader || frame.seq().get() != number {
        return !report.is_some();
    }
    match Reply::read(frame.code(), frame.payload()) {
        Ok(reply) => is_due_to(report, &reply, command),
        Err(_) => is_unread(report, command, frame.code()),
    }
}

/// Opens a session where none stands.
fn open(rt: &impl Abort, controller: &mut Controller) {
    if controller.begin(0).is_ok() {
        let now = controller.next_deadline().expect(rt, "a deadline");
        sends(rt, controller, now, ID);
        let report = hear(rt, controller, PDID, now);
        assert!(rt; matches!(report.read(), Some(Report::Opened(_))));
    }
}

/// Sends the command, in a new session where none stands, and gives the number that it goes by.
fn ask(rt: &impl Abort, controller: &mut Controller, command: &Command<'_>) -> u8 {
    open(rt, controller);
    assert!(rt; controller.submit(command).is_ok());
    let now = controller.next_deadline().expect(rt, "a deadline");
    let mut out = Burst::new();
    assert!(rt; controller.tick(now, &mut out, &mut KeptReport::new()));
    let packet = out.as_slice();
    assert!(rt; packet.len() == 11);
    assert!(rt; is_spelled(&packet[5..10], "6800020000"));
    packet[4] % 4
}

/// The frame brings about what it has to while this command is outstanding.
fn answer_with_frame(
    rt: &impl Abort,
    controller: &mut Controller,
    command: &Command<'_>,
    number: u8,
    frame: &FrameView<'_>,
) {
    let mut report = KeptReport::new();
    controller.hear(frame, 0, &mut report);
    assert!(rt; is_due_report(&report, frame, command, number));
    assert!(rt; controller.outstanding() == !report.is_some());
}

/// How many packets the bytes begin with, one or none. It brings about what it has to while this command is outstanding.
fn answer_with(
    rt: &impl Abort,
    controller: &mut Controller,
    command: &Command<'_>,
    number: u8,
    bytes: &[u8],
) -> usize {
    let mut framer = framer_of(rt, bytes);
    match framer.next() {
        Some(Item::Packet(frame)) => {
            answer_with_frame(rt, controller, command, number, &frame);
            1
        }
        _ => 0,
    }
}

/// The packet as a reply from 5 with this number, the byte at one place changed, and the check spelled anew.
fn changed_reply(rt: &impl Abort, packet: &[u8], number: u8, place: usize, change: u8) -> [u8; 32] {
    let len = packet.len();
    assert!(rt; 7 <= len && len <= 32 && number <= 3);
    let mut reply = [0; 32];
    reply[..len].copy_from_slice(packet);
    reply[1] = 0x85;
    reply[4] = packet[4] / 4 * 4 + number;
    let mut bytes = changed(rt, &reply[..len], place, change);
    check_anew(&mut bytes[..len]);
    bytes
}

/// The byte at this place of a reply from 5 with the outstanding number is changed in each way, and the check spelled
/// anew. Tells how many of these are packets.
fn answer_with_changes(
    rt: &impl Abort,
    controller: &mut Controller,
    command: &Command<'_>,
    packet: &[u8],
    place: usize,
) -> usize {
    let len = packet.len();
    assert!(rt; len <= 32);
    let mut packets = 0usize;
    let mut number = 0;
    for change in 0..=255u8 {
        if !controller.outstanding() {
            number = ask(rt, controller, command);
        }
        let bytes = changed_reply(rt, packet, number, place, change);
        let count = answer_with(rt, controller, command, number, &bytes[..len]);
        packets = packets.saturating_add(count);
    }
    packets
}

/// Ticks alone end the session, and then another one opens.
fn opens_again(rt: &impl Abort, controller: &mut Controller, command: &Command<'_>) {
    for _ in 0..8 {
        if let Some(deadline) = controller.next_deadline() {
            let _ = controller.tick(deadline, &mut Burst::new(), &mut KeptReport::new());
        }
    }
    is_due(rt, controller, None);
    assert_eq!(rt; ask(rt, controller, command), 1);
}

/// The bytes of the length aside, each change is a packet, or, of the kind of check, may be. A session opens after all.
fn changes_are_answered(rt: &impl Abort, alloc: Global, packet: &[u8], place: usize) {
    let mut bytes = Spelling::new();
    let output = command(rt, &["OUT", "0:2:0"], &mut bytes);
    let mut controller = new_controller(rt, alloc, 1);
    let packets = answer_with_changes(rt, &mut controller, &output, packet, place);
    assert!(rt; packets == 256 || place == 4 && packets >= 128);
    opens_again(rt, &mut controller, &output);
}

/// Each byte of a reply is changed but those of its length and its check. Tells how many replies the digits are: one or none.
fn reply_is_answered(rt: &impl Abort, alloc: Global, digits: &str) -> usize {
    let mut buffer = [0; 32];
    let packet = bytes_of(digits, &mut buffer).expect(rt, digits);
    assert!(rt; packet.len() >= 7);
    if packet[1] < 128 {
        return 0;
    }
    changes_are_answered(rt, alloc, packet, 1);
    for place in 4..checked_count(rt, packet) {
        changes_are_answered(rt, alloc, packet, place);
    }
    1
}

/// Each frame that comes with a right check has its one effect, and after each a session opens.
#[test]
fn replies_with_one_byte_changed(rt: HostRuntime) {
    let mut replies = 0usize;
    for digits in PACKETS.lines() {
        replies = replies.saturating_add(reply_is_answered(&rt, rt.alloc(), digits));
    }
    assert_eq!(rt; replies, 10);
}
