//! Rows from outside, each call with ample memory, and frames of a peer that is not honest.

mod damage;
mod withdrawing;

use crate::tests::identity::config_at;
use osdp_controller::*;
use osdp_frame::{Address, Burst, CheckKind, Framer, Item};
use osdp_msg::{Command, Reply, Room, Spelling};
use osdp_test_packets::{bytes_of, is_spelled};
use std::alloc::Global;
use std::process::Abort;

const ID: &str = "530508000061003F";

const PDID: &str = "53851300004553494D010101000000010000E3";

/// The same with sequence number 1, and from address 6.
const PDID_1: &str = "53851300014553494D010101000000010000E2";

const PDID_OF_6: &str = "53861300004553494D010101000000010000E2";

const OUT_1: &str = "53050B0001680002000032";

const ACK_1: &str = "538507000140E0";

const ACK_2: &str = "538507000240DF";

const ACK_3: &str = "538507000340DE";

const POLL_1: &str = "53050700016040";

const POLL_2: &str = "5305070002603F";

const POLL_3: &str = "5305070003603E";

const KEYPAD_2: &str = "53850B0002530002313263";

const BUSY: &str = "538507000079A8";

const NAK_1: &str = "53850800014101DD";

const NAK_4: &str = "53850800014104DA";

fn config(rt: &impl Abort) -> ControllerConfig {
    let address = Address::new(5).expect(rt, "an address");
    ControllerConfig::new(address, CheckKind::Sum)
}

fn new_controller(rt: &impl Abort, alloc: Global, capacity: usize) -> Controller {
    let made = Controller::new(alloc, config(rt), Room::of(capacity));
    made.ok().expect(rt, "a controller")
}

/// The command of these words. Its bytes stand in `place`.
fn command<'a>(rt: &impl Abort, words: &[&str], place: &'a mut Spelling) -> Command<'a> {
    Command::parse(words, place).ok().expect(rt, "a command")
}

/// Whether two commands are the same.
fn is_same(one: &Command<'_>, other: &Command<'_>) -> bool {
    one.write().as_slice() == other.write().as_slice()
}

/// A framer of these bytes.
fn framer_of(rt: &impl Abort, bytes: &[u8]) -> Framer {
    let mut framer = Framer::new();
    assert_eq!(rt; framer.push(bytes), bytes.len());
    framer
}

/// The report on the one packet of these digits.
fn hear(rt: &impl Abort, controller: &mut Controller, digits: &str, now: u64) -> KeptReport {
    let mut buffer = [0; 32];
    let mut framer = framer_of(rt, bytes_of(digits, &mut buffer).expect(rt, digits));
    let mut report = KeptReport::new();
    match framer.next() {
        Some(Item::Packet(frame)) => controller.hear(&frame, now, &mut report),
        _ => assert!(rt; false, "no packet"),
    }
    report
}

/// Nothing is told of the one packet of these digits.
fn passes_by(rt: &impl Abort, controller: &mut Controller, digits: &str, now: u64) {
    assert!(rt; !hear(rt, controller, digits, now).is_some());
}

/// A tick at this moment sends the packet of these digits and tells nothing.
fn sends(rt: &impl Abort, controller: &mut Controller, now: u64, digits: &str) {
    assert!(rt; controller.due(now));
    let mut out = Burst::new();
    let mut report = KeptReport::new();
    assert!(rt; controller.tick(now, &mut out, &mut report), "{digits}");
    assert!(rt; !report.is_some());
    assert!(rt; is_spelled(out.as_slice(), digits), "{digits}");
    assert!(rt; controller.outstanding());
}

/// A tick at this moment does nothing.
fn stays(rt: &impl Abort, controller: &mut Controller, now: u64) {
    assert!(rt; !controller.due(now));
    let mut report = KeptReport::new();
    assert!(rt; !controller.tick(now, &mut Burst::new(), &mut report));
    assert!(rt; !report.is_some());
}

/// A tick at this moment ends the session, since no reply came, with this command unsettled.
fn ends(rt: &impl Abort, controller: &mut Controller, now: u64, command: Option<&Command<'_>>) {
    let mut report = KeptReport::new();
    assert!(rt; !controller.tick(now, &mut Burst::new(), &mut report));
    assert!(rt; is_lost(&report, LostCause::NoReply, command));
}

/// The next tick is due at this moment.
fn is_due(rt: &impl Abort, controller: &Controller, moment: Option<u64>) {
    assert_eq!(rt; controller.next_deadline(), moment);
}

/// So many frames of the exchange went out.
fn has_sent(rt: &impl Abort, controller: &Controller, frames: u32) {
    assert_eq!(rt; controller.sent_in_exchange(), frames);
}

/// Whether it is what an opened session tells.
fn is_opened(rt: &impl Abort, report: &KeptReport) -> bool {
    match report.read() {
        Some(Report::Opened(id)) => id == config_at(rt, 5).id,
        _ => false,
    }
}

/// Neither the number nor the address of these replies is right, and the session stays closed.
fn hears_no_other(rt: &impl Abort, controller: &mut Controller) {
    passes_by(rt, controller, PDID_1, 405);
    assert!(rt; controller.outstanding());
    passes_by(rt, controller, PDID_OF_6, 405);
    assert!(rt; controller.outstanding());
}

/// A controller of a session that was opened at 410.
fn opened(rt: &impl Abort, alloc: Global) -> Controller {
    let mut controller = new_controller(rt, alloc, 4);
    is_due(rt, &controller, None);
    assert_eq!(rt; controller.begin(0), Ok(()));
    is_due(rt, &controller, Some(400));
    stays(rt, &mut controller, 399);
    sends(rt, &mut controller, 400, ID);
    has_sent(rt, &controller, 1);
    hears_no_other(rt, &mut controller);
    assert!(rt; is_opened(rt, &hear(rt, &mut controller, PDID, 410)));
    assert!(rt; !controller.outstanding());
    controller
}

/// Whether it is what a settled command and its reply tell.
fn is_settled(report: &KeptReport, command: &Command<'_>, reply: &Reply<'_>) -> bool {
    match report.read() {
        Some(Report::Settled(settled, answer)) => {
            is_same(&settled, command) && answer.write().as_slice() == reply.write().as_slice()
        }
        _ => false,
    }
}

/// Whether a session is told that ended for this cause, with this command unsettled.
fn is_lost(report: &KeptReport, cause: LostCause, command: Option<&Command<'_>>) -> bool {
    let Some(Report::Lost(told, unsettled)) = report.read() else {
        return false;
    };
    let is_of = match (&unsettled, command) {
        (Some(one), Some(other)) => is_same(one, other),
        (None, None) => true,
        _ => false,
    };
    told == cause && is_of
}

/// An OUT waits. Its bytes stand in `place`.
fn submits_output<'a>(
    rt: &impl Abort,
    controller: &mut Controller,
    place: &'a mut Spelling,
) -> Command<'a> {
    let output = command(rt, &["OUT", "0:2:0"], place);
    assert!(rt; controller.submit(&output).is_ok());
    output
}

/// An OUT goes out at 411, and is settled at 420.
fn settles_output(rt: &impl Abort, controller: &mut Controller) {
    let mut place = Spelling::new();
    let output = submits_output(rt, controller, &mut place);
    is_due(rt, controller, Some(410));
    sends(rt, controller, 411, OUT_1);
    let report = hear(rt, controller, ACK_1, 420);
    assert!(rt; is_settled(&report, &output, &Reply::Ack));
}

/// The event of a report is spelled so.
fn tells_event(rt: &impl Abort, report: &KeptReport, digits: &str) {
    match report.read() {
        Some(Report::Event(event)) => {
            assert!(rt;
                is_spelled(event.reply().write().as_slice(), digits),
                "{digits}"
            );
        }
        _ => assert!(rt; false, "an event"),
    }
}

/// POLL 2 goes out at 470, and its reply of 480 tells keys 12.
fn tells_keys(rt: &impl Abort, controller: &mut Controller) {
    is_due(rt, controller, Some(470));
    stays(rt, controller, 469);
    sends(rt, controller, 470, POLL_2);
    tells_event(rt, &hear(rt, controller, KEYPAD_2, 480), "5300023132");
}

/// POLL 3 goes out three times, and the session ends at 1130.
fn loses_reader(rt: &impl Abort, controller: &mut Controller) {
    sends(rt, controller, 530, POLL_3);
    stays(rt, controller, 729);
    sends(rt, controller, 730, POLL_3);
    sends(rt, controller, 930, POLL_3);
    has_sent(rt, controller, 3);
    ends(rt, controller, 1130, None);
}

#[test]
fn a_session(rt: HostRuntime) {
    let mut controller = opened(&rt, rt.alloc());
    settles_output(&rt, &mut controller);
    tells_keys(&rt, &mut controller);
    loses_reader(&rt, &mut controller);
    assert_eq!(rt; controller.begin(1130), Ok(()));
    assert_eq!(rt; controller.begin(1130), Err(ControllerFault::NotClosed));
}

/// At this moment a POLL goes out, and an ACK comes.
fn polls(rt: &impl Abort, controller: &mut Controller, now: u64, poll: &str, ack: &str) {
    sends(rt, controller, now, poll);
    passes_by(rt, controller, ack, now);
}

/// The fourth exchange after the opening goes by number 1 again.
#[test]
fn numbers_take_turns(rt: HostRuntime) {
    let mut controller = opened(&rt, rt.alloc());
    polls(&rt, &mut controller, 460, POLL_1, ACK_1);
    polls(&rt, &mut controller, 510, POLL_2, ACK_2);
    polls(&rt, &mut controller, 560, POLL_3, ACK_3);
    sends(&rt, &mut controller, 1000, POLL_1);
}

/// An OUT goes out for this time, and the replies of a busy reader tell nothing.
fn asks_busy_reader(rt: &impl Abort, controller: &mut Controller, now: u64, frames: u32) {
    sends(rt, controller, now, OUT_1);
    has_sent(rt, controller, frames);
    passes_by(rt, controller, BUSY, now);
    passes_by(rt, controller, BUSY, now);
    passes_by(rt, controller, NAK_1, now);
}

/// Twenty-one frames go out, and the twenty-first BUSY ends the session.
#[test]
fn a_reader_that_is_always_busy(rt: HostRuntime) {
    let mut controller = opened(&rt, rt.alloc());
    let mut place = Spelling::new();
    let output = submits_output(&rt, &mut controller, &mut place);
    for count in 1..=20u32 {
        let now = 400 + 50 * u64::from(count);
        asks_busy_reader(&rt, &mut controller, now, count);
    }
    sends(&rt, &mut controller, 1450, OUT_1);
    has_sent(&rt, &controller, 21);
    let report = hear(&rt, &mut controller, BUSY, 1450);
    assert!(rt; is_lost(&report, LostCause::TooBusy, Some(&output)));
    has_sent(&rt, &controller, 0);
}

/// Three frames go out, and the tick after the third NAK 1 ends the session.
#[test]
fn a_reader_that_finds_damage(rt: HostRuntime) {
    let mut controller = opened(&rt, rt.alloc());
    let mut place = Spelling::new();
    let output = submits_output(&rt, &mut controller, &mut place);
    for _ in 0..3 {
        polls(&rt, &mut controller, 500, OUT_1, NAK_1);
    }
    ends(&rt, &mut controller, 500, Some(&output));
}

#[test]
fn a_number_that_is_refused(rt: HostRuntime) {
    let mut controller = opened(&rt, rt.alloc());
    let mut place = Spelling::new();
    let output = submits_output(&rt, &mut controller, &mut place);
    sends(&rt, &mut controller, 411, OUT_1);
    let report = hear(&rt, &mut controller, NAK_4, 412);
    assert!(rt; is_lost(&report, LostCause::NumberRefused, Some(&output)));
    stays(&rt, &mut controller, u64::MAX);
}

/// No controller is made with this capacity, whether there is memory or not.
fn is_out_of_range(rt: &impl Abort, alloc: Global, capacity: usize) {
    let made = Controller::new(alloc, config(rt), Room::of(capacity));
    assert_eq!(rt; made.err(), Some(ControllerFault::OutOfRange));
}

/// A controller is made with this capacity.
fn is_made(rt: &impl Abort, alloc: Global, capacity: usize) {
    assert!(rt; Controller::new(alloc, config(rt), Room::of(capacity)).is_ok());
}

#[test]
fn settings_in_their_ranges(rt: HostRuntime) {
    is_out_of_range(&rt, rt.alloc(), 0);
    is_made(&rt, rt.alloc(), 1);
    is_made(&rt, rt.alloc(), 1024);
    is_out_of_range(&rt, rt.alloc(), 1025);
}

#[test]
fn settings_with_no_frame_to_send(rt: HostRuntime) {
    let mut config = config(&rt);
    config.sends = 0;
    let made = Controller::new(rt.alloc(), config, Room::of(1));
    assert_eq!(rt; made.err(), Some(ControllerFault::OutOfRange));
}

/// The command is refused with this fault.
fn refuses(
    rt: &impl Abort,
    controller: &mut Controller,
    command: &Command<'_>,
    fault: ControllerFault,
) {
    assert_eq!(rt; controller.submit(command), Err(fault));
}

#[test]
fn commands_that_are_refused(rt: HostRuntime) {
    let mut controller = opened(&rt, rt.alloc());
    refuses(
        &rt,
        &mut controller,
        &Command::Poll,
        ControllerFault::PollSubmitted,
    );
    for _ in 0..4 {
        assert!(rt; controller.submit(&Command::LocalStatus).is_ok());
    }
    refuses(
        &rt,
        &mut controller,
        &Command::LocalStatus,
        ControllerFault::Full,
    );
    refuses(
        &rt,
        &mut controller,
        &Command::Poll,
        ControllerFault::PollSubmitted,
    );
    retargets(&rt, &mut controller, 7, Err(ControllerFault::NotClosed));
    assert_eq!(rt; controller.address().get(), 5);
}

/// A change to this address is answered so.
fn retargets(
    rt: &impl Abort,
    controller: &mut Controller,
    address: u8,
    answer: Result<(), ControllerFault>,
) {
    let address = Address::new(address).expect(rt, "an address");
    assert_eq!(rt; controller.retarget(address), answer);
}

const COMSET_1: &str = "53050C00016E078025000081";

/// COM 7 9600 from 5, with number 1.
const COM_1: &str = "53850C00015407802500001B";

/// A COMSET to address 7 is settled, and the session ends.
fn moves(rt: &impl Abort, controller: &mut Controller) {
    let mut place = Spelling::new();
    let comset = command(rt, &["COMSET", "7", "9600"], &mut place);
    assert!(rt; controller.submit(&comset).is_ok());
    sends(rt, controller, 411, COMSET_1);
    match hear(rt, controller, COM_1, 412).read() {
        Some(Report::Moved(_, answered)) => assert_eq!(rt; answered.baud_rate, 9600),
        _ => assert!(rt; false, "moved"),
    }
    assert_eq!(rt; controller.address().get(), 7);
}

#[test]
fn another_address(rt: HostRuntime) {
    let mut controller = opened(&rt, rt.alloc());
    moves(&rt, &mut controller);
    retargets(&rt, &mut controller, 6, Ok(()));
    assert_eq!(rt; controller.address().get(), 6);
    retargets(&rt, &mut controller, 127, Err(ControllerFault::OutOfRange));
}

/// The settings are judged first, and no call but the first asks for memory. A script refuses each allocation in turn.
#[test]
fn out_of_memory_is_told(rt: HostRuntime) {
    is_out_of_range(&rt, rt.alloc(), 0);
    is_out_of_range(&rt, rt.alloc(), 1025);
    match Controller::new(rt.alloc(), config(&rt), Room::of(4)) {
        Ok(controller) => assert!(rt; !controller.outstanding()),
        Err(fault) => assert_eq!(rt; fault, ControllerFault::NoMemory),
    }
}
