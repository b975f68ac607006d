//! Two devices on a line, in their turns.

use crate::bus::rows::{Cut, Row, WHOLE, is_told, new_bus, run};
use osdp_bus::BusFault;

const ID_5: &str = "530508000061003F";

const ID_6: &str = "530608000061003E";

const PDID_5: &str = "53851300004553494D010101000000010000E3";

const PDID_6: &str = "53861300004553494D010101000000010000E2";

const POLL_5: &str = "53050700016040";

const POLL_6: &str = "5306070001603F";

const ACK_5: &str = "538507000140E0";

const ACK_6: &str = "538607000140DF";

/// Two devices open, one after the other, and are polled in turn.
const TWO: [Row; 26] = [
    Row::Begins(0, 0, Ok(())),
    Row::Begins(1, 0, Ok(())),
    Row::Begins(1, 7, Err(BusFault::NotClosed)),
    Row::Begins(2, 7, Err(BusFault::NoEntry)),
    Row::Due(Some(400)),
    Row::Stays(399),
    Row::Sends(400, ID_5),
    Row::Stays(405),
    Row::Due(Some(600)),
    Row::Hears(410, PDID_5),
    Row::Due(None),
    Row::Stays(412),
    Row::Told(0, "opened"),
    Row::Due(Some(412)),
    Row::Sends(420, ID_6),
    Row::Hears(430, PDID_6),
    Row::Told(1, "opened"),
    Row::Stays(440),
    Row::Due(Some(460)),
    Row::Sends(460, POLL_5),
    Row::Hears(462, ACK_6),
    Row::Stays(463),
    Row::Quiet,
    Row::Hears(465, ACK_5),
    Row::Quiet,
    Row::Sends(480, POLL_6),
];

#[test]
fn two_devices_take_turns(rt: HostRuntime) {
    let mut bus = new_bus(&rt, rt.alloc(), &[5, 6]);
    run(&rt, &mut bus, &TWO, WHOLE);
    assert_eq!(rt; bus.is_closed(1), Some(false));
    assert_eq!(rt; bus.is_closed(2), None);
    assert_eq!(rt; bus.waiting(2), None);
}

/// Each answer in two pieces, cut after any of its bytes but the last: at one moment they come to the same.
#[test]
fn answers_in_pieces(rt: HostRuntime) {
    for after in 1..19 {
        let mut bus = new_bus(&rt, rt.alloc(), &[5, 6]);
        run(&rt, &mut bus, &TWO, Cut { after, later: 0 });
    }
}

/// Where the second piece of each answer comes a gap later, neither is a packet: both devices are asked three times, and lost.
const TWO_LOST: [Row; 24] = [
    Row::Begins(0, 0, Ok(())),
    Row::Begins(1, 0, Ok(())),
    Row::Sends(400, ID_5),
    Row::Hears(410, PDID_5),
    Row::Quiet,
    Row::Stays(431),
    Row::Sends(600, ID_5),
    Row::Hears(610, PDID_5),
    Row::Quiet,
    Row::Sends(800, ID_5),
    Row::Hears(810, PDID_5),
    Row::Quiet,
    Row::Stays(1000),
    Row::Told(0, "lost"),
    Row::Sends(1000, ID_6),
    Row::Hears(1010, PDID_6),
    Row::Quiet,
    Row::Sends(1200, ID_6),
    Row::Hears(1210, PDID_6),
    Row::Sends(1400, ID_6),
    Row::Hears(1410, PDID_6),
    Row::Stays(1599),
    Row::Stays(1600),
    Row::Told(1, "lost"),
];

#[test]
fn answers_with_a_gap(rt: HostRuntime) {
    for after in 1..19 {
        let mut bus = new_bus(&rt, rt.alloc(), &[5, 6]);
        run(&rt, &mut bus, &TWO_LOST, Cut { after, later: 20 });
    }
}

/// Two devices are open, and the POLL of the first is answered in two pieces a gap apart: it goes out again, and its repeat is answered whole.
#[test]
fn an_ack_with_a_gap(rt: HostRuntime) {
    let cut = [
        Row::Hears(465, ACK_5),
        Row::Quiet,
        Row::Stays(486),
        Row::Stays(659),
        Row::Sends(660, POLL_5),
    ];
    let whole = [Row::Hears(670, ACK_5), Row::Quiet, Row::Sends(680, POLL_6)];
    for after in 1..7 {
        let mut bus = new_bus(&rt, rt.alloc(), &[5, 6]);
        run(&rt, &mut bus, &TWO[..20], WHOLE);
        run(&rt, &mut bus, &cut, Cut { after, later: 20 });
        run(&rt, &mut bus, &whole, WHOLE);
    }
}

/// A pause holds the line, and so does an exchange that is sent again; a session that is lost lets the next device in.
#[test]
fn a_pause_holds_the_line(rt: HostRuntime) {
    let rows = [
        Row::Begins(0, 0, Ok(())),
        Row::Begins(1, 0, Ok(())),
        Row::Sends(400, ID_5),
        Row::Hears(410, "538507000079A8"),
        Row::Stays(459),
        Row::Due(Some(460)),
        Row::Sends(460, ID_5),
        Row::Stays(659),
        Row::Sends(660, ID_5),
        Row::Sends(860, ID_5),
        Row::Due(Some(1060)),
        Row::Stays(1060),
        Row::Told(0, "lost"),
        Row::Sends(1060, ID_6),
    ];
    let mut bus = new_bus(&rt, rt.alloc(), &[5, 6]);
    run(&rt, &mut bus, &rows, WHOLE);
}

/// What is held of a run ends it for the device that holds the line, and a silence does.
#[test]
fn runs_end(rt: HostRuntime) {
    let rows = [
        Row::Begins(0, 0, Ok(())),
        Row::Sends(400, ID_5),
        // The first byte of a packet that never comes: the answer after the silence stands by itself.
        Row::Hears(405, "53"),
        Row::Silence(406),
        Row::Hears(407, PDID_5),
        Row::Told(0, "opened"),
        Row::Hears(408, "53"),
        Row::Due(Some(408)),
        Row::Stays(409),
        Row::Due(Some(457)),
    ];
    let mut bus = new_bus(&rt, rt.alloc(), &[5]);
    run(&rt, &mut bus, &rows, WHOLE);
}

/// Bytes that begin a packet again and again tell nothing, and the device that holds the line still holds it.
#[test]
fn ten_thousand_bytes_53(rt: HostRuntime) {
    let mut bus = new_bus(&rt, rt.alloc(), &[5, 6]);
    let opening = [
        Row::Begins(0, 0, Ok(())),
        Row::Begins(1, 0, Ok(())),
        Row::Sends(400, ID_5),
    ];
    run(&rt, &mut bus, &opening, WHOLE);
    let bytes = [0x53; 1000];
    for _ in 0..10 {
        bus.on_bytes(&bytes, 410);
    }
    is_told(&rt, &mut bus, 0, "none");
    let rest = [Row::Stays(411), Row::Sends(600, ID_5)];
    run(&rt, &mut bus, &rest, WHOLE);
}
