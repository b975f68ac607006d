//! Schedules and what comes of them. All times are the default ones: a session opens after 400 ms of quiet, a POLL follows an answer
//! after 50 ms, a frame is sent three times, 200 ms apart.

use crate::tests::accounts::account_text;
use crate::tests::steps::{places, steps};
use arrayvec::ArrayVec;
use osdp_controller::ControllerConfig;
use osdp_door::Door;
use osdp_frame::{Address, CheckKind};
use osdp_reader::ReaderConfig;
use osdp_script::script_config;
use osdp_session::run_session;
use osdp_sim::{Account, Fault, Lengths, SimConfig};
use std::alloc::Global;
use std::process::Abort;

/// A door at address 5 with room for four events, and a controller with room for 64 commands.
pub fn config(rt: &impl Abort) -> SimConfig {
    let address = Address::new(5).expect(rt, "an address");
    let id = script_config(1, address).id;
    let caps = ArrayVec::new();
    SimConfig {
        reader: ReaderConfig { address, id, caps },
        events: 4,
        controller: ControllerConfig::new(address, CheckKind::Crc),
        commands: 64,
    }
}

/// What these steps come to.
pub fn outcome(rt: &impl Abort, alloc: Global, text: &str) -> Result<Account, Fault<Account>> {
    let mut places = places(rt, alloc, text);
    let steps = steps(rt, alloc, text, &mut places);
    run_session(alloc, &config(rt), Door::new(), steps.as_slice())
}

/// The answers of an event are lost until the session ends, and the next one begins.
const TOLD_AGAIN: &str =
    "queue KEYPAD 0 31; round 400; round 50; wait 50; to-reader drop; wait 200; to-reader drop; wait 200; to-reader drop; wait 200; reopen 1; round 400; round 50";

const SCHEDULES: [(&str, &str); 19] = [
    // The session opens, and then three rounds lose nothing: two commands are settled and one of two events is reported.
    (
        "issue OUT 0:2:0; issue BUZ 0 2 5 5 1; queue KEYPAD 0 31; queue KEYPAD 0 32; round 400; round 50; round 50; round 50",
        "issued 2 taken 2 settled 2 unsettled 0 queued 2 reported 1\ntaken OUT 0:2:0\ntaken BUZ 0 2 5 5 1\nsettled OUT 0:2:0 = ACK\nsettled BUZ 0 2 5 5 1 = ACK\nreported KEYPAD 0 31\n",
    ),
    // The answer is lost, and the command that comes again is answered and not taken again.
    (
        "issue OUT 0:2:0; round 400; wait 50; to-reader deliver; to-controller drop; round 200",
        "issued 1 taken 1 settled 1 unsettled 0 queued 0 reported 0\ntaken OUT 0:2:0\nsettled OUT 0:2:0 = ACK\n",
    ),
    // An event whose reply is damaged twice is reported once, and the next one when the reader isn't busy any more.
    (
        "queue RAW 0 0 26 0A0B0C40; queue KEYPAD 0 31; round 400; wait 50; to-reader deliver; to-controller damage 00; wait 200; to-reader deliver; to-controller damage 53; round 200; busy on; round 50; busy off; round 50",
        "issued 0 taken 0 settled 0 unsettled 0 queued 2 reported 2\nreported RAW 0 0 26 0A0B0C40\nreported KEYPAD 0 31\n",
    ),
    // A command that comes twice is taken once, and its second answer settles nothing.
    (
        "issue OUT 0:2:0; round 400; wait 50; to-reader repeat; to-reader deliver; to-controller deliver; wait 50; to-controller deliver",
        "issued 1 taken 1 settled 1 unsettled 0 queued 0 reported 0\ntaken OUT 0:2:0\nsettled OUT 0:2:0 = ACK\n",
    ),
    // A late copy of the opening ID stands in front of the first POLL.
    (
        "queue KEYPAD 0 31; wait 400; round 200; wait 50; to-reader deliver; to-reader deliver; to-controller deliver; to-controller deliver",
        "issued 0 taken 0 settled 0 unsettled 0 queued 1 reported 1\nreported KEYPAD 0 31\n",
    ),
    // An event whose answers are lost until the session ends is told again in the next one.
    (
        TOLD_AGAIN,
        "issued 0 taken 0 settled 0 unsettled 0 queued 1 reported 2\nreported KEYPAD 0 31\nreported KEYPAD 0 31\nended no-reply\n",
    ),
    // A command that was taken and told unsettled is no command of the next session.
    (
        "issue OUT 0:2:0; issue OUT 1:2:0; round 400; wait 50; to-reader deliver; to-controller drop; wait 200; to-reader drop; wait 200; to-reader drop; wait 200; reopen 1; round 400; round 50",
        "issued 2 taken 2 settled 1 unsettled 1 queued 0 reported 0\ntaken OUT 0:2:0\ntaken OUT 1:2:0\nsettled OUT 1:2:0 = ACK\nunsettled OUT 0:2:0\nended no-reply\n",
    ),
    // A COMSET that is answered ends the session.
    (
        "issue COMSET 7 9600; round 400; round 50",
        "issued 1 taken 1 settled 1 unsettled 0 queued 0 reported 0\ntaken COMSET 7 9600\nsettled COMSET 7 9600 = COM 7 9600\nended moved\n",
    ),
    // After a loss and a BUSY four rounds that lose nothing, of the longest wait, open the session, settle both commands and report the event.
    (
        "issue OUT 0:2:0; issue LSTAT; queue KEYPAD 0 31; wait 400; to-reader drop; busy on; round 200; busy off; round 400; round 400; round 400; round 400",
        "issued 2 taken 2 settled 2 unsettled 0 queued 1 reported 1\ntaken OUT 0:2:0\ntaken LSTAT\nsettled OUT 0:2:0 = ACK\nsettled LSTAT = LSTATR 0 0\nreported KEYPAD 0 31\n",
    ),
    // A repeat is heard and comes again, a loss is neither, and damage isn't heard: in either direction.
    (
        "issue OUT 0:2:0; wait 400; to-reader repeat; to-controller drop; to-reader deliver; to-controller deliver; round 50",
        "issued 1 taken 1 settled 1 unsettled 0 queued 0 reported 0\ntaken OUT 0:2:0\nsettled OUT 0:2:0 = ACK\n",
    ),
    (
        "issue OUT 0:2:0; wait 400; to-reader deliver; to-controller repeat; round 50",
        "issued 1 taken 1 settled 0 unsettled 0 queued 0 reported 0\ntaken OUT 0:2:0\n",
    ),
    (
        "issue OUT 0:2:0; round 400; wait 50; to-reader deliver; to-controller damage 00",
        "issued 1 taken 1 settled 0 unsettled 0 queued 0 reported 0\ntaken OUT 0:2:0\n",
    ),
    (
        "issue OUT 0:2:0; round 400; wait 50; to-reader damage 00",
        "issued 1 taken 0 settled 0 unsettled 0 queued 0 reported 0\n",
    ),
    // Four commands have the numbers 1, 2, 3 and 1. The next round reports the first event.
    (
        "queue KEYPAD 0 31; issue OUT 0:2:0; issue ID 0; queue KEYPAD 0 32; issue COMSET 200 9600; issue LSTAT; clean 5",
        "issued 4 taken 4 settled 4 unsettled 0 queued 2 reported 1\ntaken OUT 0:2:0\ntaken ID 0\ntaken COMSET 200 9600\ntaken LSTAT\nsettled OUT 0:2:0 = ACK\nsettled ID 0 = PDID 53494D 1 1 1 1 0 0\nsettled COMSET 200 9600 = NAK 9\nsettled LSTAT = LSTATR 0 0\nreported KEYPAD 0 31\n",
    ),
    // The opening alone settles nothing, and fewer rounds than commands settle the first of them.
    (
        "issue OUT 0:2:0; issue LSTAT; queue KEYPAD 0 31; clean 0",
        "issued 2 taken 0 settled 0 unsettled 0 queued 1 reported 0\n",
    ),
    (
        "issue OUT 0:2:0; issue LSTAT; queue KEYPAD 0 31; clean 1",
        "issued 2 taken 1 settled 1 unsettled 0 queued 1 reported 0\ntaken OUT 0:2:0\nsettled OUT 0:2:0 = ACK\n",
    ),
    // A POLL is refused, and of six events there is room for four. Further rounds change nothing.
    (
        "issue POLL; queue KEYPAD 0 31; queue KEYPAD 0 32; queue KEYPAD 0 33; queue KEYPAD 0 34; queue KEYPAD 0 35; queue KEYPAD 0 36; clean 7",
        "issued 0 taken 0 settled 0 unsettled 0 queued 4 reported 4\nreported KEYPAD 0 31\nreported KEYPAD 0 32\nreported KEYPAD 0 33\nreported KEYPAD 0 34\n",
    ),
    // The clock stops at the last moment of 64 bits, and what is due is done there, also once more.
    (
        "queue KEYPAD 0 31; queue KEYPAD 0 32; round 400; round 18446744073709551615; round 1",
        "issued 0 taken 0 settled 0 unsettled 0 queued 2 reported 2\nreported KEYPAD 0 31\nreported KEYPAD 0 32\n",
    ),
    // Where an event has left there is room again.
    (
        "queue KEYPAD 0 31; queue KEYPAD 0 32; queue KEYPAD 0 33; queue KEYPAD 0 34; clean 2; queue KEYPAD 0 35; queue KEYPAD 0 36; round 50",
        "issued 0 taken 0 settled 0 unsettled 0 queued 5 reported 3\nreported KEYPAD 0 31\nreported KEYPAD 0 32\nreported KEYPAD 0 33\n",
    ),
];

/// The steps of each row come to the account that stands after them.
#[test]
fn schedules_come_to_their_accounts(rt: HostRuntime) {
    for (steps, text) in SCHEDULES {
        let account = outcome(&rt, rt.alloc(), steps)
            .ok()
            .expect(&rt, "an account");
        let told = account_text(&rt, rt.alloc(), &account);
        assert_eq!(rt; told.as_str(), text, "{steps}");
    }
}

/// The lengths at each beginning of a session are those of the lists then.
#[test]
fn sessions_are_told_apart(rt: HostRuntime) {
    let none = Lengths {
        issued: 0,
        taken: 0,
        settled: 0,
        unsettled: 0,
        queued: 1,
        reported: 0,
        ends: 1,
    };
    let unheard =
        "issue OUT 0:2:0; wait 400; wait 200; wait 200; wait 200; to-reader drop; to-reader drop; to-reader drop; queue KEYPAD 0 31; reopen 1";
    let rows = [
        (
            TOLD_AGAIN,
            Lengths {
                reported: 1,
                ..none
            },
        ),
        (unheard, Lengths { issued: 1, ..none }),
    ];
    for (steps, second) in rows {
        let account = outcome(&rt, rt.alloc(), steps)
            .ok()
            .expect(&rt, "an account");
        assert_eq!(rt; account.sessions.len(), 2, "{steps}");
        assert_eq!(rt; account.sessions[1], second, "{steps}");
    }
}

/// The laws of accounts hold with a door as the reader.
#[test]
fn accounts_hold_with_a_door(_rt: HostRuntime) {
    osdp_sim_laws::schedule_holds_once::<Door>();
    osdp_sim_laws::schedule_comes_through::<Door>();
    osdp_sim_laws::accepts_by_room::<Door>();
    osdp_sim_laws::schedule_goes_in_turn::<Door>();
}

/// So do those of its ledger, and a packet is read as it is spelled.
#[test]
fn ledgers_hold_with_a_door(_rt: HostRuntime) {
    osdp_frame_laws::reads_packets();
    osdp_sim_ledger::run_keeps_ledger::<Door>();
}
