//! Where and why a schedule stops, with the account of the steps before.

use crate::tests::accounts::account_text;
use crate::tests::schedules::{config, outcome};
use osdp_door::Door;
use osdp_frame::Address;
use osdp_msg::Command;
use osdp_sim::{Account, Cause, Fault, Move, SimConfig, SimStep, run_session};
use std::alloc::Global;
use std::process::Abort;

const NONE: &str = "issued 0 taken 0 settled 0 unsettled 0 queued 0 reported 0\n";

/// The schedule of these rows stops there.
fn stops(rt: &impl Abort, alloc: Global, rows: &str, step: usize, cause: Cause) {
    let fault = outcome(rt, alloc, rows).err().expect(rt, "a fault");
    assert_eq!(rt; fault.step, step);
    assert_eq!(rt; fault.cause, cause);
    assert_eq!(rt; account_text(rt, alloc, &fault.account).as_str(), NONE);
    assert_eq!(rt; fault.account.sessions.len(), 1);
}

/// Damage that is a packet, also where nothing is on the line, and damage that holds one.
#[test]
fn damage_holds_no_packet(rt: HostRuntime) {
    let opened =
        "wait 400; to-reader deliver; to-controller deliver; wait 50; to-reader damage 53000700006046";
    stops(&rt, rt.alloc(), opened, 5, Cause::HoldsPacket);
    let nothing = "to-controller damage FF53000700006046";
    stops(&rt, rt.alloc(), nothing, 1, Cause::HoldsPacket);
}

/// A session begins again only after its end, and with nothing on the line.
#[test]
fn a_session_begins_on_a_quiet_line(rt: HostRuntime) {
    stops(&rt, rt.alloc(), "reopen 1", 1, Cause::NotQuiet);
    let open = "wait 400; to-reader deliver; to-controller deliver; reopen 1";
    stops(&rt, rt.alloc(), open, 4, Cause::NotQuiet);
}

/// These settings are refused, with an account in which no session has begun.
fn refuses(rt: &impl Abort, alloc: Global, config: &SimConfig) {
    let fault = run_session(alloc, config, Door::new(), &[])
        .err()
        .expect(rt, "a fault");
    assert_eq!(rt; fault.step, 0);
    assert_eq!(rt; fault.cause, Cause::OutOfRange);
    assert_eq!(rt; account_text(rt, alloc, &fault.account).as_str(), NONE);
    assert!(rt; fault.account.sessions.is_empty());
}

#[test]
fn settings_are_in_range(rt: HostRuntime) {
    let mut none = config(&rt);
    none.events = 0;
    refuses(&rt, rt.alloc(), &none);
    let mut many = config(&rt);
    many.commands = 1025;
    refuses(&rt, rt.alloc(), &many);
    let mut nowhere = config(&rt);
    nowhere.reader.address = Address::new(127).expect(&rt, "an address");
    refuses(&rt, rt.alloc(), &nowhere);
}

/// A step with a reader that isn't there does nothing.
#[test]
fn another_reader_is_not_there(rt: HostRuntime) {
    let steps = [
        SimStep::Busy(2, true),
        SimStep::Reopen(0),
        SimStep::Wait(u64::MAX),
        SimStep::Wait(1),
    ];
    let ended = run_session(rt.alloc(), &config(&rt), Door::new(), &steps);
    let account = ended.ok().expect(&rt, "an account");
    assert_eq!(rt; account_text(&rt, rt.alloc(), &account).as_str(), NONE);
}

/// A session that opens and settles a command.
fn opens() -> [SimStep<'static>; 7] {
    [
        SimStep::Issue(1, Command::LocalStatus),
        SimStep::Wait(400),
        SimStep::ToReader(Move::Deliver),
        SimStep::ToController(Move::Deliver),
        SimStep::Wait(50),
        SimStep::ToReader(Move::Deliver),
        SimStep::ToController(Move::Deliver),
    ]
}

/// The account of the first of these steps, as text.
fn text_of_the_first(rt: &impl Abort, alloc: Global, steps: usize) -> String {
    let all = opens();
    assert!(rt; steps <= 7);
    let ended = run_session(alloc, &config(rt), Door::new(), &all[..steps]);
    account_text(rt, alloc, &ended.ok().expect(rt, "an account"))
}

/// There was no memory for a step, and the account is that of the steps before it; for the set-up, an account in which no session has begun.
fn tells_of_the_steps_before(rt: &impl Abort, alloc: Global, fault: &Fault<Account>) {
    assert_eq!(rt; fault.cause, Cause::NoMemory);
    let told = account_text(rt, alloc, &fault.account);
    if fault.step == 0 {
        assert_eq!(rt; told.as_str(), NONE);
        assert!(rt; fault.account.sessions.is_empty());
    } else {
        let before = text_of_the_first(rt, alloc, fault.step - 1);
        assert_eq!(rt; told.as_str(), before.as_str());
        assert_eq!(rt; fault.account.sessions.len(), 1);
    }
}

/// Where memory is refused, as `tests/machines_memory.sh` has it, that is the answer, with the account of the steps before.
#[test]
fn out_of_memory_is_told(rt: HostRuntime) {
    match run_session(rt.alloc(), &config(&rt), Door::new(), &opens()) {
        Ok(account) => {
            assert_eq!(rt; (account.issued.len(), account.taken.len()), (1, 1));
            assert_eq!(rt; (account.settled.len(), account.sessions.len()), (1, 1));
        }
        Err(fault) => tells_of_the_steps_before(&rt, rt.alloc(), &fault),
    }
}

/// It needs its memory.
#[test]
fn memory_is_needed(rt: HostRuntime) {
    let ended = run_session(rt.alloc(), &config(&rt), Door::new(), &opens());
    assert!(rt; ended.is_ok());
}
