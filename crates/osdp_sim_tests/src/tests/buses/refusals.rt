//! Each request for memory of a run over a bus, refused by itself.

use crate::tests::buses::readers::config;
use osdp_frame::Address;
use osdp_msg::Command;
use osdp_reader::ReaderConfig;
use osdp_script::{ScriptReader, script_config};
use osdp_session::run_bus;
use osdp_sim::{Account, Cause, Fault, Move, SimStep};
use osdp_tool_sim::account_text;
use std::alloc::Global;
use std::process::Abort;

/// A reader at this address, with room for four events.
fn reader(rt: &impl Abort, address: u8) -> (ReaderConfig, usize, ScriptReader) {
    let address = Address::new(address).expect(rt, "an address");
    (script_config(1, address), 4, ScriptReader::new())
}

/// Readers at 5 and 6; none where there is no memory for their list, which takes the first request.
fn two_readers(rt: &impl Abort, alloc: Global) -> Option<Vec<(ReaderConfig, usize, ScriptReader)>> {
    let mut readers = Vec::with_capacity(alloc, 2).ok()?;
    readers.push(reader(rt, 5)).ok()?;
    readers.push(reader(rt, 6)).ok()?;
    Some(readers)
}

/// Two sessions that open, and a command that is settled in each.
fn opens() -> [SimStep<'static>; 14] {
    [
        SimStep::Issue(1, Command::LocalStatus),
        SimStep::Issue(2, Command::InputStatus),
        SimStep::Wait(400),
        SimStep::ToReader(Move::Deliver),
        SimStep::ToController(Move::Deliver),
        SimStep::Wait(0),
        SimStep::ToReader(Move::Deliver),
        SimStep::ToController(Move::Deliver),
        SimStep::Wait(0),
        SimStep::ToReader(Move::Deliver),
        SimStep::ToController(Move::Deliver),
        SimStep::Wait(0),
        SimStep::ToReader(Move::Deliver),
        SimStep::ToController(Move::Deliver),
    ]
}

/// The two accounts are those of the first of these steps.
fn are_of_the_first(rt: &impl Abort, alloc: Global, told: &[Account], steps: usize) {
    let all = opens();
    assert!(rt; steps <= 14);
    let readers = two_readers(rt, alloc).expect(rt, "memory");
    let accounts = run_bus(alloc, &config(), readers, &all[..steps]);
    let accounts = accounts.ok().expect(rt, "accounts");
    assert_eq!(rt; (told.len(), accounts.len()), (2, 2));
    for place in 0..2 {
        let text = account_text(alloc, place, &told[place]).expect(rt, "memory");
        let wanted = account_text(alloc, place, &accounts[place]).expect(rt, "memory");
        assert_eq!(rt; text.as_str(), wanted.as_str());
        assert_eq!(rt; told[place].sessions.len(), 1);
    }
}

/// There was no memory for a step, and the accounts are those of the steps before it; for the set-up there are none.
fn tells_of_the_steps_before(rt: &impl Abort, alloc: Global, fault: &Fault<Vec<Account>>) {
    assert_eq!(rt; fault.cause, Cause::NoMemory);
    if fault.step == 0 {
        assert!(rt; fault.account.is_empty());
    } else {
        are_of_the_first(rt, alloc, fault.account.as_slice(), fault.step - 1);
    }
}

/// Both commands are settled.
fn are_settled(rt: &impl Abort, accounts: &[Account]) {
    assert_eq!(rt; accounts.len(), 2);
    for account in accounts {
        assert_eq!(rt; (account.issued.len(), account.taken.len()), (1, 1));
        assert_eq!(rt; (account.settled.len(), account.sessions.len()), (1, 1));
    }
}

/// Where memory is refused, as `tests/machines_memory.sh` has it, that is the answer, with the accounts of the steps before.
#[test]
fn out_of_memory_is_told(rt: HostRuntime) {
    let Some(readers) = two_readers(&rt, rt.alloc()) else {
        return;
    };
    match run_bus(rt.alloc(), &config(), readers, &opens()) {
        Ok(accounts) => are_settled(&rt, accounts.as_slice()),
        Err(fault) => tells_of_the_steps_before(&rt, rt.alloc(), &fault),
    }
}

/// It needs its memory.
#[test]
fn memory_is_needed(rt: HostRuntime) {
    let readers = two_readers(&rt, rt.alloc()).expect(&rt, "memory");
    let ended = run_bus(rt.alloc(), &config(), readers, &opens());
    are_settled(&rt, ended.ok().expect(&rt, "accounts").as_slice());
}
