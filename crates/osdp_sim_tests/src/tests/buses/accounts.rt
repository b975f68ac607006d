//! Schedules and what comes of them. Times are the default ones: a session opens after 400 ms of quiet, a frame is sent three times, 200 ms
//! apart.

use crate::tests::buses::readers::{config, readers};
use crate::tests::buses::steps::steps;
use crate::tests::steps::places;
use osdp_session::run_bus;
use osdp_sim::{Account, Cause, Fault};
use osdp_tool_sim::account_text;
use std::alloc::Global;
use std::process::Abort;

/// What these steps come to, with a reader at address 5 and one at 6.
fn outcome(
    rt: &impl Abort,
    alloc: Global,
    text: &str,
) -> Result<Vec<Account>, Fault<Vec<Account>>> {
    let mut places = places(rt, alloc, text);
    let steps = steps(rt, alloc, text, &mut places);
    let readers = readers(rt, alloc, &[5, 6], 4);
    run_bus(alloc, &config(), readers, steps.as_slice())
}

/// The accounts of two readers are these texts.
fn are(rt: &impl Abort, alloc: Global, accounts: &[Account], first: &str, second: &str) {
    assert_eq!(rt; accounts.len(), 2);
    let text = account_text(alloc, 1, &accounts[0]).expect(rt, "memory");
    assert_eq!(rt; text.as_str(), first);
    let text = account_text(alloc, 2, &accounts[1]).expect(rt, "memory");
    assert_eq!(rt; text.as_str(), second);
}

const SCHEDULES: [(&str, &str, &str); 2] = [
    // The first reader's session ends, and the second's goes on.
    (
        "issue 1 OUT 0:2:0; issue 2 OUT 1:2:0; wait 400; to-reader deliver; to-controller deliver; wait 0; to-reader deliver; to-controller deliver; wait 0; to-reader drop; wait 200; to-reader drop; wait 200; to-reader drop; wait 200; wait 0; to-reader deliver; to-controller deliver",
        "reader 1 issued 1 taken 0 settled 0 unsettled 1 queued 0 reported 0\nunsettled OUT 0:2:0\nended no-reply\n",
        "reader 2 issued 1 taken 1 settled 1 unsettled 0 queued 0 reported 0\ntaken OUT 1:2:0\nsettled OUT 1:2:0 = ACK\n",
    ),
    // A COMSET to another reader's address is refused, and so is one to an address that is reserved for another reader; told unsettled it may
    // have moved its reader.
    (
        "issue 1 COMSET 6 9600; issue 1 COMSET 7 9600; issue 2 COMSET 7 9600; wait 400; to-reader deliver; to-controller deliver; wait 0; to-reader deliver; to-controller deliver; wait 0; to-reader deliver; to-controller drop; wait 200; to-reader deliver; wait 200; to-reader deliver; wait 200",
        "reader 1 issued 1 taken 1 settled 0 unsettled 1 queued 0 reported 0\ntaken COMSET 7 9600\nunsettled COMSET 7 9600\nended no-reply\n",
        "reader 2 issued 0 taken 0 settled 0 unsettled 0 queued 0 reported 0\n",
    ),
];

/// The steps of each row come to the accounts of two readers that stand after them.
#[test]
fn schedules_come_to_their_accounts(rt: HostRuntime) {
    for (steps, first, second) in SCHEDULES {
        let accounts = outcome(&rt, rt.alloc(), steps).ok().expect(&rt, "accounts");
        are(&rt, rt.alloc(), accounts.as_slice(), first, second);
    }
}

/// A session can't begin again before it has ended. The accounts are those of the steps before, and a step with a reader that isn't there
/// does nothing.
#[test]
fn a_session_begins_after_its_end(rt: HostRuntime) {
    let steps =
        "queue 1 KEYPAD 0 31; queue 3 KEYPAD 0 31; issue 0 LSTAT; reopen 3 .; reopen 2 .; queue 2 KEYPAD 0 31";
    let fault = outcome(&rt, rt.alloc(), steps).err().expect(&rt, "a fault");
    assert_eq!(rt; fault.step, 5);
    assert_eq!(rt; fault.cause, Cause::NotQuiet);
    let first = "reader 1 issued 0 taken 0 settled 0 unsettled 0 queued 1 reported 0\n";
    let second = "reader 2 issued 0 taken 0 settled 0 unsettled 0 queued 0 reported 0\n";
    are(&rt, rt.alloc(), fault.account.as_slice(), first, second);
}
