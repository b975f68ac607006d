//! What a device tells and does whose program set beforehand what there is.

use crate::device::devices::{hears, opened, says_next};
use osdp_device::{Heard, again, taken};
use osdp_frame::Burst;
use osdp_msg::Command;
use std::alloc::Global;
use std::process::Abort;

/// A command with number 1, its answer, and its text.
const EXCHANGES: &str = "\
5305070001643C 5385090001480001D5 LSTAT
5305070001653B 5385090001490100D4 ISTAT
5305070001663A 53850900014A0001D3 OSTAT
53050700016739 53850800014B02D2 RSTAT
53050B0001680102000031 538507000140E0 OUT 1:2:0
53050B0001680202000030 53850800014109D5 OUT 2:2:0
53050F00016800020000020200002A 53850800014109D5 OUT 0:2:0 2:2:0
530515000169000002050501001E000101000200FA 538507000140E0 LED 0:0:2:5:5:1:0:30:1:1:0:2:0
53050C00016A000205050124 538507000140E0 BUZ 0 2 5 5 1
53050E00016B00010001010141E9 538507000140E0 TEXT 0 1 0 1 1 41
53050A00018053494D34 53850800014109D5 MFG 53494D none
53050C00016E078025000081 53850C00015407802500001B COMSET 7 9600
";

/// The command has this text.
fn is_printed(rt: &impl Abort, alloc: Global, command: &Command<'_>, text: &str) {
    let printed = command
        .to_string(alloc)
        .ok()
        .expect(rt, "memory for a text");
    assert_eq!(rt; printed.as_str(), text);
}

/// The command of this text was taken.
fn is_taken(rt: &impl Abort, alloc: Global, heard: &Heard<'_>, text: &str) {
    assert!(rt; again(heard).is_none());
    is_printed(rt, alloc, taken(heard).expect(rt, "a command"), text);
}

/// A command of a row is answered so, and told as taken.
fn is_answered(rt: &impl Abort, alloc: Global, row: &str) {
    let (given, rest) = row.split_once(' ').expect(rt, "a reply");
    let (sent, text) = rest.split_once(' ').expect(rt, "a text");
    let mut device = opened(rt, alloc);
    hears(rt, &mut device, given, 2000);
    let kind = says_next(rt, &mut device, sent);
    is_taken(rt, alloc, &device.heard(kind), text);
}

#[test]
fn commands_are_answered_and_told(rt: HostRuntime) {
    for row in EXCHANGES.lines() {
        is_answered(&rt, rt.alloc(), row);
    }
}

/// The same packet once more is answered the same, and nothing is taken again.
#[test]
fn repeats_are_not_taken(rt: HostRuntime) {
    let mut device = opened(&rt, rt.alloc());
    hears(&rt, &mut device, "53050B0001680102000031", 2000);
    let _ = says_next(&rt, &mut device, "538507000140E0");
    hears(&rt, &mut device, "53050B0001680102000031", 2200);
    let kind = says_next(&rt, &mut device, "538507000140E0");
    let heard = device.heard(kind);
    assert!(rt; taken(&heard).is_none() && again(&heard).is_none());
}

/// At number 0 an order is acted on each time; a POLL and what can't be read is none.
#[test]
fn orders_at_number_0(rt: HostRuntime) {
    let mut device = opened(&rt, rt.alloc());
    hears(&rt, &mut device, "53050B0000680102000032", 2000);
    let kind = says_next(&rt, &mut device, "538507000040E1");
    let heard = device.heard(kind);
    assert!(rt; taken(&heard).is_none());
    let command = again(&heard).expect(&rt, "a command");
    is_printed(&rt, rt.alloc(), command, "OUT 1:2:0");
    hears(
        &rt,
        &mut device,
        "53050700006041530507000160405305070002702F53050700007130",
        2000,
    );
    let mut out = Burst::new();
    for _ in 0..4 {
        let kind = device.next(&mut out).expect(&rt, "an answer");
        let heard = device.heard(kind);
        assert!(rt; taken(&heard).is_none() && again(&heard).is_none());
    }
    assert!(rt; device.next(&mut out).is_none());
}

/// A COMSET moves the reader: the answer goes out at the old address, and the rate is told with it.
#[test]
fn the_reader_moves(rt: HostRuntime) {
    let mut device = opened(&rt, rt.alloc());
    hears(&rt, &mut device, "53050C00016E078025000081", 2000);
    let kind = says_next(&rt, &mut device, "53850C00015407802500001B");
    let setting = device.heard(kind).comset().expect(&rt, "a setting");
    assert!(rt; setting.address == 7 && setting.baud_rate == 9600);
    assert_eq!(rt; device.reader().address().get(), 7);
}

/// What the program sets is told from then on; no command changes it.
#[test]
fn states_are_set_by_the_program(rt: HostRuntime) {
    let mut device = opened(&rt, rt.alloc());
    let states = device.handler_mut();
    states.tamper = 1;
    states.power = 0;
    hears(&rt, &mut device, "5305070001643C", 2000);
    let _ = says_next(&rt, &mut device, "5385090001480100D5");
}
