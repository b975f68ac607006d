//! What is printed of runs, and the table after them.

use osdp_test_packets::bytes_of;
use osdp_tool_monitor::Listener;
use osdp_tool_show::Detail;
use std::process::Abort;

/// Each line is a run. The reader answers a repeat anew, and the panel goes on without an answer.
const RUNS: &str = "\
53050700006041
538507000040E1
53050700016040
53850A00015300013198
53050700016040
538507000140E0
5305070002603F
5305070003603E
FF
";

/// What is printed of them, worked out by hand from the rules.
const REPORT: &str = "\
2:0 device 5: opened
6:0 reader 5: a repeat is answered by something else (standard)
     expected 53850A00015300013198
     seen     538507000140E0
8:0 device 5: heard too little to judge
device  asked  polls repeats  answered  busy  nak  events  opened  moved  judged  forgot  accused
5           5      5       1         3     0    0       1       1      0       5       1        1
runs 9 packets 8 skipped 1 refused 0 judged 5 accused 1
";

/// A run comes.
fn hears(rt: &impl Abort, listener: &mut Listener, digits: &str, text: &mut String) {
    let mut buffer = [0; 32];
    let run = bytes_of(digits, &mut buffer).expect(rt, digits);
    listener.hear_run(run, text).expect(rt, digits);
}

/// One listener hears all runs, and prints this of them.
fn prints(rt: &(impl Abort + AllocGlobal), runs: &str, report: &str) {
    let mut listener = Listener::new(rt.alloc(), Detail::Refusals, false).expect(rt, "memory");
    let mut text = String::new(rt.alloc());
    for digits in runs.lines() {
        hears(rt, &mut listener, digits, &mut text);
    }
    listener.push_table(&mut text).expect(rt, "memory");
    assert_eq!(rt; text.as_str(), report);
    assert!(rt; listener.is_wrong());
}

#[test]
fn prints_what_it_finds(rt: HostRuntime) {
    prints(&rt, RUNS, REPORT);
}
