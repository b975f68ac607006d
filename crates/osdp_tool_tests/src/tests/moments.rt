//! Runs that a silence ends, and tables by the clock: pieces of seven bytes, each at its moment.

use crate::tests::faulty::make_pieces;
use osdp_tool_monitor::{Moments, monitor, monitor_mode};
use osdp_tool_streams::Watched;
use std::alloc::Global;
use std::io::ErrorKind;
use std::process::Abort;

/// POLL, ACK, by turns, with the numbers 0, 1 and 2.
const TURNS: [u8; 42] = [
    0x53, 0x05, 0x07, 0x00, 0x00, 0x60, 0x41, 0x53, 0x85, 0x07, 0x00, 0x00, 0x40, 0xE1, //
    0x53, 0x05, 0x07, 0x00, 0x01, 0x60, 0x40, 0x53, 0x85, 0x07, 0x00, 0x01, 0x40, 0xE0, //
    0x53, 0x05, 0x07, 0x00, 0x02, 0x60, 0x3F, 0x53, 0x85, 0x07, 0x00, 0x02, 0x40, 0xDF,
];

/// A silence of 19 ms: both packets are in one run.
const ONE_RUN: &str = "\
1:7 device 5: opened
device  asked  polls repeats  answered  busy  nak  events  opened  moved  judged  forgot  accused
5           1      1       0         1     0    0       0       1      0       0       0        0
runs 1 packets 2 skipped 0 refused 0 judged 0 accused 0
nothing was judged
";

/// A silence of 20 ms: the second packet begins a run.
const TWO_RUNS: &str = "\
2:0 device 5: opened
device  asked  polls repeats  answered  busy  nak  events  opened  moved  judged  forgot  accused
5           1      1       0         1     0    0       0       1      0       0       0        0
runs 2 packets 2 skipped 0 refused 0 judged 0 accused 0
nothing was judged
";

/// A table at the third packet, a second after the first; at the fourth; at the sixth, a second after that table; and at the end. Of the runs those are
/// counted that are over. From the second table on, what came since the last one stands before it.
const TABLES: &str = "\
2:0 device 5: opened
device  asked  polls repeats  answered  busy  nak  events  opened  moved  judged  forgot  accused
5           2      2       0         1     0    0       0       1      0       1       0        0
runs 1 packets 3 skipped 0 refused 0 judged 1 accused 0
window  asked  polls repeats  answered  busy  nak  events  opened  moved  judged  forgot  accused
+5          0      0       0         1     0    0       0       0      0       1       0        0
+runs 1 packets 1 skipped 0 refused 0 judged 1 accused 0
device  asked  polls repeats  answered  busy  nak  events  opened  moved  judged  forgot  accused
5           2      2       0         2     0    0       0       1      0       2       0        0
runs 2 packets 4 skipped 0 refused 0 judged 2 accused 0
window  asked  polls repeats  answered  busy  nak  events  opened  moved  judged  forgot  accused
+5          1      1       0         1     0    0       0       0      0       2       0        0
+runs 1 packets 2 skipped 0 refused 0 judged 2 accused 0
device  asked  polls repeats  answered  busy  nak  events  opened  moved  judged  forgot  accused
5           3      3       0         3     0    0       0       1      0       4       0        0
runs 3 packets 6 skipped 0 refused 0 judged 4 accused 0
window  asked  polls repeats  answered  busy  nak  events  opened  moved  judged  forgot  accused
+runs 1 packets 0 skipped 0 refused 0 judged 0 accused 0
device  asked  polls repeats  answered  busy  nak  events  opened  moved  judged  forgot  accused
5           3      3       0         3     0    0       0       1      0       4       0        0
runs 4 packets 6 skipped 0 refused 0 judged 4 accused 0
";

/// A clock that tells one moment after the other, and after the last one 0.
#[derive(Drop)]
struct Listed<'a> {
    left: &'a [u64],
}

impl Moments for Listed<'_> {
    ghost tells = { λ before moment after. Unit {0} };

    fn now(&mut self) -> u64 {
        let Some((moment, left)) = self.left.split_first() else {
            return 0;
        };
        self.left = left;
        *moment
    }
}

/// The command `monitor` with these words prints this text, where the packets come one by one at these moments.
fn prints(
    rt: &impl Abort,
    alloc: Global,
    words: &[&str],
    bytes: &[u8],
    moments: &[u64],
    text: &str,
) {
    let mode = monitor_mode(false, words).expect(rt, "options");
    let mut packets = make_pieces(bytes, 7, 0, ErrorKind::Other);
    let mut printed = Vec::new(alloc);
    let answer = monitor(
        alloc,
        mode,
        &mut Listed { left: moments },
        &mut Watched::new(&mut packets),
        &mut Watched::new(&mut printed),
    );
    assert!(rt; answer.is_ok());
    assert_eq!(rt; printed.as_slice(), text.as_bytes());
}

#[test]
fn less_than_the_default_gap_ends_no_run(rt: HostRuntime) {
    prints(&rt, rt.alloc(), &[], &TURNS[..14], &[100, 119], ONE_RUN);
}

#[test]
fn the_default_gap_ends_a_run(rt: HostRuntime) {
    prints(&rt, rt.alloc(), &[], &TURNS[..14], &[100, 120], TWO_RUNS);
}

#[test]
fn tables_come_by_the_clock(rt: HostRuntime) {
    let moments = [5000, 5999, 6000, 7500, 8499, 8500];
    prints(&rt, rt.alloc(), &["--every", "1"], &TURNS, &moments, TABLES);
}
