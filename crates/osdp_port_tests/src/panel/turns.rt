//! Turns of a panel, worked by hand.

use crate::panel::rows::{begun_panel, run};

/// A session opens, is polled, tells an event and is lost. The first answer comes in two pieces, with a read of nothing between. A turn whose bytes brought a report
/// sends nothing. The end of the session comes with a tick, and is told in the next turn, which is due at once.
const ONE: &str = "\
0 none none none 400
400 none none 530508000061003F 600
410 5385130000 none none 430
415 none none none 430
420 4553494D010101000000010000E3 0:opened none 470
470 none none 53050700016040 670
480 538507000140E0 none none 530
530 none none 5305070002603F 730
540 53850B0002530002313263 0:event none 590
590 none none 5305070003603E 790
790 none none 5305070003603E 990
990 none none 5305070003603E 1190
1190 none none none 1190
1190 none 0:lost none none
";

/// A silence of the gap, seen by the moments of reads that gave nothing, ends what was begun: the rest is no packet. Its second byte, 53,
/// begins a run of its own, as a packet of 333 bytes that never comes.
const SILENT: &str = "\
400 none none 530508000061003F 600
410 5385130000 none none 430
430 none none none 600
431 4553494D010101000000010000E3 none none 451
451 none none none 600
600 none none 530508000061003F 800
";

/// A wait was over at 590, when an answer came. The moment is that after the wait, so the next POLL is due an interval after the answer.
const WAITED: &str = "\
400 none none 530508000061003F 600
590 53851300004553494D010101000000010000E3 0:opened none 640
639 none none none 640
640 none none 53050700016040 840
";

/// Two devices: the turn after the one that hears the first open is due at once, and sends the opening ID of the second.
const TWO: &str = "\
0 none none none 400
400 none none 530508000061003F 600
410 53851300004553494D010101000000010000E3 0:opened none 410
410 none none 530608000061003E 610
430 53861300004553494D010101000000010000E2 1:opened none 460
460 none none 53050700016040 660
462 538607000140DF none none 660
465 538507000140E0 none none 480
480 none none 5306070001603F 680
";

/// The end of a session comes with a tick. The next turn is due at once, and tells it; the one after that asks the next device.
const LOST: &str = "\
400 none none 530508000061003F 600
600 none none 530508000061003F 800
800 none none 530508000061003F 1000
1000 none none none 1000
1000 none 0:lost none 1000
1000 none none 530608000061003E 1200
";

/// Who is on the line in each of the tables, and the table.
const SCENES: [(&[u8], &str); 5] = [
    (&[5], ONE),
    (&[5], SILENT),
    (&[5], WAITED),
    (&[5, 6], TWO),
    (&[5, 6], LOST),
];

#[test]
fn panels_take_their_turns(rt: HostRuntime) {
    for (addresses, rows) in SCENES {
        let mut panel = begun_panel(&rt, rt.alloc(), addresses);
        run(&rt, &mut panel, rows);
    }
}
