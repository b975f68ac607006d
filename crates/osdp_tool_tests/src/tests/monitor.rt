//! What is found in packets, row by row: the packet, what its sender is accused of, what else is worth a look, and the packet that had to come.
//!
//! The rows were worked out by hand from the rules.

use osdp_frame::{Burst, Item, whole_item};
use osdp_monitor::{Accusation, Found, Monitor, Notice};
use osdp_test_packets::{bytes_of, is_spelled};
use osdp_words::all_words_in;
use std::alloc::Global;
use std::process::Abort;

/// What the panel is accused of.
const PANEL: &str = "\
53850A00015300013198 none none none
530508000061003F none none none
53851300004553494D010101000000010000E3 none opened none
53050700016040 none none none
538507000140E0 none none none
5305070002603F none none none
5305070002603F none unanswered none
5305070002603F none none none
538507000240DF none none none
5305070003603E none none none
53050700016040 none unsure none
538507000140E0 none none none
53050B0001680002000032 another-packet none 53050700016040
538507000140E0 none none none
5305070003603E sent-out-of-turn none none
53050700006041 none unanswered none
";

/// What the reader is accused of.
const READER: &str = "\
53050700006041 none none none
538507000040E1 none opened none
53050700016040 none none none
53850A00015300013198 none none none
53050700016040 none none none
53850A00015300013198 none none none
53050700016040 none none none
538507000140E0 another-reply none 53850A00015300013198
53850A00015300013198 second-reply none none
5305070002603F none none none
538507000140E0 another-number none none
5305070003603E none unsure none
538507000340DE none none none
53050700016040 none none none
5385080005403FBC another-check none none
53050B0002680002000031 none none none
53850A00025300013197 unfit-reply none none
5305070003603E none none none
53850A00035300023195 unread-reply none none
5305070003603E none none none
538507000079A8 busy-to-repeat none none
53050700016040 none none none
538507000079A8 none none none
53050700016040 none none none
538507000179A7 none none none
53050700016040 none none none
53850800014104DA none restarted none
53050700016040 none none none
538507000140E0 none none none
53050700006041 none none none
53850800004104DB refused-zero restarted none
53050700006041 none none none
53850A00005300013199 event-at-zero opened none
5305070002603F sent-out-of-turn none none
538507000240DF taken-out-of-turn none none
5305070003603E none none none
53850800034101DB none none none
538507000340DE none none none
53850800034101DB none none none
";

/// Late answers: a panel that doesn't wait for them, and what stays an accusation.
const LATE: &str = "\
53050700006041 none none none
538507000040E1 none opened none
53050700016040 none none none
53050700016040 none unanswered none
538507000140E0 none none none
538507000140E0 none late none
5305070002603F none none none
538507000140E0 none late none
538507000240DF none none none
538507000240DF second-reply none none
5305070003603E none none none
538507000240DF another-number none none
538507000340DE second-reply none none
53050700016040 none none none
538507000140E0 none none none
5305070002603F none none none
53050700006041 none unanswered none
538507000240DF none late none
538507000040E1 none opened none
53050700016040 none none none
538507000140E0 none none none
5305070002603F none none none
538507000340DE another-number none none
5305070002603F none none none
538507000240DF none none none
5305070003603E none none none
5305070003603E none unanswered none
538507000079A8 none none none
538507000079A8 none none none
538507000340DE none none none
53050700006041 none none none
530508000061003F none unanswered none
538507000040E1 none opened none
53851300004553494D010101000000010000E3 none late none
";

/// Where too little was heard: before a second packet, and where a packet was missed.
const UNSURE: &str = "\
5305070002603F none none none
538507000140E0 none unsure none
538507000240DF none none none
538507000240DF none unsure none
5305070003603E none none none
538507000240DF none late none
538507000340DE none none none
53050700016040 none none none
538507000140E0 none none none
538507000240DF none unsure none
5305070003603E none none none
538507000340DE none none none
53050700016040 none none none
538507000240DF another-number none none
53060700006040 none none none
538607000140DF none unsure none
5306070001603F none unsure none
5306070002603E not-answered none none
";

/// After what nothing is known.
const FORGETTING: &str = "\
53050700006041 none none none
538507000040E1 none opened none
53050700016040 none none none
53850A00015300013198 none none none
53050C00026E078025000080 none none none
53850C00025407802500001A none moved none
53050700016040 none none none
5307070003603C none none none
53060700006040 none none none
538607000040E0 none opened none
537F07000060C7 none none none
5306070003603D none none none
5308070000603E none none none
538807000040DE none opened none
53080700096035 none none none
5308070003603B none none none
5309070000603D none none none
53890700009984 none none none
5309070003603A none none none
530A070000603C none none none
538A07000040DC none opened none
six-skips none none none
530A070002603A sent-out-of-turn none none
530B070000603B none none none
538B07000040DB none opened none
six-skips none none none
skip none none none
530B0700026039 none none none
530C070000603A none none none
538C07000040DA none opened none
refused none none none
530C0700026038 none none none
";

/// The name of what a sender is accused of.
fn accusation_name(accusation: Option<Accusation>) -> &'static str {
    let Some(accusation) = accusation else {
        return "none";
    };
    match accusation {
        Accusation::AnotherPacket => "another-packet",
        Accusation::NotAnswered => "not-answered",
        Accusation::SentOutOfTurn => "sent-out-of-turn",
        Accusation::SecondReply => "second-reply",
        Accusation::AnotherNumber => "another-number",
        Accusation::AnotherCheck => "another-check",
        Accusation::BusyToRepeat => "busy-to-repeat",
        Accusation::RefusedZero => "refused-zero",
        Accusation::AnotherReply => "another-reply",
        Accusation::TakenOutOfTurn => "taken-out-of-turn",
        Accusation::UnreadReply => "unread-reply",
        Accusation::UnfitReply => "unfit-reply",
        Accusation::EventAtZero => "event-at-zero",
    }
}

/// The name of what is worth a look.
fn notice_name(notice: Option<Notice>) -> &'static str {
    match notice {
        None => "none",
        Some(Notice::Opened) => "opened",
        Some(Notice::Moved(_)) => "moved",
        Some(Notice::Restarted) => "restarted",
        Some(Notice::Unanswered) => "unanswered",
        Some(Notice::Late) => "late",
        Some(Notice::Unsure) => "unsure",
    }
}

/// A packet comes.
fn hears(rt: &impl Abort, monitor: &mut Monitor, digits: &str, expected: &mut Burst) -> Found {
    let mut buffer = [0; 32];
    let bytes = bytes_of(digits, &mut buffer).expect(rt, digits);
    match whole_item(bytes) {
        Some(Item::Packet(packet)) => monitor.hear(&packet, expected).expect(rt, digits),
        _ => panic!(rt; "no packet: {digits}"),
    }
}

/// Six items come that are no packets.
fn skips_six(monitor: &mut Monitor) {
    for _ in 0..6 {
        monitor.skip();
    }
}

/// An item comes.
fn comes(rt: &impl Abort, monitor: &mut Monitor, item: &str, expected: &mut Burst) -> Found {
    let mut found = Found {
        accusation: None,
        notice: None,
        judged: false,
    };
    match item {
        "skip" => monitor.skip(),
        "six-skips" => skips_six(monitor),
        "refused" => monitor.forget(),
        _ => found = hears(rt, monitor, item, expected),
    }
    found
}

/// What is found in the item of a row is what the row says.
fn holds(rt: &impl Abort, alloc: Global, monitor: &mut Monitor, row: &str) {
    let words = all_words_in(alloc, row).expect(rt, row);
    assert_eq!(rt; words.len(), 4, "{row}");
    let mut expected = Burst::new();
    let found = comes(rt, monitor, words[0], &mut expected);
    assert_eq!(rt; accusation_name(found.accusation), words[1], "{row}");
    assert_eq!(rt; notice_name(found.notice), words[2], "{row}");
    assert!(rt; is_spelled(expected.as_slice(), words[3]), "{row}");
}

/// One listener hears all rows, in their order.
fn hold(rt: &impl Abort, alloc: Global, rows: &str) {
    let mut monitor = Monitor::new(alloc).expect(rt, "memory");
    for row in rows.lines() {
        holds(rt, alloc, &mut monitor, row);
    }
}

#[test]
fn accuses_the_panel(rt: HostRuntime) {
    hold(&rt, rt.alloc(), PANEL);
}

#[test]
fn accuses_the_reader(rt: HostRuntime) {
    hold(&rt, rt.alloc(), READER);
}

#[test]
fn tells_late_answers(rt: HostRuntime) {
    hold(&rt, rt.alloc(), LATE);
}

#[test]
fn is_unsure(rt: HostRuntime) {
    hold(&rt, rt.alloc(), UNSURE);
}

#[test]
fn forgets(rt: HostRuntime) {
    hold(&rt, rt.alloc(), FORGETTING);
}
