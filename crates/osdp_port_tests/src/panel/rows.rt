//! Rows of turns with what each comes to.

use osdp_controller::Report;
use osdp_frame::{Address, CheckKind};
use osdp_panel::{BusConfig, KeptPanelReport, Panel, Room, Turn, What};
use osdp_test_packets::bytes_of;
use std::alloc::Global;
use std::process::Abort;

/// A panel of devices at these addresses with checksums and default times, whose sessions begin at 0.
pub fn begun_panel(rt: &impl Abort, alloc: Global, addresses: &[u8]) -> Panel {
    let made = Panel::new(alloc, BusConfig::new(CheckKind::Sum, Room::of(4)));
    let mut panel = made.ok().expect(rt, "a panel");
    for address in addresses {
        let address = Address::new(*address).expect(rt, "an address");
        let entry = panel.add(address, 0).ok().expect(rt, "an entry");
        assert!(rt; panel.begin(entry, 0).is_ok());
    }
    panel
}

/// Whether the report is of a kind that rows name so.
fn is_kind(report: &Report<'_>, name: &str) -> bool {
    match report {
        Report::Opened(_) => name == "opened",
        Report::Event(_) => name == "event",
        Report::Lost(..) => name == "lost",
        _ => false,
    }
}

/// What is told is that of the word: an entry of one digit and a kind, or none.
fn is_told(rt: &impl Abort, kept: &KeptPanelReport, word: &str) {
    match kept.read() {
        None => assert_eq!(rt; word, "none"),
        Some(told) => {
            let (digit, expected) = word.split_once(':').expect(rt, word);
            assert_eq!(rt; digit.parse::<usize>().ok(), Some(told.entry));
            let What::Told(report) = &told.what else {
                assert!(rt; false, "{word}");
                return;
            };
            assert!(rt; is_kind(report, expected), "{word}");
        }
    }
}

/// Ticks; the burst that goes out is that of the digits, or there is none.
fn is_written(rt: &impl Abort, panel: &mut Panel, now: u64, digits: &str) {
    let mut turn = Turn::new();
    let mut buffer = [0; 32];
    match panel.tick(now, &mut turn) {
        Some(unsent) => {
            let wanted = bytes_of(digits, &mut buffer).expect(rt, digits);
            assert_eq!(rt; panel.write(unsent, now, &turn), wanted);
        }
        None => assert_eq!(rt; digits, "none"),
    }
}

/// Takes the turn of a row: a moment, what the port gave, then what is told, what is written, and until when the panel may sleep.
fn turns(rt: &impl Abort, panel: &mut Panel, kept: &mut KeptPanelReport, row: &str) {
    let (moment, rest) = row.split_once(' ').expect(rt, row);
    let (given, rest) = rest.split_once(' ').expect(rt, row);
    let (told, rest) = rest.split_once(' ').expect(rt, row);
    let (written, sleeps) = rest.split_once(' ').expect(rt, row);
    let now = moment.parse().ok().expect(rt, row);
    let mut buffer = [0; 32];
    panel.hear(bytes_of(given, &mut buffer).expect(rt, row), now);
    let _ = panel.next_report(kept);
    is_told(rt, kept, told);
    assert!(rt; panel.report().is_none());
    is_written(rt, panel, now, written);
    assert_eq!(rt; panel.next_deadline(), sleeps.parse::<u64>().ok());
}

/// Takes the turns of rows one after the other.
pub fn run(rt: &impl Abort, panel: &mut Panel, rows: &str) {
    let mut kept = KeptPanelReport::new();
    for row in rows.lines() {
        turns(rt, panel, &mut kept, row);
    }
}
