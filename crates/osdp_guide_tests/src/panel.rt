//! A panel's own part: what it does with each report.

use osdp_names::named::output;
use osdp_panel::{
    Address, BusConfig, BusFault, CheckKind, Command, EntryNumber, Event, KeptPanelReport,
    OutputRecord, Outputs, Panel, PanelReport, Raw, Report, Room, Turn, Unsent, What,
};
use std::alloc::Global;

/// How many orders may wait for one door.
const ORDERS: usize = 64;

/// A panel with one door, whose session begins now.
pub fn new_panel(
    alloc: Global,
    address: Address,
    now: u64,
) -> Result<(Panel, EntryNumber), BusFault> {
    let mut panel = Panel::new(alloc, BusConfig::new(CheckKind::Crc, Room::of(ORDERS)))?;
    let door = panel.add(address, 0)?;
    panel.begin(door, now)?;
    Ok((panel, door))
}

/// Whether the card may enter: here one card of 26 bits may.
fn may_enter(card: &Raw<'_>) -> bool {
    card.bits() == 26 && card.bytes() == [0x12, 0x34, 0x56, 0x40].as_slice()
}

/// For how long a card opens the door, in milliseconds from the moment at which its reader was asked.
const FRESH: u64 = 2000;

/// Orders the door's strike, its output 0, on for three seconds. After this moment the order isn't sent.
fn open(panel: &mut Panel, door: EntryNumber, until: u64) {
    let strike = OutputRecord {
        output: 0,
        control: output::ON_FOR_A_TIME,
        timer: 30,
    };
    if let Some(outputs) = Outputs::new(&[strike]) {
        let _ = panel.submit(door, &Command::Output(outputs), until);
    }
}

/// What the panel does with a report. A card that may have been told before makes no second order, and a session that has ended begins again.
pub fn decide(panel: &mut Panel, door: EntryNumber, told: &PanelReport<'_>, now: u64) {
    match (&told.what, told.since) {
        (What::Told(Report::Event(Event::Raw(card))), Some(since))
            if may_enter(card) && !told.maybe_again => {
            open(panel, door, since.saturating_add(FRESH));
        }
        (What::Told(Report::Lost(..) | Report::Moved(..)), _) => {
            let _ = panel.begin(door, now);
        }
        // an order that has expired is never sent: the card was read too long ago
        (What::Told(_) | What::Expired(_), _) => {}
    }
}

/// How many reports a turn takes at most. While some are left its tick sends nothing, and the next turn takes them at once.
const MOST_REPORTS: usize = 64;

/// The panel's loop, once: it hears what the port gave, decides on each report, and ticks. Its caller writes.
pub fn panel_turn(
    panel: &mut Panel,
    door: EntryNumber,
    bytes: &[u8],
    now: u64,
    turn: &mut Turn,
) -> Option<Unsent> {
    let mut kept = KeptPanelReport::new();
    panel.hear(bytes, now);
    for _ in 0..MOST_REPORTS {
        if !panel.next_report(&mut kept) {
            break;
        }
        if let Some(told) = kept.read() {
            decide(panel, door, &told, now);
        }
    }
    panel.tick(now, turn)
}
