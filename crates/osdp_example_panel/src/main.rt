//! A panel that opens a door for two cards, called by lines (`osdp_example_lines`). The door is the device at address 5, at 9600. A turn is answered by
//! `send` and the bytes that go out, where there are some, by what the panel reports, and last by `due` and the moment of the next turn, or `due none`. A line
//! `move 7 9600` gives the door another place. `keep` and where it is comes before anything more is sent: when the program starts again, it is told so by
//! `kept` and the same words. `rate` is the one that the port is to have from now on.
#![tactic(auto)]

mod door;
mod kept;

use door::{DOOR, Door, FIRST};
use osdp_example_lines::{Line, read_line, send, tell_due};
use osdp_names::named::output;
use osdp_panel::{
    Address, BusConfig, CheckKind, Command, Event, KeptPanelReport, OutputRecord, Outputs, Panel,
    PanelReport, Raw, Report, Room, Turn, What,
};
use std::alloc::Global;
use std::io;

/// The door's strike, output 0, is on for three seconds.
const STRIKE: OutputRecord = OutputRecord {
    output: 0,
    control: output::ON_FOR_A_TIME,
    timer: 30,
};

/// Whether a card opens the door: two cards of 26 bits do.
fn may_enter(card: &Raw<'_>) -> bool {
    let cards = [[0x12, 0x34, 0x56, 0x40], [0x65, 0x43, 0x21, 0x80]];
    card.bits() == 26 && cards.iter().any(|known| card.bytes() == known.as_slice())
}

/// A panel with its door, which is asked for its cards between two orders. None where there is no memory.
fn new_panel(alloc: Global, room: Room) -> Option<Panel> {
    let mut panel = Panel::new(alloc, BusConfig::new(CheckKind::Crc, room)).ok()?;
    panel.add(Address::new(FIRST.address)?, 0).ok()?;
    Some(panel)
}

/// For how long a card opens the door, in milliseconds from the moment at which its reader was asked. What comes of it later is never sent.
const FRESH: u64 = 2000;

/// Orders the door's strike, until a moment. Where as many orders wait as may, the door stays closed.
fn open(panel: &mut Panel, until: u64) {
    if let Some(outputs) = Outputs::new(&[STRIKE]) {
        let _ = panel.submit(DOOR, &Command::Output(outputs), until);
    }
}

/// Tells what happened, and does what it asks for. A card opens nothing where another device has told it.
fn heed(
    rt: &HostRuntime,
    panel: &mut Panel,
    door: &mut Door,
    told: &PanelReport<'_>,
    now: u64,
) -> io::Result<()> {
    let report = match &told.what {
        What::Expired(command) => return println!(rt; "expired {command:?}"),
        What::Told(report) => report,
    };
    println!(rt; "report {report:?}")?;
    door.heed(rt, report, now)?;
    // a card that may have been told before makes no second order
    if let (Report::Event(Event::Raw(card)), Some(since)) = (report, told.since)
        && !told.maybe_again
        && door.may_order()
        && may_enter(card)
    {
        open(panel, since.saturating_add(FRESH));
    }
    Ok(())
}

/// How many reports a turn takes at most. While some are left its tick sends nothing, and the next turn takes them at once.
const MOST_REPORTS: usize = 64;

/// Takes a turn, and tells what comes of it.
fn turn(
    rt: &HostRuntime,
    panel: &mut Panel,
    door: &mut Door,
    bytes: &[u8],
    now: u64,
) -> io::Result<()> {
    let (mut turn, mut kept) = (Turn::new(), KeptPanelReport::new());
    door.begin(rt, panel, now)?;
    panel.hear(bytes, now);
    for _ in 0..MOST_REPORTS {
        if !panel.next_report(&mut kept) {
            break;
        }
        if let Some(told) = kept.read() {
            heed(rt, panel, door, &told, now)?;
        }
    }
    if let Some(unsent) = panel.tick(now, &mut turn) {
        // a line has one moment, so the burst is written at that of its turn
        let burst = panel.write(unsent, now, &turn);
        // to a door whose session is let end nothing is said: there is no call for it
        if !burst.is_empty() && !door.is_left {
            send(rt, burst)?;
        }
    }
    Ok(())
}

fn main(rt: HostRuntime) -> io::Result<()> {
    let mut panel = new_panel(rt.alloc(), Room::of(16)).ok_or(io::ErrorKind::OutOfMemory)?;
    let mut door = Door::new();
    for line in rt.lines(rt.alloc()) {
        let line = line?;
        match read_line(rt.alloc(), line.as_str())? {
            Line::Turn(now, bytes) => turn(&rt, &mut panel, &mut door, bytes.as_slice(), now)?,
            Line::Card(_) | Line::Other => door.call(&rt, &mut panel, line.as_str())?,
        }
        tell_due(&rt, [panel.next_deadline(), door.begins])?;
    }
    Ok(())
}
