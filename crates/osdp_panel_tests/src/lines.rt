//! A line for tests: a panel with a device at address 5 that answers each packet in its next turn, or doesn't.
use arrayvec::ArrayVec;
use osdp_frame::{Address, CheckKind};
use osdp_panel::{
    BusConfig, Command, KeptPanelReport, OutputRecord, Outputs, Panel, PanelFault, Report, Room,
    Turn, What,
};
use std::alloc::Global;

/// What a device answers to a packet with a checksum: a PDID to ID, and else an ACK.
fn answer(burst: &[u8]) -> Option<ArrayVec<u8, 32>> {
    let (address, control, code) = (*burst.get(1)?, *burst.get(4)?, *burst.get(5)?);
    let is_id = code == 0x61;
    let length = if is_id { 19 } else { 7 };
    let reply = if is_id { 0x45 } else { 0x40 };
    let mut bytes = ArrayVec::new();
    let front = [0x53, address | 0x80, length, 0, control & 3, reply];
    let _ = bytes.try_extend_from_slice(&front);
    if is_id {
        let _ = bytes.try_extend_from_slice(&[0; 12]);
    }
    let mut sum: u8 = 0;
    for byte in bytes.as_slice() {
        sum = sum.wrapping_sub(*byte);
    }
    let _ = bytes.try_extend_from_slice(&[sum]);
    Some(bytes)
}

/// A panel with one device at address 5, whose first order has this number, and whose session begins at 0. None where there is no memory.
pub fn new_panel(alloc: Global, next_number: u64) -> Option<Panel> {
    let mut panel = Panel::new(alloc, BusConfig::new(CheckKind::Sum, Room::of(4))).ok()?;
    panel.add(Address::new(5)?, next_number).ok()?;
    panel.begin(0, 0).ok()?;
    Some(panel)
}

/// Orders output 0 on, until a moment.
pub fn order(panel: &mut Panel, until: u64) -> Result<u64, PanelFault> {
    let on = OutputRecord {
        output: 0,
        control: 2,
        timer: 0,
    };
    match Outputs::new(&[on]) {
        Some(outputs) => panel.submit(0, &Command::Output(outputs), until),
        None => Err(PanelFault::NumbersUsedUp),
    }
}

/// What was told last of orders, as one letter each, with their numbers: s settled, l lost, t lost for being too late, e expired.
#[derive(Drop)]
pub struct Told {
    pub letters: ArrayVec<u8, 16>,
    pub numbers: ArrayVec<u64, 16>,
}

/// A panel, and what stands on its line.
#[derive(Drop)]
pub struct Line {
    pub panel: Panel,
    pub turn: Turn,
    kept: KeptPanelReport,
    back: ArrayVec<u8, 32>,
    pub told: Told,
    /// The codes that went out.
    pub codes: ArrayVec<u8, 64>,
}

/// The letter of a report that is about an order.
fn letter(what: &What<'_>, too_late: bool) -> Option<u8> {
    match what {
        What::Expired(_) => Some(b'e'),
        What::Told(Report::Settled(..)) => Some(b's'),
        What::Told(Report::Lost(_, Some(_))) if too_late => Some(b't'),
        What::Told(Report::Lost(_, Some(_))) => Some(b'l'),
        What::Told(_) => None,
    }
}

impl Line {
    pub fn new(panel: Panel) -> Line {
        Line {
            panel,
            turn: Turn::new(),
            kept: KeptPanelReport::new(),
            back: ArrayVec::new(),
            told: Told {
                letters: ArrayVec::new(),
                numbers: ArrayVec::new(),
            },
            codes: ArrayVec::new(),
        }
    }

    /// Notes what the panel tells.
    fn note(&mut self) {
        let Some(report) = self.kept.read() else {
            return;
        };
        if let Some(letter) = letter(&report.what, report.too_late) {
            let _ = self.told.letters.try_push(letter);
            let _ = self.told.numbers.try_push(report.number.unwrap_or(999));
        }
    }

    /// All reports of a turn.
    fn reports(&mut self) {
        for _ in 0..100 {
            if !self.panel.next_report(&mut self.kept) {
                break;
            }
            self.note();
        }
    }

    /// A turn at a moment, whose burst is written at another. The device answers where it does.
    pub fn turn(&mut self, now: u64, at: u64, answers: bool) {
        self.panel.hear(self.back.as_slice(), now);
        self.back.clear();
        self.reports();
        if let Some(unsent) = self.panel.tick(now, &mut self.turn) {
            let burst = self.panel.write(unsent, at, &self.turn);
            if let Some(code) = burst.get(5) {
                let _ = self.codes.try_push(*code);
                if answers && let Some(reply) = answer(burst) {
                    self.back = reply;
                }
            }
        }
    }

    /// Turns each 10 ms from one moment up to another.
    pub fn turns(&mut self, from: u64, until: u64, answers: bool) {
        for step in from / 10..until / 10 {
            self.turn(step * 10, step * 10, answers);
        }
    }
}
