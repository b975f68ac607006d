//! Ports of which a read answers an error where nothing waits.

use crate::panel::rows::begun_panel;
use osdp_controller::Report;
use osdp_panel::{KeptPanelReport, Panel, Turn, What};
use std::io;
use std::io::{ErrorKind, Read};
use std::process::Abort;

/// The head of a packet of 1,440 bytes that never comes.
const NOISE: &[u8] = &[0x53, 0x00, 0xa0, 0x05, 0x00];

const PDID: &[u8] = &[
    0x53, 0x85, 0x13, 0x00, 0x00, 0x45, 0x53, 0x49, 0x4d, 0x01, 0x01, 0x01, 0x00, 0x00, 0x00, 0x01,
    0x00, 0x00, 0xe3,
];

const ACK_1: &[u8] = &[0x53, 0x85, 0x07, 0x00, 0x01, 0x40, 0xe0];

const ACK_2: &[u8] = &[0x53, 0x85, 0x07, 0x00, 0x02, 0x40, 0xdf];

const ACK_3: &[u8] = &[0x53, 0x85, 0x07, 0x00, 0x03, 0x40, 0xde];

/// What waits to be read, and what a read tells where nothing does.
#[derive(Drop)]
struct Port {
    waiting: &'static [u8],
    nothing: ErrorKind,
}

impl Read for Port {
    fn read(&mut self, buf: &mut [u8]) -> io::Result<usize> {
        if self.waiting.is_empty() {
            return Err(io::Error::new(self.nothing, "nothing waits"));
        }
        let count = self.waiting.len().min(buf.len());
        let (front, back) = self.waiting.split_at(count);
        buf[..count].copy_from_slice(front);
        self.waiting = back;
        Ok(count)
    }
}

/// The answer of the device at 5 to a frame with this number.
fn answer(number: u8) -> &'static [u8] {
    match number {
        0 => PDID,
        1 => ACK_1,
        2 => ACK_2,
        _ => ACK_3,
    }
}

/// What was written and told.
#[derive(Debug, PartialEq, Eq, Drop)]
struct Counts {
    frames: u32,
    opened: u32,
    others: u32,
}

impl Counts {
    fn count(&mut self, kept: &KeptPanelReport) {
        let Some(told) = kept.read() else {
            return;
        };
        match told.what {
            What::Told(Report::Opened(_)) => self.opened = self.opened.saturating_add(1),
            What::Told(_) | What::Expired(_) => self.others = self.others.saturating_add(1),
        }
    }
}

/// A turn: reads, and answers what is written a turn later. Noise comes in place of the first answer.
fn turns(rt: &impl Abort, panel: &mut Panel, port: &mut Port, counts: &mut Counts, now: u64) {
    let mut buffer = [0; 32];
    let mut turn = Turn::new();
    let mut kept = KeptPanelReport::new();
    let count = port.read(&mut buffer).unwrap_or(0);
    panel.hear(&buffer[..count], now);
    if panel.next_report(&mut kept) {
        counts.count(&kept);
    }
    if let Some(unsent) = panel.tick(now, &mut turn) {
        counts.frames = counts.frames.saturating_add(1);
        let control = panel.write(unsent, now, &turn).get(4).copied();
        let number = control.expect(rt, "a control byte") & 3;
        port.waiting = if now == 400 { NOISE } else { answer(number) };
    }
}

/// Twelve seconds, a turn every ten milliseconds.
fn twelve_seconds(rt: &impl Abort, panel: &mut Panel, nothing: ErrorKind) -> Counts {
    let mut port = Port {
        waiting: &[],
        nothing,
    };
    let mut counts = Counts {
        frames: 0,
        opened: 0,
        others: 0,
    };
    for step in 0..1200u64 {
        turns(rt, panel, &mut port, &mut counts, step * 10);
    }
    counts
}

/// What a read tells where nothing waits doesn't matter: the noise is over with the gap, and the opening ID is answered as it is sent again,
/// at 600. From 660 on a POLL goes out every 60 ms, 189 in all.
const EXPECTED: Counts = Counts {
    frames: 191,
    opened: 1,
    others: 0,
};

#[test]
fn noise_is_over_with_the_gap(rt: HostRuntime) {
    let mut panel = begun_panel(&rt, rt.alloc(), &[5]);
    let counts = twelve_seconds(&rt, &mut panel, ErrorKind::TimedOut);
    assert!(rt; counts == EXPECTED);
    let mut panel = begun_panel(&rt, rt.alloc(), &[5]);
    let counts = twelve_seconds(&rt, &mut panel, ErrorKind::WouldBlock);
    assert!(rt; counts == EXPECTED);
}
