//! A card that is told again after a lost session opens nothing, also where a moment brings it and not the bytes: noise before an answer begins a long packet, so
//! that the answer is found only once the line has been silent.

use crate::device::{Relays, card_was_read, device_turn, new_device};
use crate::panel::{new_panel, panel_turn};
use arrayvec::ArrayVec;
use osdp_device::{Burst, Device, ProgramAnswers};
use osdp_panel::{Address, EntryNumber, Panel, Report, Turn, What};
use std::process::Abort;

/// The beginning of a packet of 1,024 bytes to the panel's device.
const NOISE: &[u8] = &[0x53, 0x05, 0x00, 0x04, 0x04];

/// A panel, its device, and what stands on the line between them.
#[derive(Drop)]
struct Line {
    panel: Panel,
    door: EntryNumber,
    device: Device<ProgramAnswers>,
    relays: Relays,
    asked: Turn,
    told: Burst,
    there: ArrayVec<u8, 1440>,
    back: ArrayVec<u8, 1500>,
}

impl Line {
    /// The panel's turn.
    fn ask(&mut self, now: u64) {
        let heard = self.back.as_slice();
        let unsent = panel_turn(&mut self.panel, self.door, heard, now, &mut self.asked);
        self.there.clear();
        if let Some(unsent) = unsent {
            let burst = self.panel.write(unsent, now, &self.asked);
            let _ = self.there.try_extend_from_slice(burst);
        }
    }

    /// The device's turn. These bytes stand before its answer.
    fn answer(&mut self, noise: &[u8], now: u64) {
        let asked = self.there.as_slice();
        let unsent = device_turn(
            &mut self.device,
            &mut self.relays,
            asked,
            now,
            &mut self.told,
        );
        self.back.clear();
        if let Some(unsent) = unsent {
            let _ = self.back.try_extend_from_slice(noise);
            let _ = self.back.try_extend_from_slice(unsent.bytes(&self.told));
        }
    }
}

/// The line from a moment on, in steps of ten milliseconds, up to another. Whether a tick brought the panel an event, which waits for the next turn then.
fn run(line: &mut Line, noise: &[u8], from: u64, until: u64) -> bool {
    let mut brought = false;
    for step in from / 10..until / 10 {
        line.ask(step * 10);
        if let Some(told) = line.panel.report()
            && let What::Told(Report::Event(_)) = told.what
        {
            brought = true;
        }
        line.answer(noise, step * 10);
    }
    brought
}

/// The same while the line is cut.
fn run_cut(line: &mut Line, from: u64, until: u64) {
    line.back.clear();
    for step in from / 10..until / 10 {
        line.ask(step * 10);
    }
}

#[test]
fn a_card_told_again_opens_nothing(rt: HostRuntime) {
    let address = Address::new(5).expect(&rt, "an address");
    let (panel, door) = new_panel(rt.alloc(), address, 0)
        .ok()
        .expect(&rt, "a panel");
    let mut line = Line {
        panel,
        door,
        device: new_device(rt.alloc(), address, 1, 1).expect(&rt, "a device"),
        relays: Relays::off(),
        asked: Turn::new(),
        told: Burst::new(),
        there: ArrayVec::new(),
        back: ArrayVec::new(),
    };
    assert!(rt; !run(&mut line, &[], 0, 600));
    card_was_read(&mut line.device, 600);
    // the card is told, and the line is cut before the order for it goes out
    assert!(rt; !run(&mut line, &[], 600, 660));
    run_cut(&mut line, 660, 1400);
    // it is told again, and a moment brings it
    assert!(rt; run(&mut line, NOISE, 1400, 3000));
    assert!(rt; line.relays.until[0].is_none());
}
