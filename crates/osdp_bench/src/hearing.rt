//! What changes nothing in a controller: frames that are ignored, ticks with nothing due.

use crate::device::{Link, controller, packet};
use crate::exchanges::Line;
use osdp_controller::KeptReport;
use std::alloc::Global;

/// So many replies of another reader, of which the controller tells nothing.
pub fn ignored_frames(alloc: Global, count: u64) -> Option<u64> {
    let mut controller = controller(alloc, 1)?;
    let ack = [0x40];
    let packet = packet(true, 6, 1, &ack)?;
    let mut report = KeptReport::new();
    let mut done = 0u64;
    for now in 0..count {
        controller.hear(&packet, now, &mut report);
        done = done.saturating_add(u64::from(!report.is_some()));
    }
    Some(done)
}

/// So many ticks between an answer and the next POLL, which is not due.
pub fn idle_ticks(alloc: Global, count: u64) -> Option<u64> {
    let mut link = Link::new(alloc, 3_600_000)?;
    let mut line = Line::new();
    let _ = line.exchange(&mut link, 2);
    let mut done = 0u64;
    for place in 0..count {
        let sent = link
            .controller
            .tick(place % 1000, &mut line.out, &mut line.report);
        done = done.saturating_add(u64::from(!sent && !line.report.is_some()));
    }
    Some(done)
}
