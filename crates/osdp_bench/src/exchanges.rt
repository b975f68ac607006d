//! Exchanges over both machines.

use crate::device::{Link, packet};
use osdp_controller::{Controller, KeptReport};
use osdp_frame::{Burst, Item, whole_item};
use osdp_msg::{Command, OutputRecord, Outputs};
use std::alloc::Global;

/// What both ends write into.
#[derive(Debug, Drop)]
pub struct Line {
    /// The packet that goes out.
    pub out: Burst,
    /// The reader's answer to it.
    pub answer: Burst,
    /// What is told.
    pub report: KeptReport,
}

impl Line {
    /// Nothing is sent and nothing told yet.
    pub fn new() -> Line {
        Line {
            out: Burst::new(),
            answer: Burst::new(),
            report: KeptReport::new(),
        }
    }

    /// What is due at a moment goes to the reader, and its answer to the controller. Each packet is found in its bytes. Whether nothing is
    /// outstanding then.
    pub fn exchange(&mut self, link: &mut Link, now: u64) -> bool {
        if !link.controller.tick(now, &mut self.out, &mut self.report) {
            return false;
        }
        let Some(Item::Packet(asked)) = whole_item(self.out.as_slice()) else {
            return false;
        };
        let _ = link.reader.hear(&asked, &mut self.answer);
        let Some(Item::Packet(packet)) = whole_item(self.answer.as_slice()) else {
            return false;
        };
        link.controller.hear(&packet, now, &mut self.report);
        !link.controller.outstanding()
    }
}

/// What is asked in each exchange.
#[derive(Clone, Copy, Debug, PartialEq, Eq)]
pub enum Asked {
    /// A POLL.
    Poll,
    /// An OUT.
    Out,
}

impl Asked {
    /// After how long a POLL is due: before the next exchange, or long after it.
    fn poll_interval(self) -> u32 {
        match self {
            Asked::Poll => 1,
            Asked::Out => 1000,
        }
    }

    /// Hands the command over, if it is one. None where it can't be made.
    fn submit(self, controller: &mut Controller) -> Option<()> {
        if self == Asked::Poll {
            return Some(());
        }
        let record = OutputRecord {
            output: 3,
            control: 2,
            timer: 0,
        };
        let records = [record];
        let _ = controller.submit(&Command::Output(Outputs::new(&records)?));
        Some(())
    }
}

/// So many exchanges of what is asked and its ACK.
pub fn exchanges(alloc: Global, asked: Asked, count: u64) -> Option<u64> {
    let mut link = Link::new(alloc, asked.poll_interval())?;
    let mut line = Line::new();
    let mut done = 0u64;
    let mut now = 2u64;
    let _ = line.exchange(&mut link, now);
    for _ in 0..count {
        now = now.saturating_add(2);
        asked.submit(&mut link.controller)?;
        done = done.saturating_add(u64::from(line.exchange(&mut link, now)));
    }
    Some(done)
}

/// So many turns of a controller alone: a POLL goes out, and its ACK, a packet that is there, is heard.
pub fn turns(alloc: Global, count: u64) -> Option<u64> {
    let mut link = Link::new(alloc, 1)?;
    let mut line = Line::new();
    let mut done = 0u64;
    let mut now = 2u64;
    let _ = line.exchange(&mut link, now);
    let body = [0x40];
    for place in 0..count {
        now = now.saturating_add(2);
        let ack = packet(true, 5, (place % 3) as u8 + 1, &body)?;
        let sent = link.controller.tick(now, &mut line.out, &mut line.report);
        link.controller.hear(&ack, now, &mut line.report);
        done = done.saturating_add(u64::from(sent && !link.controller.outstanding()));
    }
    Some(done)
}
