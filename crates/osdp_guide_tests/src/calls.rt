//! Calls in an order that looks random, over a panel and two devices.

use crate::account::MOST;
use crate::line::{End, Line};
use std::alloc::Global;
use std::process::Abort;

/// A call that comes seldom.
fn calls_seldom(rt: &impl Abort, line: &mut Line, device: usize) {
    match line.dice.roll(48) {
        0 => line.restarts_device(rt, device),
        1 => line.restarts_panel(rt),
        2 | 3 => line.withdraws(rt, device),
        4 => line.sets_busy(device, true),
        5 => line.silences_all(rt),
        6 => line.loses_all(End::Panel),
        7 => line.loses_all(End::Device(device)),
        8 => line.sets_slow(End::Panel, true),
        9 => line.sets_slow(End::Device(device), true),
        10 | 11 | 12 => line.sets_slow(End::Panel, false),
        13 | 17 | 18 => line.sets_busy(device, false),
        14 | 15 | 16 => line.sets_slow(End::Device(device), false),
        it if it < 24 => line.queues(rt, device, MOST),
        it if it < 32 => line.orders(rt, device, MOST),
        _ => line.begins(device),
    }
}

/// One call.
fn happens(rt: &impl Abort, line: &mut Line) {
    let device = line.dice.roll(2) as usize;
    line.waits();
    match line.dice.roll(40) {
        0 | 1 => calls_seldom(rt, line, device),
        it if it < 14 => line.ticks(rt),
        it if it < 26 => line.reads(rt, End::Device(device)),
        it if it < 33 => line.reads(rt, End::Device(usize::from(device == 0))),
        _ => line.reads(rt, End::Panel),
    }
}

/// So many calls, and then the account of each device. How many orders were settled and how many events reported.
fn run(rt: &impl Abort, alloc: Global, seed: u64) -> (usize, usize) {
    let mut line = Line::new(rt, alloc, seed);
    for _ in 0..12000 {
        happens(rt, &mut line);
    }
    let (first, second) = (line.ends(rt, 0), line.ends(rt, 1));
    let settled = first.0.saturating_add(second.0);
    (settled, first.1.saturating_add(second.1))
}

#[test]
fn any_calls_hold_the_promises(rt: HostRuntime) {
    let (mut settled, mut reported) = (0usize, 0usize);
    for seed in 1..13 {
        let counts = run(&rt, rt.alloc(), seed);
        settled = settled.saturating_add(counts.0);
        reported = reported.saturating_add(counts.1);
    }
    assert!(rt;
        settled > 240 && reported > 240,
        "{settled} settled and {reported} reported"
    );
}
