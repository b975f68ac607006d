//! Orders that grow old: those that wait, those that are on their way, and bursts that are written late.
use crate::lines::{Line, new_panel, order};
use std::alloc::Global;
use std::process::Abort;

/// A line whose session opens at 410, and whose first POLL goes out at 460 and is answered.
fn open_line(rt: &impl Abort, alloc: Global, next_number: u64) -> Line {
    let panel = new_panel(alloc, next_number).expect(rt, "a panel");
    let mut line = Line::new(panel);
    line.turns(0, 480, true);
    is_sent(rt, &line, &[0x61, 0x60]);
    line
}

/// These codes went out, one after the other.
fn is_sent(rt: &impl Abort, line: &Line, codes: &[u8]) {
    assert_eq!(rt; line.codes.as_slice(), codes);
}

/// What was told of orders, and their numbers.
fn is_told(rt: &impl Abort, line: &Line, letters: &[u8], numbers: &[u64]) {
    assert_eq!(rt; line.told.letters.as_slice(), letters);
    assert_eq!(rt; line.told.numbers.as_slice(), numbers);
}

#[test]
fn an_order_in_time_is_settled(rt: HostRuntime) {
    let mut line = open_line(&rt, rt.alloc(), 7);
    assert_eq!(rt; line.panel.next_number(0), Some(7));
    assert_eq!(rt; order(&mut line.panel, 480), Ok(7));
    assert_eq!(rt; line.panel.next_number(0), Some(8));
    line.turns(480, 600, true);
    is_told(&rt, &line, b"s", &[7]);
    // it went out at 480, its last moment, and a POLL after it
    is_sent(&rt, &line, &[0x61, 0x60, 0x68, 0x60]);
}

#[test]
fn a_late_order_is_told_and_never_sent(rt: HostRuntime) {
    let mut line = open_line(&rt, rt.alloc(), 0);
    assert_eq!(rt; order(&mut line.panel, 479), Ok(0));
    assert_eq!(rt; order(&mut line.panel, u64::MAX), Ok(1));
    line.turns(480, 600, true);
    is_told(&rt, &line, b"es", &[0, 1]);
    // one order alone goes out
    is_sent(&rt, &line, &[0x61, 0x60, 0x68, 0x60]);
}

#[test]
fn no_repeat_goes_out_after_the_last_moment(rt: HostRuntime) {
    let mut line = open_line(&rt, rt.alloc(), 0);
    assert_eq!(rt; order(&mut line.panel, 700), Ok(0));
    // it goes out at 480 and at 680, and the session is lost at 1080: the third burst, at 880, is withheld
    line.turns(480, 1200, false);
    is_told(&rt, &line, b"t", &[0]);
    is_sent(&rt, &line, &[0x61, 0x60, 0x68, 0x68]);
}

#[test]
fn all_repeats_go_out_in_time(rt: HostRuntime) {
    let mut line = open_line(&rt, rt.alloc(), 0);
    assert_eq!(rt; order(&mut line.panel, 880), Ok(0));
    line.turns(480, 1200, false);
    is_told(&rt, &line, b"l", &[0]);
    is_sent(&rt, &line, &[0x61, 0x60, 0x68, 0x68, 0x68]);
}

#[test]
fn a_burst_is_given_until_its_last_moment(rt: HostRuntime) {
    let mut line = open_line(&rt, rt.alloc(), 0);
    assert_eq!(rt; order(&mut line.panel, 485), Ok(0));
    // the program stood still between the tick and the write
    line.turn(480, 486, true);
    is_sent(&rt, &line, &[0x61, 0x60]);
    line.turns(490, 1200, true);
    is_told(&rt, &line, b"t", &[0]);
    is_sent(&rt, &line, &[0x61, 0x60]);
}

#[test]
fn numbers_end(rt: HostRuntime) {
    let mut line = open_line(&rt, rt.alloc(), u64::MAX - 1);
    assert_eq!(rt; order(&mut line.panel, u64::MAX), Ok(u64::MAX - 1));
    assert_eq!(rt;
        order(&mut line.panel, u64::MAX),
        Err(osdp_panel::PanelFault::NumbersUsedUp)
    );
    assert_eq!(rt; line.panel.waiting(0), Some(1));
}

#[test]
fn an_order_that_is_taken_back_has_no_report(rt: HostRuntime) {
    let mut line = open_line(&rt, rt.alloc(), 0);
    assert_eq!(rt; order(&mut line.panel, 479), Ok(0));
    assert_eq!(rt; order(&mut line.panel, 1000), Ok(1));
    assert_eq!(rt; line.panel.withdraw(0), Ok(true));
    line.turns(480, 600, true);
    is_told(&rt, &line, b"s", &[1]);
}

#[test]
fn the_deadline_is_the_moment_after_the_last_one(rt: HostRuntime) {
    let panel = new_panel(rt.alloc(), 0).expect(&rt, "a panel");
    let mut line = Line::new(panel);
    line.turns(0, 410, false);
    // the opening ID waits for its answer until 600
    assert_eq!(rt; line.panel.next_deadline(), Some(600));
    assert_eq!(rt; order(&mut line.panel, 450), Ok(0));
    assert_eq!(rt; line.panel.next_deadline(), Some(451));
    line.turn(450, 450, false);
    is_told(&rt, &line, b"", &[]);
    line.panel.hear(&[], 451);
    assert_eq!(rt; line.panel.next_deadline(), Some(451));
    line.turn(451, 451, false);
    is_told(&rt, &line, b"e", &[0]);
    assert_eq!(rt; line.panel.next_deadline(), Some(600));
}

/// Each allocation of a panel may fail: then there is none, or no device is added.
#[test]
fn memory_may_run_out(rt: HostRuntime) {
    match new_panel(rt.alloc(), 0) {
        Some(mut panel) => assert_eq!(rt; order(&mut panel, 0), Ok(0)),
        None => {}
    }
}
