//! What a program that keeps an `Unsent` for too long is given: no burst goes out twice.
use crate::lines::new_panel;
use osdp_panel::Turn;

/// A tick sends the opening, and the next tick sends nothing. What the first one has told as unsent is nothing then.
#[test]
fn a_turn_without_a_burst_sends_none(rt: HostRuntime) {
    let mut panel = new_panel(rt.alloc(), 0).expect(&rt, "a panel");
    let mut turn = Turn::new();
    panel.hear(&[], 400);
    let Some(unsent) = panel.tick(400, &mut turn) else {
        assert!(rt; false, "the opening goes out");
        return;
    };
    let sends_again = match panel.tick(401, &mut turn) {
        Some(later) => !panel.write(later, 401, &turn).is_empty(),
        None => false,
    };
    let is_empty = panel.write(unsent, 401, &turn).is_empty();
    assert!(rt; !sends_again && is_empty);
}
