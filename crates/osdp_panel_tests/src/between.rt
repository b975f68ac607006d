//! A test of the POLLs between the orders of a device: which codes go out, one after the other.
use crate::lines::{Line, new_panel, order};
use osdp_frame::CheckKind;
use osdp_panel::{BusConfig, BusFault, PanelFault, Room};

#[test]
fn a_poll_stands_between_two_orders(rt: HostRuntime) {
    // whatever the settings say
    assert!(rt; !BusConfig::new(CheckKind::Sum, Room::of(4)).poll_between_orders);
    let panel = new_panel(rt.alloc(), 0).expect(&rt, "a panel");
    let mut line = Line::new(panel);
    // the session opens at 410, and the first order goes out after that
    line.turns(0, 420, true);
    for number in 0..4 {
        assert_eq!(rt; order(&mut line.panel, u64::MAX), Ok(number));
    }
    assert_eq!(rt; line.panel.waiting(0), Some(4));
    let full = Err(PanelFault::Bus(BusFault::Full));
    assert_eq!(rt; order(&mut line.panel, u64::MAX), full);
    line.turns(420, 900, true);
    let codes = [0x61, 0x68, 0x60, 0x68, 0x60, 0x68, 0x60, 0x68, 0x60];
    assert_eq!(rt; line.codes.as_slice().get(..9), Some(codes.as_slice()));
    assert_eq!(rt; line.told.numbers.as_slice(), [0, 1, 2, 3].as_slice());
    assert_eq!(rt; line.panel.waiting(0), Some(0));
}
