//! Events.
use crate::spelled::is_event;
use osdp_msg::{Event, Formatted, Keypad, LocalState, Raw, States};
use osdp_names::named::{card, reader, state};

#[test]
fn lstatr(rt: HostRuntime) {
    let state = LocalState {
        tamper: state::TAMPERED,
        power: state::NORMAL,
    };
    is_event(&rt, rt.alloc(), &Event::LocalState(state), "480100");
}

#[test]
fn istatr(rt: HostRuntime) {
    let bytes = [state::INACTIVE, state::ACTIVE];
    let states = States::new(&bytes).expect(&rt, "two states");
    is_event(&rt, rt.alloc(), &Event::Inputs(states), "490001");
}

#[test]
fn ostatr(rt: HostRuntime) {
    let bytes = [state::ACTIVE, state::INACTIVE];
    let states = States::new(&bytes).expect(&rt, "two states");
    is_event(&rt, rt.alloc(), &Event::Outputs(states), "4A0100");
}

#[test]
fn rstatr(rt: HostRuntime) {
    let bytes = [reader::NORMAL, reader::TAMPERED];
    let states = States::new(&bytes).expect(&rt, "two states");
    is_event(&rt, rt.alloc(), &Event::Readers(states), "4B0002");
}

#[test]
fn raw(rt: HostRuntime) {
    let bytes = [0x0A, 0x0B, 0x0C, 0x40];
    let raw = Raw::new(1, card::WIEGAND, 26, &bytes);
    let raw = raw.expect(&rt, "four bytes for 26 bits");
    is_event(&rt, rt.alloc(), &Event::Raw(raw), "5001011A000A0B0C40");
}

#[test]
fn fmt(rt: HostRuntime) {
    let formatted = Formatted::new(1, card::REVERSE, b"12").expect(&rt, "two digits");
    is_event(
        &rt,
        rt.alloc(),
        &Event::Formatted(formatted),
        "510101023132",
    );
}

#[test]
fn keypad(rt: HostRuntime) {
    let keypad = Keypad::new(1, b"12").expect(&rt, "two digits");
    is_event(&rt, rt.alloc(), &Event::Keypad(keypad), "5301023132");
}
