//! Schedules from text: steps, with a semicolon between any two.

use osdp_frame::Burst;
use osdp_msg::{Command, Event, Spelling};
use osdp_sim::{Move, SimStep};
use std::alloc::Global;
use std::process::Abort;

/// A place for the bytes of the message of each row.
pub fn places(rt: &impl Abort, alloc: Global, text: &str) -> Vec<Spelling> {
    let mut places = Vec::new(alloc);
    for _ in text.split("; ") {
        places.push(Spelling::new()).expect(rt, "memory");
    }
    places
}

fn command<'a>(rt: &impl Abort, text: &str, place: &'a mut Spelling) -> Command<'a> {
    Command::parse_line(text, place).expect(rt, "a command")
}

fn event<'a>(rt: &impl Abort, text: &str, place: &'a mut Spelling) -> Event<'a> {
    Event::parse_line(text, place).expect(rt, "an event")
}

/// The bytes of these digits.
fn burst(rt: &impl Abort, digits: &str) -> Burst {
    let mut bytes = [0; 32];
    let count = digits.len() / 2;
    assert!(rt; count <= 32, "{digits}");
    let bytes = &mut bytes[..count];
    assert!(rt; hex::decode_to_slice(digits, bytes).is_ok(), "{digits}");
    let mut burst = Burst::new();
    assert!(rt; burst.try_extend_from_slice(bytes).is_ok());
    burst
}

fn way(rt: &impl Abort, text: &str) -> Move {
    match text {
        "deliver" => Move::Deliver,
        "drop" => Move::Drop,
        "repeat" => Move::Repeat,
        damage => {
            let (_, digits) = damage.split_once(' ').expect(rt, "bytes");
            Move::Damage(burst(rt, digits))
        }
    }
}

/// The step of this name, for reader 1.
fn step<'a>(rt: &impl Abort, name: &str, rest: &str, place: &'a mut Spelling) -> SimStep<'a> {
    match name {
        "issue" => SimStep::Issue(1, command(rt, rest, place)),
        "queue" => SimStep::Queue(1, event(rt, rest, place)),
        "busy" => SimStep::Busy(1, rest == "on"),
        "wait" => SimStep::Wait(rest.parse().expect(rt, "a time")),
        "to-reader" => SimStep::ToReader(way(rt, rest)),
        "to-controller" => SimStep::ToController(way(rt, rest)),
        _ => SimStep::Reopen(1),
    }
}

/// Time passes, and then nothing is lost.
fn push_round(rt: &impl Abort, steps: &mut Vec<SimStep<'_>>, wait: u64) {
    steps.push(SimStep::Wait(wait)).expect(rt, "memory");
    steps
        .push(SimStep::ToReader(Move::Deliver))
        .expect(rt, "memory");
    steps
        .push(SimStep::ToController(Move::Deliver))
        .expect(rt, "memory");
}

/// The opening, and so many rounds.
fn push_clean(rt: &impl Abort, steps: &mut Vec<SimStep<'_>>, rounds: usize) {
    push_round(rt, steps, 400);
    for _ in 0..rounds {
        push_round(rt, steps, 50);
    }
}

/// The steps of this text. The bytes of their messages stand in these places, one for each row.
pub fn steps<'a>(
    rt: &impl Abort,
    alloc: Global,
    text: &str,
    places: &'a mut [Spelling],
) -> Vec<SimStep<'a>> {
    let mut steps = Vec::new(alloc);
    let mut places = places.iter_mut();
    for row in text.split("; ") {
        let place = places.next().expect(rt, "a place");
        let (name, rest) = row.split_once(' ').expect(rt, "a step");
        match name {
            "clean" => push_clean(rt, &mut steps, rest.parse().expect(rt, "a count")),
            "round" => push_round(rt, &mut steps, rest.parse().expect(rt, "a time")),
            _ => steps.push(step(rt, name, rest, place)).expect(rt, "memory"),
        }
    }
    steps
}
