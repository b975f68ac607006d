//! Schedules from text: steps, with a semicolon between any two.

use osdp_msg::{Command, Event, Spelling};
use osdp_sim::{Move, SimStep};
use std::alloc::Global;
use std::process::Abort;

fn command<'a>(rt: &impl Abort, text: &str, place: &'a mut Spelling) -> Command<'a> {
    Command::parse_line(text, place).expect(rt, "a command")
}

fn event<'a>(rt: &impl Abort, text: &str, place: &'a mut Spelling) -> Event<'a> {
    Event::parse_line(text, place).expect(rt, "an event")
}

fn way(text: &str) -> Move {
    match text {
        "deliver" => Move::Deliver,
        "repeat" => Move::Repeat,
        _ => Move::Drop,
    }
}

/// A row with a reader's number.
fn step_of<'a>(rt: &impl Abort, name: &str, rest: &str, place: &'a mut Spelling) -> SimStep<'a> {
    let (number, text) = rest.split_once(' ').expect(rt, "a reader");
    let number = number.parse().expect(rt, "a number");
    match name {
        "issue" => SimStep::Issue(number, command(rt, text, place)),
        "queue" => SimStep::Queue(number, event(rt, text, place)),
        "busy" => SimStep::Busy(number, text == "on"),
        _ => SimStep::Reopen(number),
    }
}

fn step<'a>(rt: &impl Abort, row: &str, place: &'a mut Spelling) -> SimStep<'a> {
    let (name, rest) = row.split_once(' ').expect(rt, "a step");
    match name {
        "wait" => SimStep::Wait(rest.parse().expect(rt, "a time")),
        "to-reader" => SimStep::ToReader(way(rest)),
        "to-controller" => SimStep::ToController(way(rest)),
        _ => step_of(rt, name, rest, place),
    }
}

/// The steps of this text; `reopen 1 .` begins a session of reader 1 again. The bytes of their messages stand in these places, one for each row.
pub fn steps<'a>(
    rt: &impl Abort,
    alloc: Global,
    text: &str,
    places: &'a mut [Spelling],
) -> Vec<SimStep<'a>> {
    let mut steps = Vec::new(alloc);
    let mut places = places.iter_mut();
    for row in text.split("; ") {
        let place = places.next().expect(rt, "a place");
        steps.push(step(rt, row, place)).expect(rt, "memory");
    }
    steps
}
