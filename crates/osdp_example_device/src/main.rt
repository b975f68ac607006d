//! A device with two outputs at address 5, by lines (`osdp_example_lines`). `card 12345640` is a card. It answers `send` and bytes, `on` and an output,
//! `withdrawn` or `in doubt` and a card that was too old, `done`.
#![tactic(auto)]

use arrayvec::ArrayVec;
use osdp_device::{
    Address, Answer, Burst, Command, Device, Event, Expired, Heard, NakReason, Order, PdId,
    ProgramAnswers, Raw, Reader, ReaderConfig, Room, Settled, order_of, ordered,
};
use osdp_example_lines::{Line, read_line, send};
use std::alloc::Global;
use std::io;

/// A device whose program decides what is said to an OUT.
type Doors = Device<ProgramAnswers>;

/// Whether an output may be switched so: for a time, or off. A door may not stand open for good.
fn may_be_done(output: u8, control: u8) -> bool {
    output < 2 && (control == 1 || control == 5)
}

/// A device to which nothing has come. None where there is no memory.
fn new_device(alloc: Global) -> Option<Doors> {
    let (address, caps) = (Address::new(5)?, ArrayVec::new());
    let id = PdId {
        vendor: [0x53, 0x49, 0x4D],
        model: 0,
        version: 0,
        serial: 1,
        firmware_major: 0,
        firmware_minor: 0,
        firmware_build: 0,
    };
    let config = ReaderConfig { address, id, caps };
    let mut program = ProgramAnswers::new();
    let _ = program.status.outputs.try_extend_from_slice(&[0, 0]);
    let reader = Reader::new(alloc, config, program, Room::of(64)).ok()?;
    Device::new(alloc, reader, 20).ok()
}

/// An OUT that may not be done is refused before it is answered. All else is answered as it was set.
fn decide(device: &mut Doors) {
    if let Some(Command::Output(out)) = device.command()
        && out.records().any(|it| !may_be_done(it.output, it.control))
    {
        let _ = device.answer_next(&Answer::Refuse(NakReason::RecordNotProcessed));
    }
}

/// Does what the device is to do: before the answer is sent, so that an order that is answered was done, also where power is lost in between.
fn act(rt: &HostRuntime, heard: &Heard<'_>, sent: &[u8]) -> io::Result<()> {
    if let (Order::Once, Some(Command::Output(out))) = (order_of(heard, sent), ordered(heard)) {
        for record in out.records().filter(|record| record.control == 5) {
            println!(rt; "on {}", record.output)?;
        }
    }
    Ok(())
}

/// Bytes have come up to a moment, or none. A turn says one thing; a line has 4,096 bytes at most, so that there are fewer than 10,000.
fn hear(rt: &HostRuntime, device: &mut Doors, mut bytes: &[u8], now: u64) -> io::Result<()> {
    let mut out = Burst::new();
    device.tick(now);
    for _ in 0..10_000 {
        let (turn, unsent) = device.turn(bytes, now, &mut out);
        let kind = turn.settled.kind();
        let acted = kind.map(|kind| act(rt, &device.heard(kind), out.as_slice()));
        if let Some(unsent) = unsent {
            send(rt, unsent.bytes(&out))?;
        }
        acted.unwrap_or(Ok(()))?;
        bytes = &bytes[turn.taken..];
        match turn.settled {
            Settled::Pending => decide(device),
            Settled::Nothing if bytes.is_empty() => break,
            Settled::Nothing | Settled::Said(_) => {}
        }
    }
    Ok(())
}

/// A card that has waited for more than 30 s, while no panel was there, is told to nobody any more.
fn let_go(rt: &HostRuntime, device: &mut Doors, now: u64) -> io::Result<()> {
    for _ in 0..64 {
        match device.expiring(now, 30_000) {
            Some(Expired::Withdrawn(event)) => println!(rt; "withdrawn {event}")?,
            Some(Expired::InDoubt(event)) => println!(rt; "in doubt {event}")?,
            None => break,
        }
        let _ = device.expire_event(now, 30_000);
    }
    Ok(())
}

fn main(rt: HostRuntime) -> io::Result<()> {
    let mut device = new_device(rt.alloc()).ok_or(io::ErrorKind::OutOfMemory)?;
    let mut last = 0;
    for line in rt.lines(rt.alloc()) {
        match read_line(rt.alloc(), line?.as_str())? {
            Line::Turn(now, bytes) => {
                last = now;
                let_go(&rt, &mut device, now)?;
                hear(&rt, &mut device, bytes.as_slice(), now)?;
            }
            Line::Card(bytes) => {
                if let Some(card) = Raw::new(0, 0, 26, bytes.as_slice()) {
                    let _ = device.submit_event(&Event::Raw(card), last);
                }
            }
            Line::Other => println!(rt; "refused line")?,
        }
        println!(rt; "done")?;
    }
    Ok(())
}
