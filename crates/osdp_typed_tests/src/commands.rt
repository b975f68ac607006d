//! Commands.
use crate::spelled::is_command;
use osdp_msg::{
    Buzzer, Command, Communication, LedRecord, Leds, MakerMessage, OutputRecord, Outputs, Text,
};
use osdp_names::named::{color, led as control, output, text as shown, tone};

#[test]
fn poll(rt: HostRuntime) {
    is_command(&rt, rt.alloc(), &Command::Poll, "60");
}

#[test]
fn id(rt: HostRuntime) {
    is_command(&rt, rt.alloc(), &Command::Id(0), "6100");
}

#[test]
fn cap(rt: HostRuntime) {
    is_command(&rt, rt.alloc(), &Command::Cap(0), "6200");
}

#[test]
fn lstat(rt: HostRuntime) {
    is_command(&rt, rt.alloc(), &Command::LocalStatus, "64");
}

#[test]
fn istat(rt: HostRuntime) {
    is_command(&rt, rt.alloc(), &Command::InputStatus, "65");
}

#[test]
fn ostat(rt: HostRuntime) {
    is_command(&rt, rt.alloc(), &Command::OutputStatus, "66");
}

#[test]
fn rstat(rt: HostRuntime) {
    is_command(&rt, rt.alloc(), &Command::ReaderStatus, "67");
}

/// A record of an OUT.
fn change(output: u8, control: u8, timer: u16) -> OutputRecord {
    OutputRecord {
        output,
        control,
        timer,
    }
}

#[test]
fn out(rt: HostRuntime) {
    let changes = [
        change(1, output::ON_FOR_A_TIME, 300),
        change(2, output::OFF, 0),
    ];
    let outputs = Outputs::new(&changes).expect(&rt, "two records");
    is_command(
        &rt,
        rt.alloc(),
        &Command::Output(outputs),
        "6801052C0102010000",
    );
}

#[test]
fn led(rt: HostRuntime) {
    let record = LedRecord {
        reader: 0,
        led: 1,
        temporary_control: control::SET_TEMPORARY,
        temporary_on_time: 3,
        temporary_off_time: 4,
        temporary_on_color: color::RED,
        temporary_off_color: color::BLUE,
        timer: 300,
        permanent_control: control::SET_PERMANENT,
        permanent_on_time: 5,
        permanent_off_time: 6,
        permanent_on_color: color::GREEN,
        permanent_off_color: color::WHITE,
    };
    let records = [record];
    let leds = Leds::new(&records).expect(&rt, "one record");
    let digits = "69000102030401042C010105060207";
    is_command(&rt, rt.alloc(), &Command::Led(leds), digits);
}

#[test]
fn buz(rt: HostRuntime) {
    let buzzer = Buzzer {
        reader: 1,
        tone: tone::DEFAULT,
        on_time: 3,
        off_time: 4,
        count: 5,
    };
    is_command(&rt, rt.alloc(), &Command::Buzzer(buzzer), "6A0102030405");
}

#[test]
fn text(rt: HostRuntime) {
    let text = Text::new(1, shown::TEMPORARY, 9, 2, 4, b"Hi").expect(&rt, "two characters");
    is_command(&rt, rt.alloc(), &Command::Text(text), "6B0103090204024869");
}

#[test]
fn comset(rt: HostRuntime) {
    let communication = Communication {
        address: 7,
        baud_rate: 115_200,
    };
    let digits = "6E0700C20100";
    is_command(&rt, rt.alloc(), &Command::Comset(communication), digits);
}

#[test]
fn mfg(rt: HostRuntime) {
    let message = MakerMessage::new([0x5C, 0xD1, 0x2E], &[1, 2]).expect(&rt, "two bytes");
    is_command(&rt, rt.alloc(), &Command::Maker(message), "805CD12E0102");
}
