//! Commands that are read, parsed and written in one place, one after the other; and messages that are kept as bytes.
use super::*;

/// A code, its data, and the text of the command. Of two of one kind with a list the second has the shorter one.
const COMMANDS: &str = "\
68 0002000001020500 OUT 0:2:0 1:2:5
68 03010500 OUT 3:1:5
69 000002050501001E0001010002000102000000000000000000000000 LED 0:0:2:5:5:1:0:30:1:1:0:2:0 1:2:0:0:0:0:0:0:0:0:0:0:0
69 0102000000000000000000000000 LED 1:2:0:0:0:0:0:0:0:0:0:0:0
6B 0001000101024142 TEXT 0 1 0 1 1 4142
6B 01020304050143 TEXT 1 2 3 4 5 43
80 53494D0102 MFG 53494D 0102
80 010203 MFG 010203 none
60 none POLL
61 00 ID 0
62 00 CAP 0
64 none LSTAT
65 none ISTAT
66 none OSTAT
67 none RSTAT
6A 0002010203 BUZ 0 2 1 2 3
6E 0780250000 COMSET 7 9600
";

/// A row's command is read from its code and data; parsed in place of what stands in `place`, and copied; and written, and read again, in place of
/// what stands in `written`.
fn row_is_put(
    rt: &impl Abort,
    alloc: Global,
    place: &mut Spelling,
    written: &mut Spelling,
    row: &str,
) {
    let (digits, rest) = row.split_once(' ').expect(rt, "a code");
    let code = *bytes_of(rt, alloc, digits)
        .as_slice()
        .first()
        .expect(rt, "a code");
    let (digits, text) = rest.split_once(' ').expect(rt, "data");
    let digits = if digits == "none" { "" } else { digits };
    let data = bytes_of(rt, alloc, digits);
    let data = data.as_slice();
    let read = Command::read(code, data).ok().expect(rt, text);
    is_command(rt, alloc, &read, code, data, text);
    let words = words_of(rt, alloc, text);
    let parsed = Command::parse(words.as_slice(), place)
        .ok()
        .expect(rt, text);
    is_command(rt, alloc, &parsed.copy(), code, data, text);
    parsed.write_into(written);
    is_spelled(rt, written.as_slice(), code, data);
    prints(rt, alloc, &Command::kept(written.as_slice()), text);
}

#[test]
fn commands_in_one_place(rt: HostRuntime) {
    let (mut place, mut written) = (Spelling::new(), Spelling::new());
    for row in COMMANDS.lines() {
        row_is_put(&rt, rt.alloc(), &mut place, &mut written, row);
    }
}

#[test]
fn messages_kept_as_bytes(rt: HostRuntime) {
    let alloc = rt.alloc();
    prints(&rt, alloc, &Command::kept(&[0x61, 3]), "ID 3");
    prints(&rt, alloc, &Reply::kept(&[0x41, 4]), "NAK 4");
    prints(&rt, alloc, &Event::kept(&[0x53, 0, 1, 49]), "KEYPAD 0 31");
}

#[test]
fn bytes_that_are_no_message_stand_for_one_without_data(rt: HostRuntime) {
    let alloc = rt.alloc();
    for bytes in [&[0x6B, 0, 1, 0, 1, 1, 2, 65][..], &[0x40], &[]] {
        prints(&rt, alloc, &Command::kept(bytes), "POLL");
    }
    for bytes in [&[0x53, 0, 2, 49][..], &[0x60], &[]] {
        prints(&rt, alloc, &Reply::kept(bytes), "ACK");
    }
    for bytes in [&[0x41, 4][..], &[0x60], &[]] {
        prints(&rt, alloc, &Event::kept(bytes), "ISTATR none");
    }
}
