use super::*;

/// Messages of each shape of text: a name alone, a number, records, bytes.
const MESSAGES: &str = "command POLL
command ID 0
command OUT 0:2:0 7:5:300
command BUZ 0 2 1 1 0
command COMSET 5 115200
command MFG 5CD12E 01020A
reply ACK
reply BUSY
reply NAK 3
reply NAK 9 0102
reply PDCAP 1:2:3
reply LSTATR 0 1
reply ISTATR 0001
reply RAW 0 1 26 12345680
reply KEYPAD 0 31
reply COM 5 9600
reply MFGREP 5CD12E none
event RAW 0 1 26 12345680
event KEYPAD 0 31";

/// A text that was printed under a width, `#`, a precision, a sign or zeros is the plain one.
fn is_plain(rt: &impl Abort, alloc: Global, message: &impl fmt::Display, text: &str) {
    let wide = format!(in alloc; "{message:>40}|{message:<40}|{message:^40}|{message:040}");
    let flagged = format!(in alloc; "{message:#}|{message:+}|{message:.1}|{message:#06}");
    let plain = format!(in alloc; "{text}|{text}|{text}|{text}");
    let plain = plain.ok().expect(rt, "memory for a text");
    is_text(
        rt,
        wide.ok().expect(rt, "memory for a text").as_str(),
        plain.as_str(),
    );
    is_text(
        rt,
        flagged.ok().expect(rt, "memory for a text").as_str(),
        plain.as_str(),
    );
}

/// The same of the message of this kind and text.
fn is_plain_message(rt: &impl Abort, alloc: Global, kind: &str, text: &str) {
    let words = words_of(rt, alloc, text);
    let words = words.as_slice();
    let mut place = Spelling::new();
    match kind {
        "command" => {
            let command = Command::parse(words, &mut place).ok().expect(rt, text);
            is_plain(rt, alloc, &command, text);
        }
        "reply" => {
            let reply = Reply::parse(words, &mut place).ok().expect(rt, text);
            is_plain(rt, alloc, &reply, text);
        }
        _ => {
            let event = Event::parse(words, &mut place).ok().expect(rt, text);
            is_plain(rt, alloc, &event, text);
        }
    }
}

#[test]
fn messages_are_printed_the_same_under_each_option(rt: HostRuntime) {
    for row in MESSAGES.lines() {
        let (kind, text) = row.split_once(' ').expect(&rt, "a kind and a text");
        is_plain_message(&rt, rt.alloc(), kind, text);
    }
}
