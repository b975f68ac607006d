use super::*;

/// The seven replies that tell an event.
const EVENTS: &str = "\
LSTATR 1 0
ISTATR 0100
OSTATR none
RSTATR 01
RAW 0 0 26 0A0B0C40
FMT 1 0 3132
KEYPAD 0 31
";

/// The seven that tell none.
const OTHERS: &str = "\
ACK
NAK 4
PDID 53494D 1 1 1 1 0 0
PDCAP 2:1:8
COM 7 9600
BUSY
MFGREP 53494D 01
";

/// A command, and after a bar the names of the replies that fit it.
const FITTING: &str = "\
POLL|ACK NAK RAW FMT KEYPAD LSTATR ISTATR OSTATR RSTATR
ID 0|NAK PDID
CAP 0|NAK PDCAP
LSTAT|NAK LSTATR
ISTAT|NAK ISTATR
OSTAT|NAK OSTATR
RSTAT|NAK RSTATR
OUT 0:2:0|NAK ACK OSTATR
LED 0:0:2:5:5:1:0:30:1:1:0:2:0|NAK ACK
BUZ 0 2 5 5 1|NAK ACK
TEXT 0 1 0 1 1 none|NAK ACK
COMSET 7 9600|NAK COM
MFG 53494D 01|NAK ACK MFGREP
";

/// An event and its copy are printed as this text, and so is the reply that tells it.
fn is_told(rt: &impl Abort, alloc: Global, event: &Event<'_>, text: &str) {
    prints(rt, alloc, event, text);
    prints(rt, alloc, &event.copy(), text);
    prints(rt, alloc, &event.reply(), text);
}

/// The words are an event's text, and the reply of this text tells that event.
fn is_event(rt: &impl Abort, alloc: Global, words: &[&str], text: &str) {
    let mut place = Spelling::new();
    let event = Event::parse(words, &mut place).ok().expect(rt, text);
    is_told(rt, alloc, &event, text);
    let mut place = Spelling::new();
    let reply = Reply::parse(words, &mut place).ok().expect(rt, text);
    assert!(rt;
        event.reply().write().as_slice() == reply.write().as_slice(),
        "{text}"
    );
    is_told(rt, alloc, &reply.event().expect(rt, text), text);
}

#[test]
fn events_are_replies(rt: HostRuntime) {
    for text in EVENTS.lines() {
        let words = words_of(&rt, rt.alloc(), text);
        is_event(&rt, rt.alloc(), words.as_slice(), text);
    }
}

/// The words are no event's, and the reply of this text tells none, and nor does its copy.
fn is_no_event(rt: &impl Abort, words: &[&str], text: &str) {
    assert!(rt; is_bad(words), "{text}");
    let mut place = Spelling::new();
    let reply = Reply::parse(words, &mut place).ok().expect(rt, text);
    assert!(rt; reply.copy().event().is_none(), "{text}");
}

/// Whether these are no words of an event.
fn is_bad(words: &[&str]) -> bool {
    let mut place = Spelling::new();
    Event::parse(words, &mut place).err() == Some(BadWords)
}

#[test]
fn others_are_none(rt: HostRuntime) {
    for text in OTHERS.lines() {
        let words = words_of(&rt, rt.alloc(), text);
        is_no_event(&rt, words.as_slice(), text);
    }
}

#[test]
fn bad_words(rt: HostRuntime) {
    assert!(rt; is_bad(&[]) && is_bad(&["KEYPAD", "0"]));
}

/// The reply of this text fits the command exactly where its name is listed.
fn fits_as_listed(
    rt: &impl Abort,
    alloc: Global,
    command: &Command<'_>,
    text: &str,
    names: &[&str],
) {
    let words = words_of(rt, alloc, text);
    let mut place = Spelling::new();
    let reply = Reply::parse(words.as_slice(), &mut place)
        .ok()
        .expect(rt, text);
    let name = *words.as_slice().first().expect(rt, "a name");
    assert_eq!(rt; fits(command, &reply), names.contains(&name), "{text}");
}

/// Of these replies those fit the command whose names are listed.
fn fit_as_listed(
    rt: &impl Abort,
    alloc: Global,
    command: &Command<'_>,
    texts: &str,
    names: &[&str],
) {
    for text in texts.lines() {
        fits_as_listed(rt, alloc, command, text, names);
    }
}

/// A row's command, and the names of the replies that fit it: of all replies, those fit.
fn fits_as_a_row_says(rt: &impl Abort, alloc: Global, row: &str) {
    let (text, names) = row.split_once('|').expect(rt, "a command and names");
    let words = words_of(rt, alloc, text);
    let names = words_of(rt, alloc, names);
    let mut place = Spelling::new();
    let command = Command::parse(words.as_slice(), &mut place)
        .ok()
        .expect(rt, text);
    fit_as_listed(rt, alloc, &command, EVENTS, names.as_slice());
    fit_as_listed(rt, alloc, &command, OTHERS, names.as_slice());
}

#[test]
fn fitting(rt: HostRuntime) {
    for row in FITTING.lines() {
        fits_as_a_row_says(&rt, rt.alloc(), row);
    }
}
