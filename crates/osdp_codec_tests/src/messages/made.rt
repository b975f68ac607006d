//! How many records and bytes commands and events may have, and those that are made from lines. `osdp_typed_tests` makes each message from its parts.
use super::*;

const OUTPUT: OutputRecord = OutputRecord {
    output: 1,
    control: 5,
    timer: 300,
};

/// An element so many times.
fn repeated<T: Copy + Drop>(rt: &impl Abort, alloc: Global, element: T, count: usize) -> Vec<T> {
    let mut elements = Vec::new(alloc);
    for _ in 0..count {
        elements
            .push(element)
            .ok()
            .expect(rt, "memory for an element");
    }
    elements
}

/// A line with a name and a word so many times, with spaces between.
fn line(rt: &impl Abort, alloc: Global, name: &str, word: &str, count: usize) -> String {
    let mut line = String::new(alloc);
    line.push_str(name).ok().expect(rt, "memory for a line");
    for _ in 0..count {
        line.push_str(word).ok().expect(rt, "memory for a line");
    }
    line
}

/// Lists of so many outputs, and of so many LEDs, are messages, or neither is one.
fn are_lists(rt: &impl Abort, alloc: Global, outputs: usize, leds: usize, fit: bool) {
    let outputs = repeated(rt, alloc, OUTPUT, outputs);
    let leds = repeated(rt, alloc, LedRecord::default(), leds);
    let are_made = (Outputs::new(&outputs).is_some(), Leds::new(&leds).is_some());
    assert!(rt; are_made == (fit, fit));
}

#[test]
fn one_to_358_outputs_and_one_to_102_leds(rt: HostRuntime) {
    are_lists(&rt, rt.alloc(), 0, 0, false);
    are_lists(&rt, rt.alloc(), 1, 1, true);
    are_lists(&rt, rt.alloc(), 357, 101, true);
    are_lists(&rt, rt.alloc(), 358, 102, true);
    are_lists(&rt, rt.alloc(), 359, 103, false);
}

/// A card of so many bits has so many bytes, or isn't made of them.
fn is_card(rt: &impl Abort, alloc: Global, bits: u16, count: usize, fits: bool) {
    let bytes = repeated(rt, alloc, 0xA5_u8, count);
    assert!(rt; Raw::new(0, 0, bits, &bytes).is_some() == fits, "{bits}");
}

#[test]
fn a_card_has_as_many_bytes_as_its_bits_need(rt: HostRuntime) {
    is_card(&rt, rt.alloc(), 0, 0, true);
    is_card(&rt, rt.alloc(), 0, 1, false);
    is_card(&rt, rt.alloc(), 1, 0, false);
    is_card(&rt, rt.alloc(), 8, 1, true);
    is_card(&rt, rt.alloc(), 9, 1, false);
    is_card(&rt, rt.alloc(), 9, 2, true);
    is_card(&rt, rt.alloc(), 16, 3, false);
    is_card(&rt, rt.alloc(), 11_424, 1_428, true);
    is_card(&rt, rt.alloc(), 11_425, 1_429, false);
    is_card(&rt, rt.alloc(), 65_535, 8_192, false);
}

/// The line is this command's.
fn is_line_of(rt: &impl Abort, alloc: Global, line: &str, text: &str) {
    let mut place = Spelling::new();
    let command = Command::parse_line(line, &mut place).ok();
    prints(rt, alloc, &command.expect(rt, line), text);
}

#[test]
fn words_of_a_line_have_spaces_between(rt: HostRuntime) {
    let text = "OUT 0:2:0 1:1:5";
    is_line_of(&rt, rt.alloc(), text, text);
    is_line_of(&rt, rt.alloc(), "  OUT 0:2:0 1:1:5", text);
    is_line_of(&rt, rt.alloc(), "OUT   0:2:0  1:1:5   ", text);
}

/// Whether this line is a command's, a reply's and an event's.
fn kinds_of(line: &str) -> (bool, bool, bool) {
    let mut place = Spelling::new();
    let command = Command::parse_line(line, &mut place).err() != Some(BadWords);
    let reply = Reply::parse_line(line, &mut place).err() != Some(BadWords);
    let event = Event::parse_line(line, &mut place).err() != Some(BadWords);
    (command, reply, event)
}

/// Lines of no message, each between two bars.
const NO_LINES: &str =
    "||   |OUT|OUT\t0:2:0|out 0:2:0|OUT 0:2:0 x|OUT 0 2 0|POLL 0|KEYPAD 0|KEYPAD\t0 31|";

#[test]
fn a_line_of_no_message(rt: HostRuntime) {
    for text in NO_LINES.split('|') {
        assert!(rt; kinds_of(text) == (false, false, false), "{text}");
    }
}

#[test]
fn a_line_of_one_kind(rt: HostRuntime) {
    assert!(rt; kinds_of("KEYPAD 0 31") == (false, true, true));
    assert!(rt; kinds_of("ACK") == (false, true, false));
    assert!(rt; kinds_of("OUT 0:2:0") == (true, false, false));
}

/// A line with so many words of an output, and one with so many of a capability, are messages or aren't.
fn are_lines(rt: &impl Abort, alloc: Global, count: usize, is_command: bool, is_reply: bool) {
    let outputs = line(rt, alloc, "OUT", "  0:2:0", count);
    let capabilities = line(rt, alloc, "PDCAP", " 1:2:3", count);
    assert!(rt; kinds_of(outputs.as_str()) == (is_command, false, false));
    assert!(rt; kinds_of(capabilities.as_str()) == (false, is_reply, false));
}

#[test]
fn a_line_of_many_words(rt: HostRuntime) {
    are_lines(&rt, rt.alloc(), 0, false, true);
    are_lines(&rt, rt.alloc(), 358, true, true);
    are_lines(&rt, rt.alloc(), 359, false, true);
    are_lines(&rt, rt.alloc(), 477, false, true);
    are_lines(&rt, rt.alloc(), 478, false, false);
    are_lines(&rt, rt.alloc(), 479, false, false);
    are_lines(&rt, rt.alloc(), 1_000, false, false);
}

#[test]
fn an_event_of_a_line(rt: HostRuntime) {
    let mut place = Spelling::new();
    let event = Event::parse_line(" KEYPAD  0 3132", &mut place).ok();
    prints(
        &rt,
        rt.alloc(),
        &event.expect(&rt, "an event"),
        "KEYPAD 0 3132",
    );
}
