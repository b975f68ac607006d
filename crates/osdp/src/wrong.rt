//! What is wrong with the words after the program's name, where they are bad.

use osdp_line_calls::{WrongSetting, panel_settings, reader_settings};
use osdp_refused_words::{Slot, command_stop, reply_stop, slots_stop};
use osdp_tool::{Choice, choose, format_of, unknown_command, without_formats};
use osdp_tool_captures::Format;
use osdp_tool_inputs::{Reads, read_words};
use osdp_tool_plan::planned;
use osdp_tool_streams::ToolFault;
use osdp_tool_test::form_stop;

/// The words after a command's name.
pub fn after_name<'a>(words: &'a [&'a str]) -> &'a [&'a str] {
    words.get(1..).unwrap_or(&[])
}

/// What is wrong with the settings of a panel or a reader.
fn wrong_setting<'a>(words: &'a [&'a str]) -> Option<WrongSetting<'a>> {
    match choose(words) {
        Choice::Panel => panel_settings(after_name(words)).err(),
        Choice::Reader => reader_settings(after_name(words)).err(),
        Choice::Help(_)
        | Choice::Version
        | Choice::Show
        | Choice::Check
        | Choice::Monitor
        | Choice::Plan
        | Choice::Test
        | Choice::Job => None,
    }
}

/// Says what is wrong with the words of a plan.
fn tell_wrong_plan(rt: &HostRuntime, words: &[&str]) {
    if choose(words) == Choice::Plan {
        if let Err(wrong) = planned(after_name(words)) {
            let _ = eprintln!(rt; "{wrong}");
        }
    }
}

/// The first of the words after `test` that cannot stand there.
fn wrong_test_word<'a>(words: &'a [&'a str]) -> Option<&'a str> {
    match words {
        ["script", rest @ ..] => rest.first().copied(),
        ["panel", rest @ ..] => rest.get(form_stop(rest)).copied(),
        _ => words.get(form_stop(words)).copied(),
    }
}

/// Says which word of a test cannot stand where it is.
fn tell_wrong_test(rt: &HostRuntime, words: &[&str]) {
    if choose(words) == Choice::Test {
        if let Some(word) = wrong_test_word(after_name(words)) {
            let _ = eprintln!(rt; "osdp: no word of test: {word}; try: osdp help test");
        }
    }
}

/// How many of the first words can be read, as options and then files.
fn readable(reads: Reads, format: Format, words: &[&str]) -> usize {
    let mut count = 0;
    for (place, _) in words.iter().enumerate() {
        let front = words.get(..=place).unwrap_or(&[]);
        if read_words(reads, format, front).is_some() {
            count = front.len();
        }
    }
    count
}

/// Whether a number follows an option of this name.
fn has_number(word: &str) -> bool {
    match word {
        "--address" | "--gap" | "--every" => true,
        _ => false,
    }
}

/// Says which word after the name of a command that reads captures cannot stand where it is, with its number where it has one.
fn tell_wrong_option(
    rt: &HostRuntime,
    reads: Reads,
    name: &str,
    words: &[&str],
) -> Result<(), ToolFault> {
    let left = without_formats(rt.alloc(), words)?;
    let place = readable(reads, format_of(words), left.as_slice());
    match left.as_slice().get(place..).unwrap_or(&[]) {
        [] => {}
        [word, number, ..] if has_number(word) => {
            let _ = eprintln!(rt;
                "osdp: no words of {name}: {word} {number}; try: osdp help {name}"
            );
        }
        [word, ..] => {
            let _ = eprintln!(rt; "osdp: no word of {name}: {word}; try: osdp help {name}");
        }
    }
    Ok(())
}

/// Says which word of `show`, `check` or `monitor` cannot stand where it is.
fn tell_wrong_capture(rt: &HostRuntime, words: &[&str]) -> Result<(), ToolFault> {
    match choose(words) {
        Choice::Show => tell_wrong_option(rt, Reads::Show, "show", after_name(words)),
        Choice::Check => tell_wrong_option(rt, Reads::Check, "check", after_name(words)),
        Choice::Monitor => tell_wrong_option(rt, Reads::Monitor, "monitor", after_name(words)),
        Choice::Help(_)
        | Choice::Version
        | Choice::Panel
        | Choice::Reader
        | Choice::Plan
        | Choice::Test
        | Choice::Job => Ok(()),
    }
}

/// How many of the first words can stand in the text of a command or of a reply.
fn message_stop(words: &[&str]) -> usize {
    command_stop(words).max(reply_stop(words))
}

/// The first of the words after `make` that cannot stand there; as many as there are words, where each may.
fn make_stop(words: &[&str]) -> usize {
    let head = slots_stop(&[Slot::Number(0, 127), Slot::Number(0, 3)], words);
    match words.get(head..).unwrap_or(&[]) {
        ["sum" | "crc", message @ ..] if head == 2 => message_stop(message).saturating_add(3),
        _ => head,
    }
}

/// Says which word of `make` cannot stand where it is, or that words are missing; and that `sim` takes none.
fn tell_wrong_job(rt: &HostRuntime, words: &[&str]) {
    match words {
        ["make", rest @ ..] => match rest.get(make_stop(rest)) {
            Some(word) => {
                let _ = eprintln!(rt; "osdp: no word of make: {word}; try: osdp help make");
            }
            None => {
                let _ = eprintln!(rt;
                    "osdp: words are missing after the last; try: osdp help make"
                );
            }
        },
        ["sim", word, ..] => {
            let _ = eprintln!(rt; "osdp: no word of sim: {word}; try: osdp help sim");
        }
        _ => {}
    }
}

/// Says what is wrong with the words, as far as it can be said.
pub fn tell_wrong(rt: &HostRuntime, words: &[&str]) -> Result<(), ToolFault> {
    if let Some(word) = unknown_command(words) {
        let _ = eprintln!(rt; "osdp: no command: {word}; try: osdp help");
    }
    if let Some(wrong) = wrong_setting(words) {
        let _ = eprintln!(rt; "{wrong}");
    }
    tell_wrong_plan(rt, words);
    tell_wrong_test(rt, words);
    tell_wrong_job(rt, words);
    tell_wrong_capture(rt, words)
}
