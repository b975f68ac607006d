//! What the program doesn't show of messages. Published packets, and the tables of messages row by row, stand in `tests/rows/`.
use osdp_msg::*;
use std::alloc::{AllocError, Global};
use std::fmt;
use std::process::Abort;

mod events;
mod made;
mod options;
mod placed;
mod reasons;
mod refusals;

/// The words of a text: what stands between its spaces.
fn words_of<'a>(rt: &impl Abort, alloc: Global, text: &'a str) -> Vec<&'a str> {
    let words: Result<Vec<&str>, AllocError> = text.split(' ').collect(alloc);
    words.ok().expect(rt, "memory for words")
}

/// The bytes of digits.
fn bytes_of(rt: &impl Abort, alloc: Global, digits: &str) -> Vec<u8> {
    hex::decode(alloc, digits).ok().expect(rt, "digits")
}

/// The text that was printed is this one.
fn is_text(rt: &impl Abort, printed: &str, text: &str) {
    assert_eq!(rt; printed, text);
}

/// A message's bytes are this code and data.
fn is_spelled(rt: &impl Abort, message: &[u8], code: u8, data: &[u8]) {
    let (first, rest) = message.split_first().expect(rt, "a code");
    assert_eq!(rt; *first, code);
    assert_eq!(rt; rest, data);
}

/// Why the table of this name refuses a code and data; None where it has them.
fn fault_of(table: &str, code: u8, data: &[u8]) -> Option<MsgFault> {
    if table == "command" {
        Command::read(code, data).err()
    } else {
        Reply::read(code, data).err()
    }
}

/// A message is printed as this text.
fn prints(rt: &impl Abort, alloc: Global, message: &impl fmt::Display, text: &str) {
    let printed = message.to_string(alloc).ok();
    is_text(rt, printed.expect(rt, "memory for a text").as_str(), text);
}

/// A command has this code and data, and is printed as this text.
fn is_command(
    rt: &impl Abort,
    alloc: Global,
    command: &Command<'_>,
    code: u8,
    data: &[u8],
    text: &str,
) {
    is_spelled(rt, command.write().as_slice(), code, data);
    prints(rt, alloc, command, text);
}
