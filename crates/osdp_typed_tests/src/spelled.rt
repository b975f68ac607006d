//! What a message is held to: its code, its data, and that it is read from them.
use osdp_msg::{Command, Event, Reply};
use std::alloc::Global;
use std::fmt;
use std::process::Abort;

/// The bytes of digits.
fn bytes_of(rt: &impl Abort, alloc: Global, digits: &str) -> Vec<u8> {
    hex::decode(alloc, digits).ok().expect(rt, "digits")
}

/// A message's bytes are these.
fn is_spelled(rt: &impl Abort, message: &[u8], bytes: &[u8]) {
    assert_eq!(rt; message, bytes);
}

/// A message that was made and one that was read are printed as the same text.
fn are_one(rt: &impl Abort, alloc: Global, made: &impl fmt::Display, read: &impl fmt::Display) {
    let made = made.to_string(alloc).ok().expect(rt, "memory for a text");
    let read = read.to_string(alloc).ok().expect(rt, "memory for a text");
    assert_eq!(rt; made.as_str(), read.as_str());
}

/// A command has this code and these data, and they are read as the command.
pub(crate) fn is_command(rt: &impl Abort, alloc: Global, made: &Command<'_>, digits: &str) {
    let bytes = bytes_of(rt, alloc, digits);
    let (code, data) = bytes.as_slice().split_first().expect(rt, "a code");
    is_spelled(rt, made.write().as_slice(), bytes.as_slice());
    let read = Command::read(*code, data).ok().expect(rt, "a command");
    is_spelled(rt, read.write().as_slice(), bytes.as_slice());
    are_one(rt, alloc, made, &read);
}

/// A reply has this code and these data, and they are read as the reply.
pub(crate) fn is_reply(rt: &impl Abort, alloc: Global, made: &Reply<'_>, digits: &str) {
    let bytes = bytes_of(rt, alloc, digits);
    let (code, data) = bytes.as_slice().split_first().expect(rt, "a code");
    is_spelled(rt, made.write().as_slice(), bytes.as_slice());
    let read = Reply::read(*code, data).ok().expect(rt, "a reply");
    is_spelled(rt, read.write().as_slice(), bytes.as_slice());
    are_one(rt, alloc, made, &read);
}

/// An event is told by the reply of this code and these data, and is read from it.
pub(crate) fn is_event(rt: &impl Abort, alloc: Global, made: &Event<'_>, digits: &str) {
    let reply = made.reply();
    is_reply(rt, alloc, &reply, digits);
    let read = reply.event().expect(rt, "an event");
    are_one(rt, alloc, made, &read);
}
