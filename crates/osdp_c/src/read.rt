//! Commands and events from texts.

ghost use Rattle.std.specs.Prelude.{◌≡◌};
ghost use Rattle.osdp_c.specs.CommandTexts.{IsReadCommand, IsReadEvent};

use osdp_msg::{Command, Event, Spelling};
use std::str;

/// The command whose text these bytes are, if they are one's. What it has of bytes stands in `place` then.
pub(crate) fn read_command<'a>(text: &[u8], place: &'a mut Spelling) -> Option<Command<'a>>
    ensures { IsReadCommand text.now result }
{
    let text = str::from_utf8(text).ok()?;
    Command::parse_line(text, place).ok()
}

/// The event whose text these bytes are, if they are one's. What it has of bytes stands in `place` then.
pub(crate) fn read_event<'a>(text: &[u8], place: &'a mut Spelling) -> Option<Event<'a>>
    ensures { IsReadEvent text.now result }
{
    let text = str::from_utf8(text).ok()?;
    Event::parse_line(text, place).ok()
}
