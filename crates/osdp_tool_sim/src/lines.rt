//! Lines of an account.

ghost use Rattle.std.specs.Prelude.{◌≡◌, ◌++◌, List, IfOk, OnOk, map, string_bytes};
ghost use Rattle.osdp_msg.specs.CommandText.{command_words};
ghost use Rattle.osdp_msg.specs.Events.{event_words};
ghost use Rattle.osdp_sim.specs.Kept.{commands_of, events_of};
ghost use Rattle.osdp_words.specs.Word.{Word};
ghost use Rattle.osdp_tool_sim.specs.AccountText.{AddsNext, end_name, end_words, lines_text, named, settled_words};

use osdp_msg::{Command, Event};
use osdp_sim::{End, KeptLeft, SettledLeft};
use std::alloc::AllocError;

/// How a session ended, in one word.
fn end_name(end: End) -> &'static str
    ensures { result.now ≡ end_name end }
{
    match end {
        End::Lost(cause) => cause.name(),
        End::Moved => "moved",
    }
}

/// The items of a list of an account whose lines are still to come.
pub(crate) trait LinesLeft: Drop {
    /// What stands in each line after the name of the list.
    ghost left: { Self → List (List Word) };

    /// Takes the first of them, if one is left, and adds its line, which begins by the name of its list. Whether one was left.
    fn push_next(&mut self, text: &mut String, name: &str) -> Result<bool, AllocError>
        ensures { IfOk result (AddsNext (left self.old) (left self.new) name.now (string_bytes text.old) (string_bytes text.new)) };
}

/// Commands.
#[derive(Drop)]
pub(crate) struct CommandsLeft<'a>(pub(crate) KeptLeft<'a>);

impl<'a> LinesLeft for CommandsLeft<'a> {
    ghost left = { λ commands. map command_words (commands_of commands.0) };

    fn push_next(&mut self, text: &mut String, name: &str) -> Result<bool, AllocError> {
        let Some(bytes) = self.0.next() else {
            return Ok(false);
        };
        let command = Command::kept(bytes);
        write!(text, "{name} {command}\n")?;
        Ok(true)
    }
}

/// Commands that were settled, each with its answer.
impl<'a> LinesLeft for SettledLeft<'a> {
    ghost left = { λ pairs. map settled_words pairs };

    fn push_next(&mut self, text: &mut String, name: &str) -> Result<bool, AllocError> {
        let Some((command, answer)) = self.next() else {
            return Ok(false);
        };
        write!(text, "{name} {command} = {answer}\n")?;
        Ok(true)
    }
}

/// Events.
#[derive(Drop)]
pub(crate) struct EventsLeft<'a>(pub(crate) KeptLeft<'a>);

impl<'a> LinesLeft for EventsLeft<'a> {
    ghost left = { λ events. map event_words (events_of events.0) };

    fn push_next(&mut self, text: &mut String, name: &str) -> Result<bool, AllocError> {
        let Some(bytes) = self.0.next() else {
            return Ok(false);
        };
        let event = Event::kept(bytes);
        write!(text, "{name} {event}\n")?;
        Ok(true)
    }
}

/// How sessions ended.
#[derive(Drop)]
pub(crate) struct EndsLeft<'a>(pub(crate) &'a [End]);

impl<'a> LinesLeft for EndsLeft<'a> {
    ghost left = { λ ends. map end_words ends.0.now };

    fn push_next(&mut self, text: &mut String, name: &str) -> Result<bool, AllocError> {
        let Some((first, rest)) = self.0.split_first() else {
            return Ok(false);
        };
        self.0 = rest;
        let end = end_name(*first);
        write!(text, "{name} {end}\n")?;
        Ok(true)
    }
}

/// The lines of a list of an account, each of which begins by its name.
pub(crate) fn push_list<L: LinesLeft>(
    text: &mut String,
    name: &str,
    items: L,
) -> Result<(), AllocError>
    ensures { OnOk result (string_bytes text.new ≡ string_bytes text.old ++ lines_text (named name.now (L.left items))) }
{
    let mut items = items;
    'lines: loop {
        if !items.push_next(text, name)? {
            return Ok(());
        }
    }
}
