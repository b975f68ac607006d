//! A device that is online or offline, and its restarts, as objects of JSON, a line each.

ghost use Rattle.std.specs.Prelude.{◌≡◌, ◌++◌, ◌<◌, ◌∷◌, OnOk, Some, string_bytes};
ghost use Rattle.osdp_tool_times.specs.Text.{every_member, every_members, last_member, offline_object, offline_start, often_members, online_object, online_object_if, presence_object, presence_objects, quoted_time, restarts_members, restarts_object, restarts_start, started, timed, unanswered_members};

use crate::day_time::push_day_time;
use crate::object::push_named;
use crate::presence::{ALL, Presence};
use std::alloc::AllocError;

/// Writes a moment as the day's time in quotes; null where there is none.
fn push_quoted(text: &mut String, moment: Option<u64>) -> Result<(), AllocError>
    ensures { OnOk result (string_bytes text.new ≡ string_bytes text.old ++ quoted_time moment) }
{
    let Some(moment) = moment else {
        return text.push_str("null");
    };
    text.push_str("\"")?;
    push_day_time(text, moment)?;
    text.push_str("\"")
}

/// Writes a moment after its name.
#[tactic(auto, unfolding(crate::specs::Text::timed))]
fn push_timed(text: &mut String, name: &str, moment: Option<u64>) -> Result<(), AllocError>
    ensures { OnOk result (string_bytes text.new ≡ string_bytes text.old ++ timed name.now moment) }
{
    write!(text, ",\"{name}\":")?;
    push_quoted(text, moment)
}

/// Writes what an object begins with.
#[tactic(auto, unfolding(crate::specs::Text::started))]
fn push_started(text: &mut String, start: &str, address: u64) -> Result<(), AllocError>
    ensures { OnOk result (string_bytes text.new ≡ string_bytes text.old ++ started start.now address) }
{
    text.push_str(start)?;
    push_named(text, "address", address)
}

/// Writes the moment that an object ends with.
#[tactic(auto, unfolding(crate::specs::Text::last_member))]
fn push_last(text: &mut String, last: Option<u64>) -> Result<(), AllocError>
    ensures { OnOk result (string_bytes text.new ≡ string_bytes text.old ++ last_member last) }
{
    push_timed(text, "last", last)?;
    text.push_str("}\n")
}

/// Writes the object of a device that is online.
fn push_online(
    text: &mut String,
    address: u64,
    since: Option<u64>,
    last: Option<u64>,
) -> Result<(), AllocError>
    ensures { OnOk result (string_bytes text.new ≡ string_bytes text.old ++ online_object address since last) }
{
    push_started(text, "{\"kind\":\"online\"", address)?;
    push_timed(text, "since", since)?;
    push_last(text, last)
}

/// Writes it, where the device has answered.
fn push_online_if(
    text: &mut String,
    address: u64,
    since: Option<u64>,
    last: Option<u64>,
) -> Result<(), AllocError>
    ensures { OnOk result (string_bytes text.new ≡ string_bytes text.old ++ online_object_if address since last) }
{
    match since {
        None => Ok(()),
        Some(_) => push_online(text, address, since, last),
    }
}

/// Writes how many packets had no answer, and when the last answer came.
#[tactic(auto, unfolding(crate::specs::Text::unanswered_members))]
fn push_unanswered(text: &mut String, unanswered: u64, last: Option<u64>) -> Result<(), AllocError>
    ensures { OnOk result (string_bytes text.new ≡ string_bytes text.old ++ unanswered_members unanswered last) }
{
    push_named(text, "unanswered", unanswered)?;
    push_last(text, last)
}

/// Writes what the object of a device that is offline begins with.
#[tactic(auto, unfolding(crate::specs::Text::offline_start))]
fn push_offline_start(text: &mut String, address: u64) -> Result<(), AllocError>
    ensures { OnOk result (string_bytes text.new ≡ string_bytes text.old ++ offline_start address) }
{
    push_started(text, "{\"kind\":\"offline\"", address)
}

/// Writes the object of a device that is offline.
fn push_offline(text: &mut String, address: u64, presence: &Presence) -> Result<(), AllocError>
    ensures { OnOk result (string_bytes text.new ≡ string_bytes text.old ++ offline_object address presence.now) }
{
    push_offline_start(text, address)?;
    push_unanswered(text, presence.unanswered, presence.last)
}

/// Writes the object of a device that is online or offline.
fn push_online_or_offline(
    text: &mut String,
    address: u64,
    presence: &Presence,
) -> Result<(), AllocError>
    ensures { OnOk result (string_bytes text.new ≡ string_bytes text.old ++ presence_object address presence.now) }
{
    if presence.is_offline() {
        return push_offline(text, address, presence);
    }
    push_online_if(text, address, presence.since, presence.last)
}

/// Writes every how many seconds it restarted.
fn push_every(text: &mut String, presence: &Presence) -> Result<(), AllocError>
    requires { 0 < presence.now.restarts }
    ensures { OnOk result (string_bytes text.new ≡ string_bytes text.old ++ every_member presence.now) }
{
    if presence.restarts == 1 {
        return text.push_str(",\"every\":null");
    }
    push_named(text, "every", presence.restart_seconds())
}

/// Writes that, and when the last restart was.
#[tactic(auto, unfolding(crate::specs::Text::every_members))]
fn push_every_and_last(text: &mut String, presence: &Presence) -> Result<(), AllocError>
    requires { 0 < presence.now.restarts }
    ensures { OnOk result (string_bytes text.new ≡ string_bytes text.old ++ every_members presence.now) }
{
    push_every(text, presence)?;
    push_last(text, Some(presence.last_restart))
}

/// Writes how often it restarted, and that.
#[tactic(auto, unfolding(crate::specs::Text::often_members))]
fn push_often(text: &mut String, presence: &Presence) -> Result<(), AllocError>
    requires { 0 < presence.now.restarts }
    ensures { OnOk result (string_bytes text.new ≡ string_bytes text.old ++ often_members presence.now) }
{
    push_named(text, "restarts", presence.restarts)?;
    push_every_and_last(text, presence)
}

/// Writes what the object of its restarts begins with.
#[tactic(auto, unfolding(crate::specs::Text::restarts_start))]
fn push_restarts_start(text: &mut String, address: u64) -> Result<(), AllocError>
    ensures { OnOk result (string_bytes text.new ≡ string_bytes text.old ++ restarts_start address) }
{
    push_started(text, "{\"kind\":\"restarts\"", address)
}

/// Writes the object of its restarts.
fn push_members(text: &mut String, address: u64, presence: &Presence) -> Result<(), AllocError>
    requires { 0 < presence.now.restarts }
    ensures { OnOk result (string_bytes text.new ≡ string_bytes text.old ++ restarts_members address presence.now) }
{
    push_restarts_start(text, address)?;
    push_often(text, presence)
}

/// Writes it, where there was one.
fn push_restarts(text: &mut String, address: u64, presence: &Presence) -> Result<(), AllocError>
    ensures { OnOk result (string_bytes text.new ≡ string_bytes text.old ++ restarts_object address presence.now) }
{
    if presence.restarts == 0 {
        return Ok(());
    }
    push_members(text, address, presence)
}

/// Writes the objects of a device that is online or offline, and of its restarts.
pub(crate) fn push_presence(
    text: &mut String,
    address: u64,
    presence: &Presence,
) -> Result<(), AllocError>
    ensures { OnOk result (string_bytes text.new ≡ string_bytes text.old ++ presence_objects address presence.now) }
{
    if address == ALL {
        return Ok(());
    }
    push_online_or_offline(text, address, presence)?;
    push_restarts(text, address, presence)
}
