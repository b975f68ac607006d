//! What is printed of a device that is online or offline, and of one that restarted: moments as the day's time.

ghost use Rattle.std.specs.Prelude.{◌≡◌, ◌++◌, ◌<◌, OnOk, string_bytes};
ghost use Rattle.osdp_tool_times.specs.Text.{offline_line, offline_words, online_line, presence_line, presence_text, restarted_often, restarted_once, restarts_line};

use crate::day_time::push_day_time;
use crate::presence::{ALL, Presence};
use std::alloc::AllocError;

/// Writes since when a device is online, and when its last answer came, where it has answered.
fn push_online(
    text: &mut String,
    address: u64,
    since: Option<u64>,
    last: Option<u64>,
) -> Result<(), AllocError>
    ensures { OnOk result (string_bytes text.new ≡ string_bytes text.old ++ online_line address since last) }
{
    let (Some(since), Some(last)) = (since, last) else {
        return Ok(());
    };
    write!(text, "times: {address} online since ")?;
    push_day_time(text, since)?;
    text.push_str(", last answer at ")?;
    push_day_time(text, last)?;
    text.push_str("\n")
}

/// Writes since when it is offline.
fn push_offline_words(text: &mut String, last: Option<u64>) -> Result<(), AllocError>
    ensures { OnOk result (string_bytes text.new ≡ string_bytes text.old ++ offline_words last) }
{
    match last {
        None => text.push_str(" offline, "),
        Some(moment) => {
            text.push_str(" offline since ")?;
            push_day_time(text, moment)?;
            text.push_str(", ")
        }
    }
}

/// Writes that it is offline, and how many packets had no answer.
fn push_offline(text: &mut String, address: u64, presence: &Presence) -> Result<(), AllocError>
    ensures { OnOk result (string_bytes text.new ≡ string_bytes text.old ++ offline_line address presence.now) }
{
    let unanswered = presence.unanswered;
    write!(text, "times: {address}")?;
    push_offline_words(text, presence.last)?;
    write!(text, "{unanswered} packets without an answer\n")
}

/// Writes whether it is online or offline.
fn push_online_or_offline(
    text: &mut String,
    address: u64,
    presence: &Presence,
) -> Result<(), AllocError>
    ensures { OnOk result (string_bytes text.new ≡ string_bytes text.old ++ presence_line address presence.now) }
{
    if presence.is_offline() {
        return push_offline(text, address, presence);
    }
    push_online(text, address, presence.since, presence.last)
}

/// Writes when it restarted.
fn push_once(text: &mut String, address: u64, moment: u64) -> Result<(), AllocError>
    ensures { OnOk result (string_bytes text.new ≡ string_bytes text.old ++ restarted_once address moment) }
{
    write!(text, "times: {address} restarted at ")?;
    push_day_time(text, moment)?;
    text.push_str("\n")
}

/// Writes how often it restarted, and every how many seconds.
fn push_often(text: &mut String, address: u64, presence: &Presence) -> Result<(), AllocError>
    requires { 1 < presence.now.restarts }
    ensures { OnOk result (string_bytes text.new ≡ string_bytes text.old ++ restarted_often address presence.now) }
{
    let restarts = presence.restarts;
    let seconds = presence.restart_seconds();
    write!(
        text,
        "times: {address} restarted {restarts} times, every {seconds} s\n"
    )
}

/// Writes its restarts.
fn push_restarts(text: &mut String, address: u64, presence: &Presence) -> Result<(), AllocError>
    ensures { OnOk result (string_bytes text.new ≡ string_bytes text.old ++ restarts_line address presence.now) }
{
    if presence.restarts == 0 {
        return Ok(());
    }
    if presence.restarts == 1 {
        return push_once(text, address, presence.last_restart);
    }
    push_often(text, address, presence)
}

/// Writes whether a device is online or offline, and its restarts.
pub(crate) fn push_presence(
    text: &mut String,
    address: u64,
    presence: &Presence,
) -> Result<(), AllocError>
    ensures { OnOk result (string_bytes text.new ≡ string_bytes text.old ++ presence_text address presence.now) }
{
    if address == ALL {
        return Ok(());
    }
    push_online_or_offline(text, address, presence)?;
    push_restarts(text, address, presence)
}
