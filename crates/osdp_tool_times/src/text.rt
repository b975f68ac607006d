//! What is printed of the answers of each device.

ghost use Rattle.std.specs.Prelude.{◌≡◌, ◌++◌, ◌<◌, ◌≤◌, OnOk, Option, length, slice_get, string_bytes};
ghost use Rattle.osdp_tool_times.specs.Text.{answers_line, counted_text, device_text, late_line, shares_text, times_text};

use crate::presence_text::push_presence;
use crate::table::Times;
use std::alloc::AllocError;

/// Writes below how many milliseconds half of the answers stayed, and 95 of 100.
fn push_shares(text: &mut String, half: u64, nearly_all: u64) -> Result<(), AllocError>
    ensures { OnOk result (string_bytes text.new ≡ string_bytes text.old ++ shares_text half nearly_all) }
{
    write!(text, ", half below {half}, 95 of 100 below {nearly_all}\n")
}

/// Writes how many answers came in time, the fastest and the slowest.
fn push_counted(text: &mut String, address: u64, times: &Times) -> Result<(), AllocError>
    ensures { OnOk result (string_bytes text.new ≡ string_bytes text.old ++ counted_text address times.now) }
{
    let answers = times.answers;
    let least = times.least;
    let most = times.most;
    write!(
        text,
        "times: {address} answered {answers} in {least} to {most} ms"
    )
}

/// Writes the line of the answers that came in time.
fn push_answers(text: &mut String, address: u64, times: &Times) -> Result<(), AllocError>
    ensures { OnOk result (string_bytes text.new ≡ string_bytes text.old ++ answers_line address times.now) }
{
    if times.answers == 0 {
        return Ok(());
    }
    push_counted(text, address, times)?;
    push_shares(text, times.half_below(), times.most_below())
}

/// Writes the line of the answers that came late.
fn push_late(text: &mut String, address: u64, times: &Times) -> Result<(), AllocError>
    ensures { OnOk result (string_bytes text.new ≡ string_bytes text.old ++ late_line address times.now) }
{
    if times.late == 0 {
        return Ok(());
    }
    let late = times.late;
    let took = times.took;
    let waited = times.waited;
    write!(
        text,
        "times: {address} answered {late} late, after {took} ms at most: the panel waits {waited} ms\n"
    )
}

/// Writes the lines of an address.
fn push_device(text: &mut String, address: u64, times: &Times) -> Result<(), AllocError>
    ensures { OnOk result (string_bytes text.new ≡ string_bytes text.old ++ device_text address times.now) }
{
    push_answers(text, address, times)?;
    push_late(text, address, times)?;
    push_presence(text, address, &times.presence)
}

/// What was counted of an address.
pub(crate) fn times_at(times: &[Times], address: usize) -> Times
    requires { address < length times.now }
    ensures { slice_get times.now address ≡ Option.Some result }
{
    times[address]
}

/// Writes the lines of all addresses, from 0 on.
pub(crate) fn push_times(text: &mut String, times: &[Times]) -> Result<(), AllocError>
    requires { length times.now ≤ 128 }
    ensures { OnOk result (string_bytes text.new ≡ string_bytes text.old ++ times_text times.now) }
{
    'devices: for address in 0..times.len() {
        let device = times_at(times, address);
        push_device(text, address as u64, &device)?;
    }
    Ok(())
}
