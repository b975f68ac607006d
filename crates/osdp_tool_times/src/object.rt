//! The answers of each device as objects of JSON, a line each.

ghost use Rattle.std.specs.Prelude.{◌≡◌, ◌++◌, ◌≤◌, OnOk, length, string_bytes};
ghost use Rattle.osdp_tool_times.specs.Text.{answers_members, answers_object, device_objects, first_members, late_members, late_object, named, shares_members, times_objects, took_members};

use crate::presence_object::push_presence;
use crate::table::Times;
use crate::text::times_at;
use std::alloc::AllocError;

/// Writes a number after its name.
#[tactic(auto, unfolding(crate::specs::Text::named))]
pub(crate) fn push_named(text: &mut String, name: &str, number: u64) -> Result<(), AllocError>
    ensures { OnOk result (string_bytes text.new ≡ string_bytes text.old ++ named name.now number) }
{
    write!(text, ",\"{name}\":{number}")
}

/// Writes below how many milliseconds half of the answers stayed, and 95 of 100.
fn push_shares(text: &mut String, half: u64, nearly_all: u64) -> Result<(), AllocError>
    ensures { OnOk result (string_bytes text.new ≡ string_bytes text.old ++ shares_members half nearly_all) }
{
    push_named(text, "half_below", half)?;
    push_named(text, "most_below", nearly_all)?;
    text.push_str("}\n")
}

/// Writes how many answers came in time, the fastest and the slowest.
fn push_members(text: &mut String, address: u64, times: &Times) -> Result<(), AllocError>
    ensures { OnOk result (string_bytes text.new ≡ string_bytes text.old ++ answers_members address times.now) }
{
    text.push_str("{\"kind\":\"times\"")?;
    push_named(text, "address", address)?;
    push_named(text, "answers", times.answers)?;
    push_named(text, "least", times.least)?;
    push_named(text, "most", times.most)
}

/// Writes the object of the answers that came in time.
fn push_answers(text: &mut String, address: u64, times: &Times) -> Result<(), AllocError>
    ensures { OnOk result (string_bytes text.new ≡ string_bytes text.old ++ answers_object address times.now) }
{
    if times.answers == 0 {
        return Ok(());
    }
    push_members(text, address, times)?;
    push_shares(text, times.half_below(), times.most_below())
}

/// Writes what an object begins with, an address and how many answers.
fn push_first(text: &mut String, start: &str, address: u64, answers: u64) -> Result<(), AllocError>
    ensures { OnOk result (string_bytes text.new ≡ string_bytes text.old ++ first_members start.now address answers) }
{
    text.push_str(start)?;
    push_named(text, "address", address)?;
    push_named(text, "answers", answers)
}

/// Writes how many answers came late.
#[tactic(auto, unfolding(crate::specs::Text::late_members))]
fn push_late_members(text: &mut String, address: u64, late: u64) -> Result<(), AllocError>
    ensures { OnOk result (string_bytes text.new ≡ string_bytes text.old ++ late_members address late) }
{
    push_first(text, "{\"kind\":\"late\"", address, late)
}

/// Writes how long the latest took, and the shortest wait of the panel.
fn push_took(text: &mut String, took: u64, waited: u64) -> Result<(), AllocError>
    ensures { OnOk result (string_bytes text.new ≡ string_bytes text.old ++ took_members took waited) }
{
    push_named(text, "took", took)?;
    push_named(text, "waited", waited)?;
    text.push_str("}\n")
}

/// Writes the object of the answers that came late.
fn push_late(text: &mut String, address: u64, times: &Times) -> Result<(), AllocError>
    ensures { OnOk result (string_bytes text.new ≡ string_bytes text.old ++ late_object address times.now) }
{
    if times.late == 0 {
        return Ok(());
    }
    push_late_members(text, address, times.late)?;
    push_took(text, times.took, times.waited)
}

/// Writes the objects of an address.
fn push_device(text: &mut String, address: u64, times: &Times) -> Result<(), AllocError>
    ensures { OnOk result (string_bytes text.new ≡ string_bytes text.old ++ device_objects address times.now) }
{
    push_answers(text, address, times)?;
    push_late(text, address, times)?;
    push_presence(text, address, &times.presence)
}

/// Writes the objects of all addresses, from 0 on.
pub(crate) fn push_objects(text: &mut String, times: &[Times]) -> Result<(), AllocError>
    requires { length times.now ≤ 128 }
    ensures { OnOk result (string_bytes text.new ≡ string_bytes text.old ++ times_objects times.now) }
{
    'devices: for address in 0..times.len() {
        let device = times_at(times, address);
        push_device(text, address as u64, &device)?;
    }
    Ok(())
}
