//! The day's time of a moment, and a stamp with it.

ghost use Rattle.std.specs.Prelude.{◌≡◌, ◌++◌, ◌∷◌, [], IfOk, OnOk, string_bytes};
ghost use Rattle.osdp_tool_times.specs.DayTime.{clock_stamp, day_time, digit, hours, minutes, seconds, three_digits, two_digits};

use crate::moment::{comment_moment, way_length};
use std::alloc::{AllocError, Global};

/// The hours since its day began.
fn hours(moment: u64) -> u64
    ensures { result ≡ hours moment }
{
    moment / 3_600_000 % 24
}

/// The minutes since its hour began.
fn minutes(moment: u64) -> u64
    ensures { result ≡ minutes moment }
{
    moment / 60_000 % 60
}

/// The seconds since its minute began.
fn seconds(moment: u64) -> u64
    ensures { result ≡ seconds moment }
{
    moment / 1000 % 60
}

/// Writes the last decimal digit of a number.
#[tactic(auto, using(crate::proofs::DayTimes::digit_text))]
fn push_digit(text: &mut String, number: u64) -> Result<(), AllocError>
    ensures { OnOk result (string_bytes text.new ≡ string_bytes text.old ++ digit number ∷ []) }
{
    let last = number % 10;
    write!(text, "{last}")
}

/// Writes two digits.
#[tactic(auto, unfolding(crate::specs::DayTime::two_digits))]
fn push_two(text: &mut String, number: u64) -> Result<(), AllocError>
    ensures { OnOk result (string_bytes text.new ≡ string_bytes text.old ++ two_digits number) }
{
    push_digit(text, number / 10)?;
    push_digit(text, number)
}

/// Writes three digits.
#[tactic(auto, unfolding(crate::specs::DayTime::three_digits))]
fn push_three(text: &mut String, number: u64) -> Result<(), AllocError>
    ensures { OnOk result (string_bytes text.new ≡ string_bytes text.old ++ three_digits number) }
{
    push_digit(text, number / 100)?;
    push_two(text, number)
}

/// Writes the day's time of a moment in milliseconds, as `10:02:33.125`.
pub(crate) fn push_day_time(text: &mut String, moment: u64) -> Result<(), AllocError>
    ensures { OnOk result (string_bytes text.new ≡ string_bytes text.old ++ day_time moment) }
{
    push_two(text, hours(moment))?;
    text.push_str(":")?;
    push_two(text, minutes(moment))?;
    text.push_str(":")?;
    push_two(text, seconds(moment))?;
    text.push_str(".")?;
    push_three(text, moment % 1000)
}

/// A stamp of a moment and a way, as `12.345 in`, with the day's time in place of the moment: in milliseconds since 1970 it is that of UTC. A stamp that tells no
/// moment stays as it is.
pub fn clock_stamp(alloc: Global, stamp: &[u8]) -> Result<Vec<u8>, AllocError>
    ensures { IfOk result (λ told. told.items ≡ clock_stamp stamp.now) }
{
    let mut characters = Vec::new(alloc);
    let mut told = Vec::new(alloc);
    let Some(moment) = comment_moment(stamp, &mut characters)? else {
        told.extend_from_slice(stamp)?;
        return Ok(told);
    };
    let way = way_length(stamp);
    let mut time = String::new(alloc);
    push_day_time(&mut time, moment)?;
    told.extend_from_slice(time.as_bytes())?;
    told.extend_from_slice(&stamp[stamp.len().saturating_sub(way).saturating_sub(1)..])?;
    Ok(told)
}
