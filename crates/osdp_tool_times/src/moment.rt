//! The moments that the comments of a capture tell.

ghost use Rattle.std.specs.Prelude.{◌≡◌, ◌+◌, ◌<◌, ◌^◌, Option, length, IfOk, IfSome};
ghost use Rattle.osdp_tool_streams.specs.Line.{kept};
ghost use Rattle.osdp_tool_times.specs.Captures.{moment_after, moment_or};
ghost use Rattle.osdp_tool_times.specs.Moments.{clock_in, date_in, days, days_by_march, has_date, is_decimal, milliseconds, minutes_in, moment_in, moment_of_day, next_number, number_at, number_from, point_in, rest_in, seconds_in, stamp_in, thousandths, way_length};

use crate::line::{after_blank, before_blank};
use memchr::memchr;
use osdp_tool_streams::keep;
use std::alloc::AllocError;

/// As great a number takes no more digits.
const MOST: u64 = 1_000_000_000_000_000;

/// Whether a character is a decimal digit.
fn is_decimal(byte: u8) -> bool
    ensures { result ≡ is_decimal byte }
{
    byte >= b'0' && byte <= b'9'
}

/// The number that goes on with a digit.
fn next_number(number: u64, byte: u8) -> Option<u64>
    ensures { result ≡ next_number number byte }
{
    if is_decimal(byte) && number < MOST {
        Some(number * 10 + u64::from(byte - b'0'))
    } else {
        None
    }
}

/// The number that these digits go on with.
fn number_from(start: u64, digits: &[u8]) -> Option<u64>
    ensures { result ≡ number_from start digits.now }
{
    let mut number = start;
    'digits: for byte in digits {
        match next_number(number, *byte) {
            Some(next) => number = next,
            None => return None,
        }
    }
    Some(number)
}

/// The first three digits after the point.
fn thousandths(digits: &[u8]) -> [u8; 3]
    ensures { result ≡ thousandths digits.now }
{
    [
        digits.get(0).copied().unwrap_or(b'0'),
        digits.get(1).copied().unwrap_or(b'0'),
        digits.get(2).copied().unwrap_or(b'0'),
    ]
}

/// The milliseconds that these digits say in seconds.
fn milliseconds(whole: &[u8], digits: &[u8]) -> Option<u64>
    ensures { result ≡ milliseconds whole.now digits.now }
{
    if whole.is_empty() {
        return None;
    }
    let seconds = number_from(0, whole)?;
    number_from(seconds, &thousandths(digits))
}

/// Where the point stands.
fn point_in(text: &[u8]) -> Option<usize>
    ensures value { result ≡ point_in text.now }
    ensures within { IfSome result (λ place. place < length text.now) }
{
    memchr(b'.', text)
}

/// The milliseconds that a text says in seconds.
fn seconds_in(text: &[u8]) -> Option<u64>
    ensures { result ≡ seconds_in (point_in text.now) text.now }
{
    match point_in(text) {
        None => milliseconds(text, &[]),
        Some(point) => milliseconds(&text[..point], &text[point + 1..]),
    }
}

/// How many characters say the way of a burst.
pub(crate) fn way_length(text: &[u8]) -> usize
    ensures { result ≡ way_length text.now }
{
    if text.ends_with(b"in") {
        2
    } else if text.ends_with(b"out") {
        3
    } else if text.ends_with(b"trace") {
        5
    } else {
        0
    }
}

/// The number that so many digits at a place say.
fn number_at(place: usize, count: usize, text: &[u8]) -> Option<u64>
    requires { place + count < 2 ^ 32 }
    ensures value { result ≡ number_at place count text.now }
    ensures within { IfSome result (λ number. number < 10000) }
{
    let digits = text.get(place..).unwrap_or(&[]);
    let number = number_from(0, digits.get(..count).unwrap_or(digits))?;
    if number < 10_000 { Some(number) } else { None }
}

/// Days, by years that begin in March.
fn days_by_march(year: u64, month: u64, day: u64) -> u64
    requires year { year < 10000 }
    requires month { month < 10009 }
    requires day { day < 10000 }
    ensures value { result ≡ days_by_march year month day }
    ensures within { result < 10 ^ 7 }
{
    365 * year + year / 4 + year / 400 + (153 * month + 2) / 5 + day - year / 100
}

/// Days.
fn days(year: u64, month: u64, day: u64) -> u64
    requires year { year < 10000 }
    requires month { month < 10000 }
    requires day { day < 10000 }
    ensures value { result ≡ days year month day }
    ensures within { result < 10 ^ 7 }
{
    if month <= 2 {
        days_by_march(year.saturating_sub(1), month + 9, day)
    } else {
        days_by_march(year, month - 3, day)
    }
}

/// The day.
fn date_in(text: &[u8]) -> Option<u64>
    ensures value { result ≡ date_in text.now }
    ensures within { IfSome result (λ day. day < 10 ^ 7) }
{
    let year = number_at(0, 4, text)?;
    let month = number_at(5, 2, text)?;
    let day = number_at(8, 2, text)?;
    Some(days(year, month, day))
}

/// Minutes since the day began.
fn minutes_in(text: &[u8]) -> Option<u64>
    ensures value { result ≡ minutes_in text.now }
    ensures within { IfSome result (λ minutes. minutes < 10 ^ 6) }
{
    let hours = number_at(11, 2, text)?;
    let minutes = number_at(14, 2, text)?;
    Some(60 * hours + minutes)
}

/// Milliseconds since the minute began.
fn rest_in(text: &[u8]) -> Option<u64>
    ensures value { result ≡ rest_in text.now }
    ensures within { IfSome result (λ rest. rest < 10 ^ 8) }
{
    let seconds = number_at(17, 2, text)?;
    let rest = number_at(20, 3, text)?;
    Some(1000 * seconds + rest)
}

/// Milliseconds since the day began.
fn clock_in(text: &[u8]) -> Option<u64>
    ensures value { result ≡ clock_in text.now }
    ensures within { IfSome result (λ clock. clock < 10 ^ 12) }
{
    let minutes = minutes_in(text)?;
    let rest = rest_in(text)?;
    Some(60000 * minutes + rest)
}

/// The milliseconds of a date and a time of the day.
fn moment_of_day(text: &[u8]) -> Option<u64>
    ensures { result ≡ moment_of_day text.now }
{
    let day = date_in(text)?;
    let clock = clock_in(text)?;
    Some(86_400_000 * day + clock)
}

/// Whether a date stands there.
fn has_date(text: &[u8]) -> bool
    ensures { result ≡ has_date text.now }
{
    text.get(10).copied().unwrap_or(0) == b'T'
}

/// The milliseconds of a stamp.
fn stamp_in(text: &[u8]) -> Option<u64>
    ensures { result ≡ stamp_in text.now }
{
    if has_date(text) {
        moment_of_day(text)
    } else {
        seconds_in(text)
    }
}

/// The moment that the characters after the # of a comment tell, in milliseconds: a stamp, and a way.
fn moment_in(text: &[u8]) -> Option<u64>
    ensures { result ≡ moment_in text.now }
{
    let way = way_length(text);
    if way == 0 {
        return None;
    }
    stamp_in(&text[..text.len().saturating_sub(way)])
}

/// The milliseconds of a stamp in seconds with three digits after the point, as most are written; None for another one.
fn plain_stamp(stamp: &[u8]) -> Option<u64>
    ensures { IfSome result (λ moment. (kept stamp.now ≡ stamp.now) × (stamp_in stamp.now ≡ Option.Some moment)) }
{
    let point = stamp.len().checked_sub(4)?;
    if has_date(stamp) || stamp[point] != b'.' {
        return None;
    }
    milliseconds(&stamp[..point], &stamp[point + 1..])
}

/// The moment that the characters after the # of a comment tell, by those that count. A plain stamp is read where it stands; else these are put together in `characters`.
pub(crate) fn comment_moment(
    text: &[u8],
    characters: &mut Vec<u8>,
) -> Result<Option<u64>, AllocError>
    ensures { IfOk result (λ moment. moment ≡ moment_in (kept text.now)) }
{
    let text = before_blank(text);
    let way = way_length(text);
    let stamp = after_blank(before_blank(&text[..text.len().saturating_sub(way)]));
    if way > 0 {
        if let Some(moment) = plain_stamp(stamp) {
            return Ok(Some(moment));
        }
    }
    characters.clear();
    keep(characters, stamp)?;
    if way == 0 {
        return Ok(moment_in(characters));
    }
    Ok(stamp_in(characters))
}

/// The moment of the next line of digits after a comment that tells this one.
pub(crate) fn moment_or(told: Option<u64>, moment: Option<u64>) -> Option<u64>
    ensures { result ≡ moment_or told moment }
{
    match told {
        Some(other) => Some(other),
        None => moment,
    }
}

/// The moment of the next line of digits after a line with these characters that count.
pub(crate) fn moment_after(characters: &[u8], moment: Option<u64>) -> Option<u64>
    ensures { result ≡ moment_after characters.now moment }
{
    match characters {
        [] => moment,
        [b'#', rest @ ..] => moment_or(moment_in(rest), moment),
        [_, ..] => None,
    }
}
