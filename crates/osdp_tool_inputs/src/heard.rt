//! The lines of `monitor` with the moments of a capture, and the answer times of its devices.

ghost use Rattle.std.specs.Prelude.{◌≡◌, ◌==◌, ◌++◌, ◌∷◌, ◌<◌, [], IfOk, IfSome, OnOk, flat_map, is_some, length, string_bytes};
ghost use Rattle.memchr.specs.Find.{first_of, is_byte, places};
ghost use Rattle.osdp_tool_inputs.specs.Echoes.{echoes_in, heard_part, left_of, printed_by};
ghost use Rattle.osdp_tool_inputs.specs.Heard.{after_colon, is_about, marked_line, marked_object, members_after, names_run, place_named, printed_of, retold_line, retold_times, shown_by, stamped_object, times_after, told_line, took_members, took_text, whole_line};
ghost use Rattle.osdp_tool_inputs.specs.Places.{HasFollowed, IsAt, IsHeard, stamps_left, tells_left};
ghost use Rattle.osdp_tool_streams.specs.Cut.{lines_of};
ghost use Rattle.osdp_tool_times.specs.Captures.{heard_of};

use crate::capture::{Capture, LateTimes};
use crate::ears::Ears;
use crate::echoes::push_echoes;
use crate::lines::Lines;
use crate::places::{Mark, Place, Source};
use crate::printable::printable;
use crate::times::{is_decimal, push_line, run_in};
use memchr::memchr;
use osdp_tool_objects::push_object;
use osdp_tool_times::{Timed, clock_stamp};
use std::alloc::{AllocError, Global};

/// What the monitor tells of a late answer.
const LATE: &[u8] = b"a late answer: the reader takes longer than the panel waits";

/// Whether a colon stands in a line.
fn has_colon(line: &[u8]) -> bool
    ensures { result ≡ is_some (first_of (places (is_byte 58) line.now)) }
{
    memchr(b':', line).is_some()
}

/// Whether a line is about a run.
fn names_run(line: &[u8]) -> bool
    ensures { result ≡ names_run line.now }
{
    is_decimal(line.get(0).copied().unwrap_or(0)) && has_colon(line)
}

/// Adds a line as it is.
pub(crate) fn push_plain(text: &mut Vec<u8>, line: &[u8]) -> Result<(), AllocError>
    ensures { OnOk result (text.new.items ≡ text.old.items ++ (line.now ++ 10 ∷ [])) }
{
    text.extend_from_slice(line)?;
    text.push(b'\n')?;
    Ok(())
}

/// Where the first colon of a line stands.
fn colon_in(line: &[u8]) -> Option<usize>
    ensures value { result ≡ first_of (places (is_byte 58) line.now) }
    ensures within { IfSome result (λ colon. colon < length line.now) }
{
    memchr(b':', line)
}

/// What stands after the first colon of a line.
fn after_colon(line: &[u8]) -> &[u8]
    ensures { result.now ≡ after_colon (first_of (places (is_byte 58) line.now)) line.now }
{
    match colon_in(line) {
        None => &[],
        Some(colon) => &line[colon + 1..],
    }
}

/// Whether a line about a run names this place.
fn names_place(line: &[u8], place: usize) -> bool
    ensures { result ≡ (place_named line.now == place) }
{
    match run_in(after_colon(line), place) {
        None => false,
        Some(named) => named == place,
    }
}

/// Whether a line tells of this late answer.
fn is_about(late: &LateTimes, line: &[u8]) -> bool
    ensures { result ≡ is_about late.now line.now }
{
    names_place(line, late.place) && line.ends_with(LATE)
}

/// How long a late answer took, and how long the panel waited.
fn took_text(alloc: Global, took: u64, waited: u64) -> Result<String, AllocError>
    ensures { IfOk result (λ text. string_bytes text ≡ took_text took waited) }
{
    format!(in alloc; " (it took {took} ms, the panel waited {waited} ms)")
}

/// What stands after a line about a run that tells this.
fn times_after(alloc: Global, line: &[u8], told: Option<LateTimes>) -> Result<String, AllocError>
    ensures { IfOk result (λ text. string_bytes text ≡ times_after line.now told) }
{
    match told {
        None => Ok(String::new(alloc)),
        Some(late) => {
            if is_about(&late, line) {
                took_text(alloc, late.took, late.waited)
            } else {
                Ok(String::new(alloc))
            }
        }
    }
}

/// The same as members of an object of JSON.
fn took_members(alloc: Global, took: u64, waited: u64) -> Result<String, AllocError>
    ensures { IfOk result (λ text. string_bytes text ≡ took_members took waited) }
{
    format!(in alloc; ",\"took\":{took},\"waited\":{waited}")
}

/// What stands after the members of a line about a run that tells this.
fn members_after(alloc: Global, line: &[u8], told: Option<LateTimes>) -> Result<String, AllocError>
    ensures { IfOk result (λ text. string_bytes text ≡ members_after line.now told) }
{
    match told {
        None => Ok(String::new(alloc)),
        Some(late) => {
            if is_about(&late, line) {
                took_members(alloc, late.took, late.waited)
            } else {
                Ok(String::new(alloc))
            }
        }
    }
}

/// A stamp, with the day's time where that is asked for. Its control characters are shown.
fn shown_stamp(alloc: Global, clock: bool, stamp: &[u8]) -> Result<String, AllocError>
    ensures { IfOk result (λ shown. string_bytes shown ≡ shown_by clock stamp.now) }
{
    if !clock {
        return printable(alloc, stamp);
    }
    let timed = clock_stamp(alloc, stamp)?;
    printable(alloc, timed.as_slice())
}

/// A line about a run that tells this, and the times of a late answer.
fn whole_line(alloc: Global, told: Option<LateTimes>, line: &[u8]) -> Result<Vec<u8>, AllocError>
    ensures { IfOk result (λ whole. whole.items ≡ whole_line told line.now) }
{
    let times = times_after(alloc, line, told)?;
    let mut whole = Vec::new(alloc);
    whole.extend_from_slice(line)?;
    whole.extend_from_slice(times.as_bytes())?;
    Ok(whole)
}

/// Adds a line about a run after its stamp, and before its times.
fn push_marked(
    alloc: Global,
    clock: bool,
    text: &mut Vec<u8>,
    mark: Mark<'_>,
    line: &[u8],
) -> Result<(), AllocError>
    ensures { OnOk result (text.new.items ≡ text.old.items ++ marked_line clock mark.entry.stamp.now mark.entry.told line.now) }
{
    let whole = whole_line(alloc, mark.told, line)?;
    let stamp = shown_stamp(alloc, clock, mark.stamp)?;
    push_line(text, stamp.as_bytes(), whole.as_slice())
}

/// Adds a line that was printed of a text, where it is about a run after the stamp of that, and before its times.
fn push_told<'a>(
    alloc: Global,
    clock: bool,
    text: &mut Vec<u8>,
    source: Source<'a>,
    place: &mut Place<'a>,
    line: &[u8],
) -> Result<(), AllocError>
    requires heard { IsHeard source }
    requires place { IsAt source.text.now source.late.now place.old }
    ensures text { OnOk result (text.new.items ≡ text.old.items ++ told_line clock (stamps_left source.entry.text.now) (tells_left source.entry.text.now) line.now) }
    ensures place { IsAt source.entry.text.now source.entry.late.now place.new }
{
    if names_run(line) {
        let mark = place.mark_of(source, line);
        return push_marked(alloc, clock, text, mark, line);
    }
    push_plain(text, line)
}

/// Adds the object of a line with this beside it.
fn push_stamped(
    alloc: Global,
    clock: bool,
    text: &mut Vec<u8>,
    mark: Mark<'_>,
    line: &[u8],
) -> Result<(), AllocError>
    ensures { OnOk result (text.new.items ≡ text.old.items ++ marked_object clock mark.entry.stamp.now mark.entry.told line.now) }
{
    let whole = whole_line(alloc, mark.told, line)?;
    let stamp = shown_stamp(alloc, clock, mark.stamp)?;
    let times = members_after(alloc, line, mark.told)?;
    push_object(
        alloc,
        text,
        stamp.as_bytes(),
        times.as_bytes(),
        whole.as_slice(),
    )
}

/// Adds the object of a line that was printed of a text, where it is about a run with the stamp of that, and with the times of a late answer.
fn push_one<'a>(
    alloc: Global,
    clock: bool,
    text: &mut Vec<u8>,
    source: Source<'a>,
    place: &mut Place<'a>,
    line: &[u8],
) -> Result<(), AllocError>
    requires heard { IsHeard source }
    requires place { IsAt source.text.now source.late.now place.old }
    ensures text { OnOk result (text.new.items ≡ text.old.items ++ stamped_object clock (stamps_left source.entry.text.now) (tells_left source.entry.text.now) line.now) }
    ensures place { IsAt source.entry.text.now source.entry.late.now place.new }
{
    let mark = place.mark_of(source, line);
    push_stamped(alloc, clock, text, mark, line)
}

/// Adds a line that was printed of a text, in text or as an object of JSON.
fn push_retold<'a>(
    alloc: Global,
    json: bool,
    clock: bool,
    text: &mut Vec<u8>,
    source: Source<'a>,
    place: &mut Place<'a>,
    line: &[u8],
) -> Result<(), AllocError>
    requires heard { IsHeard source }
    requires place { IsAt source.text.now source.late.now place.old }
    ensures text { OnOk result (text.new.items ≡ text.old.items ++ retold_line json clock (stamps_left source.entry.text.now) (tells_left source.entry.text.now) line.now) }
    ensures place { IsAt source.entry.text.now source.entry.late.now place.new }
{
    if json {
        return push_one(alloc, clock, text, source, place, line);
    }
    push_told(alloc, clock, text, source, place, line)
}

/// What the monitor prints of a text, its lines about a run after the moment and the way of it; a hyphen where it has none. A late answer stands before its times.
/// As objects of JSON each has that in it.
fn retold_lines(
    alloc: Global,
    json: bool,
    clock: bool,
    source: Source<'_>,
    shown: &[u8],
) -> Result<Vec<u8>, AllocError>
    requires { IsHeard source }
    ensures { IfOk result (λ told. told.items ≡ flat_map (retold_line json clock (stamps_left source.entry.text.now) (tells_left source.entry.text.now)) (lines_of shown.now)) }
{
    let mut told = Vec::new(alloc);
    let mut place = Place::before(source);
    let mut lines = Lines::of(shown);
    'lines: while let Some(line) = lines.next() {
        push_retold(alloc, json, clock, &mut told, source, &mut place, line)?;
    }
    Ok(told)
}

/// The answer times of each device, in lines or as objects of JSON.
fn answer_times(alloc: Global, json: bool, timed: &Timed) -> Result<String, AllocError>
    ensures { IfOk result (λ told. string_bytes told ≡ retold_times json (heard_of timed.now).times) }
{
    let mut told = String::new(alloc);
    if json {
        timed.push_objects(&mut told)?;
    } else {
        timed.push_times(&mut told)?;
    }
    Ok(told)
}

/// What the monitor prints of a text that was heard, with the moments in it, and then the answer times of each device: lines, or objects of JSON.
fn retold(
    alloc: Global,
    json: bool,
    clock: bool,
    text: &[u8],
    capture: &Capture,
    shown: &[u8],
) -> Result<Vec<u8>, AllocError>
    requires { HasFollowed (left_of text.now) capture.now }
    ensures { IfOk result (λ told. told.items ≡ printed_of json clock (heard_part text.now) shown.now) }
{
    let late = capture.late.as_slice();
    let mut told = retold_lines(alloc, json, clock, Source { text, late }, shown)?;
    told.extend_from_slice(answer_times(alloc, json, &capture.timed)?.as_bytes())?;
    Ok(told)
}

/// What the monitor prints of a text that was heard without its echoes, and what is told of the echoes.
#[tactic(auto, unfolding(crate::specs::Echoes::printed_by))]
pub(crate) fn printed(
    alloc: Global,
    json: bool,
    clock: bool,
    text: &[u8],
    ears: &Ears,
    shown: &[u8],
) -> Result<Vec<u8>, AllocError>
    requires followed { HasFollowed (left_of text.now) ears.now.capture }
    requires echoes { ears.now.echoes ≡ echoes_in text.now }
    ensures { IfOk result (λ told. told.items ≡ printed_by json clock (echoes_in text.now) (heard_part text.now) shown.now) }
{
    let mut told = retold(alloc, json, clock, text, &ears.capture, shown)?;
    push_echoes(alloc, json, &mut told, ears.echoes)?;
    Ok(told)
}
