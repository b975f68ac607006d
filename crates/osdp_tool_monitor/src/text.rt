//! What is printed of what a monitor finds.

ghost use Rattle.std.specs.Prelude.{◌≡◌, ◌++◌, OnOk, string_bytes, codes};
ghost use Rattle.std.specs.Fmt.{decimal};
ghost use Rattle.osdp_tool_monitor.specs.Text.{accusation_line, accusation_text, accused_text, address_line, basis_text, both_lines, expected_lines, found_text, is_left_out, notice_line, notice_text, told};

use osdp_frame::FrameView;
use osdp_monitor::{Accusation, Basis, Found, Notice};
use osdp_words::ByteList;
use std::alloc::AllocError;

/// Who is accused, before the address.
fn accused_text(reply: bool) -> &'static str
    ensures { result.now ≡ accused_text reply }
{
    if reply { " reader " } else { " panel to " }
}

/// What the sender of a packet is accused of.
fn accusation_text(accusation: Accusation) -> &'static str
    ensures { result.now ≡ accusation_text accusation }
{
    match accusation {
        Accusation::AnotherPacket => "another packet with the number of the last",
        Accusation::NotAnswered => "the next number, but the last one was not answered",
        Accusation::SentOutOfTurn => "a number out of turn",
        Accusation::SecondReply => "a second reply to one packet",
        Accusation::AnotherNumber => "another number",
        Accusation::AnotherCheck => "another check",
        Accusation::BusyToRepeat => "BUSY to a packet that was answered",
        Accusation::RefusedZero => "NAK 4 to number 0",
        Accusation::AnotherReply => "a repeat is answered by something else",
        Accusation::TakenOutOfTurn => "a number out of turn was taken",
        Accusation::UnreadReply => "a reply that can't be read",
        Accusation::UnfitReply => "a reply that doesn't fit the command",
        Accusation::EventAtZero => "an event at number 0",
    }
}

/// What asks for the rule that was broken.
fn basis_text(basis: Basis) -> &'static str
    ensures { result.now ≡ basis_text basis }
{
    match basis {
        Basis::Standard => " (standard)",
        Basis::Profile => " (profile)",
    }
}

/// Whether an accusation by the profile alone is left out.
fn is_left_out(standard: bool, accusation: Option<Accusation>) -> bool
    ensures { result ≡ is_left_out standard accusation }
{
    match accusation {
        None => false,
        Some(accusation) => standard && matches!(accusation.basis(), Basis::Profile),
    }
}

/// What is told of what was found: all, or no accusation by the profile alone.
pub(crate) fn told(standard: bool, found: Found) -> Found
    ensures { result ≡ told standard found }
{
    if is_left_out(standard, found.accusation) {
        Found {
            accusation: None,
            notice: found.notice,
            judged: found.judged,
        }
    } else {
        found
    }
}

/// Writes a line about a packet's address.
fn push_line(
    text: &mut String,
    run: u64,
    place: u64,
    party: &str,
    address: u8,
    what: &str,
) -> Result<(), AllocError>
    ensures { OnOk result (string_bytes text.new ≡ string_bytes text.old ++ address_line run place party.now address what.now) }
{
    write!(text, "{run}:{place}{party}{address}: {what}\n")
}

/// Writes the line of what is worth a look.
fn push_notice(
    text: &mut String,
    run: u64,
    place: u64,
    address: u8,
    notice: Option<Notice>,
) -> Result<(), AllocError>
    ensures { OnOk result (string_bytes text.new ≡ string_bytes text.old ++ notice_line run place address notice) }
{
    let told = match notice {
        None => return Ok(()),
        Some(Notice::Moved(moved)) => return push_moved(text, run, place, address, moved),
        Some(Notice::Opened) => "opened",
        Some(Notice::Restarted) => "restarted",
        Some(Notice::Unanswered) => "unanswered",
        Some(Notice::Late) => "a late answer: the reader takes longer than the panel waits",
        Some(Notice::Unsure) => "heard too little to judge",
    };
    push_line(text, run, place, " device ", address, told)
}

/// Writes the line of a move.
fn push_moved(
    text: &mut String,
    run: u64,
    place: u64,
    address: u8,
    moved: u8,
) -> Result<(), AllocError>
    ensures { OnOk result (string_bytes text.new ≡ string_bytes text.old ++ address_line run place (codes " device ") address (codes "moved to " ++ decimal moved)) }
{
    write!(text, "{run}:{place} device {address}: moved to {moved}\n")
}

/// Writes the line of an accusation.
fn push_accusation(
    text: &mut String,
    run: u64,
    place: u64,
    packet: &FrameView<'_>,
    accusation: Option<Accusation>,
) -> Result<(), AllocError>
    ensures { OnOk result (string_bytes text.new ≡ string_bytes text.old ++ accusation_line run place packet.now accusation) }
{
    let Some(accusation) = accusation else {
        return Ok(());
    };
    let party = accused_text(packet.is_reply());
    let address = packet.address().get();
    let what = accusation_text(accusation);
    let basis = basis_text(accusation.basis());
    write!(text, "{run}:{place}{party}{address}: {what}{basis}\n")
}

/// Writes the packet that had to come, and the one that came.
fn push_both(text: &mut String, expected: &[u8], seen: &[u8]) -> Result<(), AllocError>
    ensures { OnOk result (string_bytes text.new ≡ string_bytes text.old ++ both_lines expected.now seen.now) }
{
    let expected = ByteList(expected);
    let seen = ByteList(seen);
    write!(text, "     expected {expected}\n     seen     {seen}\n")
}

/// The same, where there is one that had to come.
#[tactic(auto, using(osdp_frame::proofs::Spelled::spelled_is))]
fn push_expected(
    text: &mut String,
    packet: &FrameView<'_>,
    expected: &[u8],
) -> Result<(), AllocError>
    ensures { OnOk result (string_bytes text.new ≡ string_bytes text.old ++ expected_lines expected.now packet.now) }
{
    match expected {
        [] => Ok(()),
        [_, ..] => push_both(text, expected, packet.encode().as_slice()),
    }
}

/// Writes what is found in a packet. In most nothing is.
#[inline(always)]
pub(crate) fn push_found(
    text: &mut String,
    run: u64,
    place: u64,
    packet: &FrameView<'_>,
    found: &Found,
    expected: &[u8],
) -> Result<(), AllocError>
    ensures { OnOk result (string_bytes text.new ≡ string_bytes text.old ++ found_text run place packet.now found.now expected.now) }
{
    match (found.notice, found.accusation, expected) {
        (None, None, []) => Ok(()),
        _ => push_lines(
            text,
            run,
            place,
            packet,
            found.notice,
            found.accusation,
            expected,
        ),
    }
}

/// Writes the lines of what is found in a packet.
#[inline(never)]
fn push_lines(
    text: &mut String,
    run: u64,
    place: u64,
    packet: &FrameView<'_>,
    notice: Option<Notice>,
    accusation: Option<Accusation>,
    expected: &[u8],
) -> Result<(), AllocError>
    ensures { OnOk result (string_bytes text.new ≡ string_bytes text.old
        ++ (notice_line run place packet.now.address notice ++ (accusation_line run place packet.now accusation ++ expected_lines expected.now packet.now))) }
{
    push_notice(text, run, place, packet.address().get(), notice)?;
    push_accusation(text, run, place, packet, accusation)?;
    push_expected(text, packet, expected)
}
