//! What an answer to a packet shows of each rule.

ghost use Rattle.std.specs.Prelude.{◌≡◌};
ghost use Rattle.osdp_rules.specs.Findings.{address_finding, again_finding, block_finding, busy_finding, code_finding, deaf_finding, fit_finding, fit_read, is_answer, is_fitting, kept_if, length_finding, must_have, new_finding, number_finding, prompt_finding, quiet_finding, read_finding, refusal_finding, repeat_finding, served_finding, silent_finding, single_finding, taken_finding, turned_away, wrong_finding};

use crate::aspect::Aspect;
use crate::finding::Finding;
use crate::known::Known;
use crate::packets::{asked, has_reason, is_busy, is_nak, same_check, same_packet, told};
use osdp_frame::FrameView;
use osdp_msg::{Command, MsgFault, Reply};

/// Kept, or broken.
pub(crate) fn kept_if(is_kept: bool) -> Finding
    ensures { result ≡ kept_if is_kept }
{
    if is_kept {
        Finding::Kept
    } else {
        Finding::Broken
    }
}

/// A refusal with this reason is asked; one with another, and BUSY, are left open.
fn refusal_finding(reason: u8, answer: &FrameView<'_>) -> Finding
    ensures { result ≡ refusal_finding reason answer.now }
{
    if has_reason(reason, answer) {
        Finding::Kept
    } else if is_nak(answer) || is_busy(answer) {
        Finding::Either
    } else {
        Finding::Broken
    }
}

/// Whether the code of a reply fits a command.
fn is_fitting(command: &Command<'_>, code: u8) -> bool
    ensures { result ≡ is_fitting command.now code }
{
    match command {
        Command::Poll => {
            code == 0x40
                || (0x48 <= code && code <= 0x4B)
                || code == 0x50
                || code == 0x51
                || code == 0x53
        }
        Command::Id(_) => code == 0x45,
        Command::Cap(_) => code == 0x46,
        Command::LocalStatus => code == 0x48,
        Command::InputStatus => code == 0x49,
        Command::OutputStatus => code == 0x4A,
        Command::ReaderStatus => code == 0x4B,
        Command::Output(_) => code == 0x40 || code == 0x4A,
        Command::Led(_) | Command::Buzzer(_) | Command::Text(_) => code == 0x40,
        Command::Comset(_) => code == 0x54,
        Command::Maker(_) => code == 0x40 || code == 0x90,
    }
}

/// Whether the code answers some command, or tells an event.
fn is_answer(code: u8) -> bool
    ensures { result ≡ is_answer code }
{
    code == 0x40
        || (code == 0x45
            || (code == 0x46
                || (code == 0x48
                    || (code == 0x49
                        || (code == 0x4A
                            || (code == 0x4B
                                || (code == 0x50
                                    || (code == 0x51 || (code == 0x53 || code == 0x54)))))))))
}

/// The answer of a command fits it; the answer of another command doesn't.
fn fit_finding(command: &Command<'_>, code: u8) -> Finding
    ensures { result ≡ fit_finding command.now code }
{
    if is_fitting(command, code) {
        Finding::Kept
    } else if is_answer(code) {
        Finding::Broken
    } else {
        Finding::Either
    }
}

/// The same where the command can be read.
fn fit_read(asked: &Result<Command<'_>, MsgFault>, code: u8) -> Finding
    ensures { result ≡ fit_read asked.now code }
{
    match asked {
        Ok(command) => fit_finding(command, code),
        Err(_) => Finding::Nothing,
    }
}

/// Whether each device has the command: POLL, ID and CAP.
fn must_have(asked: &Result<Command<'_>, MsgFault>) -> bool
    ensures { result ≡ must_have asked.now }
{
    matches!(asked, Ok(Command::Poll | Command::Id(_) | Command::Cap(_)))
}

/// POLL, ID and CAP are not refused.
fn served_finding(asked: &Result<Command<'_>, MsgFault>, answer: &FrameView<'_>) -> Finding
    ensures { result ≡ served_finding asked.now answer.now }
{
    if must_have(asked) {
        kept_if(!is_nak(answer))
    } else {
        Finding::Nothing
    }
}

/// A code below 60 is refused by NAK 3.
fn code_finding(asked: &Result<Command<'_>, MsgFault>, code: u8, answer: &FrameView<'_>) -> Finding
    ensures { result ≡ code_finding asked.now code answer.now }
{
    match asked {
        Err(MsgFault::UnknownCode) => {
            if code < 0x60 {
                refusal_finding(3, answer)
            } else {
                Finding::Nothing
            }
        }
        _ => Finding::Nothing,
    }
}

/// A wrong length or count is refused by NAK 2.
fn length_finding(asked: &Result<Command<'_>, MsgFault>, answer: &FrameView<'_>) -> Finding
    ensures { result ≡ length_finding asked.now answer.now }
{
    match asked {
        Err(MsgFault::Length | MsgFault::Count) => refusal_finding(2, answer),
        _ => Finding::Nothing,
    }
}

/// A reply of the table has a length and counts that it allows.
fn read_finding(told: &Result<Reply<'_>, MsgFault>) -> Finding
    ensures { result ≡ read_finding told.now }
{
    match told {
        Ok(_) => Finding::Kept,
        Err(MsgFault::UnknownCode) => Finding::Either,
        Err(_) => Finding::Broken,
    }
}

/// BUSY has number 0; with the number of its packet it is understood too.
fn busy_finding(packet: &FrameView<'_>, answer: &FrameView<'_>) -> Finding
    ensures { result ≡ busy_finding packet.now answer.now }
{
    if !is_busy(answer) {
        Finding::Nothing
    } else if answer.seq().get() == 0 {
        Finding::Kept
    } else if answer.seq().get() == packet.seq().get() {
        Finding::Either
    } else {
        Finding::Broken
    }
}

/// An answer has the address of its packet; from 127 a device may answer with its own.
fn address_finding(packet: &FrameView<'_>, answer: &FrameView<'_>) -> Finding
    ensures { result ≡ address_finding packet.now answer.now }
{
    if packet.address().get() == 127 {
        Finding::Either
    } else {
        kept_if(answer.address().get() == packet.address().get())
    }
}

/// An answer but BUSY has the number of its packet.
fn number_finding(packet: &FrameView<'_>, answer: &FrameView<'_>) -> Finding
    ensures { result ≡ number_finding packet.now answer.now }
{
    if is_busy(answer) {
        Finding::Nothing
    } else {
        kept_if(answer.seq().get() == packet.seq().get())
    }
}

/// What the answer to a packet with a new number shows, which the device took.
fn taken_finding(aspect: Aspect, packet: &FrameView<'_>, answer: &FrameView<'_>) -> Finding
    ensures { result ≡ taken_finding aspect packet.now answer.now }
{
    match aspect {
        Aspect::Address => address_finding(packet, answer),
        Aspect::Check => kept_if(same_check(answer.check(), packet.check())),
        Aspect::Number => number_finding(packet, answer),
        Aspect::Plain => kept_if(!answer.has_block()),
        Aspect::Turn => Finding::Kept,
        Aspect::Fit => fit_read(&asked(packet), answer.code()),
        Aspect::Served => served_finding(&asked(packet), answer),
        Aspect::Code => code_finding(&asked(packet), packet.code(), answer),
        Aspect::Length => length_finding(&asked(packet), answer),
        Aspect::Read => read_finding(&told(answer)),
        Aspect::Busy => busy_finding(packet, answer),
        Aspect::Repeat
        | Aspect::Wrong
        | Aspect::Block
        | Aspect::Quiet
        | Aspect::Deaf
        | Aspect::Single
        | Aspect::Prompt
        | Aspect::Listed
        | Aspect::Beyond => Finding::Nothing,
    }
}

/// What NAK 4 to a packet with a new number shows.
fn turned_away(aspect: Aspect) -> Finding
    ensures { result ≡ turned_away aspect }
{
    match aspect {
        Aspect::Turn => Finding::Broken,
        _ => Finding::Nothing,
    }
}

/// What the answer to a packet with a new number shows.
pub(crate) fn new_finding(aspect: Aspect, packet: &FrameView<'_>, answer: &FrameView<'_>) -> Finding
    ensures { result ≡ new_finding aspect packet.now answer.now }
{
    if has_reason(4, answer) {
        turned_away(aspect)
    } else {
        taken_finding(aspect, packet, answer)
    }
}

/// A number out of turn is refused by NAK 4.
pub(crate) fn wrong_finding(aspect: Aspect, answer: &FrameView<'_>) -> Finding
    ensures { result ≡ wrong_finding aspect answer.now }
{
    match aspect {
        Aspect::Wrong => refusal_finding(4, answer),
        _ => Finding::Nothing,
    }
}

/// A packet that comes once more has the answer that it had.
fn again_finding(first: &FrameView<'_>, answer: &FrameView<'_>) -> Finding
    ensures { result ≡ again_finding first.now answer.now }
{
    if same_packet(first, answer) {
        Finding::Kept
    } else if is_busy(answer) {
        Finding::Either
    } else {
        Finding::Broken
    }
}

/// What the answer to a packet shows that has the last number.
pub(crate) fn repeat_finding(
    aspect: Aspect,
    known: &Known,
    packet: &FrameView<'_>,
    answer: &FrameView<'_>,
) -> Finding
    ensures { result ≡ repeat_finding aspect known.now packet.now answer.now }
{
    match (aspect, known) {
        (Aspect::Repeat, Known::Took(sent, first)) => {
            if same_packet(&sent.view(), packet) {
                again_finding(&first.view(), answer)
            } else {
                Finding::Nothing
            }
        }
        _ => Finding::Nothing,
    }
}

/// What the answer to a packet with a security block shows.
pub(crate) fn block_finding(aspect: Aspect, answer: &FrameView<'_>) -> Finding
    ensures { result ≡ block_finding aspect answer.now }
{
    match aspect {
        Aspect::Block => {
            if has_reason(5, answer) {
                Finding::Kept
            } else {
                Finding::Either
            }
        }
        _ => Finding::Nothing,
    }
}

/// What is not to the device it doesn't answer.
pub(crate) fn quiet_finding(aspect: Aspect, is_answered: bool) -> Finding
    ensures { result ≡ quiet_finding aspect is_answered }
{
    match aspect {
        Aspect::Quiet => kept_if(!is_answered),
        _ => Finding::Nothing,
    }
}

/// What the answer to bytes shows that hold no packet.
pub(crate) fn deaf_finding(aspect: Aspect, answer: &FrameView<'_>) -> Finding
    ensures { result ≡ deaf_finding aspect answer.now }
{
    match aspect {
        Aspect::Deaf => {
            if is_nak(answer) {
                Finding::Either
            } else {
                Finding::Broken
            }
        }
        _ => Finding::Nothing,
    }
}

/// What silence after such bytes shows.
pub(crate) fn silent_finding(aspect: Aspect) -> Finding
    ensures { result ≡ silent_finding aspect }
{
    match aspect {
        Aspect::Deaf => Finding::Kept,
        _ => Finding::Nothing,
    }
}

/// An answer begins within 200 ms.
pub fn prompt_finding(delay: u64) -> Finding
    ensures { result ≡ prompt_finding delay }
{
    if delay > 200 {
        Finding::Broken
    } else {
        Finding::Kept
    }
}

/// One packet has one answer.
pub(crate) fn single_finding(count: usize) -> Finding
    ensures { result ≡ single_finding count }
{
    if count == 0 {
        Finding::Nothing
    } else {
        kept_if(count == 1)
    }
}
