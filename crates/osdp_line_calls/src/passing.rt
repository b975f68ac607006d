//! The line that tells of a reply that is passed over.

ghost use Rattle.std.specs.Prelude.{◌≡◌, ◌+◌, ◌++◌, OnOk, Some, codes, string_bytes};
ghost use Rattle.std.specs.Fmt.{decimal};
ghost use Rattle.osdp_words.specs.Word.{bytes, printed};
ghost use Rattle.osdp_line_calls.specs.Passing.{acts_on, number_text, opening_acts_on, passed_line, passed_reading, passed_text};

use osdp_bus::EntryNumber;
use osdp_frame::FrameView;
use osdp_msg::{MsgFault, NakReason, Reply};
use osdp_words::ByteList;
use std::alloc::AllocError;

/// Whether an opening acts on a reply: PDID opens the session, BUSY has it wait, after NAK 1 the ID is sent again, and NAK 4 ends the session.
fn acts_on(reply: &Reply<'_>) -> bool
    ensures { result ≡ acts_on reply.now }
{
    match reply {
        Reply::PdId(_) | Reply::Busy => true,
        Reply::Nak(nak) => match nak.reason() {
            NakReason::CheckCharacters | NakReason::UnexpectedSequence => true,
            _ => false,
        },
        _ => false,
    }
}

/// Whether an opening acts on a reply with this number: an opening has number 0.
fn opening_acts_on(number: u8, reply: &Reply<'_>) -> bool
    ensures { result ≡ opening_acts_on number reply.now }
{
    number == 0 && acts_on(reply)
}

/// Writes the number of a reply, where it is none of an opening.
fn push_number(text: &mut String, number: u8) -> Result<(), AllocError>
    ensures { OnOk result (string_bytes text.new ≡ string_bytes text.old ++ number_text number) }
{
    if number == 0 {
        return Ok(());
    }
    write!(text, "seq {number} ")
}

/// Writes the name of a line of this entry, and the number of the reply that it tells of.
fn push_start(text: &mut String, entry: EntryNumber, number: u8) -> Result<(), AllocError>
    ensures { OnOk result (string_bytes text.new ≡ string_bytes text.old ++ (codes "passed over" ++ (codes " " ++ (decimal (entry + 1) ++ (codes " " ++ number_text number))))) }
{
    let counted = entry as u128 + 1;
    write!(text, "passed over {counted} ")?;
    push_number(text, number)
}

/// Writes what is told of a reply with this number, as it was read, where an opening passes it over.
fn push_reading(
    text: &mut String,
    entry: EntryNumber,
    number: u8,
    code: u8,
    reading: Result<Reply<'_>, MsgFault>,
) -> Result<(), AllocError>
    ensures { OnOk result (string_bytes text.new ≡ string_bytes text.old ++ passed_line entry number (passed_reading number code reading.entry)) }
{
    match reading {
        Ok(reply) => {
            if opening_acts_on(number, &reply) {
                return Ok(());
            }
            push_start(text, entry, number)?;
            writeln!(text, "{reply}")
        }
        Err(_) => {
            push_start(text, entry, number)?;
            let bytes = [code];
            writeln!(text, "code {}", ByteList(&bytes))
        }
    }
}

/// Writes what is told of a packet with a security block: its body.
fn push_block(
    text: &mut String,
    entry: EntryNumber,
    number: u8,
    body: &[u8],
) -> Result<(), AllocError>
    ensures { OnOk result (string_bytes text.new ≡ string_bytes text.old ++ passed_line entry number (Some (codes "block " ++ printed (bytes body.now)))) }
{
    push_start(text, entry, number)?;
    writeln!(text, "block {}", ByteList(body))
}

/// Writes what is told of a packet of a reader, where an opening passes it over.
pub(crate) fn push_passed(
    text: &mut String,
    entry: EntryNumber,
    frame: &FrameView<'_>,
) -> Result<(), AllocError>
    ensures { OnOk result (string_bytes text.new ≡ string_bytes text.old ++ passed_line entry frame.now.sequence (passed_text frame.now)) }
{
    let number = frame.seq().get();
    if frame.has_block() {
        return push_block(text, entry, number, frame.body());
    }
    let code = frame.code();
    push_reading(
        text,
        entry,
        number,
        code,
        Reply::read(code, frame.payload()),
    )
}
