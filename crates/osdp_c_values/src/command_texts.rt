//! Texts of commands.

ghost use Rattle.std.specs.Prelude.{◌∷◌, codes};
ghost use Rattle.osdp_words.specs.Word.{plain, text_of};
ghost use Rattle.osdp_msg.specs.CommandFields.{buzzer_words, communication_words, maker_words, text_words};
ghost use Rattle.osdp_msg.specs.CommandText.{command_text};
ghost use Rattle.osdp_c_values.specs.Pieces.{IsPut};

use crate::pieces::{MAX_TEXT, NoRoom, numbers_of, put, put_list, put_listed, put_plain};
use crate::records::put_records;
use osdp_msg::{Buzzer, Command, Communication, MakerMessage, Text};

/// Puts the text of a BUZ.
fn put_buzzer(out: &mut [u8], at: usize, buzzer: &Buzzer) -> Result<usize, NoRoom>
    ensures { IsPut MAX_TEXT at out.old result out.new (text_of (plain (codes "BUZ") ∷ buzzer_words buzzer.now)) }
{
    let numbers = numbers_of!(buzzer: reader tone on_time off_time count);
    put_plain(out, at, "BUZ", &numbers)
}

/// Puts the text of a TEXT.
fn put_text(out: &mut [u8], at: usize, text: &Text<'_>) -> Result<usize, NoRoom>
    ensures { IsPut MAX_TEXT at out.old result out.new (text_of (plain (codes "TEXT") ∷ text_words text.now)) }
{
    let numbers = [
        u32::from(text.reader()),
        u32::from(text.command()),
        u32::from(text.time()),
        u32::from(text.row()),
        u32::from(text.column()),
    ];
    put_listed(out, at, "TEXT", &numbers, text.characters())
}

/// Puts a name, an address and a baud rate.
pub(crate) fn put_communication(
    out: &mut [u8],
    at: usize,
    name: &str,
    communication: &Communication,
) -> Result<usize, NoRoom>
    ensures { IsPut MAX_TEXT at out.old result out.new (text_of (plain name.now ∷ communication_words communication.now)) }
{
    put_plain(
        out,
        at,
        name,
        &numbers_of!(communication: address baud_rate),
    )
}

/// Puts a name and a maker's message.
pub(crate) fn put_maker(
    out: &mut [u8],
    at: usize,
    name: &str,
    message: &MakerMessage<'_>,
) -> Result<usize, NoRoom>
    ensures { IsPut MAX_TEXT at out.old result out.new (text_of (plain name.now ∷ maker_words message.now)) }
{
    let vendor = put(out, at, name)?;
    let bytes = put_list(out, vendor, &message.vendor())?;
    put_list(out, bytes, message.bytes())
}

/// Puts the text of a command.
#[tactic(auto, unfolding(osdp_msg::specs::CommandText::command_text))]
pub(crate) fn put_command(out: &mut [u8], at: usize, command: &Command<'_>) -> Result<usize, NoRoom>
    ensures { IsPut MAX_TEXT at out.old result out.new (command_text command.now) }
{
    match command {
        Command::Poll => put(out, at, "POLL"),
        Command::Id(kept) => put_plain(out, at, "ID", &[u32::from(*kept)]),
        Command::Cap(kept) => put_plain(out, at, "CAP", &[u32::from(*kept)]),
        Command::LocalStatus => put(out, at, "LSTAT"),
        Command::InputStatus => put(out, at, "ISTAT"),
        Command::OutputStatus => put(out, at, "OSTAT"),
        Command::ReaderStatus => put(out, at, "RSTAT"),
        Command::Output(outputs) => put_records(out, at, "OUT", outputs.records()),
        Command::Led(leds) => put_records(out, at, "LED", leds.records()),
        Command::Buzzer(buzzer) => put_buzzer(out, at, buzzer),
        Command::Text(text) => put_text(out, at, text),
        Command::Comset(communication) => put_communication(out, at, "COMSET", communication),
        Command::Maker(message) => put_maker(out, at, "MFG", message),
    }
}
