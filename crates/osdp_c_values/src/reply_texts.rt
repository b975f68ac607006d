//! Texts of replies.

ghost use Rattle.std.specs.Prelude.{◌∷◌, codes};
ghost use Rattle.osdp_words.specs.Word.{plain, text_of};
ghost use Rattle.osdp_msg.specs.ReplyFields.{formatted_words, keypad_words, local_state_words, nak_words, pd_id_words, raw_words};
ghost use Rattle.osdp_msg.specs.ReplyText.{reply_text};
ghost use Rattle.osdp_c_values.specs.Pieces.{IsPut};

use crate::command_texts::{put_communication, put_maker};
use crate::pieces::{
    MAX_TEXT, NoRoom, numbers_of, put, put_list, put_listed, put_numbers, put_plain,
};
use crate::records::put_records;
use osdp_msg::{Formatted, Keypad, LocalState, Nak, PdId, Raw, Reply};

/// Puts the text of a NAK.
fn put_nak(out: &mut [u8], at: usize, nak: &Nak<'_>) -> Result<usize, NoRoom>
    ensures { IsPut MAX_TEXT at out.old result out.new (text_of (plain (codes "NAK") ∷ nak_words nak.now)) }
{
    let reason = [u32::from(nak.reason().number())];
    if nak.detail().is_empty() {
        return put_plain(out, at, "NAK", &reason);
    }
    put_listed(out, at, "NAK", &reason, nak.detail())
}

/// Puts the text of a PDID.
fn put_pd_id(out: &mut [u8], at: usize, pd_id: &PdId) -> Result<usize, NoRoom>
    ensures { IsPut MAX_TEXT at out.old result out.new (text_of (plain (codes "PDID") ∷ pd_id_words pd_id.now)) }
{
    let numbers =
        numbers_of!(pd_id: model version serial firmware_major firmware_minor firmware_build);
    let vendor = put(out, at, "PDID")?;
    let others = put_list(out, vendor, &pd_id.vendor)?;
    put_numbers(out, others, " ", &numbers)
}

/// Puts the text of an LSTATR.
fn put_local_state(out: &mut [u8], at: usize, state: &LocalState) -> Result<usize, NoRoom>
    ensures { IsPut MAX_TEXT at out.old result out.new (text_of (plain (codes "LSTATR") ∷ local_state_words state.now)) }
{
    put_plain(out, at, "LSTATR", &numbers_of!(state: tamper power))
}

/// Puts the text of a RAW.
fn put_raw(out: &mut [u8], at: usize, raw: &Raw<'_>) -> Result<usize, NoRoom>
    ensures { IsPut MAX_TEXT at out.old result out.new (text_of (plain (codes "RAW") ∷ raw_words raw.now)) }
{
    let numbers = [
        u32::from(raw.reader()),
        u32::from(raw.format()),
        u32::from(raw.bits()),
    ];
    put_listed(out, at, "RAW", &numbers, raw.bytes())
}

/// Puts the text of an FMT.
fn put_formatted(out: &mut [u8], at: usize, card: &Formatted<'_>) -> Result<usize, NoRoom>
    ensures { IsPut MAX_TEXT at out.old result out.new (text_of (plain (codes "FMT") ∷ formatted_words card.now)) }
{
    let numbers = [u32::from(card.reader()), u32::from(card.direction())];
    put_listed(out, at, "FMT", &numbers, card.digits())
}

/// Puts the text of a KEYPAD.
fn put_keypad(out: &mut [u8], at: usize, keypad: &Keypad<'_>) -> Result<usize, NoRoom>
    ensures { IsPut MAX_TEXT at out.old result out.new (text_of (plain (codes "KEYPAD") ∷ keypad_words keypad.now)) }
{
    put_listed(
        out,
        at,
        "KEYPAD",
        &[u32::from(keypad.reader())],
        keypad.digits(),
    )
}

/// Puts the text of a reply.
#[tactic(auto, unfolding(osdp_msg::specs::ReplyText::reply_text))]
pub(crate) fn put_reply(out: &mut [u8], at: usize, reply: &Reply<'_>) -> Result<usize, NoRoom>
    ensures { IsPut MAX_TEXT at out.old result out.new (reply_text reply.now) }
{
    match reply {
        Reply::Ack => put(out, at, "ACK"),
        Reply::Nak(nak) => put_nak(out, at, nak),
        Reply::PdId(pd_id) => put_pd_id(out, at, pd_id),
        Reply::PdCap(caps) => put_records(out, at, "PDCAP", caps.capabilities()),
        Reply::LocalState(state) => put_local_state(out, at, state),
        Reply::Inputs(states) => put_listed(out, at, "ISTATR", &[], states.bytes()),
        Reply::Outputs(states) => put_listed(out, at, "OSTATR", &[], states.bytes()),
        Reply::Readers(states) => put_listed(out, at, "RSTATR", &[], states.bytes()),
        Reply::Raw(raw) => put_raw(out, at, raw),
        Reply::Formatted(card) => put_formatted(out, at, card),
        Reply::Keypad(keypad) => put_keypad(out, at, keypad),
        Reply::Com(communication) => put_communication(out, at, "COM", communication),
        Reply::Busy => put(out, at, "BUSY"),
        Reply::MakerReply(message) => put_maker(out, at, "MFGREP", message),
    }
}
