//! The packet that stands first on a device's line: whether it is pending, or answered and yet to be taken off.

ghost use Rattle.std.specs.Prelude.{◌≡◌, true, false, None, Some, is_some};
ghost use Rattle.std.specs.Result.{result_ok};
ghost use Rattle.osdp_frame.specs.Held.{after_advance, decided};
ghost use Rattle.osdp_frame.specs.Reading.{PacketItem};
ghost use Rattle.osdp_frame.specs.Receiving.{IsReceived};
ghost use Rattle.osdp_frame.specs.Shown.{item_of};
ghost use Rattle.osdp_reader.specs.Table.{command_in};
ghost use Rattle.osdp_reader.specs.declared.config.ReaderConfig.{ReaderConfig as Configured};
ghost use Rattle.osdp_device.specs.Ages.{after_saying};
ghost use Rattle.osdp_device.specs.Deciding.{acted_on, handled, passed, pending_at, pending_of};
ghost use Rattle.osdp_device.specs.Device.{command_at, first_command, line_after};
ghost use Rattle.osdp_device.specs.Lent.{pending_if, said_if};
ghost use Rattle.osdp_device.specs.Saying.{after_item, answers_first, is_answered, said_of};
ghost use Rattle.osdp_device.specs.Telling.{next_told};
ghost use Rattle.osdp_device.specs.declared.first.First.TheVariants.{Unread};

use crate::ages::Ages;
use osdp_frame::{Burst, FrameView, Item, Receiver};
use osdp_msg::{Command, MsgFault};
use osdp_reader::{Handler, Kind, Reader};

/// What became of the packet that stands first.
#[derive(Clone, Copy, Debug, PartialEq, Eq)]
pub(crate) enum First {
    /// Nothing yet.
    Unread,
    /// A call stopped before its command.
    Pending,
    /// It was answered, by this line of the table. Its bytes lie on the line until the next call, which takes them off.
    Answered(Kind),
}

/// Takes an answered packet off.
pub(crate) fn take_off(first: &mut First, line: &mut Receiver)
    ensures first { first.new ≡ Unread }
    ensures line { line.new ≡ line_after first.old line.old }
{
    match first {
        First::Answered(_) => line.advance(),
        First::Unread | First::Pending => {}
    }
    *first = First::Unread;
}

/// The command that a packet is, or why it is none.
fn read_command<'p>(packet: &FrameView<'p>) -> Result<Command<'p>, MsgFault>
    ensures { result ≡ command_in packet.now }
{
    Command::read(packet.code(), packet.payload())
}

/// The command of the packet that stands first.
fn command_at(line: &Receiver) -> Option<Command<'_>>
    ensures { result ≡ command_at (decided line.now.held.ended line.now.held.bytes) }
{
    match line.next()? {
        Item::Packet(packet) => read_command(&packet).ok(),
        Item::Skipped(_) | Item::Refused(_) => None,
    }
}

/// The command before which a call stopped, or that the packet had acted on which it answered.
pub(crate) fn first_command(first: First, line: &Receiver) -> Option<Command<'_>>
    ensures { result ≡ first_command first (decided line.now.held.ended line.now.held.bytes) }
{
    match first {
        First::Pending | First::Answered(Kind::Zero | Kind::Taken) => command_at(line),
        First::Unread
        | First::Answered(Kind::Silent | Kind::Secured | Kind::Repeat | Kind::Busy | Kind::Wrong) =>
            None,
    }
}

/// Whether a reader answers an item.
fn is_answered<H: Handler>(reader: &Reader<H>, item: &Item<'_>) -> bool
    ensures { result ≡ is_answered reader.now (item_of item.now) }
{
    match item {
        Item::Packet(packet) => reader.kind(packet) != Kind::Silent,
        Item::Skipped(_) | Item::Refused(_) => false,
    }
}

/// Takes off what the reader doesn't answer, and tells whether a packet that it answers stands first then.
#[tactic(auto, using(crate::proofs::Taking::taking))]
pub(crate) fn pass_over<H: Handler>(reader: &Reader<H>, line: &mut Receiver) -> bool
    ensures told { next_told H.answer_of H.after reader.now line.new.held ≡ next_told H.answer_of H.after reader.now line.old.held }
    ensures line { line.new ≡ record line.old { held = line.new.held } }
    ensures pending { pending_of reader.now line.new.held ≡ pending_of reader.now line.old.held }
    ensures passed { line.new.held ≡ passed reader.now line.old.held }
    ensures first { result ≡ answers_first reader.now (decided line.new.held.ended line.new.held.bytes) }
    ensures none { result ≡ false → decided line.new.held.ended line.new.held.bytes ≡ None }
    ensures silent { result ≡ false → next_told H.answer_of H.after reader.now line.old.held ≡ record { said = None; reader = reader.now; held = line.new.held } }
    ensures nothing { result ≡ false → None ≡ pending_of reader.now line.old.held }
{
    'items: while let Some(item) = line.next() {
        if is_answered(reader, &item) {
            return true;
        }
        line.advance();
    }
    false
}

/// Whether a packet has a command that the reader doesn't answer by itself.
fn is_handled(packet: &FrameView) -> bool
    ensures some { (config : Configured) → result ≡ is_some (handled config (command_in packet.now)) }
    ensures command { (config : Configured) → pending_if result (result_ok (command_in packet.now)) ≡ handled config (command_in packet.now) }
{
    match read_command(packet) {
        Ok(Command::Poll | Command::Id(_) | Command::Cap(_) | Command::Comset(_)) | Err(_) => false,
        Ok(_) => true,
    }
}

/// Whether the reader's handler is to answer the command of a packet.
fn is_pending<H: Handler>(reader: &Reader<H>, packet: &FrameView) -> bool
    ensures some { result ≡ is_some (pending_at reader.now (PacketItem packet.now)) }
    ensures command { pending_if result (result_ok (command_in packet.now)) ≡ pending_at reader.now (PacketItem packet.now) }
{
    match reader.kind(packet) {
        Kind::Zero | Kind::Taken => is_handled(packet),
        Kind::Silent | Kind::Secured | Kind::Repeat | Kind::Busy | Kind::Wrong => false,
    }
}

/// Whether the handler is to answer the command of the packet that stands first, which the reader answers.
pub(crate) fn is_first_pending<H: Handler>(reader: &Reader<H>, line: &Receiver) -> bool
    requires { answers_first reader.now (decided line.now.held.ended line.now.held.bytes) ≡ true }
    ensures some { result ≡ is_some (pending_of reader.now line.now.held) }
    ensures command { pending_if result (command_at (decided line.now.held.ended line.now.held.bytes)) ≡ pending_of reader.now line.now.held }
{
    let Some(Item::Packet(packet)) = line.next() else {
        unreachable!();
    };
    is_pending(reader, &packet)
}

/// What a reader says to a packet that it answers.
#[tactic(auto, using(crate::proofs::Sayings::said_here))]
fn hear<H: Handler>(reader: &mut Reader<H>, packet: &FrameView, out: &mut Burst) -> Kind
    requires { is_answered reader.old (PacketItem packet.now) ≡ true }
    ensures said { said_if (Some result) (acted_on result (result_ok (command_in packet.now))) out.new.items ≡ said_of H.answer_of H.after (PacketItem packet.now) reader.old }
    ensures reader { reader.new ≡ after_item H.answer_of H.after (PacketItem packet.now) reader.old }
{
    reader.hear(packet, out).kind
}

/// Hands the packet that stands first to the reader, which answers it.
#[tactic(auto, using(crate::proofs::Taking::taking))]
pub(crate) fn answer_first<H: Handler>(
    reader: &mut Reader<H>,
    line: &Receiver,
    ages: &mut Ages,
    out: &mut Burst,
) -> Kind
    requires { answers_first reader.old (decided line.now.held.ended line.now.held.bytes) ≡ true }
    ensures said { said_if (Some result) (acted_on result (command_at (decided line.now.held.ended line.now.held.bytes))) out.new.items
        ≡ (next_told H.answer_of H.after reader.old line.now.held).said }
    ensures reader { reader.new ≡ (next_told H.answer_of H.after reader.old line.now.held).reader }
    ensures held { after_advance line.now.held ≡ (next_told H.answer_of H.after reader.old line.now.held).held }
    ensures ages { ages.new ≡ after_saying true line.now.greatest ages.old }
{
    let Some(Item::Packet(packet)) = line.next() else {
        unreachable!();
    };
    ages.hear(line.greatest());
    hear(reader, &packet, out)
}
