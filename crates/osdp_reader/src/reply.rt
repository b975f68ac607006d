//! The reply to a command that is acted on, and the bytes of a reply.

ghost use Rattle.std.specs.Prelude.{◌≡◌, ◌<◌, ◌≤◌, ◌∷◌, true, false, length};
ghost use Rattle.osdp_frame.specs.Bytes.{AreBytes};
ghost use Rattle.osdp_frame.specs.Packed.{packed};
ghost use Rattle.osdp_frame.specs.Spelling.{Spells};
ghost use Rattle.std.specs.Option.{option_map};
ghost use Rattle.osdp_msg.specs.declared.reply.Reply.TheVariants as told;
ghost use Rattle.osdp_msg.specs.Events.{event_reply};
ghost use Rattle.osdp_msg.specs.ReplyTable.{ReplyFits, reply_code, reply_data};
ghost use Rattle.osdp_reader.specs.Replies.{comset_reply, done_reply, list_reply, local_reply, maker_reply, not_processed, refusal_reply, refused, reply_for, reply_packet, unread_reason};
ghost use Rattle.osdp_reader.specs.Table.{answer_to, event_or_answer};

use crate::config::KeptConfig;
use crate::handler::{Answer, Handler};
use osdp_frame::{Address, Burst, FrameView, Header, Seq};
use osdp_msg::{
    Command, Communication, Event, LocalState, MAX_MESSAGE, MakerMessage, MsgFault, Nak, NakReason,
    Reply, Spelling, States,
};

/// The reason of a packet that is no command.
pub fn unread(fault: MsgFault) -> NakReason
    ensures { result ≡ unread_reason fault }
{
    match fault {
        MsgFault::UnknownCode => NakReason::UnknownCommand,
        MsgFault::Length | MsgFault::Count => NakReason::CommandLength,
    }
}

/// A NAK with this reason and no detail.
fn refused<'a>(reason: NakReason) -> Reply<'a>
    ensures { result ≡ refused reason }
{
    Reply::Nak(Nak::new(reason, &[]).unwrap())
}

/// The reply where an answer doesn't belong to its command.
fn not_processed<'a>() -> Reply<'a>
    ensures { result ≡ not_processed }
{
    refused(NakReason::RecordNotProcessed)
}

/// What the handler has done: ACK to a command that a device does.
fn done_reply<'a>(command: &Command<'_>) -> Reply<'a>
    ensures { result ≡ done_reply command.now }
{
    match command {
        Command::Output(_)
        | Command::Led(_)
        | Command::Buzzer(_)
        | Command::Text(_)
        | Command::Maker(_) => Reply::Ack,
        _ => not_processed(),
    }
}

/// The state of the device itself, tamper and power.
fn local_reply<'a>(command: &Command<'_>, tamper: u8, power: u8) -> Reply<'a>
    ensures { result ≡ local_reply command.now tamper power }
{
    match command {
        Command::LocalStatus => Reply::LocalState(LocalState { tamper, power }),
        _ => not_processed(),
    }
}

/// The reason that is told where the handler refuses the command.
fn told_reason(reason: NakReason) -> NakReason
    ensures { refused result ≡ refusal_reply reason }
{
    match reason {
        NakReason::CommandLength => NakReason::CommandLength,
        NakReason::UnknownCommand => NakReason::UnknownCommand,
        NakReason::CheckCharacters
        | NakReason::UnexpectedSequence
        | NakReason::SecurityBlock
        | NakReason::SecurityConditions
        | NakReason::BiometricType
        | NakReason::BiometricFormat
        | NakReason::RecordNotProcessed
        | NakReason::Other(_) => NakReason::RecordNotProcessed,
    }
}

/// A byte for each input, output or reader.
fn list_reply<'a>(command: &Command<'_>, states: &States<'a>) -> Reply<'a>
    ensures { result ≡ list_reply command.now states.now.items }
{
    match command {
        Command::InputStatus => Reply::Inputs(states.copy()),
        Command::OutputStatus => Reply::Outputs(states.copy()),
        Command::ReaderStatus => Reply::Readers(states.copy()),
        _ => not_processed(),
    }
}

/// The maker's own reply.
fn maker_reply<'a>(command: &Command<'_>, own: &MakerMessage<'a>) -> Reply<'a>
    ensures { result ≡ maker_reply command.now own.now }
{
    match command {
        Command::Maker(_) => Reply::MakerReply(own.copy()),
        _ => not_processed(),
    }
}

/// A handler's answer to a command.
fn reply_for<'a>(answer: &Answer<'a>, command: &Command<'_>) -> Reply<'a>
    ensures { result ≡ reply_for answer.now command.now }
{
    match answer {
        Answer::Done => done_reply(command),
        Answer::Local(tamper, power) => local_reply(command, *tamper, *power),
        Answer::List(states) => list_reply(command, states),
        Answer::Refuse(reason) => refused(told_reason(*reason)),
        Answer::Maker(own) => maker_reply(command, own),
    }
}

/// Puts what a handler answers to a command there. What the answer has of bytes stands in `place`.
fn write_handled<H: Handler>(
    handler: &mut H,
    command: &Command<'_>,
    place: &mut Burst,
    body: &mut Spelling,
)
    ensures spelled { let reply = reply_for (H.answer_of handler.old command.now) command.now in
        body.new.items ≡ reply_code reply ∷ reply_data reply }
    ensures handler { handler.new ≡ H.after handler.old command.now }
    ensures fits { ReplyFits (reply_for (H.answer_of handler.old command.now) command.now) }
{
    let answer = handler.answer(command, place);
    reply_for(&answer, command).write_into(body);
}

/// The bytes of what a handler answers to a command.
fn spell_handled<H: Handler>(
    packet: &FrameView,
    seq: Seq,
    handler: &mut H,
    command: &Command<'_>,
    out: &mut Burst,
)
    ensures spelled { Spells (reply_packet packet.now seq (reply_for (H.answer_of handler.old command.now) command.now)) out.new.items }
    ensures handler { handler.new ≡ H.after handler.old command.now }
    ensures fits { ReplyFits (reply_for (H.answer_of handler.old command.now) command.now) }
{
    let mut body = Spelling::new();
    write_handled(handler, command, out, &mut body);
    spell_body(packet, seq, body.as_slice(), out);
}

/// What a slice of bytes holds is bytes.
fn are_bytes(bytes: &[u8])
    ensures { AreBytes bytes.now }
{
    let _ = bytes;
}

/// Puts the bytes of a reply with this code and data to a packet, with this number, in place of what stands in `out`.
fn spell_body(packet: &FrameView, seq: Seq, body: &[u8], out: &mut Burst)
    requires code { 0 < length body.now }
    requires room { length body.now ≤ MAX_MESSAGE }
    ensures { Spells (packed true packet.now.address seq packet.now.check false 0 body.now) out.new.items }
{
    are_bytes(body);
    let address = packet.address();
    let _ranges = (address.get(), seq.get());
    let head = Header::plain(true, address, seq, packet.check());
    FrameView::new(head, body).unwrap().encode_to(out);
}

/// The bytes of a reply to a packet, with this number.
fn spell(packet: &FrameView, seq: Seq, reply: &Reply<'_>, out: &mut Burst)
    ensures spelled { Spells (reply_packet packet.now seq reply.now) out.new.items }
    ensures fits { ReplyFits reply.now }
{
    let mut body = Spelling::new();
    reply.write_into(&mut body);
    spell_body(packet, seq, body.as_slice(), out);
}

/// The bytes of an ACK to a packet, with this number.
fn spell_ack(packet: &FrameView, seq: Seq, out: &mut Burst)
    ensures { Spells (reply_packet packet.now seq told.Ack) out.new.items }
{
    spell_body(packet, seq, &[0x40], out);
}

/// The bytes of BUSY to a packet, with this number.
pub fn spell_busy(packet: &FrameView, seq: Seq, out: &mut Burst)
    ensures { Spells (reply_packet packet.now seq told.Busy) out.new.items }
{
    spell_body(packet, seq, &[0x79], out);
}

/// The bytes of a NAK with this reason to a packet, with this number.
pub fn spell_nak(packet: &FrameView, seq: Seq, reason: NakReason, out: &mut Burst)
    ensures spelled { Spells (reply_packet packet.now seq (refused reason)) out.new.items }
    ensures fits { ReplyFits (refused reason) }
{
    spell_body(packet, seq, &[0x41, u8::from(reason)], out);
}

/// The bytes of what the reader is, as the answer to ID.
fn spell_id(packet: &FrameView, seq: Seq, config: &KeptConfig, out: &mut Burst)
    ensures spelled { Spells (reply_packet packet.now seq (told.PdId config.now.id)) out.new.items }
    ensures fits { ReplyFits (told.PdId config.now.id) }
{
    spell(packet, seq, &Reply::PdId(config.id()), out);
}

/// The bytes of what the reader can do, as the answer to CAP.
fn spell_caps(packet: &FrameView, seq: Seq, config: &KeptConfig, out: &mut Burst)
    ensures spelled { Spells (reply_packet packet.now seq (told.PdCap (record { capabilities = config.now.caps }))) out.new.items }
    ensures fits { ReplyFits (told.PdCap (record { capabilities = config.now.caps })) }
{
    spell(packet, seq, &Reply::PdCap(config.caps()), out);
}

/// The bytes of the reply to a COMSET.
fn spell_comset(packet: &FrameView, seq: Seq, communication: &Communication, out: &mut Burst)
    ensures spelled { Spells (reply_packet packet.now seq (comset_reply communication.now)) out.new.items }
    ensures fits { ReplyFits (comset_reply communication.now) }
{
    if Address::device(communication.address).is_some() {
        spell(packet, seq, &Reply::Com(*communication), out);
    } else {
        spell_nak(packet, seq, NakReason::RecordNotProcessed, out);
    }
}

/// The bytes of an event, as the answer to POLL.
fn spell_event(packet: &FrameView, seq: Seq, event: &Event<'_>, out: &mut Burst)
    ensures spelled { Spells (reply_packet packet.now seq (event_reply event.now)) out.new.items }
    ensures fits { ReplyFits (event_reply event.now) }
{
    spell(packet, seq, &event.reply(), out);
}

/// The bytes of what the reader answers to a command, with this number.
pub fn spell_answer<H: Handler>(
    packet: &FrameView,
    seq: Seq,
    config: &KeptConfig,
    handler: &mut H,
    command: &Command<'_>,
    out: &mut Burst,
)
    ensures reply { let answer = answer_to H.answer_of H.after config.now handler.old command.now in
        Spells (reply_packet packet.now seq answer.reply) out.new.items }
    ensures handler { handler.new ≡ (answer_to H.answer_of H.after config.now handler.old command.now).handler }
    ensures fits { ReplyFits (answer_to H.answer_of H.after config.now handler.old command.now).reply }
{
    match command {
        Command::Poll => spell_ack(packet, seq, out),
        Command::Id(_) => spell_id(packet, seq, config, out),
        Command::Cap(_) => spell_caps(packet, seq, config, out),
        Command::Comset(communication) => spell_comset(packet, seq, communication, out),
        Command::LocalStatus
        | Command::InputStatus
        | Command::OutputStatus
        | Command::ReaderStatus
        | Command::Output(_)
        | Command::Led(_)
        | Command::Buzzer(_)
        | Command::Text(_)
        | Command::Maker(_) => spell_handled(packet, seq, handler, command, out),
    }
}

/// The bytes of the event where there is one, or else of what the reader answers to the command.
pub fn spell_event_or_answer<H: Handler>(
    packet: &FrameView,
    event: Option<Event<'_>>,
    config: &KeptConfig,
    handler: &mut H,
    command: &Command<'_>,
    out: &mut Burst,
)
    ensures reply { let told = option_map event_reply event.entry in
        let answer = event_or_answer H.answer_of H.after told config.now handler.old command.now in
        Spells (reply_packet packet.now packet.now.sequence answer.reply) out.new.items }
    ensures handler { let told = option_map event_reply event.entry in
        handler.new ≡ (event_or_answer H.answer_of H.after told config.now handler.old command.now).handler }
    ensures fits { let told = option_map event_reply event.entry in
        ReplyFits (event_or_answer H.answer_of H.after told config.now handler.old command.now).reply }
{
    match event {
        Some(event) => spell_event(packet, packet.seq(), &event, out),
        None => spell_answer(packet, packet.seq(), config, handler, command, out),
    }
}
