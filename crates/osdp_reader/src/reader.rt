//! The reader.

ghost use Rattle.std.specs.Prelude.{◌≡◌, ◌↔◌, ◌<◌, ◌⊎◌, length, is_some, IfOk, IfSome, IsErrOf};
ghost use Rattle.std.specs.Borrow.{Lends, sem};
ghost use Rattle.osdp_reader.specs.contracts.reader.Reader.{the_row};
ghost use Rattle.osdp_msg.specs.Limits.{AreRoom};
ghost use Rattle.osdp_msg.specs.ReplyTable.{ReplyFits};
ghost use Rattle.osdp_reader.specs.Spelled.{IsSpelled};
ghost use Rattle.osdp_reader.specs.State.{after_lapse_event, after_set_busy, after_set_handler, after_submit_if, after_withdraw_event, new_reader};
ghost use Rattle.osdp_reader.specs.Queue.{has_room, in_doubt, never_offered};
ghost use Rattle.osdp_reader.specs.Table.{begun, command_in, hears, kind_by_number, kind_of, moved, new_address, is_for_another, taken};
ghost use Rattle.osdp_reader.specs.declared.fault.ReaderFault.TheVariants.{OutOfRange};
ghost use Rattle.osdp_reader.specs.declared.kind.Kind.TheVariants.{Taken, Zero};

use crate::config::{KeptConfig, ReaderConfig};
use crate::events::EventQueue;
use crate::fault::ReaderFault;
use crate::handler::Handler;
use crate::heard::Heard;
use crate::kind::Kind;
use crate::parts::ReaderParts;
use crate::reply::{spell_answer, spell_busy, spell_event_or_answer, spell_nak, unread};
use crate::stored::StoredReply;
use osdp_frame::{Address, Burst, FrameView, Seq};
use osdp_msg::{Command, Event, MsgFault, NakReason, PdCap, Room};
use std::alloc::Global;
use std::marker::Model;
use std::mem::replace;

/// A reader on the line.
#[derive(Drop)]
// In this order what is zero in a new reader is written where the reader is to stand, and not copied there.
pub struct Reader<H: Handler> {
    handler: H,
    stored: StoredReply,
    config: KeptConfig,
    queue: EventQueue,
    last: Option<Seq>,
    busy: bool,
}

impl<H: Handler> Model for Reader<H> {
    ghost use Rattle.osdp_reader.specs.State.{ReaderState};

    ghost Value = { ReaderState H };

    ghost view = { λ r. record { config = r.config; last = r.last; stored = r.stored; queue = r.queue; busy = r.busy; handler = r.handler } };
}

impl<H: Handler> Reader<H> {
    /// A reader that nothing has come to yet, with such room for events. N3: the address is above 126, or the room is out of its range. N1:
    /// there is no memory for the events, or for what is answered to CAP. N3 is decided first.
    pub fn new(
        alloc: Global,
        config: ReaderConfig,
        handler: H,
        room: Room,
    ) -> Result<Reader<H>, ReaderFault>
        ensures made { IfOk result (λ r. r ≡ new_reader config handler room) }
        ensures range { IsErrOf result OutOfRange ↔ ((126 < config.address) ⊎ (AreRoom room.messages room.bytes → ⊥)) }
    {
        let caps = PdCap::new(config.caps.as_slice()).unwrap();
        match ReaderParts::new(alloc, config.address, config.id, &caps, room) {
            Ok(parts) => Ok(Reader::with(parts, handler)),
            Err(fault) => Err(fault),
        }
    }

    /// As `new`, of parts that were made before: for a program with little stack, which hands no reader on.
    #[inline(always)]
    pub fn with(parts: ReaderParts, handler: H) -> Reader<H>
        ensures { result ≡ new_reader parts.config handler parts.room }
    {
        let ReaderParts { config, queue } = parts;
        Reader {
            handler,
            stored: StoredReply::none(),
            config,
            queue,
            last: None,
            busy: false,
        }
    }

    /// Puts an event after those that wait, where it has room. Whether it has (N2 where not); else nothing changes.
    pub fn submit_event(&mut self, event: &Event<'_>) -> bool
        ensures room { result ≡ has_room event.now self.old.queue }
        ensures reader { self.new ≡ after_submit_if result event.now self.old }
    {
        self.queue.submit(event)
    }

    /// The oldest event that was never offered, in this session or in one before; None, where no such event waits.
    pub fn never_offered(&self) -> Option<Event<'_>>
        ensures { result ≡ never_offered self.now.queue }
    {
        self.queue.never_offered()
    }

    /// Takes it back: it is never told then. Whether there was one; else nothing changes.
    pub fn withdraw_event(&mut self) -> bool
        ensures event { result ≡ is_some (never_offered self.old.queue) }
        ensures reader { self.new ≡ after_withdraw_event self.old }
    {
        self.queue.withdraw()
    }

    /// The oldest event, where it was ever offered, in this session or in one before: its answer may be lost, so the panel may have it or
    /// not.
    pub fn in_doubt(&self) -> Option<Event<'_>>
        ensures { result ≡ in_doubt self.now.queue }
    {
        self.queue.in_doubt()
    }

    /// Lets it go. Whether there was one; else nothing changes. Nothing is offered any more then, but the stored reply stays: a repeat
    /// still has it as its answer, so within this session the event may yet be told again.
    pub fn lapse_event(&mut self) -> bool
        ensures event { result ≡ is_some (in_doubt self.old.queue) }
        ensures reader { self.new ≡ after_lapse_event self.old }
    {
        self.queue.lapse()
    }

    /// Sets whether the reader is busy. A busy reader takes nothing, but repeats its last reply.
    pub fn set_busy(&mut self, busy: bool)
        ensures { self.new ≡ after_set_busy busy self.old }
    {
        self.busy = busy;
    }

    /// The address that the reader has now.
    pub fn address(&self) -> Address
        ensures { result ≡ self.now.config.address }
    {
        self.config.address()
    }

    /// How many events wait, the one that is offered included.
    pub fn waiting(&self) -> usize
        ensures { result ≡ length self.now.queue.events }
    {
        self.queue.len()
    }

    /// How much may wait.
    pub fn room(&self) -> Room
        ensures { result ≡ record { messages = self.now.queue.capacity; bytes = self.now.queue.room } }
    {
        self.queue.room()
    }

    /// Whether the oldest event was ever offered, in this session or in one before: its answer may be lost, so the panel may have it or
    /// not.
    pub fn is_in_doubt(&self) -> bool
        ensures { result ≡ self.now.queue.ever_offered }
    {
        self.queue.is_in_doubt()
    }

    /// The stored reply as it was sent; empty where there is none.
    pub fn stored(&self) -> &[u8]
        ensures { IsSpelled self.now.stored result.now }
    {
        self.stored.bytes()
    }

    /// The handler, by which the device's program sees what the commands have set.
    pub fn handler(&self) -> &H
        ensures { result.now ≡ self.now.handler }
    {
        &self.handler
    }

    /// The handler, for the device's program to change what it tells, such as its inputs. What is answered from the next packet on
    /// is this handler's; a repeat still has the answer that was given.
    pub fn handler_mut(&mut self) -> &mut H
        ensures value { result.now ≡ self.old.handler }
        ensures* writes_back { sem 𝓛 (Lends (the_row H.row H.Handler) H.row self.entry result (λ handler. after_set_handler handler self.old)) }
    {
        &mut self.handler
    }

    /// Sets another handler, and gives back the one before. What is answered from the next packet on is the new one's; a repeat
    /// still has the answer that was given. Nothing else changes: events, the last number and the stored reply stay.
    pub fn set_handler(&mut self, handler: H) -> H
        ensures back { result ≡ self.old.handler }
        ensures reader { self.new ≡ after_set_handler handler self.old }
    {
        replace(&mut self.handler, handler)
    }

    /// The first line of the table that a packet meets, were it taken now. Nothing changes.
    pub fn kind(&self, packet: &FrameView) -> Kind
        ensures { result ≡ kind_of self.now packet.now }
    {
        if self.is_for_another(packet) {
            Kind::Silent
        } else if packet.has_block() {
            Kind::Secured
        } else if packet.seq().get() == 0 {
            if self.busy { Kind::Busy } else { Kind::Zero }
        } else {
            kind_by_number(self.last, packet.seq(), self.busy)
        }
    }

    /// Takes a packet of the line. What comes of it is the reader's table. The answer is put in place of what stands in `out`; no bytes,
    /// where the reader is silent.
    pub fn hear<'p>(&mut self, packet: &FrameView<'p>, out: &mut Burst) -> Heard<'p>
        ensures kind { result.kind ≡ kind_of self.old packet.now }
        ensures command { result.command ≡ (hears H.answer_of H.after self.old packet.now).command }
        ensures reply { IsSpelled (hears H.answer_of H.after self.old packet.now).reply out.new.items }
        ensures reader { self.new ≡ (hears H.answer_of H.after self.old packet.now).reader }
        ensures fits { IfSome (hears H.answer_of H.after self.old packet.now).said ReplyFits }
    {
        let kind = self.kind(packet);
        let command = match kind {
            Kind::Zero => self.begin(packet, out),
            Kind::Taken => self.take(packet, out),
            Kind::Silent | Kind::Repeat | Kind::Secured | Kind::Busy | Kind::Wrong => {
                self.put_reply(kind, packet, out);
                None
            }
        };
        Heard { kind, command }
    }

    /// Puts the answer to a packet there that isn't acted on.
    fn put_reply(&self, kind: Kind, packet: &FrameView, out: &mut Burst)
        requires kind { kind ≡ kind_of self.now packet.now }
        requires not_zero { (kind ≡ Zero) → ⊥ }
        requires not_taken { (kind ≡ Taken) → ⊥ }
        ensures reply { IsSpelled (hears H.answer_of H.after self.now packet.now).reply out.new.items }
        ensures fits { IfSome (hears H.answer_of H.after self.now packet.now).said ReplyFits }
    {
        match kind {
            Kind::Repeat => self.stored.put(out),
            Kind::Secured => spell_nak(packet, packet.seq(), NakReason::SecurityBlock, out),
            Kind::Busy => spell_busy(packet, zero(), out),
            Kind::Wrong => spell_nak(packet, packet.seq(), NakReason::UnexpectedSequence, out),
            Kind::Silent | Kind::Zero | Kind::Taken => out.clear(),
        }
    }

    /// Whether a packet is for another device, or from one.
    fn is_for_another(&self, packet: &FrameView) -> bool
        ensures { result ≡ is_for_another self.now packet.now }
    {
        let address = packet.address().get();
        packet.is_reply()
            || !(address == self.config.address().get() || address == Address::CONFIGURATION)
    }

    /// Acts on a packet with number 0.
    fn begin<'p>(&mut self, packet: &FrameView<'p>, out: &mut Burst) -> Option<Command<'p>>
        ensures command { result ≡ (begun H.answer_of H.after (command_in packet.now) self.old packet.now).command }
        ensures reply { IsSpelled (begun H.answer_of H.after (command_in packet.now) self.old packet.now).reply out.new.items }
        ensures reader { self.new ≡ (begun H.answer_of H.after (command_in packet.now) self.old packet.now).reader }
        ensures fits { IfSome (begun H.answer_of H.after (command_in packet.now) self.old packet.now).said ReplyFits }
    {
        self.last = Some(zero());
        self.queue.stop_offering();
        let command = match read_command(packet) {
            Ok(command) => command,
            Err(fault) => {
                spell_nak(packet, zero(), unread(fault), out);
                return None;
            }
        };
        spell_answer(
            packet,
            zero(),
            &self.config,
            &mut self.handler,
            &command,
            out,
        );
        self.move_to(new_address(&command));
        Some(command)
    }

    /// Acts on a packet with the next number.
    fn take<'p>(&mut self, packet: &FrameView<'p>, out: &mut Burst) -> Option<Command<'p>>
        ensures command { result ≡ (taken H.answer_of H.after (command_in packet.now) self.old packet.now).command }
        ensures reply { IsSpelled (taken H.answer_of H.after (command_in packet.now) self.old packet.now).reply out.new.items }
        ensures reader { self.new ≡ (taken H.answer_of H.after (command_in packet.now) self.old packet.now).reader }
        ensures fits { IfSome (taken H.answer_of H.after (command_in packet.now) self.old packet.now).said ReplyFits }
    {
        self.last = Some(packet.seq());
        self.queue.release();
        let command = match read_command(packet) {
            Ok(command) => command,
            Err(fault) => {
                spell_nak(packet, packet.seq(), unread(fault), out);
                self.stored.keep(out);
                return None;
            }
        };
        let event = self.queue.told_event(&command);
        let told = event.is_some();
        spell_event_or_answer(
            packet,
            event,
            &self.config,
            &mut self.handler,
            &command,
            out,
        );
        self.queue.offer(told);
        self.stored.keep(out);
        self.move_to(new_address(&command));
        Some(command)
    }

    /// After an accepted COMSET: the reader is at that address, and where it is another one, nothing said before counts.
    fn move_to(&mut self, address: Option<Address>)
        ensures { self.new ≡ moved address self.old }
    {
        let Some(address) = address else { return };
        if address.get() == self.config.address().get() {
            return;
        }
        self.config.set_address(address);
        self.last = None;
        self.stored.forget();
    }
}

/// The number that begins anew.
fn zero() -> Seq
    ensures { result ≡ 0 }
{
    Seq::new(0).unwrap()
}

/// The line of the table by the last number and that of a packet, which isn't 0.
fn kind_by_number(last: Option<Seq>, seq: Seq, busy: bool) -> Kind
    ensures { result ≡ kind_by_number last seq busy }
{
    let Some(last) = last else {
        return Kind::Wrong;
    };
    if seq.get() == last.get() {
        Kind::Repeat
    } else if seq.get() == last.next().get() {
        if busy { Kind::Busy } else { Kind::Taken }
    } else {
        Kind::Wrong
    }
}

/// The command that a packet is, or why it is none.
// Inlined: what it gives back would else be written out in parts and read again at once.
#[inline(always)]
fn read_command<'p>(packet: &FrameView<'p>) -> Result<Command<'p>, MsgFault>
    ensures { result ≡ command_in packet.now }
{
    Command::read(packet.code(), packet.payload())
}

/// Where an accepted COMSET sets it, the address.
fn new_address(command: &Command<'_>) -> Option<Address>
    ensures { result ≡ new_address command.now }
{
    match command {
        Command::Comset(communication) => Address::device(communication.address),
        _ => None,
    }
}
