//! What is heard of the line beside the bus: the replies that sessions pass over while they aren't open.

ghost use Rattle.std.specs.Prelude.{◌≡◌, ◌≤◌, ◌++◌, false, true, [], OnOk, slice_get, slice_set, string_bytes};
ghost use Rattle.std.specs.Option.{option_map_or};
ghost use Rattle.osdp_bus.specs.Entries.{first_from, is_at};
ghost use Rattle.osdp_bus.specs.Machine.{begin_refusal_at};
ghost use Rattle.osdp_frame.specs.Items.{items, left_over, rest_of};
ghost use Rattle.osdp_frame.specs.Receiving.{IsAllRead};
ghost use Rattle.osdp_frame.specs.Shown.{item_of};
ghost use Rattle.osdp_line_calls.specs.Passing.{Listening, hears_begin, hears_bytes, hears_end, hears_run, hears_silence, is_open, new_listening, opened_by, opened_told, passed_item, passed_items, sees, then_hears};

use crate::passing::push_passed;
use osdp_bus::{Bus, EntryNumber};
use osdp_controller::Report;
use osdp_frame::{Address, Item, Receiver};
use std::alloc::AllocError;
use std::marker::Model;

/// What is heard of the line, and which sessions are open, as it was told. Moments are in milliseconds.
///
/// Its runs end by silences alone, and those of the bus at a tick too, where nobody holds the line: so a reply to a closed session is told in
/// whatever pieces it comes.
#[derive(Drop)]
pub(crate) struct Listener {
    receiver: Receiver,
    opened: [bool; 16],
}

impl Model for Listener {
    ghost Value = { Listening };

    ghost view = { λ l. record { held = l.receiver.held.bytes; gap = l.receiver.gap; last = l.receiver.last; greatest = l.receiver.greatest; opened = l.opened } };

    ghost invariant = { λ l. IsAllRead l.receiver };
}

/// Whether the device of an entry is at this address.
fn is_at(bus: &Bus, entry: EntryNumber, address: Address) -> bool
    ensures { result ≡ option_map_or (is_at address) (slice_get bus.now.devices.entries entry) false }
{
    match bus.address(entry) {
        Some(at) => at.get() == address.get(),
        None => false,
    }
}

/// The entry of the device at this address.
fn entry_at(bus: &Bus, address: Address) -> Option<EntryNumber>
    ensures { result ≡ first_from 0 (is_at address) bus.now.devices.entries }
{
    for entry in 0..bus.entries() {
        if is_at(bus, entry, address) {
            return Some(entry);
        }
    }
    None
}

/// Whether the session of an entry is open.
fn is_open(opened: &[bool; 16], entry: EntryNumber) -> bool
    ensures { result ≡ is_open entry opened.now }
{
    match opened.get(entry) {
        Some(is) => *is,
        None => false,
    }
}

/// From now on the session of an entry is open, or isn't.
fn set_open(opened: &mut [bool; 16], entry: EntryNumber, is: bool)
    ensures { opened.new ≡ slice_set opened.old entry is }
{
    if entry < opened.len() {
        opened[entry] = is;
    }
}

/// What a report says of its session: whether it is open from now on.
fn opened_told(report: &Report<'_>) -> Option<bool>
    ensures { result ≡ opened_told report.now }
{
    match report {
        Report::Opened(_) => Some(true),
        Report::Moved(..) | Report::Lost(..) => Some(false),
        Report::Settled(..) | Report::Event(_) | Report::PollAnswered(_) | Report::Unread(..) =>
            None,
    }
}

/// Writes the line of an item that is passed over, where it is one: a reply of a device whose session isn't open.
fn push_item(
    text: &mut String,
    bus: &Bus,
    opened: &[bool; 16],
    item: &Item<'_>,
) -> Result<(), AllocError>
    ensures { OnOk result (string_bytes text.new ≡ string_bytes text.old ++ passed_item bus.now.devices.entries opened.now (item_of item.now)) }
{
    let frame = match item {
        Item::Packet(frame) => frame,
        Item::Skipped(_) | Item::Refused(_) => return Ok(()),
    };
    if !frame.is_reply() {
        return Ok(());
    }
    let Some(entry) = entry_at(bus, frame.address()) else {
        return Ok(());
    };
    if is_open(opened, entry) {
        return Ok(());
    }
    push_passed(text, entry, frame)
}

/// Reads all items that the bytes held decide, and writes their lines.
fn read_items(
    receiver: &mut Receiver,
    bus: &Bus,
    opened: &[bool; 16],
    text: &mut String,
) -> Result<(), AllocError>
    ensures text { OnOk result (string_bytes text.new ≡ string_bytes text.old ++ passed_items bus.now.devices.entries opened.now (items receiver.old.held.ended receiver.old.held.bytes)) }
    ensures line { receiver.new ≡ record receiver.old { held = receiver.new.held } }
    ensures left { OnOk result (receiver.new.held.bytes ≡ rest_of receiver.old.held.ended receiver.old.held.bytes) }
    ensures read { OnOk result (IsAllRead receiver.new) }
{
    'items: while let Some(item) = receiver.next() {
        push_item(text, bus, opened, &item)?;
        receiver.advance();
    }
    Ok(())
}

/// Takes bytes of a run that goes on, reads the items that they decide, and writes their lines.
fn read_bytes(
    receiver: &mut Receiver,
    bus: &Bus,
    opened: &[bool; 16],
    bytes: &[u8],
    text: &mut String,
) -> Result<(), AllocError>
    requires { IsAllRead receiver.old }
    ensures text { OnOk result (string_bytes text.new ≡ string_bytes text.old ++ passed_items bus.now.devices.entries opened.now (items false (receiver.old.held.bytes ++ bytes.now))) }
    ensures line { receiver.new ≡ record receiver.old { held = receiver.new.held } }
    ensures left { OnOk result (receiver.new.held.bytes ≡ left_over (receiver.old.held.bytes ++ bytes.now)) }
    ensures read { OnOk result (IsAllRead receiver.new) }
{
    let mut at = 0;
    'pieces: while at < bytes.len() {
        at += receiver.push(&bytes[at..]);
        read_items(receiver, bus, opened, text)?;
    }
    Ok(())
}

impl Listener {
    /// Nothing has been heard, and no session is open. A run is over after a silence of so many milliseconds.
    pub(crate) fn new(gap: u32) -> Listener
        requires { 1 ≤ gap }
        ensures { result ≡ new_listening gap }
    {
        Listener {
            receiver: Receiver::new(gap),
            opened: [false; 16],
        }
    }

    /// Takes a moment; one that lies before the greatest seen counts as that one.
    pub(crate) fn see(&mut self, now: u64)
        ensures { self.new ≡ sees now self.old }
    {
        self.receiver.see(now);
    }

    /// A session of this entry is to begin at a moment. Where it may not, nothing brings the moment.
    pub(crate) fn hear_begin(&mut self, bus: &Bus, entry: EntryNumber, now: u64)
        ensures { self.new ≡ (hears_begin (begin_refusal_at entry bus.now) now self.old).after }
    {
        if bus.is_closed(entry) == Some(true) {
            self.see(now);
        }
    }

    /// The run is over. After an error, which is one of memory, nothing is held.
    pub(crate) fn hear_end(&mut self, bus: &Bus, text: &mut String) -> Result<(), AllocError>
        ensures text { OnOk result (string_bytes text.new ≡ string_bytes text.old ++ (hears_end bus.now.devices.entries self.old).text) }
        ensures after { OnOk result (self.new ≡ (hears_end bus.now.devices.entries self.old).after) }
    {
        self.receiver.end_run();
        let told = read_items(&mut self.receiver, bus, &self.opened, text);
        if told.is_err() {
            self.receiver.clear();
        }
        told
    }

    /// A run after which the line was silent for the gap is over, by the greatest moment seen. An error is that of `hear_end`.
    pub(crate) fn hear_silence(&mut self, bus: &Bus, text: &mut String) -> Result<(), AllocError>
        ensures text { OnOk result (string_bytes text.new ≡ string_bytes text.old ++ (hears_silence bus.now.devices.entries self.old).text) }
        ensures after { OnOk result (self.new ≡ (hears_silence bus.now.devices.entries self.old).after) }
    {
        if self.receiver.is_silent() {
            return self.hear_end(bus, text);
        }
        Ok(())
    }

    /// Bytes of a run that goes on come. An error is that of `hear_end`.
    fn hear_run(&mut self, bus: &Bus, bytes: &[u8], text: &mut String) -> Result<(), AllocError>
        ensures text { OnOk result (string_bytes text.new ≡ string_bytes text.old ++ (hears_run bus.now.devices.entries bytes.now self.old).text) }
        ensures after { OnOk result (self.new ≡ (hears_run bus.now.devices.entries bytes.now self.old).after) }
    {
        self.receiver.see_bytes();
        let told = read_bytes(&mut self.receiver, bus, &self.opened, bytes, text);
        if told.is_err() {
            self.receiver.clear();
        }
        told
    }

    /// Bytes come: after a silence they begin another run. An error is that of `hear_end`.
    fn hear_some(&mut self, bus: &Bus, bytes: &[u8], text: &mut String) -> Result<(), AllocError>
        ensures text { OnOk result (string_bytes text.new ≡ string_bytes text.old ++ (then_hears (hears_silence bus.now.devices.entries self.old) (hears_run bus.now.devices.entries bytes.now)).text) }
        ensures after { OnOk result (self.new ≡ (then_hears (hears_silence bus.now.devices.entries self.old) (hears_run bus.now.devices.entries bytes.now)).after) }
    {
        self.hear_silence(bus, text)?;
        self.hear_run(bus, bytes, text)
    }

    /// Bytes come at a moment; none bring the moment alone. An error is that of `hear_end`.
    pub(crate) fn hear_bytes(
        &mut self,
        bus: &Bus,
        bytes: &[u8],
        now: u64,
        text: &mut String,
    ) -> Result<(), AllocError>
        ensures text { OnOk result (string_bytes text.new ≡ string_bytes text.old ++ (hears_bytes bus.now.devices.entries bytes.now now self.old).text) }
        ensures after { OnOk result (self.new ≡ (hears_bytes bus.now.devices.entries bytes.now now self.old).after) }
    {
        self.see(now);
        if bytes.is_empty() {
            return Ok(());
        }
        self.hear_some(bus, bytes, text)
    }

    /// A report was told, which may say that a session is open, or isn't any more.
    pub(crate) fn hear_report(&mut self, report: &Option<(EntryNumber, Report<'_>)>)
        ensures { self.new ≡ record self.old { opened = opened_by report.now self.old.opened } }
    {
        let Some((entry, report)) = report else {
            return;
        };
        let Some(is) = opened_told(report) else {
            return;
        };
        set_open(&mut self.opened, *entry, is);
    }
}
