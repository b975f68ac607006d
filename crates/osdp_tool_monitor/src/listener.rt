//! A listener that prints what it finds.

ghost use Rattle.std.specs.Prelude.{◌≡◌, ◌++◌, ◌+◌, ◌*◌, ◌<◌, ◌≤◌, ◌^◌, Ok, true, false, length, drop, is_some, IfErr, IfOk, OnOk, string_bytes};
ghost use Rattle.osdp_frame.specs.Bytes.{AreBytes};
ghost use Rattle.osdp_frame.specs.Reading.{item_size};
ghost use Rattle.osdp_frame.specs.Shown.{item_of, item_read};
ghost use Rattle.osdp_tool_show.specs.Tally.{counted};

use crate::counts::{Counts, more_if, one_more};
use crate::diagnosis::push_diagnoses;
use crate::table::{is_unjudged, push_table};
use crate::talk::push_talk;
use crate::text::{push_found, told};
use crate::trail::Trail;
use crate::window::{LastTable, push_window};
use osdp_frame::{Burst, FrameView, Item, ReadItem, read_at, whole_item};
use osdp_monitor::Monitor;
use osdp_tool_show::{Detail, Tally, tell};
use osdp_tool_streams::ToolFault;
use std::alloc::{AllocError, Global};

/// So many addresses there are.
const ADDRESSES: usize = 128;

/// A refused byte is damage, as so many bytes that begin no packet.
const DAMAGE: u8 = 7;

/// As much as is counted of each kind at most: then the input is too long.
const MOST: u64 = 1_152_921_504_606_846_976;

/// A listener that prints what it finds, and counts it.
#[derive(Drop)]
pub struct Listener {
    detail: Detail,
    monitor: Monitor,
    tally: Tally,
    trail: Trail,
    counts: Vec<Counts>,
    judged: u64,
    accused: u64,
    standard: bool,
    last_table: Option<LastTable>,
    expected: Burst,
    ghost addresses: { length counts.items ≡ 128 },
}

impl Listener {
    ghost use Rattle.osdp_monitor.specs.Line.{after_packet, copies_last, expected_in, nothing_wrong};
    ghost use Rattle.osdp_monitor.specs.Plain.{IsPlain};
    ghost use Rattle.osdp_monitor.specs.Monitors.{knowledge_of};
    ghost use Rattle.osdp_tool_monitor.specs.Counts.{counts_after, counts_after_damage, more_if};
    ghost use Rattle.osdp_tool_monitor.specs.Trail.{hit_by, is_clean, trail_after_packet};
    ghost use Rattle.osdp_tool_monitor.specs.Listening.{HearsFirst, HearsItem, HearsRun, IsLineFault, ended, is_wrong, listening_of, nothing_heard, table, after_table, told_in, detail_of};
    ghost use Rattle.osdp_tool_monitor.specs.Text.{expected_bytes, found_text};

    /// A listener that has heard nothing. It prints each item of the line, or refusals and what it finds alone. With `standard` it leaves out what only
    /// the profile asks for.
    pub fn new(alloc: Global, detail: Detail, standard: bool) -> Result<Listener, ToolFault>
        ensures heard { IfOk result (λ l. listening_of l ≡ nothing_heard standard) }
        ensures tells { IfOk result (λ l. detail_of l ≡ detail) }
        ensures fault { IfErr result (λ fault. fault ≡ ToolFault.NoMemory) }
    {
        let monitor = or_fault(Monitor::new(alloc))?;
        let counts = or_fault(vec![in alloc; Counts::NONE; ADDRESSES])?;
        Ok(Listener {
            detail,
            monitor,
            tally: Tally::new(),
            trail: Trail::new(),
            counts,
            judged: 0,
            accused: 0,
            standard,
            last_table: None,
            expected: Burst::new(),
        })
    }

    /// Takes a plain packet, and counts it: nothing is printed of it.
    #[inline(always)]
    #[tactic(auto, using(osdp_monitor::proofs::Turns::is_ack, osdp_monitor::proofs::Turns::is_poll, osdp_monitor::proofs::Turns::is_fresh))]
    fn count_plain(&mut self, packet: &FrameView<'_>)
        requires { IsPlain (knowledge_of self.old.monitor) packet.now }
        ensures knowledge { knowledge_of self.new.monitor ≡ after_packet (knowledge_of self.old.monitor) packet.now }
        ensures trail { self.new.trail ≡ trail_after_packet packet.now }
        ensures counts { self.new.counts.items
            ≡ counts_after packet.now (is_clean self.old.trail.bad) (copies_last (knowledge_of self.old.monitor) packet.now) nothing_wrong self.old.counts.items }
        ensures judged { self.new.judged ≡ more_if true self.old.judged }
        ensures detail { self.new.detail ≡ self.old.detail }
        ensures tally { self.new.tally ≡ self.old.tally }
        ensures accused { self.new.accused ≡ self.old.accused }
        ensures standard { self.new.standard ≡ self.old.standard }
        ensures last_table { self.new.last_table ≡ self.old.last_table }
    {
        self.monitor.hear_plain(packet);
        let counts = &mut self.counts[usize::from(packet.address().get())];
        counts.count_plain(packet, self.trail.is_clean());
        self.trail = Trail::after_packet(packet);
        self.judged = one_more(self.judged);
    }

    /// Takes a packet that stands at this place of this run. Most are plain.
    fn hear_packet(
        &mut self,
        packet: &FrameView<'_>,
        run: u64,
        place: u64,
        text: &mut String,
    ) -> Result<(), ToolFault>
        ensures fault { IfErr result (λ fault. fault ≡ ToolFault.NoMemory) }
        ensures tells { OnOk result (detail_of self.new ≡ detail_of self.old) }
        ensures tally { OnOk result (self.new.tally ≡ self.old.tally) }
        ensures trail { OnOk result (self.new.trail ≡ trail_after_packet packet.now) }
        ensures knowledge { OnOk result (knowledge_of self.new.monitor ≡ after_packet (knowledge_of self.old.monitor) packet.now) }
        ensures counts { OnOk result (self.new.counts.items
            ≡ counts_after packet.now (is_clean self.old.trail.bad) (copies_last (knowledge_of self.old.monitor) packet.now) (told_in (listening_of self.old) packet.now) self.old.counts.items) }
        ensures judged { OnOk result (self.new.judged ≡ more_if (told_in (listening_of self.old) packet.now).judged self.old.judged) }
        ensures accused { OnOk result (self.new.accused ≡ more_if (is_some (told_in (listening_of self.old) packet.now).accusation) self.old.accused) }
        ensures standard { OnOk result (self.new.standard ≡ self.old.standard) }
        ensures last_table { OnOk result (self.new.last_table ≡ self.old.last_table) }
        ensures text { OnOk result (string_bytes text.new
            ≡ string_bytes text.old ++ found_text run place packet.now (told_in (listening_of self.old) packet.now) (expected_bytes (expected_in (knowledge_of self.old.monitor) packet.now))) }
    {
        if self.monitor.is_plain(packet) {
            self.count_plain(packet);
            return Ok(());
        }
        let copy = self.monitor.copies_last(packet);
        let found = match self.monitor.hear(packet, &mut self.expected) {
            Ok(found) => told(self.standard, found),
            Err(_) => return Err(ToolFault::NoMemory),
        };
        let counts = &mut self.counts[usize::from(packet.address().get())];
        counts.count(packet, self.trail.is_clean(), copy, &found);
        self.trail = Trail::after_packet(packet);
        self.judged = more_if(found.judged, self.judged);
        self.accused = more_if(found.accusation.is_some(), self.accused);
        let expected = self.expected.as_slice();
        match push_found(text, run, place, packet, &found, expected) {
            Ok(()) => Ok(()),
            Err(_) => Err(ToolFault::NoMemory),
        }
    }

    /// So many bad bytes stand there since the last packet: where they begin damage, it is counted.
    fn hear_bad(&mut self, bad: u8)
        ensures counts { self.new.counts.items ≡ counts_after_damage (hit_by self.old.trail bad) self.old.counts.items }
        ensures trail { self.new.trail ≡ record self.old.trail { bad = bad } }
        ensures detail { self.new.detail ≡ self.old.detail }
        ensures monitor { knowledge_of self.new.monitor ≡ knowledge_of self.old.monitor }
        ensures tally { self.new.tally ≡ self.old.tally }
        ensures judged { self.new.judged ≡ self.old.judged }
        ensures accused { self.new.accused ≡ self.old.accused }
        ensures standard { self.new.standard ≡ self.old.standard }
        ensures last_table { self.new.last_table ≡ self.old.last_table }
    {
        if let Some(address) = self.trail.hit_by(bad) {
            self.counts[usize::from(address.get())].count_damage();
        }
        self.trail.bad = bad;
    }

    /// Takes an item. TooLong once 2^60 are counted.
    pub(crate) fn hear_item(&mut self, item: &Item<'_>, text: &mut String) -> Result<(), ToolFault>
        requires { item_size (item_of item.now) ≤ 1440 }
        ensures hears { OnOk result (HearsItem (item_of item.now) self.old self.new (string_bytes text.old) (string_bytes text.new)) }
        ensures fault { IfErr result (IsLineFault (counted self.old.tally)) }
    {
        if !has_room(&self.tally) {
            return Err(ToolFault::TooLong);
        }
        let run = self.tally.runs + 1;
        let place = self.tally.place;
        match tell(text, self.trail.detail(self.detail), &mut self.tally, item) {
            Ok(()) => {}
            Err(_) => return Err(ToolFault::NoMemory),
        }
        match push_talk(text, self.detail, run, place, self.trail, item) {
            Ok(()) => {}
            Err(_) => return Err(ToolFault::NoMemory),
        }
        match item {
            Item::Packet(packet) => return self.hear_packet(packet, run, place, text),
            Item::Skipped(_) => {
                self.monitor.skip();
                self.hear_bad(self.trail.one_more());
            }
            Item::Refused(_) => {
                self.monitor.forget();
                self.hear_bad(DAMAGE);
            }
        }
        Ok(())
    }

    /// Takes an item that has a packet of its own, and gives how many bytes it has.
    fn hear_owned(&mut self, item: &ReadItem, text: &mut String) -> Result<usize, ToolFault>
        ensures fault { IfErr result (IsLineFault (counted self.old.tally)) }
        ensures hears { OnOk result (HearsItem (item_read item.now) self.old self.new (string_bytes text.old) (string_bytes text.new)) }
        ensures size { IfOk result (λ size. size ≡ item_size (item_read item.now)) }
    {
        let lent = match item {
            ReadItem::Packet(frame) => Item::Packet(frame.view()),
            ReadItem::Skipped(byte) => Item::Skipped(*byte),
            ReadItem::Refused(fault) => Item::Refused(*fault),
        };
        self.hear_item(&lent, text)?;
        Ok(lent.size())
    }

    /// Takes the item of a run at a place, where the reading has come to it, and gives how many bytes it has. The item has a packet of its own.
    // It stands by itself, since a function writes the zeros of such a packet whenever it is called.
    #[inline(never)]
    fn hear_alone(&mut self, run: &[u8], at: usize, text: &mut String) -> Result<usize, ToolFault>
        requires { at < length run.now }
        ensures hears { IfOk result (λ size. HearsFirst (drop at run.now) self.old self.new (string_bytes text.old) (string_bytes text.new) size) }
        ensures fault { IfErr result (IsLineFault (counted self.old.tally)) }
    {
        self.hear_owned(&read_at(run, at), text)
    }

    /// The same. Most items lie whole in the run, and are heard where they lie.
    fn hear_next(&mut self, run: &[u8], at: usize, text: &mut String) -> Result<usize, ToolFault>
        requires { at < length run.now }
        ensures hears { IfOk result (λ size. HearsFirst (drop at run.now) self.old self.new (string_bytes text.old) (string_bytes text.new) size) }
        ensures fault { IfErr result (IsLineFault (counted self.old.tally)) }
    {
        let rest = &run[at..];
        let Some(item) = whole_item(rest) else {
            return self.hear_alone(run, at, text);
        };
        self.hear_item(&item, text)?;
        Ok(item.size())
    }

    /// Takes a whole run.
    ///
    /// TooLong only where 2^60 were counted, with five for each byte of the run; else out of memory.
    pub fn hear_run(&mut self, run: &[u8], text: &mut String) -> Result<(), ToolFault>
        ensures hears { OnOk result (HearsRun run.now self.old self.new (string_bytes text.old) (string_bytes text.new)) }
        ensures fault { IfErr result (IsLineFault (counted self.old.tally + 5 * length run.now)) }
    {
        are_bytes(run);
        let mut at = 0;
        'items: while at < run.len() {
            at += self.hear_next(run, at, text)?;
        }
        self.end_run()?;
        Ok(())
    }

    /// The run has ended. TooLong once 2^60 are counted.
    pub(crate) fn end_run(&mut self) -> Result<(), ToolFault>
        ensures tells { OnOk result (detail_of self.new ≡ detail_of self.old) }
        ensures heard { OnOk result (listening_of self.new ≡ ended (listening_of self.old)) }
        ensures fault { IfErr result (IsLineFault (counted self.old.tally)) }
    {
        if self.tally.runs >= MOST {
            return Err(ToolFault::TooLong);
        }
        self.tally.end_run();
        Ok(())
    }

    /// Writes the table of what was heard: what came since the last table, where there was one, and what came since the start.
    pub fn push_table(&self, text: &mut String) -> Result<(), ToolFault>
        ensures text { OnOk result (string_bytes text.new ≡ string_bytes text.old ++ table (listening_of self.now)) }
        ensures fault { IfErr result (λ fault. fault ≡ ToolFault.NoMemory) }
    {
        let counts = &self.counts;
        or_fault(push_window(
            text,
            &self.last_table,
            &self.tally,
            counts,
            self.judged,
            self.accused,
        ))?;
        or_fault(push_table(text, &self.tally, &self.counts, self.judged, self.accused))?;
        or_fault(push_diagnoses(text, &self.tally, &self.counts))
    }

    /// The table has been told: the next one tells what comes from now on, too.
    pub fn end_table(&mut self) -> Result<(), ToolFault>
        ensures tells { OnOk result (detail_of self.new ≡ detail_of self.old) }
        ensures heard { OnOk result (listening_of self.new ≡ after_table (listening_of self.old)) }
        ensures fault { IfErr result (λ fault. fault ≡ ToolFault.NoMemory) }
    {
        let alloc = *self.counts.allocator();
        let told = LastTable::new(alloc, self.tally, &self.counts, self.judged, self.accused);
        self.last_table = Some(or_fault(told)?);
        Ok(())
    }

    /// Whether somebody was accused, something refused, or of all packets none was judged.
    pub fn is_wrong(&self) -> bool
        ensures { result ≡ is_wrong (listening_of self.now) }
    {
        !(self.accused == 0 && self.tally.refused == 0) || is_unjudged(&self.tally, self.judged)
    }
}

/// Whether more may be counted.
fn has_room(tally: &Tally) -> bool
    ensures some { result ≡ true → counted tally.now + 1440 < 2 ^ 63 }
    ensures none { result ≡ false → 2 ^ 60 ≤ counted tally.now }
{
    tally.runs < MOST
        && tally.place < MOST
        && tally.packets < MOST
        && tally.skipped < MOST
        && tally.refused < MOST
}

/// Without memory nothing more is told.
fn or_fault<T: Drop>(done: Result<T, AllocError>) -> Result<T, ToolFault>
    ensures value { (x : T) → result ≡ Ok x → done ≡ Ok x }
    ensures fault { IfErr result (λ fault. fault ≡ ToolFault.NoMemory) }
{
    match done {
        Ok(value) => Ok(value),
        Err(_) => Err(ToolFault::NoMemory),
    }
}

/// What a slice of bytes holds is bytes.
fn are_bytes(bytes: &[u8])
    ensures { AreBytes bytes.now }
{
    let _ = bytes;
}
