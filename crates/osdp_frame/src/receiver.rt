//! What has come on a line, and by which silences its runs are over.

ghost use Rattle.std.specs.Prelude.{◌≡◌, ◌≤◌, ◌==◌, length};
ghost use Rattle.std.specs.Option.{option_map};
ghost use Rattle.osdp_frame.specs.Held.{after_advance, after_push, decided, new_run, taken_count};
ghost use Rattle.osdp_frame.specs.Shown.{item_of};
ghost use Rattle.osdp_frame.specs.Receiving.{IsReceived, after_silence, after_take, after_tick, count_taken, ends_run, ends_silent, is_silent, new_line, seen};

use crate::{Framer, Item, is_silent_for};
use std::marker::Model;

/// Takes the bytes of a line at moments, and finds the items of their runs. A run is over once no byte has come for the gap, or where the
/// caller saw the line silent. What is held of it is read to its end then, and no byte is taken before it is.
///
/// Moments are milliseconds of any clock that doesn't go backwards; one that lies before the greatest seen counts as that one.
#[derive(Debug, Drop)]
pub struct Receiver {
    gap: u32,
    framer: Framer,
    /// The moment of the last bytes.
    last: u64,
    /// The greatest moment seen.
    greatest: u64,
}

impl Model for Receiver {
    ghost use Rattle.osdp_frame.specs.Receiving.{IsReceived, Received};

    ghost Value = { Received };

    ghost view = { λ r. record { gap = r.gap; held = r.framer; last = r.last; greatest = r.greatest } };

    ghost invariant = { λ r. IsReceived (record { gap = r.gap; held = r.framer; last = r.last; greatest = r.greatest }) };
}

impl Receiver {
    /// Nothing has come yet. A run is over after a silence of `gap` milliseconds, 1 or more.
    #[tactic(auto, using(crate::proofs::Receipt::received_new))]
    pub fn new(gap: u32) -> Receiver
        requires { 1 ≤ gap }
        ensures { result ≡ new_line gap }
    {
        Receiver {
            gap,
            framer: Framer::new(),
            last: 0,
            greatest: 0,
        }
    }

    /// The moment of the last bytes, 0 where none have come. The clause `received` hands the receiver's invariant to the caller.
    pub fn last(&self) -> u64
        ensures last { result ≡ self.now.last }
        ensures received { IsReceived self.now }
    {
        let _ = self.greatest;
        self.last
    }

    /// The greatest moment seen, 0 at first.
    pub fn greatest(&self) -> u64
        ensures greatest { result ≡ self.now.greatest }
        ensures received { IsReceived self.now }
    {
        self.greatest
    }

    /// Whether no byte is held. The clause `received` hands the receiver's invariant to the caller.
    pub fn is_empty(&self) -> bool
        ensures empty { result ≡ (length self.now.held.bytes == 0) }
        ensures received { IsReceived self.now }
    {
        self.framer.is_empty()
    }

    /// The next item, where the bytes held decide it.
    pub fn next(&self) -> Option<Item<'_>>
        ensures shown { option_map item_of result ≡ decided self.now.held.ended self.now.held.bytes }
        ensures received { IsReceived self.now }
    {
        self.framer.next()
    }

    /// Takes the next item off. Without one nothing changes. After the last byte of a run that is over a new run begins.
    #[tactic(auto, using(crate::proofs::Receipt::received_advanced))]
    pub fn advance(&mut self)
        ensures { self.new ≡ record self.old { held = after_advance self.old.held } }
    {
        self.framer.advance();
    }

    /// What is held is let go unread, and a new run begins.
    #[tactic(auto, using(crate::proofs::Receipt::received_clear))]
    pub fn clear(&mut self)
        ensures { self.new ≡ record self.old { held = new_run } }
    {
        let _gap = &self.gap;
        self.framer = Framer::new();
    }

    /// Takes a moment; one that lies before the greatest seen counts as that one.
    pub fn see(&mut self, now: u64)
        ensures line { self.new ≡ seen now self.old }
        ensures received { IsReceived self.old }
    {
        let _gap = &self.gap;
        self.greatest = self.greatest.max(now);
    }

    /// The run is over: what is held is read to its end. Where nothing is held, a new run begins at once.
    #[tactic(auto, using(crate::proofs::Receipt::received_gapped))]
    pub fn end_run(&mut self)
        ensures { self.new ≡ ends_run self.old }
    {
        self.framer.gap();
    }

    /// Whether the line has been silent long enough for a run to be over.
    pub fn is_silent(&self) -> bool
        ensures { result ≡ is_silent self.now }
    {
        is_silent_for(self.gap, self.last, self.greatest)
    }

    /// The run is over where the line has been silent long enough.
    fn end_silent(&mut self)
        ensures { self.new ≡ ends_silent self.old }
    {
        if self.is_silent() {
            self.end_run();
        }
    }

    /// Bytes come at the greatest moment seen.
    pub fn see_bytes(&mut self)
        ensures { self.new ≡ record self.old { last = self.old.greatest } }
    {
        let _gap = &self.gap;
        self.last = self.greatest;
    }

    /// Takes bytes of the line, and tells how many: as many as there is room for, and none before a run that is over has been
    /// read. No moment changes: `see` and `see_bytes` tell when the bytes came.
    #[tactic(auto, using(crate::proofs::Receipt::received_pushed))]
    pub fn push(&mut self, bytes: &[u8]) -> usize
        ensures count { result ≡ taken_count self.old.held bytes.now }
        ensures line { self.new ≡ record self.old { held = after_push self.old.held bytes.now } }
        ensures received { IsReceived self.old }
    {
        self.framer.push(bytes)
    }

    /// Takes bytes that came up to a moment, and tells how many.
    pub fn take(&mut self, bytes: &[u8], now: u64) -> usize
        ensures count { result ≡ count_taken bytes.now now self.old }
        ensures line { self.new ≡ after_take bytes.now now self.old }
        ensures received { IsReceived self.old }
    {
        self.see(now);
        if bytes.is_empty() {
            return 0;
        }
        self.end_silent();
        self.see_bytes();
        self.push(bytes)
    }

    /// No bytes came up to a moment.
    pub fn tick(&mut self, now: u64)
        ensures line { self.new ≡ after_tick now self.old }
        ensures received { IsReceived self.old }
    {
        self.see(now);
        self.end_silent();
    }

    /// The caller saw the line silent.
    pub fn silence(&mut self, now: u64)
        ensures line { self.new ≡ after_silence now self.old }
        ensures received { IsReceived self.old }
    {
        self.see(now);
        self.end_run();
    }
}
