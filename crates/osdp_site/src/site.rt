//! The site: what a panel's program calls.

ghost use Rattle.std.specs.Prelude.{◌≡◌, IfErr, IfOk, length, option_map};
ghost use Rattle.osdp_site.specs.declared.fault.SiteFault.TheVariants.{NoMemory};
ghost use Rattle.osdp_site.specs.Places.{changed_unless, is_due, is_refreshed, unless_refused};
ghost use Rattle.osdp_site.specs.Sites.{acts, earlier, heeds_at, new_site, next_begin, place_of, told_at, wants_at, wants_refusal_at};

use crate::fault::SiteFault;
use crate::place::{Place, Presence};
use osdp_bus::{Bus, EntryNumber};
use osdp_controller::Report;
use osdp_msg::{Command, Room};
use std::alloc::Global;
use std::marker::Model;

/// The settings of a site.
#[derive(Clone, Copy, Debug, PartialEq, Eq)]
pub struct SiteConfig {
    /// From a session that has ended to the next one, in milliseconds.
    pub pause: u32,
    /// How many states may be wanted of each device.
    pub room: usize,
    /// For how many bytes of commands the panel has room, of each device: those of its settings (`BusConfig::room`). A state that has more, with its code, is
    /// refused where it is stated, since it would never go out.
    pub bytes: usize,
}

impl SiteConfig {
    /// A second, and room for 16 states, over a panel that has this room for the commands of a device: `BusConfig::room` of its settings.
    pub fn new(commands: Room) -> SiteConfig
        ensures { result ≡ record { pause = 1000; room = 16; bytes = commands.bytes } }
    {
        SiteConfig {
            pause: 1000,
            room: 16,
            bytes: commands.bytes,
        }
    }
}

/// What a panel's program wants of its devices, and when their sessions begin. Its entries are those of the panel.
///
/// Moments are milliseconds, of the clock whose moments the panel gets.
#[derive(Drop)]
pub struct Site {
    pause: u32,
    places: Vec<Place>,
}

impl Model for Site {
    ghost use Rattle.osdp_site.specs.Sites.{SiteState};

    ghost Value = { SiteState };

    ghost view = { λ s. record { pause = s.pause; places = s.places.items } };
}

/// The earlier of two moments, where there is one.
fn earlier(a: Option<u64>, b: Option<u64>) -> Option<u64>
    ensures { result ≡ earlier a b }
{
    match (a, b) {
        (None, b) => b,
        (Some(a), None) => Some(a),
        (Some(a), Some(b)) => Some(a.min(b)),
    }
}

impl Site {
    /// A site for so many entries, those of the panel: all are offline since this moment, and their sessions are due. It takes the memory for all the states
    /// that may be wanted, and no other call takes any.
    ///
    /// NoMemory (P1) where there is none.
    pub fn new(
        alloc: Global,
        entries: usize,
        config: SiteConfig,
        now: u64,
    ) -> Result<Site, SiteFault>
        ensures made { IfOk result (λ s. s ≡ new_site entries config now) }
        ensures fault { IfErr result (λ fault. fault ≡ NoMemory) }
    {
        let Ok(mut places) = Vec::with_capacity(alloc, entries) else {
            return Err(SiteFault::NoMemory);
        };
        for _ in 0..entries {
            places.push_reserved(Place::new(alloc, config.room, config.bytes, now)?);
        }
        Ok(Site {
            pause: config.pause,
            places,
        })
    }

    /// From now on a device is to be as the command says: an OUT or LED of one record, a BUZ or a TEXT. It stands in place of what was wanted of the same output,
    /// LED, buzzer or text before. Where the device is online, the next `act` submits it; and once again after each opening of its session.
    ///
    /// NoEntry (P2); else Several (P4) for several outputs or LEDs; Timed (P5) for what lasts for a time: an output with control 5 or 6, an LED with a temporary
    /// state, a sound that is counted, a text with command 3 or 4; NoState (P6) for a command that says no state: an output with control 0 or above 6, an LED whose
    /// permanent control isn't 1, tone 0, a text with another command, and each other kind of command; else TooLong (P7) for a command that has more bytes than the
    /// panel has room for, which would never go out and would keep all states after it waiting; else Full (P3) where as many states are wanted as there is room
    /// for. Nothing has changed then.
    pub fn wants(&mut self, entry: EntryNumber, command: &Command<'_>) -> Result<(), SiteFault>
        ensures result { result ≡ unless_refused (wants_refusal_at entry command.now self.old) }
        ensures site { self.new ≡ changed_unless (wants_refusal_at entry command.now self.old) self.old (wants_at entry command.now self.old) }
    {
        if entry >= self.places.len() {
            return Err(SiteFault::NoEntry);
        }
        self.places[entry].wants(command)
    }

    /// A report of the panel, at the moment at which it came. Where the device is online or offline by it and wasn't before, that is told, once. A session that is
    /// lost or moved makes the next one due after the pause. A report of no entry of this site changes nothing.
    pub fn heed(&mut self, entry: EntryNumber, report: &Report<'_>, now: u64) -> Option<Presence>
        ensures told { result ≡ told_at entry now report.now self.old }
        ensures site { self.new ≡ heeds_at entry now report.now self.old }
    {
        if entry >= self.places.len() {
            return None;
        }
        self.places[entry].heed(report, self.pause, now)
    }

    /// Begins each session that is due. Orders that wait for its device are stale, and are taken back: a program that is to be told of them withdraws them
    /// before. Then what is wanted of each device that is online, and wasn't submitted since its session opened, goes to the panel in the order in which it was
    /// wanted. What the panel refuses, as where its queue is full, and what comes after it is left for the next call. That waits for room that other commands
    /// take, since each state fits into the panel's room (`laws::states_wait_for_others`).
    pub fn act(&mut self, panel: &mut Bus, now: u64)
        ensures site { self.new ≡ (acts now (record { site = self.old; panel = panel.old })).site }
        ensures panel { panel.new ≡ (acts now (record { site = self.old; panel = panel.old })).panel }
    {
        for entry in 0..self.places.len() {
            self.places[entry].act(panel, entry, now);
        }
    }

    /// The earliest moment from which on `act` begins a session. None where each has begun.
    pub fn next_deadline(&self) -> Option<u64>
        ensures { result ≡ next_begin self.now }
    {
        let mut first = None;
        for place in &self.places {
            first = earlier(first, place.begins());
        }
        first
    }

    /// Whether a session of a device is due: the next `act` begins it. A program whose device may be elsewhere sets its address and its rate before. None where
    /// there is no such entry.
    pub fn is_due(&self, entry: EntryNumber, now: u64) -> Option<bool>
        ensures { result ≡ option_map (is_due now) (place_of entry self.now) }
    {
        if entry >= self.places.len() {
            return None;
        }
        Some(self.places[entry].is_due(now))
    }

    /// Whether a device is online, and since when. None where there is no such entry.
    pub fn presence(&self, entry: EntryNumber) -> Option<Presence>
        ensures { result ≡ option_map (λ p. p.presence) (place_of entry self.now) }
    {
        if entry >= self.places.len() {
            return None;
        }
        Some(self.places[entry].presence())
    }

    /// Whether a device is online and all that is wanted of it was submitted since its session opened. None where there is no such entry.
    pub fn is_refreshed(&self, entry: EntryNumber) -> Option<bool>
        ensures { result ≡ option_map is_refreshed (place_of entry self.now) }
    {
        if entry >= self.places.len() {
            return None;
        }
        Some(self.places[entry].is_refreshed())
    }
}
