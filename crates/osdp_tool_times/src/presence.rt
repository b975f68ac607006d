//! Since when a device answers, or no longer does, and how often it restarted.

ghost use Rattle.std.specs.Prelude.{◌≡◌, ◌<◌};
ghost use Rattle.osdp_tool_times.specs.Presence.{after_answer, after_restart, has_lost, is_busy, is_number_refused, is_offline, online_since, presence_after, restart_seconds};

use crate::table::one_more;
use osdp_frame::{Address, FrameView};

/// The address to which all devices listen, and which is none's own.
pub(crate) const ALL: u64 = Address::CONFIGURATION as u64;

/// So many packets in a row have no answer: the device is offline.
const SILENT: u64 = 3;

/// When a device has answered, and how often it restarted. Moments are in milliseconds.
#[derive(Clone, Copy, Debug, PartialEq, Eq)]
pub struct Presence {
    /// How many packets were sent to it since its last answer.
    pub unanswered: u64,
    /// The moment of its last answer.
    pub last: Option<u64>,
    /// The moment of its first answer, or of the first one after it was offline.
    pub since: Option<u64>,
    /// Whether its last answer but BUSY was NAK 4.
    pub refused: bool,
    /// How often it restarted.
    pub restarts: u64,
    /// The moment of its first restart.
    pub first_restart: u64,
    /// The moment of its last restart.
    pub last_restart: u64,
}

/// Whether a packet is NAK 4.
fn is_number_refused(packet: &FrameView<'_>) -> bool
    ensures { result ≡ is_number_refused packet.now }
{
    let body = packet.body();
    !packet.has_block()
        && (body.get(0).copied().unwrap_or(0) == 0x41 && body.get(1).copied().unwrap_or(0) == 4)
}

/// Whether a packet is BUSY.
pub(crate) fn is_busy(packet: &FrameView<'_>) -> bool
    ensures { result ≡ is_busy packet.now }
{
    let body = packet.body();
    !packet.has_block() && (body.len() == 1 && body.get(0).copied().unwrap_or(0) == 0x79)
}

impl Presence {
    /// Nothing came.
    pub const NONE: Presence = Presence {
        unanswered: 0,
        last: None,
        since: None,
        refused: false,
        restarts: 0,
        first_restart: 0,
        last_restart: 0,
    };

    /// Whether three packets in a row have had no answer.
    pub fn is_offline(&self) -> bool
        ensures { result ≡ is_offline self.now }
    {
        self.unanswered >= SILENT
    }

    /// A restart at this moment.
    fn restart(&mut self, moment: u64)
        ensures { self.new ≡ after_restart moment self.old }
    {
        if self.restarts == 0 {
            self.first_restart = moment;
        }
        self.restarts = one_more(self.restarts);
        self.last_restart = moment;
    }

    /// Since when it is online with an answer at this moment.
    fn online_since(&self, moment: u64) -> Option<u64>
        ensures { result ≡ online_since moment self.now }
    {
        if self.is_offline() || !self.since.is_some() {
            return Some(moment);
        }
        self.since
    }

    /// An answer at this moment, which is NAK 4 or isn't.
    fn answer(&mut self, refused: bool, moment: u64)
        ensures { self.new ≡ after_answer refused moment self.old }
    {
        self.since = self.online_since(moment);
        if refused && !self.refused {
            self.restart(moment);
        }
        self.unanswered = 0;
        self.last = Some(moment);
        self.refused = refused;
    }

    /// Whether the device has lost its number, with an answer: after BUSY that is as it was.
    fn has_lost(&self, packet: &FrameView<'_>) -> bool
        ensures { result ≡ has_lost packet.now self.now }
    {
        if is_busy(packet) {
            self.refused
        } else {
            is_number_refused(packet)
        }
    }

    /// A packet to the device or from it came at this moment.
    pub fn take(&mut self, packet: &FrameView<'_>, moment: u64)
        ensures { self.new ≡ presence_after packet.now moment self.old }
    {
        if packet.is_reply() {
            self.answer(self.has_lost(packet), moment);
        } else {
            self.unanswered = one_more(self.unanswered);
        }
    }

    /// How many seconds lie between one restart and the next, on the whole.
    pub fn restart_seconds(&self) -> u64
        requires { 1 < self.now.restarts }
        ensures { result ≡ restart_seconds self.now }
    {
        let between = self.last_restart.saturating_sub(self.first_restart) / (self.restarts - 1);
        between / 1000 + between % 1000 / 500
    }
}
