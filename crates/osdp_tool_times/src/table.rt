//! What is counted of the answers of a device.

ghost use Rattle.std.specs.Prelude.{◌≡◌, ◌<◌, ◌≤◌, length};
ghost use Rattle.osdp_tool_times.specs.Times.{after_further, after_in_time, after_late, after_missed, after_packet, after_told, answer_told, answered_number, below, greater, half_below, lesser, most_below, no_times, one_more, packet_told, step_at, step_of};

use crate::presence::{Presence, is_busy};
use crate::waits::{Sent, Told, Waits};
use osdp_frame::FrameView;

/// So many steps there are.
const STEPS: usize = 64;

/// What is counted of the answers of a device. A count stays at the greatest number of 64 bits.
#[derive(Clone, Copy, Debug, PartialEq, Eq)]
pub struct Times {
    /// Answers that came within the panel's wait.
    pub answers: u64,
    /// The least of their times, in milliseconds.
    pub least: u64,
    /// The greatest.
    pub most: u64,
    /// Answers that came late.
    pub late: u64,
    /// The greatest of their times, in milliseconds.
    pub took: u64,
    /// Packets after which the panel went on without an answer.
    pub missed: u64,
    /// The shortest time that it waited then, in milliseconds.
    pub waited: u64,
    /// How many answers took 0 to 4 milliseconds, 5 to 9 and so on; the last has all that took longer.
    pub steps: [u64; 64],
    /// What is open.
    pub waits: Waits,
    /// When it answered, and its restarts.
    pub presence: Presence,
}

/// One more.
pub(crate) fn one_more(count: u64) -> u64
    ensures { result ≡ one_more count }
{
    if count < u64::MAX { count + 1 } else { count }
}

/// The lesser one.
fn lesser(a: u64, b: u64) -> u64
    ensures { result ≡ lesser a b }
{
    if a <= b { a } else { b }
}

/// The greater one.
fn greater(a: u64, b: u64) -> u64
    ensures { result ≡ greater a b }
{
    if a <= b { b } else { a }
}

/// The step that an answer time stands in.
fn step_of(time: u64) -> usize
    ensures value { result ≡ step_of time }
    ensures within { result < 64 }
{
    lesser(time / 5, 63) as usize
}

/// The step in which the answer of this rank stands.
fn step_at(rank: u64, counts: &[u64]) -> usize
    ensures value { result ≡ step_at rank counts.now }
    ensures within { result ≤ length counts.now }
{
    let mut left = rank;
    let mut step = 0;
    'steps: while step < counts.len() {
        if left <= counts[step] {
            return step;
        }
        left -= counts[step];
        step += 1;
    }
    step
}

/// The number of the packet that a reply answers: BUSY answers the last one.
fn answered_number(packet: &FrameView<'_>, last: Option<Sent>) -> u8
    ensures { result ≡ answered_number packet.now last }
{
    match last {
        None => packet.seq().get(),
        Some(last) => {
            if is_busy(packet) {
                last.number
            } else {
                packet.seq().get()
            }
        }
    }
}

/// What a reply tells.
fn answer_told(packet: &FrameView<'_>, moment: u64, waits: Waits) -> Told
    ensures { result ≡ answer_told packet.now moment waits }
{
    if is_busy(packet) && waits.is_doubtful() {
        return Told::Nothing;
    }
    waits.told_reply(answered_number(packet, waits.last), moment)
}

impl Times {
    /// Nothing came.
    pub const NONE: Times = Times {
        answers: 0,
        least: 0,
        most: 0,
        late: 0,
        took: 0,
        missed: 0,
        waited: 0,
        steps: [0; STEPS],
        waits: Waits::NONE,
        presence: Presence::NONE,
    };

    /// An answer took so long.
    fn count_in_time(&mut self, time: u64)
        ensures { self.new ≡ after_in_time time self.old }
    {
        self.least = if self.answers == 0 {
            time
        } else {
            lesser(time, self.least)
        };
        self.most = greater(time, self.most);
        self.answers = one_more(self.answers);
        let step = step_of(time);
        self.steps[step] = one_more(self.steps[step]);
    }

    /// A late answer took so long.
    fn count_late(&mut self, time: u64)
        ensures { self.new ≡ after_late time self.old }
    {
        self.late = one_more(self.late);
        self.took = greater(time, self.took);
    }

    /// The panel sends a packet at this moment: where the one before had no answer, it has waited from that.
    fn count_missed(&mut self, moment: u64)
        ensures { self.new ≡ after_missed self.old.waits.first self.old.waits.last moment self.old }
    {
        let (None, Some(last)) = (self.waits.first, self.waits.last) else {
            return;
        };
        let waited = moment.saturating_sub(last.moment);
        self.waited = if self.missed == 0 {
            waited
        } else {
            lesser(waited, self.waited)
        };
        self.missed = one_more(self.missed);
    }

    /// What a reply tells is counted.
    fn count(&mut self, told: Told)
        ensures { self.new ≡ after_told told self.old }
    {
        match told {
            Told::Nothing => {}
            Told::InTime(time) => self.count_in_time(time),
            Told::Late(took, _) => self.count_late(took),
        }
    }

    /// A packet to the device or from it came at this moment, where it is known. What it tells.
    pub fn take(&mut self, packet: &FrameView<'_>, moment: Option<u64>) -> Told
        ensures told { result ≡ packet_told packet.now moment self.old }
        ensures after { self.new ≡ after_packet packet.now moment self.old }
    {
        let Some(moment) = moment else {
            self.waits = Waits::NONE;
            return Told::Nothing;
        };
        let waits = self.waits;
        let mut presence = self.presence;
        presence.take(packet, moment);
        if packet.is_reply() {
            let number = answered_number(packet, waits.last);
            let told = answer_told(packet, moment, waits);
            self.count(told);
            self.waits = waits.after_reply(number, moment);
            self.presence = presence;
            told
        } else {
            self.count_missed(moment);
            let number = packet.seq().get();
            self.waits = waits.after_sent(Sent { moment, number });
            self.presence = presence;
            Told::Nothing
        }
    }

    /// A further packet of a run comes, at this moment of the run where it is known.
    pub fn take_further(&mut self, packet: &FrameView<'_>, moment: Option<u64>)
        ensures { self.new ≡ after_further packet.now moment self.old }
    {
        self.waits = Waits::NONE;
        let Some(moment) = moment else {
            return;
        };
        let mut presence = self.presence;
        presence.take(packet, moment);
        self.presence = presence;
    }

    /// All answers up to this rank, the fastest being of rank 1, took less than so many milliseconds.
    fn below(&self, rank: u64) -> u64
        ensures { result ≡ below rank self.now }
    {
        let step = step_at(rank, &self.steps);
        if step >= 63 {
            one_more(self.most)
        } else {
            5 * (step as u64 + 1)
        }
    }

    /// Half of the answers took less than so many milliseconds.
    pub fn half_below(&self) -> u64
        ensures { result ≡ half_below self.now }
    {
        self.below(self.answers - self.answers / 2)
    }

    /// 95 of 100 answers took less than so many milliseconds.
    pub fn most_below(&self) -> u64
        ensures { result ≡ most_below self.now }
    {
        self.below(self.answers - self.answers / 20)
    }
}
