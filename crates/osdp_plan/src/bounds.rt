//! The figures of a plan.

ghost use Rattle.std.specs.Prelude.{◌≡◌, ℕ, ◌+◌, ◌*◌, ◌≤◌, ◌<◌, ◌^◌};
ghost use Rattle.osdp_plan.specs.Figures.{answered_time, card_wait, exchanges, lost_wait, order_wait, orders_before, poll_round, wire_time};
ghost use Rattle.osdp_plan.specs.Plans.{IsPlan, config_of};
ghost use Rattle.osdp_time_laws.specs.Bounds.{longest_exchange, round_time};
ghost use Rattle.osdp_time_laws.specs.Lines.{turns_time};

use crate::plan::Plan;

/// What the readers do, apart from the one of which a figure is.
#[derive(Clone, Copy, Debug, PartialEq, Eq)]
pub enum Others {
    /// All answer in time.
    Answer,
    /// One of them is silent.
    OneSilent,
    /// Each takes as long as the settings allow, by whatever comes from the line.
    Hostile,
}

/// A time so often.
fn times(count: u64, time: u64) -> u64
    requires count { count ≤ 2 ^ 11 }
    requires time { time ≤ 2 ^ 47 }
    ensures product { result ≡ count * time }
    ensures bound { (most longest : ℕ) → count ≤ most → time ≤ longest → result ≤ most * longest }
{
    count * time
}

impl Plan {
    /// How long so many bytes take on the wire.
    pub fn wire(&self, bytes: u32) -> u64
        requires plan { IsPlan self.now }
        requires bytes { bytes ≤ 2880 }
        ensures time { result ≡ wire_time self.now.rate bytes }
        ensures bound { result ≤ 2 ^ 17 }
    {
        let rate = u64::from(self.rate);
        (u64::from(bytes) * 10_000 + (rate - 1)) / rate
    }

    /// From a packet that is handed out until its answer has been read.
    pub fn answered(&self) -> u64
        requires { IsPlan self.now }
        ensures time { result ≡ answered_time self.now }
        ensures bound { result ≤ 2 ^ 24 }
    {
        let wire = self.wire(self.longest * 2);
        wire + u64::from(self.answer) + u64::from(self.hold) * 2
    }

    /// An exchange that nothing answers.
    pub fn silent(&self) -> u64
        requires { IsPlan self.now }
        ensures time { result ≡ round_time (config_of self.now) self.now.late }
        ensures bound { result ≤ 2 ^ 31 }
    {
        times(
            u64::from(self.sends),
            u64::from(self.reply_wait) + u64::from(self.late),
        )
    }

    /// The longest exchange that the settings allow.
    pub fn longest_exchange(&self) -> u64
        requires { IsPlan self.now }
        ensures time { result ≡ longest_exchange (config_of self.now) self.now.late }
        ensures bound { result ≤ 2 ^ 40 }
    {
        let round = self.silent();
        let again = u64::from(self.busy_wait) + u64::from(self.late) + round;
        round + times(u64::from(self.busy_limit), again)
    }

    /// A turn of each of so many entries.
    fn turns(&self, others: Others, count: u64) -> u64
        requires plan { IsPlan self.now }
        requires count { count ≤ 16 }
        ensures time { result ≡ turns_time self.now.late (exchanges others count self.now) }
        ensures bound { result ≤ 2 ^ 45 }
    {
        let late = u64::from(self.late);
        match others {
            Others::Answer => times(count, self.answered() + late),
            Others::OneSilent => {
                let silent = self.silent() + late;
                silent + times(count.saturating_sub(1), self.answered() + late)
            }
            Others::Hostile => times(count, self.longest_exchange() + late),
        }
    }

    /// From an answer of a reader to the end of its next turn: a round of POLLs, where nothing else passes.
    pub fn poll_round(&self, others: Others) -> u64
        requires { IsPlan self.now }
        ensures time { result ≡ poll_round others self.now }
        ensures bound { result ≤ 2 ^ 45 + 2 ^ 23 }
    {
        let turns = self.turns(others, u64::from(self.readers));
        u64::from(self.poll_interval) + u64::from(self.late) + turns
    }

    /// From an order's acceptance to its first packet.
    pub fn order_wait(&self, others: Others) -> u64
        requires { IsPlan self.now }
        ensures { result ≡ order_wait others self.now }
    {
        let turns = self.turns(others, u64::from(self.readers));
        let each = u64::from(self.poll_interval) + (turns + turns);
        times(u64::from(self.orders) + 1, each)
    }

    /// How many orders come before a card.
    fn orders_before(&self) -> u64
        requires { IsPlan self.now }
        ensures count { result ≡ orders_before self.now }
        ensures bound { result ≤ 1 }
    {
        u64::from(self.orders).min(1)
    }

    /// From a card at a reader to its report.
    pub fn card_wait(&self, others: Others) -> u64
        requires { IsPlan self.now }
        ensures { result ≡ card_wait others self.now }
    {
        let round = self.poll_round(others);
        times(self.orders_before() + 1, round) + self.answered()
    }

    /// From the last answer of a reader that falls silent until it is told lost.
    pub fn lost_wait(&self, others: Others) -> u64
        requires { IsPlan self.now }
        ensures { result ≡ lost_wait others self.now }
    {
        let turns = self.turns(others, u64::from(self.readers).saturating_sub(1));
        u64::from(self.poll_interval)
            + u64::from(self.late)
            + turns
            + (self.silent() + u64::from(self.late))
    }
}
