//! What is planned.

ghost use Rattle.std.specs.Prelude.{◌≡◌};
ghost use Rattle.osdp_plan.specs.Plans.{IsPlan, default_plan, only_polls};

use osdp_frame::CheckKind;

/// A line that is planned. Times are in milliseconds, and settings in the ranges of a controller's.
#[derive(Clone, Copy, Debug, PartialEq, Eq)]
pub struct Plan {
    /// How many readers are on the line, 1 to 16.
    pub readers: u32,
    /// How many bits pass in a second, 300 to 1,000,000.
    pub rate: u32,
    /// Which check the packets end with.
    pub check: CheckKind,
    /// How many bytes the longest packet has, 8 to 1440.
    pub longest: u32,
    /// How long a reader thinks before it answers, at most.
    pub answer: u32,
    /// For how long the line holds a packet back, at most: a driver, an adapter, a network.
    pub hold: u32,
    /// How late the panel's program is.
    pub late: u32,
    /// How many orders of its reader wait before an order or a card, 0 to 1024.
    pub orders: u32,
    /// How long an answer is waited for.
    pub reply_wait: u32,
    /// From an answer to the next POLL.
    pub poll_interval: u32,
    /// How often a packet is sent while no answer comes, 1 to 255.
    pub sends: u32,
    /// From a BUSY to the next send.
    pub busy_wait: u32,
    /// How often a reader may answer BUSY in one exchange, 0 to 255.
    pub busy_limit: u32,
    /// How long a device is left quiet before a session opens.
    pub quiet_wait: u32,
}

impl Plan {
    /// One reader at 9,600 bits a second, by the default settings of a panel.
    pub fn new() -> Plan
        ensures { result ≡ default_plan }
    {
        Plan {
            readers: 1,
            rate: 9600,
            check: CheckKind::Crc,
            longest: 32,
            answer: 5,
            hold: 0,
            late: 1,
            orders: 0,
            reply_wait: 200,
            poll_interval: 50,
            sends: 3,
            busy_wait: 50,
            busy_limit: 20,
            quiet_wait: 400,
        }
    }

    /// The same line while nothing but a POLL and its ACK passes.
    pub fn only_polls(self) -> Plan
        ensures plan { result ≡ only_polls self }
        ensures range { IsPlan self → IsPlan result }
    {
        let longest = if self.check == CheckKind::Sum { 7 } else { 8 };
        Plan { longest, ..self }
    }
}
