//! When the packets to a device were sent and answered.

ghost use Rattle.std.specs.Prelude.{◌≡◌};
ghost use Rattle.osdp_tool_times.specs.Waits.{after_reply, after_sent, first_or, in_time, in_time_from, is_copied, is_doubtful, is_of_last, is_of_older, is_settled, late, late_from, no_waits, told_first, told_reply};

/// A packet to a device.
#[derive(Clone, Copy, Debug, PartialEq, Eq)]
pub struct Sent {
    /// Its moment, in milliseconds.
    pub moment: u64,
    /// Its number, 0 to 3.
    pub number: u8,
}

/// What a reply tells.
#[derive(Clone, Copy, Debug, PartialEq, Eq)]
pub enum Told {
    /// No time.
    Nothing,
    /// An answer came before the panel's next packet, after so many milliseconds.
    InTime(u64),
    /// An answer came later than that: so many milliseconds after its packet, and so many the panel waited until its next packet.
    Late(u64, u64),
}

/// What is open between a panel and a device.
#[derive(Clone, Copy, Debug, PartialEq, Eq)]
pub struct Waits {
    /// The packet before that, where an answer to it is owed.
    pub earlier: Option<Sent>,
    /// The packet before the last, where an answer to it is owed.
    pub before: Option<Sent>,
    /// The last packet.
    pub last: Option<Sent>,
    /// The moment of the first answer to it, in milliseconds.
    pub first: Option<u64>,
}

/// An answer time.
fn in_time(sent: u64, answer: u64) -> Told
    ensures { result ≡ in_time sent answer }
{
    if sent <= answer {
        Told::InTime(answer - sent)
    } else {
        Told::Nothing
    }
}

/// What is told of an answer that came after the panel's next packet, and its last one.
fn late(sent: u64, next: u64, last: u64, answer: u64) -> Told
    ensures { result ≡ late sent next last answer }
{
    if sent <= last && last <= answer {
        Told::Late(answer - sent, next.saturating_sub(sent))
    } else {
        Told::Nothing
    }
}

/// What is told of the first answer to the last packet.
fn in_time_from(last: Option<Sent>, answer: u64) -> Told
    ensures { result ≡ in_time_from last answer }
{
    match last {
        None => Told::Nothing,
        Some(last) => in_time(last.moment, answer),
    }
}

/// What is told of a late answer to a packet before, after which the panel sent the next one, and the last one.
fn late_from(before: Option<Sent>, next: Option<Sent>, last: Option<Sent>, answer: u64) -> Told
    ensures { result ≡ late_from before next last answer }
{
    match (before, next, last) {
        (Some(before), Some(next), Some(last)) => {
            late(before.moment, next.moment, last.moment, answer)
        }
        _ => Told::Nothing,
    }
}

/// Whether a reply has the number of a packet before, and the last packet has another.
fn is_of_older(before: Option<Sent>, last: Option<Sent>, number: u8) -> bool
    ensures { result ≡ is_of_older before last number }
{
    match (before, last) {
        (Some(before), Some(last)) => { number == before.number && before.number != last.number }
        _ => false,
    }
}

/// Whether the last packet is the one before once more.
fn is_copied(before: Option<Sent>, last: Option<Sent>) -> bool
    ensures { result ≡ is_copied before last }
{
    match (before, last) {
        (Some(before), Some(last)) => before.number == last.number,
        _ => false,
    }
}

/// Whether a reply has the number of the last packet.
fn is_of_last(last: Option<Sent>, number: u8) -> bool
    ensures { result ≡ is_of_last last number }
{
    match last {
        None => false,
        Some(last) => number == last.number,
    }
}

/// The moment of the first answer.
fn first_or(first: Option<u64>, moment: u64) -> Option<u64>
    ensures { result ≡ first_or first moment }
{
    match first {
        None => Some(moment),
        Some(first) => Some(first),
    }
}

impl Waits {
    /// Nothing is open.
    pub const NONE: Waits = Waits {
        earlier: None,
        before: None,
        last: None,
        first: None,
    };

    /// Whether the last packet is answered, and no answer to a packet before it is owed.
    fn is_settled(self) -> bool
        ensures { result ≡ is_settled self }
    {
        self.first.is_some() && !self.before.is_some()
    }

    /// Whether an answer to a packet before the last one is owed, which is no copy of it.
    pub fn is_doubtful(self) -> bool
        ensures { result ≡ is_doubtful self }
    {
        self.before.is_some() && !is_copied(self.before, self.last)
    }

    /// After a packet to the device.
    pub fn after_sent(self, sent: Sent) -> Waits
        ensures { result ≡ after_sent sent self }
    {
        let last = Some(sent);
        if self.is_settled() {
            return Waits {
                last,
                ..Waits::NONE
            };
        }
        Waits {
            earlier: if self.first.is_some() {
                None
            } else {
                self.before
            },
            before: self.last,
            last,
            first: None,
        }
    }

    /// What a reply to the last packet tells, by the first one.
    fn told_first(self, first: Option<u64>, moment: u64) -> Told
        ensures { result ≡ told_first self first moment }
    {
        let copied = is_copied(self.before, self.last);
        match first {
            None if copied => Told::Nothing,
            None => in_time_from(self.last, moment),
            Some(first) if copied => late_from(self.before, self.last, self.last, first),
            Some(_) => Told::Nothing,
        }
    }

    /// What a reply with this number tells at this moment.
    pub fn told_reply(self, number: u8, moment: u64) -> Told
        ensures { result ≡ told_reply self number moment }
    {
        if is_of_older(self.earlier, self.last, number) {
            late_from(self.earlier, self.before, self.last, moment)
        } else if is_of_older(self.before, self.last, number) {
            late_from(self.before, self.last, self.last, moment)
        } else if is_of_last(self.last, number) {
            self.told_first(self.first, moment)
        } else {
            Told::Nothing
        }
    }

    /// After a reply with this number at this moment.
    pub fn after_reply(self, number: u8, moment: u64) -> Waits
        ensures { result ≡ after_reply number moment self }
    {
        if is_of_older(self.earlier, self.last, number) {
            return Waits {
                earlier: None,
                ..self
            };
        }
        if is_of_older(self.before, self.last, number) {
            return Waits {
                earlier: None,
                before: None,
                ..self
            };
        }
        if !is_of_last(self.last, number) {
            return self;
        }
        let closes = self.first.is_some() || !is_copied(self.before, self.last);
        Waits {
            earlier: None,
            before: if closes { None } else { self.before },
            last: self.last,
            first: first_or(self.first, moment),
        }
    }
}
