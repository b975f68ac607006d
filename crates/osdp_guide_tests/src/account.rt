//! What was ordered, taken, settled, queued and reported of one device, by numbers, and the promises asked of it.

use osdp_controller::Report;
use osdp_msg::{Command, Event, NakReason, OutputRecord, Reply};
use osdp_names::named::output;
use std::process::Abort;

/// How many orders, and how many events, a device is given at most.
pub const MOST: usize = 200;

/// What became of an order.
#[derive(Clone, Copy, PartialEq)]
pub enum Fate {
    /// Nothing was told of it yet.
    Waits,
    /// It was told settled.
    Settled,
    /// It was told lost with its session: whether it was taken is unknown.
    Unsettled,
    /// It was taken back before it was sent.
    Withdrawn,
    /// A restart of the panel threw it away.
    ThrownAway,
}

/// Orders and events have the numbers from 0 on, each kind by itself.
#[derive(Drop)]
pub struct Account {
    /// How many orders were issued.
    pub issued: usize,
    fates: [Fate; MOST],
    is_taken: [bool; MOST],
    /// One more than the number of the order taken last, or 0; the same of the order settled last.
    next_taken: usize,
    next_settled: usize,
    /// How many orders were settled.
    pub settled: usize,
    /// How many events were queued.
    pub queued: usize,
    is_thrown_away: [bool; MOST],
    /// One more than the number of the event reported last, or 0.
    next_reported: usize,
    /// How many events were reported, repeats of an opening apart.
    pub reported: usize,
    /// Whether the session has just opened, so that the event reported last may come once more.
    pub may_repeat: bool,
}

/// What the order of this number says: one of an even number switches output 0, which is there, and one of an odd number output 1, which is not.
pub fn order(rt: &impl Abort, number: usize) -> OutputRecord {
    OutputRecord {
        output: u8::from(number % 2 == 1),
        control: output::ON_FOR_A_TIME,
        timer: u16::try_from(number).ok().expect(rt, "a timer"),
    }
}

/// The number of an order.
pub fn number_of(rt: &impl Abort, command: &Command<'_>) -> usize {
    match command {
        Command::Output(outputs) => {
            let mut records = outputs.records();
            let record = records.next().expect(rt, "a record");
            usize::from(record.timer)
        }
        _ => panic!(rt; "no order of ours"),
    }
}

/// The byte of the card that is the event of this number.
pub fn card(rt: &impl Abort, number: usize) -> u8 {
    u8::try_from(number).ok().expect(rt, "a byte")
}

/// Whether an answer is the one that the device gives to the order of this number: done, or refused as out of range.
fn is_its_answer(reply: &Reply<'_>, number: usize) -> bool {
    match reply {
        Reply::Ack => number % 2 == 0,
        Reply::Nak(nak) => number % 2 == 1 && nak.reason() == NakReason::RecordNotProcessed,
        _ => false,
    }
}

impl Account {
    pub fn new() -> Account {
        Account {
            issued: 0,
            fates: [Fate::Waits; MOST],
            is_taken: [false; MOST],
            next_taken: 0,
            next_settled: 0,
            settled: 0,
            queued: 0,
            is_thrown_away: [false; MOST],
            next_reported: 0,
            reported: 0,
            may_repeat: false,
        }
    }

    /// An order that waited has this fate from now on.
    fn ends(&mut self, rt: &impl Abort, number: usize, fate: Fate) {
        let own = self
            .fates
            .get_mut(number)
            .expect(rt, "an order that was issued");
        assert!(rt; *own == Fate::Waits, "order {number} ends twice");
        *own = fate;
    }

    /// The device has taken the order of this number: no order before it is open, and none is taken twice, or after a later one.
    pub fn takes(&mut self, rt: &impl Abort, number: usize) {
        assert!(rt;
            number >= self.next_taken && number < self.issued,
            "order {number} is taken again, or too late"
        );
        for fate in self.fates.iter().take(number) {
            assert!(rt; *fate != Fate::Waits, "an order before {number} is open");
        }
        *self.is_taken.get_mut(number).expect(rt, "an order") = true;
        self.next_taken = number.saturating_add(1);
    }

    /// An order was told settled: it was taken, in its order, and the answer is the device's.
    fn settles(&mut self, rt: &impl Abort, command: &Command<'_>, reply: &Reply<'_>) {
        let number = number_of(rt, command);
        assert!(rt;
            self.is_taken.get(number) == Some(&true),
            "order {number} is settled and was not taken"
        );
        assert!(rt;
            number >= self.next_settled,
            "order {number} is settled too late"
        );
        assert!(rt;
            is_its_answer(reply, number),
            "order {number} has another answer"
        );
        self.ends(rt, number, Fate::Settled);
        self.next_settled = number.saturating_add(1);
        self.settled = self.settled.saturating_add(1);
    }

    /// The order that waited longest was taken back.
    pub fn withdraws(&mut self, rt: &impl Abort, command: &Command<'_>) {
        self.ends(rt, number_of(rt, command), Fate::Withdrawn);
    }

    /// An event was reported: the next one that no restart threw away, or at an opening once more the last one.
    fn reports(&mut self, rt: &impl Abort, number: usize) {
        let is_repeat = self.may_repeat && number.saturating_add(1) == self.next_reported;
        self.may_repeat = false;
        if is_repeat {
            assert!(rt;
                self.is_thrown_away.get(number) == Some(&false),
                "event {number} comes again after a restart"
            );
            return;
        }
        assert!(rt;
            number >= self.next_reported && number < self.queued,
            "event {number} comes twice, or too late"
        );
        for is_thrown_away in self
            .is_thrown_away
            .iter()
            .take(number)
            .skip(self.next_reported)
        {
            assert!(rt; *is_thrown_away, "an event before {number} was skipped");
        }
        self.next_reported = number.saturating_add(1);
        self.reported = self.reported.saturating_add(1);
    }

    /// A report of the panel.
    pub fn hears(&mut self, rt: &impl Abort, report: &Report<'_>) {
        match report {
            Report::Opened(_) | Report::Lost(_, None) => {}
            Report::Settled(command, reply) => self.settles(rt, command, reply),
            Report::Lost(_, Some(command)) => self.ends(
                rt,
                number_of(rt, command),
                Fate::Unsettled,
            ),
            Report::Event(Event::Raw(card)) => {
                let byte = card.bytes().first().expect(rt, "a byte");
                self.reports(rt, usize::from(*byte));
            }
            Report::Event(_) | Report::Moved(..) | Report::PollAnswered(_) | Report::Unread(..) => {
                panic!(rt; "a report that nothing here brings about")
            }
        }
    }

    /// The device was made anew: what it had queued and the panel hasn't reported is thrown away.
    pub fn loses_events(&mut self) {
        let (from, until) = (self.next_reported, self.queued);
        for is_thrown_away in self.is_thrown_away.iter_mut().take(until).skip(from) {
            *is_thrown_away = true;
        }
    }

    /// The panel was made anew: what was open is thrown away.
    pub fn loses_orders(&mut self) {
        for fate in self.fates.iter_mut().take(self.issued) {
            if *fate == Fate::Waits {
                *fate = Fate::ThrownAway;
            }
        }
    }

    /// Each order before the one taken last was taken, or was told lost, withdrawn or thrown away.
    pub fn is_accounted_for(&self, rt: &impl Abort) {
        for (fate, is_taken) in self
            .fates
            .iter()
            .zip(self.is_taken.iter())
            .take(self.next_taken)
        {
            assert!(rt;
                *is_taken || *fate != Fate::Waits && *fate != Fate::Settled,
                "an order was skipped"
            );
        }
    }
}
