//! What was heard of a packet.

ghost use Rattle.std.specs.Prelude.{◌≡◌, OnOk, Some, string_bytes};
ghost use Rattle.osdp_test_script.specs.Runs.{Comes, again, answer_taken, asks_user, first_after, goes_on, heard_by, heard_exchange, hears, is_again, is_put_off, is_seen, known_heard, poll_heard, poll_taken, polls, settled, since_of, tells_user, with_heard};
ghost use Rattle.osdp_test_script.specs.declared.run.Exchange.{Exchange as Sent};

use crate::awaited::Awaited;
use crate::call::Term;
use crate::judging::{expect_text, view};
use crate::refusal::Refusal;
use crate::run::{Awaits, Exchange, Fault, Heard, ScriptRun, TRIES, UserWait};
use crate::say::{push_send, push_verdict, push_wait};
use crate::seen::Seen;
use crate::sending::{new_exchange, packet_of, push_sent};
use osdp_frame::{Address, Frame, FrameView};
use osdp_msg::Command;
use osdp_rules::{Known, is_busy, takes_nothing};
use std::alloc::{AllocError, Global};
use std::mem::replace;

/// So long, in milliseconds, nothing goes out between two POLLs that wait for a user.
const PAUSE: u32 = 50;

/// What is known after what was heard of a packet.
fn known_heard(
    known: Known,
    fault: Fault,
    packet: &FrameView<'_>,
    answer: &Option<FrameView<'_>>,
) -> Known
    ensures { result ≡ known_heard fault packet.now answer.now known }
{
    match (fault, answer) {
        (Fault::Whole | Fault::Lost, _) => known.after(packet.address(), packet, answer),
        (Fault::Damaged(_), None) => known,
        (Fault::Damaged(_), Some(answer)) => {
            if takes_nothing(answer) {
                known
            } else {
                Known::Unknown
            }
        }
    }
}

/// The first answer that says something of the packet.
fn first_after(first: Option<Frame>, answer: &Option<Frame>) -> Option<Frame>
    ensures { result ≡ first_after first answer.now }
{
    if first.is_some() {
        return first;
    }
    match answer {
        None => None,
        Some(answer) => {
            if takes_nothing(&answer.view()) {
                None
            } else {
                Some(answer.copy())
            }
        }
    }
}

/// The answer that is judged.
fn heard_by(fault: Fault, answer: Option<Frame>) -> Option<Frame>
    ensures { result ≡ heard_by fault answer }
{
    match fault {
        Fault::Lost => None,
        Fault::Whole | Fault::Damaged(_) => answer,
    }
}

/// Whether nothing was heard, or BUSY.
fn is_put_off(answer: &Option<FrameView<'_>>) -> bool
    ensures { result ≡ is_put_off answer.now }
{
    match answer {
        None => true,
        Some(answer) => is_busy(answer),
    }
}

/// Whether the packet goes out again.
fn is_again(fault: Fault, left: u8, answer: &Option<FrameView<'_>>) -> bool
    ensures { result ≡ is_again fault left answer.now }
{
    matches!(fault, Fault::Whole) && (left > 0 && is_put_off(answer))
}

/// Whether an answer is what the user is to make the device say.
fn is_seen(awaited: Awaited, answer: &Option<FrameView<'_>>) -> bool
    ensures { result ≡ is_seen awaited answer.now }
{
    match answer {
        None => false,
        Some(answer) => awaited.code() == Some(answer.code()),
    }
}

/// When the first POLL was sent.
fn since_of(since: Option<u64>, moment: u64) -> u64
    ensures { result ≡ since_of since moment }
{
    since.unwrap_or(moment)
}

/// What was sent, with what was heard of it.
fn heard_exchange(fault: Fault, heard: Heard, exchange: Exchange) -> Exchange
    ensures { result ≡ heard_exchange fault heard exchange }
{
    let first = first_after(exchange.first, &heard.answer);
    Exchange {
        sent: exchange.sent,
        first,
        heard: heard_by(fault, heard.answer),
        moment: heard.moment,
        delay: heard.delay,
    }
}

impl ScriptRun {
    /// What was heard of the packet is kept.
    fn note(&mut self, fault: Fault, heard: Heard, exchange: Exchange)
        ensures { self.new ≡ with_heard fault heard exchange self.old }
    {
        let known = replace(&mut self.known, Known::Unknown);
        self.known = known_heard(known, fault, &exchange.sent.view(), &view(&heard.answer));
        self.exchange = Some(heard_exchange(fault, heard, exchange));
    }

    /// The packet goes out again.
    fn go_again(&mut self, awaits: Awaits, text: &mut String) -> Result<(), AllocError>
        ensures { OnOk result ((x : Sent) → self.old.exchange ≡ Some x → Comes (string_bytes text.old) (string_bytes text.new) self.new (again awaits x.sent self.old)) }
    {
        self.awaits = awaits;
        match &self.exchange {
            None => Ok(()),
            Some(exchange) => push_sent(text, Fault::Whole, &exchange.sent),
        }
    }

    /// The verdict on what a user was to make the device say.
    fn tell_user(
        &mut self,
        alloc: Global,
        seen: Seen,
        wait: UserWait,
        text: &mut String,
    ) -> Result<(), AllocError>
        ensures { OnOk result ((x : Sent) → self.old.exchange ≡ Some x → Comes (string_bytes text.old) (string_bytes text.new) self.new (tells_user seen wait x self.old)) }
    {
        self.awaits = Awaits::Nothing;
        let Some(exchange) = &self.exchange else {
            return Ok(());
        };
        let says = expect_text(alloc, wait.awaited, Term::FromUser(wait.time))?;
        push_verdict(text, wait.line, seen, says.as_str(), exchange)?;
        self.counts = self.counts.counted(seen);
        Ok(())
    }

    /// A POLL goes out.
    fn poll(
        &mut self,
        wait: UserWait,
        address: Address,
        text: &mut String,
    ) -> Result<(), AllocError>
        ensures { OnOk result (Comes (string_bytes text.old) (string_bytes text.new) self.new (polls wait address self.old)) }
    {
        let sent = packet_of(
            address,
            self.known.next_number(),
            self.check,
            &Command::Poll,
        );
        push_wait(text, PAUSE)?;
        push_sent(text, Fault::Whole, &sent)?;
        self.exchange = Some(new_exchange(sent, None));
        self.awaits = Awaits::User(wait);
        self.fault = Fault::Whole;
        Ok(())
    }

    /// The device is polled until its user has done this.
    pub(crate) fn ask_user(
        &mut self,
        awaited: Awaited,
        time: u32,
        text: &mut String,
    ) -> Result<(), AllocError>
        ensures { OnOk result (Comes (string_bytes text.old) (string_bytes text.new) self.new (asks_user awaited time self.old.device self.old)) }
    {
        let Some(address) = self.device else {
            return self.refuse(Refusal::NoDevice, text);
        };
        let wait = UserWait {
            line: self.line,
            awaited,
            time,
            since: None,
            tries: TRIES,
        };
        self.poll(wait, address, text)
    }

    /// The time is over, or the device is polled on.
    fn go_on(
        &mut self,
        alloc: Global,
        wait: UserWait,
        moment: u64,
        text: &mut String,
    ) -> Result<(), AllocError>
        ensures { OnOk result ((x : Sent) → self.old.exchange ≡ Some x → Comes (string_bytes text.old) (string_bytes text.new) self.new (goes_on wait moment x self.old)) }
    {
        let since = since_of(wait.since, moment);
        if moment >= since && moment - since >= u64::from(wait.time) {
            return self.tell_user(alloc, Seen::Unclear, wait, text);
        }
        let mut next = wait;
        next.since = Some(since);
        next.tries = TRIES;
        let Some(exchange) = &self.exchange else {
            return Ok(());
        };
        let address = exchange.sent.view().address();
        self.poll(next, address, text)
    }

    /// What was heard of a packet of the script: `is_again` where it goes out again.
    fn take_answer(
        &mut self,
        fault: Fault,
        left: u8,
        is_again: bool,
        text: &mut String,
    ) -> Result<(), AllocError>
        ensures { OnOk result ((x : Sent) → self.old.exchange ≡ Some x → Comes (string_bytes text.old) (string_bytes text.new) self.new (answer_taken is_again fault left x self.old)) }
    {
        if is_again {
            return self.go_again(Awaits::Answer(fault, left.saturating_sub(1)), text);
        }
        self.awaits = Awaits::Nothing;
        Ok(())
    }

    /// What was heard of a POLL that waits for a user.
    fn take_poll(
        &mut self,
        alloc: Global,
        wait: UserWait,
        moment: u64,
        is_again: bool,
        text: &mut String,
    ) -> Result<(), AllocError>
        ensures { OnOk result ((x : Sent) → self.old.exchange ≡ Some x → Comes (string_bytes text.old) (string_bytes text.new) self.new (poll_taken is_again wait moment x self.old)) }
    {
        if !is_again {
            return self.go_on(alloc, wait, moment, text);
        }
        let mut next = wait;
        next.since = Some(since_of(wait.since, moment));
        next.tries = wait.tries.saturating_sub(1);
        self.go_again(Awaits::User(next), text)
    }

    /// What was heard of a POLL that waits for a user.
    fn hear_poll(
        &mut self,
        alloc: Global,
        wait: UserWait,
        heard: Heard,
        exchange: Exchange,
        text: &mut String,
    ) -> Result<(), AllocError>
        ensures { OnOk result (Comes (string_bytes text.old) (string_bytes text.new) self.new (poll_heard wait heard exchange self.old)) }
    {
        let is_seen = is_seen(wait.awaited, &view(&heard.answer));
        let is_again = is_again(Fault::Whole, wait.tries, &view(&heard.answer));
        let moment = heard.moment;
        self.note(Fault::Whole, heard, exchange);
        if is_seen {
            return self.tell_user(alloc, Seen::Ok, wait, text);
        }
        self.take_poll(alloc, wait, moment, is_again, text)
    }

    /// What was heard of the last packet.
    pub(crate) fn hear(
        &mut self,
        alloc: Global,
        heard: Heard,
        text: &mut String,
    ) -> Result<(), AllocError>
        ensures { OnOk result (Comes (string_bytes text.old) (string_bytes text.new) self.new (hears heard self.old)) }
    {
        let awaits = self.awaits;
        let Some(exchange) = self.exchange.take() else {
            return self.refuse(Refusal::NothingAwaited, text);
        };
        match awaits {
            Awaits::Answer(fault, left) => {
                let is_again = is_again(fault, left, &view(&heard.answer));
                self.note(fault, heard, exchange);
                self.take_answer(fault, left, is_again, text)
            }
            Awaits::User(wait) => self.hear_poll(alloc, wait, heard, exchange, text),
            Awaits::Nothing => {
                self.exchange = Some(exchange);
                self.refuse(Refusal::NothingAwaited, text)
            }
        }
    }

    /// What was waited for is over.
    pub(crate) fn settle(&mut self, alloc: Global, text: &mut String) -> Result<(), AllocError>
        ensures { OnOk result (Comes (string_bytes text.old) (string_bytes text.new) self.new (settled self.old)) }
    {
        match (self.awaits, &self.exchange) {
            (Awaits::User(wait), Some(_)) => self.tell_user(alloc, Seen::Unclear, wait, text),
            _ => {
                self.awaits = Awaits::Nothing;
                Ok(())
            }
        }
    }
}
