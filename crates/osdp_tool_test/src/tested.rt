//! A device under test, line by line.

ghost use Rattle.std.specs.Prelude.{◌≡◌, ◌==◌, Some, None, map, option_map, IfOk, OnOk};
ghost use Rattle.osdp_tool_test.specs.Entries.{after_shown, told};
ghost use Rattle.osdp_tool_test.specs.Faults.{fault_text};
ghost use Rattle.osdp_tool_test.specs.Lines.{said_of, skip_of};
ghost use Rattle.osdp_tool_test.specs.Rules.{rule_in};
ghost use Rattle.osdp_tool_test.specs.Seen.{in_a_row, seen};
ghost use Rattle.osdp_tool_test.specs.Tests.{after_breaks, after_each, after_exchange, after_keeps, after_said, after_seen, after_times, all_entries, begun_done, begun_entry, left_out, model, new_test, with_entry, with_known, with_run};

use crate::entry::Entry;
use crate::exchange::{Exchange, Skip};
use crate::fault::{push_fault, push_why};
use crate::report::Form;
use crate::rules::{Rule, by_ground, rule_of};
use crate::runs::{Found, packets};
use crate::said::Said;
use crate::times::Times;
use osdp_frame::Address;
use osdp_rules::{Claims, Finding, Heard, Known, shown};
use std::alloc::{AllocError, Global};
use std::mem::replace;

/// What was read of a test so far.
#[derive(Drop)]
pub(crate) struct Tested {
    alloc: Global,
    form: Form,
    rules: &'static [Rule],
    address: Address,
    known: Known,
    /// What it says by CAP.
    claims: Claims,
    times: Times,
    /// The rules whose lines were read.
    done: Vec<Entry>,
    /// The rule whose lines are read.
    current: Option<Entry>,
}

impl Tested {
    /// Nothing was read yet.
    pub(crate) fn new(alloc: Global, form: Form, rules: &'static [Rule]) -> Tested
        ensures { model result ≡ new_test form rules.now }
    {
        Tested {
            alloc,
            form,
            rules,
            address: Address::new(0).unwrap(),
            known: Known::Unknown,
            claims: Claims::none(),
            times: Times::new(alloc),
            done: Vec::new(alloc),
            current: None,
        }
    }

    /// The rule whose lines begin, or go on. What was found of another one is done.
    fn take_entry(&mut self, number: usize, rule: Rule) -> Result<Entry, AllocError>
        ensures entry { IfOk result (λ entry. told entry ≡ begun_entry number rule (option_map told self.old.current)) }
        ensures done { OnOk result (map told self.new.done.items ≡ begun_done number (map told self.old.done.items) (option_map told self.old.current)) }
        ensures form { OnOk result (self.new.form ≡ self.old.form) }
        ensures rules { OnOk result (self.new.rules ≡ self.old.rules) }
        ensures address { OnOk result (self.new.address ≡ self.old.address) }
        ensures known { OnOk result (self.new.known ≡ self.old.known) }
        ensures claims { OnOk result (self.new.claims ≡ self.old.claims) }
        ensures times { OnOk result (self.new.times ≡ self.old.times) }
    {
        if let Some(entry) = self.current.take() {
            if entry.number == number {
                return Ok(entry);
            }
            self.done.push(entry)?;
        }
        Ok(Entry::new(self.alloc, number, rule.says, rule.ground))
    }

    /// The lines of a rule begin, or go on.
    fn open(&mut self, number: usize, rule: Rule) -> Result<(), AllocError>
        ensures { OnOk result (model self.new ≡ with_entry number rule (λ entry. entry) (model self.old)) }
    {
        let entry = self.take_entry(number, rule)?;
        self.current = Some(entry);
        Ok(())
    }

    /// What an exchange shows goes into the verdict on its rule.
    fn ask(&mut self, exchange: &Exchange, rule: Rule, found: Finding) -> Result<(), AllocError>
        ensures { OnOk result (model self.new ≡ with_entry exchange.now.number rule
            (after_shown found (fault_text self.old.form rule.aspect exchange.now)) (model self.old)) }
    {
        let mut entry = self.take_entry(usize::from(exchange.number), rule)?;
        let is_open = entry.is_first_open(found);
        let is_broken = entry.judge(found);
        if is_broken || is_open {
            push_fault(&mut entry.fault, self.form, rule.aspect, exchange)?;
        }
        self.current = Some(entry);
        Ok(())
    }

    /// What is known of the device follows what was sent and heard, and what it says by CAP.
    fn know(&mut self, heard: &Heard<'_>)
        ensures { model self.new ≡ with_known heard.now.packet heard.now.answer (model self.old) }
    {
        if let Some(packet) = &heard.packet {
            self.claims = self
                .claims
                .after(self.address, &self.known, packet, &heard.answer);
            let known = replace(&mut self.known, Known::Unknown);
            self.known = known.after(self.address, packet, &heard.answer);
        }
    }

    /// A packet, or bytes that hold none, and what was heard of it: its rule is judged by it where it is asked for.
    fn take_one(
        &mut self,
        exchange: &Exchange,
        is_asked: bool,
        rule: Rule,
        heard: &Heard<'_>,
    ) -> Result<(), AllocError>
        ensures { OnOk result (model self.new ≡ after_seen is_asked exchange.now rule
            (seen heard.now.packet heard.now.answer heard.now.count heard.now.delay) (model self.old)) }
    {
        if is_asked {
            let found = shown(rule.aspect, self.address, &self.known, &self.claims, heard);
            self.ask(exchange, rule, by_ground(rule.ground, found))?;
        } else {
            self.open(usize::from(exchange.number), rule)?;
        }
        self.know(heard);
        Ok(())
    }

    /// Two packets without a pause between them. Each has its answer where two came; else it isn't known whose answer was heard.
    fn take_row(
        &mut self,
        exchange: &Exchange,
        is_asked: bool,
        rule: Rule,
        sent: &Found,
        answers: &Found,
    ) -> Result<(), AllocError>
        ensures { OnOk result (model self.new ≡ after_each is_asked exchange.now rule
            (in_a_row (sent.now.first, sent.now.second) (answers.now.first, answers.now.second) (answers.now.count == 2) exchange.now.delay) (model self.old)) }
    {
        let (first, second, count) = if answers.count == 2 {
            (answers.view(), answers.second_view(), 1)
        } else {
            (None, None, 0)
        };
        let delay = exchange.delay;
        let heard = Heard {
            packet: sent.view(),
            answer: first,
            count,
            delay,
        };
        self.take_one(exchange, is_asked, rule, &heard)?;
        let heard = Heard {
            packet: sent.second_view(),
            answer: second,
            count,
            delay,
        };
        self.take_one(exchange, is_asked, rule, &heard)
    }

    /// The answer of an exchange is one of the run, where it has one.
    fn time(&mut self, exchange: &Exchange, is_answered: bool) -> Result<(), AllocError>
        ensures { OnOk result (model self.new ≡ with_run exchange.now is_answered (model self.old)) }
    {
        if is_answered {
            self.times.add(self.form, exchange)?;
        }
        Ok(())
    }

    /// An exchange: each of its packets with what was heard of it.
    fn take(&mut self, exchange: &Exchange, is_asked: bool) -> Result<(), AllocError>
        ensures { OnOk result (model self.new ≡ after_exchange is_asked exchange.now (rule_in self.old.rules.now exchange.now.number) (model self.old)) }
    {
        let Some(rule) = rule_of(self.rules, usize::from(exchange.number)) else {
            return Ok(());
        };
        let sent = packets(exchange.sent.as_slice(), false);
        let answers = packets(exchange.heard.as_slice(), true);
        self.time(exchange, sent.first.is_some() && answers.first.is_some())?;
        if sent.count == 2 {
            return self.take_row(exchange, is_asked, rule, &sent, &answers);
        }
        let heard = Heard {
            packet: sent.view(),
            answer: answers.view(),
            count: answers.count,
            delay: exchange.delay,
        };
        self.take_one(exchange, is_asked, rule, &heard)
    }

    /// The scenario of a rule was left out.
    fn skip(&mut self, skip: Skip<'_>) -> Result<(), AllocError>
        ensures { OnOk result (model self.new ≡ left_out (skip_of skip.entry) (rule_in self.old.rules.now skip.entry.number) (model self.old)) }
    {
        let number = usize::from(skip.number);
        let Some(rule) = rule_of(self.rules, number) else {
            return Ok(());
        };
        let mut entry = self.take_entry(number, rule)?;
        entry.skipped.clear();
        entry.skipped.push_str(skip.why)?;
        self.current = Some(entry);
        Ok(())
    }

    /// A rule that is judged by the times of all answers so far.
    fn take_times(&mut self, number: u8) -> Result<(), AllocError>
        ensures { OnOk result (model self.new ≡ after_times number (rule_in self.old.rules.now number) (model self.old)) }
    {
        let number = usize::from(number);
        let Some(rule) = rule_of(self.rules, number) else {
            return Ok(());
        };
        let mut entry = self.take_entry(number, rule)?;
        let _is_first = entry.judge(self.times.finding());
        self.times.push(self.form, &mut entry.fault)?;
        self.current = Some(entry);
        Ok(())
    }

    /// Somebody beside the line saw that a rule is kept.
    fn keep(&mut self, number: u8) -> Result<(), AllocError>
        ensures { OnOk result (model self.new ≡ after_keeps number (rule_in self.old.rules.now number) (model self.old)) }
    {
        let number = usize::from(number);
        let Some(rule) = rule_of(self.rules, number) else {
            return Ok(());
        };
        let mut entry = self.take_entry(number, rule)?;
        let _is_first = entry.judge(Finding::Kept);
        self.current = Some(entry);
        Ok(())
    }

    /// .. or what breaks it.
    fn take_break(&mut self, seen: Skip<'_>) -> Result<(), AllocError>
        ensures { OnOk result (model self.new ≡ after_breaks (skip_of seen.entry) (rule_in self.old.rules.now seen.entry.number) (model self.old)) }
    {
        let number = usize::from(seen.number);
        let Some(rule) = rule_of(self.rules, number) else {
            return Ok(());
        };
        let mut entry = self.take_entry(number, rule)?;
        if entry.judge(Finding::Broken) {
            push_why(&mut entry.fault, self.form, seen.why)?;
        }
        self.current = Some(entry);
        Ok(())
    }

    /// What a line says.
    pub(crate) fn take_said(&mut self, said: &Said<'_>) -> Result<(), AllocError>
        ensures { OnOk result (model self.new ≡ after_said (Some (said_of said.now)) (model self.old)) }
    {
        match said {
            Said::Device(address) => {
                self.address = *address;
                Ok(())
            }
            Said::Opens(exchange) => self.take(exchange, false),
            Said::Asks(exchange) => self.take(exchange, true),
            Said::Skips(skip) => self.skip(*skip),
            Said::Times(number) => self.take_times(*number),
            Said::Keeps(number) => self.keep(*number),
            Said::Breaks(seen) => self.take_break(*seen),
        }
    }

    /// All rules whose lines were read.
    pub(crate) fn end(self) -> Result<Vec<Entry>, AllocError>
        ensures { IfOk result (λ entries. map told entries.items ≡ all_entries (model self)) }
    {
        let Tested { done, current, .. } = self;
        let mut entries = done;
        if let Some(entry) = current {
            entries.push(entry)?;
        }
        Ok(entries)
    }
}
