//! A panel under test, line by line.

ghost use Rattle.std.specs.Prelude.{◌≡◌, Some, map, IfOk, OnOk};
ghost use Rattle.osdp_tool_test.specs.Entries.{told};
ghost use Rattle.osdp_tool_test.specs.Lines.{skip_of};
ghost use Rattle.osdp_tool_test_panel.specs.Lines.{said_of};
ghost use Rattle.osdp_tool_test_panel.specs.Rules.{fresh_from};
ghost use Rattle.osdp_tool_test_panel.specs.Tests.{after_bytes, after_exchange, after_hearing, after_packet_of, after_naming, after_said, asked_for, judged_entry, model, new_test, skipped_entry};

use crate::fault::push_fault;
use crate::rules::PanelRule;
use crate::said::Said;
use osdp_frame::{Address, FrameView};
use osdp_panel_rules::{Known, judged};
use osdp_tool_test::{Entry, Exchange, Form, Skip, packets, rule_of};
use std::alloc::{AllocError, Global};
use std::mem::replace;

/// What was read of a test so far.
#[derive(Drop)]
pub(crate) struct Tested {
    form: Form,
    rules: &'static [PanelRule],
    address: Address,
    known: Known,
    /// The exchange before.
    before: Option<Exchange>,
    /// What was found of each rule.
    entries: Vec<Entry>,
}

/// The rule for which the device spoke before; 0 where for none.
fn asked_for(before: &Option<Exchange>) -> u8
    ensures { result ≡ asked_for before.now }
{
    match before {
        Some(last) => last.number,
        None => 0,
    }
}

/// Judges a rule by a packet, where it is judged by all packets, or where the device spoke for it before this one.
fn judge_entry(
    entry: &mut Entry,
    form: Form,
    rules: &[PanelRule],
    address: Address,
    known: &Known,
    before: &Option<Exchange>,
    packet: &FrameView<'_>,
    exchange: &Exchange,
) -> Result<(), AllocError>
    ensures { OnOk result (told entry.new ≡ judged_entry form rules.now address known.now before.now packet.now exchange.now (told entry.old)) }
{
    let Some(rule) = rule_of(rules, entry.number) else {
        return Ok(());
    };
    if !rule.is_always && entry.number != usize::from(asked_for(before)) {
        return Ok(());
    }
    let found = judged(rule.aspect, address, known, packet, exchange.moment);
    if entry.judge(found) {
        push_fault(&mut entry.fault, form, rule.aspect, before, exchange)?;
    }
    Ok(())
}

/// Judges each rule by a packet.
fn judge_all(
    entries: &mut [Entry],
    form: Form,
    rules: &[PanelRule],
    address: Address,
    known: &Known,
    before: &Option<Exchange>,
    packet: &FrameView<'_>,
    exchange: &Exchange,
) -> Result<(), AllocError>
    ensures { OnOk result (map told entries.new ≡ map (judged_entry form rules.now address known.now before.now packet.now exchange.now) (map told entries.old)) }
{
    'entries: for entry in entries.iter_mut() {
        judge_entry(entry, form, rules, address, known, before, packet, exchange)?;
    }
    Ok(())
}

/// The scenario of a rule was left out.
fn skip_entry(entry: &mut Entry, skip: Skip<'_>) -> Result<(), AllocError>
    ensures { OnOk result (told entry.new ≡ skipped_entry (skip_of skip.entry) (told entry.old)) }
{
    if entry.number == usize::from(skip.number) {
        entry.skipped.clear();
        entry.skipped.push_str(skip.why)?;
    }
    Ok(())
}

/// Of these rules the scenario of one was left out.
fn skip_in(entries: &mut [Entry], skip: Skip<'_>) -> Result<(), AllocError>
    ensures { OnOk result (map told entries.new ≡ map (skipped_entry (skip_of skip.entry)) (map told entries.old)) }
{
    'entries: for entry in entries.iter_mut() {
        skip_entry(entry, skip)?;
    }
    Ok(())
}

/// Each rule, of which nothing was found yet.
fn first_entries(alloc: Global, rules: &[PanelRule]) -> Result<Vec<Entry>, AllocError>
    ensures { IfOk result (λ entries. map told entries.items ≡ fresh_from 1 rules.now) }
{
    let mut entries = Vec::new(alloc);
    let mut number: usize = 0;
    'rules: for rule in rules {
        number += 1;
        entries.push(Entry::new(alloc, number, rule.says, rule.ground))?;
    }
    Ok(entries)
}

/// What is known after the device has said bytes.
fn after_bytes(known: Known, said: &[u8]) -> Known
    ensures { result ≡ after_bytes said.now known }
{
    if said.is_empty() {
        return known;
    }
    let found = packets(said, false);
    match found.view() {
        Some(packet) => known.after_said(&packet),
        None => known.after_noise(),
    }
}

impl Tested {
    /// Nothing was read yet.
    pub(crate) fn new(
        alloc: Global,
        form: Form,
        rules: &'static [PanelRule],
    ) -> Result<Tested, AllocError>
        ensures { IfOk result (λ test. model test ≡ new_test form rules.now) }
    {
        let entries = first_entries(alloc, rules)?;
        Ok(Tested {
            form,
            rules,
            address: Address::new(0).unwrap(),
            known: Known::nothing(),
            before: None,
            entries,
        })
    }

    /// The device gets an address: what was before counts no more.
    fn name(&mut self, address: Address)
        ensures { model self.new ≡ after_naming address (model self.old) }
    {
        self.address = address;
        self.known = Known::nothing();
        self.before = None;
    }

    /// The device has said bytes.
    fn hear(&mut self, said: &[u8])
        ensures { model self.new ≡ after_hearing said.now (model self.old) }
    {
        let known = replace(&mut self.known, Known::nothing());
        self.known = after_bytes(known, said);
    }

    /// A packet of the panel: the rules are judged by it, and what is known follows it.
    fn take_packet(&mut self, packet: &FrameView<'_>, exchange: &Exchange) -> Result<(), AllocError>
        ensures { OnOk result (model self.new ≡ after_packet_of exchange.now (Some packet.now) (model self.old)) }
    {
        judge_all(
            self.entries.as_mut_slice(),
            self.form,
            self.rules,
            self.address,
            &self.known,
            &self.before,
            packet,
            exchange,
        )?;
        let known = replace(&mut self.known, Known::nothing());
        self.known = known.after_packet(self.address, packet, exchange.moment);
        Ok(())
    }

    /// An exchange: the packet is judged, and what is known follows it and what was said.
    fn take(&mut self, exchange: Exchange) -> Result<(), AllocError>
        ensures { OnOk result (model self.new ≡ after_exchange exchange (model self.old)) }
    {
        let found = packets(exchange.sent.as_slice(), false);
        if let Some(packet) = found.view() {
            self.take_packet(&packet, &exchange)?;
        }
        self.hear(exchange.heard.as_slice());
        self.before = Some(exchange);
        Ok(())
    }

    /// What a line says.
    pub(crate) fn take_said(&mut self, said: Said<'_>) -> Result<(), AllocError>
        ensures { OnOk result (model self.new ≡ after_said (Some (said_of said.entry)) (model self.old)) }
    {
        match said {
            Said::Device(address) => self.name(address),
            Said::Hears(exchange) => self.take(exchange)?,
            Said::Says(more) => self.hear(more.said.as_slice()),
            Said::Skips(skip) => skip_in(self.entries.as_mut_slice(), skip)?,
        }
        Ok(())
    }

    /// What was found of each rule.
    pub(crate) fn end(self) -> Vec<Entry>
        ensures { map told result.items ≡ (model self).entries }
    {
        self.entries
    }
}
