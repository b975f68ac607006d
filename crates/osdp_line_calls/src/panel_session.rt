//! A panel that is called by lines.

ghost use Rattle.std.specs.Prelude.{◌≡◌, ◌++◌, ℕ, List, IfErr, IfOk, OnOk, Err, if◌then◌else◌, is_some, option_map, string_bytes};
ghost use Rattle.osdp_bus.specs.Machine.{add_refusal, changed_unless, withdrawal_at};
ghost use Rattle.osdp_bus.specs.Settings.{IsBusConfig};
ghost use Rattle.osdp_panel.specs.Giving.{after_give, after_withdraw, give_refusal};
ghost use Rattle.osdp_panel.specs.Orders.{orders_at};
ghost use Rattle.osdp_panel.specs.Panels.{NewEnds, after_add_at};
ghost use Rattle.osdp_panel.specs.Sending.{after_write, written};
ghost use Rattle.osdp_panel.specs.Telling.{tells};
ghost use Rattle.osdp_line_calls.specs.PanelLines.{Ends, refuses};
ghost use Rattle.osdp_line_calls.specs.PanelSessions.{Called, Comes, Session, answered, does, front_number_at, new_session, overhears, settles, tells_all, ticks_at};
ghost use Rattle.osdp_line_calls.specs.PanelTexts.{refusal_line, report_line, send_line, submit_line, withdrawal_line};

use crate::listener::Listener;
use crate::panel_call::PanelCall;
use crate::panel_say::{
    push_burst, push_due, push_order_refusal, push_refusal, push_report, push_sent, push_waits,
    push_withdrawal,
};
use osdp_bus::{BusConfig, BusFault, EntryNumber};
use osdp_frame::Address;
use osdp_msg::KeptCommand;
use osdp_panel::{Panel, Turn};
use std::alloc::{AllocError, Global};
use std::marker::Model;

/// A panel, the burst of its last tick, the moment of the calls to come, and what is heard beside the panel's bus.
#[derive(Drop)]
pub struct LinePanel {
    pub(crate) panel: Panel,
    turn: Turn,
    pub(crate) now: u64,
    listener: Listener,
}

impl Model for LinePanel {
    ghost Value = { Session };

    ghost view = { λ p. record { panel = p.panel; burst = p.turn; now = p.now; listening = p.listener } };
}

/// Adds a device, or writes why the call is refused.
fn add(panel: &mut Panel, address: Address, next: u64, text: &mut String) -> Result<(), AllocError>
    ensures text { OnOk result (string_bytes text.new ≡ string_bytes text.old ++ refusal_line (add_refusal address panel.old.bus)) }
    ensures panel { OnOk result (panel.new ≡ changed_unless (add_refusal address panel.old.bus) panel.old (after_add_at address next panel.old)) }
{
    match panel.add(address, next) {
        Ok(_) => Ok(()),
        Err(BusFault::NoMemory) => Err(AllocError),
        Err(fault) => push_refusal(text, fault),
    }
}

/// Gives an order, and writes its number, or why it is refused.
fn submit(
    panel: &mut Panel,
    entry: EntryNumber,
    until: u64,
    command: &KeptCommand,
    text: &mut String,
) -> Result<(), AllocError>
    ensures text { OnOk result (string_bytes text.new ≡ string_bytes text.old ++ submit_line entry (give_refusal entry command.now panel.old) (option_map (λ o. o.next) (orders_at entry panel.old))) }
    ensures panel { panel.new ≡ changed_unless (give_refusal entry command.now panel.old) panel.old (after_give entry command.now until panel.old) }
{
    match panel.submit(entry, &command.command(), until) {
        Ok(number) => push_waits(text, entry, number),
        Err(fault) => push_order_refusal(text, entry, fault),
    }
}

/// The number of an entry's order that has waited longest.
fn front_number(panel: &Panel, entry: EntryNumber) -> u64
    ensures { result ≡ front_number_at entry panel.now }
{
    let Some(next) = panel.next_number(entry) else {
        return 0;
    };
    match panel.bus().orders(entry) {
        None => 0,
        Some(count) => next.saturating_sub(count as u64),
    }
}

/// Takes back an order, and writes which, or why the call is refused.
fn withdraw(panel: &mut Panel, entry: EntryNumber, text: &mut String) -> Result<(), AllocError>
    ensures text { OnOk result (string_bytes text.new ≡ string_bytes text.old ++ withdrawal_line entry (front_number_at entry panel.old) (withdrawal_at entry panel.old.bus)) }
    ensures panel { panel.new ≡ after_withdraw entry panel.old }
{
    let number = front_number(panel, entry);
    let told = push_withdrawal(text, entry, number, &panel.withdrawable(entry));
    let _ = panel.withdraw(entry);
    told
}

impl LinePanel {
    /// A panel without devices, at moment 0. A POLL stands between any two orders of a device, whatever the settings say of that.
    ///
    /// OutOfRange (B5) where a setting is out of its range; else NoMemory (B1) where there is none.
    pub fn new(alloc: Global, config: BusConfig) -> Result<LinePanel, BusFault>
        ensures made { IfOk result (λ p. p ≡ new_session config) }
        ensures range { IfOk result (λ p. IsBusConfig config) }
        ensures refused { IfErr result (λ fault. NewEnds config (Err fault)) }
    {
        let panel = Panel::new(alloc, config)?;
        let listener = Listener::new(config.gap);
        Ok(LinePanel {
            panel,
            turn: Turn::new(),
            now: 0,
            listener,
        })
    }

    /// Ticks, and writes that a burst is to go out, where one is.
    fn tick(&mut self, text: &mut String) -> Result<(), AllocError>
        ensures text { OnOk result (string_bytes text.new ≡ string_bytes text.old ++ (ticks_at self.old.now self.old).text) }
        ensures session { self.new ≡ (ticks_at self.old.now self.old).session }
    {
        let is_burst = match self.panel.tick(self.now, &mut self.turn) {
            None => false,
            Some(unsent) => {
                unsent.later();
                true
            }
        };
        push_burst(text, is_burst)
    }

    /// Gives out the bytes of the burst, and writes them, where there are some.
    fn write(&mut self, text: &mut String) -> Result<(), AllocError>
        ensures text { OnOk result (string_bytes text.new ≡ string_bytes text.old ++ send_line (written self.old.now self.old.burst self.old.panel)) }
        ensures session { self.new ≡ record self.old { panel = after_write self.old.now self.old.panel } }
    {
        let bytes = self.panel.give(self.now, &self.turn);
        push_sent(text, bytes)
    }
}

impl LinePanel {
    /// Writes what a call lets be heard beside the bus: a reply that a session passes over while it isn't open.
    pub(crate) fn listen(&mut self, call: &PanelCall, text: &mut String) -> Result<(), AllocError>
        ensures text { OnOk result (string_bytes text.new ≡ string_bytes text.old ++ (overhears call.now self.old).text) }
        ensures session { OnOk result (self.new ≡ record self.old { listening = (overhears call.now self.old).after }) }
    {
        match call {
            PanelCall::Bytes(list) => {
                self.listener
                    .hear_bytes(self.panel.bus(), list.as_slice(), self.now, text)
            }
            PanelCall::Begin(entry) => {
                self.listener.hear_begin(self.panel.bus(), *entry, self.now);
                Ok(())
            }
            PanelCall::Silence => {
                self.listener.see(self.now);
                self.listener.hear_end(self.panel.bus(), text)
            }
            PanelCall::Tick => {
                self.listener.see(self.now);
                self.listener.hear_silence(self.panel.bus(), text)
            }
            PanelCall::Write => {
                self.listener.see(self.now);
                Ok(())
            }
            PanelCall::At(_)
            | PanelCall::Add(..)
            | PanelCall::Submit(..)
            | PanelCall::Withdraw(_)
            | PanelCall::Retarget(..) => Ok(()),
        }
    }

    /// Does what a call orders, and writes what comes of it at once.
    pub(crate) fn call(&mut self, call: PanelCall, text: &mut String) -> Result<(), AllocError>
        ensures { OnOk result (Comes (string_bytes text.old) (string_bytes text.new) self.new (does call self.old)) }
    {
        match call {
            PanelCall::At(now) => self.now = now,
            PanelCall::Add(address, next) => return add(&mut self.panel, address, next, text),
            PanelCall::Begin(entry) => {
                if let Err(fault) = self.panel.begin(entry, self.now) {
                    return push_refusal(text, fault);
                }
            }
            PanelCall::Submit(entry, until, command) => {
                return submit(&mut self.panel, entry, until, &command, text);
            }
            PanelCall::Withdraw(entry) => return withdraw(&mut self.panel, entry, text),
            PanelCall::Retarget(entry, address) => {
                if let Err(fault) = self.panel.retarget(entry, address) {
                    return push_refusal(text, fault);
                }
            }
            PanelCall::Bytes(list) => self.panel.hear(list.as_slice(), self.now),
            PanelCall::Silence => self.panel.silence(self.now),
            PanelCall::Tick => return self.tick(text),
            PanelCall::Write => return self.write(text),
        }
        Ok(())
    }

    /// Takes the first report that there is, and writes it. Whether there was one; else nothing changes.
    fn tell_first(&mut self, text: &mut String) -> Result<bool, AllocError>
        ensures some { IfOk result (λ is. is ≡ is_some (tells self.old.panel)) }
        ensures text { OnOk result (string_bytes text.new ≡ string_bytes text.old ++ report_line (tells self.old.panel)) }
        ensures session { OnOk result (self.new ≡ (if is_some (tells self.old.panel) then settles self.old else self.old)) }
    {
        let Some(report) = self.panel.report() else {
            return Ok(false);
        };
        self.listener.hear_report(&self.panel.bus().report());
        push_report(text, &report)?;
        self.panel.settle();
        Ok(true)
    }

    /// Takes all reports that there are, and writes each.
    pub(crate) fn tell(&mut self, text: &mut String) -> Result<(), AllocError>
        ensures text { OnOk result (string_bytes text.new ≡ string_bytes text.old ++ (tells_all self.old).text) }
        ensures session { OnOk result (self.new ≡ (tells_all self.old).session) }
    {
        'reports: while self.tell_first(text)? {}
        Ok(())
    }

    /// Writes the moment of the next turn, which ends an answer.
    pub(crate) fn end(&mut self, text: &mut String) -> Result<(), AllocError>
        ensures { (before : List ℕ) (done : Called) → OnOk result (Comes before (string_bytes text.old) self.old done
            → (c : Called) × Ends done c × Comes before (string_bytes text.new) self.new c) }
    {
        let due = self.panel.next_deadline();
        push_due(text, due)
    }

    /// Answers a call: writes what is passed over, does what it orders, writes the lines that tell what came of it and each report, and the one that ends the answer.
    ///
    /// After an error, which is one of memory, the text has a beginning of the answer; what the call changed stays so, and a report that was
    /// being written still waits.
    pub fn answer(&mut self, call: PanelCall, text: &mut String) -> Result<(), AllocError>
        ensures { OnOk result ((c : Called) × Ends (answered call self.old) c × Comes (string_bytes text.old) (string_bytes text.new) self.new c) }
    {
        self.listen(&call, text)?;
        self.call(call, text)?;
        self.tell(text)?;
        self.end(text)
    }

    /// Answers a line that is no call: nothing changes.
    pub(crate) fn refuse(&mut self, text: &mut String) -> Result<(), AllocError>
        ensures { OnOk result ((c : Called) × Ends (refuses self.old) c × Comes (string_bytes text.old) (string_bytes text.new) self.new c) }
    {
        text.push_str("refused line\n")?;
        self.end(text)
    }
}
