//! The calls that a panel's program makes for one device.

ghost use Rattle.std.specs.Prelude.{◌≡◌, ◌<◌, None, Some, IfErr, OnOk, length, slice_get};
ghost use Rattle.osdp_controller.specs.Hearing.{comset_of};
ghost use Rattle.osdp_bus.specs.declared.entry.Entry.{Entry};
ghost use Rattle.osdp_bus.specs.Machine.{after_begin_at, after_retarget_at, after_submit_at, after_withdraw_at, begin_refusal_at, changed_unless, is_comset_refused, is_withdrawn_at, leads_nowhere, order_refusal_at, retarget_refusal_at, submit_refusal_at, unless_refused, withdrawal_at};
ghost use Rattle.osdp_bus.specs.Private.{IsLine, state_of};

use crate::EntryNumber;
use crate::entry::comset_of;
use crate::entry_list::is_taken_beside;
use crate::fault::BusFault;
use crate::line::Line;
use osdp_frame::Address;
use osdp_msg::{Command, Communication};

/// Whether a COMSET goes to an address that no device has.
fn leads_nowhere(asked: Option<Communication>) -> bool
    ensures { result ≡ leads_nowhere asked }
{
    match asked {
        None => false,
        Some(asked) => asked.address >= Address::CONFIGURATION,
    }
}

impl Line {
    /// Why a session of the device of an entry may not begin.
    fn begin_refusal(&self, entry: EntryNumber) -> Option<BusFault>
        ensures { result ≡ begin_refusal_at entry (state_of self.now) }
    {
        if entry >= self.devices.entries.len() {
            return Some(BusFault::NoEntry);
        }
        if !self.devices.entries[entry].controller.is_closed() {
            return Some(BusFault::NotClosed);
        }
        None
    }

    /// Begins a session of the device of an entry.
    pub(crate) fn begin(&mut self, entry: EntryNumber, now: u64) -> Result<(), BusFault>
        requires { IsLine self.old }
        ensures result { result ≡ unless_refused (begin_refusal_at entry (state_of self.old)) }
        ensures line { state_of self.new ≡ changed_unless (begin_refusal_at entry (state_of self.old)) (state_of self.old) (after_begin_at entry now (state_of self.old)) }
        ensures kept { IsLine self.new }
    {
        if let Some(fault) = self.begin_refusal(entry) {
            return Err(fault);
        }
        self.receiver.see(now);
        self.devices.entries[entry].begin(self.receiver.greatest());
        Ok(())
    }

    /// Whether a COMSET is refused: another device takes its address up, or one is reserved for this device.
    fn is_comset_refused(&self, entry: EntryNumber, command: &Command<'_>) -> bool
        requires { entry < length self.now.devices.entries.items }
        ensures { (d : Entry) → slice_get self.now.devices.entries.items entry ≡ Some d → result ≡ is_comset_refused (comset_of command.now) entry d (state_of self.now) }
    {
        match comset_of(command) {
            None => false,
            Some(asked) => {
                is_taken_beside(self.devices.entries.as_slice(), entry, asked.address)
                    || self.devices.entries[entry].has_reserved()
            }
        }
    }

    /// Puts a command after those that wait for the device of an entry.
    pub(crate) fn submit(
        &mut self,
        entry: EntryNumber,
        command: &Command<'_>,
    ) -> Result<(), BusFault>
        requires { IsLine self.old }
        ensures ok { OnOk result (submit_refusal_at entry command.now (state_of self.old) ≡ None) }
        ensures accepted { OnOk result (state_of self.new ≡ after_submit_at entry command.now (state_of self.old)) }
        ensures err { IfErr result (λ fault. submit_refusal_at entry command.now (state_of self.old) ≡ Some fault) }
        ensures same { IfErr result (λ fault. state_of self.new ≡ state_of self.old) }
        ensures kept { IsLine self.new }
    {
        if entry >= self.devices.entries.len() {
            return Err(BusFault::NoEntry);
        }
        if self.is_comset_refused(entry, command) {
            return Err(BusFault::AddressTaken);
        }
        self.devices.entries[entry].submit(command)
    }

    /// The same for a panel's order, which is no COMSET to an address that no device has.
    pub(crate) fn order(
        &mut self,
        entry: EntryNumber,
        command: &Command<'_>,
    ) -> Result<(), BusFault>
        requires { IsLine self.old }
        ensures ok { OnOk result (order_refusal_at entry command.now (state_of self.old) ≡ None) }
        ensures accepted { OnOk result (state_of self.new ≡ after_submit_at entry command.now (state_of self.old)) }
        ensures err { IfErr result (λ fault. order_refusal_at entry command.now (state_of self.old) ≡ Some fault) }
        ensures same { IfErr result (λ fault. state_of self.new ≡ state_of self.old) }
        ensures kept { IsLine self.new }
    {
        if entry >= self.devices.entries.len() {
            return Err(BusFault::NoEntry);
        }
        if leads_nowhere(comset_of(command)) {
            return Err(BusFault::AddressOutOfRange);
        }
        self.submit(entry, command)
    }

    /// The command that may be withdrawn of the device of an entry.
    pub(crate) fn withdrawable(&self, entry: EntryNumber) -> Result<Option<Command<'_>>, BusFault>
        ensures { result ≡ withdrawal_at entry (state_of self.now) }
    {
        if entry >= self.devices.entries.len() {
            return Err(BusFault::NoEntry);
        }
        Ok(self.devices.entries[entry].withdrawable())
    }

    /// Takes it back. Whether there was one.
    pub(crate) fn withdraw(&mut self, entry: EntryNumber) -> Result<bool, BusFault>
        requires { IsLine self.old }
        ensures result { result ≡ is_withdrawn_at entry (state_of self.old) }
        ensures line { state_of self.new ≡ after_withdraw_at entry (state_of self.old) }
        ensures kept { IsLine self.new }
    {
        if entry >= self.devices.entries.len() {
            return Err(BusFault::NoEntry);
        }
        Ok(self.devices.entries[entry].withdraw())
    }

    /// Why the device of an entry may not go to this address.
    fn retarget_refusal(&self, entry: EntryNumber, address: Address) -> Option<BusFault>
        ensures { result ≡ retarget_refusal_at entry address (state_of self.now) }
    {
        if entry >= self.devices.entries.len() {
            return Some(BusFault::NoEntry);
        }
        if !self.devices.entries[entry].controller.is_closed() {
            return Some(BusFault::NotClosed);
        }
        if address.get() >= Address::CONFIGURATION {
            return Some(BusFault::OutOfRange);
        }
        if is_taken_beside(self.devices.entries.as_slice(), entry, address.get())
            || self.devices.entries[entry].controller.has_waiting_comset()
        {
            return Some(BusFault::AddressTaken);
        }
        None
    }

    /// Sets the address of the device of an entry.
    pub(crate) fn retarget(&mut self, entry: EntryNumber, address: Address) -> Result<(), BusFault>
        requires { IsLine self.old }
        ensures result { result ≡ unless_refused (retarget_refusal_at entry address (state_of self.old)) }
        ensures line { state_of self.new ≡ changed_unless (retarget_refusal_at entry address (state_of self.old)) (state_of self.old) (after_retarget_at entry address (state_of self.old)) }
        ensures kept { IsLine self.new }
    {
        if let Some(fault) = self.retarget_refusal(entry, address) {
            return Err(fault);
        }
        self.devices.entries[entry].retarget(address);
        Ok(())
    }
}
