//! A reader's handle.

ghost use Rattle.std.specs.Prelude.{◌≡◌, ◌==◌, not, Option, None, Some, IsSome, is_some, option_map};
ghost use Rattle.std.specs.Coded.{coded_option};
ghost use Rattle.osdp_c_values.specs.declared.machine.ReaderMachine.{ReaderMachine as Held};
ghost use Rattle.osdp_c_values.specs.contracts.machine.ReaderMachine.{the_row};
ghost use Rattle.osdp_c_values.specs.Owning.{slot_owns};

use crate::loose::Loose;
use crate::machine::ReaderMachine;
use std::alloc::Global;
use std::marker::Model;
use std::mem::replace;
use std::ptr::null_mut;

/// Where a reader is, if there is one. What it owns is freed by no drop: a machine is taken out before.
#[repr(C)]
#[derive(Drop)]
pub struct ReaderSlot {
    at: *mut u8,
    pub ghost machine: { Option Held } by { coded_option the_row.coded },
}

impl Model for ReaderSlot {
    ghost also_owns = { λ s. slot_owns the_row s.at s.machine };
}

impl ReaderSlot {
    /// No reader.
    fn none() -> ReaderSlot
        ensures { result.machine ≡ None }
    {
        ReaderSlot { at: null_mut() }
    }

    /// A reader.
    fn of(machine: Loose<ReaderMachine, Global>) -> ReaderSlot
        ensures { result.machine ≡ Some machine.value }
    {
        let Loose { at, alloc: _ } = machine;
        ReaderSlot { at: at as *mut u8 }
    }

    /// The reader that is there.
    fn into_loose(self, alloc: Global) -> Loose<ReaderMachine, Global>
        requires { IsSome self.machine }
        ensures { self.machine ≡ Some result.value }
    {
        let ReaderSlot { at } = self;
        Loose {
            at: at as *mut ReaderMachine,
            alloc,
        }
    }
}

/// A reader's handle. All zeros is none.
#[repr(C)]
#[derive(Drop)]
pub struct DeviceHandle {
    /// Where the reader is.
    pub slot: ReaderSlot,
    live: usize,
    ghost agrees: { not (live == 0) ≡ is_some slot.machine },
}

impl DeviceHandle {
    /// Whether there is a reader.
    pub fn is_live(&mut self) -> bool
        ensures result { result ≡ is_some self.old.slot.machine }
        ensures same { self.new ≡ self.old }
    {
        self.live != 0
    }

    /// Takes the reader out, where there is one. The handle is none then.
    pub fn take(&mut self, alloc: Global) -> Option<Box<ReaderMachine>>
        ensures machine { option_map (λ b. b.value) result ≡ self.old.slot.machine }
        ensures none { self.new.slot.machine ≡ None }
    {
        if self.live == 0 {
            return None;
        }
        let none = DeviceHandle {
            slot: ReaderSlot::none(),
            live: 0,
        };
        let DeviceHandle { slot, live: _ } = replace(self, none);
        Some(slot.into_loose(alloc).into_box())
    }

    /// Puts a reader in.
    pub fn put(&mut self, machine: Box<ReaderMachine>)
        requires { self.old.slot.machine ≡ None }
        ensures { self.new.slot.machine ≡ Some machine.value }
    {
        *self = DeviceHandle {
            slot: ReaderSlot::of(Loose::of(machine)),
            live: 1,
        };
    }
}
