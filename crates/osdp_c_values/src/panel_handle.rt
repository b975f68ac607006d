//! A panel's handle.

ghost use Rattle.std.specs.Prelude.{◌≡◌, ◌==◌, not, Option, None, Some, IsSome, is_some, option_map};
ghost use Rattle.std.specs.Coded.{coded_option};
ghost use Rattle.osdp_c_values.specs.declared.machine.PanelMachine.{PanelMachine as Held};
ghost use Rattle.osdp_c_values.specs.contracts.machine.PanelMachine.{the_row};
ghost use Rattle.osdp_c_values.specs.Owning.{slot_owns};

use crate::loose::Loose;
use crate::machine::PanelMachine;
use std::alloc::Global;
use std::marker::Model;
use std::mem::replace;
use std::ptr::null_mut;

/// Where a panel is, if there is one. What it owns is freed by no drop: a machine is taken out before.
#[repr(C)]
#[derive(Drop)]
pub struct PanelSlot {
    at: *mut u8,
    pub ghost machine: { Option Held } by { coded_option the_row.coded },
}

impl Model for PanelSlot {
    ghost also_owns = { λ s. slot_owns the_row s.at s.machine };
}

impl PanelSlot {
    /// No panel.
    fn none() -> PanelSlot
        ensures { result.machine ≡ None }
    {
        PanelSlot { at: null_mut() }
    }

    /// A panel.
    fn of(machine: Loose<PanelMachine, Global>) -> PanelSlot
        ensures { result.machine ≡ Some machine.value }
    {
        let Loose { at, alloc: _ } = machine;
        PanelSlot { at: at as *mut u8 }
    }

    /// The panel that is there.
    fn into_loose(self, alloc: Global) -> Loose<PanelMachine, Global>
        requires { IsSome self.machine }
        ensures { self.machine ≡ Some result.value }
    {
        let PanelSlot { at } = self;
        Loose {
            at: at as *mut PanelMachine,
            alloc,
        }
    }
}

/// A panel's handle. All zeros is none.
#[repr(C)]
#[derive(Drop)]
pub struct PanelHandle {
    /// Where the panel is.
    pub slot: PanelSlot,
    live: usize,
    ghost agrees: { not (live == 0) ≡ is_some slot.machine },
}

impl PanelHandle {
    /// Whether there is a panel.
    pub fn is_live(&mut self) -> bool
        ensures result { result ≡ is_some self.old.slot.machine }
        ensures same { self.new ≡ self.old }
    {
        self.live != 0
    }

    /// Takes the panel out, where there is one. The handle is none then.
    pub fn take(&mut self, alloc: Global) -> Option<Box<PanelMachine>>
        ensures machine { option_map (λ b. b.value) result ≡ self.old.slot.machine }
        ensures none { self.new.slot.machine ≡ None }
    {
        if self.live == 0 {
            return None;
        }
        let none = PanelHandle {
            slot: PanelSlot::none(),
            live: 0,
        };
        let PanelHandle { slot, live: _ } = replace(self, none);
        Some(slot.into_loose(alloc).into_box())
    }

    /// Puts a panel in.
    pub fn put(&mut self, machine: Box<PanelMachine>)
        requires { self.old.slot.machine ≡ None }
        ensures { self.new.slot.machine ≡ Some machine.value }
    {
        *self = PanelHandle {
            slot: PanelSlot::of(Loose::of(machine)),
            live: 1,
        };
    }
}
