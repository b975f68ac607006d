//! A monitor's handle.

ghost use Rattle.std.specs.Prelude.{◌≡◌, ◌==◌, not, Option, None, Some, IsSome, is_some, option_map};
ghost use Rattle.std.specs.Coded.{coded_option};
ghost use Rattle.osdp_c_values.specs.declared.monitor_machine.MonitorMachine.{MonitorMachine as Held};
ghost use Rattle.osdp_c_values.specs.contracts.monitor_machine.MonitorMachine.{the_row};
ghost use Rattle.osdp_c_values.specs.Owning.{slot_owns};

use crate::loose::Loose;
use crate::monitor_machine::MonitorMachine;
use std::alloc::Global;
use std::marker::Model;
use std::mem::replace;
use std::ptr::null_mut;

/// Where a monitor is, if there is one. What it owns is freed by no drop: a machine is taken out before.
#[repr(C)]
#[derive(Drop)]
pub struct MonitorSlot {
    at: *mut u8,
    pub ghost machine: { Option Held } by { coded_option the_row.coded },
}

impl Model for MonitorSlot {
    ghost also_owns = { λ s. slot_owns the_row s.at s.machine };
}

impl MonitorSlot {
    /// No monitor.
    fn none() -> MonitorSlot
        ensures { result.machine ≡ None }
    {
        MonitorSlot { at: null_mut() }
    }

    /// A monitor.
    fn of(machine: Loose<MonitorMachine, Global>) -> MonitorSlot
        ensures { result.machine ≡ Some machine.value }
    {
        let Loose { at, alloc: _ } = machine;
        MonitorSlot { at: at as *mut u8 }
    }

    /// The monitor that is there.
    fn into_loose(self, alloc: Global) -> Loose<MonitorMachine, Global>
        requires { IsSome self.machine }
        ensures { self.machine ≡ Some result.value }
    {
        let MonitorSlot { at } = self;
        Loose {
            at: at as *mut MonitorMachine,
            alloc,
        }
    }
}

/// A monitor's handle. All zeros is none.
#[repr(C)]
#[derive(Drop)]
pub struct MonitorHandle {
    /// Where the monitor is.
    pub slot: MonitorSlot,
    live: usize,
    ghost agrees: { not (live == 0) ≡ is_some slot.machine },
}

impl MonitorHandle {
    /// Whether there is a monitor.
    pub fn is_live(&mut self) -> bool
        ensures result { result ≡ is_some self.old.slot.machine }
        ensures same { self.new ≡ self.old }
    {
        self.live != 0
    }

    /// Takes the monitor out, where there is one. The handle is none then.
    pub fn take(&mut self, alloc: Global) -> Option<Box<MonitorMachine>>
        ensures machine { option_map (λ b. b.value) result ≡ self.old.slot.machine }
        ensures none { self.new.slot.machine ≡ None }
    {
        if self.live == 0 {
            return None;
        }
        let none = MonitorHandle {
            slot: MonitorSlot::none(),
            live: 0,
        };
        let MonitorHandle { slot, live: _ } = replace(self, none);
        Some(slot.into_loose(alloc).into_box())
    }

    /// Puts a monitor in.
    pub fn put(&mut self, machine: Box<MonitorMachine>)
        requires { self.old.slot.machine ≡ None }
        ensures { self.new.slot.machine ≡ Some machine.value }
    {
        *self = MonitorHandle {
            slot: MonitorSlot::of(Loose::of(machine)),
            live: 1,
        };
    }
}
