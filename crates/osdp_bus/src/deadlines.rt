//! How long a bus may wait.

ghost use Rattle.std.specs.Prelude.{◌≡◌, ◌==◌, ◌≤◌, ℕ, Some, length, slice_get};
ghost use Rattle.osdp_frame.specs.Silence.{is_silent_for};
ghost use Rattle.osdp_bus.specs.declared.entry.Entry.{Entry};
ghost use Rattle.osdp_bus.specs.Deadlines.{IsDeadline};
ghost use Rattle.osdp_bus.specs.Private.{IsLine, state_of};
ghost use Rattle.osdp_bus.specs.Waits.{IsDueFrom, IsHolderDeadline};

use crate::EntryNumber;
use crate::entry_list::{earlier, earliest, first_holding};
use crate::line::Line;

impl Line {
    /// From when on the line has been silent long enough for a run to be over. None where no moment is that late.
    fn silence(&self) -> Option<u64>
        ensures { IsDueFrom (λ at. is_silent_for self.now.config.gap self.now.receiver.last at) self.now.receiver.greatest result }
    {
        let moment = self
            .receiver
            .last()
            .checked_add(u64::from(self.config.gap))?;
        Some(moment.max(self.receiver.greatest()))
    }

    /// From when on the device that holds the line is due, or a run of bytes is over.
    fn holder_deadline(&self, entry: EntryNumber) -> Option<u64>
        ensures { (d : Entry) → slice_get self.now.devices.entries.items entry ≡ Some d
            → IsHolderDeadline (length self.now.receiver.held.bytes == 0) (state_of self.now) d result }
    {
        if entry >= self.devices.entries.len() {
            return None;
        }
        let deadline = self.devices.entries[entry].deadline(self.receiver.greatest());
        if self.receiver.is_empty() {
            deadline
        } else {
            earlier(deadline, self.silence())
        }
    }

    /// The moment at which a tick does something.
    pub(crate) fn next_deadline(&self) -> Option<u64>
        requires { IsLine self.now }
        ensures { IsDeadline (state_of self.now) result }
    {
        let now = self.receiver.greatest();
        if self.devices.report.is_some() {
            return None;
        }
        match first_holding(self.devices.entries.as_slice()) {
            Some(entry) => self.holder_deadline(entry),
            None if self.receiver.is_empty() => { earliest(self.devices.entries.as_slice(), now) }
            None => Some(now),
        }
    }
}
