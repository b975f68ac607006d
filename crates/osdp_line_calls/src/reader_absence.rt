//! What a device by lines does while its panel is gone.

ghost use Rattle.std.specs.Prelude.{◌≡◌, ◌++◌, OnOk, string_bytes};
ghost use Rattle.osdp_line_calls.specs.ReaderAbsence.{lets_go};
ghost use Rattle.osdp_line_calls.specs.ReaderTexts.{expired_lines};

use crate::reader_say::push_expired;
use osdp_device::{Device, DeviceStatus};
use std::alloc::AllocError;

/// What a device does while its panel is gone: while it is offline.
#[derive(Clone, Copy, Debug, PartialEq, Eq)]
pub struct Absence {
    /// How old an event may become, in milliseconds, up to 3,600,000: an older one leaves. At 0 none does.
    pub expire: u32,
    /// Whether it is told that the panel went, and that it came.
    pub told: bool,
}

/// Lets the events go that are too old at a moment, and writes them.
pub(crate) fn let_go(
    device: &mut Device<DeviceStatus>,
    now: u64,
    limit: u32,
    text: &mut String,
) -> Result<(), AllocError>
    ensures text { OnOk result (string_bytes text.new ≡ string_bytes text.old
        ++ expired_lines (lets_go now limit device.old.reader device.old.ages).expired) }
    ensures reader { OnOk result (device.new.reader ≡ (lets_go now limit device.old.reader device.old.ages).reader) }
    ensures ages { OnOk result (device.new.ages ≡ (lets_go now limit device.old.reader device.old.ages).ages) }
    ensures line { OnOk result (device.new.line ≡ device.old.line) }
{
    'events: while let Some(expired) = device.expiring(now, limit as u64) {
        push_expired(text, &expired)?;
        device.expire_event(now, limit as u64);
    }
    Ok(())
}
