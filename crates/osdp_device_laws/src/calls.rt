//! The calls of a device: each does what its call of a list does.

ghost use Rattle.std.specs.Prelude.{◌≡◌, is_some};
ghost use Rattle.osdp_device_laws.specs.Calls.{Call, after_call, answers, kept_of, takes_off};
ghost use Rattle.osdp_device_laws.specs.Calls as line;

use crate::offline_by_calls;
use osdp_device::Device;
use osdp_frame::Burst;
use osdp_msg::Event;
use osdp_reader::{Handler, Kind};

/// Bytes that have come up to a moment.
pub fn take<H: Handler>(device: &mut Device<H>, bytes: &[u8], now: u64) -> usize
    ensures { kept_of device.new ≡ after_call H.answer_of H.after (line.Take bytes.now now) (kept_of device.old) }
{
    device.take(bytes, now)
}

/// Up to a moment no bytes have come.
pub fn tick<H: Handler>(device: &mut Device<H>, now: u64)
    ensures { kept_of device.new ≡ after_call H.answer_of H.after (line.Tick now) (kept_of device.old) }
{
    device.tick(now);
}

/// The caller saw the line silent.
pub fn silence<H: Handler>(device: &mut Device<H>, now: u64)
    ensures { kept_of device.new ≡ after_call H.answer_of H.after (line.Silence now) (kept_of device.old) }
{
    device.silence(now);
}

/// The next answer.
pub fn next<H: Handler>(device: &mut Device<H>, out: &mut Burst) -> Option<Kind>
    ensures device { kept_of device.new ≡ after_call H.answer_of H.after line.Next (kept_of device.old) }
    ensures answers { is_some result ≡ answers line.Next (kept_of device.old) }
{
    offline_by_calls::<H>();
    device.next(out)
}

/// Whether the next packet has a command that the program decides.
pub fn pending<H: Handler>(device: &mut Device<H>) -> bool
    ensures { kept_of device.new ≡ after_call H.answer_of H.after line.Pending (kept_of device.old) }
{
    device.pending()
}

/// An event that came at a moment.
pub fn submit_event<H: Handler>(device: &mut Device<H>, event: &Event<'_>, now: u64) -> bool
    ensures { kept_of device.new ≡ after_call H.answer_of H.after (line.SubmitEvent event.now now) (kept_of device.old) }
{
    device.submit_event(event, now)
}

/// The oldest event that was never offered is taken back.
pub fn withdraw_event<H: Handler>(device: &mut Device<H>) -> bool
    ensures { kept_of device.new ≡ after_call H.answer_of H.after line.WithdrawEvent (kept_of device.old) }
{
    device.withdraw_event()
}

/// The oldest event goes where it was ever offered.
pub fn lapse_event<H: Handler>(device: &mut Device<H>) -> bool
    ensures { kept_of device.new ≡ after_call H.answer_of H.after line.LapseEvent (kept_of device.old) }
{
    device.lapse_event()
}

/// The oldest event goes where it is too old.
pub fn expire_event<H: Handler>(device: &mut Device<H>, now: u64, limit: u64) -> bool
    ensures device { kept_of device.new ≡ after_call H.answer_of H.after (line.ExpireEvent now limit) (kept_of device.old) }
    ensures off { result ≡ takes_off now limit (kept_of device.old) }
{
    device.expire_event(now, limit)
}

/// Whether the reader is busy.
pub fn set_busy<H: Handler>(device: &mut Device<H>, busy: bool)
    ensures { kept_of device.new ≡ after_call H.answer_of H.after (line.SetBusy busy) (kept_of device.old) }
{
    device.set_busy(busy);
}

/// Another handler.
pub fn set_handler<H: Handler>(device: &mut Device<H>, handler: H) -> H
    ensures { kept_of device.new ≡ after_call H.answer_of H.after (line.SetHandler handler) (kept_of device.old) }
{
    device.set_handler(handler)
}
