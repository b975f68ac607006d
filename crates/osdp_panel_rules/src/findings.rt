//! What the next packet of a panel shows of each rule.

ghost use Rattle.std.specs.Prelude.{◌≡◌};
ghost use Rattle.osdp_panel_rules.specs.Findings.{again_finding, copy_anew, copy_finding, damage_finding, is_order, lapse_finding, online_finding, refusal_finding, taken_finding, turn_finding, wait_finding};

use crate::sequel::Sequel;
use osdp_frame::FrameView;
use osdp_rules::Finding;

/// A number is 0, the last one or the next.
pub(crate) fn turn_finding(sequel: Sequel) -> Finding
    ensures { result ≡ turn_finding sequel }
{
    match sequel {
        Sequel::Next => Finding::Kept,
        Sequel::Out => Finding::Broken,
        Sequel::Again | Sequel::Anew | Sequel::Altered => Finding::Nothing,
    }
}

/// A packet with the last number, which isn't 0, is the last packet.
pub(crate) fn copy_finding(sequel: Sequel) -> Finding
    ensures { result ≡ copy_finding sequel }
{
    match sequel {
        Sequel::Again => Finding::Kept,
        Sequel::Altered => Finding::Broken,
        Sequel::Anew | Sequel::Next | Sequel::Out => Finding::Nothing,
    }
}

/// Without an answer the packet comes again; a new session is left open.
pub(crate) fn again_finding(sequel: Sequel) -> Finding
    ensures { result ≡ again_finding sequel }
{
    match sequel {
        Sequel::Again => Finding::Kept,
        Sequel::Anew => Finding::Either,
        Sequel::Next => Finding::Broken,
        Sequel::Altered | Sequel::Out => Finding::Nothing,
    }
}

/// Whether NAK 1 is an answer is left open.
pub(crate) fn damage_finding(sequel: Sequel) -> Finding
    ensures { result ≡ damage_finding sequel }
{
    match sequel {
        Sequel::Again => Finding::Kept,
        Sequel::Anew | Sequel::Next => Finding::Either,
        Sequel::Altered | Sequel::Out => Finding::Nothing,
    }
}

/// A copy begins a session where it has number 0, and else tells nothing, since what was said may be lost.
fn copy_anew(number: u8) -> Finding
    ensures { result ≡ copy_anew number }
{
    if number == 0 {
        Finding::Kept
    } else {
        Finding::Nothing
    }
}

/// After NAK 4 a session begins with number 0, and no other packet comes.
pub(crate) fn refusal_finding(number: u8, sequel: Sequel) -> Finding
    ensures { result ≡ refusal_finding number sequel }
{
    match sequel {
        Sequel::Again => copy_anew(number),
        Sequel::Anew => Finding::Kept,
        Sequel::Next | Sequel::Altered | Sequel::Out => Finding::Broken,
    }
}

/// So it does after a long silence. Another packet with the last number is a wrong copy.
pub(crate) fn lapse_finding(number: u8, sequel: Sequel) -> Finding
    ensures { result ≡ lapse_finding number sequel }
{
    match sequel {
        Sequel::Again => copy_anew(number),
        Sequel::Anew => Finding::Kept,
        Sequel::Altered => Finding::Nothing,
        Sequel::Next | Sequel::Out => Finding::Broken,
    }
}

/// An answer is followed by the next number; a copy tells nothing.
pub(crate) fn taken_finding(sequel: Sequel) -> Finding
    ensures { result ≡ taken_finding sequel }
{
    match sequel {
        Sequel::Next => Finding::Kept,
        Sequel::Anew => Finding::Either,
        Sequel::Again | Sequel::Altered | Sequel::Out => Finding::Nothing,
    }
}

/// A packet comes again 200 ms later at the soonest. The clocks of both ends may differ by 50 ms.
pub(crate) fn wait_finding(wait: u64) -> Finding
    ensures { result ≡ wait_finding wait }
{
    if wait >= 200 {
        Finding::Kept
    } else if wait >= 150 {
        Finding::Either
    } else {
        Finding::Broken
    }
}

/// The next packet comes within 8 seconds. The clocks of both ends may differ by 500 ms.
pub(crate) fn online_finding(wait: u64) -> Finding
    ensures { result ≡ online_finding wait }
{
    if wait <= 8000 {
        Finding::Kept
    } else if wait <= 8500 {
        Finding::Either
    } else {
        Finding::Broken
    }
}

/// Whether a packet is an order: all commands but POLL, ID, CAP and the status commands.
pub(crate) fn is_order(packet: &FrameView<'_>) -> bool
    ensures { result ≡ is_order packet.now }
{
    packet.code() >= 0x68
}
