//! What goes out.

ghost use Rattle.std.specs.Prelude.{◌≡◌, ◌≤◌, ◌++◌, OnOk, false, length, string_bytes};
ghost use Rattle.osdp_frame.specs.Packed.{packed};
ghost use Rattle.osdp_test_script.specs.Runs.{Comes, damaged, goes_out, new_exchange, packet_of, sent_line};

use crate::run::{Awaits, Exchange, Fault, ScriptRun, TRIES};
use crate::say::push_send;
use osdp_frame::{Address, Burst, CheckKind, Frame, FrameView, Header, Seq};
use osdp_msg::{Command, MAX_MESSAGE, Spelling};
use std::alloc::AllocError;

/// The packet with this body.
fn frame_of(address: Address, number: Seq, check: CheckKind, body: &[u8]) -> Frame
    requires some { 1 ≤ length body.now }
    requires room { length body.now ≤ MAX_MESSAGE }
    ensures { result ≡ packed false address number check false 0 body.now }
{
    // The calls bring in that both are in their ranges.
    let _ranges = (address.get(), number.get());
    let head = Header::plain(false, address, number, check);
    FrameView::new(head, body).unwrap().to_frame()
}

/// The packet of a command.
pub(crate) fn packet_of(
    address: Address,
    number: Seq,
    check: CheckKind,
    command: &Command<'_>,
) -> Frame
    ensures { result ≡ packet_of address number check command.now }
{
    let mut body = Spelling::new();
    command.write_into(&mut body);
    frame_of(address, number, check, body.as_slice())
}

/// Inverts the byte at a place, counted from 1, and the last where there are fewer.
fn damage(list: &mut Burst, fault: Fault)
    ensures { list.new.items ≡ damaged fault list.old.items }
{
    if let Fault::Damaged(place) = fault {
        let bytes = list.as_mut_slice();
        let at = usize::from(place).min(bytes.len()).saturating_sub(1);
        if at < bytes.len() {
            bytes[at] = 255 - bytes[at];
        }
    }
}

/// Writes the bytes of a packet, with what is done to it.
#[tactic(auto, using(osdp_frame::proofs::Spelled::spelled_is))]
pub(crate) fn push_sent(text: &mut String, fault: Fault, packet: &Frame) -> Result<(), AllocError>
    ensures { OnOk result (string_bytes text.new ≡ string_bytes text.old ++ sent_line fault packet.now) }
{
    let mut list = packet.encode();
    damage(&mut list, fault);
    push_send(text, list.as_slice())
}

/// A packet that has gone out.
pub(crate) fn new_exchange(sent: Frame, first: Option<Frame>) -> Exchange
    ensures { result ≡ new_exchange sent first }
{
    Exchange {
        sent,
        first,
        heard: None,
        moment: 0,
        delay: 0,
    }
}

impl ScriptRun {
    /// A packet goes out, and its answer is waited for.
    pub(crate) fn go_out(
        &mut self,
        sent: Frame,
        first: Option<Frame>,
        text: &mut String,
    ) -> Result<(), AllocError>
        ensures { OnOk result (Comes (string_bytes text.old) (string_bytes text.new) self.new (goes_out sent first self.old)) }
    {
        push_sent(text, self.fault, &sent)?;
        self.exchange = Some(new_exchange(sent, first));
        self.awaits = Awaits::Answer(self.fault, TRIES);
        self.fault = Fault::Whole;
        Ok(())
    }
}
