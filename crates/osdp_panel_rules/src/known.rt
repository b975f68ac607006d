//! What a device knows of the panel that asks it.

ghost use Rattle.std.specs.Prelude.{◌≡◌};
ghost use Rattle.osdp_panel_rules.specs.Known.{after_noise, after_packet, after_said, after_sent, is_last, nothing_known, said_first};

use crate::said::{Said, says};
use osdp_frame::{Address, Frame, FrameView};
use osdp_rules::same_packet;

/// What a device in a tester's hand knows of the panel that asks it.
#[derive(Drop)]
pub struct Known {
    /// The last packet to the device.
    pub last: Option<Frame>,
    /// The moment, in milliseconds, at which its last copy came.
    pub moment: u64,
    /// Whether an answer to that packet has gone out since its first copy.
    pub answered: bool,
    /// What was said after its last copy.
    pub said: Said,
}

/// Of two things that were said to one packet, the one that counts: the first that speaks to the panel.
fn said_first(first: Said, said: Said) -> Said
    ensures { result ≡ said_first first said }
{
    match first {
        Said::Silence | Said::Noise | Said::Astray => said,
        Said::Busy | Said::Damage | Said::Refusal | Said::Answer => first,
    }
}

impl Known {
    /// Nothing.
    pub fn nothing() -> Known
        ensures { result ≡ nothing_known }
    {
        Known {
            last: None,
            moment: 0,
            answered: false,
            said: Said::Silence,
        }
    }

    /// Whether a packet is the last one once more.
    fn is_last(&self, packet: &FrameView<'_>) -> bool
        ensures { result ≡ is_last self.now.last packet.now }
    {
        match &self.last {
            Some(last) => same_packet(&last.view(), packet),
            None => false,
        }
    }

    /// What is known after a packet to the device.
    fn after_sent(self, packet: &FrameView<'_>, moment: u64) -> Known
        ensures { result ≡ after_sent moment self packet.now }
    {
        let answered = self.is_last(packet) && self.answered;
        Known {
            last: Some(packet.to_frame()),
            moment,
            answered,
            said: Said::Silence,
        }
    }

    /// What is known after a packet that was read on the line at a moment. `address` is the device's.
    pub fn after_packet(self, address: Address, packet: &FrameView<'_>, moment: u64) -> Known
        ensures { result ≡ after_packet address moment self packet.now }
    {
        if packet.is_reply() {
            self
        } else if packet.address().get() == address.get() {
            self.after_sent(packet, moment)
        } else if packet.address().get() == 127 {
            Known::nothing()
        } else {
            self
        }
    }

    /// What is known after the device has said a packet, whether or not the panel heard it.
    pub fn after_said(self, reply: &FrameView<'_>) -> Known
        ensures { result ≡ after_said self reply.now }
    {
        let said = match &self.last {
            Some(last) => says(&last.view(), reply),
            None => return self,
        };
        Known {
            answered: self.answered || said.is_answer(),
            said: said_first(self.said, said),
            moment: self.moment,
            last: self.last,
        }
    }

    /// What is known after it has said bytes that hold no packet.
    pub fn after_noise(self) -> Known
        ensures { result ≡ after_noise self }
    {
        Known {
            answered: self.answered,
            said: said_first(self.said, Said::Noise),
            moment: self.moment,
            last: self.last,
        }
    }
}
