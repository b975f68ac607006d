//! What is known of a device from its answers.

ghost use Rattle.std.specs.Prelude.{◌≡◌};
ghost use Rattle.osdp_rules.specs.Known.{after_answer, known_after, last_number, next_number, turn_of};

use crate::packets::{asked, is_comset, is_to, takes_nothing};
use osdp_frame::{Address, Frame, FrameView, Seq};

/// What is known of the device from its last answers.
#[derive(Drop)]
pub enum Known {
    /// A COMSET was sent: it may be anywhere.
    Gone,
    /// Which number it took last is not known.
    Unknown,
    /// It took number 0 last.
    Opened,
    /// It took this packet last, and answered it so.
    Took(Frame, Frame),
}

impl Known {
    /// The number that it took last.
    pub(crate) fn last_number(&self) -> Option<Seq>
        ensures { result ≡ last_number self.now }
    {
        match self {
            Known::Gone | Known::Unknown => None,
            Known::Opened => Some(Seq::new(0).unwrap()),
            Known::Took(sent, _) => Some(sent.view().seq()),
        }
    }

    /// The number of the packet to come: the one after the last that it took, and 0 where that isn't known.
    pub fn next_number(&self) -> Seq
        ensures { result ≡ next_number self.now }
    {
        match self.last_number() {
            None => Seq::new(0).unwrap(),
            Some(last) => last.next(),
        }
    }

    /// What is known after an answer, which tells that the packet was taken, or that it wasn't.
    fn after_answer(self, packet: &FrameView<'_>, answer: &FrameView<'_>) -> Known
        ensures { result ≡ after_answer packet.now answer.now self }
    {
        if takes_nothing(answer) {
            self
        } else if packet.seq().get() == 0 {
            Known::Opened
        } else {
            Known::Took(packet.to_frame(), answer.to_frame())
        }
    }

    /// What is known after a packet and the answer that was heard, if any.
    pub fn after(
        self,
        address: Address,
        packet: &FrameView<'_>,
        heard: &Option<FrameView<'_>>,
    ) -> Known
        ensures { result ≡ known_after address packet.now heard.now self }
    {
        if matches!(self, Known::Gone) || is_comset(&asked(packet)) {
            return Known::Gone;
        }
        if !is_to(address, packet) || packet.has_block() {
            return self;
        }
        match heard {
            None => Known::Unknown,
            Some(answer) => self.after_answer(packet, answer),
        }
    }
}

/// Whose turn a number is.
#[derive(Clone, Copy, Debug, PartialEq, Eq)]
pub enum Turn {
    /// Number 0, or the number after the last.
    New,
    /// The last number.
    Again,
    /// None of these.
    Out,
    /// The last number isn't known.
    NobodyKnows,
}

/// The turn of a number.
pub(crate) fn turn_of(last: Option<Seq>, number: u8) -> Turn
    ensures { result ≡ turn_of last number }
{
    let Some(last) = last else {
        return if number == 0 {
            Turn::New
        } else {
            Turn::NobodyKnows
        };
    };
    if number == 0 {
        Turn::New
    } else if number == last.get() {
        Turn::Again
    } else if number == last.next().get() {
        Turn::New
    } else {
        Turn::Out
    }
}
