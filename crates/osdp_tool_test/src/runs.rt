//! The packets in bytes.

ghost use Rattle.std.specs.Prelude.{◌≡◌, ◌≤◌, ◌<◌, ◌^◌, ◌+◌, drop, length};
ghost use Rattle.osdp_frame.specs.Packet.{packet_length};
ghost use Rattle.osdp_tool_test.specs.Runs.{count_with, first_of, first_with, packets_of, second_of, second_with};

use osdp_frame::{Frame, FrameView, ReadItem, read_at};

/// A packet, lent.
fn lent(frame: &Option<Frame>) -> Option<FrameView<'_>>
    ensures { result ≡ frame.now }
{
    match frame {
        Some(frame) => Some(frame.view()),
        None => None,
    }
}

/// The first two packets of a run, and how many there are.
#[derive(Drop)]
pub struct Found {
    /// The first, if there is one.
    pub first: Option<Frame>,
    /// The second.
    pub second: Option<Frame>,
    /// How many there are.
    pub count: usize,
}

impl Found {
    /// The first, lent.
    pub fn view(&self) -> Option<FrameView<'_>>
        ensures { result ≡ self.now.first }
    {
        lent(&self.first)
    }

    /// The second, lent.
    pub fn second_view(&self) -> Option<FrameView<'_>>
        ensures { result ≡ self.now.second }
    {
        lent(&self.second)
    }

    /// What was found with a packet more, where it is wanted.
    fn with(self, is_of_devices: bool, frame: Frame) -> Found
        requires { self.count + 1 < 2 ^ 64 }
        ensures first { result.first ≡ first_with is_of_devices self.first frame }
        ensures second { result.second ≡ second_with is_of_devices self.first self.second frame }
        ensures count { result.count ≡ count_with is_of_devices self.count frame }
    {
        if is_of_devices && !frame.view().is_reply() {
            return self;
        }
        let count = self.count + 1;
        match (self.first, self.second) {
            (Some(first), Some(second)) => Found {
                first: Some(first),
                second: Some(second),
                count,
            },
            (Some(first), None) => Found {
                first: Some(first),
                second: Some(frame),
                count,
            },
            (None, second) => Found {
                first: Some(frame),
                second,
                count,
            },
        }
    }
}

/// How many bytes a packet has.
fn size(packet: &FrameView<'_>) -> usize
    ensures { result ≡ packet_length packet.now }
{
    let _packet = packet.reserved();
    5 + packet.body().len() + packet.check().size()
}

/// What stands after so many bytes.
fn after(run: &[u8], count: usize) -> &[u8]
    requires { count ≤ length run.now }
    ensures { result.now ≡ drop count run.now }
{
    run.split_at(count).1
}

/// The packets of a run that are of devices, or all of them.
pub fn packets(run: &[u8], is_of_devices: bool) -> Found
    ensures first { result.first ≡ first_of (packets_of is_of_devices run.now) }
    ensures second { result.second ≡ second_of (packets_of is_of_devices run.now) }
    ensures count { result.count ≡ length (packets_of is_of_devices run.now) }
{
    let mut found = Found {
        first: None,
        second: None,
        count: 0,
    };
    let mut rest = run;
    'items: while !rest.is_empty() {
        match read_at(rest, 0) {
            ReadItem::Packet(frame) => {
                rest = after(rest, size(&frame.view()));
                found = found.with(is_of_devices, frame);
            }
            ReadItem::Skipped(_) | ReadItem::Refused(_) => rest = after(rest, 1),
        }
    }
    found
}
