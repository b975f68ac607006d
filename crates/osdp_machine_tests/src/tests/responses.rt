//! Packets handed to a reader.

use osdp_frame::{Burst, FrameView, ReadItem, read_at};
use osdp_msg::Communication;
use osdp_reader::{Handler, Kind, Reader};
use osdp_test_packets::bytes_of;
use std::process::Abort;

/// What a reader makes of a packet.
#[derive(Drop)]
pub struct Response {
    /// The line of the table that answers.
    pub kind: Kind,
    /// The address and the rate that the device is told.
    pub comset: Option<Communication>,
    /// What is sent.
    sent: Burst,
}

impl Response {
    /// The answer to nothing.
    pub fn silent() -> Response {
        Response {
            kind: Kind::Silent,
            comset: None,
            sent: Burst::new(),
        }
    }

    /// The bytes of what is sent.
    pub fn bytes(&self) -> &[u8] {
        self.sent.as_slice()
    }
}

/// What a reader makes of a packet.
pub fn response_of<H: Handler>(reader: &mut Reader<H>, packet: &FrameView<'_>) -> Response {
    let mut sent = Burst::new();
    let heard = reader.hear(packet, &mut sent);
    Response {
        kind: heard.kind,
        comset: heard.comset(),
        sent,
    }
}

/// What a reader makes of the packet that stands first in these bytes; none where no packet does.
pub fn response_to<H: Handler>(
    rt: &impl Abort,
    reader: &mut Reader<H>,
    run: &[u8],
) -> Option<Response> {
    assert!(rt; !run.is_empty());
    match read_at(run, 0) {
        ReadItem::Packet(frame) => Some(response_of(reader, &frame.view())),
        ReadItem::Skipped(_) | ReadItem::Refused(_) => None,
    }
}

/// What a reader makes of the packet of these digits.
pub fn response_to_digits<H: Handler>(
    rt: &impl Abort,
    reader: &mut Reader<H>,
    digits: &str,
) -> Response {
    let mut buffer = [0; 32];
    let run = bytes_of(digits, &mut buffer).expect(rt, digits);
    response_to(rt, reader, run).expect(rt, "a packet")
}
