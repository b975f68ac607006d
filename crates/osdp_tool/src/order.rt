//! The words of `make`, and the packet that they order.

ghost use Rattle.std.specs.Prelude.{◌≡◌, ◌≤◌, length};
ghost use Rattle.osdp_frame.specs.Bytes.{AreBytes};
ghost use Rattle.osdp_words.specs.Reading.{ReadsWords};
ghost use Rattle.osdp_words.specs.Word.{texts};
ghost use Rattle.osdp_tool.specs.PacketOrder.{MessageFits, OrderFits, message_body, message_is_reply, message_words, order_packet, order_words};

use arrayvec::ArrayVec;
use osdp_frame::{Address, CheckKind, Frame, Header, MAX_BODY, Seq};
use osdp_msg::{Command, MAX_MESSAGE, Reply, Spelling};
use osdp_words::number_u8;

/// What a packet carries.
#[derive(Debug, Drop)]
pub enum Message<'a> {
    /// From the controller to a device.
    Command(Command<'a>),
    /// From a device to the controller.
    Reply(Reply<'a>),
}

/// A packet as its words order it.
#[derive(Debug, Drop)]
pub struct PacketOrder<'a> {
    /// The address, 0 to 127.
    pub address: Address,
    /// The sequence number, 0 to 3.
    pub seq: Seq,
    /// Which check the packet ends with.
    pub check: CheckKind,
    /// The command or reply in its body.
    pub message: Message<'a>,
}

impl<'a> Message<'a> {
    /// The command or reply whose text has these words. What it has of bytes stands in the first place then, or in the second.
    fn parse(
        words: &[&str],
        command: &'a mut Spelling,
        reply: &'a mut Spelling,
    ) -> Option<Message<'a>>
        ensures { ReadsWords message_words MessageFits (texts words.now) result }
    {
        if let Ok(command) = Command::parse(words, command) {
            return Some(Message::Command(command));
        }
        Some(Message::Reply(Reply::parse(words, reply).ok()?))
    }

    /// The code and the data.
    fn body(&self) -> ArrayVec<u8, MAX_MESSAGE>
        ensures body { result.items ≡ message_body self.now }
        ensures fits { MessageFits self.now }
    {
        match self {
            Message::Command(command) => command.write(),
            Message::Reply(reply) => reply.write(),
        }
    }

    /// Whether it comes from a device.
    fn is_reply(&self) -> bool
        ensures { result ≡ message_is_reply self.now }
    {
        match self {
            Message::Command(_) => false,
            Message::Reply(_) => true,
        }
    }
}

impl<'a> PacketOrder<'a> {
    /// The packet that the words order: an address from 0 to 127, a sequence number from 0 to 3, `sum` or
    /// `crc`, and the text of a command or a reply. None where they are anything else. What a command has of bytes stands in the
    /// first place then, and what a reply has in the second.
    pub fn parse(
        words: &[&str],
        command: &'a mut Spelling,
        reply: &'a mut Spelling,
    ) -> Option<PacketOrder<'a>>
        ensures { ReadsWords order_words OrderFits (texts words.now) result }
    {
        let [address, seq, check, message @ ..] = words else {
            return None;
        };
        let address = Address::new(number_u8(address)?)?;
        let seq = Seq::new(number_u8(seq)?)?;
        let check = CheckKind::named(check)?;
        let message = Message::parse(message, command, reply)?;
        Some(PacketOrder {
            address,
            seq,
            check,
            message,
        })
    }

    /// The packet.
    pub fn packet(&self) -> Frame
        ensures { result ≡ order_packet self.now }
    {
        let body = self.message.body();
        let body = with_room(body.as_slice());
        let (address, seq) = (self.address, self.seq);
        let _ranges = (address.get(), seq.get());
        let head = Header::plain(self.message.is_reply(), address, seq, self.check);
        let made = Frame::new(head, body);
        made.unwrap()
    }
}

/// The same bytes with room for one more.
fn with_room(bytes: &[u8]) -> ArrayVec<u8, MAX_BODY>
    requires { length bytes.now ≤ MAX_MESSAGE }
    ensures bytes { result.items ≡ bytes.now }
    ensures are_bytes { AreBytes bytes.now }
{
    let mut copy = ArrayVec::new();
    let _ = copy.try_extend_from_slice(bytes);
    copy
}
