//! What a reply says to a controller that waits for one.

ghost use Rattle.std.specs.Prelude.{◌≡◌};
ghost use Rattle.osdp_controller.specs.Answers.{is_not_taken, meaning_by_reply, meaning_of};

use osdp_frame::FrameView;
use osdp_msg::{NakReason, Reply};

/// What a reply says to a controller that waits for one.
#[derive(Drop)]
pub enum ReplyMeaning<'p> {
    /// BUSY: this delivery wasn't taken.
    NotTaken,
    /// NAK 1: this delivery came with wrong check characters.
    Damaged,
    /// NAK 4: the sequence number was not expected.
    NumberRefused,
    /// Any other reply.
    Plain(Reply<'p>),
    /// What cannot be read, by its code.
    Unreadable(u8),
}

impl<'p> ReplyMeaning<'p> {
    /// What a packet from a reader says.
    #[inline(always)]
    pub(crate) fn read(frame: &FrameView<'p>) -> ReplyMeaning<'p>
        ensures { result ≡ meaning_of frame.now }
    {
        let code = frame.code();
        match Reply::read(code, frame.payload()) {
            Ok(reply) => ReplyMeaning::of(reply),
            Err(_) => ReplyMeaning::Unreadable(code),
        }
    }

    /// What a reply says: BUSY and a NAK are told apart from all others, whatever detail follows the reason.
    #[inline(always)]
    fn of(reply: Reply<'p>) -> ReplyMeaning<'p>
        ensures { result ≡ meaning_by_reply reply.entry }
    {
        match &reply {
            Reply::Busy => ReplyMeaning::NotTaken,
            Reply::Nak(nak) => match nak.reason() {
                NakReason::CheckCharacters => ReplyMeaning::Damaged,
                NakReason::UnexpectedSequence => ReplyMeaning::NumberRefused,
                _ => ReplyMeaning::Plain(reply),
            },
            _ => ReplyMeaning::Plain(reply),
        }
    }

    /// Whether it is BUSY.
    pub(crate) fn is_not_taken(&self) -> bool
        ensures { result ≡ is_not_taken self.now }
    {
        matches!(self, ReplyMeaning::NotTaken)
    }
}
