//! A reply that a line names, kept as its bytes: it outlives the words that it was read from.

ghost use Rattle.std.specs.Prelude.{◌≡◌};
ghost use Rattle.osdp_msg.specs.ReplyTable.{ReplyFits};
ghost use Rattle.osdp_msg.specs.ReplyText.{reply_words};
ghost use Rattle.osdp_words.specs.Reading.{ReadsWords};
ghost use Rattle.osdp_words.specs.Word.{texts};

use osdp_msg::{Reply, Spelling};
use std::marker::Model;

/// A reply that is kept as its code and data.
#[derive(Debug, Drop)]
pub struct KeptReply {
    bytes: Spelling,
}

impl Model for KeptReply {
    ghost use Rattle.osdp_msg.specs.declared.reply.Reply.{Reply};
    ghost use Rattle.osdp_msg.specs.Kept.{reply_kept};

    ghost Value = { Reply };

    ghost view = { λ r. reply_kept r.bytes.items };
}

impl KeptReply {
    /// The reply whose text has these words.
    pub(crate) fn parse(words: &[&str]) -> Option<KeptReply>
        ensures { ReadsWords reply_words ReplyFits (texts words.now) result }
    {
        let mut place = Spelling::new();
        let reply = Reply::parse(words, &mut place).ok()?;
        let mut bytes = Spelling::new();
        reply.write_into(&mut bytes);
        Some(KeptReply { bytes })
    }

    /// The reply. It lends the bytes that are kept here.
    pub fn reply(&self) -> Reply<'_>
        ensures { result ≡ self.now }
    {
        Reply::kept(self.bytes.as_slice())
    }
}
