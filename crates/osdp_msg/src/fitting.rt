//! Which reply fits which command.

ghost use Rattle.std.specs.Prelude.{◌≡◌};
ghost use Rattle.osdp_msg.specs.Fitting.{reply_fits};

use crate::command::Command;
use crate::reply::Reply;

/// Whether the reply is one that a reader may give to the command. NAK fits every command and BUSY none.
pub fn fits(command: &Command<'_>, reply: &Reply<'_>) -> bool
    ensures { result ≡ reply_fits command.now reply.now }
{
    match command {
        Command::Poll => fits_poll(reply),
        Command::Id(_) => matches!(reply, Reply::Nak(_) | Reply::PdId(_)),
        Command::Cap(_) => matches!(reply, Reply::Nak(_) | Reply::PdCap(_)),
        Command::LocalStatus => matches!(reply, Reply::Nak(_) | Reply::LocalState(_)),
        Command::InputStatus => matches!(reply, Reply::Nak(_) | Reply::Inputs(_)),
        Command::OutputStatus => matches!(reply, Reply::Nak(_) | Reply::Outputs(_)),
        Command::ReaderStatus => matches!(reply, Reply::Nak(_) | Reply::Readers(_)),
        Command::Output(_) => matches!(reply, Reply::Nak(_) | Reply::Ack | Reply::Outputs(_)),
        Command::Led(_) | Command::Buzzer(_) | Command::Text(_) => {
            matches!(reply, Reply::Nak(_) | Reply::Ack)
        }
        Command::Comset(_) => matches!(reply, Reply::Nak(_) | Reply::Com(_)),
        Command::Maker(_) => matches!(reply, Reply::Nak(_) | Reply::Ack | Reply::MakerReply(_)),
    }
}

/// Whether the reply fits a POLL.
fn fits_poll(reply: &Reply<'_>) -> bool
    ensures { (c : Command) → c ≡ Command.Poll → result ≡ reply_fits c reply.now }
{
    match reply {
        Reply::Ack
        | Reply::Nak(_)
        | Reply::LocalState(_)
        | Reply::Inputs(_)
        | Reply::Outputs(_)
        | Reply::Readers(_)
        | Reply::Raw(_)
        | Reply::Formatted(_)
        | Reply::Keypad(_) => true,
        Reply::PdId(_) | Reply::PdCap(_) | Reply::Com(_) | Reply::Busy | Reply::MakerReply(_) => {
            false
        }
    }
}
