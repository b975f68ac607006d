//! What a device does with a command.

ghost use Rattle.std.specs.Prelude.{◌≡◌, []};
ghost use Rattle.std.specs.Option.{option_copied};
ghost use Rattle.osdp_device.specs.Lent.{said_by};
ghost use Rattle.osdp_device.specs.Orders.{is_nak, order_by, order_of, ordered_in};
ghost use Rattle.osdp_device.specs.Saying.{again_by, but_poll, taken_by};

use osdp_msg::Command;
use osdp_reader::{Heard, Kind};

/// What a device does with the command that was acted on.
#[derive(Clone, Copy, Debug, PartialEq, Eq)]
pub enum Order {
    /// Nothing: there is a POLL, a command that couldn't be read, or none.
    Nothing,
    /// The command came with a number that had its turn: it is done, once.
    Once,
    /// The command came with number 0, and may come once more: what may be done twice is done.
    Again,
    /// The command came with either number, and what is sent back is a NAK: nothing of it is done.
    Refused,
}

/// Whether what is sent back refuses a command: the code of a reply is its sixth byte, and 0x41 is that of a NAK.
fn is_nak(bytes: &[u8]) -> bool
    ensures { result ≡ is_nak bytes.now }
{
    bytes.len() > 5 && bytes[5] == 0x41
}

/// What the device does with a command that was taken, or acted on at number 0.
fn order_by(refused: bool, taken: Option<&Command<'_>>, again: Option<&Command<'_>>) -> Order
    ensures { result ≡ order_by refused (option_copied taken.entry) (option_copied again.entry) }
{
    match (taken, again) {
        (None, None) => Order::Nothing,
        (Some(_), _) => if refused { Order::Refused } else { Order::Once },
        (None, Some(_)) => if refused {
            Order::Refused
        } else {
            Order::Again
        },
    }
}

/// A command that is read, but POLL.
fn but_poll<'h, 'p>(command: &'h Option<Command<'p>>) -> Option<&'h Command<'p>>
    ensures { option_copied result ≡ but_poll command.now }
{
    match command {
        Some(Command::Poll) | None => None,
        Some(command) => Some(command),
    }
}

/// The command that was taken, but POLL: the device does it, once, unless the answer is a NAK, whose code, 0x41, is the sixth byte. None
/// where none was taken, or it couldn't be read.
pub fn taken<'h, 'p>(heard: &'h Heard<'p>) -> Option<&'h Command<'p>>
    ensures { option_copied result ≡ taken_by heard.now.kind heard.now.command }
{
    match heard.kind {
        Kind::Taken => but_poll(&heard.command),
        Kind::Silent | Kind::Secured | Kind::Zero | Kind::Repeat | Kind::Busy | Kind::Wrong => None,
    }
}

/// The command that was acted on at number 0, but POLL. The same order may come once more.
pub fn again<'h, 'p>(heard: &'h Heard<'p>) -> Option<&'h Command<'p>>
    ensures { option_copied result ≡ again_by heard.now.kind heard.now.command }
{
    match heard.kind {
        Kind::Zero => but_poll(&heard.command),
        Kind::Silent | Kind::Secured | Kind::Taken | Kind::Repeat | Kind::Busy | Kind::Wrong => {
            None
        }
    }
}

/// What the device does with the command that was heard, to which these bytes are sent back.
pub fn order_of(heard: &Heard<'_>, bytes: &[u8]) -> Order
    ensures { result ≡ order_of (said_by heard.now bytes.now) }
{
    order_by(is_nak(bytes), taken(heard), again(heard))
}

/// The command that the order is about.
pub fn ordered<'h, 'p>(heard: &'h Heard<'p>) -> Option<&'h Command<'p>>
    ensures { option_copied result ≡ ordered_in (said_by heard.now []) }
{
    match taken(heard) {
        Some(command) => Some(command),
        None => again(heard),
    }
}
