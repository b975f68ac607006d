//! What became of a call.

ghost use Rattle.std.specs.Prelude.{◌≡◌};
ghost use Rattle.osdp_c_values.specs.Statuses.{bus_status, message_status, number, reader_status};

use crate::monitor_fault::MonitorFault;
use osdp_bus::BusFault;
use osdp_msg::MsgFault;
use osdp_reader::ReaderFault;

/// What became of a call. Its number goes to C.
#[derive(Clone, Copy, Debug, PartialEq, Eq)]
pub enum Status {
    /// The call was done.
    Done,
    /// The handle holds no machine.
    NoMachine,
    /// `new` on a handle that holds a machine.
    InUse,
    /// The text is that of no command, or of no event.
    BadText,
    /// The code and data are those of a reply that tells no event.
    NoEvent,
    /// The text is longer than the room for it.
    TooSmall,
    /// No turn has stopped before a command.
    NotAsked,
    /// The message is another than the call reads.
    OtherMessage,
    /// The moment lies too far after the greatest one seen.
    MomentTooFar,
    /// The code and data stand for no message.
    Message(MsgFault),
    /// A panel's refusal.
    Panel(BusFault),
    /// B7: an entry has used up its numbers.
    NumbersUsedUp,
    /// There is no reader.
    Reader(ReaderFault),
    /// N2: as many events wait as there is room for.
    EventsFull,
    /// A monitor isn't made, or hears nothing.
    Monitor(MonitorFault),
}

/// The number of a fault of messages.
fn message_number(fault: MsgFault) -> u32
    ensures { result ≡ message_status fault }
{
    match fault {
        MsgFault::UnknownCode => 11,
        MsgFault::Length => 12,
        MsgFault::Count => 13,
    }
}

/// The number of a panel's refusal.
fn bus_number(fault: BusFault) -> u32
    ensures { result ≡ bus_status fault }
{
    match fault {
        BusFault::NoMemory => 21,
        BusFault::TooMany => 22,
        BusFault::AddressTaken => 23,
        BusFault::NoEntry => 24,
        BusFault::OutOfRange => 25,
        BusFault::AddressOutOfRange => 26,
        BusFault::Full => 33,
        BusFault::PollSubmitted => 34,
        BusFault::NotClosed => 35,
    }
}

/// The number of why there is no reader.
fn reader_number(fault: ReaderFault) -> u32
    ensures { result ≡ reader_status fault }
{
    match fault {
        ReaderFault::NoMemory => 41,
        ReaderFault::OutOfRange => 43,
    }
}

impl Status {
    /// The number that stands for it in C.
    pub fn number(self) -> u32
        ensures { result ≡ number self }
    {
        match self {
            Status::Done => 0,
            Status::NoMachine => 1,
            Status::InUse => 2,
            Status::BadText => 3,
            Status::NoEvent => 4,
            Status::TooSmall => 5,
            Status::NotAsked => 7,
            Status::OtherMessage => 8,
            Status::MomentTooFar => 9,
            Status::Message(fault) => message_number(fault),
            Status::Panel(fault) => bus_number(fault),
            Status::NumbersUsedUp => 27,
            Status::Reader(fault) => reader_number(fault),
            Status::EventsFull => 42,
            Status::Monitor(fault) => fault.number(),
        }
    }
}
