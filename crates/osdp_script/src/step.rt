//! A line below those of the readers, in little memory.

ghost use Rattle.std.specs.Prelude.{◌≡◌, length};
ghost use Rattle.osdp_script.specs.Kept.{move_bytes, move_of, move_size, own_size};

use osdp_frame::Burst;
use osdp_sim::Move;

/// What the line does with the burst in front.
#[derive(Clone, Copy, Debug)]
pub(crate) enum Way {
    /// It comes through.
    Deliver,
    /// It is lost.
    Drop,
    /// It comes through, and will come through again.
    Repeat,
    /// So many bytes come through in its place.
    Damage(u16),
}

/// What a line says, but for the bytes of a message or of damage, which stand elsewhere: it has their count.
#[derive(Clone, Copy, Debug)]
pub(crate) enum ScriptStep {
    /// The user of a reader's controller submits a command.
    Issue(usize, u16),
    /// A reader's device submits an event.
    Queue(usize, u16),
    /// A reader is busy from now on, or it isn't any more.
    Busy(usize, bool),
    /// So many milliseconds pass.
    Wait(u64),
    /// What the line does with the burst in front of those on their way to the readers.
    ToReader(Way),
    /// The same of those on their way to the controller.
    ToController(Way),
    /// The session with a reader, which has ended, begins again.
    Reopen(usize),
    /// The session opens, and so many rounds without losses follow.
    Clean(usize),
}

/// The bytes that come through in place of the burst in front.
pub(crate) fn bytes_of(way: &Move) -> &[u8]
    ensures { result.now ≡ move_bytes way.now }
{
    match way {
        Move::Damage(bytes) => bytes.as_slice(),
        Move::Deliver | Move::Drop | Move::Repeat => &[],
    }
}

impl Way {
    /// A move, but for its bytes.
    pub(crate) fn new(way: &Move) -> Way
        ensures size { move_size result ≡ length (move_bytes way.now) }
        ensures kept { move_of result (move_bytes way.now) ≡ way.now }
    {
        match way {
            Move::Deliver => Way::Deliver,
            Move::Drop => Way::Drop,
            Move::Repeat => Way::Repeat,
            Move::Damage(bytes) => Way::Damage(bytes.len() as u16),
        }
    }

    /// How many bytes are its own.
    fn size(self) -> usize
        ensures { result ≡ move_size self }
    {
        match self {
            Way::Deliver | Way::Drop | Way::Repeat => 0,
            Way::Damage(size) => usize::from(size),
        }
    }

    /// The move, by its own bytes.
    pub(crate) fn to_move(self, own: &[u8]) -> Move
        ensures { result ≡ move_of self own.now }
    {
        match self {
            Way::Deliver => Move::Deliver,
            Way::Drop => Move::Drop,
            Way::Repeat => Move::Repeat,
            Way::Damage(_) => {
                let mut burst = Burst::new();
                let _ = burst.try_extend_from_slice(own);
                Move::Damage(burst)
            }
        }
    }
}

impl ScriptStep {
    /// How many bytes are its own.
    pub(crate) fn size(self) -> usize
        ensures { result ≡ own_size self }
    {
        match self {
            ScriptStep::Issue(_, size) | ScriptStep::Queue(_, size) => usize::from(size),
            ScriptStep::ToReader(way) | ScriptStep::ToController(way) => way.size(),
            ScriptStep::Busy(..)
            | ScriptStep::Wait(_)
            | ScriptStep::Reopen(_)
            | ScriptStep::Clean(_) => 0,
        }
    }
}
