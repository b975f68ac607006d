//! Packets of the line and the framer that finds them.
//!
//! A packet is a list of bytes with a head, a body and a check. A run of bytes, such as what stands
//! between two silences of the line, has exactly one reading as packets, skipped bytes and refusals.
//! A receiver knows by the moments of its bytes when a run is over: the panel's end of a line has one,
//! and so has a device. Nothing here takes memory.
#![tactic(auto)]

mod address;
mod ahead;
mod buffer;
mod bytes;
mod check_kind;
mod fault;
mod first;
mod frame;
mod framer;
mod item;
mod read;
mod receiver;
mod seq;
mod silence;
mod times;
mod view;

pub use address::Address;
pub use ahead::{deciding_count, skipped_count};
pub use bytes::{MAX_BODY, MAX_PACKET};
pub use check_kind::CheckKind;
pub use fault::FrameFault;
pub use frame::{Burst, Frame};
pub use framer::Framer;
pub use item::Item;
pub use read::{ReadItem, read_at, whole_item};
pub use receiver::Receiver;
pub use seq::Seq;
pub use silence::is_silent_for;
pub use times::{LONGEST_TIME, is_time};
pub use view::{FrameView, Header};
