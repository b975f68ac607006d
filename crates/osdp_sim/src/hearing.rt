//! A reader at a line.

ghost use Rattle.std.specs.Prelude.{◌≡◌, ◌+◌, ◌<◌, ◌≤◌, ◌++◌, [], ◌∷◌};
ghost use Rattle.std.specs.VecDeque.{deque_capacity, deque_len};
ghost use Rattle.osdp_reader.specs.Spelled.{IsSpelled};
ghost use Rattle.osdp_reader.specs.Table.{hears, kind_of};
ghost use Rattle.osdp_sim.specs.Account.{lists_of, taken_by, with_taken};
ghost use Rattle.osdp_sim.specs.Line.{bytes_of, sent};
ghost use Rattle.osdp_sim.specs.Room.{HasPlaces};
ghost use Rattle.osdp_sim.specs.Steps.{SaysFit};

use crate::account::Account;
use crate::line::send;
use osdp_frame::{Burst, FrameView};
use osdp_reader::{Handler, Heard, Reader};
use std::collections::VecDeque;

/// A reader hears a packet: what it has taken goes to its account, and what it answers out on the line. The answer stands in
/// `out`, in place of what stood there.
pub fn hear<'p, H: Handler>(
    reader: &mut Reader<H>,
    packet: &FrameView<'p>,
    out: &mut Burst,
    account: &mut Account,
    line: &mut VecDeque<Burst>,
) -> Heard<'p>
    requires place { deque_len line.old < deque_capacity line.old }
    requires places { HasPlaces account.old }
    ensures reader { reader.new ≡ (hears H.answer_of H.after reader.old packet.now).reader }
    ensures kind { result.kind ≡ kind_of reader.old packet.now }
    ensures command { result.command ≡ (hears H.answer_of H.after reader.old packet.now).command }
    ensures reply { IsSpelled (hears H.answer_of H.after reader.old packet.now).reply out.new.items }
    ensures account { lists_of account.new ≡ with_taken (taken_by (kind_of reader.old packet.now) (hears H.answer_of H.after reader.old packet.now).command) (lists_of account.old) }
    ensures line { bytes_of line.new.items ≡ bytes_of line.old.items ++ sent (hears H.answer_of H.after reader.old packet.now).reply }
    ensures one { deque_len line.new ≤ deque_len line.old + 1 }
    ensures room { deque_capacity line.new ≡ deque_capacity line.old }
    ensures fits { SaysFit H.answer_of H.after (packet.now ∷ []) reader.old }
{
    osdp_frame_laws::one_spelling();
    let heard = reader.hear(packet, out);
    account.take_heard(&heard);
    if !out.is_empty() {
        send(line, out);
    }
    heard
}
