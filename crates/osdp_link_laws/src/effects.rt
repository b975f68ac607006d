//! What each move of a program, of a power failure or of the line does, however a link stands. The function does nothing: its contract is a law.

ghost use Rattle.osdp_link_laws.specs.Effects.{EachMoveDoes};

use osdp_reader::Handler;

/// Each move of a program, of a power failure or of the line does to the two ends and to the line what its clause here says.
///
/// `handler`: a device that has another handler keeps its number, its stored reply and its events. A repeat is answered with what was stored, and no
/// handler is asked. The next command that is taken is answered with the new handler.
///
/// `withdraw`: where no command is on its way and one waits, the one that has waited longest is taken back; else nothing happens.
///
/// `event`: where some event of the device was never offered, in this session or before, the oldest of these is withdrawn: it leaves the queue, and no
/// other does. What is offered stays so, and so does the stored reply. Else nothing happens.
///
/// `retarget`: where the controller is closed and the address is a device's, the controller has this address, and all else stays; else nothing
/// happens.
///
/// `reader`: a reader that has restarted has taken nothing, stores nothing, has no event and isn't busy. It refuses every number but 0. What is on the
/// line stays there, and the controller stays as it is.
///
/// `controller`: a controller that has restarted is closed, and nothing waits. What is on the line stays there, and the reader stays as it is.
///
/// `losses`: of what is on the line, what stands at the place is lost, and all else stays in its order.
///
/// `restarts`: the restarts of the reader in a session are counted: none where it begins again, and one more with each until another begins.
pub fn each_move_does<H: Handler>()
    ensures { EachMoveDoes H.answer_of H.after }
{}
