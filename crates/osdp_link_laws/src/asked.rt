//! What laws ask of moves, said by the moves that break it. The functions do nothing: their contracts are laws.

ghost use Rattle.osdp_link_laws.specs.Asked.{EachIsAsked, LeavingIsExact};
ghost use Rattle.osdp_link_laws.specs.Fitting.{FittingIsExact};
ghost use Rattle.osdp_link_laws.specs.HearingOn.{HearsOnUntilRestart};

use osdp_reader::Handler;

/// A move fits exactly where what it submits, what it makes anew and what the reader says to the packet that it reads are in their ranges; a list fits exactly
/// where each of its moves does, on the link as it is then. Nothing is asked of any other move.
pub fn fitting_is_exact<H: Handler>()
    ensures { FittingIsExact H.answer_of H.after }
{}

/// A move leaves a reader as it is exactly where it doesn't restart it, and a device where it doesn't set its handler either. It leaves the device its
/// handler where it sets no other, and where a device that restarts has the same one and is the same model.
///
/// A move is ordinary exactly where it takes nothing back and restarts neither end. It is steady where it also sets no handler and no address and loses
/// nothing out of the middle. It sets no other address exactly where each address that it sets is that of the end that it speaks of.
pub fn leaving_is_exact<H: Handler>()
    ensures { LeavingIsExact H }
{}

/// A list of moves keeps a handler exactly where each of its moves does, on the link as it is then.
pub fn each_is_asked<H: Handler>()
    ensures { EachIsAsked H.answer_of H.after }
{}

/// From a first session on a reader hears on as long as it doesn't restart. It doesn't where it has just restarted, and does once it has acted on
/// number 0.
pub fn readers_hear_on<H: Handler>()
    ensures { HearsOnUntilRestart H.answer_of H.after }
{}
