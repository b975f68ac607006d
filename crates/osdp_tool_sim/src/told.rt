//! What is told of a script.

ghost use Rattle.std.specs.Prelude.{◌≡◌, ◌↔◌, IfErr, IfOk, IsErr};
ghost use Rattle.osdp_tool_sim.specs.Steps.{EndsBy};

use osdp_sim::{Cause, Fault};
use osdp_tool_streams::ToolFault;

/// How many commands may wait for each reader.
pub(crate) const COMMANDS: usize = 64;

/// What is told of a script.
#[derive(Drop)]
pub(crate) struct Told<T> {
    /// What happened, up to the step that was refused.
    pub what: T,
    /// The step that was refused, if one was.
    pub end: Result<(), ToolFault>,
}

/// What is told of a schedule that has stopped at a step, or was stopped by memory.
pub(crate) fn stopped<T: Drop>(fault: Fault<T>) -> Result<Told<T>, ToolFault>
    requires { fault.cause ≡ Cause.OutOfRange → ⊥ }
    ensures told { IfOk result (λ told. (told.what ≡ fault.account) × EndsBy fault.cause fault.step told.end) }
    ensures fault { IfErr result (λ untold. untold ≡ ToolFault.NoMemory) }
    ensures memory { IsErr result ↔ (fault.cause ≡ Cause.NoMemory) }
{
    match fault.cause {
        Cause::HoldsPacket => Ok(Told {
            what: fault.account,
            end: Err(ToolFault::HoldsPacket(fault.step as u64)),
        }),
        Cause::NotQuiet => Ok(Told {
            what: fault.account,
            end: Err(ToolFault::NotQuiet(fault.step as u64)),
        }),
        Cause::NoMemory => Err(ToolFault::NoMemory),
        Cause::OutOfRange => unreachable!(),
    }
}
