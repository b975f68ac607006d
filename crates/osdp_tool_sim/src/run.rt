//! A script that is run.

ghost use Rattle.std.specs.Prelude.{◌≡◌, ◌≢◌, ◌<◌, ◌^◌, ◌∷◌, [], ℕ, length, IfErr, IfOk, MatchOption, string_bytes};
ghost use Rattle.osdp_script.specs.Script.{steps_of};
ghost use Rattle.osdp_script.specs.Settings.{AreReaders};
ghost use Rattle.osdp_tool_sim.specs.Told.{IsUntold, Tells, TellsScript};

use crate::one::tell_one;
use crate::several::tell_several;
use crate::told::Told;
use osdp_frame::Address;
use osdp_script::{Script, ScriptFault, read_script};
use osdp_tool_streams::ToolFault;
use std::alloc::Global;

/// The only reader, where there is one.
fn only_reader(readers: &[(Address, usize)]) -> Option<(Address, usize)>
    ensures { MatchOption result ((reader : ℕ × ℕ) → readers.now ≢ reader ∷ []) (λ reader. readers.now ≡ reader ∷ []) }
{
    if readers.len() == 1 {
        return Some(readers[0]);
    }
    None
}

/// Runs a script, and tells the accounts of its readers.
fn tell(alloc: Global, script: &Script) -> Result<Told<String>, ToolFault>
    requires steps { length (steps_of script.now) < 2 ^ 64 }
    requires readers { AreReaders script.now.readers.items }
    ensures told { IfOk result (λ told. TellsScript script.now (string_bytes told.what) told.end) }
    ensures fault { IfErr result (λ fault. fault ≡ ToolFault.NoMemory) }
{
    match only_reader(&script.readers) {
        Some(reader) => tell_one(alloc, script, reader.0, reader.1),
        None => tell_several(alloc, script),
    }
}

/// Reads and runs a script, and tells the accounts of its readers.
pub(crate) fn run_script(alloc: Global, bytes: &[u8]) -> Result<Told<String>, ToolFault>
    requires { length bytes.now < 2 ^ 40 }
    ensures told { IfOk result (λ told. Tells bytes.now (string_bytes told.what) told.end) }
    ensures fault { IfErr result (IsUntold bytes.now) }
{
    osdp_script::laws::has_readers();
    match read_script(alloc, bytes) {
        Ok(script) => tell(alloc, &script),
        Err(ScriptFault::BadLine(number)) => Err(ToolFault::BadStep(number)),
        Err(ScriptFault::NoMemory) => Err(ToolFault::NoMemory),
    }
}
