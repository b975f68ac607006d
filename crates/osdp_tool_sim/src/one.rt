//! A script of one reader.

ghost use Rattle.std.specs.Prelude.{◌≡◌, ◌<◌, ◌^◌, ℕ, length, IfErr, IfOk, string_bytes};
ghost use Rattle.osdp_script.specs.Lines.{IsSetting};
ghost use Rattle.osdp_script.specs.Script.{steps_of};
ghost use Rattle.osdp_tool_sim.specs.One.{config_of};
ghost use Rattle.osdp_tool_sim.specs.Told.{IsTextOfOne};

use crate::account::account_text;
use crate::told::{COMMANDS, Told, stopped};
use osdp_controller::ControllerConfig;
use osdp_frame::{Address, CheckKind};
use osdp_script::{Script, ScriptReader, script_config};
use osdp_session::run_schedule;
use osdp_sim::SimConfig;
use osdp_tool_streams::ToolFault;
use std::alloc::Global;

/// The settings of a line with one reader.
fn settings(check: CheckKind, address: Address, events: usize) -> SimConfig
    ensures { result ≡ config_of check (address, events) }
{
    SimConfig {
        reader: script_config(1, address),
        events,
        controller: ControllerConfig::new(address, check),
        commands: COMMANDS,
    }
}

/// Runs a script of one reader, and tells its account.
pub(crate) fn tell_one(
    alloc: Global,
    script: &Script,
    address: Address,
    events: usize,
) -> Result<Told<String>, ToolFault>
    requires steps { length (steps_of script.now) < 2 ^ 64 }
    requires setting { IsSetting address events }
    ensures told { IfOk result (λ told. IsTextOfOne script.now (address, events) (string_bytes told.what) told.end) }
    ensures fault { IfErr result (λ fault. fault ≡ ToolFault.NoMemory) }
{
    let config = settings(script.check, address, events);
    let told = match run_schedule(alloc, &config, ScriptReader::new(), script.schedule()) {
        Ok(what) => Told { what, end: Ok(()) },
        Err(fault) => stopped(fault)?,
    };
    match account_text(alloc, 1, &told.what) {
        Ok(what) => Ok(Told {
            what,
            end: told.end,
        }),
        Err(_) => Err(ToolFault::NoMemory),
    }
}
