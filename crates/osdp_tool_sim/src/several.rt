//! A script of several readers.

ghost use Rattle.std.specs.Prelude.{◌≡◌, ◌≤◌, ◌<◌, ◌^◌, ℕ, length, IfErr, IfOk, map, string_bytes};
ghost use Rattle.osdp_bus.specs.Settings.{default_config};
ghost use Rattle.osdp_script.specs.Script.{steps_of};
ghost use Rattle.osdp_script.specs.Settings.{AreReaders};
ghost use Rattle.osdp_sim.specs.Account.{lists_of};
ghost use Rattle.osdp_sim.specs.State.{room_for};
ghost use Rattle.osdp_sim_bus.specs.Runs.{lists_of_all};
ghost use Rattle.osdp_tool_sim.specs.AccountText.{texts_from};
ghost use Rattle.osdp_tool_sim.specs.Several.{TellsEach, readers_from};
ghost use Rattle.osdp_tool_sim.specs.Told.{IsTextOfEach};

use crate::account::account_text;
use crate::told::{COMMANDS, Told, stopped};
use osdp_bus::BusConfig;
use osdp_frame::{Address, CheckKind};
use osdp_msg::Room;
use osdp_reader::ReaderConfig;
use osdp_script::{Script, ScriptReader, script_config};
use osdp_session::run_bus_schedule;
use osdp_sim::Account;
use osdp_tool_streams::ToolFault;
use std::alloc::{AllocError, Global};

/// The readers at these addresses, each with room for so many events.
fn readers_of(
    alloc: Global,
    told: &[(Address, usize)],
) -> Result<Vec<(ReaderConfig, usize, ScriptReader)>, AllocError>
    requires { length told.now ≤ 16 }
    ensures { IfOk result (λ made. made.items ≡ readers_from 1 told.now) }
{
    let mut made = Vec::new(alloc);
    let mut number = 1;
    for reader in told {
        let config = script_config(number, reader.0);
        made.push((config, reader.1, ScriptReader::new()))?;
        number += 1;
    }
    Ok(made)
}

/// The settings of a line with several readers.
fn settings(check: CheckKind) -> BusConfig
    ensures { result ≡ default_config check (room_for COMMANDS) }
{
    BusConfig::new(check, Room::of(COMMANDS))
}

/// Runs a script of several readers.
fn run_several(alloc: Global, script: &Script) -> Result<Told<Vec<Account>>, ToolFault>
    requires steps { length (steps_of script.now) < 2 ^ 64 }
    requires readers { AreReaders script.now.readers.items }
    ensures told { IfOk result (λ told. TellsEach script.now (lists_of_all told.what.items) told.end) }
    ensures fault { IfErr result (λ fault. fault ≡ ToolFault.NoMemory) }
{
    let Ok(readers) = readers_of(alloc, &script.readers) else {
        return Err(ToolFault::NoMemory);
    };
    let config = settings(script.check);
    match run_bus_schedule(alloc, &config, readers, script.schedule()) {
        Ok(what) => Ok(Told { what, end: Ok(()) }),
        Err(fault) => stopped(fault),
    }
}

/// The texts of the readers' accounts, one after the other.
fn texts(alloc: Global, accounts: &[Account]) -> Result<String, AllocError>
    ensures { IfOk result (λ text. string_bytes text ≡ texts_from 1 (map lists_of accounts.now)) }
{
    let mut text = String::new(alloc);
    for (i, account) in accounts.iter().enumerate() {
        let one = account_text(alloc, i + 1, account)?;
        text.push_str(one.as_str())?;
    }
    Ok(text)
}

/// Runs a script of several readers, and tells their accounts in their order.
pub(crate) fn tell_several(alloc: Global, script: &Script) -> Result<Told<String>, ToolFault>
    requires steps { length (steps_of script.now) < 2 ^ 64 }
    requires readers { AreReaders script.now.readers.items }
    ensures told { IfOk result (λ told. IsTextOfEach script.now (string_bytes told.what) told.end) }
    ensures fault { IfErr result (λ fault. fault ≡ ToolFault.NoMemory) }
{
    let told = run_several(alloc, script)?;
    match texts(alloc, &told.what) {
        Ok(what) => Ok(Told {
            what,
            end: told.end,
        }),
        Err(_) => Err(ToolFault::NoMemory),
    }
}
