//! A script, read with ample memory and where memory is refused.

use osdp_frame::CheckKind;
use osdp_msg::{Command, Event};
use osdp_script::{Script, ScriptFault, read_script};
use osdp_sim::{Move, Schedule, SimStep};
use std::process::Abort;

/// Two readers, and a step of each kind that takes memory.
const SCRIPT: &str = "\
check sum
reader 5 4
reader 6 1024
issue 2 OUT 0:2:0
queue 1 KEYPAD 0 31
to-reader damage 00FF
";

/// It is read as the script says.
fn is_read(rt: &impl Abort, script: &Script) {
    assert_eq!(rt; script.check, CheckKind::Sum);
    assert_eq!(rt; script.readers.len(), 2);
    assert_eq!(rt; script.readers[0].0.get(), 5);
    assert_eq!(rt; (script.readers[0].1, script.readers[1].1), (4, 1024));
    has_steps(rt, script);
}

/// Its steps are those of its lines.
fn has_steps(rt: &impl Abort, script: &Script) {
    let mut steps = script.schedule();
    assert!(rt; matches!(steps.step(), Some(SimStep::Issue(2, Command::Output(_)))));
    steps.pass();
    assert!(rt; matches!(steps.step(), Some(SimStep::Queue(1, Event::Keypad(_)))));
    steps.pass();
    assert!(rt; matches!(steps.step(), Some(SimStep::ToReader(Move::Damage(_)))));
    steps.pass();
    assert!(rt; steps.step().is_none());
}

/// Where memory is refused, as `tests/machines_memory.sh` has it, that is the answer.
#[test]
fn out_of_memory_is_told(rt: HostRuntime) {
    match read_script(rt.alloc(), SCRIPT.as_bytes()) {
        Ok(script) => is_read(&rt, &script),
        Err(fault) => assert_eq!(rt; fault, ScriptFault::NoMemory),
    }
}

/// It needs its memory.
#[test]
fn memory_is_needed(rt: HostRuntime) {
    let script = read_script(rt.alloc(), SCRIPT.as_bytes());
    is_read(&rt, &script.ok().expect(&rt, "a script"));
}

/// Where no line says which, the controllers' packets end with a CRC.
#[test]
fn no_check_is_a_crc(rt: HostRuntime) {
    let script = read_script(rt.alloc(), "reader 126 1\n".as_bytes());
    let script = script.ok().expect(&rt, "a script");
    assert_eq!(rt; script.check, CheckKind::Crc);
    assert_eq!(rt; script.readers.len(), 1);
    assert!(rt; script.schedule().step().is_none());
}
