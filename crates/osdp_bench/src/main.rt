//! The bench of the machines: does one kind of work so many times, and prints how often it came out as it should.
//!
//! `osdp_bench KIND COUNT`. The time is taken from outside.
#![tactic(auto)]

mod device;
mod exchanges;
mod heard;
mod hearing;
mod kind;
mod packets;
mod sessions;

use kind::Work;
use std::env;
use std::process::ExitCode;

/// The two words after the program's name, as a kind of work and a count. None where they are none.
fn words(rt: &HostRuntime) -> Option<(Work, u64)> {
    let mut words = env::args(rt).ok()?.skip(1);
    let kind = words.next()?;
    let count = words.next()?;
    Some((
        Work::of(kind.as_str())?,
        count.as_str().parse::<u64>().ok()?,
    ))
}

fn main(rt: HostRuntime) -> ExitCode {
    let Some((work, count)) = words(&rt) else {
        let _ = eprintln!(rt; "osdp_bench: a kind of work and a count are wanted");
        return ExitCode::from(2);
    };
    match work.done(rt.alloc(), count) {
        Some(done) => {
            let _ = println!(rt; "{done}");
            ExitCode::from(0)
        }
        None => {
            let _ = eprintln!(rt; "osdp_bench: out of memory");
            ExitCode::from(4)
        }
    }
}
