//! The program `osdp`: packets read and made, scripts, panels and readers run, lines planned, both ends tested.
#![tactic(auto)]

mod wrong;

ghost use Rattle.std.specs.Prelude.{◌≡◌, false};
ghost use Rattle.osdp_tool_streams.specs.Watched.{has_failed};

use crate::wrong::{after_name, tell_wrong};
use osdp_line_calls::{LineCommand, LineDevice, LinePanel, LineRun, run_lines};
use osdp_tool::{
    Choice, Job, VERSION, arguments, choose, format_of, help_text, job, lent, make, without_formats,
};
use osdp_tool_captures::{Format, Unmarked};
use osdp_tool_inputs::{Reads, do_all, read_words};
use osdp_tool_plan::plan;
use osdp_tool_script::script;
use osdp_tool_sim::sim;
use osdp_tool_streams::{ToolFault, Watched, flush_out, write_out};
use osdp_tool_test::test;
use osdp_tool_test_panel::test_panel;
use std::io::Stdin;
use std::process::ExitCode;

/// Prints a text.
fn print(rt: &HostRuntime, text: &str) -> Result<(), ToolFault> {
    let mut output = Watched::new(rt.stdout());
    write_out(&mut output, text.as_bytes())?;
    flush_out(&mut output)
}

/// The lines of standard input, without the mark that an editor may have put in front of them.
fn lines_in(rt: &HostRuntime) -> Watched<Unmarked<Stdin>>
    ensures { has_failed result ≡ false }
{
    Watched::new(Unmarked::new(Format::Digits, rt.stdin()))
}

/// Answers the lines of standard input, with the settings that the words after the command's name give.
fn run_machine<P: LineCommand>(rt: &HostRuntime, words: &[&str]) -> Result<(), ToolFault> {
    let mut run = LineRun {
        alloc: rt.alloc(),
        words: after_name(words),
        input: lines_in(rt),
        output: Watched::new(rt.stdout()),
    };
    run_lines::<P, _, _>(&mut run)
}

/// Reads captures, as the words after the command's name ask. The status.
fn run_captures(rt: &HostRuntime, reads: Reads, words: &[&str]) -> Result<u8, ToolFault> {
    let words = after_name(words);
    let format = format_of(words);
    let left = without_formats(rt.alloc(), words)?;
    match read_words(reads, format, left.as_slice()) {
        Some(asked) => do_all(rt, &asked),
        None => Err(ToolFault::BadWords),
    }
}

/// Prints how long the line takes that the words after the command's name plan.
fn run_plan(rt: &HostRuntime, words: &[&str]) -> Result<(), ToolFault> {
    plan(
        rt.alloc(),
        after_name(words),
        &mut Watched::new(rt.stdout()),
    )
}

/// Judges a device, or runs a script, by the lines of standard input. The status.
fn run_test(rt: &HostRuntime, words: &[&str]) -> Result<u8, ToolFault> {
    let mut input = lines_in(rt);
    let mut output = Watched::new(rt.stdout());
    match words {
        ["script", rest @ ..] => script(rt.alloc(), rest, &mut input, &mut output),
        ["panel", rest @ ..] => test_panel(rt.alloc(), rest, &mut input, &mut output),
        _ => test(rt.alloc(), words, &mut input, &mut output),
    }
}

/// Does the job that the words choose.
fn run_job(rt: &HostRuntime, words: &[&str]) -> Result<(), ToolFault> {
    let mut output = Watched::new(rt.stdout());
    match job(words)? {
        Job::Make => make(rt.alloc(), after_name(words), &mut output),
        Job::Sim => sim(rt.alloc(), &mut lines_in(rt), &mut output),
    }
}

/// Does what the words ask for. The status, which is 1 where a refusal was met.
fn run(rt: &HostRuntime) -> Result<u8, ToolFault> {
    let arguments = arguments(rt)?;
    let words = lent(rt.alloc(), &arguments)?;
    match choose(&words) {
        Choice::Help(topic) => print(rt, help_text(topic))?,
        Choice::Version => print(rt, VERSION)?,
        Choice::Show => return run_captures(rt, Reads::Show, &words),
        Choice::Check => return run_captures(rt, Reads::Check, &words),
        Choice::Monitor => return run_captures(rt, Reads::Monitor, &words),
        Choice::Panel => run_machine::<LinePanel>(rt, &words)?,
        Choice::Reader => run_machine::<LineDevice>(rt, &words)?,
        Choice::Plan => run_plan(rt, &words)?,
        Choice::Test => return run_test(rt, after_name(&words)),
        Choice::Job => run_job(rt, &words)?,
    }
    Ok(0)
}

/// Says more of bad words, after it was said that they are bad.
fn explain(rt: &HostRuntime) -> Result<(), ToolFault> {
    let arguments = arguments(rt)?;
    let words = lent(rt.alloc(), &arguments)?;
    tell_wrong(rt, &words)
}

fn main(rt: HostRuntime) -> ExitCode {
    match run(&rt) {
        Ok(status) => ExitCode::from(status),
        Err(fault) => {
            let _ = eprintln!(rt; "{fault}");
            if fault == ToolFault::BadWords {
                let _ = explain(&rt);
            }
            ExitCode::from(fault.status())
        }
    }
}
