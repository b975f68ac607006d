//! The inputs of the commands that read captures: standard input, or files by their names.

ghost use Rattle.std.specs.Prelude.{◌≡◌, IfErr, IfOk, OnOk, false, true};
ghost use Rattle.std.specs.Io.KnownBytes.{Appends};
ghost use Rattle.osdp_tool_inputs.specs.Done.{DoesDirectly, DoesInput, DoesObjects, EndsWholly, bad_of, has_objects, heading, is_whole, recorded_of, status_of, text_of};
ghost use Rattle.osdp_tool_objects.specs.Outputs.{IsNew, output_of};
ghost use Rattle.osdp_tool_show.specs.Ending.{watched};
ghost use Rattle.osdp_tool_streams.specs.Watched.{has_failed, inner_of};

use crate::asked::{Asked, Task, has_lines};
use crate::hinted::Hinted;
use crate::tasks::{LONGEST, do_task};
use crate::told::{Told, told_of, told_with};
use osdp_tool_captures::{Format, Translated, Whole, read_whole, translate};
use osdp_tool_objects::Objects;
use osdp_tool_streams::{LIMIT, ToolFault, Watched, flush_out, write_out};
use std::fs;
use std::io::{Read, Write};

/// The name by which the system gives standard input.
const STANDARD_INPUT: &str = "/dev/stdin";

/// An input as lines of digits or as bytes, and the first bad line where another tool wrote it.
fn translated(rt: &HostRuntime, format: Format, bytes: Vec<u8>) -> Result<Translated, ToolFault>
    ensures text { IfOk result (λ t. t.text.items ≡ text_of format bytes.items) }
    ensures bad { IfOk result (λ t. t.bad ≡ bad_of format bytes.items) }
    ensures fault { IfErr result (λ fault. fault ≡ ToolFault.NoMemory) }
{
    match format {
        Format::Of(tool) => translate(rt.alloc(), tool, bytes.as_slice()),
        Format::Digits | Format::Bytes => Ok(Translated {
            text: bytes,
            bad: None,
        }),
    }
}

/// Does what is asked with an input once all of it was read. A fault of the input is told after what stands before it.
fn do_whole<R: Read, W: Write>(
    rt: &HostRuntime,
    asked: &Asked<'_>,
    input: &mut Watched<R>,
    output: &mut Watched<W>,
) -> Result<Told, ToolFault>
    requires { has_failed output.old ≡ false }
    ensures { EndsWholly asked.now LIMIT (watched R.remaining input.old input.new) (watched W.contents output.old output.new) result }
{
    let Whole { bytes, fault } = read_whole(rt.alloc(), LIMIT, input)?;
    let Translated { text, bad } = translated(rt, asked.format, bytes)?;
    let mut lines = Watched::new(text.as_slice());
    let answer = do_task(rt, asked, LONGEST, text.as_slice(), &mut lines, output);
    told_with(fault, bad, answer)
}

/// Whether an input is read whole before anything is told of it.
fn is_whole(format: Format, task: Task) -> bool
    ensures { result ≡ is_whole format task }
{
    match (format, task) {
        (Format::Of(_), _) => true,
        (_, Task::Time(..)) => true,
        (Format::Digits, Task::Listen(mode)) => mode.times,
        (Format::Bytes, Task::Listen(_)) => false,
        (Format::Digits | Format::Bytes, Task::Print(..)) => false,
    }
}

/// Whether objects of JSON are made of the lines that are told. With moments they are made of all lines at the end.
fn has_objects(task: Task, format: Format) -> bool
    ensures { result ≡ has_objects task format }
{
    match task {
        Task::Print(..) | Task::Time(..) => false,
        Task::Listen(mode) => mode.json && !(mode.times && has_lines(format)),
    }
}

/// Does what is asked with an input as it comes. Where the output or memory fails, nothing more is done.
fn do_directly<R: Read, W: Write>(
    rt: &HostRuntime,
    asked: &Asked<'_>,
    input: &mut Watched<R>,
    output: &mut Watched<W>,
) -> Result<Told, ToolFault>
    requires input { has_failed input.old ≡ false }
    requires output { has_failed output.old ≡ false }
    ensures { DoesDirectly asked.now LIMIT (watched R.remaining input.old input.new) (watched W.contents output.old output.new) result }
{
    told_of(do_task(rt, asked, LIMIT, &[], input, output))
}

/// Does what is asked with an input, read whole first where it has to be.
fn do_input<R: Read, W: Write>(
    rt: &HostRuntime,
    asked: &Asked<'_>,
    input: &mut Watched<R>,
    output: &mut Watched<W>,
) -> Result<Told, ToolFault>
    requires input { has_failed input.old ≡ false }
    requires output { has_failed output.old ≡ false }
    ensures { DoesInput (is_whole asked.now.format asked.now.task) asked.now LIMIT (watched R.remaining input.old input.new) (watched W.contents output.old output.new) result }
{
    if is_whole(asked.format, asked.task) {
        return do_whole(rt, asked, input, output);
    }
    do_directly(rt, asked, input, output)
}

/// Does what is asked with an input, and writes the lines that are told as objects of JSON. Where the output or memory fails, nothing more is done.
fn do_objects<R: Read, W: Write>(
    rt: &HostRuntime,
    asked: &Asked<'_>,
    input: &mut Watched<R>,
    output: &mut Watched<Objects<W>>,
) -> Result<Told, ToolFault>
    requires objects { has_objects asked.now.task asked.now.format ≡ true }
    requires input { has_failed input.old ≡ false }
    requires output { has_failed output.old ≡ false }
    requires new { IsNew W.contents (inner_of output.old) }
    ensures { DoesObjects asked.now LIMIT (watched R.remaining input.old input.new) (watched W.contents (output_of (inner_of output.old)) (output_of (inner_of output.new))) result }
{
    let told = do_input(rt, asked, input, output);
    match output.get_ref().fault() {
        None => told,
        Some(fault) => Err(fault),
    }
}

/// Does what is asked with an input, and prints it, as objects of JSON where they are asked for.
fn print_told<R: Read>(
    rt: &HostRuntime,
    asked: &Asked<'_>,
    input: &mut Watched<R>,
) -> Result<Told, ToolFault>
    requires { has_failed input.old ≡ false }
{
    if has_objects(asked.task, asked.format) {
        let mut output = Watched::new(Objects::new(rt.alloc(), rt.stdout()));
        return do_objects(rt, asked, input, &mut output);
    }
    do_input(rt, asked, input, &mut Watched::new(rt.stdout()))
}

/// Does what is asked with an input, prints it, and tells where the input plainly has another form.
fn print_input<R: Read + Drop>(
    rt: &HostRuntime,
    asked: &Asked<'_>,
    stream: R,
) -> Result<Told, ToolFault> {
    let mut hinted = Hinted::new(rt, asked.format, stream);
    let told = print_told(rt, asked, &mut Watched::new(&mut hinted));
    hinted.tell();
    told
}

/// The same of bytes that were recorded before: no silence ends a run of theirs.
fn recorded<'a>(asked: &Asked<'a>) -> Asked<'a>
    ensures { result ≡ recorded_of asked.now }
{
    let mut asked = *asked;
    if let Task::Listen(mode) = &mut asked.task {
        mode.recorded = true;
    }
    asked
}

/// Does what is asked with standard input. Where that is a regular file, its bytes were recorded before.
fn print_standard(rt: &HostRuntime, asked: &Asked<'_>) -> Result<Told, ToolFault> {
    if let Ok(input) = fs::metadata(rt, STANDARD_INPUT) {
        if input.is_file() {
            return print_input(rt, &recorded(asked), rt.stdin());
        }
    }
    print_input(rt, asked, rt.stdin())
}

/// Does what is asked with each input, one after the other, and gives the greatest status. Where there are several, a comment with its name
/// stands above what is printed of each.
pub fn do_all(rt: &HostRuntime, asked: &Asked<'_>) -> Result<u8, ToolFault> {
    if asked.files.is_empty() {
        let told = print_standard(rt, asked)?;
        return Ok(status_of(rt, told, ""));
    }
    let mut worst = 0;
    'files: for name in asked.files {
        if asked.files.len() > 1 {
            print_heading(&mut Watched::new(rt.stdout()), name)?;
        }
        worst = worst.max(do_file(rt, asked, name)?);
    }
    Ok(worst)
}

/// Prints the name of an input, above what is printed of it.
fn print_heading<W: Write>(output: &mut Watched<W>, name: &str) -> Result<(), ToolFault>
    ensures { OnOk result (Appends (W.contents (inner_of output.old)) (W.contents (inner_of output.new)) (heading name.now)) }
{
    write_out(output, b"# ")?;
    write_out(output, name.as_bytes())?;
    write_out(output, b"\n")?;
    flush_out(output)
}

/// Says what is wrong with an input, and gives the status for it.
fn status_of(rt: &HostRuntime, told: Told, name: &str) -> u8
    ensures { result ≡ status_of told }
{
    match told {
        Told::Refused(refused) => u8::from(refused),
        Told::Bad(bad) => {
            let _ = eprintln!(rt; "osdp: {bad}{name}");
            2
        }
        Told::Failed(fault) => {
            let _ = eprintln!(rt; "{fault}{name}");
            fault.status()
        }
    }
}

/// Does what is asked with the file of a name, or with standard input where that is a hyphen, and gives the status.
fn do_file(rt: &HostRuntime, asked: &Asked<'_>, name: &str) -> Result<u8, ToolFault> {
    if name == "-" {
        let told = print_standard(rt, asked)?;
        return Ok(status_of(rt, told, ": -"));
    }
    match fs::open(rt, name) {
        Ok(file) => {
            let told = print_input(rt, &recorded(asked), file)?;
            let Ok(suffix) = format!(in rt.alloc(); ": {name}") else {
                return Err(ToolFault::NoMemory);
            };
            Ok(status_of(rt, told, suffix.as_str()))
        }
        Err(error) => {
            let _ = eprintln!(rt; "osdp: {name}: {error}");
            Ok(ToolFault::ReadFailed.status())
        }
    }
}
