//! What the words after the name of a command that reads captures ask for.

ghost use Rattle.std.specs.Prelude.{◌≡◌};
ghost use Rattle.osdp_tool.specs.Job.{texts_of};
ghost use Rattle.osdp_tool_inputs.specs.Asked.{ReadsWords, TaskOf, check_task, detail_of, form_of, has_lines, show_task};

use osdp_tool::{CaptureMode, are_files, capture_mode};
use osdp_tool_captures::{Format, Tool};
use osdp_tool_monitor::{MonitorMode, monitor_mode};
use osdp_tool_show::{Detail, Filter};
use osdp_tool_streams::Form;

/// A command that reads captures.
#[derive(Clone, Copy, Debug, PartialEq, Eq)]
pub enum Reads {
    /// `show`
    Show,
    /// `check`
    Check,
    /// `monitor`
    Monitor,
}

/// What is done with an input.
#[derive(Clone, Copy)]
pub enum Task {
    /// Its items are printed in this detail; all lines of digits are one run, or each is.
    Print(Detail, bool),
    /// The same, each line after the moment and the way of its run.
    Time(Detail, bool),
    /// It is listened to.
    Listen(MonitorMode),
}

/// What the words after the name of a command ask for.
#[derive(Clone, Copy)]
pub struct Asked<'a> {
    /// What is done with each input.
    pub task: Task,
    /// The form that each is in.
    pub format: Format,
    /// The names of the inputs; standard input where there is none.
    pub files: &'a [&'a str],
}

/// How much is printed of the items.
fn detail_of(mode: CaptureMode) -> Detail
    ensures { result ≡ detail_of mode }
{
    let address = mode.address;
    let no_polls = mode.no_polls;
    if address.is_some() || no_polls {
        return Detail::Filtered(Filter { address, no_polls });
    }
    Detail::Full
}

/// What `show` does.
fn show_task(mode: CaptureMode) -> Task
    ensures { result ≡ show_task mode }
{
    let detail = detail_of(mode);
    if mode.times {
        return Task::Time(detail, mode.join);
    }
    Task::Print(detail, mode.join)
}

/// What `check` does; None where it has no such options.
fn check_task(mode: CaptureMode) -> Option<Task>
    ensures { result ≡ check_task mode }
{
    if mode.address.is_some() || (mode.no_polls || mode.times) {
        return None;
    }
    Some(Task::Print(Detail::Refusals, mode.join))
}

/// Whether the input is in lines of digits, or is read as such.
pub(crate) fn has_lines(format: Format) -> bool
    ensures { result ≡ has_lines format }
{
    match format {
        Format::Digits | Format::Of(_) => true,
        Format::Bytes => false,
    }
}

/// How lines of digits stand in runs, of a capture in this form.
pub(crate) fn form_of(format: Format, join: bool) -> Form
    ensures { result ≡ form_of format join }
{
    match format {
        Format::Bytes => Form::Raw,
        Format::Of(Tool::Xxd) => Form::Joined,
        Format::Digits | Format::Of(Tool::Osdpcap | Tool::Stamped) => {
            if join { Form::Joined } else { Form::Apart }
        }
    }
}

/// What the options of a command ask for; None where they are none of its options.
fn task_of(reads: Reads, format: Format, options: &[&str]) -> Option<Task>
    ensures { TaskOf reads format (texts_of options.now) result }
{
    match reads {
        Reads::Show => Some(show_task(capture_mode(options)?)),
        Reads::Check => check_task(capture_mode(options)?),
        Reads::Monitor => Some(Task::Listen(monitor_mode(has_lines(format), options)?)),
    }
}

/// What the words after the name of a command ask for: options, and then files. None where they are none.
pub fn read_words<'a>(reads: Reads, format: Format, words: &'a [&'a str]) -> Option<Asked<'a>>
    ensures { ReadsWords reads format (texts_of words.now) result }
{
    let mut count = 0;
    'fronts: while count <= words.len() {
        let (options, files) = words.split_at(words.len() - count);
        if !are_files(files) {
            return None;
        }
        if let Some(task) = task_of(reads, format, options) {
            return Some(Asked {
                task,
                format,
                files,
            });
        }
        count += 1;
    }
    None
}
