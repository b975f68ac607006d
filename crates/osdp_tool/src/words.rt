ghost use Rattle.std.specs.Prelude.{◌≡◌};
ghost use Rattle.osdp_tool.specs.Job.{job_of, texts_of, wants_help};

use crate::jobs::Job;
use osdp_tool_streams::ToolFault;

/// Whether the words are `--help` or `-h` alone.
pub(crate) fn wants_help(words: &[&str]) -> bool
    ensures { result ≡ wants_help (texts_of words.now) }
{
    match words {
        [] => false,
        [word] => *word == "--help" || *word == "-h",
        _ => false,
    }
}

/// The job that the words after the program's name choose.
///
/// The first word is the command. After `make` any words may stand, which `make` reads, but `--help` or `-h` alone. `sim` stands alone. Every
/// other list of words is `BadWords`.
pub fn job(words: &[&str]) -> Result<Job, ToolFault>
    ensures { result ≡ job_of (texts_of words.now) }
{
    let [command, rest @ ..] = words else {
        return Err(ToolFault::BadWords);
    };
    if *command == "make" {
        return if wants_help(rest) {
            Err(ToolFault::BadWords)
        } else {
            Ok(Job::Make)
        };
    }
    if *command == "sim" && rest.is_empty() {
        return Ok(Job::Sim);
    }
    Err(ToolFault::BadWords)
}
