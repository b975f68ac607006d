//! What the words after the program's name choose, before `job` is asked.

ghost use Rattle.std.specs.Prelude.{◌≡◌, option_map};
ghost use Rattle.osdp_tool.specs.Job.{texts_of};
ghost use Rattle.osdp_tool.specs.Choice.{by_first, choice_of, help_of, is_known, topic_named, unknown_of, unless_known};

use crate::words::wants_help;

/// What a help tells of.
#[derive(Clone, Copy, Debug, PartialEq, Eq)]
pub enum Topic {
    /// The whole program.
    Program,
    /// The command `show`.
    Show,
    /// The command `monitor`.
    Monitor,
    /// The command `check`.
    Check,
    /// The command `make`.
    Make,
    /// The command `sim`.
    Sim,
    /// The command `panel`.
    Panel,
    /// The command `reader`.
    Reader,
    /// The command `plan`.
    Plan,
    /// The command `test`.
    Test,
}

/// What the words choose.
#[derive(Clone, Copy, Debug, PartialEq, Eq)]
pub enum Choice {
    /// The help of a topic is printed.
    Help(Topic),
    /// The product's version is printed.
    Version,
    /// Captures are printed item by item; the words after the first are options and files.
    Show,
    /// The refusals of captures are printed and counted; the words after the first are options and files.
    Check,
    /// A line is listened to; the words after the first are options and files.
    Monitor,
    /// A panel by lines of text runs; the words after the first are its settings.
    Panel,
    /// A reader by lines of text runs; the words after the first are its settings.
    Reader,
    /// The times of a line that is planned are told; the words after the first are its settings.
    Plan,
    /// A device or a panel is judged by lines of text; the words after the first say how.
    Test,
    /// None of these: `job` says what the words choose, or that they are bad.
    Job,
}

/// The help of the command of this name.
fn topic_named(name: &str) -> Choice
    ensures { result ≡ topic_named name.now }
{
    match name {
        "show" => Choice::Help(Topic::Show),
        "monitor" => Choice::Help(Topic::Monitor),
        "check" => Choice::Help(Topic::Check),
        "make" => Choice::Help(Topic::Make),
        "sim" => Choice::Help(Topic::Sim),
        "panel" => Choice::Help(Topic::Panel),
        "reader" => Choice::Help(Topic::Reader),
        "plan" => Choice::Help(Topic::Plan),
        "test" => Choice::Help(Topic::Test),
        _ => Choice::Job,
    }
}

/// What the words after `help` choose.
fn help_of(words: &[&str]) -> Choice
    ensures { result ≡ help_of (texts_of words.now) }
{
    match words {
        [] => Choice::Help(Topic::Program),
        [name] => topic_named(name),
        _ => Choice::Job,
    }
}

/// What the first word chooses, with the words after it.
fn by_first(first: &str, rest: &[&str]) -> Choice
    ensures { result ≡ by_first first.now (texts_of rest.now) }
{
    match first {
        "help" => help_of(rest),
        "show" => Choice::Show,
        "check" => Choice::Check,
        "monitor" => Choice::Monitor,
        "panel" => Choice::Panel,
        "reader" => Choice::Reader,
        "plan" => Choice::Plan,
        "test" => Choice::Test,
        "--help" | "-h" if rest.is_empty() => Choice::Help(Topic::Program),
        "--version" if rest.is_empty() => Choice::Version,
        _ => Choice::Job,
    }
}

/// What the words after the program's name choose.
///
/// No words, `help` alone, `--help` and `-h` ask for the help of the program, `help` and the name of a command, or the name and one of
/// these flags alone, for the help of that. `--version` stands alone.
/// After `show`, `check`, `monitor`, `panel`, `reader`, `plan` and `test` any other words may stand, which are read as options, files and settings. All other
/// words are for `job`.
pub fn choose(words: &[&str]) -> Choice
    ensures { result ≡ choice_of (texts_of words.now) }
{
    let [first, rest @ ..] = words else {
        return Choice::Help(Topic::Program);
    };
    if wants_help(rest) {
        return topic_named(first);
    }
    by_first(first, rest)
}

/// Whether the word may stand first: the name of a command, `help`, or a flag of the program.
fn is_known(word: &str) -> bool
    ensures { result ≡ is_known word.now }
{
    match word {
        "show" | "monitor" | "check" | "make" | "sim" | "panel" | "reader" | "plan" | "test" =>
            true,
        "help" | "--help" | "-h" | "--version" => true,
        _ => false,
    }
}

/// The word, where it may not stand first.
fn unless_known<'a>(word: &'a str) -> Option<&'a str>
    ensures { option_map (λ text. text.now) result ≡ unless_known word.now }
{
    if is_known(word) { None } else { Some(word) }
}

/// The word that stands where a command is named, and names none: the first, or the one after `help` alone.
pub fn unknown_command<'a>(words: &'a [&'a str]) -> Option<&'a str>
    ensures { option_map (λ text. text.now) result ≡ unknown_of (texts_of words.now) }
{
    match words {
        [] => None,
        [first] => unless_known(first),
        [first, name] => unless_known(if *first == "help" { name } else { first }),
        [first, ..] => unless_known(first),
    }
}
