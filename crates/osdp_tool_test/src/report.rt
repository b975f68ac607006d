//! The lines of the report.

ghost use Rattle.std.specs.Prelude.{◌≡◌, ◌++◌, IfOk, OnOk, length, map, string_bytes};
ghost use Rattle.osdp_tool_test.specs.Entries.{told};
ghost use Rattle.osdp_tool_test.specs.Report.{all_counts, counts_line, entries_text, entry_text, ground_name, has_outcome, kept_words, number_of, plain_line, report_text, tap_line, unkept_words};

use crate::entry::{Entry, Outcome};
use crate::rules::Ground;
use std::alloc::{AllocError, Global};

/// How the report is printed.
#[derive(Clone, Copy)]
pub enum Form {
    /// In lines for people.
    Plain,
    /// In lines that other programs read: the Test Anything Protocol.
    Tap,
}

/// How many rules came out in each way.
#[derive(Clone, Copy)]
pub struct Counts {
    /// The rule is kept.
    pub ok: usize,
    /// It is kept in another way.
    pub either: usize,
    /// It is broken.
    pub broken: usize,
    /// Nothing shows it.
    pub unclear: usize,
    /// Its scenario was left out.
    pub skipped: usize,
}

/// Whether a rule came out so.
fn has_outcome(wanted: Outcome, entry: &Entry) -> bool
    ensures { result ≡ has_outcome wanted (told entry.now) }
{
    match (wanted, entry.outcome()) {
        (Outcome::Unclear, Outcome::Unclear)
        | (Outcome::Ok, Outcome::Ok)
        | (Outcome::Either, Outcome::Either)
        | (Outcome::Broken, Outcome::Broken)
        | (Outcome::Skipped, Outcome::Skipped) => true,
        _ => false,
    }
}

/// How many rules came out so.
pub(crate) fn number_of(wanted: Outcome, entries: &[Entry]) -> usize
    ensures { result ≡ number_of wanted (map told entries.now) }
{
    let mut count = 0;
    'entries: for entry in entries {
        if has_outcome(wanted, entry) {
            count += 1;
        }
    }
    count
}

impl Counts {
    /// How many of these rules came out in each way.
    pub fn of(entries: &[Entry]) -> Counts
        ensures { result ≡ all_counts (map told entries.now) }
    {
        Counts {
            ok: number_of(Outcome::Ok, entries),
            either: number_of(Outcome::Either, entries),
            broken: number_of(Outcome::Broken, entries),
            unclear: number_of(Outcome::Unclear, entries),
            skipped: number_of(Outcome::Skipped, entries),
        }
    }
}

/// What asks for a rule.
fn ground_name(ground: Ground) -> &'static str
    ensures { result.now ≡ ground_name ground }
{
    match ground {
        Ground::Asked => "the standard asks it",
        Ground::Open => "the standard leaves it open in part",
        Ground::Habit => "a habit of most devices",
    }
}

/// Writes the line of a rule for people.
fn push_plain(text: &mut String, entry: &Entry) -> Result<(), AllocError>
    ensures { OnOk result (string_bytes text.new ≡ string_bytes text.old ++ plain_line (told entry.now)) }
{
    let (number, says) = (entry.number, entry.says);
    match entry.outcome() {
        Outcome::Unclear => {
            writeln!(
                text,
                "{number} unclear: {says}: nothing was heard that shows it"
            )
        }
        Outcome::Ok => writeln!(text, "{number} ok: {says}"),
        Outcome::Either => writeln!(text, "{number} ok, in another way: {says}"),
        Outcome::Broken => {
            let ground = ground_name(entry.ground);
            writeln!(text, "{number} broken: {says} ({ground})")
        }
        Outcome::Skipped => {
            let why = entry.skipped.as_str();
            writeln!(text, "{number} skipped: {says}: {why}")
        }
    }
}

/// Writes the line of a rule for other programs.
fn push_tap(text: &mut String, entry: &Entry) -> Result<(), AllocError>
    ensures { OnOk result (string_bytes text.new ≡ string_bytes text.old ++ tap_line (told entry.now)) }
{
    let (number, says) = (entry.number, entry.says);
    match entry.outcome() {
        Outcome::Unclear => {
            writeln!(
                text,
                "ok {number} - {says} # SKIP unclear: nothing was heard that shows it"
            )
        }
        Outcome::Ok | Outcome::Either => writeln!(text, "ok {number} - {says}"),
        Outcome::Broken => writeln!(text, "not ok {number} - {says}"),
        Outcome::Skipped => {
            let why = entry.skipped.as_str();
            writeln!(text, "ok {number} - {says} # SKIP {why}")
        }
    }
}

/// Writes the lines of a rule: how it came out, and what broke it.
fn push_entry(text: &mut String, form: Form, entry: &Entry) -> Result<(), AllocError>
    ensures { OnOk result (string_bytes text.new ≡ string_bytes text.old ++ entry_text form (told entry.now)) }
{
    match form {
        Form::Plain => push_plain(text, entry)?,
        Form::Tap => push_tap(text, entry)?,
    }
    text.push_str(entry.fault.as_str())
}

/// Writes the lines of all rules.
fn push_entries(text: &mut String, form: Form, entries: &[Entry]) -> Result<(), AllocError>
    ensures { OnOk result (string_bytes text.new ≡ string_bytes text.old ++ entries_text form (map told entries.now)) }
{
    'entries: for entry in entries {
        push_entry(text, form, entry)?;
    }
    Ok(())
}

/// Writes how many rules are kept.
#[tactic(auto, unfolding(crate::specs::Report::kept_words))]
fn push_kept(text: &mut String, total: usize, counts: &Counts) -> Result<(), AllocError>
    ensures { OnOk result (string_bytes text.new ≡ string_bytes text.old ++ kept_words total counts.now) }
{
    let (ok, either) = (counts.ok, counts.either);
    write!(text, "rules {total} ok {ok} otherwise {either}")
}

/// Writes how many aren't.
#[tactic(auto, unfolding(crate::specs::Report::unkept_words))]
fn push_unkept(text: &mut String, counts: &Counts) -> Result<(), AllocError>
    ensures { OnOk result (string_bytes text.new ≡ string_bytes text.old ++ unkept_words counts.now) }
{
    let (broken, unclear, skipped) = (counts.broken, counts.unclear, counts.skipped);
    writeln!(text, " broken {broken} unclear {unclear} skipped {skipped}")
}

/// Writes the last line, which counts the rules.
fn push_counts(
    text: &mut String,
    form: Form,
    total: usize,
    counts: &Counts,
) -> Result<(), AllocError>
    ensures { OnOk result (string_bytes text.new ≡ string_bytes text.old ++ counts_line form total counts.now) }
{
    match form {
        Form::Plain => {
            push_kept(text, total, counts)?;
            push_unkept(text, counts)
        }
        Form::Tap => writeln!(text, "1..{total}"),
    }
}

/// The report of these rules: the lines of each, and the counts.
pub fn report_text(alloc: Global, form: Form, entries: &[Entry]) -> Result<String, AllocError>
    ensures { IfOk result (λ text. string_bytes text ≡ report_text form (map told entries.now)) }
{
    let mut text = String::new(alloc);
    push_entries(&mut text, form, entries)?;
    push_counts(&mut text, form, entries.len(), &Counts::of(entries))?;
    Ok(text)
}
