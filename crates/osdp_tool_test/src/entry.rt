//! What was found of a rule.

ghost use Rattle.std.specs.Prelude.{◌≡◌, OnOk, string_bytes};
ghost use Rattle.osdp_tool_test.specs.Entries.{is_first_break, is_first_open, new_entry, outcome_of, told, with_finding};

use crate::rules::Ground;
use osdp_rules::{Finding, Verdict};
use std::alloc::Global;

/// How a rule comes out.
#[derive(Clone, Copy)]
pub enum Outcome {
    /// Nothing that was heard shows it.
    Unclear,
    /// It is kept.
    Ok,
    /// It is kept in a way that the standard leaves open.
    Either,
    /// It is broken.
    Broken,
    /// Its scenario was left out, and nothing else shows it.
    Skipped,
}

/// What was found of a rule.
#[derive(Drop)]
pub struct Entry {
    /// Its number.
    pub number: usize,
    /// What it says.
    pub says: &'static str,
    /// What asks for it.
    pub ground: Ground,
    /// The verdict on it.
    pub verdict: Verdict,
    /// The lines of what broke it first.
    pub fault: String,
    /// Why its scenario was left out; empty where it wasn't.
    pub skipped: String,
}

impl Entry {
    /// Nothing was found of it yet.
    pub fn new(alloc: Global, number: usize, says: &'static str, ground: Ground) -> Entry
        ensures { told result ≡ new_entry number says.now ground }
    {
        Entry {
            number,
            says,
            ground,
            verdict: Verdict::Unclear,
            fault: String::new(alloc),
            skipped: String::new(alloc),
        }
    }

    /// How it comes out.
    pub fn outcome(&self) -> Outcome
        ensures { result ≡ outcome_of (told self.now) }
    {
        match self.verdict {
            Verdict::Unclear => {
                if self.skipped.is_empty() {
                    Outcome::Unclear
                } else {
                    Outcome::Skipped
                }
            }
            Verdict::Ok => Outcome::Ok,
            Verdict::Either => Outcome::Either,
            Verdict::Broken => Outcome::Broken,
        }
    }

    /// Whether a finding leaves the rule open, and none did before.
    pub(crate) fn is_first_open(&self, found: Finding) -> bool
        ensures { result ≡ is_first_open self.now.verdict found }
    {
        match (self.verdict, found) {
            (Verdict::Unclear | Verdict::Ok, Finding::Either) => true,
            _ => false,
        }
    }

    /// One finding more. Whether it is the first that breaks the rule.
    pub fn judge(&mut self, found: Finding) -> bool
        ensures entry { told self.new ≡ with_finding found (told self.old) }
        ensures first { result ≡ is_first_break self.old.verdict found }
    {
        let before = self.verdict;
        self.verdict = before.after(found);
        match (before, found) {
            (Verdict::Broken, _) => false,
            (_, Finding::Broken) => true,
            _ => false,
        }
    }
}
