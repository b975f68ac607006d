//! What the findings of a scenario come to.

ghost use Rattle.std.specs.Prelude.{◌≡◌};
ghost use Rattle.osdp_rules.specs.Verdicts.{verdict_after};

use crate::finding::Finding;

/// The verdict on a rule.
#[derive(Clone, Copy, Debug, PartialEq, Eq)]
pub enum Verdict {
    /// Nothing that was heard shows it.
    Unclear,
    /// It is kept.
    Ok,
    /// It is kept in a way that the standard leaves open.
    Either,
    /// It is broken.
    Broken,
}

impl Verdict {
    /// The verdict after one finding more.
    pub fn after(self, found: Finding) -> Verdict
        ensures { result ≡ verdict_after self found }
    {
        match (self, found) {
            (Verdict::Broken, _) | (_, Finding::Broken) => Verdict::Broken,
            (_, Finding::Nothing) => self,
            (_, Finding::Either) | (Verdict::Either, Finding::Kept) => Verdict::Either,
            (_, Finding::Kept) => Verdict::Ok,
        }
    }
}
