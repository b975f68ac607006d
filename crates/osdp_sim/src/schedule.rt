//! Steps, one after the other.

use crate::step::SimStep;

/// A list of steps, which lends one at a time. It may be kept in less memory than the steps take.
pub trait Schedule: Drop {
    ghost use Rattle.std.specs.Prelude.{◌≡◌, List, [], ◌∷◌, MatchOption, drop};
    ghost use Rattle.osdp_sim.specs.declared.step.SimStep.{SimStep};

    /// The steps that are left.
    ghost left: { Self → List SimStep };

    /// The first of them. None where none is left.
    fn step(&self) -> Option<SimStep<'_>>
        ensures { MatchOption result (left self.now ≡ []) (λ step. left self.now ≡ step ∷ drop 1 (left self.now)) };

    /// Passes over the first of them.
    fn pass(&mut self)
        ensures { left self.new ≡ drop 1 (left self.old) };
}
