//! Rules that choose a rung for the segment that is asked for.

ghost use Rattle.std.specs.Prelude.{◌≡◌, ◌-◌, ◌<◌, ◌≤◌, ◌↔◌, ◌++◌, ◌∷◌, [], ℕ, List, IsTrue, IfSome};
ghost use Rattle.lab_model.specs.Film.{rungs_of, segments_of};
ghost use Rattle.lab_model.specs.Fit.{SetupFits};
ghost use Rattle.lab_model.specs.Rules.{KindFits, RuleKind};
ghost use Rattle.lab_model.specs.Choice.{choice};

use crate::context::Context;
use crate::manifest::Manifest;
use crate::sample::Sample;
use crate::setup::Setup;

/// A rule that is told the samples of a session, in order, and chooses rungs.
pub trait Rule {
    /// The kind of the rule, with its numbers. No call changes it.
    ghost kind: { Self → RuleKind };

    /// The value stands for this history: the rates of the samples that it was told, in order.
    ghost stands_for: { Self → List ℕ → Type 0 };

    /// Whether the rule can be asked about this film.
    fn fits(&self, m: &Manifest) -> bool
        ensures { IsTrue result ↔ KindFits (kind self.now) m.now };

    /// Tells the rule the sample that joins the history.
    fn observe(&mut self, s: Sample)
        ensures kind { kind self.new ≡ kind self.old }
        ensures told { (history : List ℕ) → stands_for self.old history
            → stands_for self.new (history ++ s.rate ∷ []) };

    /// The rung for the next segment, after the history that the rule stands for.
    fn choose(&self, m: &Manifest, set: &Setup, c: &Context) -> u8
        requires setup { SetupFits set.now m.now }
        requires rule { KindFits (kind self.now) m.now }
        requires segment { c.now.next < segments_of m.now }
        requires level { c.now.level ≤ set.now.buffer_ms - m.now.seg_ms }
        requires last { IfSome c.now.last (λ rung. rung < rungs_of m.now) }
        ensures rung { result < rungs_of m.now }
        ensures choice { (history : List ℕ) → stands_for self.now history
            → result ≡ choice (kind self.now) m.now set.now c.now history };
}
