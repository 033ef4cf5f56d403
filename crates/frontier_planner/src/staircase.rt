//! Staircases: of labels that were met, those that count for delay and value.

ghost use Rattle.std.specs.Prelude.{◌↔◌, ◌≤◌, ◌<◌, ◌⊎◌, ◌++◌, ◌∷◌, ℕ, ℤ, [], ◌≡◌, ◌≤ℤ◌, ◌<ℤ◌, take, drop, IfOk, IsTrue, int_le, length, vec_len};
ghost use Rattle.std.specs.List.{AllWithin};
ghost use Rattle.frontier_planner.specs.Staircase.{IsRising};
ghost use Rattle.frontier_planner.specs.Sweep.{HasUnder};

use lab_model::Label;
use std::alloc::{AllocError, Global};

/// Whether the first label has no less a value than the second.
fn is_worth(a: Label, b: Label) -> bool
    ensures { result ≡ int_le b.v a.v }
{
    a.v >= b.v
}

/// How many of the steps have no longer a delay than the label.
fn steps_up_to(steps: &[Label], l: Label) -> usize
    requires { IsRising steps.now }
    ensures bound { result ≤ length steps.now }
    ensures below { AllWithin (λ s. s.p ≤ l.p) steps.now 0 result }
    ensures above { AllWithin (λ s. l.p < s.p) steps.now result (length steps.now) }
{
    steps.partition_point(|s| s.p <= l.p)
}

/// How many of the steps have a shorter delay than the label.
fn steps_before(steps: &[Label], l: Label) -> usize
    requires { IsRising steps.now }
    ensures bound { result ≤ length steps.now }
    ensures below { AllWithin (λ s. s.p < l.p) steps.now 0 result }
    ensures above { AllWithin (λ s. l.p ≤ s.p) steps.now result (length steps.now) }
{
    steps.partition_point(|s| s.p < l.p)
}

/// How many of the steps have no greater a value than the label. Those before a place have none.
fn steps_worth(steps: &[Label], from: usize, l: Label) -> usize
    requires rising { IsRising steps.now }
    requires bound { from ≤ length steps.now }
    requires below { AllWithin (λ s. s.v ≤ℤ l.v) steps.now 0 from }
    ensures order { from ≤ result }
    ensures bound { result ≤ length steps.now }
    ensures below { AllWithin (λ s. s.v ≤ℤ l.v) steps.now 0 result }
    ensures above { AllWithin (λ s. l.v <ℤ s.v) steps.now result (length steps.now) }
{
    let mut count = from;
    while count < steps.len() && is_worth(l, steps[count]) {
        count += 1;
    }
    count
}

/// Puts a label in the place of the steps at the places from `from` to before `to`.
fn put_step(steps: &mut Vec<Label>, from: usize, to: usize, l: Label) -> Result<(), AllocError>
    requires order { from ≤ to }
    requires bound { to ≤ vec_len steps.old }
    ensures { IfOk result (λ _. steps.new.items ≡ take from steps.old.items ++ l ∷ drop to steps.old.items) }
{
    if from == to {
        steps.insert(from, l)?;
        return Ok(());
    }
    steps[from] = l;
    steps.drain(from + 1..to);
    Ok(())
}

/// Whether the first label has no longer a delay and no less a value than the second.
fn is_under(a: Label, b: Label) -> bool
    ensures { IsTrue result → (a.p ≤ b.p) × (b.v ≤ℤ a.v) }
{
    a.p <= b.p && is_worth(a, b)
}

/// Whether at a place stands a step that has no longer a delay and no less a value than the label.
fn is_under_at(steps: &[Label], place: usize, l: Label) -> bool
    ensures { IsTrue result → HasUnder steps.now l.p l.v }
{
    place < steps.len() && is_under(steps[place], l)
}

/// Labels along which delays and values rise.
#[derive(Drop)]
pub struct Staircase {
    /// The labels.
    pub steps: Vec<Label>,
    /// Where the last of them was added: it covers most labels that some step covers.
    pub recent: usize,
}

impl Staircase {
    /// A staircase without steps.
    pub fn new(alloc: Global) -> Staircase
        ensures { result.steps.items ≡ [] }
    {
        Staircase {
            steps: Vec::new(alloc),
            recent: 0,
        }
    }

    /// Whether some step has no longer a delay and no less a value than the label.
    pub fn covers(&self, l: Label) -> bool
        requires { IsRising self.now.steps.items }
        ensures { IsTrue result ↔ HasUnder self.now.steps.items l.p l.v }
    {
        if is_under_at(&self.steps, self.recent, l) {
            return true;
        }
        let count = steps_up_to(&self.steps, l);
        count > 0 && is_worth(self.steps[count - 1], l)
    }

    /// Adds a label that no step covers. The steps that it makes idle go.
    pub fn add(&mut self, l: Label) -> Result<(), AllocError>
        requires rising { IsRising self.old.steps.items }
        requires free { HasUnder self.old.steps.items l.p l.v → ⊥ }
        ensures rising { IfOk result (λ _. IsRising self.new.steps.items) }
        ensures adds { IfOk result (λ _. (p : ℕ) (v : ℤ)
            → HasUnder self.new.steps.items p v
            ↔ (HasUnder self.old.steps.items p v ⊎ ((l.p ≤ p) × (v ≤ℤ l.v)))) }
    {
        let from = steps_before(&self.steps, l);
        let to = steps_worth(&self.steps, from, l);
        put_step(&mut self.steps, from, to, l)?;
        self.recent = from;
        Ok(())
    }
}
