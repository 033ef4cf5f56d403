//! The score of a session: utilities, changes of utility, stalls and startup.
#![tactic(auto)]

ghost use Rattle.std.specs.Prelude.{◌≡◌, ℕ, ◌+◌, ◌-◌, ◌*◌, ◌<◌, ◌≤◌, List, [], ◌∷◌, ◌++◌, length, ℤ, pos, ◌-ℤ◌, IfSome};
ghost use Rattle.std.specs.List.{All};
ghost use Rattle.lab_model.specs.declared.context.Played.{Played};
ghost use Rattle.lab_model.specs.Weighing.{HasUtility, IsWeighing, Weighing, change_of, utility_of};
ghost use Rattle.quality_score.specs.Score.{CanScore, most_ms, most_scored, score_of};
ghost use Rattle.quality_score.specs.Tallied.{IsSmall, IsTallyOf};

use lab_model::{Played, Weights};
use std::marker::Model;

#[cfg(test)]
mod tests;

/// A running score: it stands for the played segments that it was told, under one set of weights.
#[derive(Drop)]
pub struct Tally {
    utilities: u64,
    changes: u64,
    last: Option<u8>,
    count: u32,
}

impl Model for Tally {
    ghost use Rattle.quality_score.specs.Tallied.{IsSmall, Tallied};

    ghost Value = { Tallied };

    ghost view = { λ t.
        record { utilities = t.utilities; changes = t.changes; last = t.last; count = t.count } };

    ghost invariant = { λ t. IsSmall
        (record { utilities = t.utilities; changes = t.changes; last = t.last; count = t.count }) };
}

impl Tally {
    /// A tally of no segment.
    pub fn start() -> Tally
        ensures stands { (w : Weighing) → IsTallyOf w [] result }
        ensures last { result.last ≡ None }
        ensures count { result.count ≡ 0 }
    {
        Tally {
            utilities: 0,
            changes: 0,
            last: None,
            count: 0,
        }
    }

    /// Tells the tally the next played segment. It has a utility, and so has the rung before at this segment.
    /// Fewer than 40000 were told before.
    pub fn push(&mut self, p: Played, w: &Weights)
        requires utility { HasUtility w.now p.segment p.rung }
        requires before { IfSome self.old.last (λ q. q < w.now.count) }
        requires count { self.old.count < most_scored }
        ensures stands { (ps : List Played) → IsTallyOf w.now ps self.old
            → IsTallyOf w.now (ps ++ p ∷ []) self.new }
        ensures last { self.new.last ≡ Some p.rung }
        ensures more { self.new.count ≡ self.old.count + 1 }
    {
        self.utilities += w.utility(p.segment, p.rung) as u64;
        self.changes += w.change(p.segment, self.last, p.rung) as u64;
        self.last = Some(p.rung);
        self.count += 1;
    }

    /// What is taken for the changes, the stall and the startup, in thousandths of a point.
    fn penalty(&self, stall_ms: u64, startup_ms: u64, w: &Weights) -> u128
        requires stall { stall_ms ≤ most_ms }
        requires startup { startup_ms ≤ most_ms }
        ensures value { result ≡ w.now.switch * self.now.changes + w.now.stall * stall_ms
            + w.now.startup * startup_ms }
        ensures limit { result ≤ 3000000000000000000000 }
    {
        w.switch() as u128 * self.changes as u128
            + w.stall() as u128 * stall_ms as u128
            + w.startup() as u128 * startup_ms as u128
    }

    /// The score of the segments that the tally was told, in thousandths of a point. Both times are in milliseconds, at most 10^15.
    pub fn total(&self, stall_ms: u64, startup_ms: u64, w: &Weights) -> i128
        requires stall { stall_ms ≤ most_ms }
        requires startup { startup_ms ≤ most_ms }
        ensures { (ps : List Played) → IsTallyOf w.now ps self.now
            → result ≡ score_of w.now ps stall_ms startup_ms }
    {
        1000 * self.utilities as i128 - self.penalty(stall_ms, startup_ms, w) as i128
    }
}

/// The score of played segments, in thousandths of a point: 1000 for each point of utility, less the weighed changes,
/// stall and startup. (After Yin, Jindal, Sekar and Sinopoli, SIGCOMM 2015.) Each segment has a utility, there are at most 40000,
/// and both times are in milliseconds, at most 10^15.
pub fn score(played: &[Played], stall_ms: u64, startup_ms: u64, w: &Weights) -> i128
    requires played { CanScore w.now played.now }
    requires stall { stall_ms ≤ most_ms }
    requires startup { startup_ms ≤ most_ms }
    ensures { result ≡ score_of w.now played.now stall_ms startup_ms }
{
    let mut tally = Tally::start();
    for p in played {
        tally.push(*p, w);
    }
    tally.total(stall_ms, startup_ms, w)
}
