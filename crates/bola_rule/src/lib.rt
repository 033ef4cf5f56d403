//! The rule BOLA (INFOCOM 2016), in this project's whole numbers: it chooses by the level of the buffer alone.
#![tactic(auto)]

ghost use Rattle.std.specs.Prelude.{◌≡◌, ◌-◌, ◌<◌, ◌≤◌, ◌^◌, IfNone, IfSome, ℤ, pos, ◌≤ℤ◌, ◌-ℤ◌};
ghost use Rattle.lab_model.specs.Bola.{bola_at_most, bola_choice, bola_gain};
ghost use Rattle.lab_model.specs.Film.{IsWithin, rungs_of};
ghost use Rattle.lab_model.specs.Number.{IsNear};
ghost use Rattle.lab_model.specs.Rules.{bola};

use lab_model::{Context, Manifest, Rule, Sample, Setup, cmp_fraction};
use std::marker::Model;

#[cfg(test)]
mod tests;

/// The greatest `g`.
const MOST_G: u32 = 1_000_000;

/// BOLA with its `g`, 1 to 1000000: the greater it is, the more the buffer counts.
#[derive(Drop)]
pub struct Bola {
    g: u32,
}

impl Model for Bola {
    ghost use Rattle.std.specs.Prelude.{ℕ};
    ghost use Rattle.lab_model.specs.Film.{IsWithin};

    ghost Value = { ℕ };

    ghost view = { λ b. b.g };

    ghost invariant = { λ b. IsWithin 1 1000000 b.g };
}

impl Bola {
    /// The rule with this `g`. `None` exactly where it is 0 or above 1000000.
    pub fn new(g: u32) -> Option<Bola>
        ensures some { IfSome result (λ b. (b ≡ g) × IsWithin 1 1000000 g) }
        ensures none { IfNone result (IsWithin 1 1000000 g → ⊥) }
    {
        if g == 0 || g > MOST_G {
            return None;
        }
        Some(Bola { g })
    }
}

/// What the rule is asked: its `g`, and what the next rung is chosen from.
#[derive(Drop)]
struct Ask<'a> {
    g: u32,
    film: &'a Manifest,
    setup: &'a Setup,
    context: &'a Context,
}

impl<'a> Model for Ask<'a> {
    ghost use Rattle.bola_rule.specs.Asked.{Asked, IsAsked};

    ghost Value = { Asked };

    ghost view = { λ a.
        record { g = a.g; film = a.film.now; setup = a.setup.now; context = a.context.now } };

    ghost invariant = { λ a.
        IsAsked (record { g = a.g; film = a.film.now; setup = a.setup.now; context = a.context.now }) };
}

impl Ask<'_> {
    /// The numerator of a rung's score, whose divisor is its bitrate.
    fn gain(&self, rung: u8) -> i128
        requires rung { rung < rungs_of self.now.film }
        ensures value { result ≡
            bola_gain self.now.g self.now.film self.now.setup self.now.context rung }
        ensures near { IsNear (10 ^ 25) result }
    {
        let (m, set, c) = (self.film, self.setup, self.context);
        let room = set.buffer_ms - m.seg_ms();
        let utility = set.weights.utility(c.next, rung) + self.g;
        let greatest = set.weights.utility(c.next, m.rungs() - 1) + self.g;
        let earned = room as u64 * utility as u64;
        let held = c.level as u64 * greatest as u64;
        earned as i128 - held as i128
    }

    /// Whether the score of `other` is at most that of `rung`.
    fn is_at_most(&self, other: u8, rung: u8) -> bool
        requires other { other < rungs_of self.now.film }
        requires rung { rung < rungs_of self.now.film }
        ensures { result ≡
            bola_at_most self.now.g self.now.film self.now.setup self.now.context other rung }
    {
        let gain = self.gain(rung);
        let other_gain = self.gain(other);
        let divisor = self.film.bitrate(rung) as u64;
        let other_divisor = self.film.bitrate(other) as u64;
        cmp_fraction(other_gain, other_divisor, gain, divisor).is_le()
    }

    /// The least rung whose score no other exceeds.
    fn best(&self) -> u8
        ensures choice { result ≡
            bola_choice self.now.g self.now.film self.now.setup self.now.context }
        ensures rung { result < rungs_of self.now.film }
    {
        let mut best = 0;
        for rung in 1..self.film.rungs() {
            if !self.is_at_most(rung, best) {
                best = rung;
            }
        }
        best
    }
}

impl Rule for Bola {
    ghost kind = { λ g. bola g };

    ghost stands_for = { λ g history. Unit {0} };

    fn fits(&self, m: &Manifest) -> bool {
        let _ = m;
        true
    }

    fn observe(&mut self, s: Sample) {
        let _ = s;
    }

    fn choose(&self, m: &Manifest, set: &Setup, c: &Context) -> u8 {
        let ask = Ask {
            g: self.g,
            film: m,
            setup: set,
            context: c,
        };
        ask.best()
    }
}
