//! RobustMPC (Yin, Jindal, Sekar and Sinopoli, SIGCOMM 2015) in this project's fixed point: a rule that looks a few segments
//! ahead, and reckons with a rate that its errors so far make cautious.
#![tactic(auto)]

ghost use Rattle.std.specs.Prelude.{◌≡◌, ◌≤◌, ◌<◌, ◌↔◌, [], ◌∷◌, ◌++◌, ℕ, List, length, IfOk, IsTrue};
ghost use Rattle.lab_model.specs.Film.{IsWithin};
ghost use Rattle.lab_model.specs.Rules.{mpc};
ghost use Rattle.mpc_rule.specs.Recall.{Recall, IsRecallOf, rate_ahead};

mod forecast;
mod outlook;
mod relaxation;
mod ring;
mod search;

use forecast::LONGEST;
use lab_model::{Context, Manifest, Rule, Sample, Setup};
use outlook::Outlook;
use ring::{Errors, Rates};
use std::alloc::{AllocError, Global};
use std::marker::Model;

/// Why there is no rule.
#[derive(Clone, Copy, PartialEq, Eq, Debug)]
pub enum MpcErr {
    /// The horizon is 0 or above 5.
    BadHorizon,
    /// Out of memory.
    Memory,
}

impl From<AllocError> for MpcErr {
    ghost use Rattle.std.specs.Prelude.{◌≡◌};
    ghost use Rattle.mpc_rule.specs.declared.MpcErr.TheVariants.{Memory};

    ghost from_gives = { λ _ e. e ≡ Memory };

    fn from(_refused: AllocError) -> MpcErr {
        MpcErr::Memory
    }
}

/// The rule RobustMPC: the first rung of the first list of rungs, as long as the horizon, with the greatest horizon score.
/// It keeps the last 5 rates and the last 5 errors.
#[derive(Drop)]
pub struct RobustMpc {
    horizon: u8,
    rates: Rates,
    errors: Errors,
}

impl Model for RobustMpc {
    ghost use Rattle.lab_model.specs.Film.{IsWithin};
    ghost use Rattle.mpc_rule.specs.Recall.{Recall};

    ghost Value = { Recall };

    ghost view = { λ r. record { horizon = r.horizon; rates = r.rates; errors = r.errors } };

    ghost invariant = { λ r. IsWithin 1 5 r.horizon };
}

impl RobustMpc {
    /// The rule of a horizon of 1 to 5 segments, for the empty history. `BadHorizon` exactly where the horizon is 0 or above 5.
    pub fn new(alloc: Global, horizon: u8) -> Result<RobustMpc, MpcErr>
        ensures kind { IfOk result (λ r. r.horizon ≡ horizon) }
        ensures stands { IfOk result (λ r. IsRecallOf r []) }
        ensures bad { (result ≡ Err MpcErr.BadHorizon) ↔ (¬ IsWithin 1 5 horizon) }
    {
        if horizon == 0 || horizon as usize > LONGEST {
            return Err(MpcErr::BadHorizon);
        }
        Ok(RobustMpc {
            horizon,
            rates: Rates::new(alloc)?,
            errors: Errors::new(alloc)?,
        })
    }

    /// The rate that is reckoned with, in bits per second.
    fn rate_ahead(&self) -> u64
        requires { 0 < length self.now.rates }
        ensures value { result ≡ rate_ahead self.now }
        ensures limits { IsWithin 1 10000000000 result }
    {
        (1000 * self.rates.harmonic() / (1000 + self.errors.greatest())).max(1)
    }
}

impl Rule for RobustMpc {
    ghost kind = { λ r. mpc r.horizon };

    ghost stands_for = { IsRecallOf };

    fn fits(&self, m: &Manifest) -> bool {
        let _ = m;
        true
    }

    fn observe(&mut self, s: Sample) {
        if !self.rates.is_empty() {
            self.errors.push(self.rates.error(s));
        }
        self.rates.push(s);
    }

    fn choose(&self, m: &Manifest, set: &Setup, c: &Context) -> u8 {
        if self.rates.is_empty() {
            return 0;
        }
        prove!(set.weights.count() > 0);
        let to_come = m.segments() - c.next;
        let outlook = Outlook {
            film: m,
            setup: set,
            context: c,
            rate: self.rate_ahead(),
            span: to_come.min(self.horizon as u16) as u8,
        };
        outlook.best_rung()
    }
}

#[cfg(test)]
mod tests;
