//! The two rules without a history: one rung throughout, and a rung for each segment.

ghost use Rattle.std.specs.Prelude.{◌≡◌, ℕ, ◌<◌, ◌↔◌, List, IsTrue, length};
ghost use Rattle.std.specs.List.{All};
ghost use Rattle.lab_model.specs.Rules.{fixed, listed};

use lab_model::{Context, Manifest, Rule, Sample, Setup};
use std::marker::Model;

/// Always the same rung.
#[derive(Clone, Copy, PartialEq, Eq, Debug)]
pub struct Fixed {
    /// The rung.
    pub rung: u8,
}

impl Rule for Fixed {
    ghost kind = { λ r. fixed r.rung };

    ghost stands_for = { λ r history. Unit {0} };

    fn fits(&self, m: &Manifest) -> bool {
        self.rung < m.rungs()
    }

    fn observe(&mut self, s: Sample) {
        let _ = s;
    }

    fn choose(&self, m: &Manifest, set: &Setup, c: &Context) -> u8 {
        let _ = m;
        let _ = set;
        let _ = c;
        self.rung
    }
}

/// A rung for each segment.
#[derive(Drop)]
pub struct Listed {
    rungs: Vec<u8>,
}

impl Model for Listed {
    ghost Value = { List ℕ };

    ghost view = { λ l. l.rungs.items };
}

impl Listed {
    /// The rule that asks for these rungs, one for each segment.
    pub fn new(rungs: Vec<u8>) -> Listed
        ensures { result ≡ rungs.items }
    {
        Listed { rungs }
    }
}

fn are_rungs(rungs: &[u8], count: u8) -> bool
    ensures { IsTrue result ↔ All (λ q. q < count) rungs.now }
{
    rungs.iter().all(|q| *q < count)
}

impl Rule for Listed {
    ghost kind = { λ l. listed l };

    ghost stands_for = { λ l history. Unit {0} };

    fn fits(&self, m: &Manifest) -> bool {
        self.rungs.len() == m.segments() as usize && are_rungs(&self.rungs, m.rungs())
    }

    fn observe(&mut self, s: Sample) {
        let _ = s;
    }

    fn choose(&self, m: &Manifest, set: &Setup, c: &Context) -> u8 {
        let _ = m;
        let _ = set;
        self.rungs[c.next as usize]
    }
}
