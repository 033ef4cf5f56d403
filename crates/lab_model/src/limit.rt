//! What a plan or a session is asked for, within its limits.

ghost use Rattle.std.specs.Prelude.{◌≡◌, ◌≤◌, IfNone, IfSome};
ghost use Rattle.lab_model.specs.Film.{IsWithin};
ghost use Rattle.lab_model.specs.Limits.{all_ahead, most_budget};

use std::marker::Model;

/// So much media ahead, in milliseconds, that every film within the limits is there at instant 0.
pub const ALL_AHEAD_MS: u32 = 120_000_000;

/// The most labels that a budget allows.
pub const MOST_BUDGET: u32 = 1_000_000;

/// The media that are there at instant 0, in milliseconds, at most `ALL_AHEAD_MS`.
#[derive(Clone, Copy, Drop)]
pub struct Ahead {
    ms: u32,
}

impl Model for Ahead {
    ghost use Rattle.std.specs.Prelude.{ℕ, ◌≤◌};
    ghost use Rattle.lab_model.specs.Limits.{all_ahead};

    ghost Value = { ℕ };

    ghost view = { λ a. a.ms };

    ghost invariant = { λ a. a.ms ≤ all_ahead };

    ghost inverse = { λ n. record { ms = n } };
}

impl Ahead {
    /// So many milliseconds. `None` exactly where they are more than `ALL_AHEAD_MS`.
    pub fn new(ms: u32) -> Option<Ahead>
        ensures some { IfSome result (λ a. (a ≡ ms) × (ms ≤ all_ahead)) }
        ensures none { IfNone result (ms ≤ all_ahead → ⊥) }
    {
        if ms > ALL_AHEAD_MS {
            return None;
        }
        Some(Ahead { ms })
    }

    /// So much that every film is there at instant 0.
    pub fn all() -> Ahead
        ensures { result ≡ all_ahead }
    {
        Ahead { ms: ALL_AHEAD_MS }
    }

    /// The milliseconds.
    pub fn ms(&self) -> u32
        ensures value { result ≡ self.now }
        ensures limit { self.now ≤ all_ahead }
    {
        self.ms
    }
}

/// How many labels the frontiers of a plan may have, from 1 to `MOST_BUDGET`.
#[derive(Clone, Copy, Drop)]
pub struct Budget {
    labels: u32,
}

impl Model for Budget {
    ghost use Rattle.std.specs.Prelude.{ℕ};
    ghost use Rattle.lab_model.specs.Film.{IsWithin};
    ghost use Rattle.lab_model.specs.Limits.{most_budget};

    ghost Value = { ℕ };

    ghost view = { λ b. b.labels };

    ghost invariant = { λ b. IsWithin 1 most_budget b.labels };

    ghost inverse = { λ n. record { labels = n } };
}

impl Budget {
    /// So many labels. `None` exactly where there are none or more than `MOST_BUDGET`.
    pub fn new(labels: u32) -> Option<Budget>
        ensures some { IfSome result (λ b. (b ≡ labels) × IsWithin 1 most_budget labels) }
        ensures none { IfNone result (IsWithin 1 most_budget labels → ⊥) }
    {
        if labels == 0 || labels > MOST_BUDGET {
            return None;
        }
        Some(Budget { labels })
    }

    /// The number of labels.
    pub fn labels(&self) -> u32
        ensures value { result ≡ self.now }
        ensures limits { IsWithin 1 most_budget self.now }
    {
        self.labels
    }
}
