//! The generator of made cases.

ghost use Rattle.std.specs.Prelude.{◌≡◌, ◌<◌, ◌≤◌};
ghost use Rattle.demo_case.specs.Draws.{draw, next_state};

use std::marker::Model;

/// The state from which numbers are drawn, 0 to 2147483647.
#[derive(Drop)]
pub struct Draws {
    state: u32,
}

impl Model for Draws {
    ghost use Rattle.std.specs.Prelude.{ℕ, ◌≤◌};

    ghost Value = { ℕ };

    ghost view = { λ d. d.state };

    ghost invariant = { λ d. d.state ≤ 2147483647 };
}

/// A state follows from the one before by this factor ..
const FACTOR: u64 = 1_103_515_245;

/// .. and this summand, ..
const SUMMAND: u64 = 12_345;

/// .. modulo this.
const STATES: u64 = 2_147_483_648;

/// The low bits of a state, which are not drawn, as a divisor.
const LOW_BITS: u32 = 65_536;

impl Draws {
    /// The draws from a state on, 0 to 2147483647.
    pub fn new(state: u32) -> Draws
        requires { state ≤ 2147483647 }
        ensures { result ≡ state }
    {
        Draws { state }
    }

    /// The next drawn number, 0 to 32767.
    #[tactic(auto, unfolding(crate::specs::Draws::state_after))]
    pub fn next(&mut self) -> u32
        ensures value { result ≡ draw self.old 0 }
        ensures state { self.new ≡ next_state self.old }
        ensures range { result < 32768 }
    {
        self.state = ((self.state as u64 * FACTOR + SUMMAND) % STATES) as u32;
        self.state / LOW_BITS
    }
}
