//! What a session is played with.

ghost use Rattle.std.specs.Prelude.{◌≡◌, ◌↔◌, IsTrue};
ghost use Rattle.lab_model.specs.Fit.{SetupFits, buffer_fits, utilities_fit};

use crate::manifest::Manifest;
use crate::weights::Weights;

/// The buffer, the weights, and whether downloads may be abandoned.
#[derive(Drop)]
pub struct Setup {
    /// The most media that the player holds ahead, in milliseconds.
    pub buffer_ms: u32,
    /// The utilities and weights.
    pub weights: Weights,
    /// Whether a running download may be abandoned.
    pub abandon: bool,
}

/// The most media that a player may hold ahead, in milliseconds.
pub const MOST_BUFFER_MS: u32 = 10_000_000;

impl Setup {
    /// Whether the buffer is between the segment duration and 10000000 ms.
    pub fn buffer_fits(&self, m: &Manifest) -> bool
        ensures { result ≡ buffer_fits self.now m.now }
    {
        m.seg_ms() <= self.buffer_ms && self.buffer_ms <= MOST_BUFFER_MS
    }

    /// Whether each rung has a utility, and a utility table a row for each segment.
    pub fn utilities_fit(&self, m: &Manifest) -> bool
        ensures { result ≡ utilities_fit self.now m.now }
    {
        let rows = self.weights.rows();
        self.weights.count() == m.rungs() && (rows == 0 || rows == m.segments())
    }

    /// Whether the buffer and the utilities fit.
    #[tactic(auto, using(crate::proofs::Fits::setup_passes))]
    pub fn fits(&self, m: &Manifest) -> bool
        ensures { IsTrue result ↔ SetupFits self.now m.now }
    {
        self.buffer_fits(m) && self.utilities_fit(m)
    }
}
