//! Certificates by prices.

use crate::window::Window;

/// A rung list with its value, and windows with a bound that no rung list passes.
#[derive(Drop)]
pub struct PriceCertificate {
    /// The number of segments, 1 to 2000.
    pub segments: u16,
    /// The number of rungs, 1 to 16.
    pub rungs: u8,
    /// The value of the list, in thousandths of a point.
    pub score: i128,
    /// The value that no list passes.
    pub bound: i128,
    /// The rung of each segment.
    pub plan: Vec<u8>,
    /// The windows, at most 4000, in order of their first segments, then of their last.
    pub windows: Vec<Window>,
}
