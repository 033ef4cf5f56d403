//! Certificates.

use labels::Chain;

/// A claim that a rung list is the best, with all that a check of it asks for.
#[derive(Drop)]
pub struct Certificate {
    /// Whether it is for a setup with a utility table.
    pub table: bool,
    /// The number of segments, 1 to 2000.
    pub segments: u16,
    /// The number of rungs, 1 to 16.
    pub rungs: u8,
    /// The value of the rung list, in thousandths of a point.
    pub score: i128,
    /// The rung of each segment.
    pub plan: Vec<u8>,
    /// For each rung the place of a label of segment 0 that dominates the start label.
    pub starts: Vec<u32>,
    /// The chains by segment, then rung.
    pub chains: Vec<Chain>,
}

/// A certificate with a bound of its own: a claim that its rung list has its score, and that no list has a greater
/// value than the bound.
#[derive(Drop)]
pub struct GapCertificate {
    /// What no rung list has more than, in thousandths of a point.
    pub bound: i128,
    /// The certificate behind the bound.
    pub inner: Certificate,
}

/// The chains of one segment, by rung.
#[derive(Drop)]
pub struct Layer {
    /// The chains, one for each rung.
    pub chains: Vec<Chain>,
}
