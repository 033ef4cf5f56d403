//! What a plan is, and what it is certified by.

use lab_model::Label;

/// The labels of one segment and rung, in order.
#[derive(Drop)]
pub struct Chain {
    /// The labels.
    pub labels: Vec<Label>,
    /// Label by label, for each rung of the next segment, the place of a label there that dominates the successor.
    /// The last segment has none.
    pub names: Vec<u32>,
}

/// The best rung list, and all that certifies it.
#[derive(Drop)]
pub struct Plan {
    /// Whether the setup has a utility table.
    pub table: bool,
    /// The rung of each segment.
    pub rungs: Vec<u8>,
    /// The value of the list, in thousandths of a point.
    pub score: i128,
    /// The number of labels in all chains.
    pub labels: u32,
    /// For each rung the place of a label of segment 0 that dominates the start label.
    pub starts: Vec<u32>,
    /// The chains by segment, then rung.
    pub chains: Vec<Chain>,
}
