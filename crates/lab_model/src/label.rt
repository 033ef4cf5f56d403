//! Labels: what the planner keeps of a rung list up to a segment.

/// The label of a segment on a rung. Labels are ordered by finish time, then delay, then value.
#[derive(Clone, Copy, PartialEq, Eq, PartialOrd, Ord, Debug)]
pub struct Label {
    /// The instant at which the segment is loaded, in milliseconds.
    pub t: u64,
    /// The playback delay: the startup and the stalls so far, in milliseconds.
    pub p: u64,
    /// The value so far, in thousandths of a point: the score but for the stalls, which are weighed at the end.
    pub v: i64,
}
