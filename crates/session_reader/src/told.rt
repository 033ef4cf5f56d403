//! What the text of a session tells.
use player_core::Event;

/// The counters of a session.
#[derive(Clone, Copy, PartialEq, Eq, Debug)]
pub struct Counters {
    /// The milliseconds before the first segment.
    pub startup_ms: u64,
    /// The milliseconds of stall.
    pub stall_ms: u64,
    /// The number of stalls.
    pub stalls: u64,
    /// The milliseconds after seeks before play went on.
    pub seek_ms: u64,
    /// The bits that seeks and abandoned downloads wasted.
    pub wasted_bits: u64,
    /// The instant of the end.
    pub end: u64,
    /// The score, in thousandths of a point.
    pub score: i128,
}

/// A session as its text tells it.
#[derive(Drop)]
pub struct Told {
    /// The events, in order.
    pub events: Vec<Event>,
    /// The counters.
    pub counters: Counters,
}

/// The sessions of a text.
#[derive(Drop)]
pub struct Sheet {
    /// Whether they are those of players, each under its number.
    pub joint: bool,
    /// The sessions, in order: one alone, or those of one to eight players.
    pub sessions: Vec<Told>,
}
