//! What a session was: its events, its played segments and its counters.

use lab_model::Played;

/// What happened at an instant, in milliseconds.
#[derive(Clone, Copy, PartialEq, Eq, Debug)]
pub enum Event {
    /// A segment was asked for on a rung.
    Request {
        /// The instant.
        at: u64,
        /// The segment.
        segment: u16,
        /// The rung.
        rung: u8,
    },
    /// A segment arrived.
    Arrive {
        /// The instant.
        at: u64,
        /// The segment.
        segment: u16,
        /// The rung.
        rung: u8,
        /// The first instant of its download that was spent on bits.
        first: u64,
        /// The rate of the download, in bits per second.
        rate: u64,
    },
    /// A download was given up for a lower rung.
    Abandon {
        /// The instant.
        at: u64,
        /// The segment.
        segment: u16,
        /// The rung that was given up.
        rung: u8,
        /// The rung that is asked for instead.
        to: u8,
        /// The bits that had come, and are wasted.
        got: u32,
    },
    /// The viewer sought.
    Seek {
        /// The instant.
        at: u64,
        /// The segment that was sought.
        to: u16,
        /// The bits that this seek wasted.
        wasted: u64,
    },
    /// A segment began to play.
    Play {
        /// The instant.
        at: u64,
        /// The segment.
        segment: u16,
        /// The rung.
        rung: u8,
    },
    /// Play stalled.
    Stall {
        /// The instant.
        at: u64,
    },
    /// All was played.
    End {
        /// The instant.
        at: u64,
    },
}

/// A whole session.
#[derive(Drop)]
pub struct Session {
    /// The events, in order.
    pub events: Vec<Event>,
    /// The segments that began to play, in order, with their rungs.
    pub played: Vec<Played>,
    /// The milliseconds before the first segment.
    pub startup_ms: u64,
    /// The milliseconds of stall.
    pub stall_ms: u64,
    /// The milliseconds after seeks before play went on.
    pub seek_ms: u64,
    /// The number of stalls.
    pub stalls: u32,
    /// The bits that seeks and abandoned downloads wasted.
    pub wasted_bits: u64,
    /// The instant of the end.
    pub end: u64,
}
