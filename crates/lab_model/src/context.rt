//! Small values that several crates pass on.

use std::alloc::{AllocError, AllocFailed};

/// Want of memory: the one word for it.
#[derive(Clone, Copy, PartialEq, Eq, Debug)]
pub struct NoMemory;

impl From<AllocError> for NoMemory {
    fn from(_refused: AllocError) -> NoMemory {
        NoMemory
    }
}

impl<T: Drop> From<AllocFailed<T>> for NoMemory {
    fn from(_refused: AllocFailed<T>) -> NoMemory {
        NoMemory
    }
}

/// A seek: at an instant, to a segment.
#[derive(Clone, Copy, PartialEq, Eq, Debug)]
pub struct Seek {
    /// The instant, in milliseconds.
    pub at_ms: u64,
    /// The segment that is sought.
    pub to: u16,
}

/// A segment that began to play, and its rung.
#[derive(Clone, Copy, PartialEq, Eq, Debug)]
pub struct Played {
    /// The segment, counted from 0.
    pub segment: u16,
    /// The rung, counted from 0.
    pub rung: u8,
}

/// What a rule sees when it is asked for a rung.
#[derive(Clone, Copy, PartialEq, Eq, Debug)]
pub struct Context {
    /// The media loaded and not yet played, in milliseconds.
    pub level: u32,
    /// The segment that is asked for.
    pub next: u16,
    /// The rung of the last completed segment, if there is one.
    pub last: Option<u8>,
}
