//! The limits of a session.

/// An instant, in milliseconds, before which every session within the limits ends.
pub const LATEST_MS: u64 = 1_000_000_000_000_000;

/// The most seeks of a script.
pub const MOST_SEEKS: usize = 16;

/// The latest instant of a seek, in milliseconds.
pub const LATEST_SEEK_MS: u64 = 1_000_000_000;
