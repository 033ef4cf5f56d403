//! The base of the workspace: manifests, traces, weights, setups and samples within their limits,
//! the trait of rules, and the faults of input files.
#![tactic(auto)]

mod context;
mod fault;
mod label;
mod limit;
mod manifest;
mod number;
mod rule;
mod sample;
mod setup;
mod trace;
mod weights;

pub use context::{Context, NoMemory, Played, Seek};
pub use fault::{InputFault, Key, Kind, Refusal};
pub use label::Label;
pub use limit::{ALL_AHEAD_MS, Ahead, Budget, MOST_BUDGET};
pub use manifest::{
    MOST_BITRATE_KBPS, MOST_RUNGS, MOST_SEGMENT_BITS, MOST_SEGMENT_MS, MOST_SEGMENTS, Manifest,
};
pub use number::{ceil_div, cmp_fraction, floor_mean, harmonic};
pub use rule::Rule;
pub use sample::Sample;
pub use setup::{MOST_BUFFER_MS, Setup};
pub use trace::{
    MOST_BANDWIDTH_KBPS, MOST_CYCLE_MS, MOST_DURATION_MS, MOST_LATENCY_MS, MOST_PERIODS, Period,
    Trace,
};
pub use weights::{MOST_UTILITY, MOST_WEIGHT, Weights};

#[cfg(test)]
mod tests;
