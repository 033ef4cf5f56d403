//! What plans are made for and certificates are checked against.

use lab_model::{Manifest, Period, Setup, Trace, Weights};
use network_clock::Clock;
use std::alloc::Global;
use std::test::Fail;

/// A film with rungs of constant sizes over a link of constant bandwidth.
#[derive(Clone, Copy)]
pub struct Case {
    pub seg_ms: u32,
    pub segments: u16,
    pub bitrates: &'static [u32],
    pub sizes: &'static [u32],
    /// The only period: milliseconds and thousandths of a kbps.
    pub period: (u32, u64),
    pub buffer_ms: u32,
    /// One for each rung, or row by row.
    pub utilities: &'static [u32],
    pub table: bool,
}

/// Three segments of a second on two rungs.
pub const M1: Case = Case {
    seg_ms: 1000,
    segments: 3,
    bitrates: &[1000, 2000],
    sizes: &[1_000_000, 2_000_000],
    period: (60_000, 2_000_000),
    buffer_ms: 10_000,
    utilities: &[0, 10],
    table: false,
};

/// One segment of one bit.
pub const SMALLEST: Case = Case {
    seg_ms: 1,
    segments: 1,
    bitrates: &[1],
    sizes: &[1],
    period: (1, 1000),
    buffer_ms: 1,
    utilities: &[0],
    table: false,
};

/// A film, the clock of its network, and a setup.
#[derive(Drop)]
pub struct Inputs {
    pub m: Manifest,
    pub clock: Clock,
    pub set: Setup,
}

impl Inputs {
    /// The inputs that a case describes.
    pub fn of(alloc: Global, case: &Case) -> Result<Inputs, Fail> {
        let mut sizes = Vec::new(alloc);
        for _ in 0..case.segments {
            sizes.extend_from_slice(case.sizes)?;
        }
        let bitrates = case.bitrates.to_vec(alloc)?;
        let m = Manifest::from_parts(case.seg_ms, bitrates, sizes).ok_or("not a film")?;
        let mut periods = Vec::new(alloc);
        periods.push(Period {
            duration_ms: case.period.0,
            bandwidth: case.period.1,
            latency: 0,
        })?;
        let trace = Trace::from_parts(periods).ok_or("not a trace")?;
        let clock = Clock::new(alloc, &trace)?;
        let utilities = case.utilities.to_vec(alloc)?;
        let weights = if case.table {
            Weights::from_table(utilities, m.rungs(), 0, 100, 1)
        } else {
            Weights::from_parts(utilities, 0, 100, 1)
        };
        let set = Setup {
            buffer_ms: case.buffer_ms,
            weights: weights.ok_or("no weights")?,
            abandon: false,
        };
        Ok(Inputs { m, clock, set })
    }
}
