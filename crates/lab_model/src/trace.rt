//! A recorded network: periods of a bandwidth and a latency.

ghost use Rattle.std.specs.Prelude.{◌≡◌, ℕ, ◌+◌, ◌*◌, ◌<◌, ◌≤◌, ◌↔◌, IfSome, IfNone, IsTrue, length};
ghost use Rattle.std.specs.List.{All, sum_by};
ghost use Rattle.lab_model.specs.Cycle.{IsPeriod, IsTrace, cycle_bits, cycle_ms};

use std::marker::Model;

/// A stretch of a trace with one bandwidth and one latency.
#[derive(Clone, Copy, PartialEq, Eq, Debug)]
pub struct Period {
    /// How long it lasts, 1 to 10000000 ms.
    pub duration_ms: u32,
    /// The bandwidth in thousandths of a kbps, 0 to 10000000000. One kbps is one bit per millisecond.
    pub bandwidth: u64,
    /// The delay before the bits of a request come, 0 to 10000 ms.
    pub latency: u32,
}

/// The longest period, in milliseconds.
pub const MOST_DURATION_MS: u32 = 10_000_000;

/// The greatest bandwidth, in kbps.
pub const MOST_BANDWIDTH_KBPS: u32 = 10_000_000;

/// The greatest latency, in milliseconds.
pub const MOST_LATENCY_MS: u32 = 10_000;

/// The most periods of a trace.
pub const MOST_PERIODS: usize = 100_000;

/// The longest cycle, in milliseconds.
pub const MOST_CYCLE_MS: u32 = 100_000_000;

/// A trace within its limits: 1 to 100000 periods, a cycle of at most 100000000 ms, and at least one bit
/// per millisecond of the cycle on the mean. After the last period the first comes again.
#[derive(Drop)]
pub struct Trace {
    periods: Vec<Period>,
}

impl Model for Trace {
    ghost use Rattle.std.specs.Prelude.{List};
    ghost use Rattle.lab_model.specs.declared.trace.Period.{Period};
    ghost use Rattle.lab_model.specs.Cycle.{IsTrace};

    ghost Value = { List Period };

    ghost view = { λ t. t.periods.items };

    ghost invariant = { λ t. IsTrace t.periods.items };
}

fn is_period(p: &Period) -> bool
    ensures { IsTrue result ↔ IsPeriod p.now }
{
    1 <= p.duration_ms
        && p.duration_ms <= MOST_DURATION_MS
        && p.bandwidth <= 1000 * u64::from(MOST_BANDWIDTH_KBPS)
        && p.latency <= MOST_LATENCY_MS
}

fn are_periods(periods: &[Period]) -> bool
    ensures { IsTrue result ↔ All IsPeriod periods.now }
{
    periods.iter().all(is_period)
}

fn duration_of(periods: &[Period]) -> u64
    requires count { length periods.now ≤ 100000 }
    requires periods { All IsPeriod periods.now }
    ensures { result ≡ cycle_ms periods.now }
{
    let mut total = 0u64;
    for p in periods {
        total += p.duration_ms as u64;
    }
    total
}

fn capacity_of(periods: &[Period]) -> u64
    requires periods { All IsPeriod periods.now }
    requires cycle { cycle_ms periods.now ≤ 100000000 }
    ensures { result ≡ cycle_bits periods.now }
{
    let mut total = 0u64;
    for p in periods {
        total += p.duration_ms as u64 * p.bandwidth;
    }
    total
}

fn is_trace(periods: &[Period]) -> bool
    ensures { IsTrue result ↔ IsTrace periods.now }
{
    if periods.is_empty() || periods.len() > MOST_PERIODS || !are_periods(periods) {
        return false;
    }
    let cycle = duration_of(periods);
    cycle <= u64::from(MOST_CYCLE_MS) && 1000 * cycle <= capacity_of(periods)
}

impl Trace {
    /// The trace of these periods. `None` exactly where a limit is broken.
    pub fn from_parts(periods: Vec<Period>) -> Option<Trace>
        ensures some { IfSome result (λ t. (t ≡ periods.items) × IsTrace t) }
        ensures none { IfNone result (IsTrace periods.items → ⊥) }
    {
        if !is_trace(&periods) {
            return None;
        }
        Some(Trace { periods })
    }

    /// The periods, in order.
    pub fn periods(&self) -> &[Period]
        ensures value { result.now ≡ self.now }
        ensures trace { IsTrace self.now }
    {
        &self.periods
    }
}
