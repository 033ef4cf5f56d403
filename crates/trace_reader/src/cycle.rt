//! The periods of a trace and the tests on its cycle, the same for each format.

ghost use Rattle.std.specs.Prelude.{◌≡◌, ◌≤◌, ◌∷◌, ◌++◌, [], IfErr, OnOk, length};
ghost use Rattle.std.specs.List.{All};
ghost use Rattle.lab_model.specs.Cycle.{IsPeriod, cycle_bits, cycle_ms};
ghost use Rattle.lab_model.specs.Film.{IsWithin};
ghost use Rattle.lab_model.specs.Reading.{Gives};
ghost use Rattle.trace_reader.specs.Cycle.{good_cycle};

use lab_model::{InputFault, Key, Kind, MOST_CYCLE_MS, Period, Trace};
use reader_faults::refusal;

/// The milliseconds of a cycle.
fn cycle_ms(periods: &[Period]) -> u64
    requires { length periods.now ≤ 100000 }
    ensures { result ≡ cycle_ms periods.now }
{
    periods.iter().map(|p| u64::from(p.duration_ms)).sum()
}

/// What a cycle can carry, in thousandths of a bit.
fn cycle_bits(periods: &[Period]) -> u128
    requires { length periods.now ≤ 100000 }
    ensures { result ≡ cycle_bits periods.now }
{
    periods
        .iter()
        .map(|p| u128::from(p.duration_ms) * u128::from(p.bandwidth))
        .sum()
}

/// The trace of these periods, if its cycle isn't too long, and carries at least one bit a millisecond
/// on the mean.
pub(crate) fn whole_trace(periods: Vec<Period>) -> Result<Trace, InputFault>
    requires count { IsWithin 1 100000 (length periods.items) }
    requires periods { All IsPeriod periods.items }
    ensures { Gives (λ t. t) result (good_cycle periods.items) }
{
    let duration = cycle_ms(&periods);
    if duration > u64::from(MOST_CYCLE_MS) {
        return Err(refusal(Kind::OutOfRange, Key::Cycle, 0, 0));
    }
    if cycle_bits(&periods) < 1000 * u128::from(duration) {
        return Err(refusal(Kind::TooSlow, Key::Cycle, 0, 0));
    }
    match Trace::from_parts(periods) {
        Some(trace) => Ok(trace),
        None => unreachable!(),
    }
}
