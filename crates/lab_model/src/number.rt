//! Whole numbers that stand for quotients.

ghost use Rattle.std.specs.Prelude.{◌≡◌, ◌*◌, ◌*ℤ◌, ◌/◌, ◌^◌, ◌≤◌, length, pos};
ghost use Rattle.std.specs.Int.{div_ceil};
ghost use Rattle.std.specs.List.{All, sum_by};
ghost use Rattle.lab_model.specs.Film.{IsWithin};
ghost use Rattle.lab_model.specs.Number.{IsNear, cmp_fraction};
ghost use Rattle.lab_model.specs.Rates.{inverse_of, harmonic_of};

use std::cmp::Ordering;

/// The fixed point of inverse rates.
const FIXED_POINT: u64 = 1_000_000_000_000;

/// The product of a numerator and the divisor of another.
fn times(a: i128, d: u64) -> i128
    requires numerator { IsNear (10 ^ 25) a }
    requires divisor { IsWithin 1 10000000000 d }
    ensures { result ≡ a *ℤ pos d }
{
    a * d as i128
}

/// How `a / b` compares with `c / d`, exactly. Both numerators are within 10^25 of 0, both divisors from 1 to 10^10.
pub fn cmp_fraction(a: i128, b: u64, c: i128, d: u64) -> Ordering
    requires first { IsNear (10 ^ 25) a }
    requires over_first { IsWithin 1 10000000000 b }
    requires second { IsNear (10 ^ 25) c }
    requires over_second { IsWithin 1 10000000000 d }
    ensures { result ≡ cmp_fraction a b c d }
{
    times(a, d).cmp(&times(c, b))
}

/// The mean of `count` numbers with this sum, rounded down.
pub fn floor_mean(sum: u64, count: u64) -> u64
    requires { 1 ≤ count }
    ensures { result ≡ sum / count }
{
    sum / count
}

/// The quotient `a / b`, rounded up.
pub fn ceil_div(a: u128, b: u128) -> u128
    requires { 1 ≤ b }
    ensures { result ≡ div_ceil a b }
{
    a.div_ceil(b)
}

/// The inverses of rates, summed.
#[tactic(auto, using(crate::proofs::Inverses::inverses_within))]
fn inverses(rates: &[u64]) -> u64
    requires count { length rates.now ≤ 5 }
    requires rates { All (IsWithin 1 10000000000) rates.now }
    ensures value { result ≡ sum_by inverse_of rates.now }
    ensures limits { IsWithin (100 * length rates.now) (1000000000000 * length rates.now) result }
{
    rates.iter().map(|c| FIXED_POINT / *c).sum()
}

/// The harmonic value of 1 to 5 rates in bits per second, each from 1 to 10^10: their number over the sum of their inverses,
/// in fixed point. It is from 1 to 10^10.
#[tactic(auto, using(crate::proofs::Inverses::harmonic_within))]
pub fn harmonic(rates: &[u64]) -> u64
    requires count { IsWithin 1 5 (length rates.now) }
    requires rates { All (IsWithin 1 10000000000) rates.now }
    ensures value { result ≡ harmonic_of rates.now }
    ensures limits { IsWithin 1 10000000000 result }
{
    rates.len() as u64 * FIXED_POINT / inverses(rates)
}
