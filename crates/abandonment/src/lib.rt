//! The abandonment test: whether a running download is given up for a lower rung.
#![tactic(auto)]

ghost use Rattle.std.specs.Prelude.{◌≡◌, ℕ, ◌+◌, ◌<◌, ◌≤◌, false, IfSome};
ghost use Rattle.lab_model.specs.Film.{rungs_of, segments_of, size_of};
ghost use Rattle.abandonment.specs.Progress.{longest_elapsed};
ghost use Rattle.abandonment.specs.Test.{IsEnough, abandonment, is_due, is_due_ms, is_late, judged_each, judged_from, left_of};

mod progress;
#[cfg(test)]
mod tests;

use lab_model::Manifest;
pub use progress::Progress;

/// The milliseconds from one test of a download to the next.
pub const JUDGED_EACH_MS: u64 = 100;

/// The milliseconds from the request of a download to its first test.
pub const JUDGED_FROM_MS: u64 = 500;

/// Nine tenths: a rate is enough for a rung where this part of it is the bitrate.
pub const ENOUGH_NUMERATOR: u64 = 9;

/// The denominator of this part.
pub const ENOUGH_DENOMINATOR: u64 = 10;

/// Nine fifths: a download is late where it takes more than this part of a segment's duration.
pub const LATE_NUMERATOR: u64 = 9;

/// The denominator of this part.
pub const LATE_DENOMINATOR: u64 = 5;

/// The milliseconds from `elapsed` after a request to the next instant at which its download may be looked at. At most 2000000000 have passed.
pub fn due_in(elapsed: u64) -> u64
    requires { elapsed ≤ longest_elapsed }
    ensures some { 1 ≤ result }
    ensures limit { result ≤ judged_from + judged_each }
    ensures none_before { (m : ℕ) → elapsed < m → m < elapsed + result → is_due_ms m ≡ false }
{
    let next = (elapsed / JUDGED_EACH_MS + 1) * JUDGED_EACH_MS;
    next.max(JUDGED_FROM_MS) - elapsed
}

/// A rate in bits per second from which on rates are enough for a rung. The rung is in range.
pub fn enough_rate(m: &Manifest, rung: u8) -> u64
    requires { rung < rungs_of m.now }
    ensures some { 1 ≤ result }
    ensures enough { (rate : ℕ) → result ≤ rate → IsEnough m.now rung rate }
{
    (ENOUGH_DENOMINATOR * 1000 * m.bitrate(rung) as u64).div_ceil(ENOUGH_NUMERATOR)
}

fn is_due(now: &Progress) -> bool
    ensures { result ≡ is_due now.now }
{
    let elapsed_ms = now.elapsed_ms();
    elapsed_ms % JUDGED_EACH_MS == 0 && elapsed_ms >= JUDGED_FROM_MS && now.bit_ms() >= 1
}

fn is_late(m: &Manifest, left: u32, now: &Progress) -> bool
    requires bit_ms { 1 ≤ now.now.bit_ms }
    ensures { (segment rung : ℕ) → left ≡ left_of m.now segment rung now.now
        → result ≡ is_late m.now segment rung now.now }
{
    let rate = now.rate() as u128;
    let allowed = (LATE_NUMERATOR * m.seg_ms() as u64) as u128 * rate;
    let needed = LATE_DENOMINATOR as u128 * (now.elapsed_ms() as u128 * rate + 1000 * left as u128);
    allowed < needed
}

/// The rung for which the running download of a segment on a rung is given up, if it is. Segment and rung are in range, and what came is at
/// most the size.
pub fn abandon_to(m: &Manifest, seg: u16, rung: u8, now: &Progress) -> Option<u8>
    requires segment { seg < segments_of m.now }
    requires rung { rung < rungs_of m.now }
    requires got { now.now.got ≤ size_of m.now seg rung }
    ensures test { result ≡ abandonment m.now seg rung now.now }
    ensures rung { IfSome result (λ q. q < rung) }
    ensures waited { IfSome result (λ _. 1 ≤ now.now.bit_ms) }
{
    if !is_due(now) {
        return None;
    }
    let left = m.size(seg, rung) - now.got();
    let target = m.greatest_rung(
        ENOUGH_DENOMINATOR as u16 * 1000,
        ENOUGH_NUMERATOR * now.rate(),
    );
    if is_late(m, left, now) && target < rung && m.size(seg, target) < left {
        Some(target)
    } else {
        None
    }
}
