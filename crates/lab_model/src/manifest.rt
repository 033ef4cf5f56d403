//! A manifest: the film as its segments and its ladder.

ghost use Rattle.std.specs.Prelude.{◌≡◌, ℕ, ◌+◌, ◌*◌, ◌/◌, ◌<◌, ◌≤◌, ◌↔◌, IfSome, IfNone, IsTrue, length, nat_le, slice_index};
ghost use Rattle.std.specs.List.{All};
ghost use Rattle.std.specs.List.Sorted.{IsStrictlyIncreasing};
ghost use Rattle.lab_model.specs.Ladder.{greatest_rung};
ghost use Rattle.lab_model.specs.Film.{IsFilm, IsWithin, bitrate_of, film, most_rungs, most_segments, rungs_of, segments_of, size_of};

use std::marker::Model;

/// The longest segment, in milliseconds.
pub const MOST_SEGMENT_MS: u32 = 60_000;

/// The greatest bitrate, in kbps.
pub const MOST_BITRATE_KBPS: u32 = 10_000_000;

/// The largest segment, in bits.
pub const MOST_SEGMENT_BITS: u32 = 200_000_000;

/// The most segments of a film.
pub const MOST_SEGMENTS: usize = 2000;

/// The most rungs of a ladder.
pub const MOST_RUNGS: usize = 16;

/// A manifest within its limits: a segment duration of 1 to 60000 ms, 1 to 16 strictly rising bitrates
/// of 1 to 10000000 kbps, and 1 to 2000 segments with sizes of 1 to 200000000 bits on each rung.
#[derive(Drop)]
pub struct Manifest {
    seg_ms: u32,
    bitrates: Vec<u32>,
    sizes: Vec<u32>,
}

impl Model for Manifest {
    ghost use Rattle.lab_model.specs.Film.{Film, IsFilm, film};

    ghost Value = { Film };

    ghost view = { λ m. film m.seg_ms m.bitrates.items m.sizes.items };

    ghost invariant = { λ m. IsFilm (film m.seg_ms m.bitrates.items m.sizes.items) };
}

pub(crate) fn is_within(low: u32, high: u32, n: u32) -> bool
    ensures { IsTrue result ↔ IsWithin low high n }
{
    low <= n && n <= high
}

pub(crate) fn are_within(low: u32, high: u32, numbers: &[u32]) -> bool
    ensures { IsTrue result ↔ All (IsWithin low high) numbers.now }
{
    numbers.iter().all(|n| is_within(low, high, *n))
}

fn is_rising(numbers: &[u32]) -> bool
    ensures { IsTrue result ↔ IsStrictlyIncreasing numbers.now }
{
    for i in 1..numbers.len() {
        if numbers[i] <= numbers[i - 1] {
            return false;
        }
    }
    true
}

fn is_ladder(bitrates: &[u32]) -> bool
    ensures { IsTrue result ↔ (IsWithin 1 most_rungs (length bitrates.now)
        × IsStrictlyIncreasing bitrates.now × All (IsWithin 1 10000000) bitrates.now) }
{
    !bitrates.is_empty()
        && bitrates.len() <= MOST_RUNGS
        && is_rising(bitrates)
        && are_within(1, MOST_BITRATE_KBPS, bitrates)
}

fn are_rows(sizes: &[u32], rungs: usize) -> bool
    requires { IsWithin 1 most_rungs rungs }
    ensures { IsTrue result ↔ ((length sizes.now ≡ length sizes.now / rungs * rungs)
        × IsWithin 1 most_segments (length sizes.now / rungs) × All (IsWithin 1 200000000) sizes.now) }
{
    let segments = sizes.len() / rungs;
    sizes.len() % rungs == 0
        && 1 <= segments
        && segments <= MOST_SEGMENTS
        && are_within(1, MOST_SEGMENT_BITS, sizes)
}

fn is_film(seg_ms: u32, bitrates: &[u32], sizes: &[u32]) -> bool
    ensures { IsTrue result ↔ IsFilm (film seg_ms bitrates.now sizes.now) }
{
    is_within(1, MOST_SEGMENT_MS, seg_ms) && is_ladder(bitrates) && are_rows(sizes, bitrates.len())
}

impl Manifest {
    /// The manifest of these parts: the segment duration in ms, the bitrates in kbps, and the sizes in bits,
    /// segment by segment and in each rung by rung. `None` exactly where a limit is broken.
    pub fn from_parts(seg_ms: u32, bitrates: Vec<u32>, sizes: Vec<u32>) -> Option<Manifest>
        ensures some { IfSome result (λ m. (m ≡ film seg_ms bitrates.items sizes.items)
            × IsFilm m) }
        ensures none { IfNone result (IsFilm (film seg_ms bitrates.items sizes.items) → ⊥) }
    {
        if !is_film(seg_ms, &bitrates, &sizes) {
            return None;
        }
        Some(Manifest {
            seg_ms,
            bitrates,
            sizes,
        })
    }

    /// The duration of a segment, 1 to 60000 ms.
    pub fn seg_ms(&self) -> u32
        ensures value { result ≡ self.now.seg_ms }
        ensures film { IsFilm self.now }
    {
        self.seg_ms
    }

    /// The number of segments, 1 to 2000.
    pub fn segments(&self) -> u16
        ensures value { result ≡ segments_of self.now }
        ensures film { IsFilm self.now }
    {
        (self.sizes.len() / self.bitrates.len()) as u16
    }

    /// The number of rungs of the ladder, 1 to 16.
    pub fn rungs(&self) -> u8
        ensures value { result ≡ rungs_of self.now }
        ensures film { IsFilm self.now }
    {
        self.bitrates.len() as u8
    }

    /// The bitrate of a rung, 1 to 10000000 kbps.
    pub fn bitrate(&self, rung: u8) -> u32
        requires { rung < rungs_of self.now }
        ensures value { result ≡ bitrate_of self.now rung }
        ensures limits { IsWithin 1 10000000 result }
    {
        self.bitrates[rung as usize]
    }

    /// The greatest rung whose bitrate, `factor` times, is at most `limit`, or 0 where there is none.
    #[tactic(auto, using(crate::proofs::Rungs::greatest_more, crate::proofs::Rungs::greatest_none))]
    pub fn greatest_rung(&self, factor: u16, limit: u64) -> u8
        ensures value { result ≡
            greatest_rung (λ q. nat_le (factor * bitrate_of self.now q) limit) (rungs_of self.now) }
        ensures rung { result < rungs_of self.now }
        ensures film { IsFilm self.now }
    {
        let mut best = 0u8;
        for q in 0..self.rungs() {
            if factor as u64 * self.bitrate(q) as u64 <= limit {
                best = q;
            }
        }
        best
    }

    /// The size of a segment on a rung, 1 to 200000000 bits.
    pub fn size(&self, seg: u16, rung: u8) -> u32
        requires segment { seg < segments_of self.now }
        requires rung { rung < rungs_of self.now }
        ensures value { result ≡ size_of self.now seg rung }
        ensures limits { IsWithin 1 200000000 result }
    {
        self.sizes[seg as usize * self.bitrates.len() + rung as usize]
    }
}
