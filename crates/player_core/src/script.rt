//! The seeks of a script: the one at an instant, and the next.

ghost use Rattle.std.specs.Prelude.{◌≡◌, ℕ, ◌+◌, ◌<◌, ◌≤◌, None, IfSome};
ghost use Rattle.std.specs.List.{Contains};
ghost use Rattle.player_core.specs.Limits.{latest_ms};
ghost use Rattle.player_core.specs.Parts.{seek_at};

use crate::limits::LATEST_MS;
use lab_model::Seek;

/// The seek at an instant, if the script has one.
#[tactic(auto, using(crate::proofs::Finds::find_more, crate::proofs::Finds::find_here, crate::proofs::Finds::find_none))]
pub fn seek_at(seeks: &[Seek], t: u64) -> Option<Seek>
    ensures value { result ≡ seek_at seeks.now t }
    ensures member { IfSome result (λ s. Contains seeks.now s) }
{
    for s in seeks {
        if s.at_ms == t {
            return Some(*s);
        }
    }
    None
}

/// The milliseconds from an instant to the next seek, `LATEST_MS` where there is none.
pub fn seek_in(seeks: &[Seek], t: u64) -> u64
    ensures some { 1 ≤ result }
    ensures limit { result ≤ latest_ms }
    ensures none_before { (m : ℕ) → t < m → m < t + result → seek_at seeks.now m ≡ None }
{
    let mut ms = LATEST_MS;
    for s in seeks {
        if s.at_ms > t {
            ms = ms.min(s.at_ms - t);
        }
    }
    ms
}
