//! The list part of a bound, segment by segment from the last.

ghost use Rattle.std.specs.Prelude.{◌≡◌, ℕ, ◌+◌, ◌-◌, ◌<◌, ◌≤◌, IfOk, length, pos, ◌+ℤ◌, slice_index_or};
ghost use Rattle.std.specs.List.{All};
ghost use Rattle.lab_model.specs.Number.{IsNear};
ghost use Rattle.lab_model.specs.Film.{rungs_of, segments_of};
ghost use Rattle.price_bounds.specs.ListPart.{list_part};
ghost use Rattle.price_bounds.specs.Steps.{IsTable, IsTop};
ghost use Rattle.price_bounds.specs.Tables.{most_list_worth, rung_gain, rung_gains, rung_moves};
ghost use Rattle.price_bounds.specs.Windows.{CanBound};

use crate::bound::PRICE_UNIT;
use crate::counts::{rungs, segments};
use crate::numbers::difference;
use crate::prices::price_of;
use crate::window::Window;
use player_core::Scene;
use std::alloc::{AllocError, Global};

/// What a rung gains at a segment of this price, at most 4 * 10^15, after another rung.
#[tactic(auto, using(crate::proofs::ListTable::loss_low))]
fn rung_gain(scene: &Scene<'_>, price: u64, segment: u16, before: u8, rung: u8) -> i128
    requires segment { segment < segments_of scene.now.film }
    requires before { before < rungs_of scene.now.film }
    requires rung { rung < rungs_of scene.now.film }
    requires price { price ≤ 4000000000000000 }
    ensures { result ≡ rung_gain scene.now price segment before rung }
{
    let weights = &scene.setup().weights;
    let utility = weights.utility(segment, rung);
    let change = utility.abs_diff(weights.utility(segment, before));
    let gain = PRICE_UNIT * (1000 * utility as u128);
    let switch = PRICE_UNIT * (weights.switch() as u128 * change as u128);
    let bits = 1000 * (price as u128 * scene.film().size(segment, rung) as u128);
    difference(gain, switch + bits)
}

/// The most that a rung gains at a segment after another one, with what those behind it gain after each rung.
fn best_gain(scene: &Scene<'_>, price: u64, segment: u16, before: u8, behind: &[i128]) -> i128
    requires segment { segment < segments_of scene.now.film }
    requires before { before < rungs_of scene.now.film }
    requires price { price ≤ 4000000000000000 }
    requires count { length behind.now ≡ rungs_of scene.now.film }
    requires near { All (IsNear most_list_worth) behind.now }
    ensures { IsTop (rung_moves scene.now) before (λ r. rung_gain scene.now price segment before r
        +ℤ slice_index_or behind.now r (pos 0)) result }
{
    let count = rungs(scene);
    let mut best = rung_gain(scene, price, segment, before, 0) + behind[0];
    for rung in 1..count {
        let gain = rung_gain(scene, price, segment, before, rung) + behind[rung as usize];
        best = best.max(gain);
    }
    best
}

/// What rungs from a segment on gain after each rung, by what those behind the segment gain.
fn gains_from(
    alloc: Global,
    scene: &Scene<'_>,
    windows: &[Window],
    segment: u16,
    behind: &[i128],
) -> Result<Vec<i128>, AllocError>
    requires windows { CanBound (segments_of scene.now.film) windows.now }
    requires segment { (1 ≤ segment) × (segment < segments_of scene.now.film) }
    requires behind { IsTable (rung_moves scene.now) (rung_gains scene.now windows.now)
        (segments_of scene.now.film - (segment + 1)) (segment + 1) behind.now }
    ensures { IfOk result (λ v. IsTable (rung_moves scene.now) (rung_gains scene.now windows.now)
        (segments_of scene.now.film - segment) segment v.items) }
{
    let count = rungs(scene);
    let price = price_of(windows, segment);
    let mut gains = Vec::new(alloc);
    for before in 0..count {
        gains.push(best_gain(scene, price, segment, before, behind))?;
    }
    Ok(gains)
}

/// The list part for each first rung.
pub fn list_parts(
    alloc: Global,
    scene: &Scene<'_>,
    windows: &[Window],
) -> Result<Vec<i128>, AllocError>
    requires { CanBound (segments_of scene.now.film) windows.now }
    ensures count { IfOk result (λ v. length v.items ≡ rungs_of scene.now.film) }
    ensures parts { IfOk result (λ v. (q : ℕ) → q < rungs_of scene.now.film
        → slice_index_or v.items q (pos 0) ≡ list_part scene.now windows.now q) }
    ensures near { IfOk result (λ v. All (IsNear most_list_worth) v.items) }
{
    let count = segments(scene);
    let mut gains = vec![in alloc; 0; rungs(scene) as usize]?;
    for done in 1..count {
        gains = gains_from(alloc, scene, windows, count - done, &gains)?;
    }
    Ok(gains)
}
