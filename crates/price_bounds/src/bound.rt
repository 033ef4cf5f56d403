//! The bound of windows.

ghost use Rattle.std.specs.Prelude.{◌≡◌, ℕ, ◌<◌, ◌≤◌, ◌^◌, List, [], IfOk, pos, ◌+ℤ◌, ◌-ℤ◌, ◌<ℤ◌, ◌≤ℤ◌};
ghost use Rattle.lab_model.specs.Film.{rungs_of, segments_of};
ghost use Rattle.labels.specs.Best.{task_value};
ghost use Rattle.labels.specs.Form.{score_digits};
ghost use Rattle.labels.specs.Labels.{AreRungs};
ghost use Rattle.lab_model.specs.Number.{IsNear};
ghost use Rattle.player_core.specs.Scene.{IsTask};
ghost use Rattle.price_bounds.specs.Bound.{bound_of, bound_on, rounded_up, start_worth};
ghost use Rattle.price_bounds.specs.Cells.{farthest_delay};
ghost use Rattle.price_bounds.specs.ListPart.{list_part};
ghost use Rattle.price_bounds.specs.Tables.{most_bound, most_link_worth, most_list_worth, most_plain_bound, most_start_worth};
ghost use Rattle.price_bounds.specs.Windows.{CanBound};

use crate::counts::{rungs, segments};
use crate::link_part::link_part;
use crate::list_part::list_parts;
use crate::numbers::difference;
use crate::window::Window;
use lab_model::NoMemory;
use labels::start_on;
use player_core::Scene;
use std::alloc::{AllocError, Global};

/// The thousandths of a bit that cost a window's price.
pub(crate) const PRICE_UNIT: u128 = 1_000_000_000;

/// What a first rung gains, less what its startup costs, where its segment comes at `first`, at most 10^12 ms.
#[tactic(auto, using(crate::proofs::BoundParts::start_near))]
fn start_worth(scene: &Scene<'_>, rung: u8, first: u64) -> i128
    requires rung { rung < rungs_of scene.now.film }
    requires first { first ≤ farthest_delay }
    ensures value { result ≡ start_worth scene.now rung first }
    ensures near { IsNear most_start_worth result }
{
    prove!(segments(scene) > 0);
    let weights = &scene.setup().weights;
    let utility = PRICE_UNIT * (1000 * weights.utility(0, rung) as u128);
    let startup = PRICE_UNIT * (weights.startup() as u128 * first as u128);
    difference(utility, startup)
}

/// What the three parts of a bound come to.
fn sum_of_parts(start: i128, list: i128, link: i128) -> i128
    requires start { IsNear most_start_worth start }
    requires list { IsNear most_list_worth list }
    requires link { IsNear most_link_worth link }
    ensures value { result ≡ (start +ℤ list) +ℤ link }
    ensures near { IsNear most_bound result }
{
    start + list + link
}

/// The bound on the lists that begin with a rung, whose list part is given.
fn bound_on(
    alloc: Global,
    scene: &Scene<'_>,
    windows: &[Window],
    rung: u8,
    gain: i128,
) -> Result<i128, AllocError>
    requires windows { CanBound (segments_of scene.now.film) windows.now }
    requires rung { rung < rungs_of scene.now.film }
    requires gain { gain ≡ list_part scene.now windows.now rung }
    requires near { IsNear most_list_worth gain }
    ensures value { IfOk result (λ v. v ≡ bound_on scene.now windows.now rung) }
    ensures near { IfOk result (IsNear most_bound) }
    ensures plain { IfOk result (λ v. windows.now ≡ [] → v ≤ℤ pos most_plain_bound) }
{
    let first = start_on(scene, rung).p;
    let start = start_worth(scene, rung, first);
    let link = link_part(alloc, scene, windows, first)?;
    Ok(sum_of_parts(start, gain, link))
}

/// The least whole number that isn't below so many parts.
fn round_up(parts: i128) -> i128
    requires { IsNear most_bound parts }
    ensures { result ≡ rounded_up parts }
{
    let size = parts.unsigned_abs();
    if parts >= 0 {
        size.div_ceil(PRICE_UNIT) as i128
    } else {
        -((size / PRICE_UNIT) as i128)
    }
}

/// The bound of windows, in thousandths of a point: no rung list has a greater value.
pub fn bound_of_windows(
    alloc: Global,
    scene: &Scene<'_>,
    windows: &[Window],
) -> Result<i128, NoMemory>
    requires { CanBound (segments_of scene.now.film) windows.now }
    ensures value { IfOk result (λ b. b ≡ bound_of scene.now windows.now) }
    ensures bounds { IfOk result (λ b. (rungs : List ℕ)
        → AreRungs scene.now (segments_of scene.now.film) rungs
        → task_value scene.now rungs ≤ℤ b) }
    // It isn't too low to be spelled in a certificate, and without windows not too high.
    ensures low { IfOk result (λ b. (pos 0 -ℤ pos (10 ^ score_digits)) <ℤ b) }
    ensures plain { IfOk result (λ b. windows.now ≡ [] → b <ℤ pos (10 ^ score_digits)) }
    ensures task { IsTask scene.now }
{
    let count = rungs(scene);
    let parts = list_parts(alloc, scene, windows)?;
    let mut best = bound_on(alloc, scene, windows, 0, parts[0])?;
    for rung in 1..count {
        let next = bound_on(alloc, scene, windows, rung, parts[rung as usize])?;
        best = best.max(next);
    }
    Ok(round_up(best))
}
