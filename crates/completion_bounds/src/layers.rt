//! Layers of a table: the completion bounds of one segment, by row, column and rung.

ghost use Rattle.std.specs.Prelude.{◌≡◌, ◌⊎◌, ℕ, suc, ◌+◌, ◌-◌, ◌*◌, ◌<◌, ◌≤◌, IfOk, length, pos, ◌+ℤ◌, ◌-ℤ◌, slice_index_or};
ghost use Rattle.std.specs.List.{All};
ghost use Rattle.lab_model.specs.Film.{rungs_of, segments_of};
ghost use Rattle.lab_model.specs.Number.{IsNear};
ghost use Rattle.player_core.specs.Scene.{IsTask, Task};
ghost use Rattle.completion_bounds.specs.Gain.{greatest_to};
ghost use Rattle.completion_bounds.specs.Grid.{IsGridOf, kinds_of, layer_numbers, most_numbers, row_steps};
ghost use Rattle.completion_bounds.specs.Table.{AreGains, AreStepGains, AreWays, IsGainLayer, IsLayerBelow, cells_of, most_gain, most_step, step_gain};

use crate::cells::{Way, cell_at, request_after, width};
use crate::grid::{TableGrid, kind_among, kinds};
use player_core::Scene;
use std::alloc::{AllocError, Global};

/// What a rung of a segment gains by itself after another rung.
fn step_gain(scene: &Scene<'_>, segment: u16, before: u8, rung: u8) -> i64
    requires segment { segment < segments_of scene.now.film }
    requires before { before < rungs_of scene.now.film }
    requires rung { rung < rungs_of scene.now.film }
    ensures { result ≡ step_gain scene.now.setup.weights segment before rung }
{
    let weights = &scene.setup().weights;
    let utility = weights.utility(segment, rung);
    let change = utility.abs_diff(weights.utility(segment, before));
    (1000 * utility as u64) as i64 - (weights.switch() as u64 * change as u64) as i64
}

/// The same for each rung after each kind.
fn step_gains(alloc: Global, scene: &Scene<'_>, segment: u16) -> Result<Vec<i64>, AllocError>
    requires { segment < segments_of scene.now.film }
    ensures { IfOk result (λ v. AreStepGains scene.now segment v.items) }
{
    let mut gains = Vec::new(alloc);
    for before in 0..kinds(scene) {
        for rung in 0..scene.film().rungs() {
            gains.push(step_gain(scene, segment, before as u8, rung))?;
        }
    }
    Ok(gains)
}

/// What the stalls of a delay, at most 10^12 ms, cost, as a loss.
fn stall_loss(scene: &Scene<'_>, delay: u64) -> i64
    requires { delay ≤ 1000000000000 }
    ensures { result ≡ pos 0 -ℤ pos (scene.now.setup.weights.stall * delay) }
{
    0 - (scene.setup().weights.stall() as u64 * delay) as i64
}

/// The layer of the last segment: the stalls of each row are weighed.
pub(crate) fn last_layer(
    alloc: Global,
    scene: &Scene<'_>,
    grid: &TableGrid,
) -> Result<Vec<i64>, AllocError>
    requires { IsGridOf scene.now grid.now }
    ensures { IfOk result (λ v. IsGainLayer scene.now grid.now 0 v.items) }
{
    let rows = grid.rows();
    let per_row = width(grid) * kinds(scene);
    let count = rows.len() * per_row;
    let mut layer = Vec::with_capacity(alloc, count)?;
    for place in 0..count {
        let delay = grid.step() as u64 * rows[place / per_row] as u64;
        layer.push(stall_loss(scene, delay))?;
    }
    Ok(layer)
}

/// What each rung of a segment leads to when it is asked for after so many steps.
fn find_ways(scene: &Scene<'_>, grid: &TableGrid, segment: u16, steps: u64, ways: &mut [Way])
    requires segment { segment < segments_of scene.now.film }
    requires steps { grid.now.step * steps ≤ 1700000000000 }
    requires cells { cells_of grid.now ≤ most_numbers }
    requires ways { length ways.old ≡ rungs_of scene.now.film }
    ensures ways { AreWays scene.now grid.now segment steps ways.new }
    ensures cells { All (λ w. w.cell < cells_of grid.now) ways.new }
{
    let asked = scene
        .clock()
        .request(request_after(scene, grid, segment, steps));
    for rung in 0..ways.len() {
        let came = asked.done(scene.film().size(segment, rung as u8));
        ways[rung] = Way::new(scene, grid, segment, came);
    }
}

/// What is gained behind a segment on each rung, after the labels of a row.
fn take_gains(
    grid: &TableGrid,
    ways: &[Way],
    row: usize,
    kinds: usize,
    behind: &[i64],
    gains: &mut [i64],
)
    requires row { row < length grid.now.rows }
    requires cells { cells_of grid.now ≤ most_numbers }
    requires inside { All (λ w. w.cell < cells_of grid.now) ways.now }
    requires ways { length ways.now ≡ length gains.old }
    requires kinds { (kinds ≡ 1) ⊎ (kinds ≡ length gains.old) }
    requires behind { length behind.now ≡ cells_of grid.now * kinds }
    requires few { length behind.now ≤ most_numbers }
    ensures count { length gains.new ≡ length gains.old }
    ensures gains { (g : Task) (left segment steps : ℕ)
        → kinds ≡ kinds_of g
        → AreWays g grid.now segment steps ways.now
        → IsGainLayer g grid.now left behind.now
        → AreGains g grid.now left segment steps row gains.new }
{
    for rung in 0..gains.len() {
        let cell = ways[rung].cell_behind(grid, row);
        gains[rung] = behind[cell * kinds + kind_among(kinds, rung)];
    }
}

/// The most that a rung gains by itself and behind it; what the rungs gain by themselves stands from a place on.
fn best_gain(own: &[i64], from: usize, gains: &[i64]) -> i64
    requires some { 1 ≤ length gains.now }
    requires inside { from + length gains.now ≤ length own.now }
    requires own { All (IsNear most_step) own.now }
    requires gains { All (IsNear most_gain) gains.now }
    ensures { result ≡ greatest_to (λ r. slice_index_or own.now (from + r) (pos 0)
        +ℤ slice_index_or gains.now r (pos 0)) (length gains.now - 1) }
{
    let mut best = own[from] + gains[0];
    for rung in 1..gains.len() {
        best = best.max(own[from + rung] + gains[rung]);
    }
    best
}

/// Puts the numbers of a cell into a layer.
fn fill_cell(layer: &mut [i64], cell: usize, kinds: usize, own: &[i64], gains: &[i64])
    requires some { 1 ≤ length gains.now }
    requires count { length own.now ≡ kinds * length gains.now }
    requires few { length own.now ≤ 256 }
    requires own { All (IsNear most_step) own.now }
    requires gains { All (IsNear most_gain) gains.now }
    requires inside { cell * kinds + kinds ≤ length layer.old }
    requires numbers { length layer.old ≤ most_numbers }
    ensures count { length layer.new ≡ length layer.old }
    ensures kept { (x : ℕ) → (x < cell * kinds) ⊎ (cell * kinds + kinds ≤ x)
        → slice_index_or layer.new x (pos 0) ≡ slice_index_or layer.old x (pos 0) }
    ensures put { (q : ℕ) → q < kinds → slice_index_or layer.new (cell * kinds + q) (pos 0)
        ≡ greatest_to (λ r. slice_index_or own.now (q * length gains.now + r) (pos 0)
        +ℤ slice_index_or gains.now r (pos 0)) (length gains.now - 1) }
{
    let rungs = gains.len();
    for kind in 0..kinds {
        layer[cell * kinds + kind] = best_gain(own, kind * rungs, gains);
    }
}

/// Puts the numbers of all cells into a layer whose row and column come to so many steps. The first of their rows is given, and what stands
/// behind the segment.
fn fill_steps(
    scene: &Scene<'_>,
    grid: &TableGrid,
    segment: u16,
    steps: u64,
    first: usize,
    own: &[i64],
    behind: &[i64],
    ways: &mut [Way],
    gains: &mut [i64],
    layer: &mut [i64],
)
    requires grid { IsGridOf scene.now grid.now }
    requires segment { (1 ≤ segment) × (segment < segments_of scene.now.film) }
    requires first { first < length grid.now.rows }
    requires steps { (row_steps grid.now first ≤ steps)
        × (steps ≤ row_steps grid.now first + grid.now.columns) }
    requires before { (k : ℕ) → k < first → row_steps grid.now k + grid.now.columns < steps }
    requires own { AreStepGains scene.now segment own.now }
    requires behind { IsGainLayer scene.now grid.now (segments_of scene.now.film - (segment + 1))
        behind.now }
    requires ways { length ways.old ≡ rungs_of scene.now.film }
    requires gains { length gains.old ≡ rungs_of scene.now.film }
    requires layer { IsLayerBelow scene.now grid.now
        (segments_of scene.now.film - segment) steps layer.old }
    ensures ways { length ways.new ≡ rungs_of scene.now.film }
    ensures gains { length gains.new ≡ rungs_of scene.now.film }
    ensures layer { IsLayerBelow scene.now grid.now
        (segments_of scene.now.film - segment) (steps + 1) layer.new }
{
    let kinds = kinds(scene);
    let rows = grid.rows();
    find_ways(scene, grid, segment, steps, ways);
    for row in first..rows.len() {
        let own_steps = rows[row] as u64;
        if own_steps > steps {
            return;
        }
        take_gains(grid, ways, row, kinds, behind, gains);
        let cell = cell_at(grid, row, (steps - own_steps) as usize);
        fill_cell(layer, cell, kinds, own, gains);
    }
}

/// The layer of the segment before one, by the layer of that one. Each download is looked up once.
pub(crate) fn layer_before(
    alloc: Global,
    scene: &Scene<'_>,
    grid: &TableGrid,
    segment: u16,
    behind: &[i64],
) -> Result<Vec<i64>, AllocError>
    requires grid { IsGridOf scene.now grid.now }
    requires segment { (1 ≤ segment) × (segment < segments_of scene.now.film) }
    requires behind { IsGainLayer scene.now grid.now (segments_of scene.now.film - (segment + 1))
        behind.now }
    ensures { IfOk result (λ v. IsGainLayer scene.now grid.now
        (segments_of scene.now.film - segment) v.items) }
{
    let rungs = scene.film().rungs() as usize;
    let own = step_gains(alloc, scene, segment)?;
    let mut ways = vec![in alloc; Way::new(scene, grid, segment, 0); rungs]?;
    let mut gains = vec![in alloc; 0; rungs]?;
    let mut layer = vec![in alloc; 0; behind.len()]?;
    let mut from = 0;
    for row in 0..grid.rows().len() {
        let steps = grid.rows()[row] as u64;
        let end = steps + width(grid) as u64;
        for sum in steps.max(from)..end {
            fill_steps(
                scene, grid, segment, sum, row, &own, behind, &mut ways, &mut gains, &mut layer,
            );
        }
        from = end;
    }
    Ok(layer)
}
