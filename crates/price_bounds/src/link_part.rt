//! The link part of a bound, segment by segment from the last.

ghost use Rattle.std.specs.Prelude.{◌≡◌, ℕ, ◌+◌, ◌-◌, ◌*◌, ◌<◌, ◌≤◌, IfOk, length, pos, slice_index, slice_index_or, ◌-ℤ◌};
ghost use Rattle.lab_model.specs.Number.{IsNear};
ghost use Rattle.lab_model.specs.Film.{segments_of};
ghost use Rattle.price_bounds.specs.Cells.{cells_of, farthest_delay};
ghost use Rattle.price_bounds.specs.LinkPart.{begin_at, carried_to, end_at, link_part};
ghost use Rattle.price_bounds.specs.Steps.{IsTable};
ghost use Rattle.price_bounds.specs.Tables.{AreEdges, AreLosses, cell_gains, cell_moves, most_link_worth, most_worth, stall_cost};
ghost use Rattle.price_bounds.specs.Windows.{CanBound, price_unit};

use crate::bound::PRICE_UNIT;
use crate::cells::least_delays;
use crate::counts::segments;
use crate::numbers::difference;
use crate::prices::{price_beginning, price_ending};
use crate::window::Window;
use player_core::Scene;
use std::alloc::{AllocError, Global};

/// The instant at which a segment has come at the latest, where its delay is at most 1015625000000 ms.
fn end_of(scene: &Scene<'_>, segment: u16, delay: u64) -> u64
    requires segment { segment < segments_of scene.now.film }
    requires delay { delay ≤ 1015625000000 }
    ensures value { result ≡ end_at scene.now segment delay }
    ensures limit { result ≤ 1016000000000 }
{
    let film = scene.film();
    prove!(film.segments() <= 2000);
    delay + segment as u64 * film.seg_ms() as u64
}

/// The instant at which a segment is asked for at the earliest, after a delay of the one before.
fn begin_of(scene: &Scene<'_>, first: u64, segment: u16, delay: u64) -> u64
    requires segment { segment < segments_of scene.now.film }
    requires first { first ≤ delay }
    requires delay { delay ≤ farthest_delay }
    ensures value { result ≡ begin_at scene.now first segment delay }
    ensures limit { result ≤ 1016000000000 }
{
    let film = scene.film();
    prove!(film.segments() <= 2000);
    let wanted = delay + (segment as u64 + 1) * film.seg_ms() as u64;
    let room = wanted.saturating_sub(scene.setup().buffer_ms as u64);
    first.max(room).max(scene.available(segment))
}

/// What the network carries before an instant, at a price of at most 4 * 10^15.
fn worth(scene: &Scene<'_>, price: u64, instant: u64) -> u128
    requires price { price ≤ 4000000000000000 }
    requires instant { instant ≤ 1016000000000 }
    ensures value { result ≡ price * carried_to scene.now instant }
    ensures limit { result ≤ most_worth }
{
    if price == 0 {
        return 0;
    }
    price as u128 * scene.clock().carried_before(instant)
}

/// What the windows that end with a segment are worth in a cell.
fn worth_to_end(scene: &Scene<'_>, price: u64, segment: u16, next_edge: u64) -> u128
    requires segment { segment < segments_of scene.now.film }
    requires price { price ≤ 4000000000000000 }
    requires edge { (1 ≤ next_edge) × (next_edge - 1 ≤ 1015625000000) }
    ensures value { result ≡ price * carried_to scene.now (end_at scene.now segment (next_edge - 1)) }
    ensures limit { result ≤ most_worth }
{
    worth(scene, price, end_of(scene, segment, next_edge - 1))
}

/// What those that begin with a segment are worth after a cell.
fn worth_to_begin(scene: &Scene<'_>, price: u64, first: u64, segment: u16, edge: u64) -> u128
    requires segment { segment < segments_of scene.now.film }
    requires price { price ≤ 4000000000000000 }
    requires first { first ≤ edge }
    requires edge { edge ≤ farthest_delay }
    ensures value { result ≡ price * carried_to scene.now (begin_at scene.now first segment edge) }
    ensures limit { result ≤ most_worth }
{
    worth(scene, price, begin_of(scene, first, segment, edge))
}

/// What the stalls up to a delay cost.
#[tactic(auto, using(crate::proofs::CellCode::cost_low))]
fn cost_of_stalls(scene: &Scene<'_>, first: u64, delay: u64) -> u128
    requires first { first ≤ delay }
    requires delay { delay ≤ farthest_delay }
    ensures value { result ≡ price_unit * (scene.now.setup.weights.stall * (delay - first)) }
    ensures limit { result ≤ 1000000000000000000000000000 }
{
    PRICE_UNIT * (scene.setup().weights.stall() as u128 * (delay - first) as u128)
}

/// What stalls cost up to each cell, as a loss.
fn stall_losses(alloc: Global, scene: &Scene<'_>, edges: &[u64]) -> Result<Vec<i128>, AllocError>
    requires edges { AreEdges (slice_index edges.now 0) edges.now }
    ensures { IfOk result (λ v. AreLosses scene.now (slice_index edges.now 0) v.items) }
{
    let mut losses = Vec::new(alloc);
    for cell in 0..edges.len() - 1 {
        let cost = cost_of_stalls(scene, edges[0], edges[cell]);
        losses.push(difference(0, cost))?;
    }
    Ok(losses)
}

/// Puts what the cells from a segment on come to, after each cell, in place of what those behind the segment do.
fn step_back(scene: &Scene<'_>, windows: &[Window], edges: &[u64], segment: u16, table: &mut [i128])
    requires windows { CanBound (segments_of scene.now.film) windows.now }
    requires segment { (1 ≤ segment) × (segment < segments_of scene.now.film) }
    requires edges { AreEdges (slice_index edges.now 0) edges.now }
    requires table { let first = slice_index edges.now 0 in
        IsTable (cell_moves first) (cell_gains scene.now windows.now first)
        (segments_of scene.now.film - (segment + 1)) (segment + 1) table.old }
    ensures { let first = slice_index edges.now 0 in
        IsTable (cell_moves first) (cell_gains scene.now windows.now first)
        (segments_of scene.now.film - segment) segment table.new }
{
    prove!(segments(scene) > 0);
    let ending = price_ending(windows, segment);
    let beginning = price_beginning(windows, segment);
    let last = table.len() - 1;
    let last_end = worth_to_end(scene, ending, segment, edges[last + 1]);
    let mut best = last_end as i128 + table[last];
    for done in 0..table.len() {
        let cell = last - done;
        let end = worth_to_end(scene, ending, segment, edges[cell + 1]);
        let here = end as i128 + table[cell];
        best = best.max(here);
        let begin = worth_to_begin(scene, beginning, edges[0], segment, edges[cell]);
        table[cell] = best - begin as i128;
    }
}

/// The link part behind a first delay of at most 10^12 ms.
pub fn link_part(
    alloc: Global,
    scene: &Scene<'_>,
    windows: &[Window],
    first: u64,
) -> Result<i128, AllocError>
    requires windows { CanBound (segments_of scene.now.film) windows.now }
    requires first { first ≤ farthest_delay }
    ensures value { IfOk result (λ v. v ≡ link_part scene.now windows.now first) }
    ensures near { IfOk result (IsNear most_link_worth) }
{
    let edges = least_delays(alloc, first)?;
    let mut table = stall_losses(alloc, scene, &edges)?;
    let count = segments(scene);
    for done in 1..count {
        step_back(scene, windows, &edges, count - done, &mut table);
    }
    Ok(table[0])
}
