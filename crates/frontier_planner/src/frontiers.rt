//! Growing the frontiers of all segments in one arena, and reading their chains.

ghost use Rattle.std.specs.Prelude.{◌≡◌, ℕ, ◌+◌, ◌-◌, ◌*◌, ◌<◌, ◌≤◌, IfOk, length, map};
ghost use Rattle.lab_model.specs.Film.{rungs_of, segments_of};
ghost use Rattle.label_arena.specs.Chains.{chain_at, node_count};
ghost use Rattle.labels.specs.Grown.{grown_labels};
ghost use Rattle.frontier_planner.specs.Brief.{AreFollowed};
ghost use Rattle.frontier_planner.specs.Layers.{FrontiersAnswer, HoldAll, HoldsFrontiers, SegmentAnswer};
ghost use Rattle.frontier_planner.specs.Linked.{AreBefore, HoldsAll, HoldsBelow, HoldsSegment, labels_held, pair_of};

use crate::brief::Brief;
use crate::chains::{Reached, add_frontier, chain_count, chain_of, reached_labels};
use crate::grow::frontier;
use crate::plans::PlanErr;
use crate::thin::{Followed, labels_to_follow};
use lab_model::{Budget, Label};
use label_arena::Arena;
use std::alloc::{AllocError, Global};

/// The labels of the segment before one, and none for segment 0.
fn labels_before(
    alloc: Global,
    brief: &Brief,
    arena: &Arena,
    segment: u16,
) -> Result<Vec<Reached>, AllocError>
    requires segment { segment < segments_of brief.now.scene.film }
    requires holds { HoldsBelow brief.now.grid brief.now.scene arena.now
        (segment * rungs_of brief.now.scene.film) }
    ensures { IfOk result (λ v. AreBefore brief.now.grid brief.now.scene arena.now segment v.items) }
{
    if segment == 0 {
        return Ok(Vec::new(alloc));
    }
    reached_labels(alloc, brief, arena, segment - 1)
}

/// Labels that are enough to follow to a segment, and none for segment 0.
fn followed_labels(
    alloc: Global,
    brief: &Brief,
    segment: u16,
    before: &[Reached],
) -> Result<Vec<Followed>, AllocError>
    requires segment { segment < segments_of brief.now.scene.film }
    requires before { 0 < segment → map pair_of before.now
        ≡ grown_labels brief.now.grid brief.now.scene (segment - 1) }
    ensures { IfOk result (λ v. 0 < segment → AreFollowed brief.now segment v.items) }
{
    if segment == 0 {
        return Ok(Vec::new(alloc));
    }
    labels_to_follow(alloc, brief, segment, before)
}

/// Grows the frontiers of a segment, whose labels may be so many as are left of the budget, and gives how many
/// are left then.
fn grow_segment(
    alloc: Global,
    brief: &Brief,
    segment: u16,
    arena: &mut Arena,
    left: u32,
) -> Result<u32, PlanErr>
    requires segment { segment < segments_of brief.now.scene.film }
    requires holds { HoldsBelow brief.now.grid brief.now.scene arena.old
        (segment * rungs_of brief.now.scene.film) }
    requires few { node_count arena.old + left ≤ 1000000 }
    ensures { SegmentAnswer brief.now.grid brief.now.scene segment left arena.old arena.new result }
{
    let before = labels_before(alloc, brief, arena, segment)?;
    let followed = followed_labels(alloc, brief, segment, &before)?;
    let mut rest = left;
    for rung in 0..brief.rungs() {
        let chain = frontier(alloc, brief, segment, &followed, rung)?;
        if chain.len() > rest as usize {
            return Err(PlanErr::BudgetSpent { segment: segment });
        }
        add_frontier(arena, chain_of(brief, segment, rung), &chain, &before)?;
        rest -= chain.len() as u32;
    }
    Ok(rest)
}

/// The frontiers of all segments.
#[derive(Drop)]
pub struct Frontiers {
    /// Their chains, by segment, then rung.
    pub arena: Arena,
    /// The number of their labels.
    pub labels: u32,
}

/// The frontiers of all segments, which may have as many labels as the budget.
pub fn grown_frontiers(alloc: Global, brief: &Brief, budget: Budget) -> Result<Frontiers, PlanErr>
    ensures { FrontiersAnswer brief.now.grid brief.now.scene budget result }
{
    let mut arena = Arena::with_room(alloc, chain_count(brief), 0)?;
    let most = budget.labels();
    let mut left = most;
    for segment in 0..brief.segments() {
        left = grow_segment(alloc, brief, segment, &mut arena, left)?;
    }
    Ok(Frontiers {
        arena,
        labels: most - left,
    })
}

/// The chains of one segment by rung.
#[derive(Drop)]
pub struct Layer {
    pub chains: Vec<Vec<Label>>,
}

/// The labels of a chain in order.
fn chain_labels(alloc: Global, arena: &Arena, chain: u32) -> Result<Vec<Label>, AllocError>
    requires { chain < length arena.now.chains }
    ensures { IfOk result (λ v. v.items ≡ labels_held (chain_at arena.now chain).nodes) }
{
    prove!(arena.spare() <= 4_000_000);
    let mut labels = Vec::with_capacity(alloc, arena.walk(chain).count())?;
    for step in arena.walk(chain) {
        labels.push(step.label)?;
    }
    Ok(labels)
}

/// The chains of a segment.
fn layer_of(alloc: Global, brief: &Brief, arena: &Arena, segment: u16) -> Result<Layer, AllocError>
    requires segment { segment < segments_of brief.now.scene.film }
    requires holds { HoldsSegment brief.now.grid brief.now.scene arena.now segment }
    ensures { IfOk result (λ l. HoldsFrontiers brief.now.grid brief.now.scene segment l) }
{
    let mut chains = Vec::new(alloc);
    for rung in 0..brief.rungs() {
        chains.push(chain_labels(alloc, arena, chain_of(brief, segment, rung))?)?;
    }
    Ok(Layer { chains })
}

/// The chains of all segments.
pub fn layers_of(alloc: Global, brief: &Brief, arena: &Arena) -> Result<Vec<Layer>, AllocError>
    requires { HoldsAll brief.now.grid brief.now.scene arena.now }
    ensures holds { IfOk result (λ v. HoldAll brief.now.grid brief.now.scene v.items) }
    ensures count { IfOk result (λ v. length v.items ≡ segments_of brief.now.scene.film) }
{
    let mut layers = Vec::new(alloc);
    for segment in 0..brief.segments() {
        layers.push(layer_of(alloc, brief, arena, segment)?)?;
    }
    Ok(layers)
}
