//! Chains of the arena: the frontier of each segment and rung, whose nodes are linked to those of their parents.

ghost use Rattle.std.specs.Prelude.{◌≡◌, ℕ, [], ◌+◌, ◌*◌, ◌<◌, ◌≤◌, ◌++◌, IfOk, Some, length, map};
ghost use Rattle.lab_model.specs.Film.{rungs_of, segments_of};
ghost use Rattle.label_arena.specs.Chains.{HasParent, IsOpen, chain_at, node_count};
ghost use Rattle.frontier_planner.specs.Linked.{AddsFrontier, Appends, AreReached, HaveNodes, HoldsSegment, node_of, reached_in};

use crate::brief::Brief;
use crate::grow::Candidate;
use lab_model::{Label, NoMemory};
use label_arena::{Arena, NodeId};
use std::alloc::{AllocError, Global};

/// A label that stands in the arena.
#[derive(Clone, Copy)]
pub struct Reached {
    /// Its rung.
    pub rung: u8,
    /// The label.
    pub label: Label,
    /// Its node.
    pub node: NodeId,
}

/// The number of chains.
pub fn chain_count(brief: &Brief) -> u32
    ensures value { result ≡ segments_of brief.now.scene.film * rungs_of brief.now.scene.film }
    ensures bound { result ≤ 32000 }
{
    brief.segments() as u32 * brief.rungs() as u32
}

/// The number of the chain of a segment and a rung.
pub fn chain_of(brief: &Brief, segment: u16, rung: u8) -> u32
    requires segment { segment < segments_of brief.now.scene.film }
    requires rung { rung < rungs_of brief.now.scene.film }
    ensures value { result ≡ segment * rungs_of brief.now.scene.film + rung }
    ensures bound { result < segments_of brief.now.scene.film * rungs_of brief.now.scene.film }
{
    segment as u32 * brief.rungs() as u32 + rung as u32
}

/// The node of the label at a place, if there is one.
fn node_of(labels: &[Reached], place: usize) -> Option<NodeId>
    ensures { result ≡ node_of labels.now place }
{
    if place < labels.len() {
        return Some(labels[place].node);
    }
    None
}

/// Adds a frontier to an open chain that is empty. Each label is linked to the one at its parent's place.
fn append(arena: &mut Arena, chain: u32, frontier: &[Candidate], before: &[Reached])
    requires open { IsOpen arena.old chain }
    requires empty { (chain_at arena.old chain).nodes ≡ [] }
    requires spare { length frontier.now ≤ arena.old.spare }
    requires before { HaveNodes arena.old before.now }
    ensures { Appends arena.old arena.new chain frontier.now before.now }
{
    let mut last = None;
    for candidate in frontier {
        prove!(arena.spare() <= 4_000_000);
        let parent = node_of(before, candidate.parent);
        last = Some(arena.add(chain, last, candidate.label, parent));
    }
}

/// Adds a frontier to an open chain that is empty, for whose nodes room is made, and seals it.
pub fn add_frontier(
    arena: &mut Arena,
    chain: u32,
    frontier: &[Candidate],
    before: &[Reached],
) -> Result<(), NoMemory>
    requires open { IsOpen arena.old chain }
    requires empty { (chain_at arena.old chain).nodes ≡ [] }
    requires few { (length frontier.now ≤ 1000000)
        × (node_count arena.old + length frontier.now ≤ 4000000) }
    requires before { HaveNodes arena.old before.now }
    ensures { IfOk result (λ _. AddsFrontier arena.old arena.new chain frontier.now before.now) }
{
    arena.make_room(frontier.len() as u32)?;
    append(arena, chain, frontier, before);
    arena.seal(chain);
    Ok(())
}

/// Adds the labels of a chain with their rung.
fn add_reached(
    alloc: Global,
    arena: &Arena,
    chain: u32,
    rung: u8,
    reached: &mut Vec<Reached>,
) -> Result<(), AllocError>
    requires { chain < length arena.now.chains }
    ensures { IfOk result (λ _. reached.new.items
        ≡ reached.old.items ++ reached_in rung (chain_at arena.now chain).nodes) }
{
    for step in arena.walk(chain) {
        reached.push(Reached {
            rung,
            label: step.label,
            node: step.node,
        })?;
    }
    Ok(())
}

/// The labels of a segment whose frontiers stand in the arena, by rung, then place.
pub fn reached_labels(
    alloc: Global,
    brief: &Brief,
    arena: &Arena,
    segment: u16,
) -> Result<Vec<Reached>, AllocError>
    requires segment { segment < segments_of brief.now.scene.film }
    requires holds { HoldsSegment brief.now.grid brief.now.scene arena.now segment }
    ensures { IfOk result (λ v. AreReached brief.now.grid brief.now.scene arena.now
        segment v.items) }
{
    let mut reached = Vec::new(alloc);
    for rung in 0..brief.rungs() {
        add_reached(
            alloc,
            arena,
            chain_of(brief, segment, rung),
            rung,
            &mut reached,
        )?;
    }
    Ok(reached)
}
