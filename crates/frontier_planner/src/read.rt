//! Reading a plan off the arena: its end, its rung list by parent links, and its score.

ghost use Rattle.std.specs.Prelude.{◌≡◌, ◌↔◌, ℕ, ◌+◌, ◌-◌, ◌*◌, ◌<◌, ◌≤◌, IfOk, IsTrue, int_lt, length, map};
ghost use Rattle.std.specs.List.{Contains};
ghost use Rattle.lab_model.specs.Film.{rungs_of, segments_of};
ghost use Rattle.label_arena.specs.Chains.{StandsIn};
ghost use Rattle.labels.specs.Grown.{grown, grown_labels};
ghost use Rattle.labels.specs.Labels.{AreRungs, end_value};
ghost use Rattle.frontier_planner.specs.Layers.{rungs_read};
ghost use Rattle.frontier_planner.specs.Linked.{HoldsAll, StandsAt, StandsOn, pair_of};
ghost use Rattle.labels.specs.Read.{end_of_plan, list_value, parent_of};

use crate::brief::Brief;
use crate::chains::{Reached, chain_of};
use lab_model::Label;
use label_arena::{Arena, NodeId};
use std::alloc::{AllocError, Global};

/// Whether the first label ends at more than the second.
fn ends_higher(brief: &Brief, a: Label, b: Label) -> bool
    requires a { a.p ≤ 2000000000000000 }
    requires b { b.p ≤ 2000000000000000 }
    ensures { result ≡ int_lt (end_value brief.now.scene b) (end_value brief.now.scene a) }
{
    brief.end_value(a) > brief.end_value(b)
}

/// The first of the labels of the last segment with the greatest end value.
pub fn best_end(brief: &Brief, last: &[Reached]) -> Reached
    requires { map pair_of last.now
        ≡ grown_labels brief.now.grid brief.now.scene (segments_of brief.now.scene.film - 1) }
    ensures best { pair_of result
        ≡ end_of_plan brief.now.scene
        (grown brief.now.grid brief.now.scene) }
    ensures there { Contains last.now result }
{
    prove!(brief.segments() > 0);
    let mut best = last[0];
    for reached in last {
        if ends_higher(brief, reached.label, best.label) {
            best = *reached;
        }
    }
    best
}

/// Whether a node stands in a chain.
fn holds(arena: &Arena, chain: u32, node: NodeId) -> bool
    requires { chain < length arena.now.chains }
    ensures { IsTrue result ↔ StandsIn arena.now chain node }
{
    arena.walk(chain).any(|step| step.node == node)
}

/// The rung of the chain of a segment in which a node stands.
fn rung_of(brief: &Brief, arena: &Arena, segment: u16, node: NodeId) -> u8
    requires segment { segment < segments_of brief.now.scene.film }
    requires chains { length arena.now.chains
        ≡ segments_of brief.now.scene.film * rungs_of brief.now.scene.film }
    requires there { StandsOn brief.now.scene arena.now segment node }
    ensures rung { result < rungs_of brief.now.scene.film }
    ensures there { StandsIn arena.now (segment * rungs_of brief.now.scene.film + result) node }
{
    for rung in 0..brief.rungs() {
        if holds(arena, chain_of(brief, segment, rung), node) {
            return rung;
        }
    }
    unreachable!()
}

/// The parent of a label: the first of the segment before whose rounded successor it is.
fn parent(brief: &Brief, arena: &Arena, segment: u16, reached: Reached) -> Reached
    requires segment { (1 ≤ segment) × (segment < segments_of brief.now.scene.film) }
    requires holds { HoldsAll brief.now.grid brief.now.scene arena.now }
    requires reached { StandsAt brief.now.scene arena.now segment reached }
    ensures parent { pair_of result
        ≡ parent_of brief.now.grid brief.now.scene (grown brief.now.grid brief.now.scene)
        (segment - 1) (pair_of reached) }
    ensures there { StandsAt brief.now.scene arena.now (segment - 1) result }
{
    prove!(arena.spare() <= 4_000_000);
    let Some(node) = arena.parent(reached.node) else {
        unreachable!()
    };
    let rung = rung_of(brief, arena, segment - 1, node);
    let label = arena.label(node);
    Reached { rung, label, node }
}

/// The rungs up to a label of a segment, read backwards.
pub fn rungs_to(
    alloc: Global,
    brief: &Brief,
    arena: &Arena,
    segment: u16,
    reached: Reached,
) -> Result<Vec<u8>, AllocError>
    requires segment { segment < segments_of brief.now.scene.film }
    requires holds { HoldsAll brief.now.grid brief.now.scene arena.now }
    requires reached { StandsAt brief.now.scene arena.now segment reached }
    ensures { IfOk result (λ v. v.items
        ≡ rungs_read brief.now.grid brief.now.scene segment (pair_of reached)) }
{
    if segment == 0 {
        let mut rungs = Vec::with_capacity(alloc, brief.segments() as usize)?;
        rungs.push(reached.rung)?;
        return Ok(rungs);
    }
    let old = parent(brief, arena, segment, reached);
    let mut rungs = rungs_to(alloc, brief, arena, segment - 1, old)?;
    rungs.push(reached.rung)?;
    Ok(rungs)
}
