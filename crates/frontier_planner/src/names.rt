//! Names: for each label and each next rung the place of a label there that dominates the successor.

ghost use Rattle.std.specs.Prelude.{◌≡◌, ℕ, ◌+◌, ◌-◌, ◌*◌, ◌<◌, ◌≤◌, ◌++◌, [], IfOk, length, map};
ghost use Rattle.std.specs.List.{Contains, flat_map};
ghost use Rattle.lab_model.specs.Film.{rungs_of, segments_of};
ghost use Rattle.frontier_planner.specs.Blocks.{AreOver, IsFinder};
ghost use Rattle.frontier_planner.specs.Brief.{CanGoOn};
ghost use Rattle.labels.specs.Covers.{HasAbove};
ghost use Rattle.labels.specs.Grown.{grown, grown_labels};
ghost use Rattle.labels.specs.Labels.{next_label};
ghost use Rattle.frontier_planner.specs.Layers.{HoldPlan, chain_read, chains_read, names_read};
ghost use Rattle.labels.specs.Parts.{chain_parts};
ghost use Rattle.labels.specs.Read.{chain_list, place_above, starts_of};

use crate::blocks::{Finder, first_above, next_finders, place_from};
use crate::brief::Brief;
use crate::climb::place_of_value;
use crate::frontiers::Layer;
use lab_model::Label;
use labels::Chain;
use std::alloc::{AllocError, Global};

/// For each rung the first place of a label of segment 0 that dominates the start label.
pub fn starts(alloc: Global, brief: &Brief, layers: &[Layer]) -> Result<Vec<u32>, AllocError>
    requires { HoldPlan brief.now.grid brief.now.scene layers.now }
    ensures { IfOk result (λ v. v.items
        ≡ starts_of brief.now.scene
        (grown brief.now.grid brief.now.scene)) }
{
    let mut starts = Vec::new(alloc);
    for rung in 0..brief.rungs() {
        let start = brief.start(rung);
        starts.push(place_from(&layers[0].chains[rung as usize], 0, start))?;
    }
    Ok(starts)
}

/// The first place in the chain of a rung of the next segment at which a label dominates the successor. The hint is
/// a place near which it may be.
fn name_of(
    brief: &Brief,
    segment: u16,
    reached: (u8, Label),
    rung: u8,
    chain: &[Label],
    finder: &Finder,
    hint: usize,
) -> u32
    requires segment { segment + 1 < segments_of brief.now.scene.film }
    requires reached { CanGoOn brief.now reached rung }
    requires few { length chain.now ≤ 1000000 }
    requires finder { IsFinder chain.now finder.now }
    requires above { HasAbove chain.now
        (next_label brief.now.scene (segment + 1) reached.0 reached.1 rung) }
    ensures { result ≡ place_above chain.now
        (next_label brief.now.scene (segment + 1) reached.0 reached.1 rung) }
{
    prove!(brief.segments() > 0);
    let here = brief.label_before(segment + 1, reached);
    if finder.climbs {
        let value = here.next_value(rung);
        return place_of_value(chain, hint, value) as u32;
    }
    first_above(chain, &finder.levels, here.next(rung))
}

/// The name that stands so many places before the end, as a hint for the next one, and 0 where there is none.
fn hint_in(names: &[u32], back: u8) -> usize {
    match names.len().checked_sub(back as usize) {
        Some(place) if back > 0 => names[place] as usize,
        _ => 0,
    }
}

/// Adds the names of a label of a segment, where there is a next one.
fn name_label(
    brief: &Brief,
    layers: &[Layer],
    finders: &[Finder],
    segment: u16,
    reached: (u8, Label),
    names: &mut Vec<u32>,
) -> Result<(), AllocError>
    requires layers { HoldPlan brief.now.grid brief.now.scene layers.now }
    requires finders { AreOver layers.now (segment + 1) finders.now }
    requires segment { segment + 1 < segments_of brief.now.scene.film }
    requires reached { Contains
        (grown_labels brief.now.grid brief.now.scene segment) reached }
    ensures { IfOk result (λ _. names.new.items
        ≡ names.old.items ++ names_read brief.now.grid brief.now.scene segment reached) }
{
    let next = &layers[segment as usize + 1].chains;
    let rungs = brief.rungs();
    for rung in 0..rungs {
        let hint = hint_in(names, rungs);
        let chain = &next[rung as usize];
        let finder = &finders[rung as usize];
        let place = name_of(brief, segment, reached, rung, chain, finder, hint);
        names.push(place)?;
    }
    Ok(())
}

/// Room for the names of a chain, as much as they take.
fn room_for_names(alloc: Global, brief: &Brief, chain: &[Label]) -> Result<Vec<u32>, AllocError>
    requires { length chain.now ≤ 1000000 }
    ensures { IfOk result (λ v. v.items ≡ []) }
{
    Vec::with_capacity(alloc, chain.len() * brief.rungs() as usize)
}

/// The names of the chain of a segment on a rung, where there is a next segment.
fn names(
    alloc: Global,
    brief: &Brief,
    layers: &[Layer],
    finders: &[Finder],
    segment: u16,
    rung: u8,
) -> Result<Vec<u32>, AllocError>
    requires layers { HoldPlan brief.now.grid brief.now.scene layers.now }
    requires finders { AreOver layers.now (segment + 1) finders.now }
    requires segment { segment + 1 < segments_of brief.now.scene.film }
    requires rung { rung < rungs_of brief.now.scene.film }
    ensures { IfOk result (λ v. v.items
        ≡ flat_map (λ l. names_read brief.now.grid brief.now.scene segment (rung, l))
        (grown brief.now.grid brief.now.scene segment rung)) }
{
    let mut names = room_for_names(
        alloc,
        brief,
        &layers[segment as usize].chains[rung as usize],
    )?;
    for l in &layers[segment as usize].chains[rung as usize] {
        name_label(brief, layers, finders, segment, (rung, *l), &mut names)?;
    }
    Ok(names)
}

/// The chain of a segment on a rung with its names, which the last segment doesn't have.
fn named_chain(
    alloc: Global,
    brief: &Brief,
    layers: &[Layer],
    finders: &[Finder],
    segment: u16,
    rung: u8,
) -> Result<Chain, AllocError>
    requires layers { HoldPlan brief.now.grid brief.now.scene layers.now }
    requires finders { AreOver layers.now (segment + 1) finders.now }
    requires segment { segment < segments_of brief.now.scene.film }
    requires rung { rung < rungs_of brief.now.scene.film }
    ensures { IfOk result (λ c. chain_parts c
        ≡ chain_read brief.now.grid brief.now.scene segment rung) }
{
    let labels = Vec::from_slice(alloc, &layers[segment as usize].chains[rung as usize])?;
    let names = if segment + 1 < brief.segments() {
        names(alloc, brief, layers, finders, segment, rung)?
    } else {
        Vec::new(alloc)
    };
    Ok(Chain { labels, names })
}

/// Adds the chains of a segment with their names.
fn add_named(
    alloc: Global,
    brief: &Brief,
    layers: &[Layer],
    segment: u16,
    chains: &mut Vec<Chain>,
) -> Result<(), AllocError>
    requires layers { HoldPlan brief.now.grid brief.now.scene layers.now }
    requires segment { segment < segments_of brief.now.scene.film }
    ensures { IfOk result (λ _. map chain_parts chains.new.items
        ≡ map chain_parts chains.old.items
        ++ chains_read brief.now.grid brief.now.scene segment) }
{
    let finders = next_finders(alloc, layers, segment)?;
    for rung in 0..brief.rungs() {
        let chain = named_chain(alloc, brief, layers, &finders, segment, rung)?;
        chains.push(chain)?;
    }
    Ok(())
}

/// The chains by segment, then rung, with their names.
pub fn chains(alloc: Global, brief: &Brief, layers: &[Layer]) -> Result<Vec<Chain>, AllocError>
    requires { HoldPlan brief.now.grid brief.now.scene layers.now }
    ensures { IfOk result (λ v. map chain_parts v.items
        ≡ chain_list brief.now.scene
        (grown brief.now.grid brief.now.scene)) }
{
    let mut chains = Vec::new(alloc);
    for segment in 0..brief.segments() {
        add_named(alloc, brief, layers, segment, &mut chains)?;
    }
    Ok(chains)
}
