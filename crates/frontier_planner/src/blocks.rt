//! Staircases over blocks of a chain, by which its first label that dominates another is found.

ghost use Rattle.std.specs.Prelude.{◌≡◌, ℕ, ◌+◌, ◌*◌, ◌<◌, ◌≤◌, IfOk, length, slice_index_or};
ghost use Rattle.std.specs.List.{All};
ghost use Rattle.frontier_planner.specs.Blocks.{AreOver, HaveFinders, IsFinder, IsLevel, IsOver, NoneBefore};
ghost use Rattle.labels.specs.Read.{place_above};
ghost use Rattle.frontier_planner.specs.Staircase.{IsRising};

use crate::climb::climbs;
use crate::frontiers::Layer;
use crate::staircase::Staircase;
use lab_model::Label;
use labels::dominates;
use std::alloc::{AllocError, Global};

/// The staircases of the blocks of a chain.
#[derive(Drop)]
pub struct Level {
    /// The labels of a block, 1 to 65536.
    pub size: usize,
    /// The staircases, block by block.
    pub blocks: Vec<Staircase>,
}

/// The staircase over the labels of a chain at the places from `from` to before `to`.
fn staircase_over(
    alloc: Global,
    chain: &[Label],
    from: usize,
    to: usize,
) -> Result<Staircase, AllocError>
    requires { to ≤ length chain.now }
    ensures rising { IfOk result (λ s. IsRising s.steps.items) }
    ensures over { IfOk result (λ s. IsOver chain.now from to s.steps.items) }
{
    let mut staircase = Staircase::new(alloc);
    for place in from..to {
        if !staircase.covers(chain[place]) {
            staircase.add(chain[place])?;
        }
    }
    Ok(staircase)
}

/// The staircases of the blocks of so many labels, 1 to 65536.
fn level_of(alloc: Global, chain: &[Label], size: usize) -> Result<Level, AllocError>
    requires { (1 ≤ size) × (size ≤ 65536) }
    ensures { IfOk result (λ v. IsLevel chain.now v) }
{
    let mut blocks = Vec::new(alloc);
    let mut begin = 0;
    while begin < chain.len() {
        let end = begin + size.min(chain.len() - begin);
        blocks.push(staircase_over(alloc, chain, begin, end)?)?;
        begin = end;
    }
    Ok(Level { size, blocks })
}

/// Adds a level of blocks that are shorter than the chain.
fn add_level(
    alloc: Global,
    chain: &[Label],
    size: usize,
    levels: &mut Vec<Level>,
) -> Result<(), AllocError>
    requires size { (1 ≤ size) × (size ≤ 65536) }
    requires levels { All (IsLevel chain.now) levels.old.items }
    ensures { IfOk result (λ _. All (IsLevel chain.now) levels.new.items) }
{
    if size < chain.len() {
        levels.push(level_of(alloc, chain, size)?)?;
    }
    Ok(())
}

/// The levels of a chain, those of the longest blocks first.
fn levels_of(alloc: Global, chain: &[Label]) -> Result<Vec<Level>, AllocError>
    ensures { IfOk result (λ v. All (IsLevel chain.now) v.items) }
{
    let mut levels = Vec::new(alloc);
    add_level(alloc, chain, 65_536, &mut levels)?;
    add_level(alloc, chain, 4096, &mut levels)?;
    add_level(alloc, chain, 256, &mut levels)?;
    add_level(alloc, chain, 16, &mut levels)?;
    Ok(levels)
}

/// By what the first label of a chain that dominates another is found.
#[derive(Drop)]
pub struct Finder {
    /// Whether times, delays and values rise together along the chain.
    pub climbs: bool,
    /// The levels, where they don't.
    pub levels: Vec<Level>,
}

/// The finder of a chain.
fn finder_of(alloc: Global, chain: &[Label]) -> Result<Finder, AllocError>
    ensures { IfOk result (λ f. IsFinder chain.now f) }
{
    let climbs = climbs(chain);
    let levels = if climbs {
        Vec::new(alloc)
    } else {
        levels_of(alloc, chain)?
    };
    Ok(Finder { climbs, levels })
}

/// The finders of the chains of a segment.
fn finders_by_rung(alloc: Global, chains: &[Vec<Label>]) -> Result<Vec<Finder>, AllocError>
    ensures { IfOk result (λ v. HaveFinders chains.now v.items) }
{
    let mut finders = Vec::new(alloc);
    for chain in chains {
        finders.push(finder_of(alloc, chain)?)?;
    }
    Ok(finders)
}

/// The finders of the chains of the segment behind one, if there is such a segment.
pub fn next_finders(
    alloc: Global,
    layers: &[Layer],
    segment: u16,
) -> Result<Vec<Finder>, AllocError>
    ensures { IfOk result (λ v. AreOver layers.now (segment + 1) v.items) }
{
    match layers.get(segment as usize + 1) {
        Some(layer) => finders_by_rung(alloc, &layer.chains),
        None => Ok(Vec::new(alloc)),
    }
}

/// A place from `from` on before which no label dominates this one: behind the blocks of a level in which
/// every label has a longer delay or less a value.
fn pass_blocks(chain: &[Label], level: &Level, from: usize, l: Label) -> usize
    requires few { length chain.now ≤ 1000000 }
    requires level { IsLevel chain.now level.now }
    requires none { NoneBefore chain.now l from }
    ensures { NoneBefore chain.now l result }
{
    let mut place = from;
    while place < chain.len() {
        if level.blocks[place / level.size].covers(l) {
            return place;
        }
        place += level.size - place % level.size;
    }
    place
}

/// The first place of a label that dominates this one, and the chain's length where none does. None before
/// `from` does.
pub fn place_from(chain: &[Label], from: usize, l: Label) -> u32
    requires few { length chain.now ≤ 1000000 }
    requires none { NoneBefore chain.now l from }
    ensures { result ≡ place_above chain.now l }
{
    for place in from..chain.len() {
        if dominates(chain[place], l) {
            return place as u32;
        }
    }
    chain.len() as u32
}

/// The first place of a label that dominates this one, and the chain's length where none does.
pub fn first_above(chain: &[Label], levels: &[Level], l: Label) -> u32
    requires few { length chain.now ≤ 1000000 }
    requires levels { All (IsLevel chain.now) levels.now }
    ensures { result ≡ place_above chain.now l }
{
    let mut from = 0;
    for level in levels {
        from = pass_blocks(chain, level, from, l);
    }
    place_from(chain, from, l)
}
