//! A good rung list: segment by segment those labels are kept that may come to the most.

ghost use Rattle.std.specs.Prelude.{◌≡◌, ◌-◌, ◌<◌, ◌≤◌, IfOk, OnOk, length};
ghost use Rattle.std.specs.List.{All};
ghost use Rattle.lab_model.specs.Film.{rungs_of, segments_of};
ghost use Rattle.labels.specs.Labels.{AreRungs};
ghost use Rattle.near_best.specs.Kept.{AreOnRungs, IsInReach, IsKept};

use crate::prospect::{Fineness, Prospect};
use lab_model::Label;
use labels::{RungLabel, start_on};
use player_core::Scene;
use std::alloc::{AllocError, Global};

/// At most so many labels of a segment are kept.
const MOST_KEPT: u32 = 100;

/// At least so many.
const LEAST_KEPT: u32 = 24;

/// So many segments and labels that are kept make up the work of a list.
const WORK: u32 = 60_000;

/// Labels whose instants and delays lie nearer to each other count as one, in milliseconds.
const NEAR_MS: u64 = 20;

/// Films of more segments are searched with the coarse grid alone.
const LONGEST_FINE: u16 = 800;

/// The grid that is searched with first.
const COARSE: Fineness = Fineness {
    leads: 17,
    first_ms: 100,
    parts: 1,
};

/// The grid that is searched with then.
const FINE: Fineness = Fineness {
    leads: 25,
    first_ms: 50,
    parts: 2,
};

/// A label that is kept.
#[derive(Clone, Copy, Debug)]
pub struct Kept {
    /// The label.
    pub label: Label,
    /// What it may come to, in thousandths of a point.
    pub worth: i64,
    /// Its rung.
    pub rung: u8,
    /// The utility of its segment on the rung.
    pub utility: u32,
    /// The place of the label before.
    pub before: usize,
}

/// The labels that are kept of a segment.
#[derive(Drop, Debug)]
pub struct Layer {
    /// In the order in which they were kept.
    pub kept: Vec<Kept>,
}

/// How many labels of a segment are kept, so that a long film takes no longer.
fn most_kept(scene: &Scene<'_>) -> usize {
    let most = WORK / (scene.film().segments() as u32).max(1);
    most.max(LEAST_KEPT).min(MOST_KEPT) as usize
}

/// Whether two labels lie near each other.
fn is_near(a: Label, b: Label) -> bool {
    a.t.abs_diff(b.t) < NEAR_MS && a.p.abs_diff(b.p) < NEAR_MS
}

/// Whether a label is no later than another one and has no less value, where a change to the other's rung costs so much.
fn is_no_worse(a: Label, b: Label, cost: i64) -> bool {
    a.t <= b.t && a.p <= b.p && a.v.saturating_sub(cost) >= b.v
}

/// Whether a label stands for another one, where changes weigh so much.
fn stands_for(a: Kept, b: Kept, switch: u32) -> bool {
    let change = a.utility.abs_diff(b.utility) as i64;
    let cost = (switch as i64).saturating_mul(change);
    let is_worth = a.worth.saturating_sub(cost) >= b.worth;
    is_worth && (is_near(a.label, b.label) || is_no_worse(a.label, b.label, cost))
}

/// Whether one of the labels that are kept stands for another one. They come by falling worth.
fn is_covered(labels: &[Kept], new: Kept, switch: u32) -> bool {
    for old in labels {
        if old.worth < new.worth {
            return false;
        }
        if stands_for(*old, new, switch) {
            return true;
        }
    }
    false
}

/// Whether so many labels are kept and none of them has less worth.
fn is_full(labels: &[Kept], new: Kept, most: usize) -> bool {
    match labels.last() {
        None => false,
        Some(last) => labels.len() >= most && last.worth >= new.worth,
    }
}

/// Keeps a label in its place, by falling worth, unless another one stands for it or so many are better.
fn keep(
    scene: &Scene<'_>,
    segment: u16,
    labels: &mut Vec<Kept>,
    new: Kept,
    most: usize,
) -> Result<(), AllocError>
    requires labels { All (IsKept scene.now segment) labels.old.items }
    requires new { IsKept scene.now segment new }
    ensures { OnOk result (All (IsKept scene.now segment) labels.new.items) }
{
    let switch = scene.setup().weights.switch();
    if is_full(labels, new, most) || is_covered(labels, new, switch) {
        return Ok(());
    }
    let place = place_for(labels, new);
    labels.insert(place, new)?;
    labels.truncate(most);
    Ok(())
}

/// The place of a label by falling worth.
fn place_for(labels: &[Kept], new: Kept) -> usize
    ensures { result ≤ length labels.now }
{
    labels.partition_point(|old| old.worth >= new.worth)
}

/// A label of a segment that is kept.
fn kept_of(
    scene: &Scene<'_>,
    prospect: &Prospect,
    segment: u16,
    label: Label,
    rung: u8,
    before: usize,
) -> Kept
    requires segment { segment < segments_of scene.now.film }
    requires label { IsInReach segment label }
    requires rung { rung < rungs_of scene.now.film }
    ensures { IsKept scene.now segment result }
{
    Kept {
        label,
        worth: prospect.worth(scene, segment, label, rung),
        rung,
        utility: scene.setup().weights.utility(segment, rung),
        before,
    }
}

/// The labels of segment 0.
fn first_labels(
    alloc: Global,
    scene: &Scene<'_>,
    prospect: &Prospect,
) -> Result<Vec<Kept>, AllocError>
    ensures { IfOk result (λ v. All (IsKept scene.now 0) v.items) }
{
    prove!(scene.film().segments() > 0);
    let count = scene.film().rungs();
    let mut labels = Vec::new(alloc);
    for rung in 0..count {
        let label = start_on(scene, rung);
        labels.push(kept_of(scene, prospect, 0, label, rung, 0))?;
    }
    Ok(labels)
}

/// The successor of a label that is kept, on a rung.
fn kept_behind(
    scene: &Scene<'_>,
    prospect: &Prospect,
    segment: u16,
    old: Kept,
    number: usize,
    rung: u8,
) -> Kept
    requires segment { (1 ≤ segment) × (segment < segments_of scene.now.film) }
    requires old { IsKept scene.now (segment - 1) old }
    requires rung { rung < rungs_of scene.now.film }
    ensures { IsKept scene.now segment result }
{
    let label = RungLabel::new(scene, segment - 1, old.rung, old.label).next(rung);
    kept_of(scene, prospect, segment, label, rung, number)
}

/// Keeps the successors of a label on all rungs, where they are good enough.
fn keep_behind(
    scene: &Scene<'_>,
    prospect: &Prospect,
    segment: u16,
    old: Kept,
    number: usize,
    most: usize,
    labels: &mut Vec<Kept>,
) -> Result<(), AllocError>
    requires segment { (1 ≤ segment) × (segment < segments_of scene.now.film) }
    requires old { IsKept scene.now (segment - 1) old }
    requires labels { All (IsKept scene.now segment) labels.old.items }
    ensures { OnOk result (All (IsKept scene.now segment) labels.new.items) }
{
    let count = scene.film().rungs();
    for rung in 0..count {
        let new = kept_behind(scene, prospect, segment, old, number, rung);
        keep(scene, segment, labels, new, most)?;
    }
    Ok(())
}

/// The labels of a segment, by those of the segment before.
fn next_labels(
    alloc: Global,
    scene: &Scene<'_>,
    prospect: &Prospect,
    segment: u16,
    before: &[Kept],
    most: usize,
) -> Result<Vec<Kept>, AllocError>
    requires segment { (1 ≤ segment) × (segment < segments_of scene.now.film) }
    requires before { All (IsKept scene.now (segment - 1)) before.now }
    ensures { IfOk result (λ v. All (IsKept scene.now segment) v.items) }
{
    let mut labels = Vec::new(alloc);
    for number in 0..before.len() {
        let old = before[number];
        keep_behind(scene, prospect, segment, old, number, most, &mut labels)?;
    }
    Ok(labels)
}

/// The labels of all segments.
fn all_labels(
    alloc: Global,
    scene: &Scene<'_>,
    prospect: &Prospect,
) -> Result<Vec<Layer>, AllocError>
    ensures count { IfOk result (λ v. length v.items ≡ segments_of scene.now.film) }
    ensures rungs { IfOk result (λ v. AreOnRungs scene.now v.items) }
{
    let count = scene.film().segments();
    let most = most_kept(scene);
    let mut layers = Vec::new(alloc);
    let mut last = first_labels(alloc, scene, prospect)?;
    for segment in 1..count {
        let next = next_labels(alloc, scene, prospect, segment, &last, most)?;
        layers.push(Layer { kept: last })?;
        last = next;
    }
    layers.push(Layer { kept: last })?;
    Ok(layers)
}

/// The place of the label that comes to the most.
fn best_place(labels: &[Kept]) -> usize {
    let mut best = 0usize;
    let mut most = i64::MIN;
    for place in 0..labels.len() {
        if labels[place].worth > most {
            best = place;
            most = labels[place].worth;
        }
    }
    best
}

/// A rung list, with its value in thousandths of a point.
#[derive(Drop, Debug)]
pub struct Found {
    /// The rung of each segment.
    pub rungs: Vec<u8>,
    /// The value.
    pub worth: i64,
}

/// The rungs up to a label of the last segment.
fn rungs_to(
    alloc: Global,
    scene: &Scene<'_>,
    layers: &[Layer],
    last: usize,
) -> Result<Vec<u8>, AllocError>
    requires count { length layers.now ≡ segments_of scene.now.film }
    requires rungs { AreOnRungs scene.now layers.now }
    ensures { IfOk result (λ v. AreRungs scene.now (segments_of scene.now.film) v.items) }
{
    prove!(scene.film().rungs() > 0);
    let count = layers.len();
    let mut rungs = vec![in alloc; 0u8; count]?;
    let mut place = last;
    for back in 0..count {
        let segment = count - 1 - back;
        if let Some(kept) = layers[segment].kept.get(place) {
            rungs[segment] = kept.rung;
            place = kept.before;
        }
    }
    Ok(rungs)
}

/// The rung list that a grid leads to.
fn near_list(alloc: Global, scene: &Scene<'_>, fineness: Fineness) -> Result<Found, AllocError>
    ensures { IfOk result (λ f. AreRungs scene.now (segments_of scene.now.film) f.rungs.items) }
{
    prove!(scene.film().segments() > 0);
    let prospect = Prospect::new(alloc, scene, fineness)?;
    let layers = all_labels(alloc, scene, &prospect)?;
    let ends = &layers[layers.len() - 1].kept;
    let last = best_place(ends);
    let worth = match ends.get(last) {
        None => i64::MIN,
        Some(kept) => kept.worth,
    };
    let rungs = rungs_to(alloc, scene, &layers, last)?;
    Ok(Found { rungs, worth })
}

/// The better one of the rung lists that the grids lead to.
pub fn best_list(alloc: Global, scene: &Scene<'_>) -> Result<Found, AllocError>
    ensures { IfOk result (λ f. AreRungs scene.now (segments_of scene.now.film) f.rungs.items) }
{
    let first = near_list(alloc, scene, COARSE)?;
    if scene.film().segments() > LONGEST_FINE {
        return Ok(first);
    }
    let next = near_list(alloc, scene, FINE)?;
    Ok(if next.worth > first.worth {
        next
    } else {
        first
    })
}
