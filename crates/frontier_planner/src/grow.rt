//! Growing the frontier of a segment and a rung from the labels of the segment before.

ghost use Rattle.std.specs.Prelude.{◌≡◌, ℕ, ◌+◌, ◌-◌, ◌*◌, ◌<◌, ◌≤◌, IfOk, IsTrue, List, map, length};
ghost use Rattle.std.specs.List.Sorted.{IsPermutation, IsSortedBy};
ghost use Rattle.std.specs.Ordering.{is_lt};
ghost use Rattle.lab_model.specs.Film.{rungs_of, segments_of};
ghost use Rattle.labels.specs.Labels.{came_at};
ghost use Rattle.frontier_planner.specs.Brief.{AreFollowed};
ghost use Rattle.frontier_planner.specs.Parents.{AreFirst, HaveParents, candidate_cmp, follower};
ghost use Rattle.frontier_planner.specs.Sweep.{sweep_cmp};

use crate::brief::Brief;
use crate::staircase::Staircase;
use crate::thin::Followed;
use lab_model::Label;
use std::alloc::{AllocError, Global};
use std::cmp::Ordering;

/// The order of the sweep: by finish time, then delay, then falling value.
pub(crate) fn sweep_order(a: &Label, b: &Label) -> Ordering
    ensures { result ≡ sweep_cmp a.now b.now }
{
    a.t.cmp(&b.t).then(a.p.cmp(&b.p)).then(b.v.cmp(&a.v))
}

/// A label that may stand in a frontier.
#[derive(Clone, Copy)]
pub struct Candidate {
    /// The label.
    pub label: Label,
    /// The place of the label that it follows among those of the segment before, by rung, then place.
    pub parent: usize,
}

/// The order of the sweep, and of parents among equal labels.
fn candidate_order(a: &Candidate, b: &Candidate) -> Ordering
    ensures { result ≡ candidate_cmp a.now b.now }
{
    sweep_order(&a.label, &b.label).then(a.parent.cmp(&b.parent))
}

/// Whether the first comes before the second.
fn comes_before(a: &Candidate, b: &Candidate) -> bool
    ensures { result ≡ is_lt (candidate_cmp a.now b.now) }
{
    candidate_order(a, b).is_lt()
}

/// The end of the run of candidates from a place on that are done at one instant.
fn end_of_run(candidates: &[Candidate], from: usize) -> usize
    requires { from < length candidates.now }
    ensures { (from < result) × (result ≤ length candidates.now) }
{
    let done = candidates[from].label.t;
    let mut to = from + 1;
    while to < candidates.len() && candidates[to].label.t == done {
        to += 1;
    }
    to
}

/// Puts the candidates at the places from `from` to before `to` in order.
fn sort_run(candidates: &mut [Candidate], from: usize, to: usize)
    requires order { from ≤ to }
    requires bound { to ≤ length candidates.old }
    ensures { IsPermutation candidates.old candidates.new }
{
    candidates[from..to].sort_unstable_by(|a, b| candidate_order(a, b));
}

/// Puts each run of candidates that are done at one instant in order.
fn sort_runs(candidates: &mut [Candidate])
    ensures { IsPermutation candidates.old candidates.new }
{
    let mut from = 0;
    while from < candidates.len() {
        let to = end_of_run(candidates, from);
        sort_run(candidates, from, to);
        from = to;
    }
}

/// Whether candidates are in order.
fn are_in_order(candidates: &[Candidate]) -> bool
    ensures { IsTrue result → IsSortedBy (λ a b. is_lt (candidate_cmp a b)) candidates.now }
{
    for place in 1..candidates.len() {
        if comes_before(&candidates[place], &candidates[place - 1]) {
            return false;
        }
    }
    true
}

/// Puts candidates in order. Those that follow labels in the order of requests are done in that order, so that each
/// run of one instant is short, and no more is to be done.
fn put_in_order(candidates: &mut [Candidate])
    ensures sorted { IsSortedBy (λ a b. is_lt (candidate_cmp a b)) candidates.new }
    ensures same { IsPermutation candidates.old candidates.new }
{
    sort_runs(candidates);
    if !are_in_order(candidates) {
        candidates.sort_unstable_by(|a, b| candidate_order(a, b));
    }
}

/// Of candidates in order, those that no earlier one dominates.
fn sweep(alloc: Global, candidates: &[Candidate]) -> Result<Vec<Candidate>, AllocError>
    requires { IsSortedBy (λ a b. is_lt (candidate_cmp a b)) candidates.now }
    ensures { IfOk result (λ v. AreFirst candidates.now v.items) }
{
    let mut kept = Vec::new(alloc);
    let mut staircase = Staircase::new(alloc);
    for candidate in candidates {
        if !staircase.covers(candidate.label) {
            staircase.add(candidate.label)?;
            kept.push(*candidate)?;
        }
    }
    Ok(kept)
}

/// The distinct labels of candidates that no different one dominates, in order, each with its first parent.
fn first_undominated(
    alloc: Global,
    candidates: Vec<Candidate>,
) -> Result<Vec<Candidate>, AllocError>
    ensures { IfOk result (λ v. AreFirst candidates.items v.items) }
{
    let mut swept = candidates;
    put_in_order(&mut swept);
    sweep(alloc, &swept)
}

/// When a segment is done that is asked for at an instant.
#[derive(Clone, Copy)]
struct Fetch {
    /// The instant of its request.
    request: u64,
    /// The instant at which it is done.
    done: u64,
}

/// When a segment on a rung is done that is asked for at an instant. Another fetch of it is known.
fn fetch_at(brief: &Brief, segment: u16, rung: u8, request: u64, known: Fetch) -> Fetch
    requires segment { segment < segments_of brief.now.scene.film }
    requires rung { rung < rungs_of brief.now.scene.film }
    requires request { request ≤ 2000000000000000 }
    requires known { known.done ≡ came_at brief.now.scene known.request segment rung }
    ensures request { result.request ≡ request }
    ensures done { result.done ≡ came_at brief.now.scene request segment rung }
{
    if known.request == request {
        return known;
    }
    Fetch {
        request,
        done: brief.done(request, segment, rung),
    }
}

/// The rounded successors, to a segment on a rung, of labels that are enough to follow.
fn successors(
    alloc: Global,
    brief: &Brief,
    segment: u16,
    followed: &[Followed],
    rung: u8,
) -> Result<Vec<Candidate>, AllocError>
    requires segment { (1 ≤ segment) × (segment < segments_of brief.now.scene.film) }
    requires rung { rung < rungs_of brief.now.scene.film }
    requires followed { AreFollowed brief.now segment followed.now }
    ensures { IfOk result (λ v. v.items
        ≡ map (follower brief.now.grid brief.now.scene segment rung) followed.now) }
{
    prove!(brief.segments() > 0);
    let mut made = Vec::with_capacity(alloc, followed.len())?;
    let mut known = Fetch {
        request: 0,
        done: brief.done(0, segment, rung),
    };
    for old in followed {
        let here = brief.label_before(segment, (old.rung, old.label));
        let request = here.request();
        known = fetch_at(brief, segment, rung, request, known);
        let next = here.next_done(rung, known.done);
        made.push(Candidate {
            label: brief.round(next),
            parent: old.place,
        })?;
    }
    Ok(made)
}

/// The coarse frontier of a segment and a rung with its first parents, from labels that are enough to follow; segment 0
/// needs none.
pub fn frontier(
    alloc: Global,
    brief: &Brief,
    segment: u16,
    followed: &[Followed],
    rung: u8,
) -> Result<Vec<Candidate>, AllocError>
    requires segment { segment < segments_of brief.now.scene.film }
    requires rung { rung < rungs_of brief.now.scene.film }
    requires followed { 0 < segment → AreFollowed brief.now segment followed.now }
    ensures { IfOk result (λ v. HaveParents brief.now.grid brief.now.scene segment rung v.items) }
{
    prove!(brief.segments() > 0);
    if segment == 0 {
        let start = brief.start(rung);
        let mut only = Vec::new(alloc);
        only.push(Candidate {
            label: brief.round(start),
            parent: 0,
        })?;
        return Ok(only);
    }
    let candidates = successors(alloc, brief, segment, followed, rung)?;
    first_undominated(alloc, candidates)
}
