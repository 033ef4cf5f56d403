//! The checker, which is given the layers of a certificate in order.

ghost use Rattle.std.specs.Prelude.{◌≡◌, ◌+◌, ◌<◌, ◌≤◌, [], length};
ghost use Rattle.lab_model.specs.Film.{rungs_of, segments_of};
ghost use Rattle.labels.specs.Labels.{AreRungs};
ghost use Rattle.labels.specs.Parts.{chain_parts};
ghost use Rattle.certificate_check.specs.declared.verdict.Verdict.TheVariants.{Yes};
ghost use Rattle.certificate_check.specs.Scheme.{both, first_no, verdict_by};
ghost use Rattle.certificate_check.specs.Clauses.{counts_verdict, end_verdict, ends_verdict, chains_by_rung, name_verdict, names_verdict, plan_verdict, range_verdict, ranges_verdict, score_verdict, starts_held, starts_verdict};
ghost use Rattle.certificate_check.specs.Layers.{AreBoth, CanName, IsLayer, MayEnd};

use crate::ranges::{
    Outcome, both, count_of, label_of, name_of, plan_verdict, ranges_verdict, starts_verdict, test,
    verdict_by,
};
use crate::verdict::Verdict;
use labels::{Chain, RungLabel, dominates, end_value, start_on, value_of_list};
use player_core::Scene;

/// What the layers so far gave.
#[derive(Clone, Copy)]
pub(crate) struct Found {
    /// The verdict on V1 and V2.
    pub ranges: Verdict,
    /// The verdict on V3 and V4, where that one is a yes.
    pub claims: Verdict,
}

/// V1, and V2 of the plan.
pub(crate) fn head_verdict(
    scene: &Scene<'_>,
    table: bool,
    segments: u16,
    rungs: u8,
    plan: &[u8],
) -> Verdict
    requires { (length plan.now ≡ segments) × (segments ≤ 2000) }
    ensures { result ≡ both (counts_verdict scene.now table segments rungs)
        (plan_verdict segments rungs plan.now) }
{
    let film = scene.film();
    let has_table = scene.setup().weights.rows() != 0;
    let same = segments == film.segments() && rungs == film.rungs() && table == has_table;
    both(
        verdict_by(test(1, 0, 0, 0, same)),
        verdict_by(plan_verdict(rungs, plan)),
    )
}

/// V3: the label that a start names dominates the start label.
fn starts_held(scene: &Scene<'_>, starts: &[u32], first: &[Chain]) -> Outcome
    requires rungs { length starts.now ≡ rungs_of scene.now.film }
    requires few { length starts.now ≤ 16 }
    requires chains { length first.now ≡ length starts.now }
    requires inside { starts_verdict (length starts.now) starts.now (chains_by_rung first.now) ≡ Yes }
    ensures { verdict_by result ≡
        starts_held scene.now (length starts.now) starts.now (chains_by_rung first.now) }
{
    for (rung, start) in starts.iter().enumerate() {
        let named = label_of(&first[rung], *start as usize);
        let own = start_on(scene, rung as u8);
        test(3, 0, rung as u8, *start, dominates(named, own))?;
    }
    Ok(())
}

/// V4 of the label at a place of a chain: for each next rung the named label dominates the successor.
fn name_verdict(
    scene: &Scene<'_>,
    segment: u16,
    rung: u8,
    chain: &Chain,
    next: &[Chain],
    place: usize,
) -> Outcome
    requires can { CanName scene.now segment rung (chain_parts chain.now) next.now }
    requires place { place < length chain.now.labels.items }
    requires range { range_verdict (length next.now) segment rung (chain_parts chain.now)
        (chains_by_rung next.now) place ≡ Yes }
    ensures { verdict_by result ≡ name_verdict scene.now (length next.now) segment rung
        (chain_parts chain.now) (chains_by_rung next.now) place }
{
    let label = RungLabel::new(&*scene, segment, rung, label_of(chain, place));
    let request = label.request();
    for (next_rung, next_chain) in next.iter().enumerate() {
        let name = name_of(next.len(), chain, place, next_rung);
        let named = label_of(next_chain, name);
        let done = label.done(request, next_rung as u8);
        let successor = label.next_done(next_rung as u8, done);
        test(4, segment, rung, place as u32, dominates(named, successor))?;
    }
    Ok(())
}

/// V4 of the labels of a chain.
fn names_of_chain(
    scene: &Scene<'_>,
    segment: u16,
    rung: u8,
    chain: &Chain,
    next: &[Chain],
) -> Outcome
    requires can { CanName scene.now segment rung (chain_parts chain.now) next.now }
    requires ranges { first_no (range_verdict (length next.now) segment rung
        (chain_parts chain.now) (chains_by_rung next.now)) (length chain.now.labels.items) ≡ Yes }
    ensures { verdict_by result ≡ first_no (name_verdict scene.now (length next.now) segment rung
        (chain_parts chain.now) (chains_by_rung next.now)) (length chain.now.labels.items) }
{
    for place in 0..count_of(chain) {
        name_verdict(scene, segment, rung, chain, next, place)?;
    }
    Ok(())
}

/// V4 of the labels of a segment.
fn names_verdict(scene: &Scene<'_>, segment: u16, here: &[Chain], next: &[Chain]) -> Outcome
    requires fits { AreBoth scene.now segment here.now next.now }
    requires few { length next.now ≤ 16 }
    requires form { IsLayer (length next.now) here.now }
    requires ranges { ranges_verdict (length next.now) (length here.now) segment
        (chains_by_rung here.now) (chains_by_rung next.now) ≡ Yes }
    ensures { verdict_by result ≡ names_verdict scene.now (length next.now) (length here.now) segment
        (chains_by_rung here.now) (chains_by_rung next.now) }
{
    for (rung, chain) in here.iter().enumerate() {
        names_of_chain(scene, segment, rung as u8, chain, next)?;
    }
    Ok(())
}

/// V5 of the labels of a chain of the last segment.
fn ends_of_chain(scene: &Scene<'_>, bound: i128, segment: u16, rung: u8, chain: &Chain) -> Outcome
    requires count { length chain.now.labels.items ≤ 1000000 }
    requires ranges { first_no (range_verdict 0 segment rung (chain_parts chain.now)
        (chains_by_rung [])) (length chain.now.labels.items) ≡ Yes }
    ensures { verdict_by result ≡ first_no (end_verdict scene.now bound segment rung
        (chain_parts chain.now)) (length chain.now.labels.items) }
{
    for place in 0..count_of(chain) {
        let ends = end_value(scene.setup(), label_of(chain, place));
        test(5, segment, rung, place as u32, ends <= bound)?;
    }
    Ok(())
}

/// V5: no label of the last segment has an end value above the bound.
fn ends_verdict(scene: &Scene<'_>, bound: i128, segment: u16, last: &[Chain]) -> Outcome
    requires form { IsLayer 0 last.now }
    requires ranges { ranges_verdict 0 (length last.now) segment (chains_by_rung last.now)
        (chains_by_rung []) ≡ Yes }
    ensures { verdict_by result ≡
        ends_verdict scene.now bound (length last.now) segment (chains_by_rung last.now) }
{
    for (rung, chain) in last.iter().enumerate() {
        ends_of_chain(scene, bound, segment, rung as u8, chain)?;
    }
    Ok(())
}

/// V6: the plan has the score.
fn score_verdict(scene: &Scene<'_>, plan: &[u8], score: i128) -> Outcome
    requires { AreRungs scene.now (segments_of scene.now.film) plan.now }
    ensures { verdict_by result ≡ score_verdict scene.now plan.now score }
{
    test(6, 0, 0, 0, value_of_list(scene, plan) == score)
}

/// What the first layer gives, after this verdict on the lines before it.
pub(crate) fn found_first(
    scene: &Scene<'_>,
    head: Verdict,
    starts: &[u32],
    first: &[Chain],
) -> Found
    requires rungs { length starts.now ≤ 16 }
    requires chains { length first.now ≡ length starts.now }
    requires fits { head ≡ Yes → length starts.now ≡ rungs_of scene.now.film }
    ensures ranges { result.ranges ≡
        both head (starts_verdict (length starts.now) starts.now (chains_by_rung first.now)) }
    ensures claims { result.ranges ≡ Yes → result.claims ≡
        starts_held scene.now (length starts.now) starts.now (chains_by_rung first.now) }
{
    let ranges = both(head, verdict_by(starts_verdict(starts, first)));
    let claims = match ranges {
        Verdict::Yes => verdict_by(starts_held(scene, starts, first)),
        no => no,
    };
    Found { ranges, claims }
}

/// What the layers so far give with one more, `next`, which tells of the names of the layer before it.
pub(crate) fn found_more(
    scene: &Scene<'_>,
    found: Found,
    segment: u16,
    here: &[Chain],
    next: &[Chain],
) -> Found
    requires form { IsLayer (length next.now) here.now }
    requires next { length next.now ≤ 16 }
    requires fits { found.ranges ≡ Yes → AreBoth scene.now segment here.now next.now }
    ensures ranges { result.ranges ≡ both found.ranges (ranges_verdict (length next.now)
        (length here.now) segment (chains_by_rung here.now) (chains_by_rung next.now)) }
    ensures claims { result.ranges ≡ Yes → result.claims ≡ both found.claims
        (names_verdict scene.now (length next.now) (length here.now) segment (chains_by_rung here.now)
        (chains_by_rung next.now)) }
{
    let ranges = both(
        found.ranges,
        verdict_by(ranges_verdict(segment, here, next)),
    );
    let claims = match ranges {
        Verdict::Yes => both(
            found.claims,
            verdict_by(names_verdict(scene, segment, here, next)),
        ),
        no => no,
    };
    Found { ranges, claims }
}

/// The verdict, when all layers came.
pub(crate) fn final_verdict(
    scene: &Scene<'_>,
    found: Found,
    segment: u16,
    last: &[Chain],
    plan: &[u8],
    score: i128,
    bound: i128,
) -> Verdict
    requires form { IsLayer 0 last.now }
    requires fits { found.ranges ≡ Yes → MayEnd scene.now segment last.now plan.now }
    ensures { result ≡ both (both found.ranges (ranges_verdict 0 (length last.now) segment
        (chains_by_rung last.now) (chains_by_rung []))) (both found.claims
        (both (ends_verdict scene.now bound (length last.now) segment (chains_by_rung last.now))
        (score_verdict scene.now plan.now score))) }
{
    let ranges = both(found.ranges, verdict_by(ranges_verdict(segment, last, &[])));
    match ranges {
        Verdict::Yes => {
            let ends = verdict_by(ends_verdict(scene, bound, segment, last));
            let own = verdict_by(score_verdict(scene, plan, score));
            both(found.claims, both(ends, own))
        }
        no => no,
    }
}
