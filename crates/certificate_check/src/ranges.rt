//! The tests of V1 and V2: counts, and numbers in range.

ghost use Rattle.std.specs.Prelude.{◌≡◌, ◌*◌, ◌<◌, ◌≤◌, length};
ghost use Rattle.labels.specs.Parts.{chain_parts};
ghost use Rattle.certificate_check.specs.Scheme.{both, first_no, tested, verdict_by};
ghost use Rattle.certificate_check.specs.Clauses.{count_of, is_near, label_of, chains_by_rung, name_of, name_ranges, plan_verdict, range_verdict, ranges_verdict, starts_verdict};
ghost use Rattle.certificate_check.specs.Layers.{IsLayer};

use crate::verdict::Verdict;
use lab_model::Label;
use labels::Chain;

/// The greatest time of a label, in milliseconds.
const FARTHEST_MS: u64 = 1_000_000_000_000_000;

/// Where a test fails: the number of its clause, and the place.
#[derive(Clone, Copy)]
pub(crate) struct Failure {
    pub clause: u8,
    pub segment: u16,
    pub rung: u8,
    pub label: u32,
}

/// That all tests pass, or the first that fails.
pub(crate) type Outcome = Result<(), Failure>;

/// A test of this clause and place.
pub(crate) fn test(clause: u8, segment: u16, rung: u8, label: u32, passes: bool) -> Outcome
    ensures { verdict_by result ≡ tested clause segment rung label passes }
{
    if passes {
        Ok(())
    } else {
        Err(Failure {
            clause,
            segment,
            rung,
            label,
        })
    }
}

/// The verdict that tests come to.
pub(crate) fn verdict_by(outcome: Outcome) -> Verdict
    ensures { result ≡ verdict_by outcome }
{
    match outcome {
        Ok(()) => Verdict::Yes,
        Err(
            Failure {
                clause,
                segment,
                rung,
                label,
            },
        ) => Verdict::No {
            clause,
            segment,
            rung,
            label,
        },
    }
}

/// The first verdict where it is a no, else the second.
pub(crate) fn both(first: Verdict, second: Verdict) -> Verdict
    ensures { result ≡ both first second }
{
    match first {
        Verdict::Yes => second,
        Verdict::No { .. } => first,
    }
}

/// The number of labels of a chain.
pub(crate) fn count_of(chain: &Chain) -> usize
    ensures { result ≡ count_of (chain_parts chain.now) }
{
    chain.labels.len()
}

/// The label at a place of a chain.
pub(crate) fn label_of(chain: &Chain, place: usize) -> Label
    requires { place < length chain.now.labels.items }
    ensures { result ≡ label_of (chain_parts chain.now) place }
{
    chain.labels[place]
}

/// The name, for a next rung, of the label at a place of a chain, where each label has so many names.
pub(crate) fn name_of(per: usize, chain: &Chain, place: usize, rung: usize) -> usize
    requires place { place < length chain.now.labels.items }
    requires rung { rung < per }
    requires whole { length chain.now.names.items ≡ length chain.now.labels.items * per }
    ensures { result ≡ name_of per (chain_parts chain.now) place rung }
{
    chain.names[place * per + rung] as usize
}

/// Whether the times of a label are in range.
fn is_near(label: Label) -> bool
    ensures { result ≡ is_near label }
{
    label.t <= FARTHEST_MS && label.p <= FARTHEST_MS
}

/// V2 of the plan: each rung is one of the ladder.
pub(crate) fn plan_verdict(rungs: u8, plan: &[u8]) -> Outcome
    requires { length plan.now ≤ 2000 }
    ensures { verdict_by result ≡ plan_verdict (length plan.now) rungs plan.now }
{
    for (segment, rung) in plan.iter().enumerate() {
        test(2, segment as u16, 0, 0, *rung < rungs)?;
    }
    Ok(())
}

/// V2 of the starts: each is a place of its rung's chain in segment 0.
pub(crate) fn starts_verdict(starts: &[u32], first: &[Chain]) -> Outcome
    requires rungs { length starts.now ≤ 16 }
    requires chains { length first.now ≡ length starts.now }
    ensures { verdict_by result ≡ starts_verdict (length starts.now) starts.now (chains_by_rung first.now) }
{
    for (rung, start) in starts.iter().enumerate() {
        let inside = (*start as usize) < count_of(&first[rung]);
        test(2, 0, rung as u8, 0, inside)?;
    }
    Ok(())
}

/// V2 of the names of the label at a place of a chain: each is a place of the named chain of the next segment.
fn name_ranges(segment: u16, rung: u8, chain: &Chain, next: &[Chain], place: usize) -> Outcome
    requires count { length chain.now.labels.items ≤ 1000000 }
    requires next { length next.now ≤ 16 }
    requires place { place < length chain.now.labels.items }
    requires names { length chain.now.names.items
        ≡ length chain.now.labels.items * length next.now }
    ensures { verdict_by result ≡ name_ranges (length next.now) segment rung (chain_parts chain.now)
        (chains_by_rung next.now) place }
{
    for (next_rung, next_chain) in next.iter().enumerate() {
        let inside = name_of(next.len(), chain, place, next_rung) < count_of(next_chain);
        test(2, segment, rung, place as u32, inside)?;
    }
    Ok(())
}

/// V2 of the label at a place of a chain: its times and its names.
fn range_verdict(segment: u16, rung: u8, chain: &Chain, next: &[Chain], place: usize) -> Outcome
    requires count { length chain.now.labels.items ≤ 1000000 }
    requires next { length next.now ≤ 16 }
    requires place { place < length chain.now.labels.items }
    requires names { length chain.now.names.items
        ≡ length chain.now.labels.items * length next.now }
    ensures { verdict_by result ≡ range_verdict (length next.now) segment rung (chain_parts chain.now)
        (chains_by_rung next.now) place }
{
    let near = is_near(label_of(chain, place));
    test(2, segment, rung, place as u32, near)?;
    name_ranges(segment, rung, chain, next, place)
}

/// V2 of the labels of a chain.
fn range_of_chain(segment: u16, rung: u8, chain: &Chain, next: &[Chain]) -> Outcome
    requires count { length chain.now.labels.items ≤ 1000000 }
    requires next { length next.now ≤ 16 }
    requires names { length chain.now.names.items
        ≡ length chain.now.labels.items * length next.now }
    ensures { verdict_by result ≡ first_no (range_verdict (length next.now) segment rung
        (chain_parts chain.now) (chains_by_rung next.now)) (length chain.now.labels.items) }
{
    for place in 0..count_of(chain) {
        range_verdict(segment, rung, chain, next, place)?;
    }
    Ok(())
}

/// V2 of the labels of a segment.
pub(crate) fn ranges_verdict(segment: u16, here: &[Chain], next: &[Chain]) -> Outcome
    requires form { IsLayer (length next.now) here.now }
    requires next { length next.now ≤ 16 }
    ensures { verdict_by result ≡ ranges_verdict (length next.now) (length here.now) segment
        (chains_by_rung here.now) (chains_by_rung next.now) }
{
    for (rung, chain) in here.iter().enumerate() {
        range_of_chain(segment, rung as u8, chain, next)?;
    }
    Ok(())
}
