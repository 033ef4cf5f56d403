//! Labels of the worked examples, and the frontiers of small films over all rung prefixes.

use crate::tests::values::{Case, STEADY, clock, film, follows};
use lab_model::{Label, Manifest, Setup, Weights};
use labels::{Grid, dominates, end_value, next_label, round_label, start_label};
use network_clock::Clock;
use std::alloc::Global;
use std::process::Abort;
use std::test::Fail;

fn label(t: u64, p: u64, v: i64) -> Label {
    Label { t, p, v }
}

/// A setup for the film of three segments, with the weights of stalls and startup that are used by default.
fn setup(alloc: Global, buffer_ms: u32, switch: u32) -> Result<Setup, Fail> {
    let utilities = vec![in alloc; 0, 10]?;
    Ok(Setup {
        buffer_ms,
        weights: Weights::from_parts(utilities, switch, 100, 1).ok_or("no weights")?,
        abandon: false,
    })
}

/// The film of three segments on a link of so many thousandths of a kbps.
fn on_link(bandwidth: &'static [(u32, u64, u32)]) -> Case {
    Case {
        periods: bandwidth,
        ..STEADY
    }
}

const FAST: [(u32, u64, u32); 1] = [(60_000, 2_000_000, 0)];

const SLOW: [(u32, u64, u32); 1] = [(60_000, 500_000, 0)];

/// The labels along a list of three rungs, and the end value.
fn labels_along(
    rt: &impl Abort,
    m: &Manifest,
    clock: &Clock,
    set: &Setup,
    rungs: [u8; 3],
) -> ([Label; 3], i128) {
    assert!(rt; set.fits(m) && m.segments() == 3);
    let [a, b, c] = rungs;
    assert!(rt; a < m.rungs() && b < m.rungs() && c < m.rungs());
    let first = start_label(m, clock, set, a);
    follows(rt, first);
    let second = next_label(m, clock, set, 1, a, first, b);
    follows(rt, second);
    let third = next_label(m, clock, set, 2, b, second, c);
    follows(rt, third);
    ([first, second, third], end_value(set, third))
}

#[test]
fn steady_plan(rt: HostRuntime) -> Result<(), Fail> {
    let alloc = rt.alloc();
    let case = on_link(&FAST);
    let (m, clock) = (film(alloc, &case)?, clock(alloc, &case)?);
    let (labels, value) = labels_along(&rt, &m, &clock, &setup(alloc, 10_000, 0)?, [1, 1, 1]);
    assert_eq!(rt; labels[0], label(1000, 1000, 109_000));
    assert_eq!(rt; labels[1], label(2000, 1000, 119_000));
    assert_eq!(rt; labels[2], label(3000, 1000, 129_000));
    assert_eq!(rt; value, 29_000);
    // a full buffer puts the last request off, and a switch costs
    let (labels, value) = labels_along(&rt, &m, &clock, &setup(alloc, 2000, 7)?, [1, 0, 1]);
    assert_eq!(rt; labels[1], label(1500, 1000, 108_930));
    assert_eq!(rt; labels[2], label(3000, 1000, 118_860));
    assert_eq!(rt; value, 18_860);
    Ok(())
}

#[test]
fn late_start_wins(rt: HostRuntime) -> Result<(), Fail> {
    let alloc = rt.alloc();
    let case = on_link(&SLOW);
    let (m, clock, set) = (
        film(alloc, &case)?,
        clock(alloc, &case)?,
        setup(alloc, 10_000, 0)?,
    );
    let (early, _) = labels_along(&rt, &m, &clock, &set, [0, 1, 0]);
    let (late, _) = labels_along(&rt, &m, &clock, &set, [1, 0, 0]);
    assert_eq!(rt; early[2], label(8000, 6000, 208_000));
    assert_eq!(rt; late[2], label(8000, 6000, 406_000));
    assert!(rt; dominates(late[2], early[2]) && !dominates(early[2], late[2]));
    // neither start label dominates the other
    assert!(rt; !dominates(late[0], early[0]) && !dominates(early[0], late[0]));
    Ok(())
}

#[test]
fn labels_on_grids(rt: HostRuntime) -> Result<(), Fail> {
    #[rattlefmt::skip]
    let rows = [
        (
            4000,
            1,
            label(8500, 6000, 208_000),
            label(8000, 4000, 208_000),
        ),
        (1, 1, label(7, 3, -5), label(7, 3, -5)),
        (10, 100, label(19, 10, -250), label(10, 10, -200)),
        (10, 100, label(20, 9, 201), label(20, 0, 300)),
        (
            1000,
            1_000_000,
            label(999, 1000, -999_999),
            label(0, 1000, 0),
        ),
    ];
    for (time, value, exact, rounded) in rows {
        let grid = Grid::new(time, value).ok_or("not a grid")?;
        follows(&rt, exact);
        assert_eq!(rt; round_label(grid, exact), rounded);
    }
    Ok(())
}

/// The label that a rung prefix leads to, on its last rung.
#[derive(Clone, Copy)]
struct Reached {
    rung: u8,
    label: Label,
}

/// The labels of all rung prefixes that end at a segment, from those that end at the one before.
fn reached_next(
    rt: &impl Abort,
    alloc: Global,
    m: &Manifest,
    clock: &Clock,
    set: &Setup,
    segment: u16,
    before: &[Reached],
) -> Result<Vec<Reached>, Fail> {
    let mut after = Vec::new(alloc);
    for from in before {
        for rung in 0..m.rungs() {
            assert!(rt;
                set.fits(m) && 1 <= segment && segment < m.segments() && from.rung < m.rungs()
            );
            follows(rt, from.label);
            let label = next_label(m, clock, set, segment, from.rung, from.label, rung);
            after.push(Reached { rung, label })?;
        }
    }
    Ok(after)
}

/// How many distinct ones no different one of their rung dominates.
fn frontier_size(all: &[Reached]) -> u32 {
    let mut size = 0u32;
    for (i, a) in all.iter().enumerate() {
        let beaten = all.iter().enumerate().any(|(j, b)| {
            a.rung == b.rung
                && if a.label == b.label {
                    j < i
                } else {
                    dominates(b.label, a.label)
                }
        });
        if !beaten {
            size = size.saturating_add(1);
        }
    }
    size
}

/// The size of all frontiers and the greatest end value, over all rung prefixes.
fn plain_plan(
    rt: &impl Abort,
    alloc: Global,
    m: &Manifest,
    clock: &Clock,
    set: &Setup,
) -> Result<(u32, Option<i128>), Fail> {
    let mut all = Vec::new(alloc);
    for rung in 0..m.rungs() {
        assert!(rt; set.fits(m));
        let label = start_label(m, clock, set, rung);
        all.push(Reached { rung, label })?;
    }
    let mut size = frontier_size(&all);
    for segment in 1..m.segments() {
        all = reached_next(rt, alloc, m, clock, set, segment, &all)?;
        size = size.saturating_add(frontier_size(&all));
    }
    let mut best = None;
    for last in &all {
        follows(rt, last.label);
        best = best.max(Some(end_value(set, last.label)));
    }
    Ok((size, best))
}

#[test]
fn plans_over_all_prefixes(rt: HostRuntime) -> Result<(), Fail> {
    let alloc = rt.alloc();
    #[rattlefmt::skip]
    let rows = [
        (on_link(&FAST), 10_000, 0, 14, 29_000),
        (on_link(&FAST), 2000, 7, 10, 29_000),
        (on_link(&SLOW), 10_000, 0, 12, -194_000),
        (on_link(&SLOW), 2000, 7, 12, -194_070),
    ];
    for (case, buffer_ms, switch, size, best) in rows {
        let (m, clock) = (film(alloc, &case)?, clock(alloc, &case)?);
        let set = setup(alloc, buffer_ms, switch)?;
        assert_eq!(rt;
            plain_plan(&rt, alloc, &m, &clock, &set)?,
            (size, Some(best))
        );
    }
    Ok(())
}
