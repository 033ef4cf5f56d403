//! The score of the session that plays a rung list, and the end value of the labels along it.

ghost use Rattle.std.specs.Prelude.{◌≡◌, IfOk};
ghost use Rattle.lab_model.specs.Cycle.{IsTrace};
ghost use Rattle.lab_model.specs.Film.{film};
ghost use Rattle.lab_model.specs.Number.{IsNear};
ghost use Rattle.labels.specs.Near.{CanFollow};

use lab_model::{ALL_AHEAD_MS, Ahead, Label, Manifest, Period, Rule, Setup, Trace, Weights};
use labels::{RungLabel, end_value, start_on};
use network_clock::Clock;
use player_core::{Listed, Scene, play_from};
use quality_score::score;
use std::alloc::Global;
use std::process::Abort;
use std::test::Fail;

/// A rung list, what it is played on, and its value.
#[derive(Clone, Copy)]
pub struct Case {
    pub seg_ms: u32,
    /// The utilities are the first of 0, 10 and 25.
    pub bitrates: &'static [u32],
    /// Segment by segment, and in each rung by rung.
    pub sizes: &'static [u32],
    /// Milliseconds, thousandths of a kbps, and latency.
    pub periods: &'static [(u32, u64, u32)],
    pub buffer_ms: u32,
    pub ahead: u32,
    pub rungs: &'static [u8],
    pub value: i128,
}

/// No label of the cases is later, in milliseconds, or worth more, in thousandths of a point.
const FAR_MS: u64 = 1_000_000;

const LARGE: i64 = 1_000_000_000;

/// Three segments of 500 or 1000 ms on 2000 kbps.
pub const STEADY: Case = Case {
    seg_ms: 1000,
    bitrates: &[1000, 2000],
    sizes: &[
        1_000_000, 2_000_000, 1_000_000, 2_000_000, 1_000_000, 2_000_000,
    ],
    periods: &[(60_000, 2_000_000, 0)],
    buffer_ms: 10_000,
    ahead: ALL_AHEAD_MS,
    rungs: &[1, 0, 1],
    value: 6860,
};

const CASES: [Case; 6] = [
    STEADY,
    // one segment
    Case {
        seg_ms: 1,
        bitrates: &[1],
        sizes: &[1],
        periods: &[(1, 1000, 0)],
        buffer_ms: 1,
        rungs: &[0],
        value: -13,
        ..STEADY
    },
    // no segment is asked for before the one before it has been played
    Case {
        periods: &[(60_000, 500_000, 0)],
        buffer_ms: 1000,
        rungs: &[1, 1, 0],
        value: -98_070,
        ..STEADY
    },
    // each segment comes at the instant at which it is needed
    Case {
        periods: &[(60_000, 1_000_000, 0)],
        rungs: &[0, 0, 0],
        value: -13_000,
        ..STEADY
    },
    // live, at once and late
    Case {
        buffer_ms: 2000,
        ahead: 0,
        rungs: &[0, 1, 1],
        value: -5070,
        ..STEADY
    },
    // live, with latency and a period that carries nothing
    Case {
        seg_ms: 700,
        bitrates: &[300, 900, 2500],
        sizes: &[
            210_000, 650_000, 1_800_000, 200_000, 600_000, 1_700_000, 230_000, 700_000, 1_500_000,
            190_000, 610_000, 1_900_000,
        ],
        periods: &[(900, 2_500_000, 80), (400, 0, 0), (700, 900_500, 35)],
        buffer_ms: 1800,
        ahead: 1100,
        rungs: &[2, 0, 1, 2],
        value: 43_596,
    },
];

pub fn film(alloc: Global, case: &Case) -> Result<Manifest, Fail>
    ensures { IfOk result (λ f. f ≡ film case.now.seg_ms case.now.bitrates.now case.now.sizes.now) }
{
    let bitrates = case.bitrates.to_vec(alloc)?;
    let sizes = case.sizes.to_vec(alloc)?;
    Ok(Manifest::from_parts(case.seg_ms, bitrates, sizes).ok_or("not a film")?)
}

pub fn clock(alloc: Global, case: &Case) -> Result<Clock, Fail>
    ensures { IfOk result IsTrace }
{
    let mut periods = Vec::new(alloc);
    for (duration_ms, bandwidth, latency) in case.periods {
        periods.push(Period {
            duration_ms: *duration_ms,
            bandwidth: *bandwidth,
            latency: *latency,
        })?;
    }
    let trace = Trace::from_parts(periods).ok_or("not a trace")?;
    Ok(Clock::new(alloc, &trace)?)
}

fn setup(alloc: Global, case: &Case) -> Result<Setup, Fail> {
    let mut utilities = vec![in alloc; 0, 10, 25]?;
    utilities.truncate(case.bitrates.len());
    Ok(Setup {
        buffer_ms: case.buffer_ms,
        weights: Weights::from_parts(utilities, 7, 11, 13).ok_or("no weights")?,
        abandon: false,
    })
}

/// The media ahead.
fn ahead(case: &Case) -> Result<Ahead, Fail> {
    Ok(Ahead::new(case.ahead).ok_or("too much ahead")?)
}

/// The score of the session that plays the rung list.
fn session_score(rt: &impl Abort, alloc: Global, case: &Case) -> Result<i128, Fail> {
    let m = film(alloc, case)?;
    let clock = clock(alloc, case)?;
    let set = setup(alloc, case)?;
    let rule = Listed::new(case.rungs.to_vec(alloc)?);
    assert!(rt; set.fits(&m) && rule.fits(&m));
    let scene = Scene::new(&m, &clock, &set, ahead(case)?);
    let session = play_from(alloc, &scene, &[], rule)?;
    Ok(score(
        &session.played,
        session.stall_ms,
        session.startup_ms,
        &set.weights,
    ))
}

/// A label of the cases may be followed and rounded.
pub fn follows(rt: &impl Abort, label: Label)
    ensures follows { CanFollow label }
    ensures rounds { IsNear 900000000000000000 label.v }
{
    assert!(rt; label.t < FAR_MS && label.p < FAR_MS);
    assert!(rt; -LARGE < label.v && label.v < LARGE);
}

/// The end value of the labels along the rung list.
fn last_value(rt: &impl Abort, alloc: Global, case: &Case) -> Result<i128, Fail> {
    let m = film(alloc, case)?;
    let clock = clock(alloc, case)?;
    let set = setup(alloc, case)?;
    assert!(rt; set.fits(&m) && !case.rungs.is_empty());
    assert!(rt; case.rungs[0] < m.rungs());
    let scene = Scene::new(&m, &clock, &set, ahead(case)?);
    let mut label = start_on(&scene, case.rungs[0]);
    for i in 1..m.segments() {
        let segment = i as usize;
        assert!(rt; segment < case.rungs.len());
        let (before, rung) = (case.rungs[segment - 1], case.rungs[segment]);
        assert!(rt; before < m.rungs() && rung < m.rungs());
        follows(rt, label);
        label = RungLabel::new(&scene, i - 1, before, label).next(rung);
    }
    follows(rt, label);
    Ok(end_value(&set, label))
}

#[test]
fn labels_and_sessions(rt: HostRuntime) -> Result<(), Fail> {
    let alloc = rt.alloc();
    for case in &CASES {
        assert_eq!(rt; session_score(&rt, alloc, case)?, case.value);
        assert_eq!(rt; last_value(&rt, alloc, case)?, case.value);
    }
    Ok(())
}
