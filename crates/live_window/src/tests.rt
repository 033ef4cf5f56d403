//! Worked examples of live sessions, their plans and certificates, with answers from outside.

ghost use Rattle.std.specs.Prelude.{◌≡◌, false, IfOk};

use crate::{PlanErr, Verdict, check_live, live_next, live_start, plan_live, play_live};
use certificate_text::read_certificate;
use lab_model::{Label, Manifest, Period, Rule, Setup, Trace, Weights};
use network_clock::Clock;
use player_core::Fixed;
use quality_score::score;
use std::alloc::Global;
use std::process::Abort;
use std::test::Fail;

/// A film on a network, with a setup.
#[derive(Clone, Copy)]
struct Case {
    seg_ms: u32,
    bitrates: &'static [u32],
    /// Segment by segment, and in each rung by rung.
    sizes: &'static [u32],
    /// Milliseconds, thousandths of a kbps, and latency.
    periods: &'static [(u32, u64, u32)],
    buffer_ms: u32,
    utilities: &'static [u32],
    switch: u32,
    stall: u32,
    startup: u32,
}

/// Three segments of a second on two rungs, on 2000 kbps.
const STEADY: Case = Case {
    seg_ms: 1000,
    bitrates: &[1000, 2000],
    sizes: &[
        1_000_000, 2_000_000, 1_000_000, 2_000_000, 1_000_000, 2_000_000,
    ],
    periods: &[(60_000, 2_000_000, 0)],
    buffer_ms: 10_000,
    utilities: &[0, 10],
    switch: 0,
    stall: 100,
    startup: 1,
};

/// With latency and a period that carries nothing.
const LATE: Case = Case {
    seg_ms: 700,
    bitrates: &[300, 900, 2500],
    sizes: &[
        210_000, 650_000, 1_800_000, 200_000, 600_000, 1_700_000, 230_000, 700_000, 1_500_000,
        190_000, 610_000, 1_900_000,
    ],
    periods: &[(900, 2_500_000, 80), (400, 0, 0), (700, 900_500, 35)],
    buffer_ms: 1800,
    utilities: &[0, 10, 25],
    switch: 7,
    stall: 11,
    startup: 13,
};

/// What sessions, plans and checks are given.
#[derive(Drop)]
struct Inputs {
    film: Manifest,
    clock: Clock,
    setup: Setup,
}

impl Inputs {
    fn of(alloc: Global, case: &Case) -> Result<Inputs, Fail>
        ensures { IfOk result (λ i. i.setup.abandon ≡ false) }
    {
        let bitrates = case.bitrates.to_vec(alloc)?;
        let sizes = case.sizes.to_vec(alloc)?;
        let film = Manifest::from_parts(case.seg_ms, bitrates, sizes).ok_or("not a film")?;
        let mut periods = Vec::new(alloc);
        for (duration_ms, bandwidth, latency) in case.periods {
            periods.push(Period {
                duration_ms: *duration_ms,
                bandwidth: *bandwidth,
                latency: *latency,
            })?;
        }
        let trace = Trace::from_parts(periods).ok_or("not a trace")?;
        let clock = Clock::new(alloc, &trace)?;
        let utilities = case.utilities.to_vec(alloc)?;
        let weights = Weights::from_parts(utilities, case.switch, case.stall, case.startup);
        let setup = Setup {
            buffer_ms: case.buffer_ms,
            weights: weights.ok_or("no weights")?,
            abandon: false,
        };
        Ok(Inputs { film, clock, setup })
    }
}

/// The media ahead, a rung with the score and the end of its session, and score, labels and rungs of the plan.
type Row = (u32, (u8, i128, u64), (i128, u32, &'static [u8]));

/// The first two are live-edge, the last is live-behind.
#[rattlefmt::skip]
const STEADY_ROWS: [Row; 5] = [
    (0, (1, 28_000, 5000), (28_000, 8, &[1, 1, 1])),
    (0, (0, -1500, 4500), (28_000, 8, &[1, 1, 1])),
    (500, (1, 28_500, 4500), (28_500, 8, &[1, 1, 1])),
    (1500, (0, -500, 3500), (29_000, 12, &[1, 1, 1])),
    (3000, (1, 29_000, 4000), (29_000, 14, &[1, 1, 1])),
];

/// In mid-segment, and with more ahead than the film is long.
#[rattlefmt::skip]
const LATE_ROWS: [Row; 5] = [
    (0, (1, 16_580, 4622), (49_577, 45, &[2, 2, 2, 2])),
    (1100, (1, 32_412, 3428), (69_701, 66, &[2, 2, 2, 2])),
    (1101, (1, 32_412, 3428), (69_701, 66, &[2, 2, 2, 2])),
    (2799, (1, 35_580, 3140), (69_701, 51, &[2, 2, 2, 2])),
    (5000, (1, 35_580, 3140), (69_701, 51, &[2, 2, 2, 2])),
];

/// Score and end of the session of a rung.
fn session_of(
    rt: &impl Abort,
    alloc: Global,
    inputs: &Inputs,
    ahead: u32,
    rung: u8,
) -> Result<(i128, u64), Fail>
    requires { inputs.now.setup.abandon ≡ false }
{
    let rule = Fixed { rung };
    assert!(rt; inputs.setup.fits(&inputs.film) && rule.fits(&inputs.film));
    assert!(rt; ahead <= 120_000_000);
    let session = play_live(
        alloc,
        &inputs.film,
        &inputs.clock,
        &inputs.setup,
        ahead,
        rule,
    )?;
    let weights = &inputs.setup.weights;
    let value = score(
        &session.played,
        session.stall_ms,
        session.startup_ms,
        weights,
    );
    Ok((value, session.end))
}

/// The sessions and plans of a case are as told.
fn assert_rows(rt: &impl Abort, alloc: Global, case: &Case, rows: &[Row]) -> Result<(), Fail> {
    let inputs = Inputs::of(alloc, case)?;
    let (film, clock, setup) = (&inputs.film, &inputs.clock, &inputs.setup);
    for (ahead, told, best) in rows {
        let (value, end) = session_of(rt, alloc, &inputs, *ahead, told.0)?;
        assert_eq!(rt; value, told.1);
        assert_eq!(rt; end, told.2);
        assert!(rt; setup.fits(film) && *ahead <= 120_000_000);
        let plan = plan_live(alloc, film, clock, setup, *ahead, 200_000).map_err(|_| "no plan")?;
        assert_eq!(rt; plan.score, best.0);
        assert_eq!(rt; plan.labels, best.1);
        assert_eq!(rt; plan.rungs.as_slice(), best.2);
    }
    Ok(())
}

#[test]
fn live_sessions_and_plans(rt: HostRuntime) -> Result<(), Fail> {
    let alloc = rt.alloc();
    assert_rows(&rt, alloc, &STEADY, &STEADY_ROWS)?;
    assert_rows(&rt, alloc, &LATE, &LATE_ROWS)
}

#[test]
fn live_budget(rt: HostRuntime) -> Result<(), Fail> {
    let alloc = rt.alloc();
    let inputs = Inputs::of(alloc, &STEADY)?;
    assert!(rt; inputs.setup.fits(&inputs.film));
    let answer = plan_live(alloc, &inputs.film, &inputs.clock, &inputs.setup, 0, 7);
    assert_eq!(rt;
        answer.map(|plan| plan.score),
        Err(PlanErr::BudgetSpent { segment: 2 })
    );
    Ok(())
}

#[test]
fn live_labels(rt: HostRuntime) -> Result<(), Fail> {
    let alloc = rt.alloc();
    let inputs = Inputs::of(alloc, &STEADY)?;
    let (film, clock, setup) = (&inputs.film, &inputs.clock, &inputs.setup);
    assert!(rt; setup.fits(film) && film.segments() == 3 && film.rungs() == 2);
    let first = live_start(film, clock, setup, 0, 1);
    assert_eq!(rt;
        first,
        Label {
            t: 2000,
            p: 2000,
            v: 208_000
        }
    );
    assert!(rt; first.t == 2000 && first.p == 2000 && first.v == 208_000);
    let second = live_next(film, clock, setup, 0, 1, 1, first, 0);
    assert_eq!(rt;
        second,
        Label {
            t: 2500,
            p: 2000,
            v: 208_000
        }
    );
    Ok(())
}

/// The certificate of the example live-edge.
const LIVE_EDGE: &str = "\
abrlab certificate 1
segments 3
rungs 2
score 28000
plan 1 1 1
start 0 0
layer 0 0 1
1500 1500 148500 0 0
layer 0 1 1
2000 2000 208000 1 0
layer 1 0 2
2500 1500 148500 0 0
2500 2000 208000 1 0
layer 1 1 1
3000 2000 218000 1 0
layer 2 0 2
3500 1500 148500
3500 2000 218000
layer 2 1 1
4000 2000 228000
end
";

#[test]
fn live_checks(rt: HostRuntime) -> Result<(), Fail> {
    let alloc = rt.alloc();
    let inputs = Inputs::of(alloc, &STEADY)?;
    let certificate = read_certificate(alloc, LIVE_EDGE.as_bytes())?;
    let late = Verdict::No {
        clause: 3,
        segment: 0,
        rung: 0,
        label: 0,
    };
    let rows = [
        (0, Verdict::Yes),
        (1, late),
        (3000, late),
        (120_000_000, late),
    ];
    for (ahead, verdict) in rows {
        assert!(rt; inputs.setup.fits(&inputs.film) && ahead <= 120_000_000);
        let (film, clock, setup) = (&inputs.film, &inputs.clock, &inputs.setup);
        assert_eq!(rt;
            check_live(film, clock, setup, ahead, &certificate),
            verdict
        );
    }
    Ok(())
}
