//! Worked examples of coarse plans and of their texts, with answers from outside.

ghost use Rattle.std.specs.Prelude.{IfOk};
ghost use Rattle.certificate_text.specs.Form.{IsGapCertificate};
ghost use Rattle.gap_plan.specs.Gap.{plan_gap};

use crate::{CoarsePlan, Grid, PlanErr, plan_coarse, read_gap, write_gap};
use lab_io::SureSink;
use lab_model::{Manifest, Period, Setup, Trace, Weights};
use network_clock::Clock;
use std::alloc::Global;
use std::process::Abort;
use std::test::Fail;

/// A film on a network, with a setup.
#[derive(Clone, Copy)]
struct Case {
    seg_ms: u32,
    bitrates: &'static [u32],
    /// Segment by segment, and in each rung by rung.
    sizes: &'static [u32],
    /// Milliseconds, thousandths of a kbps, and latency.
    periods: &'static [(u32, u64, u32)],
    buffer_ms: u32,
    /// One for each rung, or row by row.
    utilities: &'static [u32],
    table: bool,
    switch: u32,
    stall: u32,
    startup: u32,
}

/// Three segments of a second on two rungs, on 500 kbps.
const SLOW: Case = Case {
    seg_ms: 1000,
    bitrates: &[1000, 2000],
    sizes: &[
        1_000_000, 2_000_000, 1_000_000, 2_000_000, 1_000_000, 2_000_000,
    ],
    periods: &[(60_000, 500_000, 0)],
    buffer_ms: 10_000,
    utilities: &[0, 10],
    table: false,
    switch: 0,
    stall: 100,
    startup: 1,
};

/// With latency and a period that carries nothing.
const LATE: Case = Case {
    seg_ms: 700,
    bitrates: &[300, 900, 2500],
    sizes: &[
        210_000, 650_000, 1_800_000, 200_000, 600_000, 1_700_000, 230_000, 700_000, 1_500_000,
        190_000, 610_000, 1_900_000,
    ],
    periods: &[(900, 2_500_000, 80), (400, 0, 0), (700, 900_500, 35)],
    buffer_ms: 1800,
    utilities: &[0, 10, 25],
    table: false,
    switch: 7,
    stall: 11,
    startup: 13,
};

/// The same with utilities segment by segment, some of them equal.
const TABLE: Case = Case {
    utilities: &[0, 10, 25, 5, 5, 40, 0, 0, 0, 1, 2, 3],
    table: true,
    ..LATE
};

/// What is planned.
#[derive(Drop)]
struct Inputs {
    film: Manifest,
    clock: Clock,
    setup: Setup,
}

impl Inputs {
    fn of(alloc: Global, case: &Case) -> Result<Inputs, Fail> {
        let bitrates = case.bitrates.to_vec(alloc)?;
        let sizes = case.sizes.to_vec(alloc)?;
        let film = Manifest::from_parts(case.seg_ms, bitrates, sizes).ok_or("not a film")?;
        let mut periods = Vec::new(alloc);
        for (duration_ms, bandwidth, latency) in case.periods {
            periods.push(Period {
                duration_ms: *duration_ms,
                bandwidth: *bandwidth,
                latency: *latency,
            })?;
        }
        let trace = Trace::from_parts(periods).ok_or("not a trace")?;
        let clock = Clock::new(alloc, &trace)?;
        let setup = Setup {
            buffer_ms: case.buffer_ms,
            weights: Self::weights(alloc, case, film.rungs())?,
            abandon: false,
        };
        Ok(Inputs { film, clock, setup })
    }

    fn weights(alloc: Global, case: &Case, rungs: u8) -> Result<Weights, Fail> {
        let utilities = case.utilities.to_vec(alloc)?;
        let (switch, stall, startup) = (case.switch, case.stall, case.startup);
        let weights = if case.table {
            Weights::from_table(utilities, rungs, switch, stall, startup)
        } else {
            Weights::from_parts(utilities, switch, stall, startup)
        };
        Ok(weights.ok_or("no weights")?)
    }

    /// The coarse plan.
    fn plan(
        &self,
        rt: &impl Abort,
        alloc: Global,
        grid: Grid,
        budget: u32,
    ) -> Result<CoarsePlan, PlanErr>
        ensures { IfOk result (λ c. IsGapCertificate (plan_gap self.now.film c)) }
    {
        assert!(rt; self.setup.fits(&self.film));
        assert!(rt; 1 <= budget && budget <= 1_000_000);
        match plan_coarse(alloc, &self.film, &self.clock, &self.setup, grid, budget) {
            Ok(coarse) => Ok(coarse),
            Err(e) => Err(e),
        }
    }
}

/// Score, bound, labels and rungs.
type Told = (i128, i128, u32, &'static [u8]);

/// The steps of a grid, and what is told of the plan on it.
type Row = ((u32, u32), Told);

/// The first two are fine-grid and coarse-grid.
#[rattlefmt::skip]
const SLOW_PLANS: [Row; 3] = [
    ((1, 1), (-194_000, -194_000, 12, &[1, 0, 0])),
    ((4000, 1), (-392_000, 208_000, 12, &[0, 0, 1])),
    ((10_000, 1_000_000), (-582_000, 3_000_000, 6, &[0, 1, 1])),
];

/// On the second grid the frontiers are larger than without one.
#[rattlefmt::skip]
const LATE_PLANS: [Row; 5] = [
    ((1, 1), (69_701, 69_701, 51, &[2, 2, 2, 2])),
    ((7, 13), (69_701, 69_869, 53, &[2, 2, 2, 2])),
    ((100, 1), (69_701, 69_800, 49, &[2, 2, 2, 2])),
    ((500, 1000), (60_576, 79_500, 26, &[1, 2, 2, 2])),
    ((10_000, 1_000_000), (35_580, 4_000_000, 12, &[1, 1, 1, 1])),
];

#[rattlefmt::skip]
const TABLE_PLANS: [Row; 4] = [
    ((1, 1), (46_605, 46_605, 52, &[2, 2, 0, 1])),
    ((7, 13), (46_605, 46_692, 46, &[2, 2, 0, 1])),
    ((100, 1), (46_326, 46_700, 45, &[2, 2, 1, 1])),
    ((500, 1000), (41_130, 56_000, 23, &[2, 2, 0, 2])),
];

/// The plans of a case are as told.
fn assert_plans(rt: &impl Abort, alloc: Global, case: &Case, rows: &[Row]) -> Result<(), Fail> {
    let inputs = Inputs::of(alloc, case)?;
    for ((time, value), told) in rows {
        let grid = Grid::new(*time, *value).ok_or("not a grid")?;
        let coarse = inputs
            .plan(rt, alloc, grid, 200_000)
            .map_err(|_| "no plan")?;
        assert_eq!(rt; coarse.plan.score, told.0);
        assert_eq!(rt; coarse.bound, told.1);
        assert_eq!(rt; coarse.plan.labels, told.2);
        assert_eq!(rt; coarse.plan.rungs.as_slice(), told.3);
    }
    Ok(())
}

#[test]
fn coarse_plans(rt: HostRuntime) -> Result<(), Fail> {
    let alloc = rt.alloc();
    assert_plans(&rt, alloc, &SLOW, &SLOW_PLANS)?;
    assert_plans(&rt, alloc, &LATE, &LATE_PLANS)?;
    assert_plans(&rt, alloc, &TABLE, &TABLE_PLANS)
}

/// The grid of the example coarse-grid.
fn coarse_grid() -> Result<Grid, Fail> {
    Ok(Grid::new(4000, 1).ok_or("not a grid")?)
}

#[test]
fn coarse_budget(rt: HostRuntime) -> Result<(), Fail> {
    let alloc = rt.alloc();
    let answer = Inputs::of(alloc, &SLOW)?.plan(&rt, alloc, coarse_grid()?, 11);
    assert_eq!(rt;
        answer.map(|c| c.bound),
        Err(PlanErr::BudgetSpent { segment: 2 })
    );
    Ok(())
}

/// The gap certificate of that example.
const COARSE_GRID: &str = "\
abrlab gap 1
bound 208000
abrlab certificate 1
segments 3
rungs 2
score -392000
plan 0 0 1
start 0 0
layer 0 0 1
0 0 198000 0 0
layer 0 1 1
4000 4000 406000 1 1
layer 1 0 2
0 0 198000 0 0
4000 4000 406000 1 1
layer 1 1 2
4000 0 208000 1 1
8000 4000 416000 2 2
layer 2 0 3
0 0 198000
4000 4000 406000
8000 8000 416000
layer 2 1 3
4000 0 208000
8000 4000 416000
12000 8000 426000
end
";

#[test]
fn coarse_grid_text(rt: HostRuntime) -> Result<(), Fail> {
    let alloc = rt.alloc();
    let inputs = Inputs::of(alloc, &SLOW)?;
    let Ok(coarse) = inputs.plan(&rt, alloc, coarse_grid()?, 200_000) else {
        return Err("no plan".into());
    };
    let mut out = SureSink::new(alloc);
    write_gap(&inputs.film, &coarse, &mut out)?;
    assert_eq!(rt; out.written(), COARSE_GRID.as_bytes());
    let read = read_gap(alloc, COARSE_GRID.as_bytes())?;
    assert_eq!(rt; read.bound, 208_000);
    assert_eq!(rt; read.inner.score, -392_000);
    Ok(())
}
