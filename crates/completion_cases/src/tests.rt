//! Tables of small scenes: the completion bounds of labels, and the bound of all lists, which another program reckoned.

ghost use Rattle.std.specs.Prelude.{◌≡◌};

use completion_bounds::{Table, TableGrid};
use lab_model::{Ahead, Label, Manifest, Period, Setup, Trace, Weights};
use network_clock::Clock;
use player_core::Scene;
use std::alloc::Global;
use std::process::Abort;
use std::test::Fail;

/// A scene, a grid, and what its table says.
#[derive(Clone, Copy)]
struct Case {
    seg_ms: u32,
    rungs: u8,
    /// Segment by segment, and in each rung by rung.
    sizes: &'static [u32],
    /// Milliseconds, thousandths of a kbps, and latency.
    periods: &'static [(u32, u64, u32)],
    buffer_ms: u32,
    utilities: &'static [u32],
    /// The rows of the table of utilities, or 0 where one serves all segments.
    segments: u32,
    /// The weights of switches, stalls and startup.
    weights: (u32, u32, u32),
    ahead: u32,
    step: u32,
    columns: u32,
    rows: &'static [u32],
    bound: i128,
    /// Segment, rung, time and delay of labels, and their completion bounds.
    gains: &'static [(u16, u8, u64, u64, i64)],
}

#[rattlefmt::skip]
const CASES: [Case; 12] = [
    // two segments, whose gains can be reckoned by hand
    Case {
        seg_ms: 1000,
        rungs: 2,
        sizes: &[1000000, 2000000, 1000000, 2000000],
        periods: &[(60000, 2000000, 0)],
        buffer_ms: 2000,
        utilities: &[0, 10],
        segments: 0,
        weights: (0, 100, 1),
        ahead: 120000000,
        step: 100,
        columns: 30,
        rows: &[0, 5, 10, 20, 40],
        bound: 19000,
        gains: &[(0, 0, 500, 500, -40000), (0, 1, 1000, 1000, -90000), (0, 0, 2500, 500, -190000), (0, 1, 1000, 450, -50000), (1, 0, 1500, 700, -50000), (1, 1, 9000, 99999, -400000), (0, 0, 3000, 0, -190000)],
    },
    // at steps of 1 ms with a row for each delay the bound is the best value
    Case {
        seg_ms: 5,
        rungs: 3,
        sizes: &[13, 42, 127, 5, 49, 91, 6, 30, 74, 16, 50, 91],
        periods: &[(7, 4000, 3), (3, 0, 0), (9, 9500, 1), (4, 12000, 2)],
        buffer_ms: 9,
        utilities: &[0, 3, 8],
        segments: 0,
        weights: (0, 2, 1),
        ahead: 120000000,
        step: 1,
        columns: 40,
        rows: &[0, 1, 2, 3, 4, 5, 6, 7, 8, 9, 10, 11, 12, 13, 14, 15, 16, 17, 18, 19, 20, 21, 22, 23, 24, 25, 26, 27, 28, 29, 30, 31, 32, 33, 34, 35, 36, 37, 38, 39, 40, 41, 42, 43, 44, 45, 46, 47, 48, 49, 50, 51, 52, 53, 54, 55, 56, 57, 58, 59],
        bound: 31910,
        gains: &[(0, 0, 12, 12, 23914), (1, 2, 30, 20, 15908), (2, 1, 40, 25, 7916), (3, 0, 50, 31, -62)],
    },
    // the same with switches, live, and with a table
    Case {
        seg_ms: 5,
        rungs: 3,
        sizes: &[13, 42, 127, 5, 49, 91, 6, 30, 74, 16, 50, 91],
        periods: &[(7, 4000, 3), (3, 0, 0), (9, 9500, 1), (4, 12000, 2)],
        buffer_ms: 9,
        utilities: &[0, 3, 8, 1, 1, 2, 0, 7, 7, 2, 4, 9],
        segments: 4,
        weights: (400, 300, 7),
        ahead: 6,
        step: 1,
        columns: 40,
        rows: &[0, 1, 2, 3, 4, 5, 6, 7, 8, 9, 10, 11, 12, 13, 14, 15, 16, 17, 18, 19, 20, 21, 22, 23, 24, 25, 26, 27, 28, 29, 30, 31, 32, 33, 34, 35, 36, 37, 38, 39, 40, 41, 42, 43, 44, 45, 46, 47, 48, 49, 50, 51, 52, 53, 54, 55, 56, 57, 58, 59],
        bound: 16046,
        gains: &[(0, 0, 12, 12, 6300), (0, 1, 12, 12, 6300), (0, 2, 12, 12, 6700), (1, 2, 30, 20, 3500), (2, 1, 40, 25, -5300), (2, 0, 40, 25, -6100), (3, 0, 50, 31, -9300)],
    },
    // a column cut at the greatest one
    Case {
        seg_ms: 1000,
        rungs: 2,
        sizes: &[1000000, 2000000, 1000000, 2000000, 1000000, 2000000],
        periods: &[(60000, 700000, 20)],
        buffer_ms: 3000,
        utilities: &[0, 10],
        segments: 0,
        weights: (3, 100, 1),
        ahead: 120000000,
        step: 50,
        columns: 4,
        rows: &[0, 10, 20, 60],
        bound: 214922,
        gains: &[(0, 0, 1500, 1500, -80030), (0, 1, 9000, 1500, -80000), (0, 0, 9000, 1500, -80030), (1, 0, 9000, 1500, -90030), (1, 1, 30000, 1500, -90000), (0, 1, 2999, 2999, -80000)],
    },
    // delays past the last row
    Case {
        seg_ms: 1000,
        rungs: 2,
        sizes: &[1000000, 2000000, 1000000, 2000000, 1000000, 2000000],
        periods: &[(60000, 700000, 20)],
        buffer_ms: 3000,
        utilities: &[0, 10],
        segments: 0,
        weights: (3, 100, 1),
        ahead: 120000000,
        step: 50,
        columns: 40,
        rows: &[0, 10, 20, 30],
        bound: 164922,
        gains: &[(0, 0, 1500, 1500, -130030), (0, 1, 9000, 9000, -130000), (1, 0, 80000, 70000, -140030), (2, 1, 5000, 5000, -150000), (0, 1, 1550, 1499, -130000)],
    },
    // a buffer of 10000000 ms that isn't tight
    Case {
        seg_ms: 1000,
        rungs: 2,
        sizes: &[1000000, 2000000, 1000000, 2000000, 1000000, 2000000],
        periods: &[(60000, 700000, 20)],
        buffer_ms: 10000000,
        utilities: &[0, 10],
        segments: 0,
        weights: (0, 100, 1),
        ahead: 120000000,
        step: 50,
        columns: 40,
        rows: &[0, 10, 20, 30],
        bound: 164922,
        gains: &[(0, 0, 1500, 1500, -130000), (0, 1, 3000, 3000, -130000), (1, 0, 4000, 1500, -140000)],
    },
    // the same, tight
    Case {
        seg_ms: 1000,
        rungs: 2,
        sizes: &[1000000, 2000000, 1000000, 2000000, 1000000, 2000000],
        periods: &[(60000, 700000, 20)],
        buffer_ms: 3000,
        utilities: &[0, 10],
        segments: 0,
        weights: (0, 100, 1),
        ahead: 120000000,
        step: 50,
        columns: 40,
        rows: &[0, 10, 20, 30],
        bound: 164922,
        gains: &[(0, 0, 1500, 1500, -130000), (0, 1, 3000, 3000, -130000), (1, 0, 4000, 1500, -140000)],
    },
    // a buffer of one segment
    Case {
        seg_ms: 1000,
        rungs: 2,
        sizes: &[1000000, 2000000, 1000000, 2000000, 1000000, 2000000],
        periods: &[(900, 1700000, 20), (500, 0, 0), (800, 2500000, 5)],
        buffer_ms: 1000,
        utilities: &[0, 10],
        segments: 0,
        weights: (2, 100, 1),
        ahead: 120000000,
        step: 30,
        columns: 60,
        rows: &[0, 20, 40, 80, 100],
        bound: -49729,
        gains: &[(0, 0, 700, 700, -110040), (0, 1, 1300, 1300, -120020), (1, 1, 2400, 1900, -120020), (1, 0, 5000, 1000, -290020)],
    },
    // stalls that can't be avoided
    Case {
        seg_ms: 1000,
        rungs: 2,
        sizes: &[1000000, 2000000, 1000000, 2000000, 1000000, 2000000],
        periods: &[(60000, 300000, 0)],
        buffer_ms: 2000,
        utilities: &[0, 10],
        segments: 0,
        weights: (0, 100, 1),
        ahead: 120000000,
        step: 200,
        columns: 60,
        rows: &[0, 10, 20, 30, 50, 100],
        bound: -269934,
        gains: &[(0, 0, 3334, 3334, -600000), (1, 0, 6667, 4667, -600000), (0, 1, 6667, 6667, -980000), (2, 0, 10000, 7000, -600000)],
    },
    // live
    Case {
        seg_ms: 1000,
        rungs: 2,
        sizes: &[1000000, 2000000, 1000000, 2000000, 1000000, 2000000],
        periods: &[(900, 1700000, 20), (500, 0, 0), (800, 2500000, 5)],
        buffer_ms: 2000,
        utilities: &[0, 10],
        segments: 0,
        weights: (0, 100, 1),
        ahead: 300,
        step: 40,
        columns: 60,
        rows: &[0, 20, 40, 80, 100],
        bound: 75722,
        gains: &[(0, 0, 1500, 1500, -140000), (0, 1, 2100, 2100, -140000), (1, 1, 2400, 1900, -150000), (1, 0, 2701, 1700, -150000)],
    },
    // a switch weight and a table of utilities
    Case {
        seg_ms: 700,
        rungs: 3,
        sizes: &[210000, 650000, 1800000, 200000, 600000, 1700000, 230000, 700000, 1500000, 190000, 610000, 1900000],
        periods: &[(900, 2500000, 80), (400, 0, 0), (700, 900500, 35)],
        buffer_ms: 1800,
        utilities: &[0, 10, 25, 5, 5, 30, 0, 20, 20, 1, 2, 60],
        segments: 4,
        weights: (250, 40, 3),
        ahead: 120000000,
        step: 17,
        columns: 90,
        rows: &[0, 11, 30, 70, 150],
        bound: 102500,
        gains: &[(0, 0, 400, 400, 58020), (0, 1, 800, 500, 41650), (0, 2, 1500, 1500, 47900), (1, 2, 1700, 900, 32400), (2, 0, 3000, 1200, -2350), (2, 2, 3000, 1200, 12400)],
    },
    // one segment
    Case {
        seg_ms: 1,
        rungs: 1,
        sizes: &[1],
        periods: &[(1, 1000, 0)],
        buffer_ms: 1,
        utilities: &[0],
        segments: 0,
        weights: (0, 100, 1),
        ahead: 120000000,
        step: 10000,
        columns: 1,
        rows: &[0, 1],
        bound: 99,
        gains: &[(0, 0, 1, 1, 0), (0, 0, 20000, 19999, -1000000)],
    },
];

fn film(alloc: Global, case: &Case) -> Result<Manifest, Fail> {
    let mut bitrates = Vec::new(alloc);
    for rung in 0..case.rungs {
        bitrates.push(rung as u32 + 1)?;
    }
    let sizes = case.sizes.to_vec(alloc)?;
    Ok(Manifest::from_parts(case.seg_ms, bitrates, sizes).ok_or("not a film")?)
}

fn clock(alloc: Global, case: &Case) -> Result<Clock, Fail> {
    let mut periods = Vec::new(alloc);
    for (duration_ms, bandwidth, latency) in case.periods {
        periods.push(Period {
            duration_ms: *duration_ms,
            bandwidth: *bandwidth,
            latency: *latency,
        })?;
    }
    let trace = Trace::from_parts(periods).ok_or("not a trace")?;
    Ok(Clock::new(alloc, &trace)?)
}

fn setup(alloc: Global, case: &Case) -> Result<Setup, Fail> {
    let utilities = case.utilities.to_vec(alloc)?;
    let (switch, stall, startup) = case.weights;
    let weights = if case.segments == 0 {
        Weights::from_parts(utilities, switch, stall, startup)
    } else {
        Weights::from_table(utilities, case.rungs, switch, stall, startup)
    };
    Ok(Setup {
        buffer_ms: case.buffer_ms,
        weights: weights.ok_or("not weights")?,
        abandon: false,
    })
}

/// No label of the cases is later, in milliseconds.
const FAR_MS: u64 = 1_000_000_000;

/// The table says this of a label, and a label is hopeless from its value and its bound on.
fn says(
    rt: &impl Abort,
    table: &Table<'_>,
    film: &Manifest,
    row: (u16, u8, u64, u64, i64),
) -> Result<(), Fail>
    requires { table.now.scene.film ≡ film.now }
{
    let (segment, rung, t, p, gain) = row;
    assert!(rt; segment < film.segments() && rung < film.rungs());
    assert!(rt; t < FAR_MS && p < FAR_MS);
    let label = Label { t, p, v: 0 };
    assert_eq!(rt;
        table.gain(segment, rung, label),
        gain,
        "segment {segment}, {t} {p}"
    );
    assert!(rt; table.is_hopeless(segment, rung, label, gain as i128));
    assert!(rt; !table.is_hopeless(segment, rung, label, gain as i128 - 1));
    Ok(())
}

/// The table of a case says what it should.
fn table_says(rt: &impl Abort, alloc: Global, case: &Case) -> Result<(), Fail> {
    let (film, clock, setup) = (film(alloc, case)?, clock(alloc, case)?, setup(alloc, case)?);
    assert!(rt; setup.fits(&film));
    let ahead = Ahead::new(case.ahead).ok_or("too much ahead")?;
    let scene = Scene::new(&film, &clock, &setup, ahead);
    let rows = case.rows.to_vec(alloc)?;
    let grid = TableGrid::new(case.step, case.columns, rows).ok_or("not a grid")?;
    assert!(rt; grid.fits(&scene));
    let table = Table::new(alloc, &scene, grid)?;
    assert_eq!(rt; table.bound(), case.bound);
    for row in case.gains {
        says(rt, &table, &film, *row)?;
    }
    Ok(())
}

#[test]
fn tables_say(rt: HostRuntime) -> Result<(), Fail> {
    let alloc = rt.alloc();
    for case in CASES {
        table_says(&rt, alloc, &case)?;
    }
    Ok(())
}

#[test]
fn grids_within_limits(rt: HostRuntime) -> Result<(), Fail> {
    let alloc = rt.alloc();
    let grids: [(u32, u32, &'static [u32], bool); 11] = [
        (1, 1, &[0], true),
        (10_000, 4_000_000_000, &[0, 1, 100_000_000], true),
        (10_000, 1, &[0, 100_000_001], false),
        (0, 1, &[0], false),
        (10_001, 1, &[0], false),
        (1, 0, &[0], false),
        (1, 1, &[], false),
        (1, 1, &[1], false),
        (1, 1, &[0, 0], false),
        (1, 1, &[0, 3, 2], false),
        (1, 1, &[0, 3, 3], false),
    ];
    for (step, columns, rows, good) in grids {
        let grid = TableGrid::new(step, columns, rows.to_vec(alloc)?);
        assert_eq!(rt; grid.is_some(), good);
    }
    Ok(())
}
