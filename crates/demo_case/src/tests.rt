//! Made cases against values from outside.

use crate::draws::Draws;
use crate::{DemoCase, demo_case, demo_fits_budget};
use lab_model::Period;
use std::process::Abort;
use std::test::Fail;

/// Parts of a made case: some segments with their sizes, and some periods.
struct Told {
    number: u32,
    draws: [u32; 3],
    sizes: [(u16, [u32; 4]); 4],
    periods: [(usize, u64, u32); 4],
}

const TOLD: [Told; 3] = [
    Told {
        number: 1,
        draws: [16_838, 5758, 10_113],
        sizes: [
            (0, [830_000, 1_660_000, 3_320_000, 6_640_000]),
            (1, [1_210_000, 2_420_000, 4_840_000, 9_680_000]),
            (2, [900_000, 1_800_000, 3_600_000, 7_200_000]),
            (39, [900_000, 1_800_000, 3_600_000, 7_200_000]),
        ],
        periods: [
            (0, 2_500_000, 61),
            (1, 1_400_000, 32),
            (2, 2_400_000, 79),
            (19, 1_800_000, 32),
        ],
    },
    Told {
        number: 0,
        draws: [0, 21_468, 9988],
        sizes: [
            (0, [750_000, 1_500_000, 3_000_000, 6_000_000]),
            (1, [1_230_000, 2_460_000, 4_920_000, 9_840_000]),
            (2, [1_180_000, 2_360_000, 4_720_000, 9_440_000]),
            (39, [760_000, 1_520_000, 3_040_000, 6_080_000]),
        ],
        periods: [
            (0, 1_200_000, 49),
            (1, 1_400_000, 68),
            (2, 700_000, 32),
            (19, 700_000, 65),
        ],
    },
    Told {
        number: 2_147_483_647,
        draws: [15_929, 4409, 9862],
        sizes: [
            (0, [920_000, 1_840_000, 3_680_000, 7_360_000]),
            (1, [980_000, 1_960_000, 3_920_000, 7_840_000]),
            (2, [940_000, 1_880_000, 3_760_000, 7_520_000]),
            (39, [1_130_000, 2_260_000, 4_520_000, 9_040_000]),
        ],
        periods: [
            (0, 2_800_000, 37),
            (1, 1_400_000, 61),
            (2, 2_600_000, 66),
            (19, 2_300_000, 61),
        ],
    },
];

#[test]
fn first_draws(rt: HostRuntime) -> Result<(), Fail> {
    for told in &TOLD {
        assert!(rt; told.number <= 2_147_483_647);
        let mut draws = Draws::new(told.number);
        for drawn in &told.draws {
            assert_eq!(rt; draws.next(), *drawn);
        }
    }
    Ok(())
}

/// The case has these sizes and periods.
fn has_parts(rt: &impl Abort, case: &DemoCase, told: &Told) {
    let m = &case.manifest;
    assert!(rt; m.seg_ms() == 2000 && m.segments() == 40 && m.rungs() == 4);
    for (segment, sizes) in &told.sizes {
        assert!(rt; *segment < 40);
        for (rung, size) in sizes.iter().enumerate() {
            assert_eq!(rt; m.size(*segment, rung as u8), *size);
        }
    }
    let periods = case.trace.periods();
    assert!(rt; periods.len() == 20);
    for (place, bandwidth, latency) in &told.periods {
        assert!(rt; *place < 20);
        let period = Period {
            duration_ms: 5000,
            bandwidth: *bandwidth,
            latency: *latency,
        };
        assert_eq!(rt; periods[*place], period);
    }
}

#[test]
fn parts_of_cases(rt: HostRuntime) -> Result<(), Fail> {
    for told in &TOLD {
        assert!(rt; told.number <= 2_147_483_647);
        let case = demo_case(rt.alloc(), told.number).map_err(|_| "no memory")?;
        has_parts(&rt, &case, told);
        for (rung, bitrate) in [500, 1000, 2000, 4000].iter().enumerate() {
            assert!(rt; rung < 4);
            assert_eq!(rt; case.manifest.bitrate(rung as u8), *bitrate);
        }
    }
    Ok(())
}

#[test]
fn setup_of_cases(rt: HostRuntime) -> Result<(), Fail> {
    let case = demo_case(rt.alloc(), 1).map_err(|_| "no memory")?;
    assert!(rt; case.setup.fits(&case.manifest));
    assert!(rt; case.setup.buffer_ms == 4000 && !case.setup.abandon);
    let w = &case.setup.weights;
    assert!(rt; w.rows() == 0 && w.count() == 4);
    assert!(rt; w.switch() == 0 && w.stall() == 100 && w.startup() == 1);
    for rung in 0..4 {
        assert_eq!(rt; w.utility(0, rung), rung as u32);
    }
    demo_fits_budget();
    Ok(())
}
