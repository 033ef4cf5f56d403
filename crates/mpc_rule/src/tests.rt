//! The worked example, and a table of choices against a plain search.

use crate::{MpcErr, RobustMpc};
use lab_model::{Context, Manifest, Rule, Sample, Setup, Weights};
use std::alloc::Global;
use std::process::Abort;
use std::test::Fail;

/// The rule of this horizon after samples in kbps.
fn told(rt: &impl Abort, alloc: Global, horizon: u8, kbps: &[u32]) -> Result<RobustMpc, Fail> {
    let mut rule = RobustMpc::new(alloc, horizon)?;
    for bits in kbps {
        assert!(rt; *bits <= 10_000_000);
        rule.observe(Sample::of(*bits, 1));
    }
    Ok(rule)
}

/// What sessions are played with, where startup isn't weighed.
fn setup(
    alloc: Global,
    buffer_ms: u32,
    utilities: &[u32],
    changes: [u32; 2],
) -> Result<Setup, Fail> {
    let [switch, stall] = changes;
    let utilities = utilities.to_vec(alloc)?;
    Ok(Setup {
        buffer_ms,
        weights: Weights::from_parts(utilities, switch, stall, 0).ok_or("no weights")?,
        abandon: false,
    })
}

#[test]
fn mpc_by_hand(rt: HostRuntime) -> Result<(), Fail> {
    let alloc = rt.alloc();
    let m = Manifest::from_parts(
        1000,
        vec![in alloc; 1000, 2000]?,
        vec![in alloc;
            1_000_000, 2_000_000, 1_000_000, 2_000_000, 1_000_000, 2_000_000,
        ]?,
    )
    .ok_or("no film")?;
    let rule = told(&rt, alloc, 1, &[2000, 1000])?;
    for (utilities, level, wanted) in [([0, 10], 3000, 1), ([0, 10], 1000, 0), ([0, 0], 9000, 0)] {
        let set = setup(alloc, 10_000, &utilities, [0, 100])?;
        let context = Context {
            level,
            next: 2,
            last: Some(0),
        };
        assert!(rt;
            set.fits(&m)
                && rule.fits(&m)
                && m.seg_ms() == 1000
                && m.segments() == 3
                && level <= 9000
                && set.buffer_ms == 10_000
        );
        assert_eq!(rt; rule.choose(&m, &set, &context), wanted, "at {level}");
    }
    Ok(())
}

#[test]
fn horizons(rt: HostRuntime) -> Result<(), Fail> {
    for (horizon, fits) in [(0, false), (1, true), (5, true), (6, false), (255, false)] {
        match RobustMpc::new(rt.alloc(), horizon) {
            Ok(_rule) => assert!(rt; fits, "at {horizon}"),
            Err(refusal) => assert!(rt; !fits && refusal == MpcErr::BadHorizon, "at {horizon}"),
        }
    }
    Ok(())
}

/// The sizes of a film of five segments of a second, in each rung by rung.
const SIZES: [[u32; 3]; 5] = [
    [310_000, 900_000, 2_700_000],
    [280_000, 1_100_000, 2_400_000],
    [400_000, 1_300_000, 3_100_000],
    [250_000, 800_000, 2_000_000],
    [330_000, 1_050_000, 2_600_000],
];

/// A choice on that film, at a buffer of 8000 ms: the samples in kbps; the horizon, the level, the segment and the rung before;
/// the utilities; the weights of switches and stalls; the rate that is reckoned with, and the rung.
type Row = (
    &'static [u32],
    (u8, u32, u16, Option<u8>),
    [u32; 3],
    [u32; 2],
    (u64, u8),
);

#[rattlefmt::skip]
const ROWS: [Row; 14] = [
    (&[4000, 1500, 500, 1500, 4000, 2000], (3, 7000, 2, Some(2)), [0, 6, 10], [0, 20], (280653, 0)),
    (&[800, 3000], (3, 7000, 1, Some(1)), [0, 6, 10], [0, 20], (728885, 1)),
    (&[3000, 1200, 400, 1200, 900, 1200, 1500], (2, 7000, 0, Some(1)), [0, 6, 6], [0, 20], (196294, 0)),
    (&[4000, 1200, 400, 500, 1200, 400, 1200, 500], (3, 4000, 0, Some(0)), [0, 6, 6], [100, 100], (314293, 0)),
    (&[1500, 3000, 900, 3000, 1200, 900], (5, 4000, 0, Some(0)), [0, 6, 6], [0, 20], (604538, 0)),
    (&[400, 4000], (4, 4000, 1, Some(1)), [0, 6, 10], [0, 20], (382774, 0)),
    (&[1200, 2000], (3, 4000, 1, Some(1)), [0, 6, 10], [100, 20], (1071428, 1)),
    (&[1500], (3, 3000, 0, Some(1)), [0, 6, 10], [0, 100], (1500001, 1)),
    (&[1500, 2000], (5, 1500, 3, None), [0, 6, 10], [100, 20], (1372526, 1)),
    (&[800, 2000, 1200], (2, 4000, 3, Some(0)), [1, 30, 50], [1000, 5], (725806, 2)),
    (&[500], (5, 4000, 2, Some(0)), [1, 30, 50], [1000, 5], (500000, 1)),
    (&[400, 4000, 900, 900, 900, 1500], (5, 1500, 0, Some(2)), [0, 6, 10], [1000, 100], (619194, 1)),
    (&[800, 1200, 1200, 400, 800, 2000], (1, 4000, 4, Some(1)), [0, 0, 0], [0, 100], (328693, 0)),
    (&[1200, 1200], (4, 4000, 1, None), [0, 6, 10], [0, 20], (1200000, 2)),
];

/// The score of the list of five rungs with this place in lexicographic order, as far as the horizon goes.
fn plain_score(row: &Row, place: u32) -> i64 {
    let (_, (horizon, level, next, last), utilities, [switch, stall], (rate, _)) = *row;
    let end = (next as usize + horizon as usize).min(SIZES.len());
    let (mut level, mut before, mut unit, mut score) = (level as u64, last, 81, 0i64);
    for segment in next as usize..end {
        let rung = (place / unit.max(1) % 3) as usize;
        let wait = (1000 * SIZES[segment][rung] as u64).div_ceil(rate.max(1));
        let change = match before {
            Some(q) if q < 3 => utilities[rung].abs_diff(utilities[q as usize]),
            _ => 0,
        };
        let lost = (switch as u64 * change as u64).saturating_add(
            (stall as u64).saturating_mul(wait.saturating_sub(level)),
        );
        score = score
            .saturating_add(1000 * utilities[rung] as i64)
            .saturating_sub(i64::try_from(lost).unwrap_or(i64::MAX));
        level = level.saturating_sub(wait).saturating_add(1000).min(7000);
        before = Some(rung as u8);
        unit /= 3;
    }
    score
}

/// The first rung of the first list of the greatest score, among all lists of five rungs.
fn plain_rung(row: &Row) -> u8 {
    let (mut best, mut most) = (0, plain_score(row, 0));
    for place in 1..243 {
        let score = plain_score(row, place);
        if score > most {
            (best, most) = (place, score);
        }
    }
    (best / 81 % 3) as u8
}

#[test]
fn choices(rt: HostRuntime) -> Result<(), Fail> {
    let alloc = rt.alloc();
    let mut sizes = Vec::new(alloc);
    for row in &SIZES {
        sizes.extend_from_slice(row)?;
    }
    let m = Manifest::from_parts(1000, vec![in alloc; 300, 1000, 2500]?, sizes).ok_or("no film")?;
    assert!(rt; m.seg_ms() == 1000 && m.segments() == 5 && m.rungs() == 3);
    for row in &ROWS {
        let (kbps, (horizon, level, next, last), utilities, changes, (rate, rung)) = *row;
        let rule = told(&rt, alloc, horizon, kbps)?;
        let set = setup(alloc, 8000, &utilities, changes)?;
        let context = Context { level, next, last };
        if let Some(before) = last {
            assert!(rt; before < m.rungs());
        }
        assert!(rt; !rule.rates.is_empty());
        assert_eq!(rt; rule.rate_ahead(), rate, "after {kbps:?}");
        assert!(rt; set.fits(&m) && rule.fits(&m));
        assert!(rt; level <= 7000 && set.buffer_ms == 8000 && m.seg_ms() == 1000);
        assert!(rt; next < m.segments());
        assert_eq!(rt; rule.choose(&m, &set, &context), rung, "after {kbps:?}");
        assert_eq!(rt; plain_rung(row), rung, "after {kbps:?}");
    }
    Ok(())
}
