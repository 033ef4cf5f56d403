//! Worked examples of the score, with answers from outside.

use crate::{Tally, score};
use lab_model::{Played, Weights};
use std::alloc::Global;
use std::process::Abort;
use std::test::Fail;

/// Rungs of three segments, milliseconds of stall and of startup, and the score.
type Row = ([u8; 3], u64, u64, i128);

/// Utilities 0 and 10, no weight on changes: three steady segments, three on a slow link, and the lower rung.
const STEADY: [Row; 3] = [
    ([1, 1, 1], 0, 1000, 29_000),
    ([1, 1, 1], 6000, 4000, -574_000),
    ([0, 0, 0], 0, 500, -500),
];

/// Three utilities, and a weight on each part.
const SWITCHING: [Row; 6] = [
    ([0, 2, 1], 0, 0, 425_617),
    ([2, 2, 2], 0, 0, 1_200_000),
    ([2, 0, 2], 0, 0, 795_414),
    ([0, 1, 2], 3, 0, 428_174),
    ([1, 1, 0], 0, 5, 60_732),
    (
        [2, 1, 2],
        1_000_000_000_000_000,
        1_000_000_000_000_000,
        -23_999_999_999_175_180,
    ),
];

/// The three segments score as wanted, told one by one and all at once.
fn scores(rt: &impl Abort, w: &Weights, row: Row) {
    let ([first, second, third], stall_ms, startup_ms, wanted) = row;
    assert!(rt; w.rows() == 0 && first < w.count() && second < w.count() && third < w.count());
    assert!(rt; stall_ms <= 1_000_000_000_000_000 && startup_ms <= 1_000_000_000_000_000);
    let played = [
        Played {
            segment: 0,
            rung: first,
        },
        Played {
            segment: 1,
            rung: second,
        },
        Played {
            segment: 2,
            rung: third,
        },
    ];
    assert_eq!(rt; score(&played, stall_ms, startup_ms, w), wanted);
    let mut tally = Tally::start();
    tally.push(played[0], w);
    tally.push(played[1], w);
    tally.push(played[2], w);
    assert_eq!(rt; tally.total(stall_ms, startup_ms, w), wanted);
}

/// Weights with one row of utilities.
fn weights(alloc: Global, row: &[u32], changes: [u32; 3]) -> Result<Weights, Fail> {
    let [switch, stall, startup] = changes;
    let utilities = row.to_vec(alloc)?;
    Ok(Weights::from_parts(utilities, switch, stall, startup).ok_or("no weights")?)
}

#[test]
fn steady_slow_and_switching(rt: HostRuntime) -> Result<(), Fail> {
    let steady = weights(rt.alloc(), &[0, 10], [0, 100, 1])?;
    for row in STEADY {
        scores(&rt, &steady, row);
    }
    let switching = weights(rt.alloc(), &[1, 30, 400], [7, 11, 13])?;
    for row in SWITCHING {
        scores(&rt, &switching, row);
    }
    Ok(())
}
