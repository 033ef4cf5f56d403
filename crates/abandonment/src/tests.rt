//! Worked examples of the test, with answers from outside.

use crate::{Progress, abandon_to};
use lab_model::Manifest;
use std::alloc::Global;
use std::process::Abort;
use std::test::Fail;

/// A running download and its answer: segment, rung, milliseconds since its request, those from the first one
/// spent on bits, bits received, and the rung for which it is given up.
type Row = (u16, u8, u64, u64, u32, Option<u8>);

/// Two rungs of 1000 and 2000 kbps: looked at each tenth of a second from half a second on, once bits are waited for;
/// late by a bit; and smaller by a bit.
const TWO_RUNGS: [Row; 14] = [
    (0, 1, 500, 500, 100_000, Some(0)),
    (0, 1, 400, 400, 80_000, None),
    (0, 1, 450, 450, 90_000, None),
    (0, 1, 550, 550, 110_000, None),
    (0, 1, 600, 600, 120_000, Some(0)),
    (1, 1, 500, 0, 0, None),
    (1, 1, 500, 1, 0, Some(0)),
    (0, 0, 500, 500, 100_000, None),
    (0, 1, 1000, 800, 1_000_000, None),
    (0, 1, 1000, 800, 999_999, Some(0)),
    (0, 1, 1500, 1000, 1_000_000, None),
    (0, 1, 1500, 1000, 999_999, Some(0)),
    (0, 1, 500, 500, 1_000_000, None),
    (1, 1, 2_000_000_000, 2_000_000_000, 500, Some(0)),
];

/// Three rungs of 450, 900 and 1800 kbps: within nine tenths of the rate by a bit; and a segment whose lowest rung is large.
const THREE_RUNGS: [Row; 9] = [
    (0, 2, 1000, 500, 500_000, Some(1)),
    (0, 2, 1000, 500, 499_999, Some(0)),
    (0, 2, 500, 100, 200_000, None),
    (0, 2, 500, 300, 300_000, Some(1)),
    (0, 1, 2000, 300, 300_000, None),
    (0, 1, 2000, 300, 299_999, Some(0)),
    (0, 0, 5000, 5000, 1000, None),
    (1, 2, 500, 400, 120_000, None),
    (1, 2, 500, 400, 90_000, Some(0)),
];

/// Each row is answered as it says.
fn answers(rt: &impl Abort, m: &Manifest, rows: &[Row]) {
    for (segment, rung, elapsed_ms, bit_ms, got, wanted) in rows {
        assert!(rt; *segment < m.segments() && *rung < m.rungs());
        assert!(rt; *got <= m.size(*segment, *rung));
        assert!(rt; *elapsed_ms <= 2_000_000_000 && *bit_ms <= *elapsed_ms);
        assert!(rt; *got as u64 <= 10_000_000 * *bit_ms);
        let now = Progress::new(*elapsed_ms, *bit_ms, *got);
        assert_eq!(rt; abandon_to(m, *segment, *rung, &now), *wanted, "at {now:?}");
    }
}

/// The film of these rungs and sizes, whose segments last a second.
fn film(alloc: Global, bitrates: &[u32], sizes: &[u32]) -> Result<Manifest, Fail> {
    let bitrates = bitrates.to_vec(alloc)?;
    let sizes = sizes.to_vec(alloc)?;
    Ok(Manifest::from_parts(1000, bitrates, sizes).ok_or("not a film")?)
}

#[test]
fn running_downloads(rt: HostRuntime) -> Result<(), Fail> {
    let alloc = rt.alloc();
    let two = film(
        alloc,
        &[1000, 2000],
        &[1_000_000, 2_000_000, 1_000_000, 2_000_000],
    )?;
    answers(&rt, &two, &TWO_RUNGS);
    let sizes = [450_000, 900_000, 1_800_000, 1_700_000, 900_000, 1_800_000];
    let three = film(alloc, &[450, 900, 1800], &sizes)?;
    answers(&rt, &three, &THREE_RUNGS);
    Ok(())
}
