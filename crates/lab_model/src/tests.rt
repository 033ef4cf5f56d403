//! Each public call on its happy path, and the limits at their edges.

use crate::{
    Kind, Manifest, Period, Sample, Setup, Trace, Weights, ceil_div, cmp_fraction, floor_mean,
    harmonic,
};
use std::alloc::Global;
use std::cmp::Ordering;
use std::test::Fail;

fn film(alloc: Global) -> Result<Option<Manifest>, Fail> {
    let bitrates = [1000, 2000].to_vec(alloc)?;
    let sizes = [1_000_000, 2_000_000, 1_000_001, 2_000_001].to_vec(alloc)?;
    Ok(Manifest::from_parts(1000, bitrates, sizes))
}

#[test]
fn a_manifest_answers_its_parts(rt: HostRuntime) -> Result<(), Fail> {
    let m = film(rt.alloc())?.ok_or("refused")?;
    assert_eq!(rt; m.seg_ms(), 1000);
    assert_eq!(rt; m.segments(), 2);
    assert_eq!(rt; m.rungs(), 2);
    assert!(rt; m.rungs() > 1 && m.segments() > 1);
    assert_eq!(rt; m.bitrate(1), 2000);
    assert_eq!(rt; m.size(1, 0), 1_000_001);
    for (limit, rung) in [(0, 0), (1999, 0), (2000, 1), (9000, 1)] {
        assert_eq!(rt; m.greatest_rung(1, limit), rung);
    }
    Ok(())
}

#[test]
fn manifests_keep_their_limits(rt: HostRuntime) -> Result<(), Fail> {
    for (seg_ms, low, high, size, fits) in [
        (1u32, 1u32, 2u32, 1u32, true),
        (60_000, 9_999_999, 10_000_000, 200_000_000, true),
        (0, 1, 2, 1, false),
        (60_001, 1, 2, 1, false),
        (1, 0, 2, 1, false),
        (1, 2, 2, 1, false),
        (1, 3, 2, 1, false),
        (1, 1, 10_000_001, 1, false),
        (1, 1, 2, 0, false),
        (1, 1, 2, 200_000_001, false),
    ] {
        let bitrates = [low, high].to_vec(rt.alloc())?;
        let sizes = [size, size].to_vec(rt.alloc())?;
        assert_eq!(rt;
            Manifest::from_parts(seg_ms, bitrates, sizes).is_some(),
            fits
        );
    }
    let odd = [1, 2, 3].to_vec(rt.alloc())?;
    assert!(rt; Manifest::from_parts(1, [1, 2].to_vec(rt.alloc())?, odd).is_none());
    Ok(())
}

#[test]
fn traces_keep_their_limits(rt: HostRuntime) -> Result<(), Fail> {
    for (duration_ms, bandwidth, latency, fits) in [
        (1u32, 1000u64, 0u32, true),
        (10_000_000, 10_000_000_000, 10_000, true),
        (1, 999, 0, false),
        (0, 1000, 0, false),
        (10_000_001, 1000, 0, false),
        (1, 10_000_000_001, 0, false),
        (1, 1000, 10_001, false),
    ] {
        let periods = [Period {
            duration_ms,
            bandwidth,
            latency,
        }]
        .to_vec(rt.alloc())?;
        let trace = Trace::from_parts(periods);
        assert_eq!(rt; trace.is_some(), fits);
        if let Some(t) = trace {
            assert_eq!(rt; t.periods().len(), 1);
        }
    }
    Ok(())
}

#[test]
fn setups_fit_their_manifest(rt: HostRuntime) -> Result<(), Fail> {
    let m = film(rt.alloc())?.ok_or("refused")?;
    for (buffer_ms, fits) in [
        (999, false),
        (1000, true),
        (10_000_000, true),
        (10_000_001, false),
    ] {
        let utilities = [0, 10].to_vec(rt.alloc())?;
        let weights = Weights::from_parts(utilities, 1, 100, 2).ok_or("refused")?;
        assert_eq!(rt; (weights.count(), weights.rows()), (2, 0));
        assert_eq!(rt;
            (weights.switch(), weights.stall(), weights.startup()),
            (1, 100, 2)
        );
        assert!(rt; weights.count() > 1 && weights.rows() == 0);
        assert_eq!(rt; weights.utility(7, 1), 10);
        assert_eq!(rt;
            (weights.change(7, None, 1), weights.change(7, Some(1), 0)),
            (0, 10)
        );
        let set = Setup {
            buffer_ms,
            weights,
            abandon: false,
        };
        assert_eq!(rt; (set.buffer_fits(&m), set.fits(&m)), (fits, fits));
    }
    let few = Weights::from_parts([0].to_vec(rt.alloc())?, 0, 100, 1).ok_or("refused")?;
    let short = Setup {
        buffer_ms: 1000,
        weights: few,
        abandon: false,
    };
    assert!(rt; short.buffer_fits(&m) && !short.utilities_fit(&m) && !short.fits(&m));
    assert!(rt; Weights::from_parts([10, 0].to_vec(rt.alloc())?, 0, 100, 1).is_none());
    assert!(rt; Weights::from_parts([0].to_vec(rt.alloc())?, 0, 1_000_001, 1).is_none());
    Ok(())
}

#[test]
fn tables_have_whole_rows(rt: HostRuntime) -> Result<(), Fail> {
    let rows = [0, 10, 3, 4].to_vec(rt.alloc())?;
    let table = Weights::from_table(rows, 2, 1, 100, 2).ok_or("refused")?;
    assert_eq!(rt; (table.count(), table.rows()), (2, 2));
    assert!(rt; table.count() > 1 && table.rows() > 1);
    assert_eq!(rt; (table.utility(0, 1), table.utility(1, 0)), (10, 3));
    for (rungs, fits) in [
        (0, false),
        (1, true),
        (2, true),
        (3, false),
        (4, false),
        (17, false),
    ] {
        let rows = [0, 10, 3, 4].to_vec(rt.alloc())?;
        assert_eq!(rt; Weights::from_table(rows, rungs, 0, 0, 0).is_some(), fits);
    }
    Ok(())
}

#[test]
fn kinds_have_numbers(rt: HostRuntime) {
    assert_eq!(rt; Kind::NotJson.number(), 1);
    assert_eq!(rt; Kind::CertLine.number(), 11);
}

#[test]
fn samples_are_rates(rt: HostRuntime) {
    for (got, bit_ms, rate) in [(0, 1, 1), (1, 1, 1000), (2000, 3, 666_666), (1, 1001, 1)] {
        assert_eq!(rt; Sample::of(got, bit_ms).rate, rate);
    }
}

#[test]
fn quotients_are_exact(rt: HostRuntime) {
    let far = 10_000_000_000_000_000_000_000_000i128;
    assert_eq!(rt; cmp_fraction(-1, 3, -2, 6), Ordering::Equal);
    assert_eq!(rt;
        cmp_fraction(far, 10_000_000_000, far - 1, 10_000_000_000),
        Ordering::Greater
    );
    assert_eq!(rt; cmp_fraction(-far, 1, far, 10_000_000_000), Ordering::Less);
    assert_eq!(rt; floor_mean(11, 3), 3);
    assert_eq!(rt; ceil_div(10, 3), 4);
}

#[test]
fn harmonic_values(rt: HostRuntime) {
    assert_eq!(rt; harmonic(&[2_000_000, 1_000_000]), 1_333_333);
    assert_eq!(rt; harmonic(&[10_000_000_000]), 10_000_000_000);
    assert_eq!(rt; harmonic(&[1, 1, 1, 1, 1]), 1);
}
