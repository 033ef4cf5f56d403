//! The rule on worked examples.

use crate::Bola;
use lab_model::{Context, Manifest, Rule, Sample, Setup, Weights};
use std::alloc::Global;
use std::test::Fail;

/// Three segments of one second, at 1000 and 2000 kbps.
fn film(alloc: Global) -> Result<Manifest, Fail> {
    let bitrates = [1000, 2000].to_vec(alloc)?;
    let sizes = [
        1_000_000, 2_000_000, 1_000_000, 2_000_000, 1_000_000, 2_000_000,
    ]
    .to_vec(alloc)?;
    Ok(Manifest::from_parts(1000, bitrates, sizes).ok_or("no film")?)
}

/// What BOLA chooses at a level, with a buffer of ten seconds and utilities 0 and 10.
fn choice_of(alloc: Global, g: u32, level: u32) -> Result<u8, Fail> {
    let m = film(alloc)?;
    let utilities = [0, 10].to_vec(alloc)?;
    let set = Setup {
        buffer_ms: 10_000,
        weights: Weights::from_parts(utilities, 0, 100, 1).ok_or("no weights")?,
        abandon: false,
    };
    let mut rule = Bola::new(g).ok_or("no rule")?;
    rule.observe(Sample::of(1_000_000, 1000));
    let c = Context {
        level,
        next: 0,
        last: None,
    };
    if !set.fits(&m) || !rule.fits(&m) || m.segments() == 0 || level > set.buffer_ms - m.seg_ms() {
        return Err("misfit".into());
    }
    Ok(rule.choose(&m, &set, &c))
}

#[test]
fn bola_tie(rt: HostRuntime) -> Result<(), Fail> {
    assert_eq!(rt; choice_of(rt.alloc(), 10, 0)?, 0);
    assert_eq!(rt; choice_of(rt.alloc(), 5, 0)?, 1);
    assert_eq!(rt; choice_of(rt.alloc(), 10, 9000)?, 1);
    Ok(())
}

#[test]
fn numbers_within_limits(rt: HostRuntime) {
    for (g, fits) in [(0, false), (1, true), (1_000_000, true), (1_000_001, false)] {
        assert_eq!(rt; Bola::new(g).is_some(), fits);
    }
}
