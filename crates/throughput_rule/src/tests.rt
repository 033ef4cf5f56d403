//! The rule on worked examples.

use crate::{RuleErr, Throughput};
use lab_model::{Context, Manifest, Rule, Sample, Setup, Weights};
use std::alloc::Global;
use std::test::Fail;

/// Three segments of one second, at 1000 and 2000 kbps.
fn film(alloc: Global) -> Result<Manifest, Fail> {
    let bitrates = [1000, 2000].to_vec(alloc)?;
    let sizes = [
        1_000_000, 2_000_000, 1_000_000, 2_000_000, 1_000_000, 2_000_000,
    ]
    .to_vec(alloc)?;
    Ok(Manifest::from_parts(1000, bitrates, sizes).ok_or("no film")?)
}

/// A buffer of ten seconds, and utilities 0 and 10.
fn setup(alloc: Global) -> Result<Setup, Fail> {
    let utilities = [0, 10].to_vec(alloc)?;
    let weights = Weights::from_parts(utilities, 0, 100, 1).ok_or("no weights")?;
    Ok(Setup {
        buffer_ms: 10_000,
        weights,
        abandon: false,
    })
}

/// What a rule with these windows chooses after samples of these rates in bits per millisecond.
fn choice_of(alloc: Global, windows: &[u8], rates: &[u32]) -> Result<u8, Fail> {
    let m = film(alloc)?;
    let set = setup(alloc)?;
    let Ok(mut rule) = Throughput::new(alloc, windows) else {
        return Err("no rule".into());
    };
    for rate in rates {
        if *rate <= 10_000_000 {
            rule.observe(Sample::of(*rate, 1));
        }
    }
    let c = Context {
        level: 0,
        next: 0,
        last: None,
    };
    if !set.fits(&m) || !rule.fits(&m) || m.segments() == 0 {
        return Err("misfit".into());
    }
    Ok(rule.choose(&m, &set, &c))
}

#[test]
fn throughput_windows(rt: HostRuntime) -> Result<(), Fail> {
    let alloc = rt.alloc();
    assert_eq!(rt; choice_of(alloc, &[3, 5], &[2000, 2000, 2000])?, 0);
    assert_eq!(rt; choice_of(alloc, &[3, 5], &[])?, 0);
    assert_eq!(rt; choice_of(alloc, &[3, 5], &[2223, 2223, 2223])?, 1);
    assert_eq!(rt; choice_of(alloc, &[1], &[1000, 2223])?, 1);
    assert_eq!(rt; choice_of(alloc, &[1, 2], &[1000, 2223])?, 0);
    Ok(())
}

#[test]
fn windows_keep_their_limits(rt: HostRuntime) {
    for windows in [&[][..], &[1, 1, 1, 1, 1], &[0], &[3, 101]] {
        let refused = match Throughput::new(rt.alloc(), windows) {
            Ok(_) => false,
            Err(why) => why == RuleErr::BadWindows,
        };
        assert!(rt; refused);
    }
    assert!(rt; Throughput::new(rt.alloc(), &[1, 100, 100, 100]).is_ok());
}
