//! Long sessions: many milliseconds, many segments, and a trace of many periods, with answers from outside.

use super::{Case, ON_DEMAND, clock_of, counters, fixed_session, setup_of};
use lab_model::{Manifest, Period, Rule, Seek};
use player_core::{Fixed, Scene, play_from, seeks_fit};
use std::alloc::Global;
use std::process::Abort;
use std::test::Fail;

/// A network of 1 kbps, on which each segment takes 200000 s.
const STARVED_PLAYER: Case = Case {
    seg_ms: 1000,
    bitrates: &[1],
    sizes: &[200_000_000; 6],
    periods: &[(1, 1000, 0)],
    buffer_ms: 10_000,
    abandon: false,
    seeks: &[],
    ahead: ON_DEMAND,
    rungs: &[0],
    counters: [200_000_000, 999_995_000, 5, 0, 0, 1_200_001_000],
    lines: "",
};

/// The same of 2000 segments, on ten periods of 10000 s.
const LONG_CYCLE: Case = Case {
    sizes: &[200_000_000; 2000],
    periods: &[(10_000_000, 1000, 0); 10],
    counters: [200_000_000, 399_798_001_000, 1999, 0, 0, 400_000_001_000],
    ..STARVED_PLAYER
};

/// 2000 segments of a bit and a millisecond, all of which fit the buffer.
const MANY_SEGMENTS: Case = Case {
    seg_ms: 1,
    sizes: &[1; 2000],
    buffer_ms: 10_000_000,
    counters: [1, 0, 0, 0, 0, 2001],
    ..STARVED_PLAYER
};

/// The session on demand has the counters of its case, and so many events and played segments.
fn counts(
    rt: &impl Abort,
    alloc: Global,
    case: &Case,
    events: usize,
    played: usize,
) -> Result<(), Fail> {
    let session = fixed_session(rt, alloc, case)?;
    assert_eq!(rt; counters(&session), case.counters);
    assert_eq!(rt; session.events.len(), events);
    assert_eq!(rt; session.played.len(), played);
    Ok(())
}

#[test]
fn starved_player(rt: HostRuntime) -> Result<(), Fail> {
    counts(&rt, rt.alloc(), &STARVED_PLAYER, 24, 6)
}

#[test]
fn long_cycle(rt: HostRuntime) -> Result<(), Fail> {
    counts(&rt, rt.alloc(), &LONG_CYCLE, 8000, 2000)
}

#[test]
fn many_segments(rt: HostRuntime) -> Result<(), Fail> {
    counts(&rt, rt.alloc(), &MANY_SEGMENTS, 6001, 2000)
}

/// 2000 segments of 2 s on three rungs of uneven sizes.
fn long_film(alloc: Global) -> Result<Manifest, Fail> {
    let bitrates = vec![in alloc; 400, 1200, 3000]?;
    let mut sizes = Vec::new(alloc);
    for i in 0..2000u32 {
        sizes.push(800_000 + i * 7919 % 100_000)?;
        sizes.push(2_400_000 + i * 15_838 % 100_000)?;
        sizes.push(6_000_000 + i * 23_757 % 100_000)?;
    }
    Ok(Manifest::from_parts(2000, bitrates, sizes).ok_or("not a film")?)
}

/// 100000 periods of 10 to 16 ms, 0 to 3999 kbps and 0 to 59 ms of latency.
fn many_short_periods(alloc: Global) -> Result<Vec<Period>, Fail> {
    let mut periods = Vec::new(alloc);
    for i in 0..100_000u32 {
        periods.push(Period {
            duration_ms: 10 + i % 7,
            bandwidth: (i * 31 % 4000) as u64 * 1000,
            latency: i % 60,
        })?;
    }
    Ok(periods)
}

/// Sixteen seeks, one each 250 s, all over the film.
fn many_seeks(alloc: Global) -> Result<Vec<Seek>, Fail> {
    let mut seeks = Vec::new(alloc);
    for i in 0..16u16 {
        seeks.push(Seek {
            at_ms: 250_000 * (i as u64 + 1),
            to: i * 531 % 2000,
        })?;
    }
    Ok(seeks)
}

#[test]
fn many_periods(rt: HostRuntime) -> Result<(), Fail> {
    let alloc = rt.alloc();
    let m = long_film(alloc)?;
    let clock = clock_of(alloc, many_short_periods(alloc)?)?;
    let set = setup_of(alloc, 3, 10_000, true)?;
    let seeks = many_seeks(alloc)?;
    let rule = Fixed { rung: 2 };
    assert!(rt; set.fits(&m) && seeks_fit(&seeks, &m) && rule.fits(&m));
    let scene = Scene::on_demand(&m, &clock, &set);
    let session = play_from(alloc, &scene, &seeks, rule)?;
    assert_eq!(rt;
        counters(&session),
        [983, 485_471, 1061, 35_246, 299_202_070, 4_083_457]
    );
    assert_eq!(rt; session.events.len(), 7696);
    assert_eq!(rt; session.played.len(), 1788);
    Ok(())
}
