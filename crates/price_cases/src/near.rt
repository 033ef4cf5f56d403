//! Near-best lists and bounds beside each other: on small films beside the best of all lists, which another program found by
//! trying them all, and on films of up to ten minutes, on a network that changes much and on a steady one.

ghost use Rattle.std.specs.Prelude.{◌<◌};

use lab_model::{Ahead, Manifest, Period, Setup, Trace, Weights};
use near_best::near_best;
use network_clock::Clock;
use player_core::Scene;
use std::alloc::Global;
use std::process::Abort;
use std::test::Fail;

const BITRATES: [u32; 10] = [235, 375, 560, 750, 1050, 1750, 2350, 3000, 4300, 5800];

const UTILITIES: [u32; 10] = [0, 467, 868, 1160, 1497, 2008, 2303, 2547, 2907, 3206];

/// The next number of a row of draws, 0 to 32767.
fn draw(state: &mut u64) -> u32
    ensures { result < 32768 }
{
    *state = state.wrapping_mul(1_103_515_245).wrapping_add(12_345) % 2_147_483_648;
    (*state / 65_536) as u32
}

/// A network of 300 s that changes each second, from 0.1 to 6 Mbit/s.
fn wild_network(alloc: Global) -> Result<Clock, Fail> {
    let mut state = 11;
    let mut periods = Vec::new(alloc);
    let mut level = 2_000_000u64;
    for _ in 0..300 {
        let up = 50 * draw(&mut state) as u64;
        let next = level.saturating_add(up).saturating_sub(800_000);
        level = next.max(100_000).min(6_000_000);
        periods.push(Period {
            duration_ms: 1000,
            bandwidth: level,
            latency: 60,
        })?;
    }
    let trace = Trace::from_parts(periods).ok_or("not a trace")?;
    Ok(Clock::new(alloc, &trace)?)
}

/// A network of 3 Mbit/s.
fn steady_network(alloc: Global) -> Result<Clock, Fail> {
    let periods = vec![in alloc;
        Period {
            duration_ms: 60_000,
            bandwidth: 3_000_000,
            latency: 40
        },
    ]?;
    let trace = Trace::from_parts(periods).ok_or("not a trace")?;
    Ok(Clock::new(alloc, &trace)?)
}

/// A film of so many segments of 3 s on ten rungs.
fn long_film(alloc: Global, segments: u32) -> Result<Manifest, Fail> {
    let mut state = 7;
    let mut sizes = Vec::new(alloc);
    for _ in 0..segments {
        let part = 30 * (70 + draw(&mut state) % 61);
        for rate in BITRATES {
            sizes.push(rate.saturating_mul(part))?;
        }
    }
    let bitrates = BITRATES.to_vec(alloc)?;
    Ok(Manifest::from_parts(3000, bitrates, sizes).ok_or("not a film")?)
}

/// A film of so many segments of 1 s on three rungs, from the row of a number.
fn small_film(alloc: Global, number: u64, segments: u32) -> Result<Manifest, Fail> {
    let mut state = number;
    let mut sizes = Vec::new(alloc);
    for _ in 0..segments {
        let least = 200_000 + 10 * draw(&mut state);
        for factor in [1u32, 4, 9] {
            sizes.push(least.saturating_mul(factor))?;
        }
    }
    Ok(Manifest::from_parts(1000, vec![in alloc; 400, 1600, 3600]?, sizes).ok_or("not a film")?)
}

/// A buffer and what stalls weigh, beside these utilities.
fn setup(alloc: Global, buffer_ms: u32, stall: u32, utilities: &[u32]) -> Result<Setup, Fail> {
    let weights = Weights::from_parts(utilities.to_vec(alloc)?, 1, stall, 1).ok_or("no weights")?;
    Ok(Setup {
        buffer_ms,
        weights,
        abandon: false,
    })
}

/// The score and the bound that are found.
fn score_and_bound(
    rt: &impl Abort,
    alloc: Global,
    film: &Manifest,
    clock: &Clock,
    setup: &Setup,
    ahead: u32,
) -> Result<(i128, i128), Fail> {
    assert!(rt; setup.fits(film));
    let ahead = Ahead::new(ahead).ok_or("too much ahead")?;
    let found = near_best(alloc, &Scene::new(film, clock, setup, ahead))?;
    Ok((found.score, found.bound))
}

/// The media ahead, what stalls weigh, and the best value of all lists, of films of 1 to 6 segments and again.
const SMALL: [(u32, u32, i128); 12] = [
    (120_000_000, 10, 1_199_146),
    (120_000_000, 1000, 2_140_435),
    (120_000_000, 3000, 2_396_710),
    (120_000_000, 10, 4_776_576),
    (120_000_000, 1000, 3_465_974),
    (120_000_000, 3000, 3_196_657),
    (2000, 10, 1_199_038),
    (2000, 1000, 1_861_318),
    (2000, 3000, 2_387_602),
    (2000, 10, 4_772_029),
    (2000, 1000, 3_198_263),
    (2000, 3000, 3_697_540),
];

#[test]
fn small_films(rt: HostRuntime) -> Result<(), Fail> {
    let alloc = rt.alloc();
    let clock = wild_network(alloc)?;
    for number in 0..SMALL.len() {
        let (ahead, stall, best) = SMALL[number];
        let film = small_film(alloc, number as u64, 1 + number as u32 % 6)?;
        let setup = setup(alloc, 2500, stall, &[0, 500, 1200])?;
        let (score, bound) = score_and_bound(&rt, alloc, &film, &clock, &setup, ahead)?;
        println!(rt; "{number}: {score}, best {best}, bound {bound}")?;
        assert!(rt; score == best && best <= bound);
    }
    Ok(())
}

/// Segments of a film, a buffer in milliseconds, what stalls weigh, and how far the bound may lie above the score, in thousandths
/// of it.
type Row = (u32, u32, u32, i128);

fn test_row(rt: &impl Abort, alloc: Global, clock: &Clock, row: Row) -> Result<(), Fail> {
    let (segments, buffer_ms, stall, parts) = row;
    let film = long_film(alloc, segments)?;
    let setup = setup(alloc, buffer_ms, stall, &UTILITIES)?;
    let (score, bound) = score_and_bound(rt, alloc, &film, clock, &setup, 120_000_000)?;
    let most = score.saturating_add(score.saturating_mul(parts) / 1000);
    assert!(rt; score <= bound && bound <= most);
    Ok(())
}

const WILD: [Row; 6] = [
    (30, 25_000, 3000, 25),
    (30, 8000, 3000, 90),
    (30, 60_000, 10, 6),
    (60, 25_000, 1000, 19),
    (60, 8000, 1000, 50),
    (60, 60_000, 3000, 16),
];

#[test]
fn wild_rows(rt: HostRuntime) -> Result<(), Fail> {
    let alloc = rt.alloc();
    let clock = wild_network(alloc)?;
    for row in WILD {
        test_row(&rt, alloc, &clock, row)?;
    }
    Ok(())
}

/// What is left here is the latency of downloads, which no price sees.
const STEADY: [Row; 3] = [
    (60, 25_000, 1000, 7),
    (60, 8000, 3000, 7),
    (60, 60_000, 10, 1),
];

#[test]
fn steady_rows(rt: HostRuntime) -> Result<(), Fail> {
    let alloc = rt.alloc();
    let clock = steady_network(alloc)?;
    for row in STEADY {
        test_row(&rt, alloc, &clock, row)?;
    }
    Ok(())
}

#[test]
fn ten_minutes(rt: HostRuntime) -> Result<(), Fail> {
    let alloc = rt.alloc();
    test_row(&rt, alloc, &wild_network(alloc)?, (199, 25_000, 3000, 20))?;
    test_row(&rt, alloc, &steady_network(alloc)?, (199, 25_000, 3000, 6))
}
