//! Bounds, with answers from outside.

ghost use Rattle.std.specs.Prelude.{◌<◌, ◌≤◌};

use lab_model::{Ahead, Manifest, Period, Setup, Trace, Weights};
use network_clock::Clock;
use player_core::Scene;
use price_bounds::{
    PriceCertificate, PriceVerdict, Window, are_in_order, bound_of_windows, check_prices,
};
use std::alloc::Global;
use std::process::Abort;
use std::test::Fail;

/// The bounds of the small films, by number, and the greatest values of their lists.
static BOUNDS: [(i128, i128); 30] = [
    (10_000, 10_000),
    (49_307, 33_658),
    (286_430_406_111_266, 4860),
    (223_898_473_120_242, 58_140),
    (10_000, 10_000),
    (213_140_871_656_872, 34_150),
    (276_054_655_093_630, 11_010),
    (508_490, 43_220),
    (10_000, 10_000),
    (36_564_830_077_893, 57_372),
    (-8331, -87_070),
    (459_231_649_376_752, 45_682),
    (10_000, 10_000),
    (204_677, 33_612),
    (433_998_694_985_390, 12_600),
    (372_393_525_527_907, 58_233),
    (10_000, 10_000),
    (62_201, 33_913),
    (134_163_956_896_808, 20_000),
    (646_817, 215_914),
    (10_000, 10_000),
    (205_340_255_837_829, 28_235),
    (329_420, 19_860),
    (640_653_079_188_900, 83_134),
    (10_000, 10_000),
    (51_422, 47_971),
    (306_806_551_037_427, 23_400),
    (241_937_109_933_126, 74_436),
    (10_000, 10_000),
    (181_438_180_935_351, 73_535),
];

/// The film of a number: 1 to 4 segments, 2 or 3 rungs.
fn film(alloc: Global, k: u32) -> Result<Manifest, Fail>
    requires { k < 30 }
{
    let rungs = 2 + k % 2;
    let mut bitrates = vec![in alloc; 500, 1500, 4000]?;
    bitrates.truncate(rungs as usize);
    let mut sizes = Vec::new(alloc);
    for i in 0..1 + k % 4 {
        for q in 0..rungs {
            let part = (k * 7919 + i * 104_729 + q * 50_021) % 400_000;
            sizes.push((100_000 + part) * (q * q + 1))?;
        }
    }
    Ok(Manifest::from_parts(500 + 250 * (k % 5), bitrates, sizes).ok_or("not a film")?)
}

/// Its network, whose second period carries nothing for every other number.
fn clock(alloc: Global, k: u32) -> Result<Clock, Fail> {
    let mut periods = Vec::new(alloc);
    periods.push(Period {
        duration_ms: 700 + 100 * (k % 7),
        bandwidth: 1_000_000 + 200_003 * (k % 6) as u64,
        latency: 20 * (k % 3),
    })?;
    periods.push(Period {
        duration_ms: 300 + 50 * (k % 4),
        bandwidth: if k % 2 == 1 { 0 } else { 400_000 },
        latency: 0,
    })?;
    let trace = Trace::from_parts(periods).ok_or("not a trace")?;
    Ok(Clock::new(alloc, &trace)?)
}

/// Its setup, with a table of utilities for every fifth number.
fn setup(alloc: Global, k: u32) -> Result<Setup, Fail> {
    let rungs = 2 + (k % 2) as u8;
    let table = k % 5 == 4;
    let mut utilities = Vec::new(alloc);
    for i in 0..if table { 1 + k % 4 } else { 1 } {
        for u in [0, 10, 25u32].iter().take(rungs as usize) {
            utilities.push(u * (i + 1))?;
        }
    }
    let (switch, stall, startup) = (7 * (k % 3), [10, 1000, 100][(k % 3) as usize], k % 2);
    let weights = if table {
        Weights::from_table(utilities, rungs, switch, stall, startup)
    } else {
        Weights::from_parts(utilities, switch, stall, startup)
    };
    Ok(Setup {
        buffer_ms: (500 + 250 * (k % 5)) * (1 + k % 3),
        weights: weights.ok_or("no weights")?,
        abandon: false,
    })
}

/// Its windows: one of all segments but the first, and one of a segment.
fn windows(alloc: Global, k: u32) -> Result<Vec<Window>, Fail> {
    let last = (k % 4) as u16;
    let mut windows = Vec::new(alloc);
    if last > 0 {
        windows.push(Window {
            first: 1,
            last,
            price: 1 + 40_000 * (k % 8) as u64,
        })?;
    }
    if last > 1 {
        windows.push(Window {
            first: 2,
            last: 2,
            price: 90_000 * (1 + k % 3) as u64,
        })?;
    }
    Ok(windows)
}

/// The media ahead of a number: all, or little of a live film.
fn ahead(k: u32) -> Result<Ahead, Fail> {
    if k % 4 < 2 {
        return Ok(Ahead::all());
    }
    Ok(Ahead::new(300 * (k % 9)).ok_or("too much ahead")?)
}

#[test]
fn small_films(rt: HostRuntime) -> Result<(), Fail> {
    let alloc = rt.alloc();
    for k in 0..30u32 {
        let (m, clock, set) = (film(alloc, k)?, clock(alloc, k)?, setup(alloc, k)?);
        assert!(rt; set.fits(&m));
        let scene = Scene::new(&m, &clock, &set, ahead(k)?);
        let windows = windows(alloc, k)?;
        assert!(rt; are_in_order(&windows, m.segments()));
        let bound = bound_of_windows(alloc, &scene, &windows)?;
        assert_eq!(rt; bound, BOUNDS[k as usize].0);
    }
    Ok(())
}

/// The rung list of a number: its digits, from the first segment on.
fn list(alloc: Global, number: u32, rungs: u8, segments: u16) -> Result<Vec<u8>, Fail>
    requires { 1 ≤ rungs }
{
    let mut rest = number;
    let mut plan = Vec::new(alloc);
    for _ in 0..segments {
        plan.push((rest % rungs as u32) as u8)?;
        rest /= rungs as u32;
    }
    Ok(plan)
}

/// The value of a list, which a check without windows gives where the certificate says another.
fn value(rt: &impl Abort, alloc: Global, scene: &Scene<'_>, plan: Vec<u8>) -> Result<i128, Fail> {
    let certificate = PriceCertificate {
        segments: scene.film().segments(),
        rungs: scene.film().rungs(),
        score: i128::MAX,
        bound: i128::MAX,
        plan,
        windows: Vec::new(alloc),
    };
    assert!(rt; certificate.plan.len() == certificate.segments as usize);
    match check_prices(alloc, scene, &certificate)? {
        PriceVerdict::OtherScore { score } => Ok(score),
        _ => Err("another verdict")?,
    }
}

/// How many rung lists the film of a number has, by what four leaves of the number.
static LISTS: [u32; 4] = [2, 9, 8, 81];

/// No list of the small films is above its bound, and one has the greatest value.
#[test]
fn all_lists(rt: HostRuntime) -> Result<(), Fail> {
    let alloc = rt.alloc();
    for k in 0..30u32 {
        let (m, clock, set) = (film(alloc, k)?, clock(alloc, k)?, setup(alloc, k)?);
        assert!(rt; set.fits(&m));
        let scene = Scene::new(&m, &clock, &set, ahead(k)?);
        let mut best = i128::MIN;
        for number in 0..LISTS[(k % 4) as usize] {
            let plan = list(alloc, number, m.rungs(), m.segments())?;
            best = best.max(value(&rt, alloc, &scene, plan)?);
        }
        let (bound, most) = BOUNDS[k as usize];
        assert!(rt; best == most && best <= bound);
    }
    Ok(())
}

/// Two segments of 2000 or 4000 ms on 500 kbps; a window of the second one at a price, and the bound.
static BY_HAND: [(u64, i128); 4] = [
    (0, 16_000),
    (1, 15_999),
    (5000, 8500),
    (1_000_000_000_000, 504_547_669_346_791_850_250),
];

/// One period of a rate, without latency.
fn steady(alloc: Global, duration_ms: u32, bandwidth: u64) -> Result<Clock, Fail> {
    let periods = vec![in alloc;
        Period {
            duration_ms,
            bandwidth,
            latency: 0
        },
    ]?;
    let trace = Trace::from_parts(periods).ok_or("not a trace")?;
    Ok(Clock::new(alloc, &trace)?)
}

#[test]
fn by_hand(rt: HostRuntime) -> Result<(), Fail> {
    let alloc = rt.alloc();
    let sizes = vec![in alloc; 1_000_000, 2_000_000, 1_000_000, 2_000_000]?;
    let m = Manifest::from_parts(1000, vec![in alloc; 1000, 2000]?, sizes).ok_or("not a film")?;
    let clock = steady(alloc, 60_000, 500_000)?;
    let set = Setup {
        buffer_ms: 2000,
        weights: Weights::from_parts(vec![in alloc; 0, 10]?, 3, 10, 1).ok_or("no weights")?,
        abandon: false,
    };
    assert!(rt; set.fits(&m) && m.segments() == 2);
    let scene = Scene::on_demand(&m, &clock, &set);
    for (price, bound) in &BY_HAND {
        let (price, bound) = (*price, *bound);
        let mut windows = Vec::new(alloc);
        if price > 0 {
            windows.push(Window {
                first: 1,
                last: 1,
                price,
            })?;
        }
        assert!(rt; are_in_order(&windows, 2));
        assert_eq!(rt; bound_of_windows(alloc, &scene, &windows)?, bound);
    }
    Ok(())
}

#[test]
fn greatest_prices(rt: HostRuntime) -> Result<(), Fail> {
    let alloc = rt.alloc();
    let m = Manifest::from_parts(
        60_000,
        vec![in alloc; 1]?,
        vec![in alloc; 200_000_000; 90]?,
    ).ok_or("not a film")?;
    let clock = steady(alloc, 1, 10_000_000_000)?;
    let set = Setup {
        buffer_ms: 10_000_000,
        weights: Weights::from_parts(
            vec![in alloc; 1_000_000]?,
            1_000_000,
            1_000_000,
            1_000_000,
        ).ok_or("no weights")?,
        abandon: false,
    };
    assert!(rt; set.fits(&m) && m.segments() == 90);
    let mut windows = Vec::new(alloc);
    for first in 1..90 {
        for last in first..90 {
            if windows.len() < 4000 {
                windows.push(Window {
                    first,
                    last,
                    price: 1_000_000_000_000,
                })?;
            }
        }
    }
    let scene = Scene::on_demand(&m, &clock, &set);
    assert!(rt; are_in_order(&windows, 90));
    let bound = bound_of_windows(alloc, &scene, &windows)?;
    assert_eq!(rt; bound, 20_587_381_668_018_809_274_408_000_000);
    Ok(())
}

/// A valid certificate of film 7, played live.
fn valid(alloc: Global) -> Result<PriceCertificate, Fail> {
    Ok(PriceCertificate {
        segments: 4,
        rungs: 3,
        score: 43_220,
        bound: 508_490,
        plan: vec![in alloc; 2, 1, 0, 1]?,
        windows: windows(alloc, 7)?,
    })
}

/// Its verdict, on film 7 with 2100 ms of media ahead.
fn verdict(
    rt: &impl Abort,
    alloc: Global,
    certificate: &PriceCertificate,
) -> Result<PriceVerdict, Fail> {
    let (m, clock, set) = (film(alloc, 7)?, clock(alloc, 7)?, setup(alloc, 7)?);
    assert!(rt; set.fits(&m));
    let ahead = Ahead::new(2100).ok_or("too much ahead")?;
    let scene = Scene::new(&m, &clock, &set, ahead);
    assert!(rt; certificate.plan.len() == certificate.segments as usize);
    assert!(rt; certificate.windows.len() <= 4000);
    Ok(check_prices(alloc, &scene, certificate)?)
}

/// Rungs, score and bound, and the verdict.
static NUMBERS: [(u8, i128, i128, PriceVerdict); 6] = [
    (3, 43_220, 508_490, PriceVerdict::Yes),
    (3, 43_220, 508_491, PriceVerdict::Yes),
    (2, 43_220, 508_490, PriceVerdict::OtherFilm),
    (
        3,
        43_220,
        508_489,
        PriceVerdict::BoundAbove { bound: 508_490 },
    ),
    (
        3,
        43_221,
        508_489,
        PriceVerdict::BoundAbove { bound: 508_490 },
    ),
    (
        3,
        43_221,
        508_490,
        PriceVerdict::OtherScore { score: 43_220 },
    ),
];

#[test]
fn verdicts_on_numbers(rt: HostRuntime) -> Result<(), Fail> {
    let alloc = rt.alloc();
    for (rungs, score, bound, said) in &NUMBERS {
        let mut certificate = valid(alloc)?;
        certificate.rungs = *rungs;
        certificate.score = *score;
        certificate.bound = *bound;
        assert_eq!(rt; verdict(&rt, alloc, &certificate)?, *said);
    }
    Ok(())
}

/// Rung lists, and the verdict.
static PLANS: [(&[u8], PriceVerdict); 4] = [
    (&[2, 1, 0], PriceVerdict::OtherFilm),
    (&[2, 1, 3, 4], PriceVerdict::BadRung { segment: 2 }),
    (&[3, 1, 0, 1], PriceVerdict::BadRung { segment: 0 }),
    (&[0, 0, 0, 0], PriceVerdict::OtherScore { score: -150 }),
];

#[test]
fn verdicts_on_lists(rt: HostRuntime) -> Result<(), Fail> {
    let alloc = rt.alloc();
    for (plan, said) in &PLANS {
        let mut certificate = valid(alloc)?;
        certificate.segments = plan.len() as u16;
        certificate.plan = plan.to_vec(alloc)?;
        assert_eq!(rt; verdict(&rt, alloc, &certificate)?, *said);
    }
    Ok(())
}

/// First and last segments and prices of windows, and the verdict.
static WINDOWS: [(&[(u16, u16, u64)], PriceVerdict); 9] = [
    (&[(0, 3, 5)], PriceVerdict::BadWindow { window: 0 }),
    (
        &[(1, 3, 280_001), (3, 2, 5)],
        PriceVerdict::BadWindow { window: 1 },
    ),
    (
        &[(1, 3, 280_001), (2, 4, 5)],
        PriceVerdict::BadWindow { window: 1 },
    ),
    (
        &[(1, 3, 280_001), (2, 2, 0)],
        PriceVerdict::BadWindow { window: 1 },
    ),
    (
        &[(1, 3, 280_001), (2, 2, 1_000_000_000_001)],
        PriceVerdict::BadWindow { window: 1 },
    ),
    (
        &[(1, 3, 280_001), (1, 3, 280_001)],
        PriceVerdict::BadWindow { window: 1 },
    ),
    (
        &[(1, 3, 280_001), (1, 2, 5)],
        PriceVerdict::BadWindow { window: 1 },
    ),
    (
        &[(2, 2, 180_000), (1, 3, 280_001)],
        PriceVerdict::BadWindow { window: 1 },
    ),
    (
        &[(1, 1, 1_000_000_000_000), (3, 3, 1_000_000_000_000)],
        PriceVerdict::BoundAbove {
            bound: 748_418_895_306_386_291_570,
        },
    ),
];

#[test]
fn verdicts_on_windows(rt: HostRuntime) -> Result<(), Fail> {
    let alloc = rt.alloc();
    for (windows, said) in &WINDOWS {
        let mut certificate = valid(alloc)?;
        certificate.windows = Vec::new(alloc);
        for (first, last, price) in *windows {
            certificate.windows.push(Window {
                first: *first,
                last: *last,
                price: *price,
            })?;
        }
        assert_eq!(rt; verdict(&rt, alloc, &certificate)?, *said);
    }
    Ok(())
}

/// 2000 segments on 16 rungs.
fn long_film(alloc: Global) -> Result<Manifest, Fail> {
    let mut bitrates = Vec::new(alloc);
    for q in 0..16u32 {
        bitrates.push(300 * (q + 1))?;
    }
    let mut sizes = Vec::new(alloc);
    for i in 0..2000u32 {
        for q in 0..16u32 {
            sizes.push(600_000 * (q + 1) + (i * 7919 + q * 50_021) % 100_000)?;
        }
    }
    Ok(Manifest::from_parts(2000, bitrates, sizes).ok_or("not a film")?)
}

/// 99 windows of 20 segments each.
fn long_windows(alloc: Global) -> Result<Vec<Window>, Fail> {
    let mut windows = Vec::new(alloc);
    for number in 0..99u16 {
        windows.push(Window {
            first: 1 + 20 * number,
            last: 20 + 20 * number,
            price: 33_000 + 100 * (number % 7) as u64,
        })?;
    }
    Ok(windows)
}

#[test]
fn long_films(rt: HostRuntime) -> Result<(), Fail> {
    let alloc = rt.alloc();
    let m = long_film(alloc)?;
    let mut utilities = Vec::new(alloc);
    for q in 0..16u32 {
        utilities.push(20 * q)?;
    }
    let periods = vec![in alloc;
        Period {
            duration_ms: 8000,
            bandwidth: 2_500_000,
            latency: 0
        },
        Period {
            duration_ms: 4000,
            bandwidth: 900_000,
            latency: 30
        },
    ]?;
    let clock = Clock::new(alloc, &Trace::from_parts(periods).ok_or("not a trace")?)?;
    let set = Setup {
        buffer_ms: 20_000,
        weights: Weights::from_parts(utilities, 1, 1000, 1).ok_or("no weights")?,
        abandon: false,
    };
    assert!(rt; set.fits(&m) && m.segments() == 2000);
    let scene = Scene::on_demand(&m, &clock, &set);
    let windows = long_windows(alloc)?;
    assert!(rt; are_in_order(&windows, m.segments()));
    assert_eq!(rt; bound_of_windows(alloc, &scene, &windows)?, 328_525_056);
    Ok(())
}
