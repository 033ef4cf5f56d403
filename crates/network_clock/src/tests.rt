//! Worked examples of the network.

use crate::{Clock, Job, Landing, Link};
use lab_model::{Period, Trace};
use std::alloc::Global;
use std::process::Abort;
use std::test::Fail;

/// The trace of periods given as milliseconds, thousandths of a kbps and latency.
fn trace_of(alloc: Global, rows: &[(u32, u64, u32)]) -> Result<Trace, Fail> {
    let mut periods = Vec::new(alloc);
    for (duration_ms, bandwidth, latency) in rows {
        periods.push(Period {
            duration_ms: *duration_ms,
            bandwidth: *bandwidth,
            latency: *latency,
        })?;
    }
    Ok(Trace::from_parts(periods).ok_or("not a trace")?)
}

/// The clock of such periods.
fn clock_of(alloc: Global, rows: &[(u32, u64, u32)]) -> Result<Clock, Fail> {
    let trace = trace_of(alloc, rows)?;
    Ok(Clock::new(alloc, &trace)?)
}

#[test]
fn credit_over_two_periods(rt: HostRuntime) -> Result<(), Fail> {
    let clock = clock_of(rt.alloc(), &[(100, 1_000_000, 200), (1000, 1_000_000, 50)])?;
    assert_eq!(rt;
        clock.finish(0, 1000),
        Landing {
            first: 125,
            done: 126
        }
    );
    Ok(())
}

#[test]
fn uneven_credit(rt: HostRuntime) -> Result<(), Fail> {
    let clock = clock_of(rt.alloc(), &[(1000, 1_000_000, 3)])?;
    assert_eq!(rt; clock.finish(0, 1000), Landing { first: 3, done: 4 });
    let job = clock.advance(Job::start(5000), 0, 4);
    assert_eq!(rt;
        job,
        Job {
            credit: 0,
            left: 4_000_000
        }
    );
    let halves = clock_of(rt.alloc(), &[(5, 1_000_000, 10_000), (5, 1_000_000, 0)])?;
    assert_eq!(rt; halves.finish(0, 1000), Landing { first: 5, done: 6 });
    Ok(())
}

#[test]
fn dead_period(rt: HostRuntime) -> Result<(), Fail> {
    let clock = clock_of(rt.alloc(), &[(10, 0, 0), (10, 2000, 0)])?;
    assert_eq!(rt; clock.finish(0, 1), Landing { first: 0, done: 11 });
    Ok(())
}

#[test]
fn thousandths(rt: HostRuntime) -> Result<(), Fail> {
    let clock = clock_of(rt.alloc(), &[(1, 1500, 0)])?;
    assert_eq!(rt; clock.finish(0, 3), Landing { first: 0, done: 2 });
    assert_eq!(rt; clock.finish(0, 4), Landing { first: 0, done: 3 });
    let job = clock.advance(
        Job {
            credit: 0,
            left: 4000,
        },
        0,
        1,
    );
    assert_eq!(rt;
        job,
        Job {
            credit: 0,
            left: 2500
        }
    );
    Ok(())
}

#[test]
fn long_cycle(rt: HostRuntime) -> Result<(), Fail> {
    let clock = clock_of(rt.alloc(), &[(10_000_000, 1000, 0); 10])?;
    for k in 0..100_000u64 {
        let landing = Landing {
            first: k,
            done: k + 200_000_000,
        };
        assert_eq!(rt; clock.finish(k, 200_000_000), landing, "from {k}");
    }
    let short = clock_of(rt.alloc(), &[(1, 1000, 10_000)])?;
    let landing = Landing {
        first: 10_000,
        done: 200_010_000,
    };
    assert_eq!(rt; short.finish(0, 200_000_000), landing);
    let late = Landing {
        first: 2_000_000_000_010_000,
        done: 2_000_000_200_010_000,
    };
    assert_eq!(rt; short.finish(2_000_000_000_000_000, 200_000_000), late);
    Ok(())
}

/// The clock of these periods answers what was reckoned millisecond by millisecond: downloads as start, bits, first and
/// done, and jobs as credit, what is left, from, to, and what becomes of both.
fn agrees(
    rt: &impl Abort,
    alloc: Global,
    rows: &[(u32, u64, u32)],
    downloads: &[(u64, u32, u64, u64)],
    jobs: &[(u32, u64, u64, u64, u32, u64)],
) -> Result<(), Fail> {
    let clock = clock_of(alloc, rows)?;
    for (start, bits, first, done) in downloads {
        assert!(rt; *start < 100 && *bits > 0 && *bits < 100);
        let landing = Landing {
            first: *first,
            done: *done,
        };
        assert_eq!(rt;
            clock.finish(*start, *bits),
            landing,
            "from {start}, {bits} bits"
        );
        assert_eq!(rt; clock.request(*start).done(*bits), *done);
    }
    for (credit, left, from, to, later, less) in jobs {
        assert!(rt; *credit <= 100_000_000 && *left < 100_000 && *from <= *to && *to < 100);
        let job = Job {
            credit: *credit,
            left: *left,
        };
        let wanted = Job {
            credit: *later,
            left: *less,
        };
        assert_eq!(rt;
            clock.advance(job, *from, *to),
            wanted,
            "from {from} to {to}"
        );
    }
    Ok(())
}

#[test]
fn millisecond_by_millisecond(rt: HostRuntime) -> Result<(), Fail> {
    let alloc = rt.alloc();
    agrees(
        &rt,
        alloc,
        &[(3, 1_500, 8), (2, 0, 3), (4, 7_000, 5), (1, 999, 0)],
        &[
            (0, 1, 5, 6),
            (0, 7, 5, 6),
            (0, 29, 5, 11),
            (2, 1, 7, 8),
            (2, 4, 7, 8),
            (2, 29, 7, 17),
            (5, 1, 9, 11),
            (5, 8, 9, 16),
            (5, 29, 9, 19),
            (9, 1, 9, 11),
            (9, 12, 9, 16),
            (9, 29, 9, 19),
            (11, 1, 16, 17),
            (11, 2, 16, 17),
            (11, 29, 16, 26),
            (17, 1, 19, 21),
            (17, 3, 19, 22),
            (17, 29, 19, 29),
            (23, 1, 27, 28),
            (23, 10, 27, 29),
            (23, 29, 27, 37),
        ],
        &[
            (0, 9_000, 3, 6, 0, 2_000),
            (0, 9_000, 3, 12, 0, 0),
            (12_500_000, 9_000, 16, 18, 0, 2_000),
            (12_500_000, 9_000, 16, 25, 0, 0),
            (25_000_000, 9_000, 2, 6, 0, 2_000),
            (25_000_000, 9_000, 2, 23, 0, 0),
            (37_500_000, 9_000, 2, 4, 0, 9_000),
            (37_500_000, 9_000, 2, 12, 0, 0),
            (50_000_000, 9_000, 17, 21, 0, 6_501),
            (50_000_000, 9_000, 17, 26, 0, 0),
            (62_500_000, 9_000, 18, 19, 42_500_000, 9_000),
            (62_500_000, 9_000, 18, 33, 0, 0),
            (75_000_000, 9_000, 20, 26, 0, 2_000),
            (75_000_000, 9_000, 20, 29, 0, 0),
            (87_500_000, 9_000, 18, 23, 0, 3_501),
            (87_500_000, 9_000, 18, 38, 0, 0),
            (100_000_000, 9_000, 1, 3, 75_000_000, 9_000),
            (100_000_000, 9_000, 1, 10, 0, 0),
        ],
    )?;
    agrees(
        &rt,
        alloc,
        &[(1, 3_001, 10), (9, 1_000, 1)],
        &[
            (0, 1, 2, 3),
            (0, 10, 2, 11),
            (0, 29, 2, 27),
            (2, 1, 3, 4),
            (2, 4, 3, 7),
            (2, 29, 3, 28),
            (5, 1, 6, 7),
            (5, 6, 6, 11),
            (5, 29, 6, 31),
            (9, 1, 10, 11),
            (9, 8, 10, 16),
            (9, 29, 10, 33),
            (11, 1, 12, 13),
            (11, 4, 12, 16),
            (11, 29, 12, 37),
            (17, 1, 18, 19),
            (17, 10, 18, 26),
            (17, 29, 18, 41),
            (23, 1, 24, 25),
            (23, 3, 24, 27),
            (23, 29, 24, 49),
        ],
        &[
            (0, 9_000, 18, 21, 0, 3_999),
            (0, 9_000, 18, 31, 0, 0),
            (12_500_000, 9_000, 3, 8, 0, 5_000),
            (12_500_000, 9_000, 3, 17, 0, 0),
            (25_000_000, 9_000, 11, 12, 0, 9_000),
            (25_000_000, 9_000, 11, 21, 0, 0),
            (37_500_000, 9_000, 18, 19, 0, 9_000),
            (37_500_000, 9_000, 18, 32, 0, 0),
            (50_000_000, 9_000, 15, 21, 0, 1_999),
            (50_000_000, 9_000, 15, 36, 0, 0),
            (62_500_000, 9_000, 10, 14, 0, 7_000),
            (62_500_000, 9_000, 10, 32, 0, 0),
            (75_000_000, 9_000, 11, 14, 0, 7_000),
            (75_000_000, 9_000, 11, 26, 0, 0),
            (87_500_000, 9_000, 5, 11, 0, 1_999),
            (87_500_000, 9_000, 5, 20, 0, 0),
            (100_000_000, 9_000, 2, 7, 0, 5_000),
            (100_000_000, 9_000, 2, 19, 0, 0),
        ],
    )?;
    agrees(
        &rt,
        alloc,
        &[(7, 0, 7), (2, 0, 0), (3, 4_000, 12)],
        &[
            (0, 1, 7, 10),
            (0, 10, 7, 12),
            (0, 29, 7, 35),
            (2, 1, 7, 10),
            (2, 9, 7, 12),
            (2, 29, 7, 35),
            (5, 1, 7, 10),
            (5, 7, 7, 11),
            (5, 29, 7, 35),
            (9, 1, 18, 22),
            (9, 9, 18, 24),
            (9, 29, 18, 47),
            (11, 1, 19, 22),
            (11, 6, 19, 23),
            (11, 29, 19, 47),
            (17, 1, 19, 22),
            (17, 11, 19, 24),
            (17, 29, 19, 47),
            (23, 1, 31, 34),
            (23, 3, 31, 34),
            (23, 29, 31, 59),
        ],
        &[
            (0, 9_000, 3, 8, 0, 9_000),
            (0, 9_000, 3, 24, 0, 0),
            (12_500_000, 9_000, 5, 12, 0, 0),
            (12_500_000, 9_000, 5, 23, 0, 0),
            (25_000_000, 9_000, 4, 8, 0, 9_000),
            (25_000_000, 9_000, 4, 25, 0, 0),
            (37_500_000, 9_000, 1, 7, 0, 9_000),
            (37_500_000, 9_000, 1, 11, 0, 1_000),
            (50_000_000, 9_000, 17, 22, 0, 5_000),
            (50_000_000, 9_000, 17, 35, 0, 0),
            (62_500_000, 9_000, 10, 16, 0, 9_000),
            (62_500_000, 9_000, 10, 29, 0, 0),
            (75_000_000, 9_000, 19, 23, 0, 1_000),
            (75_000_000, 9_000, 19, 41, 0, 0),
            (87_500_000, 9_000, 2, 9, 0, 9_000),
            (87_500_000, 9_000, 2, 12, 0, 0),
            (100_000_000, 9_000, 8, 12, 0, 0),
            (100_000_000, 9_000, 8, 18, 0, 0),
        ],
    )?;
    agrees(
        &rt,
        alloc,
        &[
            (1, 1_000, 9),
            (1, 0, 3),
            (2, 400, 7),
            (1, 2_500, 0),
            (1, 300, 10),
            (2, 1_200, 5),
            (1, 0, 0),
            (1, 700, 8),
            (1, 100, 6),
            (1, 5_000, 2),
        ],
        &[
            (0, 1, 4, 5),
            (0, 2, 4, 5),
            (0, 29, 4, 31),
            (2, 1, 4, 5),
            (2, 6, 4, 11),
            (2, 29, 4, 31),
            (5, 1, 8, 12),
            (5, 12, 8, 20),
            (5, 29, 8, 36),
            (9, 1, 14, 17),
            (9, 11, 14, 24),
            (9, 29, 14, 42),
            (11, 1, 15, 17),
            (11, 12, 15, 25),
            (11, 29, 15, 43),
            (17, 1, 20, 24),
            (17, 9, 20, 29),
            (17, 29, 20, 48),
            (23, 1, 27, 29),
            (23, 6, 27, 34),
            (23, 29, 27, 55),
        ],
        &[
            (0, 9_000, 22, 26, 0, 2_900),
            (0, 9_000, 22, 41, 0, 0),
            (12_500_000, 9_000, 0, 4, 0, 8_200),
            (12_500_000, 9_000, 0, 19, 0, 0),
            (25_000_000, 9_000, 5, 10, 0, 7_100),
            (25_000_000, 9_000, 5, 16, 0, 200),
            (37_500_000, 9_000, 15, 16, 23_214_285, 9_000),
            (37_500_000, 9_000, 15, 29, 0, 0),
            (50_000_000, 9_000, 9, 11, 20_833_333, 9_000),
            (50_000_000, 9_000, 9, 24, 0, 0),
            (62_500_000, 9_000, 12, 16, 0, 9_000),
            (62_500_000, 9_000, 12, 35, 0, 0),
            (75_000_000, 9_000, 2, 4, 46_428_570, 9_000),
            (75_000_000, 9_000, 2, 24, 0, 0),
            (87_500_000, 9_000, 12, 17, 0, 6_500),
            (87_500_000, 9_000, 12, 28, 0, 0),
            (100_000_000, 9_000, 4, 11, 0, 3_000),
            (100_000_000, 9_000, 4, 25, 0, 0),
        ],
    )?;
    Ok(())
}

/// The link of these periods answers what was reckoned millisecond by millisecond: parts of downloads as takers, from,
/// what is left and done, and jobs as takers, from, to, and what becomes of credit and what is left.
fn shares_agree(
    rt: &impl Abort,
    alloc: Global,
    rows: &[(u32, u64, u32)],
    parts: &[(u8, u64, u64, u64)],
    jobs: &[(u8, u64, u64, u32, u64)],
) -> Result<(), Fail> {
    let trace = trace_of(alloc, rows)?;
    let link = Link::new(alloc, &trace, 8)?;
    for (takers, from, left, done) in parts {
        assert!(rt; *takers <= 8 && *from < 100 && *left > 0 && *left < 100_000);
        assert_eq!(rt;
            link.lands(*takers, *from, *left),
            *done,
            "{left} from {from}"
        );
    }
    for (takers, from, to, credit, left) in jobs {
        assert!(rt; *takers <= 8 && *from <= *to && *to < 100);
        let job = Job {
            credit: 60_000_000,
            left: 9000,
        };
        let wanted = Job {
            credit: *credit,
            left: *left,
        };
        assert_eq!(rt;
            link.advance(*takers, job, *from, *to),
            wanted,
            "from {from} to {to}"
        );
    }
    Ok(())
}

#[test]
fn shares_millisecond_by_millisecond(rt: HostRuntime) -> Result<(), Fail> {
    let alloc = rt.alloc();
    shares_agree(
        &rt,
        alloc,
        &[(3, 1_500, 8), (2, 0, 3), (4, 7_000, 5), (1, 999, 0)],
        &[
            (0, 4, 7_000, 6),
            (0, 9, 6_000, 16),
            (1, 1, 3_000, 3),
            (1, 6, 3_000, 7),
            (2, 1, 8_000, 7),
            (2, 5, 3_000, 6),
            (3, 0, 7_000, 8),
            (3, 7, 9_000, 17),
            (4, 4, 3_000, 7),
            (4, 10, 9_000, 22),
            (5, 4, 7_000, 16),
            (5, 11, 7_000, 23),
            (6, 3, 7_000, 17),
            (6, 15, 1_000, 16),
            (7, 1, 3_000, 8),
            (7, 12, 2_000, 17),
            (8, 0, 1_000, 6),
            (8, 6, 3_000, 12),
        ],
        &[
            (0, 12, 16, 0, 2_000),
            (0, 12, 31, 0, 0),
            (1, 7, 15, 0, 3_501),
            (1, 7, 26, 0, 0),
            (2, 8, 13, 0, 6_251),
            (2, 8, 27, 0, 0),
            (3, 11, 18, 0, 2_001),
            (3, 11, 30, 0, 0),
            (4, 1, 7, 0, 5_500),
            (4, 1, 20, 0, 0),
            (5, 12, 15, 0, 9_000),
            (5, 12, 31, 0, 0),
            (6, 6, 9, 0, 9_000),
            (6, 6, 25, 0, 2_504),
            (7, 10, 17, 0, 7_000),
            (7, 10, 29, 0, 216),
            (8, 3, 8, 0, 6_375),
            (8, 3, 22, 0, 817),
        ],
    )?;
    shares_agree(
        &rt,
        alloc,
        &[(7, 999, 9), (1, 1_007, 0)],
        &[
            (0, 4, 2_000, 7),
            (0, 5, 4_000, 9),
            (1, 2, 6_000, 8),
            (1, 10, 8_000, 18),
            (2, 3, 8_000, 20),
            (2, 12, 8_000, 29),
            (3, 1, 6_000, 20),
            (3, 6, 5_000, 22),
            (4, 1, 1_000, 6),
            (4, 13, 4_000, 30),
            (5, 4, 9_000, 50),
            (5, 5, 5_000, 31),
            (6, 2, 6_000, 39),
            (6, 13, 3_000, 32),
            (7, 1, 9_000, 65),
            (7, 13, 9_000, 77),
            (8, 1, 4_000, 34),
            (8, 14, 4_000, 47),
        ],
        &[
            (0, 12, 16, 0, 7_993),
            (0, 12, 31, 0, 0),
            (1, 3, 6, 26_666_664, 9_000),
            (1, 3, 22, 0, 0),
            (2, 9, 12, 26_666_664, 9_000),
            (2, 9, 28, 0, 2_505),
            (3, 15, 24, 0, 5_999),
            (3, 15, 34, 0, 2_667),
            (4, 11, 15, 15_555_552, 9_000),
            (4, 11, 30, 0, 5_261),
            (5, 2, 10, 0, 8_401),
            (5, 2, 21, 0, 6_210),
            (6, 11, 20, 0, 8_169),
            (6, 11, 30, 0, 6_508),
            (7, 10, 18, 0, 8_573),
            (7, 10, 29, 0, 7_010),
            (8, 12, 20, 0, 8_379),
            (8, 12, 31, 0, 7_014),
        ],
    )?;
    Ok(())
}

#[test]
fn least_share(rt: HostRuntime) -> Result<(), Fail> {
    let alloc = rt.alloc();
    let trace = trace_of(alloc, &[(7, 999, 0), (1, 1007, 0)])?;
    let link = Link::new(alloc, &trace, 8)?;
    assert_eq!(rt; link.lands(8, 0, 200_000_000_000), 1_611_278_953);
    Ok(())
}
