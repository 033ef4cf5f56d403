//! Worked examples of several players on one link, and short joint sessions, with answers from outside.

use crate::{Joint, MOST_PLAYERS, play_shared};
use lab_model::{Manifest, Period, Rule, Setup, Trace, Weights};
use player_core::{Event, Listed};
use std::alloc::Global;
use std::process::Abort;
use std::test::Fail;

/// What a joint session is played on, and what it shows.
#[derive(Clone, Copy)]
struct Case {
    seg_ms: u32,
    bitrates: &'static [u32],
    /// Segment by segment, and in each rung by rung.
    sizes: &'static [u32],
    /// Milliseconds, thousandths of a kbps, and latency.
    periods: &'static [(u32, u64, u32)],
    buffer_ms: u32,
    /// For each player a rung for each segment.
    rungs: &'static [&'static [u8]],
    /// Each player's events, and then startup, stall and stalls.
    text: &'static str,
}

const CASES: [Case; 6] = [
    // two-equal-players
    Case {
        seg_ms: 1000,
        bitrates: &[1000, 2000],
        sizes: &[
            1_000_000, 2_000_000, 1_000_000, 2_000_000, 1_000_000, 2_000_000,
        ],
        periods: &[(60_000, 2_000_000, 0)],
        buffer_ms: 10_000,
        rungs: &[&[1, 1, 1], &[1, 1, 1]],
        text: "0r1 2000a0:1000000 2000r1 2000p0 3000s 4000a2000:1000000 4000r1 4000p1 5000s \
            6000a4000:1000000 6000p2 7000e 2000 2000 2|0r1 2000a0:1000000 2000r1 2000p0 3000s \
            4000a2000:1000000 4000r1 4000p1 5000s 6000a4000:1000000 6000p2 7000e 2000 2000 2|",
    },
    // two-unequal-players
    Case {
        seg_ms: 1000,
        bitrates: &[1000, 2000],
        sizes: &[
            1_000_000, 2_000_000, 1_000_000, 2_000_000, 1_000_000, 2_000_000,
        ],
        periods: &[(60_000, 2_000_000, 0)],
        buffer_ms: 10_000,
        rungs: &[&[0, 0, 0], &[1, 1, 1]],
        text: "0r0 1000a0:1000000 1000r0 1000p0 2000a1000:1000000 2000r0 2000p1 3000a2000:1000000 \
            3000p2 4000e 1000 0 0|0r1 2000a0:1000000 2000r1 2000p0 3000s 3500a2000:1333333 \
            3500r1 3500p1 4500a3500:2000000 4500p2 5500e 2000 500 1|",
    },
    // one player on a link with latency
    Case {
        seg_ms: 1000,
        bitrates: &[1000, 2000],
        sizes: &[
            1_000_000, 2_000_000, 1_000_000, 2_000_000, 1_000_000, 2_000_000,
        ],
        periods: &[(900, 2_000_000, 70), (350, 0, 10), (800, 3_000_000, 0)],
        buffer_ms: 2000,
        rungs: &[&[1, 0, 1]],
        text: "0r1 1364a70:1545595 1364r0 1364p0 1698a1364:2994011 2364r1 2364p1 3364s \
            3623a2434:1682085 3623p2 4623e 1364 259 1|",
    },
    // three players, full buffers, latency and dead periods
    Case {
        seg_ms: 800,
        bitrates: &[1000, 2000],
        sizes: &[300_001, 900_007, 400_003, 1_000_009, 350_011, 800_013],
        periods: &[
            (700, 4_500_001, 40),
            (300, 0, 150),
            (500, 9_000_000, 0),
            (400, 2_500_003, 60),
        ],
        buffer_ms: 1200,
        rungs: &[&[0, 1, 0], &[1, 1, 0], &[0, 0, 0]],
        text: "0r0 241a40:1492542 241p0 641r1 1041s 1253a681:1748267 1253p1 1653r0 \
            1955a1713:1446326 2053p2 2853e 241 212 1|0r1 375a40:2686588 375p0 775r1 1175s \
            1258a925:3003030 1258p1 1658r0 1957a1718:1464481 2058p2 2858e 375 83 1|0r0 \
            241a40:1492542 241p0 641r0 1041s 1120a681:911168 1120p1 1520r0 1732a1580:2302703 \
            1920p2 2720e 241 79 1|",
    },
    // eight players
    Case {
        seg_ms: 500,
        bitrates: &[1000, 2000],
        sizes: &[30_001, 90_007, 40_003, 100_009, 35_011, 80_013],
        periods: &[
            (260, 1_500_001, 40),
            (150, 0, 150),
            (100, 4_000_000, 0),
            (180, 2_500_003, 60),
        ],
        buffer_ms: 900,
        rungs: &[
            &[0, 1, 0],
            &[0, 1, 0],
            &[1, 0, 0],
            &[1, 1, 1],
            &[0, 0, 0],
            &[0, 0, 0],
            &[1, 0, 1],
            &[0, 0, 1],
        ],
        text: "0r0 201a40:186341 201p0 301r1 515a410:952466 701p1 801r0 1105a841:132617 1201p2 \
            1701e 201 0 0|0r0 201a40:186341 201p0 301r1 515a410:952466 701p1 801r0 \
            1105a841:132617 1201p2 1701e 201 0 0|0r1 471a40:208832 471p0 571r0 680a631:816387 \
            971p1 1071r0 1138a1100:921342 1471p2 1971e 471 0 0|0r1 471a40:208832 471p0 571r1 \
            713a631:1219621 971p1 1071r1 1164a1100:1250203 1471p2 1971e 471 0 0|0r0 \
            201a40:186341 201p0 301r0 483a410:547986 701p1 801r0 1105a841:132617 1201p2 1701e \
            201 0 0|0r0 201a40:186341 201p0 301r0 483a410:547986 701p1 801r0 1105a841:132617 \
            1201p2 1701e 201 0 0|0r1 471a40:208832 471p0 571r0 680a631:816387 971p1 1071r1 \
            1164a1100:1250203 1471p2 1971e 471 0 0|0r0 201a40:186341 201p0 301r0 483a410:547986 \
            701p1 801r1 1147a841:261480 1201p2 1701e 201 0 0|",
    },
    // a day of eight players
    Case {
        seg_ms: 60_000,
        bitrates: &[1000, 2000],
        sizes: &[100_000_000, 150_000_000, 100_000_000, 150_000_000],
        periods: &[
            (9_999_999, 0, 9000),
            (9_999_998, 2100, 10_000),
            (9_999_999, 999, 5000),
            (9_999_999, 1003, 0),
        ],
        buffer_ms: 60_000,
        rungs: &[
            &[0, 1],
            &[0, 1],
            &[0, 1],
            &[1, 1],
            &[1, 1],
            &[0, 0],
            &[0, 0],
            &[0, 0],
        ],
        text: "0r0 782338735a9000:127 782338735p0 782398735r1 782398735s 1814764702a782403735:145 \
            1814764702p1 1814824702e 782338735 1032365967 1|0r0 782338735a9000:127 782338735p0 \
            782398735r1 782398735s 1814764702a782403735:145 1814764702p1 1814824702e 782338735 \
            1032365967 1|0r0 782338735a9000:127 782338735p0 782398735r1 782398735s \
            1814764702a782403735:145 1814764702p1 1814824702e 782338735 1032365967 1|0r1 \
            1176815303a9000:127 1176815303p0 1176875303r1 1176875303s 1907004267a1176885303:205 \
            1907004267p1 1907064267e 1176815303 730128964 1|0r1 1176815303a9000:127 \
            1176815303p0 1176875303r1 1176875303s 1907004267a1176885303:205 1907004267p1 \
            1907064267e 1176815303 730128964 1|0r0 782338735a9000:127 782338735p0 782398735r0 \
            782398735s 1572717095a782403735:126 1572717095p1 1572777095e 782338735 790318360 1|\
            0r0 782338735a9000:127 782338735p0 782398735r0 782398735s 1572717095a782403735:126 \
            1572717095p1 1572777095e 782338735 790318360 1|0r0 782338735a9000:127 782338735p0 \
            782398735r0 782398735s 1572717095a782403735:126 1572717095p1 1572777095e 782338735 \
            790318360 1|",
    },
];

fn film(alloc: Global, case: &Case) -> Result<Manifest, Fail> {
    let bitrates = case.bitrates.to_vec(alloc)?;
    let sizes = case.sizes.to_vec(alloc)?;
    Ok(Manifest::from_parts(case.seg_ms, bitrates, sizes).ok_or("not a film")?)
}

fn trace(alloc: Global, case: &Case) -> Result<Trace, Fail> {
    let mut periods = Vec::new(alloc);
    for (duration_ms, bandwidth, latency) in case.periods {
        periods.push(Period {
            duration_ms: *duration_ms,
            bandwidth: *bandwidth,
            latency: *latency,
        })?;
    }
    Ok(Trace::from_parts(periods).ok_or("not a trace")?)
}

/// A setup in which only stalls weigh.
fn setup(alloc: Global, case: &Case) -> Result<Setup, Fail> {
    let utilities = Vec::from_elem(alloc, 0, case.bitrates.len())?;
    Ok(Setup {
        buffer_ms: case.buffer_ms,
        weights: Weights::from_parts(utilities, 0, 100, 1).ok_or("no weights")?,
        abandon: false,
    })
}

/// The rule of each player.
fn rules(alloc: Global, case: &Case) -> Result<Vec<Listed>, Fail> {
    let mut rules = Vec::new(alloc);
    for rungs in case.rungs {
        rules.push(Listed::new(rungs.to_vec(alloc)?))?;
    }
    Ok(rules)
}

/// The joint session of a case.
fn joint(rt: &impl Abort, alloc: Global, case: &Case) -> Result<Joint, Fail> {
    let m = film(alloc, case)?;
    let trace = trace(alloc, case)?;
    let set = setup(alloc, case)?;
    let rules = rules(alloc, case)?;
    assert!(rt; set.fits(&m) && !set.abandon);
    assert!(rt; !rules.is_empty() && rules.len() <= MOST_PLAYERS);
    assert!(rt; rules.iter().all(|rule| rule.fits(&m)));
    Ok(play_shared(alloc, &m, &trace, &set, rules)?)
}

fn text_of(alloc: Global, event: Event) -> Result<String, Fail> {
    Ok(match event {
        Event::Request {
            at,
            segment: _,
            rung,
        } => format!(in alloc; "{at}r{rung} ")?,
        Event::Arrive {
            at,
            segment: _,
            rung: _,
            first,
            rate,
        } => format!(in alloc; "{at}a{first}:{rate} ")?,
        Event::Play {
            at,
            segment,
            rung: _,
        } => format!(in alloc; "{at}p{segment} ")?,
        Event::Stall { at } => format!(in alloc; "{at}s ")?,
        Event::End { at } => format!(in alloc; "{at}e ")?,
        Event::Abandon { .. } | Event::Seek { .. } => return Err(Fail::from(
            "not on a shared link",
        )),
    })
}

fn joint_text(alloc: Global, joint: &Joint) -> Result<String, Fail> {
    let mut text = String::new(alloc);
    for session in &joint.sessions {
        for event in &session.events {
            text.push_str(&text_of(alloc, *event)?)?;
        }
        let (startup, stall, stalls) = (session.startup_ms, session.stall_ms, session.stalls);
        text.push_str(&format!(in alloc; "{startup} {stall} {stalls}|")?)?;
    }
    Ok(text)
}

#[test]
fn joint_sessions(rt: HostRuntime) -> Result<(), Fail> {
    let alloc = rt.alloc();
    for case in &CASES {
        let events = joint(&rt, alloc, case)?;
        assert_eq!(rt; joint_text(alloc, &events)?.as_str(), case.text);
    }
    Ok(())
}
