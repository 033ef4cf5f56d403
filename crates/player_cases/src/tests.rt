//! Worked examples of the player, and short sessions, with answers from outside.

mod long;
mod short;

use lab_model::{
    ALL_AHEAD_MS, Ahead, Context, Manifest, Period, Rule, Seek, Setup, Trace, Weights,
};
use network_clock::Clock;
use player_core::{Event, Fixed, Listed, Scene, Session, available, play, play_from, seeks_fit};
use short::SHORT;
use std::alloc::Global;
use std::process::Abort;
use std::test::Fail;

/// What a session is played on, and what it shows.
#[derive(Clone, Copy)]
struct Case {
    seg_ms: u32,
    bitrates: &'static [u32],
    /// Segment by segment, and in each rung by rung.
    sizes: &'static [u32],
    /// Milliseconds, thousandths of a kbps, and latency.
    periods: &'static [(u32, u64, u32)],
    buffer_ms: u32,
    abandon: bool,
    seeks: &'static [(u64, u16)],
    ahead: u32,
    /// The rung throughout, or one for each segment.
    rungs: &'static [u8],
    /// Startup, stall, stalls, seeking, wasted bits and end.
    counters: [u64; 6],
    /// The events, each closed by a bar.
    lines: &'static str,
}

/// All media of any film is there at instant 0.
const ON_DEMAND: u32 = ALL_AHEAD_MS;

/// Three segments of a second, on rungs of 1000 and 2000 kbps, over a steady link of 2000 kbps, all on the upper rung.
const THREE_SECONDS: Case = Case {
    seg_ms: 1000,
    bitrates: &[1000, 2000],
    sizes: &[
        1_000_000, 2_000_000, 1_000_000, 2_000_000, 1_000_000, 2_000_000,
    ],
    periods: &[(60_000, 2_000_000, 0)],
    buffer_ms: 10_000,
    abandon: false,
    seeks: &[],
    ahead: ON_DEMAND,
    rungs: &[1],
    counters: [1000, 0, 0, 0, 0, 4000],
    lines: "0 request 0 1|1000 arrive 0 1 first 0 rate 2000000|1000 request 1 1|1000 play 0 1|\
        2000 arrive 1 1 first 1000 rate 2000000|2000 request 2 1|2000 play 1 1|\
        3000 arrive 2 1 first 2000 rate 2000000|3000 play 2 1|4000 end|",
};

const WORKED: [Case; 7] = [
    // steady-link
    THREE_SECONDS,
    // small-buffer
    Case {
        buffer_ms: 2000,
        rungs: &[0],
        counters: [500, 0, 0, 0, 0, 3500],
        lines: "0 request 0 0|500 arrive 0 0 first 0 rate 2000000|500 request 1 0|500 play 0 0|\
            1000 arrive 1 0 first 500 rate 2000000|1500 request 2 0|1500 play 1 0|\
            2000 arrive 2 0 first 1500 rate 2000000|2500 play 2 0|3500 end|",
        ..THREE_SECONDS
    },
    // slow-link
    Case {
        periods: &[(60_000, 500_000, 0)],
        counters: [4000, 6000, 2, 0, 0, 13_000],
        lines: "0 request 0 1|4000 arrive 0 1 first 0 rate 500000|4000 request 1 1|4000 play 0 1|\
            5000 stall|8000 arrive 1 1 first 4000 rate 500000|8000 request 2 1|8000 play 1 1|\
            9000 stall|12000 arrive 2 1 first 8000 rate 500000|12000 play 2 1|13000 end|",
        ..THREE_SECONDS
    },
    // seek-ahead
    Case {
        seeks: &[(1000, 2)],
        counters: [1000, 0, 0, 1000, 2_000_000, 3000],
        lines: "0 request 0 1|1000 arrive 0 1 first 0 rate 2000000|1000 seek 2 wasted 2000000|\
            1000 request 2 1|2000 arrive 2 1 first 1000 rate 2000000|2000 play 2 1|3000 end|",
        ..THREE_SECONDS
    },
    // seek-after-the-end
    Case {
        seeks: &[(4000, 0)],
        ..THREE_SECONDS
    },
    // abandoned-downloads
    Case {
        periods: &[(60_000, 200_000, 0)],
        abandon: true,
        counters: [5500, 9000, 2, 0, 300_000, 17_500],
        lines: "0 request 0 1|500 abandon 0 1 to 0 got 100000|500 request 0 0|\
            5500 arrive 0 0 first 500 rate 200000|5500 request 1 1|5500 play 0 0|\
            6000 abandon 1 1 to 0 got 100000|6000 request 1 0|6500 stall|\
            11000 arrive 1 0 first 6000 rate 200000|11000 request 2 1|11000 play 1 0|\
            11500 abandon 2 1 to 0 got 100000|11500 request 2 0|12000 stall|\
            16500 arrive 2 0 first 11500 rate 200000|16500 play 2 0|17500 end|",
        ..THREE_SECONDS
    },
    // smallest-input
    Case {
        seg_ms: 1,
        bitrates: &[1],
        sizes: &[1],
        periods: &[(1, 1000, 0)],
        buffer_ms: 1,
        rungs: &[0],
        counters: [1, 0, 0, 0, 0, 2],
        lines: "0 request 0 0|1 arrive 0 0 first 0 rate 1000|1 play 0 0|2 end|",
        ..THREE_SECONDS
    },
];

fn film(alloc: Global, case: &Case) -> Result<Manifest, Fail> {
    let bitrates = case.bitrates.to_vec(alloc)?;
    let sizes = case.sizes.to_vec(alloc)?;
    Ok(Manifest::from_parts(case.seg_ms, bitrates, sizes).ok_or("not a film")?)
}

fn clock(alloc: Global, case: &Case) -> Result<Clock, Fail> {
    let mut periods = Vec::new(alloc);
    for (duration_ms, bandwidth, latency) in case.periods {
        periods.push(Period {
            duration_ms: *duration_ms,
            bandwidth: *bandwidth,
            latency: *latency,
        })?;
    }
    clock_of(alloc, periods)
}

fn clock_of(alloc: Global, periods: Vec<Period>) -> Result<Clock, Fail> {
    let trace = Trace::from_parts(periods).ok_or("not a trace")?;
    Ok(Clock::new(alloc, &trace)?)
}

fn setup(alloc: Global, case: &Case) -> Result<Setup, Fail> {
    setup_of(alloc, case.bitrates.len(), case.buffer_ms, case.abandon)
}

/// A setup for so many rungs, in which only stalls weigh.
fn setup_of(alloc: Global, rungs: usize, buffer_ms: u32, abandon: bool) -> Result<Setup, Fail> {
    let utilities = Vec::from_elem(alloc, 0, rungs)?;
    Ok(Setup {
        buffer_ms,
        weights: Weights::from_parts(utilities, 0, 100, 1).ok_or("no weights")?,
        abandon,
    })
}

fn script(alloc: Global, seeks: &[(u64, u16)]) -> Result<Vec<Seek>, Fail> {
    let mut script = Vec::new(alloc);
    for (at_ms, to) in seeks {
        script.push(Seek {
            at_ms: *at_ms,
            to: *to,
        })?;
    }
    Ok(script)
}

/// The session on demand of one rung throughout.
fn fixed_session(rt: &impl Abort, alloc: Global, case: &Case) -> Result<Session, Fail> {
    let m = film(alloc, case)?;
    let clock = clock(alloc, case)?;
    let set = setup(alloc, case)?;
    let seeks = script(alloc, case.seeks)?;
    assert!(rt; !case.rungs.is_empty());
    let rule = Fixed {
        rung: case.rungs[0],
    };
    assert!(rt; set.fits(&m) && seeks_fit(&seeks, &m) && rule.fits(&m));
    Ok(play(alloc, &m, &clock, &set, &seeks, rule)?)
}

/// The session of a rung for each segment.
fn listed_session(rt: &impl Abort, alloc: Global, case: &Case) -> Result<Session, Fail> {
    let m = film(alloc, case)?;
    let clock = clock(alloc, case)?;
    let set = setup(alloc, case)?;
    let seeks = script(alloc, case.seeks)?;
    let rule = Listed::new(case.rungs.to_vec(alloc)?);
    assert!(rt; set.fits(&m) && seeks_fit(&seeks, &m) && rule.fits(&m));
    let ahead = Ahead::new(case.ahead).ok_or("too much ahead")?;
    let scene = Scene::new(&m, &clock, &set, ahead);
    Ok(play_from(alloc, &scene, &seeks, rule)?)
}

fn line_of(alloc: Global, event: Event) -> Result<String, Fail> {
    Ok(match event {
        Event::Request { at, segment, rung } => {
            format!(in alloc; "{at} request {segment} {rung}|")?
        }
        Event::Arrive {
            at,
            segment,
            rung,
            first,
            rate,
        } => format!(in alloc; "{at} arrive {segment} {rung} first {first} rate {rate}|")?,
        Event::Abandon {
            at,
            segment,
            rung,
            to,
            got,
        } => format!(in alloc; "{at} abandon {segment} {rung} to {to} got {got}|")?,
        Event::Seek { at, to, wasted } => format!(in alloc; "{at} seek {to} wasted {wasted}|")?,
        Event::Play { at, segment, rung } => format!(in alloc; "{at} play {segment} {rung}|")?,
        Event::Stall { at } => format!(in alloc; "{at} stall|")?,
        Event::End { at } => format!(in alloc; "{at} end|")?,
    })
}

/// Startup, stall, stalls, seeking, wasted bits and end.
fn counters(session: &Session) -> [u64; 6] {
    [
        session.startup_ms,
        session.stall_ms,
        session.stalls as u64,
        session.seek_ms,
        session.wasted_bits,
        session.end,
    ]
}

/// The session shows the lines and counters of its case.
fn shows(rt: &impl Abort, alloc: Global, session: &Session, case: &Case) -> Result<(), Fail> {
    let mut lines = String::new(alloc);
    for event in &session.events {
        lines.push_str(&line_of(alloc, *event)?)?;
    }
    assert_eq!(rt; lines.as_str(), case.lines);
    assert_eq!(rt; counters(session), case.counters, "after {lines}");
    Ok(())
}

#[test]
fn worked_examples(rt: HostRuntime) -> Result<(), Fail> {
    let alloc = rt.alloc();
    for case in &WORKED {
        let session = fixed_session(&rt, alloc, case)?;
        shows(&rt, alloc, &session, case)?;
    }
    Ok(())
}

#[test]
fn short_sessions(rt: HostRuntime) -> Result<(), Fail> {
    let alloc = rt.alloc();
    for case in &SHORT {
        let session = listed_session(&rt, alloc, case)?;
        shows(&rt, alloc, &session, case)?;
    }
    Ok(())
}

/// Seek scripts for a film of three segments, and whether they fit.
const SCRIPTS: [(&[(u64, u16)], bool); 7] = [
    (&[], true),
    (&[(0, 0), (1, 2), (1_000_000_000, 0)], true),
    (&[(1_000_000_001, 0)], false),
    (&[(5, 1), (5, 2)], false),
    (&[(6, 1), (5, 2)], false),
    (&[(5, 3)], false),
    (&[(0, 1), (7, 0), (9, 3)], false),
];

#[test]
fn scripts(rt: HostRuntime) -> Result<(), Fail> {
    let alloc = rt.alloc();
    let case = &WORKED[0];
    let m = film(alloc, case)?;
    for (seeks, wanted) in SCRIPTS {
        assert_eq!(rt;
            seeks_fit(&script(alloc, seeks)?, &m),
            wanted,
            "at {seeks:?}"
        );
    }
    let mut most = Vec::new(alloc);
    for at_ms in 0..17u64 {
        assert!(rt; seeks_fit(&most, &m));
        most.push(Seek { at_ms, to: 1 })?;
    }
    assert!(rt; !seeks_fit(&most, &m));
    Ok(())
}

#[test]
fn rules(rt: HostRuntime) -> Result<(), Fail> {
    let alloc = rt.alloc();
    let case = &WORKED[0];
    let m = film(alloc, case)?;
    let set = setup(alloc, case)?;
    assert!(rt; set.fits(&m) && m.segments() == 3);
    let context = Context {
        level: 0,
        next: 1,
        last: None,
    };
    let fixed = Fixed { rung: 1 };
    assert!(rt; fixed.fits(&m));
    assert_eq!(rt; fixed.choose(&m, &set, &context), 1);
    assert!(rt; !Fixed { rung: 2 }.fits(&m));
    let listed = Listed::new(vec![in alloc; 1, 0, 1]?);
    assert!(rt; listed.fits(&m));
    assert_eq!(rt; listed.choose(&m, &set, &context), 0);
    assert!(rt; !Listed::new(vec![in alloc; 1, 0]?).fits(&m));
    assert!(rt; !Listed::new(vec![in alloc; 1, 0, 2]?).fits(&m));
    Ok(())
}

#[test]
fn availability(rt: HostRuntime) -> Result<(), Fail> {
    let m = film(rt.alloc(), &WORKED[0])?;
    for (ahead, segment, wanted) in [
        (0, 0, 1000),
        (0, 2, 3000),
        (999, 0, 1),
        (1000, 0, 0),
        (2500, 1, 0),
        (2500, 2, 500),
        (ON_DEMAND, 2, 0),
    ] {
        assert!(rt; segment < m.segments());
        assert_eq!(rt; available(&m, ahead, segment), wanted);
    }
    Ok(())
}
