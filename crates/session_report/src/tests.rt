// What is printed of sessions, by the rules of the text.
ghost use Rattle.std.specs.Prelude.{◌≡◌, ◌∷◌, [], IfOk};
ghost use Rattle.lab_model.specs.Weighing.{weighing};

use crate::{Top, Total, compare_row, regret_row, total_row, write_session};
use lab_io::SureSink;
use lab_model::{Played, Weights};
use player_core::{Event, Session};
use std::alloc::Global;
use std::test::Fail;

// Utilities 0 and 10, and a weight of 100 for stalls and of 1 for startup.
fn weights(alloc: Global) -> Result<Weights, Fail>
    ensures { IfOk result (λ w. w ≡ weighing (0 ∷ 10 ∷ []) 0 100 1) }
{
    match Weights::from_parts(vec![in alloc; 0, 10]?, 0, 100, 1) {
        Some(w) => Ok(w),
        None => Err(Fail::new("no weights")),
    }
}

// Three segments, each of which arrives when it is needed.
fn steady_events(alloc: Global) -> Result<Vec<Event>, Fail> {
    let mut events = Vec::new(alloc);
    let rung = 1;
    for segment in 0..3u16 {
        let first = 1000 * segment as u64;
        let at = first + 1000;
        events.push(Event::Request {
            at: first,
            segment,
            rung,
        })?;
        events.push(Event::Arrive {
            at,
            segment,
            rung,
            first,
            rate: 2000000,
        })?;
        events.push(Event::Play { at, segment, rung })?;
    }
    events.push(Event::End { at: 4000 })?;
    Ok(events)
}

#[test]
fn a_steady_session(rt: HostRuntime) -> Result<(), Fail> {
    let alloc = rt.alloc();
    let played = vec![in alloc;
        Played {
            segment: 0,
            rung: 1
        },
        Played {
            segment: 1,
            rung: 1
        },
        Played {
            segment: 2,
            rung: 1
        },
    ]?;
    let session = Session {
        events: steady_events(alloc)?,
        played,
        startup_ms: 1000,
        stall_ms: 0,
        seek_ms: 0,
        stalls: 0,
        wasted_bits: 0,
        end: 4000,
    };
    let weights = weights(alloc)?;
    let mut out = SureSink::new(alloc);
    write_session(&session, &weights, &mut out)?;
    compare_row("fixed:1", &session, &weights, &mut out)?;
    let text = "0 request 0 1\n1000 arrive 0 1 first 0 rate 2000000\n1000 play 0 1\n\
        1000 request 1 1\n2000 arrive 1 1 first 1000 rate 2000000\n2000 play 1 1\n\
        2000 request 2 1\n3000 arrive 2 1 first 2000 rate 2000000\n3000 play 2 1\n4000 end\n\
        startup 1000\nstall 0\nstalls 0\nseeking 0\nwasted 0\nend 4000\nscore 29000\n\
        rule fixed:1 startup 1000 stall 0 stalls 0 seeking 0 wasted 0 end 4000 score 29000\n";
    assert_eq!(rt; out.written(), text.as_bytes());
    Ok(())
}

#[test]
fn the_other_events(rt: HostRuntime) -> Result<(), Fail> {
    let alloc = rt.alloc();
    let events = vec![in alloc;
        Event::Abandon {
            at: 500,
            segment: 0,
            rung: 1,
            to: 0,
            got: 100000
        },
        Event::Stall { at: 6500 },
        Event::Seek {
            at: 7000,
            to: 2,
            wasted: 200000
        },
    ]?;
    let session = Session {
        events,
        played: Vec::new(alloc),
        startup_ms: 5500,
        stall_ms: 9000,
        seek_ms: 70,
        stalls: 2,
        wasted_bits: 300000,
        end: 17500,
    };
    let mut out = SureSink::new(alloc);
    write_session(&session, &weights(alloc)?, &mut out)?;
    let text = "500 abandon 0 1 to 0 got 100000\n6500 stall\n7000 seek 2 wasted 200000\n\
        startup 5500\nstall 9000\nstalls 2\nseeking 70\nwasted 300000\nend 17500\nscore -905500\n";
    assert_eq!(rt; out.written(), text.as_bytes());
    Ok(())
}

#[test]
fn a_regret_table(rt: HostRuntime) -> Result<(), Fail> {
    let mut out = SureSink::new(rt.alloc());
    let mut total = Total::start();
    regret_row("fixed:0", -500, 29000, &mut out)?;
    total.add(-500, 29000);
    regret_row("fixed:0", -202000, -194000, &mut out)?;
    total.add(-202000, -194000);
    total_row("fixed:0", &total, &mut out)?;
    Top::Bound.put_row("fixed:0", -500, 29000, &mut out)?;
    Top::Bound.put_total("fixed:0", &total, &mut out)?;
    let text = "rule fixed:0 score -500 best 29000 regret 29500\n\
        rule fixed:0 score -202000 best -194000 regret 8000\n\
        total fixed:0 score -202500 best -165000 regret 37500 worst 29500\n\
        rule fixed:0 score -500 bound 29000 regret 29500\n\
        total fixed:0 score -202500 bound -165000 regret 37500 worst 29500\n";
    assert_eq!(rt; out.written(), text.as_bytes());
    assert_eq!(rt; total.count, 2);
    Ok(())
}
