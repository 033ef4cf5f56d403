// Texts of sessions, good ones and spoiled ones.
ghost use Rattle.std.specs.Prelude.{◌≡◌, ◌∷◌, [], IfOk};
ghost use Rattle.lab_model.specs.Weighing.{weighing};

use crate::read_sessions;
use lab_io::SureSink;
use lab_model::{InputFault, Key, Kind, Played, Refusal, Weights};
use player_core::{Event, Session};
use session_report::write_session;
use std::alloc::Global;
use std::test::Fail;

/// The lines of a session with all seven events.
const LINES: [&str; 15] = [
    "0 request 0 1\n",
    "500 abandon 0 1 to 0 got 100000\n",
    "500 request 0 0\n",
    "5500 arrive 0 0 first 500 rate 200000\n",
    "5500 play 0 0\n",
    "6500 stall\n",
    "7000 seek 2 wasted 200000\n",
    "17500 end\n",
    "startup 5500\n",
    "stall 9000\n",
    "stalls 2\n",
    "seeking 0\n",
    "wasted 300000\n",
    "end 17500\n",
    "score -905500\n",
];

/// A line of that text, counted from 1, what stands in its place, and the first bad line.
#[rattlefmt::skip]
const BAD_LINES: [(u32, &str, u32); 36] = [
    (1, "0 request 0\n", 1),
    (1, "0  request 0 1\n", 1),
    (1, "0 request 0 1 \n", 1),
    (1, " 0 request 0 1\n", 1),
    (1, "00 request 0 1\n", 1),
    (1, "0 request 00 1\n", 1),
    (1, "0 request 0 1\r\n", 1),
    (1, "-1 request 0 1\n", 1),
    (1, "0 Request 0 1\n", 1),
    (1, "0 request 10000 1\n", 1),
    (1, "0 request 0 100\n", 1),
    (1, "1000000000000000 request 0 1\n", 1),
    (1, "startup 0\n", 2),
    (1, "\n", 1),
    (2, "500 abandon 0 1 to 0 got 1000000000\n", 2),
    (2, "500 abandon 0 1 to 100 got 1\n", 2),
    (2, "500 abandon 0 1 got 1 to 0\n", 2),
    (4, "5500 arrive 0 0 first 500\n", 4),
    (4, "5500 arrive 0 0 first 500 rate 1000000000000000000\n", 4),
    (4, "5500 arrive 0 0 rate 500 first 500\n", 4),
    (5, "5500 play 0\n", 5),
    (6, "6500 stall 1\n", 6),
    (6, "stall\n", 6),
    (7, "7000 seek 10000 wasted 1\n", 7),
    (7, "7000 seek 2\n", 7),
    (8, "17500 ended\n", 8),
    (9, "", 9),
    (9, "startup 1000000000000000\n", 9),
    (10, "stalls 9000\n", 10),
    (11, "stalls 1000000000\n", 11),
    (12, "seeking -1\n", 12),
    (13, "wasted 1000000000000000000\n", 13),
    (14, "17500 end\n", 14),
    (15, "score -0\n", 15),
    (15, "score 1000000000000000000000000\n", 15),
    (15, "score 1\n\n", 16),
];

/// A line of that text, counted from 1, and what may stand in its place.
#[rattlefmt::skip]
const GOOD_LINES: [(u32, &str); 13] = [
    (1, ""),
    (1, "player 1\n"),
    (1, "999999999999999 request 9999 99\n"),
    (1, "0 request 0 1\n0 request 0 1\n"),
    (2, "400000000000 abandon 9999 99 to 99 got 999999999\n"),
    (4, "0 arrive 0 0 first 999999999999999 rate 999999999999999999\n"),
    (6, "0 end\n1 stall\n"),
    (7, "400000000000 seek 0 wasted 999999999999999999\n"),
    (8, ""),
    (9, "startup 999999999999999\n"),
    (11, "stalls 999999999\n"),
    (15, "score -999999999999999999999999\n"),
    (15, "score 0\n"),
];

fn line_refusal(row: u32) -> Result<(), InputFault> {
    Err(InputFault::Refused(Refusal {
        kind: Kind::CertLine,
        key: Key::Line,
        row,
        column: 0,
    }))
}

/// What is refused, if something is.
fn refusal_of(alloc: Global, bytes: &[u8]) -> Result<(), InputFault> {
    read_sessions(alloc, bytes)?;
    Ok(())
}

/// The text of that session with another line.
fn with_line(alloc: Global, row: u32, line: &str) -> Result<String, Fail> {
    let mut text = String::new(alloc);
    for (i, own) in LINES.iter().enumerate() {
        text.push_str(if i + 1 == row as usize { line } else { own })?;
    }
    Ok(text)
}

#[test]
fn bad_lines(rt: HostRuntime) -> Result<(), Fail> {
    let alloc = rt.alloc();
    for (row, line, bad) in BAD_LINES {
        let text = with_line(alloc, row, line)?;
        assert_eq!(rt; refusal_of(alloc, text.as_bytes()), line_refusal(bad));
    }
    Ok(())
}

#[test]
fn good_lines(rt: HostRuntime) -> Result<(), Fail> {
    let alloc = rt.alloc();
    for (row, line) in GOOD_LINES {
        let text = with_line(alloc, row, line)?;
        assert_eq!(rt; refusal_of(alloc, text.as_bytes()), Ok(()));
    }
    Ok(())
}

#[test]
fn each_cut(rt: HostRuntime) -> Result<(), Fail> {
    let alloc = rt.alloc();
    let text = with_line(alloc, 0, "")?;
    let bytes = text.as_bytes();
    let mut row = 1u32;
    for (k, byte) in bytes.iter().enumerate() {
        assert_eq!(rt; refusal_of(alloc, &bytes[..k]), line_refusal(row));
        if *byte == b'\n' {
            row = row.saturating_add(1);
        }
    }
    assert_eq!(rt; refusal_of(alloc, bytes), Ok(()));
    Ok(())
}

#[test]
fn parts_of_a_text(rt: HostRuntime) -> Result<(), Fail> {
    let alloc = rt.alloc();
    let text = with_line(alloc, 0, "")?;
    let read = read_sessions(alloc, text.as_bytes())?;
    assert_eq!(rt; (read.joint, read.sessions.len()), (false, 1));
    for told in &read.sessions {
        let arrival = Event::Arrive {
            at: 5500,
            segment: 0,
            rung: 0,
            first: 500,
            rate: 200000,
        };
        assert_eq!(rt; told.events.len(), 8);
        assert_eq!(rt; told.events.get(3), Some(&arrival));
        assert_eq!(rt; told.events.get(5), Some(&Event::Stall { at: 6500 }));
        let counters = told.counters;
        assert_eq!(rt;
            (counters.startup_ms, counters.stall_ms, counters.stalls),
            (5500, 9000, 2)
        );
        assert_eq!(rt;
            (counters.seek_ms, counters.wasted_bits, counters.end),
            (0, 300000, 17500)
        );
        assert_eq!(rt; counters.score, -905500);
    }
    Ok(())
}

/// The text of so many players, each with the session above.
fn players(alloc: Global, count: u32) -> Result<String, Fail> {
    let mut text = String::new(alloc);
    for i in 0..count {
        let line = format!(in alloc; "player {}\n", i.saturating_add(1))?;
        text.push_str(&line)?;
        for own in LINES {
            text.push_str(own)?;
        }
    }
    Ok(text)
}

#[test]
fn players_in_order(rt: HostRuntime) -> Result<(), Fail> {
    let alloc = rt.alloc();
    for count in 1..9 {
        let text = players(alloc, count)?;
        let read = read_sessions(alloc, text.as_bytes())?;
        assert_eq!(rt; (read.joint, read.sessions.len()), (true, count as usize));
    }
    let nine = players(alloc, 9)?;
    assert_eq!(rt; refusal_of(alloc, nine.as_bytes()), line_refusal(129));
    assert_eq!(rt; refusal_of(alloc, b"player 2\n"), line_refusal(1));
    assert_eq!(rt; refusal_of(alloc, b"player 1\n"), line_refusal(2));
    Ok(())
}

/// The text of a film of three segments, and that of the same film live.
const WORKED: [&str; 2] = [
    "0 request 0 1\n1000 arrive 0 1 first 0 rate 2000000\n1000 request 1 1\n1000 play 0 1\n\
    2000 arrive 1 1 first 1000 rate 2000000\n2000 request 2 1\n2000 play 1 1\n\
    3000 arrive 2 1 first 2000 rate 2000000\n3000 play 2 1\n4000 end\n\
    startup 1000\nstall 0\nstalls 0\nseeking 0\nwasted 0\nend 4000\nscore 29000\n",
    "1000 request 0 1\n2000 arrive 0 1 first 1000 rate 2000000\n2000 request 1 1\n2000 play 0 1\n\
    3000 arrive 1 1 first 2000 rate 2000000\n3000 request 2 1\n3000 play 1 1\n\
    4000 arrive 2 1 first 3000 rate 2000000\n4000 play 2 1\n5000 end\n\
    startup 2000\nstall 0\nstalls 0\nseeking 0\nwasted 0\nend 5000\nscore 28000\n",
];

#[test]
fn worked_sessions(rt: HostRuntime) -> Result<(), Fail> {
    let alloc = rt.alloc();
    let mut startup_ms = 1000u64;
    for text in WORKED {
        let read = read_sessions(alloc, text.as_bytes())?;
        assert_eq!(rt; (read.joint, read.sessions.len()), (false, 1));
        for told in &read.sessions {
            let last = Event::End {
                at: startup_ms.saturating_add(3000),
            };
            assert_eq!(rt; (told.events.len(), told.events.last()), (10, Some(&last)));
            assert_eq!(rt; told.counters.startup_ms, startup_ms);
        }
        startup_ms = startup_ms.saturating_add(1000);
    }
    Ok(())
}

// Utilities 0 and 10, and a weight of 100 for stalls and of 1 for startup.
fn weights(alloc: Global) -> Result<Weights, Fail>
    ensures { IfOk result (λ w. w ≡ weighing (0 ∷ 10 ∷ []) 0 100 1) }
{
    match Weights::from_parts(vec![in alloc; 0, 10]?, 0, 100, 1) {
        Some(w) => Ok(w),
        None => Err(Fail::new("no weights")),
    }
}

#[test]
fn what_was_written(rt: HostRuntime) -> Result<(), Fail> {
    let alloc = rt.alloc();
    let seek = Event::Seek {
        at: 7000,
        to: 2,
        wasted: 200000,
    };
    let session = Session {
        events: vec![in alloc; seek, Event::Stall { at: 7000 }, Event::End { at: 17500 }]?,
        played: vec![in alloc;
            Played {
                segment: 2,
                rung: 1
            },
        ]?,
        startup_ms: 5500,
        stall_ms: 9000,
        seek_ms: 70,
        stalls: 2,
        wasted_bits: 200000,
        end: 17500,
    };
    let mut out = SureSink::new(alloc);
    write_session(&session, &weights(alloc)?, &mut out)?;
    let read = read_sessions(alloc, out.written())?;
    assert_eq!(rt; (read.joint, read.sessions.len()), (false, 1));
    for told in &read.sessions {
        assert_eq!(rt; (told.events.len(), told.events.first()), (3, Some(&seek)));
        let counters = told.counters;
        assert_eq!(rt;
            (counters.startup_ms, counters.stall_ms, counters.stalls),
            (5500, 9000, 2)
        );
        assert_eq!(rt;
            (counters.seek_ms, counters.wasted_bits, counters.end),
            (70, 200000, 17500)
        );
        assert_eq!(rt; counters.score, -895500);
    }
    Ok(())
}
