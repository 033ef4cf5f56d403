use super::json::read_trace_json;
use lab_model::{InputFault, Key, Kind, Refusal, Trace};
use std::alloc::Global;
use std::process::Abort;
use std::test::Fail;

/// JSON texts, and the first fault of each.
const REFUSED: [(&str, Kind, Key, u32, u32); 24] = [
    ("", Kind::NotJson, Key::Whole, 0, 0),
    ("{}", Kind::WrongKind, Key::Whole, 0, 0),
    ("[{}", Kind::NotJson, Key::Whole, 0, 0),
    ("[]", Kind::Empty, Key::Whole, 0, 0),
    ("[[]]", Kind::WrongKind, Key::Period, 1, 0),
    ("[{}]", Kind::MissingKey, Key::Duration, 1, 0),
    ("[{\"latency_ms\":1e400}]", Kind::NotJson, Key::Whole, 0, 0),
    (
        "[{\"duration_ms\":10,\"bandwidth_kbps\":2000,\"latency_ms\":5},{\"bandwidth_kbps\":1,\"latency_ms\":1}]",
        Kind::MissingKey,
        Key::Duration,
        2,
        0,
    ),
    (
        "[{\"duration_ms\":1,\"latency_ms\":1}]",
        Kind::MissingKey,
        Key::Bandwidth,
        1,
        0,
    ),
    (
        "[{\"duration_ms\":10,\"bandwidth_kbps\":2000,\"latency_ms\":5},{\"duration_ms\":1,\"bandwidth_kbps\":1}]",
        Kind::MissingKey,
        Key::Latency,
        2,
        0,
    ),
    (
        "[{\"duration_ms\":0,\"bandwidth_kbps\":\"x\"}]",
        Kind::OutOfRange,
        Key::Duration,
        1,
        0,
    ),
    (
        "[{\"duration_ms\":\"x\",\"bandwidth_kbps\":2000,\"latency_ms\":5}]",
        Kind::WrongKind,
        Key::Duration,
        1,
        0,
    ),
    (
        "[{\"duration_ms\":10000001,\"bandwidth_kbps\":2000,\"latency_ms\":5}]",
        Kind::OutOfRange,
        Key::Duration,
        1,
        0,
    ),
    (
        "[{\"duration_ms\":1.5,\"bandwidth_kbps\":2000,\"latency_ms\":5}]",
        Kind::NotWhole,
        Key::Duration,
        1,
        0,
    ),
    (
        "[{\"duration_ms\":10,\"bandwidth_kbps\":-1,\"latency_ms\":5}]",
        Kind::OutOfRange,
        Key::Bandwidth,
        1,
        0,
    ),
    (
        "[{\"duration_ms\":10,\"bandwidth_kbps\":10000001,\"latency_ms\":5}]",
        Kind::OutOfRange,
        Key::Bandwidth,
        1,
        0,
    ),
    (
        "[{\"duration_ms\":10,\"bandwidth_kbps\":2000.5,\"latency_ms\":5}]",
        Kind::NotWhole,
        Key::Bandwidth,
        1,
        0,
    ),
    (
        "[{\"duration_ms\":10,\"bandwidth_kbps\":[],\"latency_ms\":5}]",
        Kind::WrongKind,
        Key::Bandwidth,
        1,
        0,
    ),
    (
        "[{\"duration_ms\":10,\"bandwidth_kbps\":2000,\"latency_ms\":5},{\"duration_ms\":10,\"bandwidth_kbps\":2000,\"latency_ms\":10001}]",
        Kind::OutOfRange,
        Key::Latency,
        2,
        0,
    ),
    (
        "[{\"duration_ms\":10,\"bandwidth_kbps\":2000,\"latency_ms\":1e2}]",
        Kind::NotWhole,
        Key::Latency,
        1,
        0,
    ),
    (
        "[{\"duration_ms\":10,\"bandwidth_kbps\":2000,\"latency_ms\":null}]",
        Kind::WrongKind,
        Key::Latency,
        1,
        0,
    ),
    (
        "[{\"duration_ms\":10000000,\"bandwidth_kbps\":2000,\"latency_ms\":5},{\"duration_ms\":10000000,\"bandwidth_kbps\":2000,\"latency_ms\":5},{\"duration_ms\":10000000,\"bandwidth_kbps\":2000,\"latency_ms\":5},{\"duration_ms\":10000000,\"bandwidth_kbps\":2000,\"latency_ms\":5},{\"duration_ms\":10000000,\"bandwidth_kbps\":2000,\"latency_ms\":5},{\"duration_ms\":10000000,\"bandwidth_kbps\":2000,\"latency_ms\":5},{\"duration_ms\":10000000,\"bandwidth_kbps\":2000,\"latency_ms\":5},{\"duration_ms\":10000000,\"bandwidth_kbps\":2000,\"latency_ms\":5},{\"duration_ms\":10000000,\"bandwidth_kbps\":2000,\"latency_ms\":5},{\"duration_ms\":10000000,\"bandwidth_kbps\":2000,\"latency_ms\":5},{\"duration_ms\":1,\"bandwidth_kbps\":2000,\"latency_ms\":5}]",
        Kind::OutOfRange,
        Key::Cycle,
        0,
        0,
    ),
    (
        "[{\"duration_ms\":11,\"bandwidth_kbps\":0,\"latency_ms\":0},{\"duration_ms\":10,\"bandwidth_kbps\":2,\"latency_ms\":0}]",
        Kind::TooSlow,
        Key::Cycle,
        0,
        0,
    ),
    (
        "[{\"duration_ms\":10,\"bandwidth_kbps\":0,\"latency_ms\":10}]",
        Kind::TooSlow,
        Key::Cycle,
        0,
        0,
    ),
];

const SMALL: &str =
    "[{\"duration_ms\":10,\"bandwidth_kbps\":0,\"latency_ms\":10000,\"note\":null},{\"latency_ms\":0,\"duration_ms\":10,\"bandwidth_kbps\":2}]\n";

fn refusal_of(rt: &impl Abort, answer: &Result<Trace, InputFault>) -> Refusal {
    match answer {
        Err(InputFault::Refused(refusal)) => *refusal,
        _ => panic!(rt; "no refusal"),
    }
}

fn whole(kind: Kind) -> Refusal {
    Refusal {
        kind,
        key: Key::Whole,
        row: 0,
        column: 0,
    }
}

#[test]
fn bad_json_traces(rt: HostRuntime) -> Result<(), Fail> {
    for (text, kind, key, row, column) in REFUSED {
        let refusal = refusal_of(&rt, &read_trace_json(rt.alloc(), text.as_bytes()));
        let wanted = Refusal {
            kind,
            key,
            row,
            column,
        };
        assert_eq!(rt; refusal, wanted, "{text}");
    }
    Ok(())
}

#[test]
fn truncated_json_traces(rt: HostRuntime) -> Result<(), Fail> {
    let bytes = SMALL.as_bytes();
    for (k, byte) in bytes.iter().enumerate() {
        let answer = read_trace_json(rt.alloc(), &bytes[..k]);
        if k + 1 < bytes.len() {
            assert_eq!(rt;
                refusal_of(&rt, &answer),
                whole(Kind::NotJson),
                "before {byte} at {k}"
            );
        } else {
            assert!(rt; answer.is_ok());
        }
    }
    Ok(())
}

/// The dead period is ten milliseconds long, and the mean of the cycle is one bit a millisecond.
#[test]
fn dead_period(rt: HostRuntime) -> Result<(), Fail> {
    let trace = read_trace_json(rt.alloc(), SMALL.as_bytes()).expect(&rt, "a trace");
    let periods = trace.periods();
    assert_eq!(rt; periods.len(), 2);
    assert_eq!(rt; [periods[0].duration_ms, periods[1].duration_ms], [10, 10]);
    assert_eq!(rt; [periods[0].bandwidth, periods[1].bandwidth], [0, 2000]);
    assert_eq!(rt; [periods[0].latency, periods[1].latency], [10_000, 0]);
    Ok(())
}

/// A trace of so many periods with the most bandwidth.
fn great(alloc: Global, periods: u32) -> Result<String, Fail> {
    let mut text = String::new(alloc);
    text.push('[')?;
    for period in 0..periods {
        if period > 0 {
            text.push(',')?;
        }
        text.push_str("{\"duration_ms\":1000,\"bandwidth_kbps\":10000000,\"latency_ms\":10000}")?;
    }
    text.push(']')?;
    Ok(text)
}

#[test]
fn great_json_traces(rt: HostRuntime) -> Result<(), Fail> {
    let text = great(rt.alloc(), 100_000)?;
    let trace = read_trace_json(rt.alloc(), text.as_bytes()).expect(&rt, "a trace");
    assert_eq!(rt; trace.periods().len(), 100_000);
    let more = great(rt.alloc(), 100_001)?;
    let answer = read_trace_json(rt.alloc(), more.as_bytes());
    assert_eq!(rt; refusal_of(&rt, &answer), whole(Kind::OutOfRange));
    Ok(())
}
