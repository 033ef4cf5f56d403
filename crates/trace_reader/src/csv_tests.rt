use super::csv_trace::read_trace_csv;
use lab_model::{InputFault, Key, Kind, Refusal, Trace};
use std::alloc::Global;
use std::process::Abort;
use std::test::Fail;

const HEADER: &str = "duration_ms,bandwidth_kbps,latency_ms\n";

/// Texts that fail before their first period, or behind a byte order mark.
const BAD_HEADERS: [(&str, Kind, Key, u32, u32); 8] = [
    ("", Kind::Empty, Key::Whole, 0, 0),
    ("\n\r\n\n", Kind::Empty, Key::Whole, 0, 0),
    (" \n", Kind::Shape, Key::Header, 1, 0),
    (
        "duration_ms,bandwidth_kbps,latency_ms",
        Kind::Empty,
        Key::Whole,
        0,
        0,
    ),
    (
        "bandwidth_kbps,duration_ms,latency_ms\n1,1,1\n",
        Kind::Shape,
        Key::Header,
        1,
        0,
    ),
    (
        "duration_ms,bandwidth_kbps\n1,1\n",
        Kind::Shape,
        Key::Header,
        1,
        0,
    ),
    (
        "Duration_ms,bandwidth_kbps,latency_ms\n1,1,1\n",
        Kind::Shape,
        Key::Header,
        1,
        0,
    ),
    (
        "\u{feff}duration_ms,bandwidth_kbps,latency_ms\n1,1,x\n",
        Kind::WrongKind,
        Key::Latency,
        2,
        3,
    ),
];

/// What stands behind the header of bad traces.
const BAD_PERIODS: [(&str, Kind, Key, u32, u32); 26] = [
    ("5,2000\n", Kind::NotCsv, Key::Period, 2, 0),
    ("5,2000,0,1\n", Kind::NotCsv, Key::Period, 2, 0),
    ("x,2000\n5,5,5\n", Kind::NotCsv, Key::Period, 2, 0),
    ("x,2000,0\n5,2000\n", Kind::WrongKind, Key::Duration, 2, 1),
    ("5,2000,0\n5,2000\n", Kind::NotCsv, Key::Period, 3, 0),
    ("0,2000,0\n", Kind::OutOfRange, Key::Duration, 2, 1),
    ("10000001,2000,0\n", Kind::OutOfRange, Key::Duration, 2, 1),
    (",2000,0\n", Kind::WrongKind, Key::Duration, 2, 1),
    ("1.5,2000,0\n", Kind::NotWhole, Key::Duration, 2, 1),
    ("5,2000.5001,0\n", Kind::NotWhole, Key::Bandwidth, 2, 2),
    ("5,10000000.001,0\n", Kind::OutOfRange, Key::Bandwidth, 2, 2),
    ("5,2000.,0\n", Kind::WrongKind, Key::Bandwidth, 2, 2),
    ("5,.5,0\n", Kind::WrongKind, Key::Bandwidth, 2, 2),
    ("5,1.2.3,0\n", Kind::WrongKind, Key::Bandwidth, 2, 2),
    ("5,-1,0\n", Kind::WrongKind, Key::Bandwidth, 2, 2),
    ("5,+1,0\n", Kind::WrongKind, Key::Bandwidth, 2, 2),
    ("5,1e3,0\n", Kind::WrongKind, Key::Bandwidth, 2, 2),
    ("5,2000,10001\n", Kind::OutOfRange, Key::Latency, 2, 3),
    (
        "5,2000,18446744073709551616\n",
        Kind::OutOfRange,
        Key::Latency,
        2,
        3,
    ),
    ("5,2000,1 0\n", Kind::WrongKind, Key::Latency, 2, 3),
    ("\"5\",\"2000\",\"\"\n", Kind::WrongKind, Key::Latency, 2, 3),
    (
        "5,2000,0\n\"\"\"1\",2,3\n",
        Kind::WrongKind,
        Key::Duration,
        3,
        1,
    ),
    (
        "5,2000,0\r\n6\"0,2,3\r\n",
        Kind::WrongKind,
        Key::Duration,
        3,
        1,
    ),
    (
        "5,2000,0\n\n\n1,x,1\n",
        Kind::WrongKind,
        Key::Bandwidth,
        3,
        2,
    ),
    ("5,0,0\n", Kind::TooSlow, Key::Cycle, 0, 0),
    ("10,0.999,0\n10,1,0\n", Kind::TooSlow, Key::Cycle, 0, 0),
];

fn refusal_of(rt: &impl Abort, answer: &Result<Trace, InputFault>) -> Refusal {
    match answer {
        Err(InputFault::Refused(refusal)) => *refusal,
        _ => panic!(rt; "no refusal"),
    }
}

fn text_of(alloc: Global, rows: &str) -> Result<String, Fail> {
    let mut text = String::new(alloc);
    text.push_str(HEADER)?;
    text.push_str(rows)?;
    Ok(text)
}

fn refusal_at(kind: Kind, key: Key, row: u32, column: u32) -> Refusal {
    Refusal {
        kind,
        key,
        row,
        column,
    }
}

#[test]
fn bad_csv_headers(rt: HostRuntime) -> Result<(), Fail> {
    for (text, kind, key, row, column) in BAD_HEADERS {
        let refusal = refusal_of(&rt, &read_trace_csv(rt.alloc(), text.as_bytes()));
        assert_eq!(rt; refusal, refusal_at(kind, key, row, column), "{text}");
    }
    Ok(())
}

#[test]
fn bad_csv_periods(rt: HostRuntime) -> Result<(), Fail> {
    for (rows, kind, key, row, column) in BAD_PERIODS {
        let text = text_of(rt.alloc(), rows)?;
        let refusal = refusal_of(&rt, &read_trace_csv(rt.alloc(), text.as_bytes()));
        assert_eq!(rt; refusal, refusal_at(kind, key, row, column), "{rows}");
    }
    Ok(())
}

/// Rows behind a header, with the first period's duration, bandwidth in thousandths, and latency.
const GOOD: [(&str, u32, u64, u32); 6] = [
    ("60000,2000,0\n", 60_000, 2_000_000, 0),
    ("60000,2000.5,0", 60_000, 2_000_500, 0),
    ("60000,1999.999,0\n", 60_000, 1_999_999, 0),
    ("\r\n007,\t 2000.05 ,\"10\"\r\n", 7, 2_000_050, 10),
    ("60000,10000000.000,10000\n", 60_000, 10_000_000_000, 10_000),
    ("1,0,0\n1,2,0\n", 1, 0, 0),
];

/// Plain traces, decimal bandwidths, blanks, quotes and the ends of the ranges.
#[test]
fn csv_trace(rt: HostRuntime) -> Result<(), Fail> {
    for (rows, duration_ms, bandwidth, latency) in GOOD {
        let text = text_of(rt.alloc(), rows)?;
        let trace = read_trace_csv(rt.alloc(), text.as_bytes()).expect(&rt, "a trace");
        let period = trace.periods().first().expect(&rt, "a period");
        assert_eq!(rt; period.duration_ms, duration_ms, "{rows}");
        assert_eq!(rt; period.bandwidth, bandwidth, "{rows}");
        assert_eq!(rt; period.latency, latency, "{rows}");
    }
    Ok(())
}

/// The fault of the first bytes of a trace, from so many on; from 50 on they are a trace.
const TRUNCATED: [(usize, Kind, Key, u32, u32); 5] = [
    (0, Kind::Empty, Key::Whole, 0, 0),
    (1, Kind::Shape, Key::Header, 1, 0),
    (37, Kind::Empty, Key::Whole, 0, 0),
    (39, Kind::NotCsv, Key::Period, 2, 0),
    (49, Kind::WrongKind, Key::Latency, 2, 3),
];

#[test]
fn truncated_files(rt: HostRuntime) -> Result<(), Fail> {
    let text = text_of(rt.alloc(), "60000,2000,0\n")?;
    let bytes = text.as_bytes();
    assert_eq!(rt; bytes.len(), 51);
    let mut fault = refusal_at(Kind::Empty, Key::Whole, 0, 0);
    for (k, byte) in bytes.iter().enumerate() {
        for (from, kind, key, row, column) in TRUNCATED {
            if from == k {
                fault = refusal_at(kind, key, row, column);
            }
        }
        let answer = read_trace_csv(rt.alloc(), &bytes[..k]);
        if k < 50 {
            assert_eq!(rt; refusal_of(&rt, &answer), fault, "before {byte} at {k}");
        } else {
            assert!(rt; answer.is_ok());
        }
    }
    Ok(())
}

/// A trace of so many periods.
fn great(alloc: Global, periods: u32) -> Result<String, Fail> {
    let mut text = text_of(alloc, "")?;
    for _ in 0..periods {
        text.push_str("1000,2000.5,20\n")?;
    }
    Ok(text)
}

#[test]
fn great_csv_traces(rt: HostRuntime) -> Result<(), Fail> {
    let text = great(rt.alloc(), 100_000)?;
    let trace = read_trace_csv(rt.alloc(), text.as_bytes()).expect(&rt, "a trace");
    assert_eq!(rt; trace.periods().len(), 100_000);
    let more = great(rt.alloc(), 100_001)?;
    let answer = read_trace_csv(rt.alloc(), more.as_bytes());
    assert_eq!(rt;
        refusal_of(&rt, &answer),
        refusal_at(Kind::OutOfRange, Key::Whole, 100_002, 0)
    );
    Ok(())
}
