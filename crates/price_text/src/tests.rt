// Texts by hand, good ones and spoiled ones.
use crate::{read_prices, write_prices};
use lab_io::SureSink;
use lab_model::{InputFault, Key, Kind, Refusal};
use price_bounds::Window;
use std::alloc::Global;
use std::process::Abort;
use std::test::Fail;

/// The lines of a certificate of three segments.
const LINES: [&str; 10] = [
    "abrlab prices 1\n",
    "segments 3\n",
    "rungs 2\n",
    "score 29000\n",
    "bound 29000\n",
    "plan 1 1 1\n",
    "windows 2\n",
    "1 1 1000000000000\n",
    "1 2 5000\n",
    "end\n",
];

/// A line of that certificate, counted from 1, what stands in its place, and the first bad line.
#[rattlefmt::skip]
const BAD_LINES: [(u32, &str, u32); 64] = [
    (1, "", 1),
    (1, "abrlab prices 2\n", 1),
    (1, "abrlab prices 01\n", 1),
    (1, "abrlab prices\n", 1),
    (1, "abrlab  prices 1\n", 1),
    (1, "abrlab prices 1 \n", 1),
    (1, " abrlab prices 1\n", 1),
    (1, "abrlab prices 1\r\n", 1),
    (1, "Abrlab prices 1\n", 1),
    (1, "abrlab certificate 1\n", 1),
    (1, "abrlab gap 1\n", 1),
    (1, "abrlab prices 1\nabrlab prices 1\n", 2),
    (2, "", 2),
    (2, "segments 0\n", 2),
    (2, "segments 2001\n", 2),
    (2, "segments 03\n", 2),
    (2, "segments 4294967299\n", 2),
    (2, "segments\t3\n", 2),
    (2, "segments 3", 2),
    (2, "segments 2\n", 6),
    (2, "segments 4\n", 6),
    (3, "", 3),
    (3, "rungs 0\n", 3),
    (3, "rungs 17\n", 3),
    (3, "rungs +2\n", 3),
    (3, "rungs 2\nutilities table\n", 4),
    (4, "", 4),
    (4, "score -0\n", 4),
    (4, "score --1\n", 4),
    (4, "score -01\n", 4),
    (4, "score \n", 4),
    (4, "score 1000000000000000000000000\n", 4),
    (4, "score -1000000000000000000000000\n", 4),
    (5, "", 5),
    (5, "score 29000\n", 5),
    (5, "bound 029000\n", 5),
    (5, "bound -0\n", 5),
    (5, "bound 29000.0\n", 5),
    (5, "bound 1000000000000000000000000\n", 5),
    (6, "", 6),
    (6, "plan 1 1\n", 6),
    (6, "plan 1 1 1 1\n", 6),
    (6, "plan 1 1 1 \n", 6),
    (6, "plan 1 100 1\n", 6),
    (6, "plan 1 01 1\n", 6),
    (6, "plan 1 -1 1\n", 6),
    (6, "plan 1 1 1\nstart 0 0\n", 7),
    (7, "", 7),
    (7, "windows\n", 7),
    (7, "windows 4001\n", 7),
    (7, "windows 00\n", 7),
    (7, "windows 1\n", 9),
    (7, "windows 3\n", 10),
    (7, "windows 0\n", 8),
    (8, "", 9),
    (8, "1 1\n", 8),
    (8, "1 1 1000000000000 0\n", 8),
    (8, "10000 1 1\n", 8),
    (8, "1 10000 1\n", 8),
    (8, "1 1 10000000000000\n", 8),
    (8, "1 1  1\n", 8),
    (9, "01 2 5000\n", 9),
    (10, "end", 10),
    (10, "end\nend\n", 11),
];

/// A line of that certificate, counted from 1, and what may stand in its place.
#[rattlefmt::skip]
const GOOD_LINES: [(u32, &str); 14] = [
    (1, "abrlab prices 1\n"),
    (3, "rungs 16\n"),
    (4, "score 0\n"),
    (4, "score 999999999999999999999999\n"),
    (4, "score -999999999999999999999999\n"),
    (5, "bound -1\n"),
    (5, "bound 999999999999999999999999\n"),
    (6, "plan 0 99 10\n"),
    (7, "windows 3\n0 0 0\n"),
    (8, "9999 9999 9999999999999\n"),
    (8, "0 0 0\n"),
    (8, "2 1 0\n"),
    (9, "1 1 1000000000000\n"),
    (9, "0 9999 1\n"),
];

/// Texts that another program wrote: of a film of 12 segments, and of one without windows.
const OTHERS: [&str; 2] = [
    "abrlab prices 1\nsegments 12\nrungs 3\nscore 4449\nbound 8460\nplan 2 0 0 2 1 1 0 1 1 1 1 2\nwindows 2\n1 7 158\n1 11 336\nend\n",
    "abrlab prices 1\nsegments 3\nrungs 2\nscore 29000\nbound 29000\nplan 1 1 1\nwindows 0\nend\n",
];

fn line_refusal(row: u32) -> Result<(), InputFault> {
    Err(InputFault::Refused(Refusal {
        kind: Kind::CertLine,
        key: Key::Line,
        row,
        column: 0,
    }))
}

/// What is refused, if something is.
fn refusal_of(alloc: Global, bytes: &[u8]) -> Result<(), InputFault> {
    read_prices(alloc, bytes)?;
    Ok(())
}

/// The text of that certificate with another line.
fn with_line(alloc: Global, row: u32, line: &str) -> Result<String, Fail> {
    let mut text = String::new(alloc);
    for (i, own) in LINES.iter().enumerate() {
        text.push_str(if i + 1 == row as usize { line } else { own })?;
    }
    Ok(text)
}

#[test]
fn bad_lines(rt: HostRuntime) -> Result<(), Fail> {
    let alloc = rt.alloc();
    for (row, line, bad) in BAD_LINES {
        let text = with_line(alloc, row, line)?;
        assert_eq!(rt; refusal_of(alloc, text.as_bytes()), line_refusal(bad));
    }
    Ok(())
}

#[test]
fn each_prefix(rt: HostRuntime) -> Result<(), Fail> {
    let alloc = rt.alloc();
    let text = with_line(alloc, 0, "")?;
    let bytes = text.as_bytes();
    let mut row = 1u32;
    for (k, byte) in bytes.iter().enumerate() {
        assert_eq!(rt; refusal_of(alloc, &bytes[..k]), line_refusal(row));
        if *byte == b'\n' {
            row = row.saturating_add(1);
        }
    }
    assert_eq!(rt; refusal_of(alloc, bytes), Ok(()));
    Ok(())
}

/// What the certificate of a text is written as.
fn text_after_reading(alloc: Global, text: &str) -> Result<SureSink, Fail> {
    let certificate = read_prices(alloc, text.as_bytes())?;
    let mut out = SureSink::new(alloc);
    write_prices(&certificate, &mut out)?;
    Ok(out)
}

#[test]
fn what_is_read_is_written_again(rt: HostRuntime) -> Result<(), Fail> {
    let alloc = rt.alloc();
    for text in OTHERS {
        let again = text_after_reading(alloc, text)?;
        assert_eq!(rt; again.written(), text.as_bytes());
    }
    for (row, line) in GOOD_LINES {
        let text = with_line(alloc, row, line)?;
        let again = text_after_reading(alloc, text.as_str())?;
        assert_eq!(rt; again.written(), text.as_bytes());
    }
    Ok(())
}

#[test]
fn parts_of_a_text(rt: HostRuntime) -> Result<(), Fail> {
    let alloc = rt.alloc();
    let read = read_prices(alloc, OTHERS[0].as_bytes())?;
    assert_eq!(rt; (read.segments, read.rungs), (12, 3));
    assert_eq!(rt; (read.score, read.bound), (4449, 8460));
    let plan = [2, 0, 0, 2, 1, 1, 0, 1, 1, 1, 1, 2];
    assert_eq!(rt; read.plan.as_slice(), plan.as_slice());
    let windows = [
        Window {
            first: 1,
            last: 7,
            price: 158,
        },
        Window {
            first: 1,
            last: 11,
            price: 336,
        },
    ];
    assert_eq!(rt; read.windows.as_slice(), windows.as_slice());
    Ok(())
}
