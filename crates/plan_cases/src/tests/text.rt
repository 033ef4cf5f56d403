// Each public call on the worked examples, byte by byte, and bad lines of all kinds.
use certificate_text::{Certificate, Lines, read_certificate, read_gap, write_certificate};
use lab_io::SureSink;
use lab_model::{InputFault, Key, Kind, Manifest, Refusal};
use labels::Plan;
use std::alloc::Global;
use std::process::Abort;
use std::test::Fail;

/// The certificate of the film M1 on a link of 2000 kbps with utilities 0 and 10 and buffer 10000.
const STEADY_PLAN: &str =
    "abrlab certificate 1\nsegments 3\nrungs 2\nscore 29000\nplan 1 1 1\nstart 0 0\nlayer 0 0 1\n500 500 49500 0 0\nlayer 0 1 1\n1000 1000 109000 1 1\nlayer 1 0 2\n1000 500 49500 0 0\n1500 1000 109000 2 2\nlayer 1 1 2\n1500 500 59500 1 1\n2000 1000 119000 3 3\nlayer 2 0 4\n1500 500 49500\n2000 500 59500\n2000 1000 109000\n2500 1000 119000\nlayer 2 1 4\n2000 500 59500\n2500 500 69500\n2500 1000 119000\n3000 1000 129000\nend\n";

/// The lines of the certificate of one segment of one bit.
const SMALLEST_INPUT: [&str; 9] = [
    "abrlab certificate 1\n",
    "segments 1\n",
    "rungs 1\n",
    "score -1\n",
    "plan 0\n",
    "start 0\n",
    "layer 0 0 1\n",
    "1 1 99\n",
    "end\n",
];

/// A line of that certificate, counted from 1, what stands in its place, and the first bad line.
#[rattlefmt::skip]
const BAD_LINES: [(u32, &str, u32); 57] = [
    (1, "", 1),
    (1, "abrlab certificate 3\n", 1),
    (1, "abrlab certificate 01\n", 1),
    (1, "abrlab  certificate 1\n", 1),
    (1, "abrlab certificate 1 \n", 1),
    (1, " abrlab certificate 1\n", 1),
    (1, "abrlab certificate 1\r\n", 1),
    (1, "abrlab gap 1\nbound 0\n", 1),
    (1, "abrlab certificate 2\n", 4),
    (2, "segments 0\n", 2),
    (2, "segments 2001\n", 2),
    (2, "segments 007\n", 2),
    (2, "segments 4294967297\n", 2),
    (2, "segments\t1\n", 2),
    (2, "segments 1", 2),
    (2, "segments 2\n", 5),
    (3, "rungs 0\n", 3),
    (3, "rungs 17\n", 3),
    (3, "rungs +1\n", 3),
    (3, "rungs 1\nutilities table\n", 4),
    (3, "rungs 2\n", 6),
    (4, "score -0\n", 4),
    (4, "score --1\n", 4),
    (4, "score -01\n", 4),
    (4, "score\n", 4),
    (4, "score \n", 4),
    (4, "score -\n", 4),
    (4, "score 1000000000000000000000000\n", 4),
    (4, "score -1000000000000000000000000\n", 4),
    (5, "plan 100\n", 5),
    (5, "plan 0 0\n", 5),
    (5, "plan\n", 5),
    (5, "plan 0 \n", 5),
    (6, "start 10000000\n", 6),
    (6, "start -1\n", 6),
    (6, "start 00\n", 6),
    (7, "layer 1 0 1\n", 7),
    (7, "layer 0 1 1\n", 7),
    (7, "layer 0 0 1 \n", 7),
    (7, "layer 0 0\n", 7),
    (7, "layer 0 0 0\n", 8),
    (7, "layer 0 0 2\n", 9),
    (7, "layer 0 0 1000000\n", 9),
    (7, "layer 0 0 1000001\n", 7),
    (7, "layer 0 0 10000000\n", 7),
    (8, "1 1 99 0\n", 8),
    (8, "1 1\n", 8),
    (8, "1 1  99\n", 8),
    (8, "1 1 99 \n", 8),
    (8, "01 1 99\n", 8),
    (8, "1 -1 99\n", 8),
    (8, "1000000000000000000 1 99\n", 8),
    (8, "1 1 -1000000000000000000\n", 8),
    (8, "1 1 99\n1 1 99\n", 9),
    (9, "end", 9),
    (9, "end\n\n", 10),
    (9, "end\nend\n", 10),
];

/// A line of that certificate, counted from 1, and what may stand in its place.
#[rattlefmt::skip]
const GOOD_LINES: [(u32, &str); 9] = [
    (4, "score 0\n"),
    (4, "score 999999999999999999999999\n"),
    (4, "score -999999999999999999999999\n"),
    (5, "plan 99\n"),
    (6, "start 9999999\n"),
    (7, "layer 0 0 2\n1 1 99\n"),
    (8, "999999999999999999 0 0\n"),
    (8, "0 999999999999999999 -999999999999999999\n"),
    (8, "1 1 99\n"),
];

fn bad_line<T>(row: u32) -> Result<T, InputFault> {
    Err(InputFault::Refused(Refusal {
        kind: Kind::CertLine,
        key: Key::Line,
        row,
        column: 0,
    }))
}

/// What is refused, if something is.
fn refusal_of(alloc: Global, bytes: &[u8]) -> Result<(), InputFault> {
    read_certificate(alloc, bytes)?;
    Ok(())
}

/// The same, layer by layer, and how many layers came before it.
fn walk(alloc: Global, bytes: &[u8]) -> Result<(), InputFault> {
    let mut lines = Lines::begin(alloc, bytes)?;
    for _ in 0..=2000 {
        if lines.next_layer()?.is_none() {
            break;
        }
    }
    Ok(())
}

/// The same, without keeping what is read.
fn rest(alloc: Global, bytes: &[u8]) -> Result<(), InputFault> {
    Lines::begin(alloc, bytes)?.read_rest()
}

/// The text of the smallest input with another line.
fn with_line(alloc: Global, row: u32, line: &str) -> Result<String, Fail> {
    let mut text = String::new(alloc);
    for (i, own) in SMALLEST_INPUT.iter().enumerate() {
        text.push_str(if i + 1 == row as usize { line } else { own })?;
    }
    Ok(text)
}

#[test]
fn bad_lines(rt: HostRuntime) -> Result<(), Fail> {
    let alloc = rt.alloc();
    for (row, line, bad) in BAD_LINES {
        let text = with_line(alloc, row, line)?;
        assert_eq!(rt; refusal_of(alloc, text.as_bytes()), bad_line(bad));
        assert_eq!(rt; walk(alloc, text.as_bytes()), bad_line(bad));
        assert_eq!(rt; rest(alloc, text.as_bytes()), bad_line(bad));
    }
    Ok(())
}

/// The lines before that certificate, a line of it with what stands in its place, and the first bad line of the whole.
#[rattlefmt::skip]
const BAD_GAPS: [(&str, u32, &str, u32); 10] = [
    ("", 0, "", 1),
    ("abrlab gap 2\nbound -1\n", 0, "", 1),
    ("abrlab gap 01\nbound -1\n", 0, "", 1),
    ("abrlab gap 1\n", 0, "", 2),
    ("abrlab gap 1\nbound 0208000\n", 0, "", 2),
    ("abrlab gap 1\nbound -0\n", 0, "", 2),
    ("abrlab gap 1\nbound 1000000000000000000000000\n", 0, "", 2),
    ("abrlab gap 1\nbound -1\n", 1, "abrlab certificate 3\n", 3),
    ("abrlab gap 1\nbound -1\n", 8, "1 1  99\n", 10),
    ("abrlab gap 1\nbound -1\n", 9, "end\nend\n", 12),
];

/// What is refused of a gap certificate, if something is.
fn gap_refusal_of(alloc: Global, bytes: &[u8]) -> Result<(), InputFault> {
    read_gap(alloc, bytes)?;
    Ok(())
}

/// The same, layer by layer.
fn gap_rest(alloc: Global, bytes: &[u8]) -> Result<(), InputFault> {
    Lines::begin_gap(alloc, bytes)?.read_rest()
}

#[test]
fn bad_gap_lines(rt: HostRuntime) -> Result<(), Fail> {
    let alloc = rt.alloc();
    for (heading, row, line, bad) in BAD_GAPS {
        let mut text = String::new(alloc);
        text.push_str(heading)?;
        text.push_str(with_line(alloc, row, line)?.as_str())?;
        assert_eq!(rt; gap_refusal_of(alloc, text.as_bytes()), bad_line(bad));
        assert_eq!(rt; gap_rest(alloc, text.as_bytes()), bad_line(bad));
    }
    Ok(())
}

#[test]
fn bound_of_a_gap(rt: HostRuntime) -> Result<(), Fail> {
    let alloc = rt.alloc();
    let mut text = String::new(alloc);
    text.push_str("abrlab gap 1\nbound 999999999999999999999999\n")?;
    text.push_str(with_line(alloc, 0, "")?.as_str())?;
    let read = read_gap(alloc, text.as_bytes())?;
    assert_eq!(rt; read.bound, 999_999_999_999_999_999_999_999);
    let lines = Lines::begin_gap(alloc, text.as_bytes())?;
    assert_eq!(rt; lines.bound(), 999_999_999_999_999_999_999_999);
    assert_eq!(rt; lines.score(), -1);
    let plain = with_line(alloc, 0, "")?;
    assert_eq!(rt; Lines::begin(alloc, plain.as_bytes())?.bound(), -1);
    assert_eq!(rt; refusal_of(alloc, text.as_bytes()), bad_line(1));
    Ok(())
}

#[test]
fn each_prefix_of_steady_plan(rt: HostRuntime) -> Result<(), Fail> {
    let alloc = rt.alloc();
    let bytes = STEADY_PLAN.as_bytes();
    let mut row = 1u32;
    for (k, byte) in bytes.iter().enumerate() {
        assert_eq!(rt; refusal_of(alloc, &bytes[..k]), bad_line(row));
        assert_eq!(rt; walk(alloc, &bytes[..k]), bad_line(row));
        assert_eq!(rt; rest(alloc, &bytes[..k]), bad_line(row));
        if *byte == b'\n' {
            row = row.saturating_add(1);
        }
    }
    assert_eq!(rt; refusal_of(alloc, bytes), Ok(()));
    assert_eq!(rt; walk(alloc, bytes), Ok(()));
    assert_eq!(rt; rest(alloc, bytes), Ok(()));
    Ok(())
}

/// A film of so many segments and rungs.
fn film(alloc: Global, segments: u16, rungs: u8) -> Result<Manifest, Fail> {
    let mut bitrates = Vec::new(alloc);
    for rung in 0..rungs {
        bitrates.push(u32::from(rung) + 1)?;
    }
    let mut sizes = Vec::new(alloc);
    for _ in 0..segments {
        for _ in 0..rungs {
            sizes.push(1)?;
        }
    }
    Ok(Manifest::from_parts(1, bitrates, sizes).ok_or("not a film")?)
}

/// What the certificate of a text is written as.
fn text_after_reading(alloc: Global, text: &str) -> Result<SureSink, Fail> {
    let certificate = read_certificate(alloc, text.as_bytes())?;
    let film = film(alloc, certificate.segments, certificate.rungs)?;
    if film.segments() != certificate.segments {
        return Err("the film has other segments".into());
    }
    if film.rungs() != certificate.rungs {
        return Err("the film has other rungs".into());
    }
    let plan = Plan {
        table: certificate.table,
        rungs: certificate.plan,
        score: certificate.score,
        labels: 0,
        starts: certificate.starts,
        chains: certificate.chains,
    };
    let mut out = SureSink::new(alloc);
    write_certificate(&film, &plan, &mut out)?;
    Ok(out)
}

#[test]
fn what_is_read_is_written_again(rt: HostRuntime) -> Result<(), Fail> {
    let alloc = rt.alloc();
    let steady = text_after_reading(alloc, STEADY_PLAN)?;
    assert_eq!(rt; steady.written(), STEADY_PLAN.as_bytes());
    for (row, line) in GOOD_LINES {
        let text = with_line(alloc, row, line)?;
        let again = text_after_reading(alloc, text.as_str())?;
        assert_eq!(rt; again.written(), text.as_bytes());
    }
    Ok(())
}
