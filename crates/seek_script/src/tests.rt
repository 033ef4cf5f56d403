use super::read_seeks;
use lab_model::{InputFault, Key, Kind, Refusal, Seek};
use std::alloc::Global;
use std::process::Abort;
use std::test::Fail;

const HEADER: &str = "at_ms,to_segment\n";

/// Texts that fail before their first seek.
const BAD_HEADERS: [(&str, Kind, Key, u32, u32); 7] = [
    ("", Kind::Empty, Key::Whole, 0, 0),
    ("\n", Kind::Empty, Key::Whole, 0, 0),
    (" \n", Kind::Shape, Key::Header, 1, 0),
    ("to_segment,at_ms\n1,1\n", Kind::Shape, Key::Header, 1, 0),
    ("at_ms\n1\n", Kind::Shape, Key::Header, 1, 0),
    ("at_ms,to\n1,1\n", Kind::Shape, Key::Header, 1, 0),
    ("\u{feff}t,to_segment\n", Kind::Shape, Key::Header, 1, 0),
];

/// What stands behind the header of bad scripts for three segments.
const BAD_SEEKS: [(&str, Kind, Key, u32, u32); 26] = [
    ("1\n", Kind::NotCsv, Key::SeekRow, 2, 0),
    ("1,2,0\n", Kind::NotCsv, Key::SeekRow, 2, 0),
    ("1,3\n", Kind::OutOfRange, Key::SeekTo, 2, 2),
    ("1000000001,0\n", Kind::OutOfRange, Key::SeekAt, 2, 1),
    ("1,x\n", Kind::WrongKind, Key::SeekTo, 2, 2),
    ("x,9\n", Kind::WrongKind, Key::SeekAt, 2, 1),
    (",1\n", Kind::WrongKind, Key::SeekAt, 2, 1),
    ("1,\n", Kind::WrongKind, Key::SeekTo, 2, 2),
    ("-1,0\n", Kind::WrongKind, Key::SeekAt, 2, 1),
    ("+1,0\n", Kind::WrongKind, Key::SeekAt, 2, 1),
    ("1.5,0\n", Kind::NotWhole, Key::SeekAt, 2, 1),
    ("1,0.5\n", Kind::NotWhole, Key::SeekTo, 2, 2),
    ("1.,0\n", Kind::WrongKind, Key::SeekAt, 2, 1),
    ("5,0\n5,1\n", Kind::Order, Key::SeekAt, 3, 1),
    ("5,0\n4,9\n", Kind::Order, Key::SeekAt, 3, 1),
    ("5,0\n4\n", Kind::NotCsv, Key::SeekRow, 3, 0),
    ("5,0\n\n6,3\n", Kind::OutOfRange, Key::SeekTo, 3, 2),
    (
        "18446744073709551616,0\n",
        Kind::OutOfRange,
        Key::SeekAt,
        2,
        1,
    ),
    (
        "1,18446744073709551617\n",
        Kind::OutOfRange,
        Key::SeekTo,
        2,
        2,
    ),
    ("1 0,1\n", Kind::WrongKind, Key::SeekAt, 2, 1),
    ("\"1\"\"\",1\n", Kind::WrongKind, Key::SeekAt, 2, 1),
    ("1\"0,1\n", Kind::WrongKind, Key::SeekAt, 2, 1),
    ("1,65536\n", Kind::OutOfRange, Key::SeekTo, 2, 2),
    (
        "0,0\n1,0\n2,0\n3,0\n4,0\n5,0\n6,0\n7,0\n8,0\n9,0\n10,0\n11,0\n12,0\n13,0\n14,0\n15,0\nx,0\n",
        Kind::OutOfRange,
        Key::Whole,
        18,
        0,
    ),
    (
        "0,0\n1,0\n2,0\n3,0\n4,0\n5,0\n6,0\n7,0\n8,0\n9,0\n10,0\n11,0\n12,0\n13,0\n14,0\n15,0\n16\n",
        Kind::NotCsv,
        Key::SeekRow,
        18,
        0,
    ),
    (
        "0,0\n1,0\n2,0\n3,0\n4,0\n5,0\n6,0\n7,0\n8,0\n9,0\n10,0\n11,0\n12,0\n13,0\n14,0\n15,0\n16,0\n17\n",
        Kind::OutOfRange,
        Key::Whole,
        18,
        0,
    ),
];

fn refusal_of(rt: &impl Abort, answer: &Result<Vec<Seek>, InputFault>) -> Refusal {
    match answer {
        Err(InputFault::Refused(refusal)) => *refusal,
        _ => panic!(rt; "no refusal"),
    }
}

fn text_of(alloc: Global, rows: &str) -> Result<String, Fail> {
    let mut text = String::new(alloc);
    text.push_str(HEADER)?;
    text.push_str(rows)?;
    Ok(text)
}

fn refusal_at(kind: Kind, key: Key, row: u32, column: u32) -> Refusal {
    Refusal {
        kind,
        key,
        row,
        column,
    }
}

#[test]
fn bad_headers(rt: HostRuntime) -> Result<(), Fail> {
    for (text, kind, key, row, column) in BAD_HEADERS {
        let refusal = refusal_of(&rt, &read_seeks(rt.alloc(), text.as_bytes(), 3));
        assert_eq!(rt; refusal, refusal_at(kind, key, row, column), "{text}");
    }
    Ok(())
}

#[test]
fn bad_seeks(rt: HostRuntime) -> Result<(), Fail> {
    for (rows, kind, key, row, column) in BAD_SEEKS {
        let text = text_of(rt.alloc(), rows)?;
        let refusal = refusal_of(&rt, &read_seeks(rt.alloc(), text.as_bytes(), 3));
        assert_eq!(rt; refusal, refusal_at(kind, key, row, column), "{rows}");
    }
    Ok(())
}

/// Scripts for three segments, with the instants and the targets of their seeks.
const GOOD: [(&str, &[(u64, u16)]); 3] = [
    ("", &[]),
    (
        "0,0\n1,2\n1000000000,1",
        &[(0, 0), (1, 2), (1_000_000_000, 1)],
    ),
    ("\r\n 007\t,\"\t2 \"\r\n\n8,\t0 \r\n", &[(7, 2), (8, 0)]),
];

#[test]
fn good_scripts(rt: HostRuntime) -> Result<(), Fail> {
    for (rows, seeks) in GOOD {
        let text = text_of(rt.alloc(), rows)?;
        let read = read_seeks(rt.alloc(), text.as_bytes(), 3).expect(&rt, "a script");
        assert_eq!(rt; read.len(), seeks.len());
        for (seek, (at_ms, to)) in read.iter().zip(seeks) {
            assert_eq!(rt; (seek.at_ms, seek.to), (*at_ms, *to), "{rows}");
        }
    }
    Ok(())
}
