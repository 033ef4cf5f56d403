use super::read_utilities;
use lab_model::{InputFault, Key, Kind, Refusal};
use std::alloc::{AllocError, Global};
use std::test::Fail;

/// Bad tables of three segments on two rungs, with their first fault.
const BAD_TABLES: [(&str, Kind, Key, u32, u32); 16] = [
    ("", Kind::Empty, Key::Whole, 0, 0),
    ("\n\n", Kind::Empty, Key::Whole, 0, 0),
    ("0,0\n0,50\n", Kind::Shape, Key::Utility, 0, 0),
    ("0,0\n50,0\n0,10\n", Kind::Order, Key::Utility, 2, 2),
    ("0\n0,50\n0,10\n", Kind::Shape, Key::Utility, 1, 0),
    ("0\nx\n", Kind::Shape, Key::Utility, 1, 0),
    ("0,0\n0,10,20\n0,10\n", Kind::NotCsv, Key::Utility, 2, 0),
    ("0,0\n0,50\n0,10\n0,10\n", Kind::Shape, Key::Utility, 4, 0),
    ("0,0\n0,50\n0,10\nx,y\n", Kind::Shape, Key::Utility, 4, 0),
    ("0,0\n0,50\n0,10\n0\n", Kind::NotCsv, Key::Utility, 4, 0),
    ("0,0\n0,x\n0,10,1\n", Kind::WrongKind, Key::Utility, 2, 2),
    ("0,0\n0,1.5\n", Kind::NotWhole, Key::Utility, 2, 2),
    ("0,0\n0,1000001\n", Kind::OutOfRange, Key::Utility, 2, 2),
    ("-1,0\n", Kind::WrongKind, Key::Utility, 1, 1),
    ("9,10\n2,3\n1,\n", Kind::WrongKind, Key::Utility, 3, 2),
    ("5,4\n0\n", Kind::Order, Key::Utility, 1, 2),
];

/// A table of so many segments and rungs, and from each length on the first fault of what is cut off there.
struct Cut {
    text: &'static str,
    segments: u16,
    rungs: u8,
    faults: &'static [(usize, Option<(Kind, Key, u32, u32)>)],
}

static CUTS: [Cut; 4] = [
    Cut {
        text: "0,1\n2,2\n",
        segments: 2,
        rungs: 2,
        faults: &[
            (0, Some((Kind::Empty, Key::Whole, 0, 0))),
            (1, Some((Kind::Shape, Key::Utility, 1, 0))),
            (2, Some((Kind::WrongKind, Key::Utility, 1, 2))),
            (3, Some((Kind::Shape, Key::Utility, 0, 0))),
            (5, Some((Kind::NotCsv, Key::Utility, 2, 0))),
            (6, Some((Kind::WrongKind, Key::Utility, 2, 2))),
            (7, None),
        ],
    },
    Cut {
        text: "\u{feff} 0,1\r\n\"2\",30\n\n4,1000000\n",
        segments: 3,
        rungs: 2,
        faults: &[
            (0, Some((Kind::Empty, Key::Whole, 0, 0))),
            (1, Some((Kind::Shape, Key::Utility, 1, 0))),
            (3, Some((Kind::Empty, Key::Whole, 0, 0))),
            (4, Some((Kind::Shape, Key::Utility, 1, 0))),
            (6, Some((Kind::WrongKind, Key::Utility, 1, 2))),
            (7, Some((Kind::Shape, Key::Utility, 0, 0))),
            (10, Some((Kind::NotCsv, Key::Utility, 2, 0))),
            (13, Some((Kind::WrongKind, Key::Utility, 2, 2))),
            (14, Some((Kind::Shape, Key::Utility, 0, 0))),
            (18, Some((Kind::NotCsv, Key::Utility, 3, 0))),
            (19, Some((Kind::WrongKind, Key::Utility, 3, 2))),
            (20, Some((Kind::Order, Key::Utility, 3, 2))),
            (21, None),
        ],
    },
    Cut {
        text: "7,8,9\n0,0,0\n10,9,11\n",
        segments: 3,
        rungs: 3,
        faults: &[
            (0, Some((Kind::Empty, Key::Whole, 0, 0))),
            (1, Some((Kind::Shape, Key::Utility, 1, 0))),
            (4, Some((Kind::WrongKind, Key::Utility, 1, 3))),
            (5, Some((Kind::Shape, Key::Utility, 0, 0))),
            (7, Some((Kind::NotCsv, Key::Utility, 2, 0))),
            (10, Some((Kind::WrongKind, Key::Utility, 2, 3))),
            (11, Some((Kind::Shape, Key::Utility, 0, 0))),
            (13, Some((Kind::NotCsv, Key::Utility, 3, 0))),
            (17, Some((Kind::Order, Key::Utility, 3, 2))),
        ],
    },
    Cut {
        text: "1\n2\n3\n4\n",
        segments: 3,
        rungs: 1,
        faults: &[
            (0, Some((Kind::Empty, Key::Whole, 0, 0))),
            (1, Some((Kind::Shape, Key::Utility, 0, 0))),
            (5, None),
            (7, Some((Kind::Shape, Key::Utility, 4, 0))),
        ],
    },
];

impl Cut {
    /// The first fault of the first so many bytes.
    fn fault(&self, count: usize) -> Option<Refusal> {
        let mut fault = None;
        for (from, later) in self.faults {
            if *from <= count {
                fault = *later;
            }
        }
        let (kind, key, row, column) = fault?;
        Some(Refusal {
            kind,
            key,
            row,
            column,
        })
    }
}

/// The first fault of the first so many bytes, as they are read.
fn fault_at(alloc: Global, cut: &Cut, count: usize) -> Result<Option<Refusal>, AllocError> {
    let part = cut.text.as_bytes().get(..count).unwrap_or(b"");
    match read_utilities(alloc, part, cut.segments, cut.rungs) {
        Ok(_table) => Ok(None),
        Err(InputFault::Refused(refusal)) => Ok(Some(refusal)),
        Err(InputFault::Memory) => Err(AllocError),
    }
}

#[test]
fn tables_with_faults(rt: HostRuntime) -> Result<(), Fail> {
    for (text, kind, key, row, column) in BAD_TABLES {
        let fault = Refusal {
            kind,
            key,
            row,
            column,
        };
        match read_utilities(rt.alloc(), text.as_bytes(), 3, 2) {
            Err(InputFault::Refused(refusal)) => assert_eq!(rt; refusal, fault),
            Err(InputFault::Memory) => assert!(rt; false),
            Ok(_table) => assert!(rt; false),
        }
    }
    Ok(())
}

#[test]
fn cuts_of_tables(rt: HostRuntime) -> Result<(), Fail> {
    for cut in &CUTS {
        for count in 0..=cut.text.len() {
            assert_eq!(rt;
                fault_at(rt.alloc(), cut, count)?,
                cut.fault(count),
                "{count}"
            );
        }
    }
    Ok(())
}

#[test]
fn a_table_that_is_read(rt: HostRuntime) -> Result<(), Fail> {
    let text = "\u{feff} 0 ,\t0\n\n\"0\",0050\r\n0,1000000";
    match read_utilities(rt.alloc(), text.as_bytes(), 3, 2) {
        Ok(table) => {
            assert_eq!(rt;
                table.rows.as_slice(),
                [0, 0, 0, 50, 0, 1_000_000].as_slice()
            );
        }
        Err(_fault) => assert!(rt; false),
    }
    Ok(())
}

/// The utility of a rung in the table of the longest film.
fn utility(segment: u32, rung: u32) -> u32 {
    rung.wrapping_mul(segment.wrapping_mul(33).wrapping_add(1))
}

/// The table of the longest film, with 2000 segments on 16 rungs.
fn longest_table(alloc: Global) -> Result<String, AllocError> {
    let mut text = String::new(alloc);
    for segment in 0..2000 {
        for rung in 0..16 {
            let utility = utility(segment, rung);
            let end = if rung == 15 { '\n' } else { ',' };
            text.push_str(&format!(in alloc; "{utility}{end}")?)?;
        }
    }
    Ok(text)
}

/// Places in it and their utilities.
const PLACES: [(usize, u32); 6] = [
    (0, 0),
    (15, 15),
    (16, 0),
    (31, 510),
    (16_007, 231_007),
    (31_999, 989_520),
];

#[test]
fn the_longest_table(rt: HostRuntime) -> Result<(), Fail> {
    let text = longest_table(rt.alloc())?;
    match read_utilities(rt.alloc(), text.as_bytes(), 2000, 16) {
        Ok(table) => {
            assert_eq!(rt; table.rows.len(), 32_000);
            for (place, utility) in PLACES {
                assert_eq!(rt; table.rows.get(place), Some(&utility), "{place}");
            }
        }
        Err(_fault) => assert!(rt; false),
    }
    Ok(())
}
