// Files that are cut anywhere, and files that are too long.
use super::Text::Is;
use super::check::CHECK;
use super::files::{C2000, FILM};
use super::plan::CERTIFICATE;
use super::simulate::{SPREAD, STEADY};
use super::{File, NONE, file_list, run_files, run_words};
use std::alloc::Global;
use std::process::Abort;
use std::test::Fail;

// A file, the words that name it, and the note from each length on.
struct Cut {
    name: &'static str,
    text: &'static str,
    words: &'static str,
    notes: &'static [(usize, &'static str)],
}

#[rattlefmt::skip]
static CUTS: [Cut; 4] = [
    Cut {
        name: "m",
        text: FILM,
        words: STEADY,
        notes: &[
            (0, "abrlab: manifest file: not-json at whole row 0 column 0\n"),
        ],
    },
    Cut {
        name: "t",
        text: C2000,
        words: STEADY,
        notes: &[
            (0, "abrlab: trace file: not-json at whole row 0 column 0\n"),
        ],
    },
    Cut {
        name: "c.csv",
        text: "duration_ms,bandwidth_kbps,latency_ms\n60000,2000,0",
        words: SPREAD,
        notes: &[
            (0, "abrlab: trace file: empty at whole row 0 column 0\n"),
            (1, "abrlab: trace file: shape at header row 1 column 0\n"),
            (37, "abrlab: trace file: empty at whole row 0 column 0\n"),
            (39, "abrlab: trace file: not-csv at period row 2 column 0\n"),
            (49, "abrlab: trace file: wrong-kind at latency_ms row 2 column 3\n"),
        ],
    },
    Cut {
        name: "c",
        text: CERTIFICATE,
        words: CHECK,
        notes: &[
            (0, "abrlab: certificate file: bad-line at line row 1 column 0\n"),
            (21, "abrlab: certificate file: bad-line at line row 2 column 0\n"),
            (32, "abrlab: certificate file: bad-line at line row 3 column 0\n"),
            (40, "abrlab: certificate file: bad-line at line row 4 column 0\n"),
            (52, "abrlab: certificate file: bad-line at line row 5 column 0\n"),
            (63, "abrlab: certificate file: bad-line at line row 6 column 0\n"),
            (73, "abrlab: certificate file: bad-line at line row 7 column 0\n"),
            (85, "abrlab: certificate file: bad-line at line row 8 column 0\n"),
            (103, "abrlab: certificate file: bad-line at line row 9 column 0\n"),
            (115, "abrlab: certificate file: bad-line at line row 10 column 0\n"),
            (136, "abrlab: certificate file: bad-line at line row 11 column 0\n"),
            (148, "abrlab: certificate file: bad-line at line row 12 column 0\n"),
            (167, "abrlab: certificate file: bad-line at line row 13 column 0\n"),
            (188, "abrlab: certificate file: bad-line at line row 14 column 0\n"),
            (200, "abrlab: certificate file: bad-line at line row 15 column 0\n"),
            (219, "abrlab: certificate file: bad-line at line row 16 column 0\n"),
            (240, "abrlab: certificate file: bad-line at line row 17 column 0\n"),
            (252, "abrlab: certificate file: bad-line at line row 18 column 0\n"),
            (267, "abrlab: certificate file: bad-line at line row 19 column 0\n"),
            (282, "abrlab: certificate file: bad-line at line row 20 column 0\n"),
            (299, "abrlab: certificate file: bad-line at line row 21 column 0\n"),
            (316, "abrlab: certificate file: bad-line at line row 22 column 0\n"),
            (328, "abrlab: certificate file: bad-line at line row 23 column 0\n"),
            (343, "abrlab: certificate file: bad-line at line row 24 column 0\n"),
            (358, "abrlab: certificate file: bad-line at line row 25 column 0\n"),
            (375, "abrlab: certificate file: bad-line at line row 26 column 0\n"),
            (392, "abrlab: certificate file: bad-line at line row 27 column 0\n"),
        ],
    },
];

impl Cut {
    // The note on the first so many bytes.
    fn note(&self, count: usize) -> &'static str {
        let mut note = "";
        for (from, later) in self.notes {
            if *from <= count {
                note = later;
            }
        }
        note
    }
}

// The first so many bytes of a file are refused.
fn assert_refused(rt: &impl Abort, alloc: Global, cut: &Cut, count: usize) -> Result<(), Fail> {
    let part = cut.text.get(..count).unwrap_or("");
    let files = [(cut.name, part), ("m", FILM), ("t", C2000)];
    let answer = run_words(alloc, cut.words, &files, NONE)?;
    assert!(rt;
        answer.is(3, &Is(""), cut.note(count)),
        "{} at {count}",
        cut.name
    );
    Ok(())
}

#[test]
fn cut_files(rt: HostRuntime) -> Result<(), Fail> {
    for cut in &CUTS {
        for count in 0..cut.text.len() {
            assert_refused(&rt, rt.alloc(), cut, count)?;
        }
    }
    Ok(())
}

// A file of so many blanks beside others, and the note that it is too long.
struct Long {
    name: &'static str,
    length: usize,
    others: &'static [File],
    words: &'static str,
    note: &'static str,
}

#[rattlefmt::skip]
static LONG: [Long; 2] = [
    Long {
        name: "m",
        length: 67_108_865,
        others: &[("t", C2000)],
        words: STEADY,
        note: "abrlab: manifest file: too long\n",
    },
    Long {
        name: "c",
        length: 536_870_913,
        others: &[("m", FILM), ("t", C2000)],
        words: CHECK,
        note: "abrlab: certificate file: too long\n",
    },
];

// A file that is too long is refused.
fn assert_too_long(rt: &impl Abort, alloc: Global, long: &Long) -> Result<(), Fail> {
    let mut files = file_list(alloc, long.others)?;
    let blanks = vec![in alloc; b' '; long.length]?;
    files.push((String::from_str(alloc, long.name)?, blanks))?;
    let answer = run_files(alloc, long.words, files, NONE)?;
    assert!(rt; answer.is(3, &Is(""), long.note), "{}", long.name);
    Ok(())
}

#[test]
fn long_files(rt: HostRuntime) -> Result<(), Fail> {
    for long in &LONG {
        assert_too_long(&rt, rt.alloc(), long)?;
    }
    Ok(())
}
