// A run for each status: one that always answers the same status fails at all rows but one, and one that always answers 9 at
// all of them.
use super::check::CHECK;
use super::files::{C2000, FILM};
use super::plan::TINY_CERTIFICATE;
use super::{Faults, File, run_words};
use std::test::Fail;

// Words, files, the puts that fail, and the status.
struct Ended {
    words: &'static str,
    files: [File; 3],
    puts: &'static [u64],
    status: u8,
}

// The film, the link, and a certificate of another film.
const FILES: [File; 3] = [("m", FILM), ("t", C2000), ("c", TINY_CERTIFICATE)];

#[rattlefmt::skip]
const ENDED: [Ended; 7] = [
    Ended { words: "simulate --manifest m --trace t --rule fixed:1 --utilities 0,10", files: FILES, puts: &[], status: 0 },
    Ended { words: CHECK, files: FILES, puts: &[], status: 1 },
    Ended { words: "simulate --manifest m --trace t --rule fixed:1", files: FILES, puts: &[], status: 2 },
    Ended { words: "simulate --manifest t --trace t --rule fixed:1 --utilities 0,10", files: FILES, puts: &[], status: 3 },
    Ended { words: "simulate --manifest m --trace u --rule fixed:1 --utilities 0,10", files: FILES, puts: &[], status: 4 },
    Ended { words: "simulate --manifest m --trace t --rule fixed:1 --utilities 0,10", files: FILES, puts: &[2], status: 5 },
    Ended { words: "plan --manifest m --trace t --utilities 0,10 --budget 1", files: FILES, puts: &[], status: 6 },
];

#[test]
fn each_status(rt: HostRuntime) -> Result<(), Fail> {
    for row in &ENDED {
        let faults = Faults {
            fetches: &[],
            puts: row.puts,
            notes: &[],
        };
        let answer = run_words(rt.alloc(), row.words, &row.files, faults)?;
        assert_eq!(rt; answer.status, row.status, "{}", row.words);
    }
    Ok(())
}
