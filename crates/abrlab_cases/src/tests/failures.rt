// Fetches and puts that fail, one after the other.
use super::Text::Is;
use super::check::CHECK;
use super::compare::{LINKS, PAIR, PAIR_TEXT};
use super::demo::ONE_TEXT;
use super::files::{C2000, FILM, STEADY as STEADY_FILES};
use super::players::{EQUAL, EQUAL_TEXT};
use super::regret::{TABLE, TABLE_TEXT};
use super::simulate::{SOUGHT, SOUGHT_TEXT, STEADY, STEADY_TEXT};
use super::{Answer, Faults, File, run_words};
use std::alloc::{AllocError, Global};
use std::process::Abort;
use std::test::Fail;

// The certificate of the steady plan with a lower score.
const LOW_SCORE: &str = "abrlab certificate 1
segments 3
rungs 2
score 28999
plan 1 1 1
start 0 0
layer 0 0 1
500 500 49500 0 0
layer 0 1 1
1000 1000 109000 1 1
layer 1 0 2
1000 500 49500 0 0
1500 1000 109000 2 2
layer 1 1 2
1500 500 59500 1 1
2000 1000 119000 3 3
layer 2 0 4
1500 500 49500
2000 500 59500
2000 1000 109000
2500 1000 119000
layer 2 1 4
2000 500 59500
2500 500 69500
2500 1000 119000
3000 1000 129000
end
";

// A run that comes to this status and text, unless a fetch or a put fails.
struct Fragile {
    words: &'static str,
    files: &'static [File],
    status: u8,
    text: &'static str,
    // The note on each fetch that fails.
    fetches: &'static [&'static str],
    // At least so many puts.
    puts: u64,
}

#[rattlefmt::skip]
static FRAGILE: [Fragile; 6] = [
    Fragile {
        words: STEADY,
        files: &STEADY_FILES,
        status: 0,
        text: STEADY_TEXT,
        fetches: &["abrlab: manifest file: not read\n", "abrlab: trace file: not read\n"],
        puts: 18,
    },
    Fragile {
        words: SOUGHT,
        files: &[("m", FILM), ("t", C2000), ("s", "at_ms,to_segment\n1000,2\n")],
        status: 0,
        text: SOUGHT_TEXT,
        fetches: &["abrlab: manifest file: not read\n", "abrlab: trace file: not read\n", "abrlab: seeks file: not read\n"],
        puts: 15,
    },
    Fragile {
        words: EQUAL,
        files: &STEADY_FILES,
        status: 0,
        text: EQUAL_TEXT,
        fetches: &["abrlab: manifest file: not read\n", "abrlab: trace file: not read\n"],
        puts: 41,
    },
    Fragile {
        words: PAIR,
        files: &LINKS,
        status: 0,
        text: PAIR_TEXT,
        fetches: &["abrlab: manifest file: not read\n", "abrlab: trace 1 file: not read\n", "abrlab: trace 2 file: not read\n"],
        puts: 7,
    },
    Fragile {
        words: TABLE,
        files: &LINKS,
        status: 0,
        text: TABLE_TEXT,
        fetches: &["abrlab: manifest file: not read\n", "abrlab: trace 1 file: not read\n", "abrlab: trace 2 file: not read\n"],
        puts: 9,
    },
    Fragile {
        words: CHECK,
        files: &[("m", FILM), ("t", C2000), ("c", LOW_SCORE)],
        status: 1,
        text: "no V5 segment 2 rung 1 label 3\n",
        fetches: &["abrlab: manifest file: not read\n", "abrlab: trace file: not read\n", "abrlab: certificate file: not read\n"],
        puts: 3,
    },
];

impl Fragile {
    // The run where this fetch and this put fail.
    fn failing(&self, alloc: Global, fetch: u64, put: u64) -> Result<Answer, AllocError> {
        let faults = Faults {
            fetches: &[fetch],
            puts: &[put],
            notes: &[],
        };
        run_words(alloc, self.words, self.files, faults)
    }
}

// Each fetch that fails is told.
fn assert_fetches(rt: &impl Abort, alloc: Global, run: &Fragile) -> Result<(), Fail> {
    for (index, note) in run.fetches.iter().enumerate() {
        let answer = run.failing(alloc, (index as u64).wrapping_add(1), 0)?;
        assert!(rt; answer.is(4, &Is(""), note), "{}", run.words);
    }
    Ok(())
}

// Each put that fails is told, up to the first number that no put has.
fn assert_puts(rt: &impl Abort, alloc: Global, run: &Fragile) -> Result<(), Fail> {
    for put in 1..1000 {
        let answer = run.failing(alloc, 9, put)?;
        if answer.status == run.status {
            assert!(rt; put >= run.puts && answer.is(run.status, &Is(run.text), ""));
            return Ok(());
        }
        assert!(rt; answer.lacks_output(run.text), "{} at {put}", run.words);
    }
    assert!(rt; false, "{}", run.words);
    Ok(())
}

#[test]
fn every_fault(rt: HostRuntime) -> Result<(), Fail> {
    for run in &FRAGILE {
        assert_fetches(&rt, rt.alloc(), run)?;
        assert_puts(&rt, rt.alloc(), run)?;
    }
    Ok(())
}

#[test]
fn failing_demo(rt: HostRuntime) -> Result<(), Fail> {
    for put in [1, 4, 5, 100, 165] {
        let faults = Faults {
            fetches: &[1],
            puts: &[put],
            notes: &[],
        };
        let answer = run_words(rt.alloc(), "demo 1", &[], faults)?;
        assert!(rt; answer.lacks_output(ONE_TEXT), "{put}");
    }
    Ok(())
}
