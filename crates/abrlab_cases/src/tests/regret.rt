// Whole runs of `compare --regret`.
use super::Text::Is;
use super::compare::LINKS;
use super::files::{C500, FALLING, FILM, KINDS, SHORT, UNEVEN, WAVES};
use super::{Case, File, NO_FILE, NONE, assert_answer, file, file_list, run_files, run_words};
use std::alloc::{AllocError, Global};
use std::ops::RangeInclusive;
use std::test::Fail;

// Networks that change, and films on three and four rungs.
const CHANGING: [File; 5] = [
    ("w", WAVES),
    ("s", SHORT),
    ("falling", FALLING),
    ("uneven", UNEVEN),
    ("c500.json", C500),
];

pub(super) const TABLE: &str =
    "compare --regret --manifest m --rules fixed:1/fixed:0 --utilities 0,10 --buffer 10000 c2000.json c500.json";

pub(super) const TABLE_TEXT: &str = "trace c2000.json
rule fixed:1 score 29000 best 29000 regret 0
rule fixed:0 score -500 best 29000 regret 29500
trace c500.json
rule fixed:1 score -574000 best -194000 regret 380000
rule fixed:0 score -202000 best -194000 regret 8000
total fixed:1 score -545000 best -165000 regret 380000 worst 380000
total fixed:0 score -202500 best -165000 regret 37500 worst 29500
";

// One of each rule.
const WAVES_TEXT: &str = "trace falling
rule fixed:0 score -192 best 94870 regret 95062
rule throughput:3,5 score -424992 best 94870 regret 519862
rule bola:5 score -255392 best 94870 regret 350262
rule mpc:3 score -422592 best 94870 regret 517462
rule list:1,1,1,2,2,2,0,0,1,1 score 46263 best 94870 regret 48607
trace uneven
rule fixed:0 score -309 best 72438 regret 72747
rule throughput:3,5 score -189209 best 72438 regret 261647
rule bola:5 score -163209 best 72438 regret 235647
rule mpc:3 score -4509 best 72438 regret 76947
rule list:1,1,1,2,2,2,0,0,1,1 score -33831 best 72438 regret 106269
total fixed:0 score -501 best 167308 regret 167809 worst 95062
total throughput:3,5 score -614201 best 167308 regret 781509 worst 519862
total bola:5 score -418601 best 167308 regret 585909 worst 350262
total mpc:3 score -427101 best 167308 regret 594409 worst 517462
total list:1,1,1,2,2,2,0,0,1,1 score 12432 best 167308 regret 154876 worst 106269
";

const SHORT_TEXT: &str = "trace uneven
rule throughput:2 score -16245 best 16569 regret 32814
rule bola:9 score -83005 best 16569 regret 99574
rule mpc:5 score -37485 best 16569 regret 54054
rule fixed:1 score -10831 best 16569 regret 27400
trace falling
rule throughput:2 score 30451 best 33705 regret 3254
rule bola:9 score 25451 best 33705 regret 8254
rule mpc:5 score 30451 best 33705 regret 3254
rule fixed:1 score 23097 best 33705 regret 10608
trace c500.json
rule throughput:2 score -220 best -64 regret 156
rule bola:9 score -67820 best -64 regret 67756
rule mpc:5 score -220 best -64 regret 156
rule fixed:1 score -283384 best -64 regret 283320
total throughput:2 score 13986 best 50210 regret 36224 worst 32814
total bola:9 score -125374 best 50210 regret 175584 worst 99574
total mpc:5 score -7254 best 50210 regret 57464 worst 54054
total fixed:1 score -271118 best 50210 regret 321328 worst 283320
";

#[rattlefmt::skip]
static CASES: [Case; 9] = [
    Case {
        name: "regret table",
        words: TABLE,
        file: NO_FILE,
        files: &LINKS,
        status: 0,
        out: Is(TABLE_TEXT),
        err: "",
    },
    Case {
        name: "regret budget",
        words: "compare --regret --manifest m --rules fixed:1/fixed:0 --utilities 0,10 --buffer 10000 --budget 13 c2000.json c500.json",
        file: NO_FILE,
        files: &LINKS,
        status: 6,
        out: Is(""),
        err: "abrlab: trace 1: budget spent at segment 2\n",
    },
    Case {
        name: "regret budget in the other order",
        words: "compare --regret --manifest m --rules fixed:1/fixed:0 --utilities 0,10 --buffer 10000 --budget 13 c500.json c2000.json",
        file: NO_FILE,
        files: &LINKS,
        status: 6,
        out: Is(""),
        err: "abrlab: trace 2: budget spent at segment 2\n",
    },
    Case {
        name: "budget edge, of each trace and not of their sum",
        words: "compare --regret --manifest m --rules fixed:1/fixed:0 --utilities 0,10 --buffer 10000 --budget 14 c2000.json c500.json",
        file: NO_FILE,
        files: &LINKS,
        status: 0,
        out: Is(TABLE_TEXT),
        err: "",
    },
    Case {
        name: "settings before the budget",
        words: "compare --regret --manifest m --rules fixed:1/fixed:2 --utilities 0,10 --buffer 10000 --budget 13 c2000.json c500.json",
        file: NO_FILE,
        files: &LINKS,
        status: 3,
        out: Is(""),
        err: "abrlab: settings: rule 2\n",
    },
    Case {
        name: "missing trace",
        words: "compare --regret --manifest m --rules fixed:1/fixed:0 --utilities 0,10 --buffer 10000 --budget 13 c2000.json x",
        file: NO_FILE,
        files: &LINKS,
        status: 4,
        out: Is(""),
        err: "abrlab: trace 2 file: not read\n",
    },
    Case {
        name: "a budget without regrets",
        words: "compare --manifest m --rules fixed:1/fixed:0 --utilities 0,10 --buffer 10000 --budget 13 c2000.json c500.json",
        file: NO_FILE,
        files: &LINKS,
        status: 2,
        out: Is(""),
        err: "abrlab: usage: simulate, compare, plan, check, demo\n",
    },
    Case {
        name: "each rule on changing networks",
        words: "compare --regret --manifest w --rules fixed:0/throughput:3,5/bola:5/mpc:3/list:1,1,1,2,2,2,0,0,1,1 --utilities 0,5,9,12 --buffer 8000 --switch 300 falling uneven",
        file: NO_FILE,
        files: &CHANGING,
        status: 0,
        out: Is(WAVES_TEXT),
        err: "",
    },
    Case {
        name: "three networks",
        words: "compare --regret --manifest s --rules throughput:2/bola:9/mpc:5/fixed:1 --utilities 1,4,6 --buffer 3000 --stall 40 --startup 3 uneven falling c500.json",
        file: NO_FILE,
        files: &CHANGING,
        status: 0,
        out: Is(SHORT_TEXT),
        err: "",
    },
];

#[test]
fn cases(rt: HostRuntime) -> Result<(), Fail> {
    for case in &CASES {
        assert_answer(&rt, rt.alloc(), case)?;
    }
    Ok(())
}

// The rules bola:1 to bola:32 on three traces.
const LADDER: &str =
    "compare --regret --manifest m --rules bola:1/bola:2/bola:3/bola:4/bola:5/bola:6/bola:7/bola:8/bola:9/bola:10/bola:11/bola:12/bola:13/bola:14/bola:15/bola:16/bola:17/bola:18/bola:19/bola:20/bola:21/bola:22/bola:23/bola:24/bola:25/bola:26/bola:27/bola:28/bola:29/bola:30/bola:31/bola:32 --utilities 0,10 --buffer 10000 c2000.json c500.json c200.json";

// What stands before the rows of the rules bola:N, from a first weight to a last, which are alike behind these words.
#[rattlefmt::skip]
static STEPS: [(&str, &str, u32, u32, &str); 14] = [
    ("trace c2000.json\n", "rule", 1, 9, "score 29000 best 29000 regret 0"),
    ("", "rule", 10, 12, "score 19500 best 29000 regret 9500"),
    ("", "rule", 13, 13, "score 9500 best 29000 regret 19500"),
    ("", "rule", 14, 32, "score -500 best 29000 regret 29500"),
    ("trace c500.json\n", "rule", 1, 9, "score -574000 best -194000 regret 380000"),
    ("", "rule", 10, 12, "score -582000 best -194000 regret 388000"),
    ("", "rule", 13, 32, "score -202000 best -194000 regret 8000"),
    ("trace c200.json\n", "rule", 1, 9, "score -1780000 best -800000 regret 980000"),
    ("", "rule", 10, 12, "score -1785000 best -800000 regret 985000"),
    ("", "rule", 13, 32, "score -805000 best -800000 regret 5000"),
    ("", "total", 1, 9, "score -2325000 best -965000 regret 1360000 worst 980000"),
    ("", "total", 10, 12, "score -2347500 best -965000 regret 1382500 worst 985000"),
    ("", "total", 13, 13, "score -997500 best -965000 regret 32500 worst 19500"),
    ("", "total", 14, 32, "score -1007500 best -965000 regret 42500 worst 29500"),
];

// The rows of a step.
fn push_rows(
    alloc: Global,
    text: &mut String,
    word: &str,
    weights: RangeInclusive<u32>,
    row: &str,
) -> Result<(), AllocError> {
    for weight in weights {
        text.push_str(&format!(in alloc; "{word} bola:{weight} {row}\n")?)?;
    }
    Ok(())
}

#[test]
fn rules_32_by_traces_3(rt: HostRuntime) -> Result<(), Fail> {
    let alloc = rt.alloc();
    let mut text = String::new(alloc);
    for (head, word, first, last, row) in &STEPS {
        text.push_str(head)?;
        push_rows(alloc, &mut text, word, *first..=*last, row)?;
    }
    let answer = run_words(alloc, LADDER, &LINKS, NONE)?;
    assert_eq!(rt; answer.out.written(), text.as_bytes());
    assert_eq!(rt; answer.status, 0);
    Ok(())
}

// What comes before the 64 traces t1 to t64, which are of three kinds, and the row of each kind.
const MANY: &str = "compare --regret --manifest m --rules fixed:1 --utilities 0,10 --buffer 10000";

#[rattlefmt::skip]
static ROWS: [&str; 3] = [
    "rule fixed:1 score 29000 best 29000 regret 0",
    "rule fixed:1 score -574000 best -194000 regret 380000",
    "rule fixed:1 score -1780000 best -800000 regret 980000",
];

const MANY_TOTAL: &str =
    "total fixed:1 score -49399000 best -20459000 regret 28940000 worst 980000\n";

#[test]
fn a_rule_by_traces_64(rt: HostRuntime) -> Result<(), Fail> {
    let alloc = rt.alloc();
    let mut line = String::from_str(alloc, MANY)?;
    let mut text = String::new(alloc);
    let mut files = file_list(alloc, &[("m", FILM)])?;
    for place in 1..=64usize {
        let name = format!(in alloc; "t{place}")?;
        files.push(file(alloc, &name, KINDS[place % 3])?)?;
        line.push_str(&format!(in alloc; " {name}")?)?;
        text.push_str(&format!(in alloc; "trace {name}\n{}\n", ROWS[place % 3])?)?;
    }
    text.push_str(MANY_TOTAL)?;
    let answer = run_files(alloc, &line, files, NONE)?;
    assert_eq!(rt; answer.out.written(), text.as_bytes());
    assert_eq!(rt; answer.status, 0);
    Ok(())
}
