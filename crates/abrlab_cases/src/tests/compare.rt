// Whole runs of `compare`.
use super::Text::Is;
use super::files::{C200, C500, C2000, FILM};
use super::{Case, File, NO_FILE, NONE, assert_answer, run_words};
use std::alloc::{AllocError, Global};
use std::ops::RangeInclusive;
use std::test::Fail;

pub(super) const LINKS: [File; 5] = [
    ("m", FILM),
    ("c2000.json", C2000),
    ("c500.json", C500),
    ("c200.json", C200),
    ("s", "at_ms,to_segment\n1000,2\n"),
];

pub(super) const PAIR: &str =
    "compare --manifest m --rules fixed:1/fixed:0/fixed:1 --utilities 0,10 --buffer 10000 c2000.json c500.json c2000.json";

pub(super) const PAIR_TEXT: &str = "trace c2000.json
rule fixed:1 startup 1000 stall 0 stalls 0 seeking 0 wasted 0 end 4000 score 29000
rule fixed:0 startup 500 stall 0 stalls 0 seeking 0 wasted 0 end 3500 score -500
trace c500.json
rule fixed:1 startup 4000 stall 6000 stalls 2 seeking 0 wasted 0 end 13000 score -574000
rule fixed:0 startup 2000 stall 2000 stalls 2 seeking 0 wasted 0 end 7000 score -202000
";

// One of each rule, in a session of its own on each trace.
const ABANDONED_TEXT: &str = "trace c500.json
rule fixed:1 startup 2500 stall 3000 stalls 2 seeking 0 wasted 750000 end 8500 score -302500
rule throughput:3,5 startup 2000 stall 2000 stalls 2 seeking 0 wasted 0 end 7000 score -202000
rule bola:5 startup 2500 stall 3000 stalls 2 seeking 0 wasted 750000 end 8500 score -302500
rule mpc:3 startup 2000 stall 2000 stalls 2 seeking 0 wasted 0 end 7000 score -202000
rule list:1,0,1 startup 2500 stall 2500 stalls 2 seeking 0 wasted 500000 end 8000 score -252500
trace c200.json
rule fixed:1 startup 5500 stall 9000 stalls 2 seeking 0 wasted 300000 end 17500 score -905500
rule throughput:3,5 startup 5000 stall 8000 stalls 2 seeking 0 wasted 0 end 16000 score -805000
rule bola:5 startup 5500 stall 9000 stalls 2 seeking 0 wasted 300000 end 17500 score -905500
rule mpc:3 startup 5000 stall 8000 stalls 2 seeking 0 wasted 0 end 16000 score -805000
rule list:1,0,1 startup 5500 stall 8500 stalls 2 seeking 0 wasted 200000 end 17000 score -855500
";

const SOUGHT_TEXT: &str = "trace c2000.json
rule fixed:1 startup 1000 stall 0 stalls 0 seeking 1000 wasted 2000000 end 3000 score 9000
rule fixed:0 startup 500 stall 0 stalls 0 seeking 500 wasted 1000000 end 2500 score -500
trace c500.json
rule fixed:1 startup 1000 stall 0 stalls 0 seeking 4000 wasted 500000 end 6000 score 9000
rule fixed:0 startup 1000 stall 0 stalls 0 seeking 2000 wasted 500000 end 4000 score -1000
";

#[rattlefmt::skip]
static CASES: [Case; 11] = [
    Case {
        name: "two rules two traces",
        words: PAIR,
        file: NO_FILE,
        files: &LINKS,
        status: 0,
        out: Is(PAIR_TEXT),
        err: "",
    },
    Case {
        name: "each rule on each trace",
        words: "compare --abandon --manifest m --rules fixed:1/throughput:3,5/bola:5/mpc:3/list:1,0,1 --utilities 0,10 --buffer 10000 c500.json c200.json",
        file: NO_FILE,
        files: &LINKS,
        status: 0,
        out: Is(ABANDONED_TEXT),
        err: "",
    },
    Case {
        name: "sought",
        words: "compare --manifest m --seeks s --rules fixed:1/fixed:0 --utilities 0,10 --buffer 10000 c2000.json c500.json",
        file: NO_FILE,
        files: &LINKS,
        status: 0,
        out: Is(SOUGHT_TEXT),
        err: "",
    },
    Case {
        name: "settings",
        words: "compare --manifest m --rules fixed:1/fixed:2 --utilities 0,10 --buffer 1000 c2000.json c500.json",
        file: NO_FILE,
        files: &LINKS,
        status: 3,
        out: Is(""),
        err: "abrlab: settings: rule 2\n",
    },
    Case {
        name: "settings",
        words: "compare --manifest m --rules fixed:1/list:1,1 --utilities 0,10 --buffer 1000 c2000.json c500.json",
        file: NO_FILE,
        files: &LINKS,
        status: 3,
        out: Is(""),
        err: "abrlab: settings: rule 2\n",
    },
    Case {
        name: "settings",
        words: "compare --manifest m --rules fixed:1/fixed:2 --utilities 0,10 --buffer 999 c2000.json c500.json",
        file: NO_FILE,
        files: &LINKS,
        status: 3,
        out: Is(""),
        err: "abrlab: settings: buffer\n",
    },
    Case {
        name: "settings",
        words: "compare --manifest m --rules fixed:1/fixed:2 --utilities 0,10,20 --buffer 1000 c2000.json c500.json",
        file: NO_FILE,
        files: &LINKS,
        status: 3,
        out: Is(""),
        err: "abrlab: settings: utilities\n",
    },
    Case {
        name: "missing file",
        words: "compare --rules fixed:1/fixed:0 --utilities 0,10 --buffer 1000 --manifest m c2000.json x",
        file: NO_FILE,
        files: &LINKS,
        status: 4,
        out: Is(""),
        err: "abrlab: trace 2 file: not read\n",
    },
    Case {
        name: "missing file",
        words: "compare --rules fixed:1/fixed:0 --utilities 0,10 --buffer 1000 --manifest m --seeks x c2000.json y",
        file: NO_FILE,
        files: &LINKS,
        status: 4,
        out: Is(""),
        err: "abrlab: trace 2 file: not read\n",
    },
    Case {
        name: "missing file",
        words: "compare --rules fixed:1/fixed:0 --utilities 0,10 --buffer 1000 --manifest m --seeks x c2000.json c500.json",
        file: NO_FILE,
        files: &LINKS,
        status: 4,
        out: Is(""),
        err: "abrlab: seeks file: not read\n",
    },
    Case {
        name: "missing file",
        words: "compare --rules fixed:1/fixed:0 --utilities 0,10 --buffer 1000 --manifest x c2000.json y",
        file: NO_FILE,
        files: &LINKS,
        status: 4,
        out: Is(""),
        err: "abrlab: manifest file: not read\n",
    },
];

#[test]
fn cases(rt: HostRuntime) -> Result<(), Fail> {
    for case in &CASES {
        assert_answer(&rt, rt.alloc(), case)?;
    }
    Ok(())
}

// The rules bola:1 to bola:32 on three traces.
const LADDER: &str =
    "compare --manifest m --rules bola:1/bola:2/bola:3/bola:4/bola:5/bola:6/bola:7/bola:8/bola:9/bola:10/bola:11/bola:12/bola:13/bola:14/bola:15/bola:16/bola:17/bola:18/bola:19/bola:20/bola:21/bola:22/bola:23/bola:24/bola:25/bola:26/bola:27/bola:28/bola:29/bola:30/bola:31/bola:32 --utilities 0,10 --buffer 10000 c2000.json c500.json c200.json";

// What stands before the rows of the rules bola:N, from a first weight to a last, which are alike.
#[rattlefmt::skip]
static STEPS: [(&str, u32, u32, &str); 10] = [
    ("trace c2000.json\n", 1, 9, "startup 1000 stall 0 stalls 0 seeking 0 wasted 0 end 4000 score 29000"),
    ("", 10, 12, "startup 500 stall 0 stalls 0 seeking 0 wasted 0 end 3500 score 19500"),
    ("", 13, 13, "startup 500 stall 0 stalls 0 seeking 0 wasted 0 end 3500 score 9500"),
    ("", 14, 32, "startup 500 stall 0 stalls 0 seeking 0 wasted 0 end 3500 score -500"),
    ("trace c500.json\n", 1, 9, "startup 4000 stall 6000 stalls 2 seeking 0 wasted 0 end 13000 score -574000"),
    ("", 10, 12, "startup 2000 stall 6000 stalls 2 seeking 0 wasted 0 end 11000 score -582000"),
    ("", 13, 32, "startup 2000 stall 2000 stalls 2 seeking 0 wasted 0 end 7000 score -202000"),
    ("trace c200.json\n", 1, 9, "startup 10000 stall 18000 stalls 2 seeking 0 wasted 0 end 31000 score -1780000"),
    ("", 10, 12, "startup 5000 stall 18000 stalls 2 seeking 0 wasted 0 end 26000 score -1785000"),
    ("", 13, 32, "startup 5000 stall 8000 stalls 2 seeking 0 wasted 0 end 16000 score -805000"),
];

// The rows of a step.
fn push_rows(
    alloc: Global,
    text: &mut String,
    weights: RangeInclusive<u32>,
    row: &str,
) -> Result<(), AllocError> {
    for weight in weights {
        text.push_str(&format!(in alloc; "rule bola:{weight} {row}\n")?)?;
    }
    Ok(())
}

#[test]
fn rules_32_by_traces_3(rt: HostRuntime) -> Result<(), Fail> {
    let alloc = rt.alloc();
    let mut text = String::new(alloc);
    for (head, first, last, row) in &STEPS {
        text.push_str(head)?;
        push_rows(alloc, &mut text, *first..=*last, row)?;
    }
    let answer = run_words(alloc, LADDER, &LINKS, NONE)?;
    assert_eq!(rt; answer.out.written(), text.as_bytes());
    assert_eq!(rt; answer.status, 0);
    Ok(())
}
