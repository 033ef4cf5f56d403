// Whole runs of `check`.
use super::Text::Is;
use super::files::{C2000, FILM, LEAST, STEADY};
use super::made::{Film, LONG, UP_AND_DOWN, manifest_of, trace_of};
use super::plan::{CERTIFICATE, TINY_CERTIFICATE};
use super::{Answer, Case, NO_FILE, NONE, Text, assert_answer, run_words};
use std::alloc::{AllocError, Global};
use std::process::Abort;
use std::test::Fail;

pub(super) const CHECK: &str =
    "check --manifest m --trace t --utilities 0,10 --buffer 10000 --certificate c";

// A buffer that is too small, and a utility too many.
const SMALL: &str = "check --manifest m --trace t --utilities 0,10 --buffer 999 --certificate c";

const RICH: &str = "check --manifest m --trace t --utilities 0,10,20 --certificate c";

// The certificate of the steady plan with some labels in another order.
const OTHER_ORDER: &str = "abrlab certificate 1
segments 3
rungs 2
score 29000
plan 1 1 1
start 0 0
layer 0 0 1
500 500 49500 0 0
layer 0 1 1
1000 1000 109000 1 1
layer 1 0 2
1000 500 49500 1 0
1500 1000 109000 2 2
layer 1 1 2
1500 500 59500 0 1
2000 1000 119000 3 3
layer 2 0 4
2000 500 59500
1500 500 49500
2000 1000 109000
2500 1000 119000
layer 2 1 4
2000 500 59500
2500 500 69500
2500 1000 119000
3000 1000 129000
end
";

#[rattlefmt::skip]
static CASES: [Case; 6] = [
    Case {
        name: "steady plan",
        words: CHECK,
        file: ("c", CERTIFICATE),
        files: &STEADY,
        status: 0,
        out: Is("yes score 29000\n"),
        err: "",
    },
    Case {
        name: "steady plan with a smaller buffer",
        words: "check --manifest=m --trace=t --utilities=0,10 --buffer=2000 --certificate=c",
        file: ("c", CERTIFICATE),
        files: &STEADY,
        status: 0,
        out: Is("yes score 29000\n"),
        err: "",
    },
    Case {
        name: "other order",
        words: CHECK,
        file: ("c", OTHER_ORDER),
        files: &STEADY,
        status: 0,
        out: Is("yes score 29000\n"),
        err: "",
    },
    Case {
        name: "certificate of another film",
        words: CHECK,
        file: ("c", TINY_CERTIFICATE),
        files: &STEADY,
        status: 1,
        out: Is("no V1 segment 0 rung 0 label 0\n"),
        err: "",
    },
    Case {
        name: "smallest input",
        words: "check --manifest m --trace t --utilities 0 --buffer 1 --certificate c",
        file: ("c", TINY_CERTIFICATE),
        files: &LEAST,
        status: 0,
        out: Is("yes score -1\n"),
        err: "",
    },
    Case {
        name: "missing certificate",
        words: CHECK,
        file: ("x", ""),
        files: &STEADY,
        status: 4,
        out: Is(""),
        err: "abrlab: certificate file: not read\n",
    },
];

#[test]
fn cases(rt: HostRuntime) -> Result<(), Fail> {
    for case in &CASES {
        assert_answer(&rt, rt.alloc(), case)?;
    }
    Ok(())
}

// The certificate of the steady plan with another line at a row, the first being 1, and what `check` answers.
struct Spoiled {
    row: usize,
    line: &'static str,
    words: &'static str,
    status: u8,
    out: Text,
    err: &'static str,
}

#[rattlefmt::skip]
static SPOILED: [Spoiled; 21] = [
    Spoiled { row: 6, line: "start 0 1", words: CHECK, status: 1, out: Is("no V2 segment 0 rung 1 label 0\n"), err: "" },
    Spoiled { row: 13, line: "1500 1000 109000 2 4", words: CHECK, status: 1, out: Is("no V2 segment 1 rung 0 label 1\n"), err: "" },
    Spoiled { row: 10, line: "1001 1000 109000 1 1", words: CHECK, status: 1, out: Is("no V3 segment 0 rung 1 label 0\n"), err: "" },
    Spoiled { row: 8, line: "500 500 49501 0 0", words: CHECK, status: 1, out: Is("no V4 segment 0 rung 0 label 0\n"), err: "" },
    Spoiled { row: 16, line: "2000 1000 119001 3 3", words: CHECK, status: 1, out: Is("no V4 segment 1 rung 1 label 1\n"), err: "" },
    Spoiled { row: 4, line: "score 28999", words: CHECK, status: 1, out: Is("no V5 segment 2 rung 1 label 3\n"), err: "" },
    Spoiled { row: 4, line: "score 29001", words: CHECK, status: 1, out: Is("no V6 segment 0 rung 0 label 0\n"), err: "" },
    Spoiled { row: 10, line: "1000000000000000 1000 109000 1 1", words: CHECK, status: 1, out: Is("no V3 segment 0 rung 1 label 0\n"), err: "" },
    Spoiled { row: 10, line: "1000000000000001 1000 109000 1 1", words: CHECK, status: 1, out: Is("no V2 segment 0 rung 1 label 0\n"), err: "" },
    Spoiled { row: 8, line: "0500 500 49500 0 0", words: CHECK, status: 3, out: Is(""), err: "abrlab: certificate file: bad-line at line row 8 column 0\n" },
    Spoiled { row: 10, line: "1000000000000000000 1000 109000 1 1", words: CHECK, status: 3, out: Is(""), err: "abrlab: certificate file: bad-line at line row 10 column 0\n" },
    Spoiled { row: 1, line: "abrlab certificate 2", words: CHECK, status: 3, out: Is(""), err: "abrlab: certificate file: bad-line at line row 4 column 0\n" },
    Spoiled { row: 10, line: "1001 1000 109000 1", words: CHECK, status: 3, out: Is(""), err: "abrlab: certificate file: bad-line at line row 10 column 0\n" },
    Spoiled { row: 27, line: "End", words: CHECK, status: 3, out: Is(""), err: "abrlab: certificate file: bad-line at line row 27 column 0\n" },
    Spoiled { row: 27, line: "end\n", words: CHECK, status: 3, out: Is(""), err: "abrlab: certificate file: bad-line at line row 28 column 0\n" },
    Spoiled { row: 4, line: "score 29001", words: SMALL, status: 3, out: Is(""), err: "abrlab: settings: buffer\n" },
    Spoiled { row: 2, line: "segments 03", words: SMALL, status: 3, out: Is(""), err: "abrlab: certificate file: bad-line at line row 2 column 0\n" },
    Spoiled { row: 27, line: "End", words: SMALL, status: 3, out: Is(""), err: "abrlab: certificate file: bad-line at line row 27 column 0\n" },
    Spoiled { row: 4, line: "score 29001", words: RICH, status: 3, out: Is(""), err: "abrlab: settings: utilities\n" },
    Spoiled { row: 2, line: "segments 03", words: RICH, status: 3, out: Is(""), err: "abrlab: certificate file: bad-line at line row 2 column 0\n" },
    Spoiled { row: 27, line: "End", words: RICH, status: 3, out: Is(""), err: "abrlab: certificate file: bad-line at line row 27 column 0\n" },
];

// The certificate of the steady plan with another line at a row.
fn with_line(alloc: Global, row: usize, other: &str) -> Result<String, AllocError> {
    let mut text = String::new(alloc);
    for (index, line) in CERTIFICATE.lines().enumerate() {
        text.push_str(if index + 1 == row { other } else { line })?;
        text.push('\n')?;
    }
    Ok(text)
}

#[test]
fn spoiled_certificates(rt: HostRuntime) -> Result<(), Fail> {
    let alloc = rt.alloc();
    for spoiled in &SPOILED {
        let text = with_line(alloc, spoiled.row, spoiled.line)?;
        let files = [("c", text.as_str()), ("m", FILM), ("t", C2000)];
        let answer = run_words(alloc, spoiled.words, &files, NONE)?;
        assert!(rt;
            answer.is(spoiled.status, &spoiled.out, spoiled.err),
            "{}",
            spoiled.line
        );
    }
    Ok(())
}

// A plan as a certificate on a made film and network, the check of it, and the yes.
struct Planned {
    film: Film,
    periods: &'static [(u64, u64, u64)],
    plan: &'static str,
    check: &'static str,
    yes: &'static str,
}

#[rattlefmt::skip]
static PLANNED: [Planned; 2] = [
    Planned {
        film: Film { seg_ms: 1000, bitrates: &[1000, 2000], shares: &[100], segments: 3 },
        periods: &[(60_000, 2000, 0)],
        plan: "plan --as-certificate --manifest m --trace t --utilities 0,10 --buffer 10000",
        check: "check --certificate c --manifest m --trace t --utilities 0,10 --buffer 10000",
        yes: "yes score 29000\n",
    },
    Planned {
        film: LONG,
        periods: &UP_AND_DOWN,
        plan: "plan --as-certificate --manifest m --trace t --utilities 0,1,2,3,4,5,6,7,8,9 --buffer 6000",
        check: "check --certificate c --manifest m --trace t --utilities 0,1,2,3,4,5,6,7,8,9 --buffer 6000",
        yes: "yes score 1789450\n",
    },
];

// What `check` answers to a certificate.
fn check_of<'a>(
    alloc: Global,
    words: &str,
    manifest: &'a str,
    trace: &'a str,
    certificate: &'a str,
) -> Result<Answer, AllocError> {
    let files = [("m", manifest), ("t", trace), ("c", certificate)];
    run_words(alloc, words, &files, NONE)
}

// `check` says yes to what `plan` answers.
fn assert_accepted<'a>(
    rt: &impl Abort,
    alloc: Global,
    planned: &Planned,
    manifest: &'a str,
    trace: &'a str,
) -> Result<(), Fail> {
    let plan = run_words(alloc, planned.plan, &[("m", manifest), ("t", trace)], NONE)?;
    let certificate = str::from_utf8(plan.out.written())?;
    let check = check_of(alloc, planned.check, manifest, trace, certificate)?;
    assert!(rt; check.is(0, &Is(planned.yes), ""), "{}", planned.plan);
    Ok(())
}

#[test]
fn planned_and_checked(rt: HostRuntime) -> Result<(), Fail> {
    let alloc = rt.alloc();
    for planned in &PLANNED {
        let manifest = manifest_of(alloc, &planned.film)?;
        let trace = trace_of(alloc, planned.periods)?;
        assert_accepted(&rt, alloc, planned, &manifest, &trace)?;
    }
    Ok(())
}
