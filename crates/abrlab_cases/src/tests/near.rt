// Whole runs with bounds by prices: plans, checks of certificates, and regrets.
use super::Text::{Begins, Is};
use super::files::{FALLING, SHORT, SHORT_WEIGHED, SLOW, STEADY, UNEVEN, WAVES};
use super::{Case, File, NO_FILE, Planned, Round, assert_answer, assert_planned, assert_round};
use std::test::Fail;

// Two films on networks that change.
const LONGER: [File; 2] = [("m", WAVES), ("t", FALLING)];

const SHORTER: [File; 2] = [("m", SHORT), ("t", UNEVEN)];

// Plans, and the checks of their certificates.
#[rattlefmt::skip]
static PLANS: [(&[File], Planned); 1] = [
    (&STEADY, Planned {
        task: "--manifest m --trace t --utilities 0,10 --buffer 10000",
        plan: "--near",
        check: "--near",
        text: "score 29000\nbound 29000\nplan 1 1 1\n",
        verdict: "yes score 29000 bound 29000\n",
    }),
];

#[test]
fn plans(rt: HostRuntime) -> Result<(), Fail> {
    for (files, planned) in &PLANS {
        assert_planned(&rt, rt.alloc(), planned, files)?;
    }
    Ok(())
}

// What is found, whatever it is, is accepted.
#[rattlefmt::skip]
static ROUNDS: [Round; 5] = [
    Round {
        plan: "plan --near --manifest m --trace t --utilities 0,10 --buffer 10000 --as-certificate",
        check: "check --near --manifest m --trace t --utilities 0,10 --buffer 10000 --certificate c",
        files: &SLOW,
        status: 0,
        out: Begins("yes score "),
        err: "",
    },
    Round {
        plan: "plan --near --manifest m --trace t --utilities 0,10,25 --buffer 4000 --switch 7 --stall 11 --startup 13 --live 1700 --as-certificate",
        check: "check --near --manifest m --trace t --utilities 0,10,25 --buffer 4000 --switch 7 --stall 11 --startup 13 --live 1700 --certificate c",
        files: &SHORTER,
        status: 0,
        out: Begins("yes score "),
        err: "",
    },
    Round {
        plan: "plan --near --manifest m --trace t --utilities 0,5,5,20 --buffer 12000 --switch 3 --as-certificate",
        check: "check --near --manifest m --trace t --utilities 0,5,5,20 --buffer 12000 --switch 3 --certificate c",
        files: &LONGER,
        status: 0,
        out: Begins("yes score "),
        err: "",
    },
    Round {
        plan: "plan --near --manifest m --trace t --utility-table u --buffer 4000 --stall 1000 --as-certificate",
        check: "check --near --manifest m --trace t --utility-table u --buffer 4000 --stall 1000 --certificate c",
        files: &SHORT_WEIGHED,
        status: 0,
        out: Begins("yes score "),
        err: "",
    },
    // A certificate by prices is none by labels.
    Round {
        plan: "plan --near --manifest m --trace t --utilities 0,10 --buffer 10000 --as-certificate",
        check: "check --manifest m --trace t --utilities 0,10 --buffer 10000 --certificate c",
        files: &SLOW,
        status: 3,
        out: Is(""),
        err: "abrlab: certificate file: bad-line at line row 1 column 0\n",
    },
];

#[test]
fn rounds(rt: HostRuntime) -> Result<(), Fail> {
    for round in &ROUNDS {
        assert_round(&rt, rt.alloc(), round)?;
    }
    Ok(())
}

// What the check of each certificate says.
const CHECK: &str =
    "check --near --manifest m --trace t --utilities 0,10 --buffer 10000 --certificate c";

const MISFIT: &str =
    "check --near --manifest m --trace t --utilities 0 --buffer 10000 --certificate c";

#[rattlefmt::skip]
static CHECKS: [Case; 12] = [
    Case { name: "near yes", words: CHECK, file: ("c", "abrlab prices 1\nsegments 3\nrungs 2\nscore 29000\nbound 29000\nplan 1 1 1\nwindows 0\nend\n"), files: &STEADY, status: 0, out: Is("yes score 29000 bound 29000\n"), err: "" },
    Case { name: "near a bound above that of its windows", words: CHECK, file: ("c", "abrlab prices 1\nsegments 3\nrungs 2\nscore 29000\nbound 30000\nplan 1 1 1\nwindows 0\nend\n"), files: &STEADY, status: 0, out: Is("yes score 29000 bound 30000\n"), err: "" },
    Case { name: "near P1", words: CHECK, file: ("c", "abrlab prices 1\nsegments 4\nrungs 2\nscore 29000\nbound 29000\nplan 1 1 1 1\nwindows 0\nend\n"), files: &STEADY, status: 1, out: Is("no P1\n"), err: "" },
    Case { name: "near P2 of a rung", words: CHECK, file: ("c", "abrlab prices 1\nsegments 3\nrungs 2\nscore 1\nbound 1\nplan 1 2 1\nwindows 1\n0 1 5\nend\n"), files: &STEADY, status: 1, out: Is("no P2 segment 1\n"), err: "" },
    Case { name: "near P2 of a window", words: CHECK, file: ("c", "abrlab prices 1\nsegments 3\nrungs 2\nscore 1\nbound 1\nplan 1 1 1\nwindows 1\n0 1 5\nend\n"), files: &STEADY, status: 1, out: Is("no P2 window 0\n"), err: "" },
    Case { name: "near P2 of the order", words: CHECK, file: ("c", "abrlab prices 1\nsegments 3\nrungs 2\nscore 1\nbound 1\nplan 1 1 1\nwindows 2\n1 1 5\n1 1 5\nend\n"), files: &STEADY, status: 1, out: Is("no P2 window 1\n"), err: "" },
    Case { name: "near P3", words: CHECK, file: ("c", "abrlab prices 1\nsegments 3\nrungs 2\nscore 1\nbound 28999\nplan 1 1 1\nwindows 0\nend\n"), files: &STEADY, status: 1, out: Is("no P3 bound 29000\n"), err: "" },
    Case { name: "near P4", words: CHECK, file: ("c", "abrlab prices 1\nsegments 3\nrungs 2\nscore 29001\nbound 29001\nplan 1 1 1\nwindows 0\nend\n"), files: &STEADY, status: 1, out: Is("no P4 score 29000\n"), err: "" },
    Case { name: "near cut", words: CHECK, file: ("c", "abrlab prices 1\nsegments 3\nrungs 2\nscore 29000\nbound 29000\nplan 1 1 1\nwindows 0\n"), files: &STEADY, status: 3, out: Is(""), err: "abrlab: certificate file: bad-line at line row 8 column 0\n" },
    Case { name: "near by labels", words: CHECK, file: ("c", "abrlab certificate 1\n"), files: &STEADY, status: 3, out: Is(""), err: "abrlab: certificate file: bad-line at line row 1 column 0\n" },
    Case { name: "near a bad line before a setting", words: MISFIT, file: ("c", "abrlab prices 2\n"), files: &STEADY, status: 3, out: Is(""), err: "abrlab: certificate file: bad-line at line row 1 column 0\n" },
    Case { name: "near a setting", words: MISFIT, file: ("c", "abrlab prices 1\nsegments 3\nrungs 2\nscore 29000\nbound 29000\nplan 1 1 1\nwindows 0\nend\n"), files: &STEADY, status: 3, out: Is(""), err: "abrlab: settings: utilities\n" },
];

#[test]
fn checks(rt: HostRuntime) -> Result<(), Fail> {
    for case in &CHECKS {
        assert_answer(&rt, rt.alloc(), case)?;
    }
    Ok(())
}

// Regrets beside bounds.
#[rattlefmt::skip]
static REGRETS: [Case; 1] = [
    Case {
        name: "near regrets",
        words: "compare --regret --near --manifest m --rules fixed:1/fixed:0 --utilities 0,10 --buffer 10000 t",
        file: NO_FILE,
        files: &STEADY,
        status: 0,
        out: Is("trace t\nrule fixed:1 score 29000 bound 29000 regret 0\nrule fixed:0 score -500 bound 29000 regret 29500\ntotal fixed:1 score 29000 bound 29000 regret 0 worst 0\ntotal fixed:0 score -500 bound 29000 regret 29500 worst 29500\n"),
        err: "",
    },
];

#[test]
fn regrets(rt: HostRuntime) -> Result<(), Fail> {
    for case in &REGRETS {
        assert_answer(&rt, rt.alloc(), case)?;
    }
    Ok(())
}
