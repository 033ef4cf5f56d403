// Whole runs with options of further reach: live sessions, and plans with a certified gap.
use super::Text::{Ends, Is};
use super::files::{
    FALLING, SHORT, SHORT_WEIGHED, SLOW, STEADY, UNEVEN, WAVES, WAVES_WEIGHED, WEIGHED,
};
use super::{
    Answer, Case, File, NO_FILE, NONE, Planned, Round, Text, assert_answer, assert_planned,
    assert_round, run_words,
};
use std::alloc::{AllocError, Global};
use std::test::Fail;

// Two films on networks that change.
const LONGER: [File; 2] = [("m", WAVES), ("t", FALLING)];

const SHORTER: [File; 2] = [("m", SHORT), ("t", UNEVEN)];

// Live sessions.
#[rattlefmt::skip]
static SESSIONS: [Case; 10] = [
    Case {
        name: "live edge",
        words: "simulate --manifest m --trace t --utilities 0,10 --buffer 10000 --rule fixed:1 --live 0",
        file: NO_FILE,
        files: &STEADY,
        status: 0,
        out: Is("1000 request 0 1\n2000 arrive 0 1 first 1000 rate 2000000\n2000 request 1 1\n2000 play 0 1\n3000 arrive 1 1 first 2000 rate 2000000\n3000 request 2 1\n3000 play 1 1\n4000 arrive 2 1 first 3000 rate 2000000\n4000 play 2 1\n5000 end\nstartup 2000\nstall 0\nstalls 0\nseeking 0\nwasted 0\nend 5000\nscore 28000\n"),
        err: "",
    },
    Case {
        name: "live edge on the low rung",
        words: "simulate --manifest m --trace t --utilities 0,10 --buffer 10000 --rule fixed:0 --live 0",
        file: NO_FILE,
        files: &STEADY,
        status: 0,
        out: Ends("startup 1500\nstall 0\nstalls 0\nseeking 0\nwasted 0\nend 4500\nscore -1500\n"),
        err: "",
    },
    Case {
        name: "live behind",
        words: "simulate --manifest m --trace t --utilities 0,10 --buffer 10000 --rule fixed:1 --live 3000",
        file: NO_FILE,
        files: &STEADY,
        status: 0,
        out: Is("0 request 0 1\n1000 arrive 0 1 first 0 rate 2000000\n1000 request 1 1\n1000 play 0 1\n2000 arrive 1 1 first 1000 rate 2000000\n2000 request 2 1\n2000 play 1 1\n3000 arrive 2 1 first 2000 rate 2000000\n3000 play 2 1\n4000 end\nstartup 1000\nstall 0\nstalls 0\nseeking 0\nwasted 0\nend 4000\nscore 29000\n"),
        err: "",
    },
    Case {
        name: "live in mid-segment",
        words: "simulate --manifest m --trace t --utilities 0,10,25 --buffer 4000 --switch 7 --stall 11 --startup 13 --rule mpc:3 --live 1700",
        file: NO_FILE,
        files: &SHORTER,
        status: 0,
        out: Ends("startup 295\nstall 2194\nstalls 1\nseeking 0\nwasted 0\nend 8489\nscore 41611\n"),
        err: "",
    },
    Case {
        name: "live with the film over",
        words: "simulate --manifest m --trace t --utilities 0,10,25 --buffer 4000 --switch 7 --stall 11 --startup 13 --rule throughput:3,5 --live 120000000",
        file: NO_FILE,
        files: &SHORTER,
        status: 0,
        out: Ends("startup 295\nstall 834\nstalls 2\nseeking 0\nwasted 0\nend 7129\nscore 36921\n"),
        err: "",
    },
    Case {
        name: "live at the edge",
        words: "simulate --manifest m --trace t --utilities 0,5,5,20 --buffer 12000 --switch 3 --rule bola:5 --live 2000",
        file: NO_FILE,
        files: &LONGER,
        status: 0,
        out: Ends("startup 192\nstall 5711\nstalls 4\nseeking 0\nwasted 0\nend 25903\nscore -536397\n"),
        err: "",
    },
    Case {
        name: "live on a list",
        words: "simulate --manifest m --trace t --utilities 0,10,25 --buffer 2000 --switch 7 --stall 11 --startup 13 --rule list:0,1,2,2,1,0 --live 333",
        file: NO_FILE,
        files: &SHORTER,
        status: 0,
        out: Is("667 request 0 0\n962 arrive 0 0 first 742 rate 2590909\n962 play 0 0\n1667 request 1 1\n1962 stall\n3534 arrive 1 1 first 1677 rate 743134\n3534 request 2 2\n3534 play 1 1\n4534 stall\n5135 arrive 2 2 first 3867 rate 2287066\n5135 request 3 2\n5135 play 2 2\n6135 stall\n8274 arrive 3 2 first 5210 rate 840404\n8274 request 4 1\n8274 play 3 2\n8880 arrive 4 1 first 8349 rate 2598870\n9274 request 5 0\n9274 play 4 1\n10274 stall\n10409 arrive 5 0 first 9349 rate 547169\n10409 play 5 0\n11409 end\nstartup 962\nstall 4447\nstalls 4\nseeking 0\nwasted 0\nend 11409\nscore 8227\n"),
        err: "",
    },
    Case {
        name: "live and abandoning",
        words: "simulate --manifest m --trace t --utilities 0,10 --buffer 10000 --rule fixed:1 --live 0 --abandon",
        file: NO_FILE,
        files: &STEADY,
        status: 2,
        out: Is(""),
        err: "abrlab: usage: simulate, compare, plan, check, demo\n",
    },
    Case {
        name: "live and seeking",
        words: "simulate --manifest m --trace t --utilities 0,10 --buffer 10000 --rule fixed:1 --live 0 --seeks s",
        file: NO_FILE,
        files: &STEADY,
        status: 2,
        out: Is(""),
        err: "abrlab: usage: simulate, compare, plan, check, demo\n",
    },
    Case {
        name: "more ahead than may be",
        words: "simulate --manifest m --trace t --utilities 0,10 --buffer 10000 --rule fixed:1 --live 120000001",
        file: NO_FILE,
        files: &STEADY,
        status: 2,
        out: Is(""),
        err: "abrlab: usage: simulate, compare, plan, check, demo\n",
    },
];

// Plans of live sessions, and plans on a grid.
#[rattlefmt::skip]
static PLANS: [Case; 12] = [
    Case {
        name: "live edge",
        words: "plan --manifest m --trace t --utilities 0,10 --buffer 10000 --live 0",
        file: NO_FILE,
        files: &STEADY,
        status: 0,
        out: Is("score 28000\nlabels 8\nplan 1 1 1\n"),
        err: "",
    },
    Case {
        name: "live behind",
        words: "plan --manifest m --trace t --utilities 0,10 --buffer 10000 --live 0 --budget 7",
        file: NO_FILE,
        files: &STEADY,
        status: 6,
        out: Is(""),
        err: "abrlab: budget spent at segment 2\n",
    },
    Case {
        name: "live in mid-segment",
        words: "plan --manifest m --trace t --utilities 0,10,25 --buffer 4000 --switch 7 --stall 11 --startup 13 --live 1700",
        file: NO_FILE,
        files: &SHORTER,
        status: 0,
        out: Is("score 70265\nlabels 152\nplan 1 2 1 2 2 2\n"),
        err: "",
    },
    Case {
        name: "live at the edge",
        words: "plan --manifest m --trace t --utilities 0,5,5,20 --buffer 12000 --switch 3 --live 2000",
        file: NO_FILE,
        files: &LONGER,
        status: 0,
        out: Is("score -10605\nlabels 478\nplan 3 3 3 3 1 0 0 0 1 1\n"),
        err: "",
    },
    Case {
        name: "live and coarse",
        words: "plan --manifest m --trace t --utilities 0,10 --buffer 10000 --live 0 --coarse 1,1",
        file: NO_FILE,
        files: &STEADY,
        status: 2,
        out: Is(""),
        err: "abrlab: usage: simulate, compare, plan, check, demo\n",
    },
    Case {
        name: "fine grid",
        words: "plan --manifest m --trace t --utilities 0,10 --buffer 10000 --coarse 1,1",
        file: NO_FILE,
        files: &SLOW,
        status: 0,
        out: Is("score -194000\nbound -194000\nlabels 12\nplan 1 0 0\n"),
        err: "",
    },
    Case {
        name: "coarse grid",
        words: "plan --manifest m --trace t --utilities 0,10 --buffer 10000 --coarse 4000,1",
        file: NO_FILE,
        files: &SLOW,
        status: 0,
        out: Is("score -392000\nbound 208000\nlabels 12\nplan 0 0 1\n"),
        err: "",
    },
    Case {
        name: "coarse grid and its budget",
        words: "plan --manifest m --trace t --utilities 0,10 --buffer 10000 --coarse 4000,1 --budget 11",
        file: NO_FILE,
        files: &SLOW,
        status: 6,
        out: Is(""),
        err: "abrlab: budget spent at segment 2\n",
    },
    Case {
        name: "no step of time",
        words: "plan --manifest m --trace t --utilities 0,10 --buffer 10000 --coarse 0,1",
        file: NO_FILE,
        files: &SLOW,
        status: 2,
        out: Is(""),
        err: "abrlab: usage: simulate, compare, plan, check, demo\n",
    },
    Case {
        name: "a coarser grid",
        words: "plan --manifest m --trace t --utilities 0,10,25 --buffer 4000 --switch 7 --stall 11 --startup 13 --coarse 100,1000",
        file: NO_FILE,
        files: &SHORTER,
        status: 0,
        out: Is("score 58444\nbound 76600\nlabels 150\nplan 0 2 2 2 2 2\n"),
        err: "",
    },
    Case {
        name: "the coarsest grid",
        words: "plan --manifest m --trace t --utilities 0,5,5,20 --buffer 12000 --switch 3 --coarse 10000,1000000",
        file: NO_FILE,
        files: &LONGER,
        status: 0,
        out: Is("score 44793\nbound 10000000\nlabels 40\nplan 0 1 1 1 1 1 1 1 1 1\n"),
        err: "",
    },
    Case {
        name: "a fine grid of values",
        words: "plan --manifest m --trace t --utilities 0,5,5,20 --buffer 12000 --switch 3 --coarse 1,250",
        file: NO_FILE,
        files: &LONGER,
        status: 0,
        out: Is("score 148670\nbound 149000\nlabels 1123\nplan 3 3 3 3 1 3 0 3 1 3\n"),
        err: "",
    },
];

#[test]
fn sessions(rt: HostRuntime) -> Result<(), Fail> {
    for case in &SESSIONS {
        assert_answer(&rt, rt.alloc(), case)?;
    }
    Ok(())
}

#[test]
fn plans(rt: HostRuntime) -> Result<(), Fail> {
    for case in &PLANS {
        assert_answer(&rt, rt.alloc(), case)?;
    }
    Ok(())
}

#[rattlefmt::skip]
static ROUNDS: [Round; 12] = [
    // Live edge.
    Round {
        plan: "plan --manifest m --trace t --utilities 0,10 --buffer 10000 --live 0 --as-certificate",
        check: "check --manifest m --trace t --utilities 0,10 --buffer 10000 --live 0 --certificate c",
        files: &STEADY,
        status: 0,
        out: Is("yes score 28000\n"),
        err: "",
    },
    // Another edge.
    Round {
        plan: "plan --manifest m --trace t --utilities 0,10 --buffer 10000 --live 0 --as-certificate",
        check: "check --manifest m --trace t --utilities 0,10 --buffer 10000 --live 1 --certificate c",
        files: &STEADY,
        status: 1,
        out: Is("no V3 segment 0 rung 0 label 0\n"),
        err: "",
    },
    // Live for on demand.
    Round {
        plan: "plan --manifest m --trace t --utilities 0,10 --buffer 10000 --as-certificate",
        check: "check --manifest m --trace t --utilities 0,10 --buffer 10000 --live 0 --certificate c",
        files: &STEADY,
        status: 1,
        out: Is("no V3 segment 0 rung 0 label 0\n"),
        err: "",
    },
    // On demand for live.
    Round {
        plan: "plan --manifest m --trace t --utilities 0,10 --buffer 10000 --live 0 --as-certificate",
        check: "check --manifest m --trace t --utilities 0,10 --buffer 10000 --certificate c",
        files: &STEADY,
        status: 1,
        out: Is("no V3 segment 0 rung 0 label 0\n"),
        err: "",
    },
    // Live in mid-segment.
    Round {
        plan: "plan --manifest m --trace t --utilities 0,10,25 --buffer 4000 --switch 7 --stall 11 --startup 13 --live 1700 --as-certificate",
        check: "check --manifest m --trace t --utilities 0,10,25 --buffer 4000 --switch 7 --stall 11 --startup 13 --live 1700 --certificate c",
        files: &SHORTER,
        status: 0,
        out: Is("yes score 70265\n"),
        err: "",
    },
    // Live at the edge.
    Round {
        plan: "plan --manifest m --trace t --utilities 0,5,5,20 --buffer 12000 --switch 3 --live 2000 --as-certificate",
        check: "check --manifest m --trace t --utilities 0,5,5,20 --buffer 12000 --switch 3 --live 2000 --certificate c",
        files: &LONGER,
        status: 0,
        out: Is("yes score -10605\n"),
        err: "",
    },
    // Coarse grid.
    Round {
        plan: "plan --manifest m --trace t --utilities 0,10 --buffer 10000 --coarse 4000,1 --as-certificate",
        check: "check --manifest m --trace t --utilities 0,10 --buffer 10000 --gap --certificate c",
        files: &SLOW,
        status: 0,
        out: Is("yes score -392000 bound 208000\n"),
        err: "",
    },
    // Fine grid.
    Round {
        plan: "plan --manifest m --trace t --utilities 0,10 --buffer 10000 --coarse 1,1 --as-certificate",
        check: "check --manifest m --trace t --utilities 0,10 --buffer 10000 --gap --certificate c",
        files: &SLOW,
        status: 0,
        out: Is("yes score -194000 bound -194000\n"),
        err: "",
    },
    // A gap certificate for a plain one.
    Round {
        plan: "plan --manifest m --trace t --utilities 0,10 --buffer 10000 --coarse 4000,1 --as-certificate",
        check: "check --manifest m --trace t --utilities 0,10 --buffer 10000 --certificate c",
        files: &SLOW,
        status: 3,
        out: Is(""),
        err: "abrlab: certificate file: bad-line at line row 1 column 0\n",
    },
    // A plain certificate for one with a gap.
    Round {
        plan: "plan --manifest m --trace t --utilities 0,10 --buffer 10000 --as-certificate",
        check: "check --manifest m --trace t --utilities 0,10 --buffer 10000 --gap --certificate c",
        files: &SLOW,
        status: 3,
        out: Is(""),
        err: "abrlab: certificate file: bad-line at line row 1 column 0\n",
    },
    // A coarser grid.
    Round {
        plan: "plan --manifest m --trace t --utilities 0,10,25 --buffer 4000 --switch 7 --stall 11 --startup 13 --coarse 100,1000 --as-certificate",
        check: "check --manifest m --trace t --utilities 0,10,25 --buffer 4000 --switch 7 --stall 11 --startup 13 --gap --certificate c",
        files: &SHORTER,
        status: 0,
        out: Is("yes score 58444 bound 76600\n"),
        err: "",
    },
    // A fine grid of values.
    Round {
        plan: "plan --manifest m --trace t --utilities 0,5,5,20 --buffer 12000 --switch 3 --coarse 1,250 --as-certificate",
        check: "check --manifest m --trace t --utilities 0,5,5,20 --buffer 12000 --switch 3 --gap --certificate c",
        files: &LONGER,
        status: 0,
        out: Is("yes score 148670 bound 149000\n"),
        err: "",
    },
];

#[test]
fn rounds(rt: HostRuntime) -> Result<(), Fail> {
    for round in &ROUNDS {
        assert_round(&rt, rt.alloc(), round)?;
    }
    Ok(())
}

// Films on whose rungs bits and utilities are equal.
const TIES: &str =
    r#"{"segment_duration_ms": 1000, "bitrates_kbps": [1000, 2000, 3000], "segment_sizes_bits": [[900000, 900000, 900000], [700000, 700000, 1400000], [800000, 1600000, 1600000], [500000, 500000, 500000]]}"#;

const TIED: [File; 2] = [("m", TIES), ("t", UNEVEN)];

const TIED_WEIGHED: [File; 3] = [
    ("m", TIES),
    ("t", UNEVEN),
    ("u", "3,3,3\n0,7,7\n5,5,6\n1,1,1\n"),
];

// Live plans and their certificates: with media ahead in mid-segment and beyond the film, and on networks with dead periods.
#[rattlefmt::skip]
static LIVE: [(&[File], Planned); 10] = [
    (&SLOW, Planned {
        task: "--manifest m --trace t --utilities 0,10 --buffer 10000",
        plan: "--live 500",
        check: "--live 500",
        text: "score -194500\nlabels 12\nplan 1 0 0\n",
        verdict: "yes score -194500\n",
    }),
    (&TIED, Planned {
        task: "--manifest m --trace t --utilities 4,4,9 --buffer 3000 --switch 5 --stall 11",
        plan: "--live 0",
        check: "--live 0",
        text: "score 25740\nlabels 24\nplan 2 0 2 2\n",
        verdict: "yes score 25740\n",
    }),
    (&TIED, Planned {
        task: "--manifest m --trace t --utilities 4,4,9 --buffer 3000 --switch 5 --stall 11",
        plan: "--live 1500",
        check: "--live 1500",
        text: "score 25391\nlabels 15\nplan 2 2 0 2\n",
        verdict: "yes score 25391\n",
    }),
    (&SHORTER, Planned {
        task: "--manifest m --trace t --utilities 0,10,25 --buffer 4000 --switch 7 --stall 11 --startup 13",
        plan: "--live 333",
        check: "--live 333",
        text: "score 49674\nlabels 155\nplan 2 2 2 2 2 2\n",
        verdict: "yes score 49674\n",
    }),
    (&SHORTER, Planned {
        task: "--manifest m --trace t --utilities 0,10,25 --buffer 4000 --switch 7 --stall 11 --startup 13",
        plan: "--live 60000",
        check: "--live 60000",
        text: "score 70265\nlabels 244\nplan 1 2 1 2 2 2\n",
        verdict: "yes score 70265\n",
    }),
    (&LONGER, Planned {
        task: "--manifest m --trace t --utilities 0,5,5,20 --buffer 12000 --switch 3",
        plan: "--live 777",
        check: "--live 777",
        text: "score -11828\nlabels 490\nplan 3 3 3 3 0 0 0 1 1 1\n",
        verdict: "yes score -11828\n",
    }),
    (&LONGER, Planned {
        task: "--manifest m --trace t --utilities 0,5,5,20 --buffer 2000 --stall 0 --startup 0",
        plan: "--live 1234",
        check: "--live 1234",
        text: "score 200000\nlabels 636\nplan 3 3 3 3 3 3 3 3 3 3\n",
        verdict: "yes score 200000\n",
    }),
    (&SHORTER, Planned {
        task: "--manifest m --trace t --utilities 5,5,5 --buffer 4000 --switch 7 --stall 11",
        plan: "--live 2500",
        check: "--live 2500",
        text: "score 29705\nlabels 46\nplan 0 0 0 0 0 0\n",
        verdict: "yes score 29705\n",
    }),
    (&TIED, Planned {
        task: "--manifest m --trace t --utilities 4,4,9 --buffer 3000 --stall 1",
        plan: "--live 120000000",
        check: "--live 120000000",
        text: "score 34768\nlabels 21\nplan 2 2 2 2\n",
        verdict: "yes score 34768\n",
    }),
    (&LONGER, Planned {
        task: "--manifest m --trace t --utilities 0,5,9,12 --buffer 8000 --stall 2",
        plan: "--live 2001",
        check: "--live 2001",
        text: "score 99406\nlabels 316\nplan 3 3 3 3 3 3 3 3 3 3\n",
        verdict: "yes score 99406\n",
    }),
];

// Plans on grids, and their gap certificates.
#[rattlefmt::skip]
static GRIDS: [(&[File], Planned); 9] = [
    (&SLOW, Planned {
        task: "--manifest m --trace t --utilities 0,0 --buffer 10000",
        plan: "--coarse 1000,1",
        check: "--gap",
        text: "score -202000\nbound -202000\nlabels 10\nplan 0 0 0\n",
        verdict: "yes score -202000 bound -202000\n",
    }),
    (&TIED, Planned {
        task: "--manifest m --trace t --utilities 4,4,9 --buffer 3000 --switch 5 --stall 11",
        plan: "--coarse 1,1",
        check: "--gap",
        text: "score 30528\nbound 30528\nlabels 21\nplan 2 2 0 2\n",
        verdict: "yes score 30528 bound 30528\n",
    }),
    (&TIED, Planned {
        task: "--manifest m --trace t --utilities 4,4,9 --buffer 3000 --switch 5 --stall 11",
        plan: "--coarse 50,500",
        check: "--gap",
        text: "score 30528\nbound 31100\nlabels 21\nplan 2 2 0 2\n",
        verdict: "yes score 30528 bound 31100\n",
    }),
    (&SHORTER, Planned {
        task: "--manifest m --trace t --utilities 5,5,5 --buffer 4000 --switch 7 --stall 11",
        plan: "--coarse 50,500",
        check: "--gap",
        text: "score 29705\nbound 30250\nlabels 48\nplan 0 0 0 0 0 0\n",
        verdict: "yes score 29705 bound 30250\n",
    }),
    (&SHORTER, Planned {
        task: "--manifest m --trace t --utilities 0,10,25 --buffer 4000 --switch 7 --stall 11 --startup 13",
        plan: "--coarse 1,1000000",
        check: "--gap",
        text: "score 44614\nbound 5985568\nlabels 81\nplan 1 1 1 1 1 1\n",
        verdict: "yes score 44614 bound 5985568\n",
    }),
    (&SHORTER, Planned {
        task: "--manifest m --trace t --utilities 0,10,25 --buffer 4000 --switch 7 --stall 11 --startup 13",
        plan: "--coarse 10000,1",
        check: "--gap",
        text: "score 62720\nbound 147618\nlabels 18\nplan 2 2 2 2 2 2\n",
        verdict: "yes score 62720 bound 147618\n",
    }),
    (&SHORTER, Planned {
        task: "--manifest m --trace t --utilities 0,10,25 --buffer 4000 --switch 7 --stall 11 --startup 13",
        plan: "--coarse 10000,1000000",
        check: "--gap",
        text: "score 44614\nbound 6000000\nlabels 18\nplan 1 1 1 1 1 1\n",
        verdict: "yes score 44614 bound 6000000\n",
    }),
    (&LONGER, Planned {
        task: "--manifest m --trace t --utilities 0,5,5,20 --buffer 12000 --switch 3",
        plan: "--coarse 7,333",
        check: "--gap",
        text: "score 148760\nbound 150846\nlabels 1659\nplan 3 3 3 1 1 3 0 3 3 3\n",
        verdict: "yes score 148760 bound 150846\n",
    }),
    (&LONGER, Planned {
        task: "--manifest m --trace t --utilities 0,5,5,20 --buffer 2000 --stall 0 --startup 0",
        plan: "--coarse 100,20000",
        check: "--gap",
        text: "score 50000\nbound 200000\nlabels 177\nplan 1 1 1 1 1 1 1 1 1 1\n",
        verdict: "yes score 50000 bound 200000\n",
    }),
];

// The same with tables of utilities.
#[rattlefmt::skip]
static WEIGHED_GRIDS: [(&[File], Planned); 6] = [
    (&WEIGHED, Planned {
        task: "--manifest m --trace t --utility-table u --buffer 10000",
        plan: "--coarse 500,60",
        check: "--gap",
        text: "score 59500\nbound 59560\nlabels 12\nplan 0 1 1\n",
        verdict: "yes score 59500 bound 59560\n",
    }),
    (&SHORT_WEIGHED, Planned {
        task: "--manifest m --trace t --utility-table u --buffer 4000 --switch 700 --stall 11 --startup 13",
        plan: "--coarse 30,2000",
        check: "--gap",
        text: "score 94706\nbound 99200\nlabels 178\nplan 2 2 1 2 2 1\n",
        verdict: "yes score 94706 bound 99200\n",
    }),
    (&WAVES_WEIGHED, Planned {
        task: "--manifest m --trace t --utility-table u --buffer 12000 --switch 250 --stall 20",
        plan: "--coarse 40,5000",
        check: "--gap",
        text: "score 788140\nbound 800000\nlabels 1295\nplan 3 3 2 2 2 3 3 2 2 3\n",
        verdict: "yes score 788140 bound 800000\n",
    }),
    (&WAVES_WEIGHED, Planned {
        task: "--manifest m --trace t --utility-table u --buffer 12000 --switch 250 --stall 20",
        plan: "--coarse 10000,1000000",
        check: "--gap",
        text: "score 315308\nbound 10000000\nlabels 40\nplan 0 0 1 0 0 0 3 0 0 0\n",
        verdict: "yes score 315308 bound 10000000\n",
    }),
    (&TIED_WEIGHED, Planned {
        task: "--manifest m --trace t --utility-table u --buffer 3000 --switch 300 --stall 11",
        plan: "--coarse 1,1",
        check: "--gap",
        text: "score 15915\nbound 15915\nlabels 19\nplan 1 1 2 0\n",
        verdict: "yes score 15915 bound 15915\n",
    }),
    (&TIED_WEIGHED, Planned {
        task: "--manifest m --trace t --utility-table u --buffer 3000 --switch 300 --stall 11",
        plan: "--coarse 200,1000000",
        check: "--gap",
        text: "score 13478\nbound 3995600\nlabels 12\nplan 0 1 0 0\n",
        verdict: "yes score 13478 bound 3995600\n",
    }),
];

#[test]
fn live_plans(rt: HostRuntime) -> Result<(), Fail> {
    for (files, planned) in &LIVE {
        assert_planned(&rt, rt.alloc(), planned, files)?;
    }
    Ok(())
}

#[test]
fn grids(rt: HostRuntime) -> Result<(), Fail> {
    for (files, planned) in &GRIDS {
        assert_planned(&rt, rt.alloc(), planned, files)?;
    }
    Ok(())
}

#[test]
fn weighed_grids(rt: HostRuntime) -> Result<(), Fail> {
    for (files, planned) in &WEIGHED_GRIDS {
        assert_planned(&rt, rt.alloc(), planned, files)?;
    }
    Ok(())
}

// The gap certificate of the example coarse-grid.
const COARSE_GRID: &str = "abrlab gap 1
bound 208000
abrlab certificate 1
segments 3
rungs 2
score -392000
plan 0 0 1
start 0 0
layer 0 0 1
0 0 198000 0 0
layer 0 1 1
4000 4000 406000 1 1
layer 1 0 2
0 0 198000 0 0
4000 4000 406000 1 1
layer 1 1 2
4000 0 208000 1 1
8000 4000 416000 2 2
layer 2 0 3
0 0 198000
4000 4000 406000
8000 8000 416000
layer 2 1 3
4000 0 208000
8000 4000 416000
12000 8000 426000
end
";

const CHECK_GAP: &str =
    "check --manifest m --trace t --utilities 0,10 --buffer 10000 --gap --certificate c";

// A line of it in another form, and what `check --gap` answers.
struct Spoiled {
    row: usize,
    line: &'static str,
    status: u8,
    out: Text,
    err: &'static str,
}

#[rattlefmt::skip]
static HEADS: [Spoiled; 15] = [
    Spoiled { row: 1, line: "abrlab gap 2", status: 3, out: Is(""), err: "abrlab: certificate file: bad-line at line row 1 column 0\n" },
    Spoiled { row: 1, line: "abrlab certificate 1", status: 3, out: Is(""), err: "abrlab: certificate file: bad-line at line row 1 column 0\n" },
    Spoiled { row: 2, line: "bound 207999", status: 1, out: Is("no V5 segment 2 rung 1 label 0\n"), err: "" },
    Spoiled { row: 2, line: "bound 208001", status: 0, out: Is("yes score -392000 bound 208001\n"), err: "" },
    Spoiled { row: 2, line: "bound 0208000", status: 3, out: Is(""), err: "abrlab: certificate file: bad-line at line row 2 column 0\n" },
    Spoiled { row: 2, line: "bound  208000", status: 3, out: Is(""), err: "abrlab: certificate file: bad-line at line row 2 column 0\n" },
    Spoiled { row: 2, line: "bound -0", status: 3, out: Is(""), err: "abrlab: certificate file: bad-line at line row 2 column 0\n" },
    Spoiled { row: 2, line: "bound 999999999999999999999999", status: 0, out: Is("yes score -392000 bound 999999999999999999999999\n"), err: "" },
    Spoiled { row: 2, line: "bound 1000000000000000000000000", status: 3, out: Is(""), err: "abrlab: certificate file: bad-line at line row 2 column 0\n" },
    Spoiled { row: 2, line: "bound -208000", status: 1, out: Is("no V5 segment 2 rung 0 label 0\n"), err: "" },
    Spoiled { row: 2, line: "score 208000", status: 3, out: Is(""), err: "abrlab: certificate file: bad-line at line row 2 column 0\n" },
    Spoiled { row: 3, line: "abrlab certificate 2", status: 3, out: Is(""), err: "abrlab: certificate file: bad-line at line row 6 column 0\n" },
    Spoiled { row: 3, line: "abrlab gap 1", status: 3, out: Is(""), err: "abrlab: certificate file: bad-line at line row 3 column 0\n" },
    Spoiled { row: 4, line: "segments 2", status: 3, out: Is(""), err: "abrlab: certificate file: bad-line at line row 7 column 0\n" },
    Spoiled { row: 5, line: "rungs 3", status: 3, out: Is(""), err: "abrlab: certificate file: bad-line at line row 8 column 0\n" },
];

#[rattlefmt::skip]
static BODIES: [Spoiled; 15] = [
    Spoiled { row: 6, line: "score -391999", status: 1, out: Is("no V6 segment 0 rung 0 label 0\n"), err: "" },
    Spoiled { row: 6, line: "score 208000", status: 1, out: Is("no V6 segment 0 rung 0 label 0\n"), err: "" },
    Spoiled { row: 7, line: "plan 0 0 2", status: 1, out: Is("no V2 segment 2 rung 0 label 0\n"), err: "" },
    Spoiled { row: 7, line: "plan 0 0 0", status: 1, out: Is("no V6 segment 0 rung 0 label 0\n"), err: "" },
    Spoiled { row: 8, line: "start 0 1", status: 1, out: Is("no V2 segment 0 rung 1 label 0\n"), err: "" },
    Spoiled { row: 9, line: "layer 0 0 2", status: 3, out: Is(""), err: "abrlab: certificate file: bad-line at line row 11 column 0\n" },
    Spoiled { row: 10, line: "0 0 198000 0 1", status: 1, out: Is("no V4 segment 0 rung 0 label 0\n"), err: "" },
    Spoiled { row: 10, line: "4001 0 198000 0 0", status: 1, out: Is("no V3 segment 0 rung 0 label 0\n"), err: "" },
    Spoiled { row: 10, line: "0 0 197999 0 0", status: 1, out: Is("no V3 segment 0 rung 0 label 0\n"), err: "" },
    Spoiled { row: 12, line: "8001 4000 406000 1 1", status: 1, out: Is("no V3 segment 0 rung 1 label 0\n"), err: "" },
    Spoiled { row: 12, line: "4000 4000 405999 1 1", status: 1, out: Is("no V3 segment 0 rung 1 label 0\n"), err: "" },
    Spoiled { row: 14, line: "0 1 198000 0 0", status: 0, out: Is("yes score -392000 bound 208000\n"), err: "" },
    Spoiled { row: 15, line: "4000 4000 406000 1 3", status: 1, out: Is("no V2 segment 1 rung 0 label 1\n"), err: "" },
    Spoiled { row: 21, line: "01 0 198000", status: 3, out: Is(""), err: "abrlab: certificate file: bad-line at line row 21 column 0\n" },
    Spoiled { row: 27, line: "END", status: 3, out: Is(""), err: "abrlab: certificate file: bad-line at line row 27 column 0\n" },
];

// The gap certificate with another line at a row.
fn with_line(alloc: Global, row: usize, other: &str) -> Result<String, AllocError> {
    let mut text = String::new(alloc);
    for (index, line) in COARSE_GRID.lines().enumerate() {
        text.push_str(if index + 1 == row { other } else { line })?;
        text.push('\n')?;
    }
    Ok(text)
}

// What `check --gap` answers to it.
fn spoiled_answer(alloc: Global, spoiled: &Spoiled) -> Result<Answer, AllocError> {
    let text = with_line(alloc, spoiled.row, spoiled.line)?;
    let [manifest, trace] = SLOW;
    let files = [("c", text.as_str()), manifest, trace];
    run_words(alloc, CHECK_GAP, &files, NONE)
}

#[test]
fn spoiled_heads(rt: HostRuntime) -> Result<(), Fail> {
    for spoiled in &HEADS {
        let answer = spoiled_answer(rt.alloc(), spoiled)?;
        assert!(rt;
            answer.is(spoiled.status, &spoiled.out, spoiled.err),
            "{}",
            spoiled.line
        );
    }
    Ok(())
}

#[test]
fn spoiled_bodies(rt: HostRuntime) -> Result<(), Fail> {
    for spoiled in &BODIES {
        let answer = spoiled_answer(rt.alloc(), spoiled)?;
        assert!(rt;
            answer.is(spoiled.status, &spoiled.out, spoiled.err),
            "{}",
            spoiled.line
        );
    }
    Ok(())
}
