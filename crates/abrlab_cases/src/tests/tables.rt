// Whole runs with a table of utilities.
use super::Text::{Begins, Counts, Is};
use super::files::{
    FALLING, SHORT, SHORT_TABLE, SHORT_WEIGHED, UNEVEN, WAVES, WAVES_TABLE, WAVES_WEIGHED, WEIGHED,
};
use super::made::{CLIMBS, Film, SIXTEEN, manifest_of, trace_of};
use super::plan::CERTIFICATE;
use super::{
    Answer, Case, File, NO_FILE, NONE, Planned, Round, assert_answer, assert_planned, assert_round,
    run_words,
};
use std::alloc::{AllocError, Global};
use std::test::Fail;

#[rattlefmt::skip]
static CASES: [Case; 9] = [
    Case {
        name: "a table",
        words: "plan --manifest m --trace t --utility-table u --buffer 10000",
        file: NO_FILE,
        files: &WEIGHED,
        status: 0,
        out: Is("score 59500\nlabels 12\nplan 0 1 1\n"),
        err: "",
    },
    Case {
        name: "a table in a certificate",
        words: "plan --manifest m --trace t --utility-table u --buffer 10000 --as-certificate",
        file: NO_FILE,
        files: &WEIGHED,
        status: 0,
        out: Begins("abrlab certificate 2\n"),
        err: "",
    },
    Case {
        name: "another certificate",
        words: "check --manifest m --trace t --utility-table u --buffer 10000 --certificate c",
        file: ("c", CERTIFICATE),
        files: &WEIGHED,
        status: 1,
        out: Is("no V1 segment 0 rung 0 label 0\n"),
        err: "",
    },
    Case {
        name: "no table",
        words: "plan --manifest m --trace t --utility-table v --buffer 10000",
        file: NO_FILE,
        files: &WEIGHED,
        status: 4,
        out: Is(""),
        err: "abrlab: utilities file: not read\n",
    },
    Case {
        name: "a row too few",
        words: "plan --manifest m --trace t --utility-table v --buffer 10000",
        file: ("v", "0,0\n0,50\n"),
        files: &WEIGHED,
        status: 3,
        out: Is(""),
        err: "abrlab: utilities file: shape at utility row 0 column 0\n",
    },
    Case {
        name: "falling utilities",
        words: "plan --manifest m --trace t --utility-table v --buffer 10000",
        file: ("v", "0,0\n50,0\n0,10\n"),
        files: &WEIGHED,
        status: 3,
        out: Is(""),
        err: "abrlab: utilities file: order at utility row 2 column 2\n",
    },
    Case {
        name: "a short row",
        words: "plan --manifest m --trace t --utility-table v --buffer 10000",
        file: ("v", "0\n0,50\n0,10\n"),
        files: &WEIGHED,
        status: 3,
        out: Is(""),
        err: "abrlab: utilities file: shape at utility row 1 column 0\n",
    },
    Case {
        name: "a long row",
        words: "plan --manifest m --trace t --utility-table v --buffer 10000",
        file: ("v", "0,0\n0,10,20\n0,10\n"),
        files: &WEIGHED,
        status: 3,
        out: Is(""),
        err: "abrlab: utilities file: not-csv at utility row 2 column 0\n",
    },
    Case {
        name: "utilities twice",
        words: "plan --manifest m --trace t --utility-table u --utilities 0,10",
        file: NO_FILE,
        files: &WEIGHED,
        status: 2,
        out: Is(""),
        err: "abrlab: usage: simulate, compare, plan, check, demo\n",
    },
];

#[test]
fn cases(rt: HostRuntime) -> Result<(), Fail> {
    for case in &CASES {
        assert_answer(&rt, rt.alloc(), case)?;
    }
    Ok(())
}

// Seeks forward and back in a film of twenty seconds.
const SEEKS: &str = "at_ms,to_segment\n5000,6\n14000,1\n";

// Sessions of each rule.
#[rattlefmt::skip]
static SESSIONS: [Case; 12] = [
    Case {
        name: "fixed",
        words: "simulate --manifest m --trace t --utility-table u --buffer 10000 --rule fixed:1",
        file: NO_FILE,
        files: &WEIGHED,
        status: 0,
        out: Is("0 request 0 1\n1000 arrive 0 1 first 0 rate 2000000\n1000 request 1 1\n1000 play 0 1\n2000 arrive 1 1 first 1000 rate 2000000\n2000 request 2 1\n2000 play 1 1\n3000 arrive 2 1 first 2000 rate 2000000\n3000 play 2 1\n4000 end\nstartup 1000\nstall 0\nstalls 0\nseeking 0\nwasted 0\nend 4000\nscore 59000\n"),
        err: "",
    },
    Case {
        name: "fixed with changes",
        words: "simulate --manifest m --trace t --utility-table u --buffer 12000 --switch 1000 --rule fixed:2",
        file: NO_FILE,
        files: &WAVES_WEIGHED,
        status: 0,
        out: Counts(38, "20865 end\nstartup 865\nstall 0\nstalls 0\nseeking 0\nwasted 0\nend 20865\nscore 626135\n"),
        err: "",
    },
    Case {
        name: "a list with changes",
        words: "simulate --manifest m --trace t --utility-table u --buffer 4000 --switch 700 --stall 11 --startup 13 --rule list:0,2,1,2,0,1",
        file: NO_FILE,
        files: &SHORT_WEIGHED,
        status: 0,
        out: Counts(28, "8019 end\nstartup 295\nstall 1724\nstalls 2\nseeking 0\nwasted 0\nend 8019\nscore 6401\n"),
        err: "",
    },
    Case {
        name: "throughput",
        words: "simulate --manifest m --trace t --utility-table u --buffer 12000 --switch 250 --rule throughput:3,5",
        file: NO_FILE,
        files: &WAVES_WEIGHED,
        status: 0,
        out: Counts(40, "25333 end\nstartup 192\nstall 5141\nstalls 2\nseeking 0\nwasted 0\nend 25333\nscore 153458\n"),
        err: "",
    },
    Case {
        name: "bola",
        words: "simulate --manifest m --trace t --utility-table u --buffer 12000 --stall 20 --rule bola:50",
        file: NO_FILE,
        files: &WAVES_WEIGHED,
        status: 0,
        out: Counts(38, "20192 end\nstartup 192\nstall 0\nstalls 0\nseeking 0\nwasted 0\nend 20192\nscore 718808\n"),
        err: "",
    },
    Case {
        name: "mpc",
        words: "simulate --manifest m --trace t --utility-table u --buffer 12000 --switch 300 --stall 20 --rule mpc:5",
        file: NO_FILE,
        files: &WAVES_WEIGHED,
        status: 0,
        out: Counts(39, "25099 end\nstartup 192\nstall 4907\nstalls 1\nseeking 0\nwasted 0\nend 25099\nscore 559168\n"),
        err: "",
    },
    Case {
        name: "mpc on a short film",
        words: "simulate --manifest m --trace t --utility-table u --buffer 4000 --switch 1000 --stall 7 --rule mpc:3",
        file: NO_FILE,
        files: &SHORT_WEIGHED,
        status: 0,
        out: Counts(29, "10551 end\nstartup 295\nstall 4256\nstalls 3\nseeking 0\nwasted 0\nend 10551\nscore 70913\n"),
        err: "",
    },
    Case {
        name: "bola and abandoning",
        words: "simulate --manifest m --trace t --utility-table u --buffer 8000 --switch 40 --stall 20 --rule bola:50 --abandon",
        file: NO_FILE,
        files: &WAVES_WEIGHED,
        status: 0,
        out: Counts(46, "20192 end\nstartup 192\nstall 0\nstalls 0\nseeking 0\nwasted 3740700\nend 20192\nscore 534648\n"),
        err: "",
    },
    Case {
        name: "throughput and abandoning",
        words: "simulate --manifest m --trace t --utility-table u --buffer 8000 --switch 40 --stall 20 --rule throughput:1,2,3 --abandon",
        file: NO_FILE,
        files: &WAVES_WEIGHED,
        status: 0,
        out: Counts(43, "20786 end\nstartup 192\nstall 594\nstalls 1\nseeking 0\nwasted 4324950\nend 20786\nscore 484528\n"),
        err: "",
    },
    Case {
        name: "mpc and seeking",
        words: "simulate --manifest m --trace t --utility-table u --buffer 12000 --switch 40 --stall 20 --rule mpc:4 --seeks s",
        file: ("s", SEEKS),
        files: &WAVES_WEIGHED,
        status: 0,
        out: Counts(57, "37168 end\nstartup 192\nstall 2950\nstalls 1\nseeking 7218\nwasted 9642000\nend 37168\nscore 877128\n"),
        err: "",
    },
    Case {
        name: "seeking and abandoning",
        words: "simulate --manifest m --trace t --utility-table u --buffer 12000 --switch 1000 --stall 20 --rule fixed:3 --seeks s --abandon",
        file: ("s", SEEKS),
        files: &WAVES_WEIGHED,
        status: 0,
        out: Counts(72, "35303 end\nstartup 1030\nstall 1500\nstalls 2\nseeking 3853\nwasted 12203000\nend 35303\nscore 919970\n"),
        err: "",
    },
    Case {
        name: "live",
        words: "simulate --manifest m --trace t --utility-table u --buffer 4000 --switch 700 --stall 11 --rule bola:20 --live 1700",
        file: NO_FILE,
        files: &SHORT_WEIGHED,
        status: 0,
        out: Counts(28, "7681 end\nstartup 295\nstall 1386\nstalls 2\nseeking 0\nwasted 0\nend 7681\nscore 61459\n"),
        err: "",
    },
];

#[test]
fn sessions(rt: HostRuntime) -> Result<(), Fail> {
    for case in &SESSIONS {
        assert_answer(&rt, rt.alloc(), case)?;
    }
    Ok(())
}

// The film of waves on two networks.
const TWO_NETWORKS: [File; 4] = [
    ("m", WAVES),
    ("t", FALLING),
    ("v", UNEVEN),
    ("u", WAVES_TABLE),
];

// One of each rule, on each network, and with seeks and abandoning.
const EACH_RULE: &str = "trace t
rule fixed:2 startup 865 stall 0 stalls 0 seeking 0 wasted 0 end 20865 score 626135
rule list:0,1,2,3,0,1,2,3,0,1 startup 192 stall 0 stalls 0 seeking 0 wasted 0 end 20192 score 399808
rule throughput:3,5 startup 192 stall 5141 stalls 2 seeking 0 wasted 0 end 25333 score 564738
rule bola:50 startup 192 stall 0 stalls 0 seeking 0 wasted 0 end 20192 score 651558
rule mpc:3 startup 192 stall 4907 stalls 1 seeking 0 wasted 0 end 25099 score 562918
trace v
rule fixed:2 startup 2128 stall 5863 stalls 7 seeking 0 wasted 0 end 27991 score 507612
rule list:0,1,2,3,0,1,2,3,0,1 startup 309 stall 6438 stalls 3 seeking 0 wasted 0 end 26747 score 270931
rule throughput:3,5 startup 309 stall 2476 stalls 3 seeking 0 wasted 0 end 22785 score 440671
rule bola:50 startup 309 stall 2065 stalls 1 seeking 0 wasted 0 end 22374 score 417891
rule mpc:3 startup 309 stall 2595 stalls 1 seeking 0 wasted 0 end 22904 score 419541
";

const EACH_RULE_SEEKING: &str = "trace t
rule fixed:2 startup 865 stall 249 stalls 1 seeking 2893 wasted 9829000 end 34052 score 907405
rule list:0,1,2,3,0,1,2,3,0,1 startup 192 stall 666 stalls 2 seeking 2893 wasted 13502000 end 34469 score 570738
rule throughput:3,5 startup 192 stall 0 stalls 0 seeking 3353 wasted 8242000 end 33303 score 704808
rule bola:50 startup 192 stall 0 stalls 0 seeking 172 wasted 16686000 end 13172 score 209308
rule mpc:3 startup 192 stall 0 stalls 0 seeking 3353 wasted 9009000 end 33303 score 709308
";

static COMPARISONS: [Case; 2] = [
    Case {
        name: "each rule",
        words: "compare --manifest m --utility-table u --buffer 12000 --switch 250 --stall 20 --rules fixed:2/list:0,1,2,3,0,1,2,3,0,1/throughput:3,5/bola:50/mpc:3 t v",
        file: NO_FILE,
        files: &TWO_NETWORKS,
        status: 0,
        out: Is(EACH_RULE),
        err: "",
    },
    Case {
        name: "each rule, seeking and abandoning",
        words: "compare --manifest m --utility-table u --buffer 12000 --switch 250 --stall 20 --rules fixed:2/list:0,1,2,3,0,1,2,3,0,1/throughput:3,5/bola:50/mpc:3 --abandon --seeks s t",
        file: ("s", SEEKS),
        files: &WAVES_WEIGHED,
        status: 0,
        out: Is(EACH_RULE_SEEKING),
        err: "",
    },
];

#[test]
fn comparisons(rt: HostRuntime) -> Result<(), Fail> {
    for case in &COMPARISONS {
        assert_answer(&rt, rt.alloc(), case)?;
    }
    Ok(())
}

// Plans, on demand and live, and the checks of their certificates.
#[rattlefmt::skip]
static PLANS: [(&[File], Planned); 12] = [
    (&WEIGHED, Planned {
        task: "--manifest m --trace t --utility-table u --buffer 10000",
        plan: "",
        check: "",
        text: "score 59500\nlabels 12\nplan 0 1 1\n",
        verdict: "yes score 59500\n",
    }),
    (&WEIGHED, Planned {
        task: "--manifest m --trace t --utility-table u --buffer 1000 --switch 100",
        plan: "",
        check: "",
        text: "score -100500\nlabels 12\nplan 0 0 0\n",
        verdict: "yes score -100500\n",
    }),
    (&SHORT_WEIGHED, Planned {
        task: "--manifest m --trace t --utility-table u --buffer 4000",
        plan: "",
        check: "",
        text: "score 86123\nlabels 197\nplan 1 0 1 0 2 1\n",
        verdict: "yes score 86123\n",
    }),
    (&SHORT_WEIGHED, Planned {
        task: "--manifest m --trace t --utility-table u --buffer 4000 --switch 700 --stall 11 --startup 13",
        plan: "",
        check: "",
        text: "score 94706\nlabels 192\nplan 2 2 1 2 2 1\n",
        verdict: "yes score 94706\n",
    }),
    (&SHORT_WEIGHED, Planned {
        task: "--manifest m --trace t --utility-table u --buffer 3000 --switch 1000 --stall 7",
        plan: "",
        check: "",
        text: "score 122902\nlabels 137\nplan 2 2 1 2 2 1\n",
        verdict: "yes score 122902\n",
    }),
    (&WAVES_WEIGHED, Planned {
        task: "--manifest m --trace t --utility-table u --buffer 12000",
        plan: "",
        check: "",
        text: "score 823970\nlabels 1515\nplan 3 3 1 2 0 3 3 1 3 3\n",
        verdict: "yes score 823970\n",
    }),
    (&WAVES_WEIGHED, Planned {
        task: "--manifest m --trace t --utility-table u --buffer 12000 --switch 250 --stall 20",
        plan: "",
        check: "",
        text: "score 788470\nlabels 1480\nplan 3 3 2 2 2 3 3 2 2 2\n",
        verdict: "yes score 788470\n",
    }),
    (&WAVES_WEIGHED, Planned {
        task: "--manifest m --trace t --utility-table u --buffer 8000 --switch 1000 --stall 5",
        plan: "",
        check: "",
        text: "score 810040\nlabels 392\nplan 3 3 3 2 3 3 3 3 3 3\n",
        verdict: "yes score 810040\n",
    }),
    (&WAVES_WEIGHED, Planned {
        task: "--manifest m --trace t --utility-table u --buffer 12000 --switch 1000000 --stall 0 --startup 0",
        plan: "",
        check: "",
        text: "score 844000\nlabels 222\nplan 3 3 3 3 3 3 3 3 3 3\n",
        verdict: "yes score 844000\n",
    }),
    (&WEIGHED, Planned {
        task: "--manifest m --trace t --utility-table u --buffer 10000 --live 0",
        plan: "",
        check: "",
        text: "score 58000\nlabels 8\nplan 1 1 1\n",
        verdict: "yes score 58000\n",
    }),
    (&SHORT_WEIGHED, Planned {
        task: "--manifest m --trace t --utility-table u --buffer 4000 --switch 300 --live 1700",
        plan: "",
        check: "",
        text: "score 52309\nlabels 167\nplan 2 0 0 0 2 1\n",
        verdict: "yes score 52309\n",
    }),
    (&WAVES_WEIGHED, Planned {
        task: "--manifest m --trace t --utility-table u --buffer 12000 --stall 30 --live 2000",
        plan: "",
        check: "",
        text: "score 578150\nlabels 415\nplan 3 3 3 2 2 3 3 3 3 3\n",
        verdict: "yes score 578150\n",
    }),
];

#[test]
fn plans(rt: HostRuntime) -> Result<(), Fail> {
    for (files, planned) in &PLANS {
        assert_planned(&rt, rt.alloc(), planned, files)?;
    }
    Ok(())
}

// The short film with another utility of its last segment beside its table.
const SHORT_TWICE: [File; 4] = [
    ("m", SHORT),
    ("t", UNEVEN),
    ("u", SHORT_TABLE),
    ("v", "0,10,25\n3,3,30\n0,24,25\n12,13,14\n0,0,40\n5,20,22\n"),
];

// Checks of certificates that are for something else.
#[rattlefmt::skip]
static ROUNDS: [Round; 6] = [
    // Another utility of the last segment.
    Round {
        plan: "plan --manifest m --trace t --utility-table u --buffer 4000 --switch 700 --as-certificate",
        check: "check --manifest m --trace t --utility-table v --buffer 4000 --switch 700 --certificate c",
        files: &SHORT_TWICE,
        status: 1,
        out: Is("no V4 segment 4 rung 0 label 0\n"),
        err: "",
    },
    // Another weight of changes.
    Round {
        plan: "plan --manifest m --trace t --utility-table u --buffer 4000 --switch 700 --as-certificate",
        check: "check --manifest m --trace t --utility-table u --buffer 4000 --switch 701 --certificate c",
        files: &SHORT_WEIGHED,
        status: 1,
        out: Is("no V6 segment 0 rung 0 label 0\n"),
        err: "",
    },
    // A table for one row.
    Round {
        plan: "plan --manifest m --trace t --utility-table u --buffer 4000 --switch 700 --as-certificate",
        check: "check --manifest m --trace t --utilities 0,10,25 --buffer 4000 --switch 700 --certificate c",
        files: &SHORT_WEIGHED,
        status: 1,
        out: Is("no V1 segment 0 rung 0 label 0\n"),
        err: "",
    },
    // One row for a table.
    Round {
        plan: "plan --manifest m --trace t --utilities 0,10,25 --buffer 4000 --as-certificate",
        check: "check --manifest m --trace t --utility-table u --buffer 4000 --certificate c",
        files: &SHORT_WEIGHED,
        status: 1,
        out: Is("no V1 segment 0 rung 0 label 0\n"),
        err: "",
    },
    // A gap certificate for a plain one.
    Round {
        plan: "plan --manifest m --trace t --utility-table u --buffer 4000 --coarse 30,2000 --as-certificate",
        check: "check --manifest m --trace t --utility-table u --buffer 4000 --certificate c",
        files: &SHORT_WEIGHED,
        status: 3,
        out: Is(""),
        err: "abrlab: certificate file: bad-line at line row 1 column 0\n",
    },
    // A gap certificate with a table for one row.
    Round {
        plan: "plan --manifest m --trace t --utility-table u --buffer 4000 --coarse 30,2000 --as-certificate",
        check: "check --manifest m --trace t --utilities 0,10,25 --buffer 4000 --gap --certificate c",
        files: &SHORT_WEIGHED,
        status: 1,
        out: Is("no V1 segment 0 rung 0 label 0\n"),
        err: "",
    },
];

#[test]
fn rounds(rt: HostRuntime) -> Result<(), Fail> {
    for round in &ROUNDS {
        assert_round(&rt, rt.alloc(), round)?;
    }
    Ok(())
}

// The longest film on the most rungs.
const LONGEST: Film = Film {
    segments: 2000,
    ..SIXTEEN
};

// Its utilities.
fn utility(segment: u64, rung: u64) -> u64 {
    let least = segment.wrapping_mul(7).wrapping_add(1) % 50;
    least.wrapping_add(rung.wrapping_mul(segment % 5 + 1))
}

// A table of so many segments on sixteen rungs.
fn table_of(alloc: Global, segments: u64) -> Result<String, AllocError> {
    let mut text = String::new(alloc);
    for segment in 0..segments {
        for rung in 0..15 {
            text.push_str(&format!(in alloc; "{},", utility(segment, rung))?)?;
        }
        text.push_str(&format!(in alloc; "{}\n", utility(segment, 15))?)?;
    }
    Ok(text)
}

// What a session of it answers.
fn longest_session(alloc: Global) -> Result<Answer, AllocError> {
    let manifest = manifest_of(alloc, &LONGEST)?;
    let trace = trace_of(alloc, &CLIMBS)?;
    let table = table_of(alloc, 2000)?;
    run_words(
        alloc,
        "simulate --manifest m --trace t --utility-table u --switch 200 --stall 4 --rule bola:50",
        &[("m", &manifest), ("t", &trace), ("u", &table)],
        NONE,
    )
}

#[test]
fn longest_film(rt: HostRuntime) -> Result<(), Fail> {
    let answer = longest_session(rt.alloc())?;
    let text = Counts(
        6008,
        "4000320 end\nstartup 320\nstall 0\nstalls 0\nseeking 0\nwasted 0\nend 4000320\nscore 117076480\n",
    );
    assert!(rt; answer.is(0, &text, ""));
    Ok(())
}
