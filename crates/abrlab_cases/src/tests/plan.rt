// Whole runs of `plan`.
use super::Text::Is;
use super::files::{LEAST, SLOW, STEADY};
use super::{Answer, Case, NO_FILE, NONE, assert_answer, run_words};
use std::alloc::{AllocError, Global};
use std::test::Fail;

pub(super) const CERTIFICATE: &str = "abrlab certificate 1
segments 3
rungs 2
score 29000
plan 1 1 1
start 0 0
layer 0 0 1
500 500 49500 0 0
layer 0 1 1
1000 1000 109000 1 1
layer 1 0 2
1000 500 49500 0 0
1500 1000 109000 2 2
layer 1 1 2
1500 500 59500 1 1
2000 1000 119000 3 3
layer 2 0 4
1500 500 49500
2000 500 59500
2000 1000 109000
2500 1000 119000
layer 2 1 4
2000 500 59500
2500 500 69500
2500 1000 119000
3000 1000 129000
end
";

pub(super) const TINY_CERTIFICATE: &str =
    "abrlab certificate 1\nsegments 1\nrungs 1\nscore -1\nplan 0\nstart 0\nlayer 0 0 1\n1 1 99\nend\n";

#[rattlefmt::skip]
static CASES: [Case; 11] = [
    Case {
        name: "late start wins",
        words: "plan --manifest m --trace t --utilities 0,10 --buffer 10000",
        file: NO_FILE,
        files: &SLOW,
        status: 0,
        out: Is("score -194000\nlabels 12\nplan 1 0 0\n"),
        err: "",
    },
    Case {
        name: "steady plan",
        words: "plan --manifest m --trace t --utilities 0,10 --buffer 10000",
        file: NO_FILE,
        files: &STEADY,
        status: 0,
        out: Is("score 29000\nlabels 14\nplan 1 1 1\n"),
        err: "",
    },
    Case {
        name: "steady plan as a certificate",
        words: "plan --manifest m --trace t --utilities 0,10 --buffer 10000 --as-certificate",
        file: NO_FILE,
        files: &STEADY,
        status: 0,
        out: Is(CERTIFICATE),
        err: "",
    },
    Case {
        name: "tied utilities",
        words: "plan --manifest m --trace t --utilities 10,10 --buffer 10000",
        file: NO_FILE,
        files: &STEADY,
        status: 0,
        out: Is("score 29500\nlabels 10\nplan 0 0 0\n"),
        err: "",
    },
    Case {
        name: "budget edge",
        words: "plan --manifest m --trace t --utilities 0,10 --buffer 10000 --budget 14",
        file: NO_FILE,
        files: &STEADY,
        status: 0,
        out: Is("score 29000\nlabels 14\nplan 1 1 1\n"),
        err: "",
    },
    Case {
        name: "budget edge",
        words: "plan --manifest m --trace t --utilities 0,10 --buffer 10000 --budget 13",
        file: NO_FILE,
        files: &STEADY,
        status: 6,
        out: Is(""),
        err: "abrlab: budget spent at segment 2\n",
    },
    Case {
        name: "smallest input",
        words: "plan --manifest m --trace t --utilities 0 --buffer 1",
        file: NO_FILE,
        files: &LEAST,
        status: 0,
        out: Is("score -1\nlabels 1\nplan 0\n"),
        err: "",
    },
    Case {
        name: "smallest input as a certificate",
        words: "plan --manifest m --trace t --utilities 0 --buffer 1 --as-certificate",
        file: NO_FILE,
        files: &LEAST,
        status: 0,
        out: Is(TINY_CERTIFICATE),
        err: "",
    },
    Case {
        name: "settings",
        words: "plan --manifest m --trace t --utilities 0,10 --buffer 999",
        file: NO_FILE,
        files: &STEADY,
        status: 3,
        out: Is(""),
        err: "abrlab: settings: buffer\n",
    },
    Case {
        name: "settings",
        words: "plan --manifest m --trace t --utilities 0,10,20 --buffer 10000",
        file: NO_FILE,
        files: &STEADY,
        status: 3,
        out: Is(""),
        err: "abrlab: settings: utilities\n",
    },
    Case {
        name: "missing trace",
        words: "plan --manifest m --trace x --utilities 0,10 --buffer 10000",
        file: NO_FILE,
        files: &STEADY,
        status: 4,
        out: Is(""),
        err: "abrlab: trace file: not read\n",
    },
];

#[test]
fn cases(rt: HostRuntime) -> Result<(), Fail> {
    for case in &CASES {
        assert_answer(&rt, rt.alloc(), case)?;
    }
    Ok(())
}

// A film, a network and their plan.
struct Small {
    manifest: &'static str,
    trace: &'static str,
    words: &'static str,
    text: &'static str,
}

#[rattlefmt::skip]
static SMALL: [Small; 30] = [
    Small {
        manifest: r#"{"segment_duration_ms": 1000, "bitrates_kbps": [250, 2150], "segment_sizes_bits": [[150000, 1290000], [375000, 3225000], [150000, 1290000]]}"#,
        trace: r#"[{"duration_ms": 300, "bandwidth_kbps": 2000, "latency_ms": 0}, {"duration_ms": 300, "bandwidth_kbps": 0, "latency_ms": 75}]"#,
        words: "plan --manifest m --trace t --utilities 0,5 --buffer 1000 --stall 0",
        text: "score 13755\nlabels 14\nplan 1 1 1\n",
    },
    Small {
        manifest: r#"{"segment_duration_ms": 2000, "bitrates_kbps": [1550, 1950], "segment_sizes_bits": [[3100000, 3900000], [3100000, 3900000], [2480000, 3120000]]}"#,
        trace: r#"[{"duration_ms": 700, "bandwidth_kbps": 400, "latency_ms": 333}]"#,
        words: "plan --manifest m --trace t --utilities 2,10 --buffer 6000 --stall 0 --startup 30",
        text: "score -220490\nlabels 8\nplan 0 1 1\n",
    },
    Small {
        manifest: r#"{"segment_duration_ms": 500, "bitrates_kbps": [1400, 1650], "segment_sizes_bits": [[420000, 495000], [420000, 495000]]}"#,
        trace: r#"[{"duration_ms": 1100, "bandwidth_kbps": 400, "latency_ms": 20}, {"duration_ms": 2500, "bandwidth_kbps": 2000, "latency_ms": 75}, {"duration_ms": 300, "bandwidth_kbps": 0, "latency_ms": 20}]"#,
        words: "plan --manifest m --trace t --utilities 5,10 --buffer 500 --stall 40 --startup 30",
        text: "score -26880\nlabels 6\nplan 1 1\n",
    },
    Small {
        manifest: r#"{"segment_duration_ms": 1000, "bitrates_kbps": [1200], "segment_sizes_bits": [[960000], [1800000], [720000]]}"#,
        trace: r#"[{"duration_ms": 300, "bandwidth_kbps": 150, "latency_ms": 20}, {"duration_ms": 700, "bandwidth_kbps": 4000, "latency_ms": 0}]"#,
        words: "plan --manifest m --trace t --utilities 5 --buffer 3000 --switch 100 --startup 0",
        text: "score 15000\nlabels 3\nplan 0 0 0\n",
    },
    Small {
        manifest: r#"{"segment_duration_ms": 2000, "bitrates_kbps": [1200, 1400, 2350], "segment_sizes_bits": [[2880000, 3360000, 5640000], [1920000, 2240000, 3760000], [1920000, 2240000, 3760000]]}"#,
        trace: r#"[{"duration_ms": 700, "bandwidth_kbps": 400, "latency_ms": 0}]"#,
        words: "plan --manifest m --trace t --utilities 0,1,10 --buffer 6137 --switch 100 --stall 40",
        text: "score -229100\nlabels 36\nplan 2 0 0\n",
    },
    Small {
        manifest: r#"{"segment_duration_ms": 1000, "bitrates_kbps": [300, 750, 2850], "segment_sizes_bits": [[450000, 1125000, 4275000]]}"#,
        trace: r#"[{"duration_ms": 700, "bandwidth_kbps": 4000, "latency_ms": 20}, {"duration_ms": 1100, "bandwidth_kbps": 2000, "latency_ms": 20}]"#,
        words: "plan --manifest m --trace t --utilities 0,0,5 --buffer 3000 --switch 100 --stall 0",
        text: "score 3522\nlabels 3\nplan 2\n",
    },
    Small {
        manifest: r#"{"segment_duration_ms": 2000, "bitrates_kbps": [150, 750, 1250, 1750], "segment_sizes_bits": [[240000, 1200000, 2000000, 2800000], [450000, 2250000, 3750000, 5250000]]}"#,
        trace: r#"[{"duration_ms": 1100, "bandwidth_kbps": 2000, "latency_ms": 0}]"#,
        words: "plan --manifest m --trace t --utilities 2,10,10,20 --buffer 4000 --switch 5",
        text: "score 28550\nlabels 20\nplan 3 1\n",
    },
    Small {
        manifest: r#"{"segment_duration_ms": 1000, "bitrates_kbps": [2050, 2500, 2600, 2650], "segment_sizes_bits": [[1640000, 2000000, 2080000, 2120000], [1640000, 2000000, 2080000, 2120000]]}"#,
        trace: r#"[{"duration_ms": 700, "bandwidth_kbps": 150, "latency_ms": 333}, {"duration_ms": 2500, "bandwidth_kbps": 400, "latency_ms": 0}]"#,
        words: "plan --manifest m --trace t --utilities 0,2,5,20 --buffer 2000",
        text: "score -365100\nlabels 20\nplan 0 0\n",
    },
    Small {
        manifest: r#"{"segment_duration_ms": 1000, "bitrates_kbps": [400, 800], "segment_sizes_bits": [[320000, 640000]]}"#,
        trace: r#"[{"duration_ms": 700, "bandwidth_kbps": 400, "latency_ms": 0}, {"duration_ms": 2500, "bandwidth_kbps": 2000, "latency_ms": 333}]"#,
        words: "plan --manifest m --trace t --utilities 0,20 --buffer 3137 --switch 700 --stall 0",
        text: "score 19120\nlabels 2\nplan 1\n",
    },
    Small {
        manifest: r#"{"segment_duration_ms": 500, "bitrates_kbps": [1450, 2100, 2600], "segment_sizes_bits": [[725000, 1050000, 1300000], [435000, 630000, 780000]]}"#,
        trace: r#"[{"duration_ms": 2500, "bandwidth_kbps": 900, "latency_ms": 75}, {"duration_ms": 300, "bandwidth_kbps": 4000, "latency_ms": 0}, {"duration_ms": 700, "bandwidth_kbps": 150, "latency_ms": 0}]"#,
        words: "plan --manifest m --trace t --utilities 1,5,10 --buffer 637",
        text: "score -32720\nlabels 12\nplan 2 0\n",
    },
    Small {
        manifest: r#"{"segment_duration_ms": 1000, "bitrates_kbps": [500, 1850], "segment_sizes_bits": [[300000, 1110000], [300000, 1110000], [300000, 1110000], [750000, 2775000]]}"#,
        trace: r#"[{"duration_ms": 700, "bandwidth_kbps": 900, "latency_ms": 0}, {"duration_ms": 700, "bandwidth_kbps": 0, "latency_ms": 20}, {"duration_ms": 700, "bandwidth_kbps": 400, "latency_ms": 333}]"#,
        words: "plan --manifest m --trace t --utilities 1,20 --buffer 5000 --switch 100 --startup 30",
        text: "score -52620\nlabels 21\nplan 0 0 0 0\n",
    },
    Small {
        manifest: r#"{"segment_duration_ms": 2000, "bitrates_kbps": [550, 1750, 1800], "segment_sizes_bits": [[1650000, 5250000, 5400000], [660000, 2100000, 2160000]]}"#,
        trace: r#"[{"duration_ms": 700, "bandwidth_kbps": 2000, "latency_ms": 0}, {"duration_ms": 700, "bandwidth_kbps": 150, "latency_ms": 0}]"#,
        words: "plan --manifest m --trace t --utilities 5,10,10 --buffer 2137 --switch 700",
        text: "score -58143\nlabels 12\nplan 2 0\n",
    },
    Small {
        manifest: r#"{"segment_duration_ms": 2000, "bitrates_kbps": [1750, 2300, 2900], "segment_sizes_bits": [[3500000, 4600000, 5800000], [5250000, 6900000, 8700000]]}"#,
        trace: r#"[{"duration_ms": 2500, "bandwidth_kbps": 400, "latency_ms": 75}]"#,
        words: "plan --manifest m --trace t --utilities 0,5,5 --buffer 4000 --startup 30",
        text: "score -1384750\nlabels 12\nplan 0 0\n",
    },
    Small {
        manifest: r#"{"segment_duration_ms": 200, "bitrates_kbps": [1000, 1750, 2050], "segment_sizes_bits": [[300000, 525000, 615000], [120000, 210000, 246000], [120000, 210000, 246000]]}"#,
        trace: r#"[{"duration_ms": 300, "bandwidth_kbps": 400, "latency_ms": 20}]"#,
        words: "plan --manifest m --trace t --utilities 0,2,20 --buffer 200",
        text: "score -45558\nlabels 33\nplan 2 0 0\n",
    },
    Small {
        manifest: r#"{"segment_duration_ms": 1000, "bitrates_kbps": [500, 950, 2050], "segment_sizes_bits": [[300000, 570000, 1230000], [750000, 1425000, 3075000], [400000, 760000, 1640000]]}"#,
        trace: r#"[{"duration_ms": 700, "bandwidth_kbps": 900, "latency_ms": 0}]"#,
        words: "plan --manifest m --trace t --utilities 1,1,2 --buffer 2137 --stall 1 --startup 0",
        text: "score 4314\nlabels 24\nplan 2 0 2\n",
    },
    Small {
        manifest: r#"{"segment_duration_ms": 1000, "bitrates_kbps": [150], "segment_sizes_bits": [[225000]]}"#,
        trace: r#"[{"duration_ms": 700, "bandwidth_kbps": 2000, "latency_ms": 75}, {"duration_ms": 700, "bandwidth_kbps": 900, "latency_ms": 0}, {"duration_ms": 2500, "bandwidth_kbps": 4000, "latency_ms": 75}]"#,
        words: "plan --manifest m --trace t --utilities 10 --buffer 3137 --switch 5",
        text: "score 9812\nlabels 1\nplan 0\n",
    },
    Small {
        manifest: r#"{"segment_duration_ms": 500, "bitrates_kbps": [250, 500, 2750], "segment_sizes_bits": [[75000, 150000, 825000], [75000, 150000, 825000], [125000, 250000, 1375000]]}"#,
        trace: r#"[{"duration_ms": 700, "bandwidth_kbps": 0, "latency_ms": 0}, {"duration_ms": 2500, "bandwidth_kbps": 2000, "latency_ms": 20}]"#,
        words: "plan --manifest m --trace t --utilities 1,10,10 --buffer 1000 --switch 5 --stall 0 --startup 30",
        text: "score 6750\nlabels 15\nplan 1 1 1\n",
    },
    Small {
        manifest: r#"{"segment_duration_ms": 1000, "bitrates_kbps": [700, 850, 1700], "segment_sizes_bits": [[420000, 510000, 1020000], [420000, 510000, 1020000], [700000, 850000, 1700000], [420000, 510000, 1020000], [560000, 680000, 1360000]]}"#,
        trace: r#"[{"duration_ms": 300, "bandwidth_kbps": 900, "latency_ms": 0}, {"duration_ms": 1100, "bandwidth_kbps": 400, "latency_ms": 0}]"#,
        words: "plan --manifest m --trace t --utilities 0,10,10 --buffer 1137",
        text: "score -320400\nlabels 84\nplan 2 0 1 0 0\n",
    },
    Small {
        manifest: r#"{"segment_duration_ms": 1000, "bitrates_kbps": [550, 1000, 2050, 2400], "segment_sizes_bits": [[440000, 800000, 1640000, 1920000], [330000, 600000, 1230000, 1440000], [825000, 1500000, 3075000, 3600000]]}"#,
        trace: r#"[{"duration_ms": 2500, "bandwidth_kbps": 4000, "latency_ms": 333}, {"duration_ms": 700, "bandwidth_kbps": 2000, "latency_ms": 333}, {"duration_ms": 300, "bandwidth_kbps": 4000, "latency_ms": 333}]"#,
        words: "plan --manifest m --trace t --utilities 10,10,10,20 --buffer 1000 --switch 5",
        text: "score -56463\nlabels 44\nplan 3 0 0\n",
    },
    Small {
        manifest: r#"{"segment_duration_ms": 2000, "bitrates_kbps": [150, 250, 2100], "segment_sizes_bits": [[450000, 750000, 6300000], [240000, 400000, 3360000], [360000, 600000, 5040000], [300000, 500000, 4200000]]}"#,
        trace: r#"[{"duration_ms": 2500, "bandwidth_kbps": 400, "latency_ms": 333}]"#,
        words: "plan --manifest m --trace t --utilities 0,10,10 --buffer 10000",
        text: "score 37792\nlabels 56\nplan 1 1 1 1\n",
    },
    Small {
        manifest: r#"{"segment_duration_ms": 2000, "bitrates_kbps": [950], "segment_sizes_bits": [[1140000], [1520000], [2280000]]}"#,
        trace: r#"[{"duration_ms": 1100, "bandwidth_kbps": 900, "latency_ms": 75}, {"duration_ms": 2500, "bandwidth_kbps": 0, "latency_ms": 333}]"#,
        words: "plan --manifest m --trace t --utilities 1 --buffer 4000 --stall 40 --startup 30",
        text: "score -527180\nlabels 3\nplan 0 0 0\n",
    },
    Small {
        manifest: r#"{"segment_duration_ms": 1000, "bitrates_kbps": [300, 750, 1950], "segment_sizes_bits": [[180000, 450000, 1170000], [240000, 600000, 1560000]]}"#,
        trace: r#"[{"duration_ms": 1100, "bandwidth_kbps": 400, "latency_ms": 0}, {"duration_ms": 1100, "bandwidth_kbps": 0, "latency_ms": 20}, {"duration_ms": 700, "bandwidth_kbps": 900, "latency_ms": 75}]"#,
        words: "plan --manifest m --trace t --utilities 0,1,5 --buffer 1000",
        text: "score -61212\nlabels 12\nplan 1 0\n",
    },
    Small {
        manifest: r#"{"segment_duration_ms": 2000, "bitrates_kbps": [450, 1100], "segment_sizes_bits": [[900000, 2200000], [540000, 1320000], [900000, 2200000]]}"#,
        trace: r#"[{"duration_ms": 2500, "bandwidth_kbps": 0, "latency_ms": 0}, {"duration_ms": 300, "bandwidth_kbps": 4000, "latency_ms": 20}]"#,
        words: "plan --manifest m --trace t --utilities 2,2 --buffer 2000 --switch 700 --stall 40",
        text: "score -60725\nlabels 10\nplan 0 0 0\n",
    },
    Small {
        manifest: r#"{"segment_duration_ms": 1000, "bitrates_kbps": [2750], "segment_sizes_bits": [[2750000]]}"#,
        trace: r#"[{"duration_ms": 700, "bandwidth_kbps": 150, "latency_ms": 20}, {"duration_ms": 2500, "bandwidth_kbps": 2000, "latency_ms": 20}, {"duration_ms": 700, "bandwidth_kbps": 400, "latency_ms": 75}]"#,
        words: "plan --manifest m --trace t --utilities 0 --buffer 3137 --startup 30",
        text: "score -60720\nlabels 1\nplan 0\n",
    },
    Small {
        manifest: r#"{"segment_duration_ms": 2000, "bitrates_kbps": [1000, 2150, 2850], "segment_sizes_bits": [[2400000, 5160000, 6840000], [1200000, 2580000, 3420000]]}"#,
        trace: r#"[{"duration_ms": 700, "bandwidth_kbps": 150, "latency_ms": 75}, {"duration_ms": 2500, "bandwidth_kbps": 400, "latency_ms": 20}, {"duration_ms": 1100, "bandwidth_kbps": 400, "latency_ms": 20}]"#,
        words: "plan --manifest m --trace t --utilities 1,5,10 --buffer 4000 --stall 1",
        text: "score -3349\nlabels 12\nplan 0 2\n",
    },
    Small {
        manifest: r#"{"segment_duration_ms": 200, "bitrates_kbps": [2650, 2950], "segment_sizes_bits": [[636000, 708000], [795000, 885000], [424000, 472000], [636000, 708000]]}"#,
        trace: r#"[{"duration_ms": 2500, "bandwidth_kbps": 900, "latency_ms": 0}, {"duration_ms": 700, "bandwidth_kbps": 150, "latency_ms": 0}]"#,
        words: "plan --manifest m --trace t --utilities 1,2 --buffer 1000 --switch 100 --stall 1",
        text: "score 4934\nlabels 25\nplan 1 1 1 1\n",
    },
    Small {
        manifest: r#"{"segment_duration_ms": 2000, "bitrates_kbps": [750, 1750, 2450], "segment_sizes_bits": [[1800000, 4200000, 5880000], [1500000, 3500000, 4900000], [1500000, 3500000, 4900000]]}"#,
        trace: r#"[{"duration_ms": 2500, "bandwidth_kbps": 900, "latency_ms": 333}]"#,
        words: "plan --manifest m --trace t --utilities 1,2,10 --buffer 10137 --startup 30",
        text: "score -66990\nlabels 30\nplan 0 0 0\n",
    },
    Small {
        manifest: r#"{"segment_duration_ms": 2000, "bitrates_kbps": [1050, 1450, 1500], "segment_sizes_bits": [[1260000, 1740000, 1800000], [1680000, 2320000, 2400000], [1260000, 1740000, 1800000], [2520000, 3480000, 3600000], [2520000, 3480000, 3600000]]}"#,
        trace: r#"[{"duration_ms": 2500, "bandwidth_kbps": 0, "latency_ms": 0}, {"duration_ms": 2500, "bandwidth_kbps": 2000, "latency_ms": 75}, {"duration_ms": 2500, "bandwidth_kbps": 150, "latency_ms": 0}]"#,
        words: "plan --manifest m --trace t --utilities 1,1,1 --buffer 10137 --switch 700",
        text: "score -167700\nlabels 39\nplan 2 0 0 0 0\n",
    },
    Small {
        manifest: r#"{"segment_duration_ms": 2000, "bitrates_kbps": [2550], "segment_sizes_bits": [[3060000], [3060000], [4080000], [4080000]]}"#,
        trace: r#"[{"duration_ms": 300, "bandwidth_kbps": 4000, "latency_ms": 20}, {"duration_ms": 700, "bandwidth_kbps": 4000, "latency_ms": 20}, {"duration_ms": 2500, "bandwidth_kbps": 4000, "latency_ms": 0}]"#,
        words: "plan --manifest m --trace t --utilities 0 --buffer 2000",
        text: "score -281285\nlabels 4\nplan 0 0 0 0\n",
    },
    Small {
        manifest: r#"{"segment_duration_ms": 500, "bitrates_kbps": [100, 1050, 1800], "segment_sizes_bits": [[60000, 630000, 1080000]]}"#,
        trace: r#"[{"duration_ms": 1100, "bandwidth_kbps": 4000, "latency_ms": 0}, {"duration_ms": 2500, "bandwidth_kbps": 2000, "latency_ms": 0}]"#,
        words: "plan --manifest m --trace t --utilities 0,1,10 --buffer 1637 --stall 1",
        text: "score 9730\nlabels 3\nplan 2\n",
    },
];

// What `plan` answers on a small film.
fn plan_small(alloc: Global, small: &Small) -> Result<Answer, AllocError> {
    let files = [("m", small.manifest), ("t", small.trace)];
    run_words(alloc, small.words, &files, NONE)
}

#[test]
fn small_plans(rt: HostRuntime) -> Result<(), Fail> {
    for small in &SMALL {
        let answer = plan_small(rt.alloc(), small)?;
        assert!(rt; answer.is(0, &Is(small.text), ""), "{}", small.words);
    }
    Ok(())
}
