// Whole runs of `simulate`.
use super::Text::Is;
use super::files::{LEAST, NO_TRACE, SLOW, SLOWEST, STEADY as STEADY_FILES};
use super::{Case, NO_FILE, assert_answer};
use std::test::Fail;

pub(super) const STEADY: &str =
    "simulate --manifest m --trace t --rule fixed:1 --utilities 0,10 --buffer 10000";

pub(super) const STEADY_TEXT: &str = "0 request 0 1
1000 arrive 0 1 first 0 rate 2000000
1000 request 1 1
1000 play 0 1
2000 arrive 1 1 first 1000 rate 2000000
2000 request 2 1
2000 play 1 1
3000 arrive 2 1 first 2000 rate 2000000
3000 play 2 1
4000 end
startup 1000
stall 0
stalls 0
seeking 0
wasted 0
end 4000
score 29000
";

const SMALL_TEXT: &str = "0 request 0 0
500 arrive 0 0 first 0 rate 2000000
500 request 1 0
500 play 0 0
1000 arrive 1 0 first 500 rate 2000000
1500 request 2 0
1500 play 1 0
2000 arrive 2 0 first 1500 rate 2000000
2500 play 2 0
3500 end
startup 500
stall 0
stalls 0
seeking 0
wasted 0
end 3500
score -500
";

const SLOW_TEXT: &str = "0 request 0 1
4000 arrive 0 1 first 0 rate 500000
4000 request 1 1
4000 play 0 1
5000 stall
8000 arrive 1 1 first 4000 rate 500000
8000 request 2 1
8000 play 1 1
9000 stall
12000 arrive 2 1 first 8000 rate 500000
12000 play 2 1
13000 end
startup 4000
stall 6000
stalls 2
seeking 0
wasted 0
end 13000
score -574000
";

const ABANDONED_TEXT: &str = "0 request 0 1
500 abandon 0 1 to 0 got 100000
500 request 0 0
5500 arrive 0 0 first 500 rate 200000
5500 request 1 1
5500 play 0 0
6000 abandon 1 1 to 0 got 100000
6000 request 1 0
6500 stall
11000 arrive 1 0 first 6000 rate 200000
11000 request 2 1
11000 play 1 0
11500 abandon 2 1 to 0 got 100000
11500 request 2 0
12000 stall
16500 arrive 2 0 first 11500 rate 200000
16500 play 2 0
17500 end
startup 5500
stall 9000
stalls 2
seeking 0
wasted 300000
end 17500
score -905500
";

const TINY_TEXT: &str = "0 request 0 0
1 arrive 0 0 first 0 rate 1000
1 play 0 0
2 end
startup 1
stall 0
stalls 0
seeking 0
wasted 0
end 2
score -1
";

pub(super) const SOUGHT: &str =
    "simulate --manifest m --trace t --seeks s --rule fixed:1 --utilities 0,10 --buffer 10000";

pub(super) const SOUGHT_TEXT: &str = "0 request 0 1
1000 arrive 0 1 first 0 rate 2000000
1000 seek 2 wasted 2000000
1000 request 2 1
2000 arrive 2 1 first 1000 rate 2000000
2000 play 2 1
3000 end
startup 1000
stall 0
stalls 0
seeking 1000
wasted 2000000
end 3000
score 9000
";

pub(super) const SPREAD: &str =
    "simulate --manifest m --trace c.csv --rule fixed:1 --utilities 0,10 --buffer 10000";

const SPREAD_TEXT: &str = "0 request 0 1
1001 arrive 0 1 first 0 rate 1998001
1001 request 1 1
1001 play 0 1
2001 stall
2002 arrive 1 1 first 1001 rate 1998001
2002 request 2 1
2002 play 1 1
3002 stall
3003 arrive 2 1 first 2002 rate 1998001
3003 play 2 1
4003 end
startup 1001
stall 2
stalls 2
seeking 0
wasted 0
end 4003
score 28799
";

#[rattlefmt::skip]
static CASES: [Case; 13] = [
    Case {
        name: "steady link",
        words: STEADY,
        file: NO_FILE,
        files: &STEADY_FILES,
        status: 0,
        out: Is(STEADY_TEXT),
        err: "",
    },
    Case {
        name: "listed rungs",
        words: "simulate --manifest=m --trace=t --rule=list:1,1,1 --utilities=0,10 --buffer=10000",
        file: NO_FILE,
        files: &STEADY_FILES,
        status: 0,
        out: Is(STEADY_TEXT),
        err: "",
    },
    Case {
        name: "small buffer",
        words: "simulate --manifest m --trace t --rule fixed:0 --utilities 0,10 --buffer 2000",
        file: NO_FILE,
        files: &STEADY_FILES,
        status: 0,
        out: Is(SMALL_TEXT),
        err: "",
    },
    Case {
        name: "slow link",
        words: STEADY,
        file: NO_FILE,
        files: &SLOW,
        status: 0,
        out: Is(SLOW_TEXT),
        err: "",
    },
    Case {
        name: "abandoned downloads",
        words: "simulate --abandon --manifest m --trace t --rule fixed:1 --utilities 0,10 --buffer 10000",
        file: NO_FILE,
        files: &SLOWEST,
        status: 0,
        out: Is(ABANDONED_TEXT),
        err: "",
    },
    Case {
        name: "smallest input",
        words: "simulate --manifest m --trace t --rule fixed:0 --utilities 0 --buffer 1",
        file: NO_FILE,
        files: &LEAST,
        status: 0,
        out: Is(TINY_TEXT),
        err: "",
    },
    Case {
        name: "titled manifest",
        words: STEADY,
        file: ("m", r#"{"title": 1, "segment_duration_ms": 1000, "bitrates_kbps": [1000, 2000], "segment_sizes_bits": [[1000000, 2000000], [1000000, 2000000], [1000000, 2000000]]}"#),
        files: &STEADY_FILES,
        status: 0,
        out: Is(STEADY_TEXT),
        err: "",
    },
    Case {
        name: "seek ahead",
        words: SOUGHT,
        file: ("s", "at_ms,to_segment\n1000,2\n"),
        files: &STEADY_FILES,
        status: 0,
        out: Is(SOUGHT_TEXT),
        err: "",
    },
    Case {
        name: "seek after the end",
        words: SOUGHT,
        file: ("s", "at_ms,to_segment\n4000,0\n"),
        files: &STEADY_FILES,
        status: 0,
        out: Is(STEADY_TEXT),
        err: "",
    },
    Case {
        name: "decimal bandwidth",
        words: SPREAD,
        file: ("c.csv", "duration_ms,bandwidth_kbps,latency_ms\n60000,1999.999,0\n"),
        files: &STEADY_FILES,
        status: 0,
        out: Is(SPREAD_TEXT),
        err: "",
    },
    Case {
        name: "decimal bandwidth",
        words: SPREAD,
        file: ("c.csv", "duration_ms,bandwidth_kbps,latency_ms\n60000,2000.5,0\n"),
        files: &STEADY_FILES,
        status: 0,
        out: Is(STEADY_TEXT),
        err: "",
    },
    Case {
        name: "csv trace",
        words: SPREAD,
        file: ("c.csv", "duration_ms,bandwidth_kbps,latency_ms\n60000,2000,0\n"),
        files: &STEADY_FILES,
        status: 0,
        out: Is(STEADY_TEXT),
        err: "",
    },
    Case {
        name: "csv trace without its last line end",
        words: SPREAD,
        file: ("c.csv", "duration_ms,bandwidth_kbps,latency_ms\n60000,2000,0"),
        files: &STEADY_FILES,
        status: 0,
        out: Is(STEADY_TEXT),
        err: "",
    },
];

// The manifest, the trace or a setting is refused.
#[rattlefmt::skip]
static REFUSED: [Case; 10] = [
    Case {
        name: "settings",
        words: "simulate --manifest m --trace t --rule fixed:1 --utilities 0,10 --buffer 999",
        file: NO_FILE,
        files: &STEADY_FILES,
        status: 3,
        out: Is(""),
        err: "abrlab: settings: buffer\n",
    },
    Case {
        name: "settings",
        words: "simulate --manifest m --trace t --rule fixed:2 --utilities 0,10,20 --buffer 1000",
        file: NO_FILE,
        files: &STEADY_FILES,
        status: 3,
        out: Is(""),
        err: "abrlab: settings: utilities\n",
    },
    Case {
        name: "settings",
        words: "simulate --manifest m --trace t --rule fixed:2 --utilities 0,10 --buffer 1000",
        file: NO_FILE,
        files: &STEADY_FILES,
        status: 3,
        out: Is(""),
        err: "abrlab: settings: rule 1\n",
    },
    Case {
        name: "settings",
        words: "simulate --manifest m --trace t --rule list:1,1 --utilities 0,10 --buffer 1000",
        file: NO_FILE,
        files: &STEADY_FILES,
        status: 3,
        out: Is(""),
        err: "abrlab: settings: rule 1\n",
    },
    Case {
        name: "bad manifest",
        words: STEADY,
        file: ("m", r#"{"segment_duration_ms": 1000, "bitrates_kbps": [1000, 2000], "segment_sizes_bits": [[1000000, 2000000], [1000000], [1000000, 2000000]]}"#),
        files: &NO_TRACE,
        status: 3,
        out: Is(""),
        err: "abrlab: manifest file: shape at segment_sizes_bits row 2 column 0\n",
    },
    Case {
        name: "bad manifest",
        words: STEADY,
        file: ("m", r#"{"segment_duration_ms": 1000.0, "bitrates_kbps": [1000, 2000], "segment_sizes_bits": [[1000000, 2000000]]}"#),
        files: &NO_TRACE,
        status: 3,
        out: Is(""),
        err: "abrlab: manifest file: not-whole at segment_duration_ms row 0 column 0\n",
    },
    Case {
        name: "bad manifest",
        words: STEADY,
        file: ("m", r#"{"segment_duration_ms": 10"#),
        files: &NO_TRACE,
        status: 3,
        out: Is(""),
        err: "abrlab: manifest file: not-json at whole row 0 column 0\n",
    },
    Case {
        name: "bad manifest",
        words: STEADY,
        file: ("m", r#"{"segment_duration_ms": 1000, "bitrates_kbps": [2000, 1000], "segment_sizes_bits": [[1000000, 2000000]]}"#),
        files: &NO_TRACE,
        status: 3,
        out: Is(""),
        err: "abrlab: manifest file: order at bitrates_kbps row 0 column 2\n",
    },
    Case {
        name: "slow trace",
        words: STEADY,
        file: ("t", r#"[{"duration_ms": 11, "bandwidth_kbps": 0, "latency_ms": 0}, {"duration_ms": 10, "bandwidth_kbps": 2, "latency_ms": 0}]"#),
        files: &STEADY_FILES,
        status: 3,
        out: Is(""),
        err: "abrlab: trace file: too-slow at cycle row 0 column 0\n",
    },
    Case {
        name: "missing trace",
        words: "simulate --manifest m --trace x --rule fixed:1 --utilities 0,10 --buffer 10000",
        file: NO_FILE,
        files: &STEADY_FILES,
        status: 4,
        out: Is(""),
        err: "abrlab: trace file: not read\n",
    },
];

// The seek script or a CSV trace is refused.
#[rattlefmt::skip]
static REFUSED_CSV: [Case; 8] = [
    Case {
        name: "bad seeks",
        words: SOUGHT,
        file: ("s", ""),
        files: &STEADY_FILES,
        status: 3,
        out: Is(""),
        err: "abrlab: seeks file: empty at whole row 0 column 0\n",
    },
    Case {
        name: "bad seeks",
        words: SOUGHT,
        file: ("s", "at_ms\n"),
        files: &STEADY_FILES,
        status: 3,
        out: Is(""),
        err: "abrlab: seeks file: shape at header row 1 column 0\n",
    },
    Case {
        name: "bad seeks",
        words: SOUGHT,
        file: ("s", "at_ms,to_segment\n1000,3\n"),
        files: &STEADY_FILES,
        status: 3,
        out: Is(""),
        err: "abrlab: seeks file: out-of-range at to_segment row 2 column 2\n",
    },
    Case {
        name: "bad seeks",
        words: SOUGHT,
        file: ("s", "at_ms,to_segment\n1000,1\n1000,2\n"),
        files: &STEADY_FILES,
        status: 3,
        out: Is(""),
        err: "abrlab: seeks file: order at at_ms row 3 column 1\n",
    },
    Case {
        name: "bad seeks",
        words: SOUGHT,
        file: ("s", "at_ms,to_segment\n1000,1\n1000\n"),
        files: &STEADY_FILES,
        status: 3,
        out: Is(""),
        err: "abrlab: seeks file: not-csv at seek row 3 column 0\n",
    },
    Case {
        name: "missing seeks",
        words: SOUGHT,
        file: ("x", ""),
        files: &STEADY_FILES,
        status: 4,
        out: Is(""),
        err: "abrlab: seeks file: not read\n",
    },
    Case {
        name: "bad csv trace",
        words: SPREAD,
        file: ("c.csv", "duration_ms,bandwidth_kbps,latency_ms\n60000,2000.5001,0\n"),
        files: &STEADY_FILES,
        status: 3,
        out: Is(""),
        err: "abrlab: trace file: not-whole at bandwidth_kbps row 2 column 2\n",
    },
    Case {
        name: "bad csv trace",
        words: SPREAD,
        file: ("c.csv", "duration_ms,bandwidth_kbps,latency_ms\n60000,2000,0\n60000,2000\n"),
        files: &STEADY_FILES,
        status: 3,
        out: Is(""),
        err: "abrlab: trace file: not-csv at period row 3 column 0\n",
    },
];

#[test]
fn cases(rt: HostRuntime) -> Result<(), Fail> {
    for case in &CASES {
        assert_answer(&rt, rt.alloc(), case)?;
    }
    Ok(())
}

#[test]
fn refused_files(rt: HostRuntime) -> Result<(), Fail> {
    for case in &REFUSED {
        assert_answer(&rt, rt.alloc(), case)?;
    }
    Ok(())
}

#[test]
fn refused_csv(rt: HostRuntime) -> Result<(), Fail> {
    for case in &REFUSED_CSV {
        assert_answer(&rt, rt.alloc(), case)?;
    }
    Ok(())
}
