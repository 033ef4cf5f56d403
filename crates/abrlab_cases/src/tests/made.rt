// Whole runs on films and networks that are made from a few numbers.
use super::Text::{Begins, Counts, Ends, Is};
use super::{NONE, Planned, Text, assert_planned, run_words};
use std::alloc::{AllocError, Global};
use std::process::Abort;
use std::test::Fail;

// A film whose segments are so many hundredths of what their bitrates say; the shares come again and again.
#[derive(Clone, Copy)]
pub(super) struct Film {
    pub(super) seg_ms: u64,
    pub(super) bitrates: &'static [u64],
    pub(super) shares: &'static [u64],
    pub(super) segments: usize,
}

// A run on a made film and network, whose periods have ms, kbps and latency.
struct Made {
    film: Film,
    periods: &'static [(u64, u64, u64)],
    words: &'static str,
    status: u8,
    out: Text,
    err: &'static str,
}

// 199 segments of three seconds on ten rungs.
pub(super) const LONG: Film = Film {
    seg_ms: 3000,
    bitrates: &[230, 331, 477, 688, 991, 1427, 2056, 2962, 5027, 6000],
    shares: &[100],
    segments: 199,
};

// Two seconds on sixteen rungs: six segments, and two hundred, on which RobustMPC has a million lists at each request.
#[rattlefmt::skip]
pub(super) const SIXTEEN: Film = Film {
    seg_ms: 2000,
    bitrates: &[200, 260, 340, 440, 570, 740, 960, 1250, 1600, 2100, 2700, 3500, 4600, 6000, 7800, 10000],
    shares: &[75, 112, 98, 84, 121, 107],
    segments: 6,
};

#[rattlefmt::skip]
const WIDE: Film = Film {
    seg_ms: 2000,
    bitrates: &[200, 260, 340, 440, 570, 740, 960, 1250, 1600, 2100, 2700, 3500, 4600, 6000, 7800, 10000],
    shares: &[75, 112, 98, 84, 121, 107, 93, 79, 116, 102, 88, 125, 111, 97, 83, 120, 106, 92, 78, 115, 101, 87, 124, 110, 96, 82, 119, 105, 91, 77, 114, 100, 86, 123, 109, 95, 81, 118, 104, 90, 76, 113, 99, 85, 122, 108, 94, 80, 117, 103, 89],
    segments: 200,
};

// The sample film, whose exact plan spends the default budget with a buffer of 25 seconds.
const SAMPLE: Film = Film {
    seg_ms: 2000,
    bitrates: &[235, 375, 560, 750, 1050, 1750, 2350, 3000, 4300, 5800],
    shares: &[
        127, 116, 113, 120, 119, 126, 127, 79, 86, 113, 110, 124, 127, 76, 125, 90, 106, 127, 80,
        71, 96, 96, 74, 76, 78, 90, 100, 130, 107, 98,
    ],
    segments: 30,
};

// The longest film, of segments of one bit.
const MANY: Film = Film {
    seg_ms: 1,
    bitrates: &[1],
    shares: &[100],
    segments: 2000,
};

// A link that goes up and down, one that climbs by steps, and one that carries a bit in a millisecond.
#[rattlefmt::skip]
pub(super) const UP_AND_DOWN: [(u64, u64, u64); 20] = [
    (30_000, 12_000, 50), (30_000, 16_000, 50), (30_000, 12_000, 50), (30_000, 16_000, 50), (30_000, 12_000, 50), (30_000, 16_000, 50), (30_000, 12_000, 50), (30_000, 16_000, 50), (30_000, 12_000, 50), (30_000, 16_000, 50), (30_000, 12_000, 50), (30_000, 16_000, 50), (30_000, 12_000, 50), (30_000, 16_000, 50), (30_000, 12_000, 50), (30_000, 16_000, 50), (30_000, 12_000, 50), (30_000, 16_000, 50), (30_000, 12_000, 50), (30_000, 16_000, 50),
];

#[rattlefmt::skip]
pub(super) const CLIMBS: [(u64, u64, u64); 11] = [
    (4000, 1000, 20), (4000, 7300, 30), (4000, 3700, 40), (4000, 10000, 50), (4000, 6400, 60), (4000, 2800, 70), (4000, 9100, 80), (4000, 5500, 90), (4000, 1900, 100), (4000, 8200, 110), (4000, 4600, 120),
];

const MOBILE: [(u64, u64, u64); 8] = [
    (6000, 5200, 60),
    (5000, 4100, 70),
    (4000, 1800, 90),
    (5000, 420, 180),
    (4000, 150, 400),
    (3000, 600, 150),
    (4000, 2200, 90),
    (9000, 4800, 60),
];

const BIT: [(u64, u64, u64); 1] = [(1, 1, 0)];

#[rattlefmt::skip]
static RUNS: [Made; 8] = [
    Made {
        film: LONG,
        periods: &UP_AND_DOWN,
        words: "plan --manifest m --trace t --utilities 0,1,2,3,4,5,6,7,8,9 --buffer 6000",
        status: 0,
        out: Begins("score 1789450\nlabels 19810\nplan 9 9 9 9"),
        err: "",
    },
    Made {
        film: LONG,
        periods: &UP_AND_DOWN,
        words: "plan --manifest m --trace t --utilities 0,1,2,3,4,5,6,7,8,9 --buffer 6000 --budget 19809",
        status: 6,
        out: Is(""),
        err: "abrlab: budget spent at segment 198\n",
    },
    Made {
        film: SIXTEEN,
        periods: &CLIMBS,
        words: "plan --manifest m --trace t --utilities 0,1,2,3,4,5,6,7,8,9,10,11,12,13,14,15 --stall 4 --switch 200 --buffer 8000",
        status: 0,
        out: Is("score 73290\nlabels 25758\nplan 15 12 12 13 13 15\n"),
        err: "",
    },
    Made {
        film: LONG,
        periods: &UP_AND_DOWN,
        words: "simulate --manifest m --trace t --rule fixed:9 --utilities 0,1,2,3,4,5,6,7,8,9",
        status: 0,
        out: Ends("startup 1550\nstall 0\nstalls 0\nseeking 0\nwasted 0\nend 598550\nscore 1789450\n"),
        err: "",
    },
    Made {
        film: LONG,
        periods: &UP_AND_DOWN,
        words: "simulate --manifest m --trace t --rule throughput:3,5 --utilities 0,1,2,3,4,5,6,7,8,9",
        status: 0,
        out: Ends("startup 108\nstall 0\nstalls 0\nseeking 0\nwasted 0\nend 597108\nscore 1781892\n"),
        err: "",
    },
    Made {
        film: LONG,
        periods: &UP_AND_DOWN,
        words: "simulate --manifest m --trace t --rule mpc:5 --utilities 0,1,2,3,4,5,6,7,8,9",
        status: 0,
        out: Ends("startup 108\nstall 0\nstalls 0\nseeking 0\nwasted 0\nend 597108\nscore 1781892\n"),
        err: "",
    },
    Made {
        film: WIDE,
        periods: &CLIMBS,
        words: "simulate --manifest m --trace t --rule mpc:5 --utilities 0,1,2,3,4,5,6,7,8,9,10,11,12,13,14,15 --stall 4 --switch 200",
        status: 0,
        out: Ends("startup 320\nstall 0\nstalls 0\nseeking 0\nwasted 0\nend 400320\nscore 2366480\n"),
        err: "",
    },
    Made {
        film: MANY,
        periods: &BIT,
        words: "simulate --manifest m --trace t --rule fixed:0 --utilities 0 --buffer 10000000",
        status: 0,
        out: Counts(6008, "2001 end\nstartup 1\nstall 0\nstalls 0\nseeking 0\nwasted 0\nend 2001\nscore -1\n"),
        err: "",
    },
];

impl Film {
    // The sizes of a segment that is so many hundredths of what its bitrates say.
    fn row(&self, alloc: Global, share: u64) -> Result<Vec<u64>, AllocError> {
        let mut row = Vec::new(alloc);
        for bitrate in self.bitrates {
            row.push(bitrate.wrapping_mul(self.seg_ms).wrapping_mul(share) / 100)?;
        }
        Ok(row)
    }

    // The sizes of all segments.
    fn sizes(&self, alloc: Global) -> Result<Vec<Vec<u64>>, AllocError> {
        let mut rows = Vec::new(alloc);
        for share in self.shares.iter().cycle().take(self.segments) {
            rows.push(self.row(alloc, *share)?)?;
        }
        Ok(rows)
    }
}

// The manifest of a film.
pub(super) fn manifest_of(alloc: Global, film: &Film) -> Result<String, AllocError> {
    let sizes = film.sizes(alloc)?;
    format!(in alloc;
        "{{\"segment_duration_ms\": {}, \"bitrates_kbps\": {:?}, \"segment_sizes_bits\": {sizes:?}}}",
        film.seg_ms, film.bitrates
    )
}

// The trace of these periods.
pub(super) fn trace_of(alloc: Global, periods: &[(u64, u64, u64)]) -> Result<String, AllocError> {
    let mut text = String::new(alloc);
    let mut before = "[";
    for (duration_ms, bandwidth, latency) in periods {
        text.push_str(&format!(in alloc;
            "{before}{{\"duration_ms\": {duration_ms}, \"bandwidth_kbps\": {bandwidth}, \"latency_ms\": {latency}}}"
        )?)?;
        before = ", ";
    }
    text.push_str("]")?;
    Ok(text)
}

// A run on what is made comes to what it should.
fn assert_made(rt: &impl Abort, alloc: Global, made: &Made) -> Result<(), Fail> {
    let manifest = manifest_of(alloc, &made.film)?;
    let trace = trace_of(alloc, made.periods)?;
    let answer = run_words(alloc, made.words, &[("m", &manifest), ("t", &trace)], NONE)?;
    assert!(rt;
        answer.is(made.status, &made.out, made.err),
        "{}",
        made.words
    );
    Ok(())
}

#[test]
fn runs(rt: HostRuntime) -> Result<(), Fail> {
    for made in &RUNS {
        assert_made(&rt, rt.alloc(), made)?;
    }
    Ok(())
}

// The plan of the sample film on a grid.
static ON_A_GRID: Planned = Planned {
    task: "--manifest m --trace t --utilities 0,1,2,3,4,6,7,8,9,10 --stall 10 --buffer 25000",
    plan: "--coarse 20,5000",
    check: "--gap",
    text: "score 180474\nbound 299800\nlabels 15883\nplan 7 5 5 5 5 5 5 5 5 5 5 5 5 5 5 5 5 5 5 5 5 5 5 5 5 5 5 5 5 5\n",
    verdict: "yes score 180474 bound 299800\n",
};

// Where the exact plan spends the budget, there is a plan on a grid, with a bound.
#[test]
fn budget_spent_film_on_a_grid(rt: HostRuntime) -> Result<(), Fail> {
    let manifest = manifest_of(rt.alloc(), &SAMPLE)?;
    let trace = trace_of(rt.alloc(), &MOBILE)?;
    let files = [("m", manifest.as_str()), ("t", trace.as_str())];
    assert_planned(&rt, rt.alloc(), &ON_A_GRID, &files)
}
