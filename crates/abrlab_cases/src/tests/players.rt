// Several players on one link: whole runs of `simulate --players`.
use super::Text::{Counts, Is};
use super::files::{FILM, QUICK, SHORT, STEADY};
use super::{Case, File, NO_FILE, assert_answer};
use std::test::Fail;

// Five rules on a link with latency and dead periods, with full buffers and equal finishes.
const CROWD: [File; 2] = [("m", SHORT), ("t", QUICK)];

const NO_LINK: [File; 1] = [("m", FILM)];

pub(super) const EQUAL: &str =
    "simulate --manifest m --trace t --players fixed:1/fixed:1 --utilities 0,10 --buffer 10000";

pub(super) const EQUAL_TEXT: &str = "player 1
0 request 0 1
2000 arrive 0 1 first 0 rate 1000000
2000 request 1 1
2000 play 0 1
3000 stall
4000 arrive 1 1 first 2000 rate 1000000
4000 request 2 1
4000 play 1 1
5000 stall
6000 arrive 2 1 first 4000 rate 1000000
6000 play 2 1
7000 end
startup 2000
stall 2000
stalls 2
seeking 0
wasted 0
end 7000
score -172000
player 2
0 request 0 1
2000 arrive 0 1 first 0 rate 1000000
2000 request 1 1
2000 play 0 1
3000 stall
4000 arrive 1 1 first 2000 rate 1000000
4000 request 2 1
4000 play 1 1
5000 stall
6000 arrive 2 1 first 4000 rate 1000000
6000 play 2 1
7000 end
startup 2000
stall 2000
stalls 2
seeking 0
wasted 0
end 7000
score -172000
";

const UNEQUAL_TEXT: &str = "player 1
0 request 0 0
1000 arrive 0 0 first 0 rate 1000000
1000 request 1 0
1000 play 0 0
2000 arrive 1 0 first 1000 rate 1000000
2000 request 2 0
2000 play 1 0
3000 arrive 2 0 first 2000 rate 1000000
3000 play 2 0
4000 end
startup 1000
stall 0
stalls 0
seeking 0
wasted 0
end 4000
score -1000
player 2
0 request 0 1
2000 arrive 0 1 first 0 rate 1000000
2000 request 1 1
2000 play 0 1
3000 stall
3500 arrive 1 1 first 2000 rate 1333333
3500 request 2 1
3500 play 1 1
4500 arrive 2 1 first 3500 rate 2000000
4500 play 2 1
5500 end
startup 2000
stall 500
stalls 1
seeking 0
wasted 0
end 5500
score -22000
";

const ALONE_TEXT: &str = "player 1
0 request 0 1
1000 arrive 0 1 first 0 rate 2000000
1000 request 1 1
1000 play 0 1
2000 arrive 1 1 first 1000 rate 2000000
2000 request 2 1
2000 play 1 1
3000 arrive 2 1 first 2000 rate 2000000
3000 play 2 1
4000 end
startup 1000
stall 0
stalls 0
seeking 0
wasted 0
end 4000
score 29000
";

const EIGHTH_TEXT: &str = "player 8
0 request 0 0
265 arrive 0 0 first 75 rate 3000000
265 request 1 2
265 play 0 0
1036 arrive 1 2 first 340 rate 3268678
1036 request 2 2
1265 play 1 2
2265 stall
3258 arrive 2 2 first 1111 rate 1350721
3258 request 3 1
3258 play 2 2
3840 arrive 3 1 first 3291 rate 2010928
3840 request 4 1
4258 play 3 1
4269 arrive 4 1 first 3873 rate 3484848
4269 request 5 2
4624 arrive 5 2 first 4344 rate 10625000
5258 play 4 1
6258 play 5 2
7258 end
startup 265
stall 993
stalls 1
seeking 0
wasted 0
end 7258
score -85565
";

const NINE: &str =
    "simulate --manifest m --trace t --players fixed:1/fixed:1/fixed:1/fixed:1/fixed:1/fixed:1/fixed:1/fixed:1/fixed:1 --utilities 0,10 --buffer 10000";

const CROWD_WORDS: &str =
    "simulate --manifest m --trace t --players fixed:1/list:0,1,2,1,0,2/throughput:2,5/bola:5/mpc:3/fixed:1/mpc:5/throughput:1 --utilities 1,2,3 --buffer 3000";

const USAGE: &str = "abrlab: usage: simulate, compare, plan, check, demo\n";

#[rattlefmt::skip]
static PLAYERS: [Case; 9] = [
    Case {
        name: "two-equal-players",
        words: EQUAL,
        file: NO_FILE,
        files: &STEADY,
        status: 0,
        out: Is(EQUAL_TEXT),
        err: "",
    },
    Case {
        name: "two-unequal-players",
        words: "simulate --manifest m --trace t --players fixed:0/fixed:1 --utilities 0,10 --buffer 10000",
        file: NO_FILE,
        files: &STEADY,
        status: 0,
        out: Is(UNEQUAL_TEXT),
        err: "",
    },
    Case {
        name: "one-player-alone",
        words: "simulate --manifest m --trace t --players fixed:1 --utilities 0,10 --buffer 10000",
        file: NO_FILE,
        files: &STEADY,
        status: 0,
        out: Is(ALONE_TEXT),
        err: "",
    },
    Case {
        name: "eight-players",
        words: CROWD_WORDS,
        file: NO_FILE,
        files: &CROWD,
        status: 0,
        out: Counts(221, EIGHTH_TEXT),
        err: "",
    },
    Case {
        name: "second-player-does-not-fit",
        words: "simulate --manifest m --trace t --players fixed:1/fixed:2 --utilities 0,10 --buffer 10000",
        file: NO_FILE,
        files: &STEADY,
        status: 3,
        out: Is(""),
        err: "abrlab: settings: rule 2\n",
    },
    Case {
        name: "players-without-a-trace",
        words: EQUAL,
        file: NO_FILE,
        files: &NO_LINK,
        status: 4,
        out: Is(""),
        err: "abrlab: trace file: not read\n",
    },
    Case {
        name: "nine-players",
        words: NINE,
        file: NO_FILE,
        files: &STEADY,
        status: 2,
        out: Is(""),
        err: USAGE,
    },
    Case {
        name: "rule-beside-players",
        words: "simulate --manifest m --trace t --players fixed:1 --rule fixed:1 --utilities 0,10",
        file: NO_FILE,
        files: &STEADY,
        status: 2,
        out: Is(""),
        err: USAGE,
    },
    Case {
        name: "players-who-give-up",
        words: "simulate --manifest m --trace t --players fixed:1 --abandon --utilities 0,10",
        file: NO_FILE,
        files: &STEADY,
        status: 2,
        out: Is(""),
        err: USAGE,
    },
];

#[test]
fn several_players(rt: HostRuntime) -> Result<(), Fail> {
    for case in &PLAYERS {
        assert_answer(&rt, rt.alloc(), case)?;
    }
    Ok(())
}
