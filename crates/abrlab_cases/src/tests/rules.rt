// The five rules through whole runs of `simulate`.
use super::Text::Ends;
use super::files::{FALLING, SHORT, UNEVEN, WAVES};
use super::{Case, File, NO_FILE, assert_answer};
use std::test::Fail;

const SEEKS: &str = "at_ms,to_segment\n2500,4\n9000,1\n";

const WAVES_FALLING: [File; 3] = [("m", WAVES), ("t", FALLING), ("s", SEEKS)];

const WAVES_UNEVEN: [File; 3] = [("m", WAVES), ("t", UNEVEN), ("s", SEEKS)];

const SHORT_FALLING: [File; 3] = [("m", SHORT), ("t", FALLING), ("s", SEEKS)];

const SHORT_UNEVEN: [File; 3] = [("m", SHORT), ("t", UNEVEN), ("s", SEEKS)];

// Sessions, and the counters that they end with.
#[rattlefmt::skip]
static SESSIONS: [Case; 20] = [
    Case {
        name: "session",
        words: "simulate --manifest m --trace t --rule throughput:3,5 --utilities 0,10,20,40 --buffer 8000",
        file: NO_FILE,
        files: &WAVES_FALLING,
        status: 0,
        out: Ends("\nstartup 192\nstall 5141\nstalls 2\nseeking 0\nwasted 0\nend 25333\nscore -224292\n"),
        err: "",
    },
    Case {
        name: "session",
        words: "simulate --manifest m --trace t --rule throughput:1 --utilities 0,10,20,40 --buffer 12000 --abandon",
        file: NO_FILE,
        files: &WAVES_FALLING,
        status: 0,
        out: Ends("\nstartup 192\nstall 594\nstalls 1\nseeking 0\nwasted 4324950\nend 20786\nscore 140408\n"),
        err: "",
    },
    Case {
        name: "session",
        words: "simulate --manifest m --trace t --rule throughput:2,100 --utilities 0,10,20,40 --buffer 6000 --switch 5 --seeks s",
        file: NO_FILE,
        files: &WAVES_FALLING,
        status: 0,
        out: Ends("\nstartup 192\nstall 67\nstalls 1\nseeking 11186\nwasted 7572000\nend 36263\nscore 342708\n"),
        err: "",
    },
    Case {
        name: "session",
        words: "simulate --manifest m --trace t --rule throughput:5,1,2,3 --utilities 0,10,20,40 --buffer 8000",
        file: NO_FILE,
        files: &WAVES_UNEVEN,
        status: 0,
        out: Ends("\nstartup 309\nstall 485\nstalls 1\nseeking 0\nwasted 0\nend 20794\nscore 71191\n"),
        err: "",
    },
    Case {
        name: "session",
        words: "simulate --manifest m --trace t --rule throughput:4 --utilities 0,10,20,40 --buffer 20000 --abandon --seeks s",
        file: NO_FILE,
        files: &WAVES_UNEVEN,
        status: 0,
        out: Ends("\nstartup 309\nstall 0\nstalls 0\nseeking 4087\nwasted 2988400\nend 29106\nscore 139691\n"),
        err: "",
    },
    Case {
        name: "session",
        words: "simulate --manifest m --trace t --rule throughput:2 --utilities 1,2,3 --buffer 3000 --abandon",
        file: NO_FILE,
        files: &SHORT_UNEVEN,
        status: 0,
        out: Ends("\nstartup 295\nstall 834\nstalls 2\nseeking 0\nwasted 0\nend 7129\nscore -73695\n"),
        err: "",
    },
    Case {
        name: "session",
        words: "simulate --manifest m --trace t --rule throughput:3,5 --utilities 1,2,3 --buffer 2000 --seeks s",
        file: NO_FILE,
        files: &SHORT_FALLING,
        status: 0,
        out: Ends("\nstartup 183\nstall 0\nstalls 0\nseeking 565\nwasted 1108000\nend 5065\nscore 12817\n"),
        err: "",
    },
    Case {
        name: "session",
        words: "simulate --manifest m --trace t --rule bola:5 --utilities 0,10,20,40 --buffer 8000",
        file: NO_FILE,
        files: &WAVES_FALLING,
        status: 0,
        out: Ends("\nstartup 337\nstall 7219\nstalls 3\nseeking 0\nwasted 0\nend 27556\nscore -352237\n"),
        err: "",
    },
    Case {
        name: "session",
        words: "simulate --manifest m --trace t --rule bola:40 --utilities 0,10,20,40 --buffer 16000 --abandon",
        file: NO_FILE,
        files: &WAVES_FALLING,
        status: 0,
        out: Ends("\nstartup 192\nstall 0\nstalls 0\nseeking 0\nwasted 6131800\nend 20192\nscore 159808\n"),
        err: "",
    },
    Case {
        name: "session",
        words: "simulate --manifest m --trace t --rule bola:1 --utilities 0,10,20,40 --buffer 10000 --seeks s",
        file: NO_FILE,
        files: &WAVES_UNEVEN,
        status: 0,
        out: Ends("\nstartup 531\nstall 27316\nstalls 9\nseeking 3787\nwasted 4398300\nend 54807\nscore -2342131\n"),
        err: "",
    },
    Case {
        name: "session",
        words: "simulate --manifest m --trace t --rule bola:1000000 --utilities 0,10,20,40 --buffer 8000 --abandon",
        file: NO_FILE,
        files: &WAVES_UNEVEN,
        status: 0,
        out: Ends("\nstartup 309\nstall 0\nstalls 0\nseeking 0\nwasted 300600\nend 20309\nscore 59691\n"),
        err: "",
    },
    Case {
        name: "session",
        words: "simulate --manifest m --trace t --rule bola:3 --utilities 1,2,3 --buffer 4000 --abandon --seeks s",
        file: NO_FILE,
        files: &SHORT_UNEVEN,
        status: 0,
        out: Ends("\nstartup 295\nstall 0\nstalls 0\nseeking 811\nwasted 577400\nend 5311\nscore 5705\n"),
        err: "",
    },
    Case {
        name: "session",
        words: "simulate --manifest m --trace t --rule bola:10 --utilities 0,0,7 --buffer 6000",
        file: NO_FILE,
        files: &SHORT_FALLING,
        status: 0,
        out: Ends("\nstartup 183\nstall 0\nstalls 0\nseeking 0\nwasted 0\nend 6183\nscore 20817\n"),
        err: "",
    },
    Case {
        name: "session",
        words: "simulate --manifest m --trace t --rule mpc:5 --utilities 0,10,20,40 --buffer 8000 --switch 300 --stall 20",
        file: NO_FILE,
        files: &WAVES_FALLING,
        status: 0,
        out: Ends("\nstartup 192\nstall 4907\nstalls 1\nseeking 0\nwasted 0\nend 25099\nscore 134668\n"),
        err: "",
    },
    Case {
        name: "session",
        words: "simulate --manifest m --trace t --rule mpc:3 --utilities 0,10,20,40 --buffer 12000 --abandon --stall 5",
        file: NO_FILE,
        files: &WAVES_FALLING,
        status: 0,
        out: Ends("\nstartup 192\nstall 594\nstalls 1\nseeking 0\nwasted 4324950\nend 20786\nscore 196838\n"),
        err: "",
    },
    Case {
        name: "session",
        words: "simulate --manifest m --trace t --rule mpc:1 --utilities 0,10,20,40 --buffer 8000 --stall 3 --seeks s",
        file: NO_FILE,
        files: &WAVES_UNEVEN,
        status: 0,
        out: Ends("\nstartup 309\nstall 21065\nstalls 8\nseeking 10830\nwasted 3325600\nend 52469\nscore 316496\n"),
        err: "",
    },
    Case {
        name: "session",
        words: "simulate --manifest m --trace t --rule mpc:4 --utilities 0,10,20,40 --buffer 10000 --switch 100 --abandon --seeks s",
        file: NO_FILE,
        files: &WAVES_UNEVEN,
        status: 0,
        out: Ends("\nstartup 309\nstall 0\nstalls 0\nseeking 1022\nwasted 6622500\nend 27235\nscore 72691\n"),
        err: "",
    },
    Case {
        name: "session",
        words: "simulate --manifest m --trace t --rule mpc:2 --utilities 1,2,3 --buffer 3000 --stall 1",
        file: NO_FILE,
        files: &SHORT_UNEVEN,
        status: 0,
        out: Ends("\nstartup 295\nstall 2194\nstalls 1\nseeking 0\nwasted 0\nend 8489\nscore 9511\n"),
        err: "",
    },
    Case {
        name: "session",
        words: "simulate --manifest m --trace t --rule mpc:5 --utilities 1,2,3 --buffer 5000 --switch 1000 --stall 2 --seeks s",
        file: NO_FILE,
        files: &SHORT_FALLING,
        status: 0,
        out: Ends("\nstartup 183\nstall 0\nstalls 0\nseeking 565\nwasted 3451000\nend 5065\nscore 10817\n"),
        err: "",
    },
    Case {
        name: "session",
        words: "simulate --manifest m --trace t --rule mpc:3 --utilities 5,5,5 --buffer 4000 --abandon",
        file: NO_FILE,
        files: &SHORT_FALLING,
        status: 0,
        out: Ends("\nstartup 183\nstall 0\nstalls 0\nseeking 0\nwasted 0\nend 6183\nscore 29817\n"),
        err: "",
    },
];

#[test]
fn sessions(rt: HostRuntime) -> Result<(), Fail> {
    for case in &SESSIONS {
        assert_answer(&rt, rt.alloc(), case)?;
    }
    Ok(())
}
