// Whole runs of `demo`.
use super::Text::Is;
use super::{Case, NO_FILE, assert_answer};
use std::test::Fail;

const ZERO_TEXT: &str = "demo 0
rule fixed:0 startup 674 stall 416 stalls 1 seeking 0 wasted 0 end 81090 score -42274
rule fixed:3 startup 5042 stall 57298 stalls 37 seeking 0 wasted 0 end 142340 score -5614842
rule throughput:3,5 startup 674 stall 5345 stalls 7 seeking 0 wasted 0 end 86019 score -479174
rule bola:5 startup 674 stall 59892 stalls 37 seeking 0 wasted 0 end 140566 score -5872874
rule mpc:3 startup 674 stall 2681 stalls 4 seeking 0 wasted 0 end 83355 score -235774
plan score 21758 labels 7604
check yes
";

pub(super) const ONE_TEXT: &str = "demo 1
rule fixed:0 startup 393 stall 0 stalls 0 seeking 0 wasted 0 end 80393 score -393
rule fixed:3 startup 2717 stall 96226 stalls 38 seeking 0 wasted 0 end 178943 score -9505317
rule throughput:3,5 startup 393 stall 4981 stalls 9 seeking 0 wasted 0 end 85374 score -456493
rule bola:5 startup 393 stall 96261 stalls 37 seeking 0 wasted 0 end 176654 score -9509493
rule mpc:3 startup 393 stall 2188 stalls 5 seeking 0 wasted 0 end 82581 score -198193
plan score 49283 labels 7328
check yes
";

const LAST_TEXT: &str = "demo 2147483647
rule fixed:0 startup 366 stall 545 stalls 1 seeking 0 wasted 0 end 80911 score -54866
rule fixed:3 startup 2666 stall 59488 stalls 37 seeking 0 wasted 0 end 142154 score -5831466
rule throughput:3,5 startup 366 stall 7883 stalls 8 seeking 0 wasted 0 end 88249 score -728666
rule bola:5 startup 366 stall 59458 stalls 35 seeking 0 wasted 0 end 139824 score -5829166
rule mpc:3 startup 366 stall 3315 stalls 3 seeking 0 wasted 0 end 83681 score -281866
plan score 18334 labels 6004
check yes
";

#[rattlefmt::skip]
static CASES: [Case; 4] = [
    Case {
        name: "demo one",
        words: "demo 1",
        file: NO_FILE,
        files: &[],
        status: 0,
        out: Is(ONE_TEXT),
        err: "",
    },
    Case {
        name: "demo one again",
        words: "demo 1",
        file: NO_FILE,
        files: &[],
        status: 0,
        out: Is(ONE_TEXT),
        err: "",
    },
    Case {
        name: "least number",
        words: "demo 0",
        file: NO_FILE,
        files: &[],
        status: 0,
        out: Is(ZERO_TEXT),
        err: "",
    },
    Case {
        name: "greatest number",
        words: "demo 2147483647",
        file: NO_FILE,
        files: &[],
        status: 0,
        out: Is(LAST_TEXT),
        err: "",
    },
];

#[test]
fn cases(rt: HostRuntime) -> Result<(), Fail> {
    for case in &CASES {
        assert_answer(&rt, rt.alloc(), case)?;
    }
    Ok(())
}
