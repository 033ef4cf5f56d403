// The word of `demo`.
use super::{expect, says};
use std::test::Fail;

const REFUSED: [&str; 6] = ["", " 01", " 2147483648", " -1", " 1 2", " 1 --buffer 5"];

#[test]
fn words_of_demo(rt: HostRuntime) -> Result<(), Fail> {
    let alloc = rt.alloc();
    says(
        &rt,
        alloc,
        "demo 2147483647",
        "Command { verb: Demo, manifest: \"\", traces: [], rules: [], buffer_ms: 0, utilities: [], table: None, switch: 0, stall: 0, startup: 0, abandon: false, seeks: None, budget: 0, as_certificate: false, certificate: None, number: 2147483647, live: None, coarse_time: 0, coarse_value: 0, gap: false, players: false, regret: false, near: false }",
    )?;
    expect(&rt, alloc, "demo", &REFUSED, "refused")
}
