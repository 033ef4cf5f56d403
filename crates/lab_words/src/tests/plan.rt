// The words of `plan`.
use super::{expect, says};
use std::test::Fail;

const BASE: &str = "plan --manifest m --trace t --utilities 0,10 ";

const READ: [&str; 3] = [
    "--budget 1",
    "--budget=1000000",
    "--as-certificate --switch 3",
];

const REFUSED: [&str; 9] = [
    "--budget 0",
    "--budget 1000001",
    "--budget 01",
    "--as-certificate=1",
    "--as-certificate --as-certificate",
    "--rule fixed:1",
    "--abandon",
    "--seeks s",
    "t",
];

#[test]
fn words_of_plan(rt: HostRuntime) -> Result<(), Fail> {
    let alloc = rt.alloc();
    says(
        &rt,
        alloc,
        "plan --manifest m --trace t --utilities 0,10 --as-certificate",
        "Command { verb: Plan, manifest: \"m\", traces: [\"t\"], rules: [], buffer_ms: 25000, utilities: [0, 10], table: None, switch: 0, stall: 100, startup: 1, abandon: false, seeks: None, budget: 200000, as_certificate: true, certificate: None, number: 0, live: None, coarse_time: 0, coarse_value: 0, gap: false, players: false, regret: false, near: false }",
    )?;
    expect(&rt, alloc, BASE, &READ, "read")?;
    expect(&rt, alloc, BASE, &REFUSED, "refused")
}
