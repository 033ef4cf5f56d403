// The words of `check`.
use super::{expect, says};
use std::test::Fail;

const REFUSED: [&str; 5] = [
    "",
    "--certificate",
    "--certificate -c",
    "--certificate c --budget 5",
    "--certificate c --certificate c",
];

#[test]
fn words_of_check(rt: HostRuntime) -> Result<(), Fail> {
    let alloc = rt.alloc();
    says(
        &rt,
        alloc,
        "check --certificate c --manifest m --trace t --utilities 0,10",
        "Command { verb: Check, manifest: \"m\", traces: [\"t\"], rules: [], buffer_ms: 25000, utilities: [0, 10], table: None, switch: 0, stall: 100, startup: 1, abandon: false, seeks: None, budget: 0, as_certificate: false, certificate: Some(\"c\"), number: 0, live: None, coarse_time: 0, coarse_value: 0, gap: false, players: false, regret: false, near: false }",
    )?;
    expect(
        &rt,
        alloc,
        "check --manifest m --trace t --utilities 0,10 ",
        &REFUSED,
        "refused",
    )
}
