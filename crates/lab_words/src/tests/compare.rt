// The words of `compare`.
use super::{expect, says};
use std::test::Fail;

const BASE: &str = "compare --manifest m --utilities 0,10 ";

const READ: [&str; 4] = [
    "--rules fixed:1 a",
    "--rules=fixed:1/fixed:1/bola:3 --seeks s a --abandon b a",
    "a b --rules mpc:1 c --buffer 5 d",
    "--rules fixed:0/fixed:1/fixed:2/fixed:3/fixed:4/fixed:5/fixed:6/fixed:7/fixed:8/fixed:9/fixed:10/fixed:11/fixed:12/fixed:13/fixed:14/fixed:15/bola:1/bola:2/bola:3/bola:4/bola:5/bola:6/bola:7/bola:8/bola:9/bola:10/bola:11/bola:12/bola:13/bola:14/bola:15/bola:16/fixed:0 a",
];

const REFUSED: [&str; 14] = [
    "",
    "--rules fixed:1",
    "--rules fixed:1 -a",
    "--rules fixed:1 a -",
    "--rules fixed:1 -- a",
    "--rules fixed:1/ a",
    "--rules /fixed:1 a",
    "--rules fixed:1//fixed:2 a",
    "--rules fixed:16 a",
    "--rules fixed:1 --rules fixed:1 a",
    "--rule fixed:1 a",
    "--rules fixed:1 --trace a",
    "--rules fixed:1 --budget 5 a",
    "--rules fixed:0/fixed:1/fixed:2/fixed:3/fixed:4/fixed:5/fixed:6/fixed:7/fixed:8/fixed:9/fixed:10/fixed:11/fixed:12/fixed:13/fixed:14/fixed:15/bola:1/bola:2/bola:3/bola:4/bola:5/bola:6/bola:7/bola:8/bola:9/bola:10/bola:11/bola:12/bola:13/bola:14/bola:15/bola:16/bola:17 a",
];

#[test]
fn words_of_compare(rt: HostRuntime) -> Result<(), Fail> {
    let alloc = rt.alloc();
    says(
        &rt,
        alloc,
        "compare b --manifest m --rules fixed:1/mpc:2/fixed:1 a --utilities 0,10 b",
        "Command { verb: Compare, manifest: \"m\", traces: [\"b\", \"a\"], rules: [NamedRule { name: \"fixed:1\", rule: Fixed { rung: 1 } }, NamedRule { name: \"mpc:2\", rule: Mpc { horizon: 2 } }], buffer_ms: 25000, utilities: [0, 10], table: None, switch: 0, stall: 100, startup: 1, abandon: false, seeks: None, budget: 0, as_certificate: false, certificate: None, number: 0, live: None, coarse_time: 0, coarse_value: 0, gap: false, players: false, regret: false, near: false }",
    )?;
    expect(&rt, alloc, BASE, &READ, "read")?;
    expect(&rt, alloc, BASE, &REFUSED, "refused")
}
