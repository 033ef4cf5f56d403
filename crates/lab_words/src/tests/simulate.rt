// The words of `simulate`.
use super::{expect, says};
use crate::{WordsErr, read_words};
use std::test::Fail;

/// Command lines with what they ask for.
const LINES: [(&str, &str); 5] = [
    (
        "simulate --manifest m --trace t --rule fixed:1 --utilities 0,10",
        "Command { verb: Simulate, manifest: \"m\", traces: [\"t\"], rules: [NamedRule { name: \"fixed:1\", rule: Fixed { rung: 1 } }], buffer_ms: 25000, utilities: [0, 10], table: None, switch: 0, stall: 100, startup: 1, abandon: false, seeks: None, budget: 0, as_certificate: false, certificate: None, number: 0, live: None, coarse_time: 0, coarse_value: 0, gap: false, players: false, regret: false, near: false }",
    ),
    (
        "simulate --seeks=s.csv --startup 2 --rule list:0,15,3 --switch=7 --abandon --manifest mé --utilities 5 --trace=a=b --stall 9 --buffer 1000",
        "Command { verb: Simulate, manifest: \"mé\", traces: [\"a=b\"], rules: [NamedRule { name: \"list:0,15,3\", rule: List { rungs: [0, 15, 3] } }], buffer_ms: 1000, utilities: [5], table: None, switch: 7, stall: 9, startup: 2, abandon: true, seeks: Some(\"s.csv\"), budget: 0, as_certificate: false, certificate: None, number: 0, live: None, coarse_time: 0, coarse_value: 0, gap: false, players: false, regret: false, near: false }",
    ),
    (
        "simulate --manifest m --trace t --rule throughput:3,20 --utilities 0,0,1000000",
        "Command { verb: Simulate, manifest: \"m\", traces: [\"t\"], rules: [NamedRule { name: \"throughput:3,20\", rule: Throughput { windows: [3, 20] } }], buffer_ms: 25000, utilities: [0, 0, 1000000], table: None, switch: 0, stall: 100, startup: 1, abandon: false, seeks: None, budget: 0, as_certificate: false, certificate: None, number: 0, live: None, coarse_time: 0, coarse_value: 0, gap: false, players: false, regret: false, near: false }",
    ),
    (
        "simulate --manifest m --trace t --rule bola:500000 --utilities 0",
        "Command { verb: Simulate, manifest: \"m\", traces: [\"t\"], rules: [NamedRule { name: \"bola:500000\", rule: Bola { g: 500000 } }], buffer_ms: 25000, utilities: [0], table: None, switch: 0, stall: 100, startup: 1, abandon: false, seeks: None, budget: 0, as_certificate: false, certificate: None, number: 0, live: None, coarse_time: 0, coarse_value: 0, gap: false, players: false, regret: false, near: false }",
    ),
    (
        "simulate --manifest m --trace t --rule mpc:5 --utilities 0 --stall 0",
        "Command { verb: Simulate, manifest: \"m\", traces: [\"t\"], rules: [NamedRule { name: \"mpc:5\", rule: Mpc { horizon: 5 } }], buffer_ms: 25000, utilities: [0], table: None, switch: 0, stall: 0, startup: 1, abandon: false, seeks: None, budget: 0, as_certificate: false, certificate: None, number: 0, live: None, coarse_time: 0, coarse_value: 0, gap: false, players: false, regret: false, near: false }",
    ),
];

/// Whole command lines.
const WHOLE_REFUSED: [&str; 12] = [
    "",
    "play",
    "Simulate",
    "simulat",
    "simulaté",
    "--manifest m simulate",
    "-- simulate",
    "simulate",
    "simulate --trace t --rule fixed:1 --utilities 0,10",
    "simulate --manifest m --rule fixed:1 --utilities 0,10",
    "simulate --manifest m --trace t --utilities 0,10",
    "simulate --manifest m --trace t --rule fixed:1",
];

const SHORT: &str = "simulate --trace t --rule fixed:1 --utilities 0,10 ";

/// Behind `SHORT`, which lacks the manifest.
const MANIFEST_READ: [&str; 4] = [
    "--manifest=m=n",
    "--manifest a/b.json",
    "--manifest mé.json",
    "--manifest=é",
];

const MANIFEST_REFUSED: [&str; 15] = [
    "--manifest ",
    "--manifest=",
    "--manifest -",
    "--manifest -m",
    "--manifest=-m",
    "--manifest=--",
    "--manifest --",
    "--manifest",
    "--manifest m n",
    "--manif m",
    "--Manifest m",
    "-manifest m",
    "---manifest m",
    "--manifést m",
    "-m m",
];

const BASE: &str = "simulate --manifest m --trace t --rule fixed:1 --utilities 0,10 ";

/// Behind `BASE`, which lacks nothing.
const MORE_READ: [&str; 12] = [
    "--abandon",
    "--seeks s",
    "--seeks=s",
    "--buffer 1",
    "--buffer 10000000",
    "--buffer=25000",
    "--switch 0",
    "--switch 1000000",
    "--stall 0",
    "--stall=1000000",
    "--startup 0",
    "--startup 1000000",
];

const MORE_REFUSED: [&str; 47] = [
    "--manifest m",
    "--trace=t",
    "--rule fixed:1",
    "--utilities 0,10",
    "stray",
    "",
    "-",
    "--",
    "--help",
    "-h",
    "--version",
    "-V",
    "--unknown",
    "--unknown=1",
    "--=1",
    "--abandon --abandon",
    "--abandon=",
    "--abandon=true",
    "--abandon true",
    "--abando",
    "--seeks s --seeks s",
    "--seeks",
    "--seeks ",
    "--seeks=",
    "--seeks -s",
    "--seeks=-s",
    "--buffer 0",
    "--buffer 10000001",
    "--buffer 025000",
    "--buffer +5",
    "--buffer=-5",
    "--buffer 5.0",
    "--buffer=",
    "--buffer 5 --buffer 5",
    "--buffer ２",
    "--buffer 99999999999999999999",
    "--buf 5",
    "--switch 00",
    "--switch 1000001",
    "--switch",
    "--switch=",
    "--stall 1000001",
    "--stall 5 --stall 5",
    "--stall a",
    "--startup 1000001",
    "--startup -1",
    "--startup 4294967296",
];

const NO_RULE: &str = "simulate --manifest m --trace t --utilities 0,10 --rule ";

/// Rules.
const RULE_READ: [&str; 11] = [
    "fixed:0",
    "fixed:15",
    "list:0",
    "list:15",
    "throughput:1",
    "throughput:100",
    "throughput:3,3,9,100",
    "bola:1",
    "bola:1000000",
    "mpc:1",
    "mpc:5",
];

const RULE_REFUSED: [&str; 28] = [
    "fixed:16",
    "fixed:01",
    "fixed:",
    "fixed",
    "fixed:1,2",
    "fixed:1:2",
    "Fixed:1",
    ":1",
    "list:16",
    "list:0,1,00",
    "list:",
    "list:0,",
    "list:,0",
    "list:0,,1",
    "throughput:0",
    "throughput:101",
    "throughput:1,2,3,4,5",
    "throughput:",
    "throughput:256",
    "bola:0",
    "bola:1000001",
    "bola:4294967297",
    "mpc:0",
    "mpc:6",
    "mpc:257",
    "mpc:٣",
    "learnt:1",
    "fixed:1/fixed:2",
];

const NO_UTILITIES: &str = "simulate --manifest m --trace t --rule fixed:1 --utilities ";

/// Utilities.
const UTILITIES_READ: [&str; 5] = [
    "0",
    "1000000",
    "5,5",
    "0,1,2,3,4,5,6,7,8,9,10,11,12,13,14,15",
    "7,7,7,7,7,7,7,7,7,7,7,7,7,7,7,7",
];

const UTILITIES_REFUSED: [&str; 9] = [
    "1000001",
    "10,0",
    "0,01",
    "0,",
    "0;1",
    "0,1,2,3,4,5,6,7,8,9,10,11,12,13,14,15,16",
    "7,7,7,7,7,7,7,7,7,7,7,7,7,7,7,7,7",
    "0,1000000,999999",
    "０",
];

#[test]
fn fields_of_simulate(rt: HostRuntime) -> Result<(), Fail> {
    let alloc = rt.alloc();
    for (line, wanted) in LINES {
        says(&rt, alloc, line, wanted)?;
    }
    Ok(())
}

#[test]
fn refused_words_of_simulate(rt: HostRuntime) -> Result<(), Fail> {
    let alloc = rt.alloc();
    assert_eq!(rt; read_words(alloc, &[]).err(), Some(WordsErr::Usage));
    expect(&rt, alloc, "", &WHOLE_REFUSED, "refused")?;
    expect(&rt, alloc, SHORT, &MANIFEST_READ, "read")?;
    expect(&rt, alloc, SHORT, &MANIFEST_REFUSED, "refused")?;
    expect(&rt, alloc, BASE, &MORE_READ, "read")?;
    expect(&rt, alloc, BASE, &MORE_REFUSED, "refused")
}

#[test]
fn ranges_of_simulate(rt: HostRuntime) -> Result<(), Fail> {
    let alloc = rt.alloc();
    expect(&rt, alloc, NO_RULE, &RULE_READ, "read")?;
    expect(&rt, alloc, NO_RULE, &RULE_REFUSED, "refused")?;
    expect(&rt, alloc, NO_UTILITIES, &UTILITIES_READ, "read")?;
    expect(&rt, alloc, NO_UTILITIES, &UTILITIES_REFUSED, "refused")?;
    let most = ",15".repeat(alloc, 1999)?;
    let rule = format!(in alloc; "list:0{most}")?;
    expect(&rt, alloc, NO_RULE, &[rule.as_str()], "read")?;
    let rule = format!(in alloc; "list:0,0{most}")?;
    expect(&rt, alloc, NO_RULE, &[rule.as_str()], "refused")
}
