// Options that few command lines have: what each says, and beside which others it is refused.
use super::{read_words, words_of};
use std::alloc::Global;
use std::process::Abort;
use std::test::Fail;

/// The utilities or their table: command lines, and a piece of what they ask for, or that they are refused.
const UTILITIES: [(&str, &str); 6] = [
    (
        "simulate --manifest m --trace t --rule fixed:1 --utility-table u.csv",
        "utilities: [], table: Some(\"u.csv\"), switch: 0",
    ),
    (
        "compare --utility-table=u --manifest m --rules fixed:1 --switch 3 t",
        "utilities: [], table: Some(\"u\"), switch: 3",
    ),
    (
        "plan --manifest m --trace t --utility-table u --utilities 0,10",
        "Usage",
    ),
    ("plan --manifest m --trace t --utility-table=", "Usage"),
    (
        "check --manifest m --trace t --utility-table -u --certificate c",
        "Usage",
    ),
    ("check --manifest m --trace t --certificate c", "Usage"),
];

/// Media ahead.
const LIVE: [(&str, &str); 7] = [
    (
        "simulate --manifest m --trace t --rule fixed:1 --utilities 0 --live 120000000",
        "number: 0, live: Some(120000000)",
    ),
    (
        "plan --manifest m --trace t --utilities 0 --live=0",
        "number: 0, live: Some(0)",
    ),
    (
        "check --manifest m --trace t --utilities 0 --certificate c --live 8000",
        "number: 0, live: Some(8000)",
    ),
    (
        "plan --manifest m --trace t --utilities 0 --live 120000001",
        "Usage",
    ),
    (
        "compare --manifest m --rules fixed:1 --utilities 0 --live 5 t",
        "Usage",
    ),
    (
        "simulate --manifest m --trace t --rule fixed:1 --utilities 0 --live 0 --abandon",
        "Usage",
    ),
    (
        "simulate --manifest m --trace t --rule fixed:1 --utilities 0 --seeks s --live 5",
        "Usage",
    ),
];

/// Coarse plans and their certificates.
const COARSE: [(&str, &str); 10] = [
    (
        "plan --manifest m --trace t --utilities 0 --coarse 10,200",
        "live: None, coarse_time: 10, coarse_value: 200, gap: false",
    ),
    (
        "plan --manifest m --trace t --utilities 0 --coarse=10000,1000000",
        "coarse_time: 10000, coarse_value: 1000000",
    ),
    (
        "check --manifest m --trace t --utilities 0 --certificate c --gap",
        "coarse_value: 0, gap: true",
    ),
    (
        "plan --manifest m --trace t --utilities 0 --coarse 10",
        "Usage",
    ),
    (
        "plan --manifest m --trace t --utilities 0 --coarse 1,2,3",
        "Usage",
    ),
    (
        "plan --manifest m --trace t --utilities 0 --coarse 0,5",
        "Usage",
    ),
    (
        "plan --manifest m --trace t --utilities 0 --coarse 10001,5",
        "Usage",
    ),
    (
        "plan --manifest m --trace t --utilities 0 --coarse 5,1000001",
        "Usage",
    ),
    (
        "plan --manifest m --trace t --utilities 0 --coarse 1,1 --live 0",
        "Usage",
    ),
    (
        "check --manifest m --trace t --utilities 0 --certificate c --live 0 --gap",
        "Usage",
    ),
];

/// Regrets and their budget.
const REGRET: [(&str, &str); 9] = [
    (
        "compare --manifest m --rules fixed:1 --utilities 0 t",
        "budget: 0, as_certificate: false, certificate: None",
    ),
    (
        "compare --manifest m --rules fixed:1 --utilities 0 --regret t",
        "budget: 200000, as_certificate",
    ),
    (
        "compare --manifest m --rules fixed:1 --utilities 0 --regret --budget 7 t",
        "budget: 7, as_certificate",
    ),
    (
        "compare t --manifest m --rules fixed:1 --utilities 0 --regret",
        "gap: false, players: false, regret: true",
    ),
    (
        "compare --manifest m --rules fixed:1 --utilities 0 --budget 7 t",
        "Usage",
    ),
    (
        "compare --manifest m --rules fixed:1 --utilities 0 --budget 0 --regret t",
        "Usage",
    ),
    (
        "compare --manifest m --rules fixed:1 --utilities 0 --regret --abandon t",
        "Usage",
    ),
    (
        "compare --manifest m --rules fixed:1 --utilities 0 --seeks s --regret t",
        "Usage",
    ),
    (
        "simulate --manifest m --trace t --rule fixed:1 --utilities 0 --regret",
        "Usage",
    ),
];

/// Players on one link.
const PLAYERS: [(&str, &str); 9] = [
    (
        "simulate --manifest m --trace t --utilities 0 --players mpc:1/mpc:1",
        "rules: [NamedRule { name: \"mpc:1\", rule: Mpc { horizon: 1 } }, NamedRule { name: \"mpc:1\",",
    ),
    (
        "simulate --manifest m --trace t --utilities 0 --players=bola:5",
        "players: true",
    ),
    (
        "simulate --manifest m --trace t --utilities 0 --players mpc:1/mpc:1/mpc:1/mpc:1/mpc:1/mpc:1/mpc:1/mpc:2",
        "Mpc { horizon: 2 } }], buffer_ms",
    ),
    (
        "simulate --manifest m --trace t --utilities 0 --players mpc:1/mpc:1/mpc:1/mpc:1/mpc:1/mpc:1/mpc:1/mpc:1/mpc:1",
        "Usage",
    ),
    (
        "simulate --manifest m --trace t --utilities 0 --players mpc:1/",
        "Usage",
    ),
    (
        "simulate --manifest m --trace t --utilities 0 --players mpc:1 --rule mpc:1",
        "Usage",
    ),
    (
        "simulate --manifest m --trace t --utilities 0 --players mpc:1 --abandon",
        "Usage",
    ),
    (
        "simulate --manifest m --trace t --utilities 0 --players mpc:1 --seeks s",
        "Usage",
    ),
    (
        "simulate --manifest m --trace t --utilities 0 --players mpc:1 --live 5",
        "Usage",
    ),
];

/// Bounds by prices.
const NEAR: [(&str, &str); 11] = [
    (
        "plan --manifest m --trace t --utilities 0 --near --live 5",
        "budget: 200000, as_certificate",
    ),
    (
        "plan --manifest m --trace t --utilities 0 --as-certificate --near",
        "regret: false, near: true",
    ),
    (
        "check --manifest m --trace t --utilities 0 --certificate c --near --live 5",
        "regret: false, near: true",
    ),
    (
        "compare --manifest m --rules fixed:1 --utilities 0 --regret --near t",
        "budget: 200000, as_certificate",
    ),
    (
        "compare t --manifest m --rules fixed:1 --utilities 0 --regret --near",
        "regret: true, near: true",
    ),
    (
        "plan --manifest m --trace t --utilities 0 --near --budget 200000",
        "Usage",
    ),
    (
        "plan --manifest m --trace t --utilities 0 --near --coarse 1,1",
        "Usage",
    ),
    (
        "check --manifest m --trace t --utilities 0 --certificate c --near --gap",
        "Usage",
    ),
    (
        "compare --manifest m --rules fixed:1 --utilities 0 --near t",
        "Usage",
    ),
    (
        "compare --manifest m --rules fixed:1 --utilities 0 --regret --near --budget 7 t",
        "Usage",
    ),
    (
        "simulate --manifest m --trace t --utilities 0 --players mpc:1 --near",
        "Usage",
    ),
];

/// What the words of a line ask for, or why not.
fn told(alloc: Global, line: &str) -> Result<String, Fail> {
    let words = words_of(alloc, line)?;
    Ok(match read_words(alloc, words.as_slice()) {
        Ok(command) => format!(in alloc; "{command:?}")?,
        Err(why) => format!(in alloc; "{why:?}")?,
    })
}

fn shows(rt: &impl Abort, alloc: Global, lines: &[(&str, &str)]) -> Result<(), Fail> {
    for (line, piece) in lines {
        let told = told(alloc, line)?;
        assert!(rt; told.contains(*piece), "{line}: {told}");
    }
    Ok(())
}

#[test]
fn options(rt: HostRuntime) -> Result<(), Fail> {
    shows(&rt, rt.alloc(), &UTILITIES)?;
    shows(&rt, rt.alloc(), &LIVE)?;
    shows(&rt, rt.alloc(), &COARSE)?;
    shows(&rt, rt.alloc(), &REGRET)?;
    shows(&rt, rt.alloc(), &PLAYERS)?;
    shows(&rt, rt.alloc(), &NEAR)
}
