// Words that are refused, whatever the files are.
use super::Text::Is;
use super::files::STEADY;
use super::{Faults, NONE, run_words};
use std::test::Fail;

#[rattlefmt::skip]
static REFUSED: [&str; 46] = [
    "",
    "play",
    "simulate",
    "simulate --manifest m --trace t --rule fixed:01 --utilities 0,10",
    "simulate --manifest m --trace t --rule fixed:1 --utilities 0,10 --buffer 0",
    "simulate --manifest m --trace t --rule fixed:1 --utilities 10,0",
    "simulate --manifest m --manifest m --trace t --rule fixed:1 --utilities 0,10",
    "simulate --manifest m --rule fixed:1 --utilities 0,10",
    "simulate --manifest m --trace t --rule mpc:6 --utilities 0,10",
    "simulate --manifest m --trace t --rule bola:0 --utilities 0,10",
    "simulate --manifest m --trace t --rule throughput:3,5,0 --utilities 0,10",
    "simulate --manifest m --trace t --rule fixed:1 --utilities 0,10 --seeks=",
    "compare",
    "compare --manifest m --rules fixed:1 --utilities 0,10",
    "compare --manifest m --utilities 0,10 c2000.json",
    "compare --manifest m --rules fixed:1/ --utilities 0,10 c2000.json",
    "compare --manifest m --rules fixed:01 --utilities 0,10 c2000.json",
    "compare --manifest m --rule fixed:1 --utilities 0,10 c2000.json",
    "compare --manifest m --trace c2000.json --rules fixed:1 --utilities 0,10 c2000.json",
    "compare --manifest m --rules fixed:1 --rules fixed:0 --utilities 0,10 c2000.json",
    "compare --manifest m --rules fixed:1 --utilities 0,10 --budget 5 c2000.json",
    "compare --manifest m --rules fixed:1 --utilities 0,10 -- c2000.json",
    "check",
    "check --manifest m --trace t --utilities 0,10",
    "check --manifest m --trace t --utilities 0,10 --certificate=",
    "check --manifest m --trace t --utilities 0,10 --certificate c --certificate c",
    "check --manifest m --trace t --trace t --utilities 0,10 --certificate c",
    "check --manifest m --trace t --utilities 0,10 --certificate c --rule fixed:1",
    "check --manifest m --trace t --utilities 0,10 --certificate c --seeks s",
    "check --manifest m --trace t --utilities 0,10 --certificate c --as-certificate",
    "check --manifest m --trace t --utilities 0,10 --certificate c --budget 5",
    "check --manifest m --trace t --utilities 0,10 --certificate c --abandon",
    "check --trace t --utilities 0,10 --certificate c",
    "check --manifest m --utilities 0,10 --certificate c",
    "demo",
    "demo 2147483648",
    "demo 01",
    "demo x",
    "demo -1",
    "demo +1",
    "demo 1 1",
    "demo --budget 5 1",
    "compare --manifest m --rules bola:1/bola:2/bola:3/bola:4/bola:5/bola:6/bola:7/bola:8/bola:9/bola:10/bola:11/bola:12/bola:13/bola:14/bola:15/bola:16/bola:17/bola:18/bola:19/bola:20/bola:21/bola:22/bola:23/bola:24/bola:25/bola:26/bola:27/bola:28/bola:29/bola:30/bola:31/bola:32/bola:33 --utilities 0,10 c2000.json",
    "plan --manifest m --trace t --utilities 0,10 --budget 0",
    "plan --manifest m --trace t --utilities 0,10 --budget 1000001",
    "plan --manifest m --trace t --utilities 0,10 --abandon",
];

// The first fetch and the first put on `err` fail.
const SILENT: Faults<'static> = Faults {
    fetches: &[1],
    puts: &[],
    notes: &[1],
};

#[test]
fn refused_words(rt: HostRuntime) -> Result<(), Fail> {
    let alloc = rt.alloc();
    let note = "abrlab: usage: simulate, compare, plan, check, demo\n";
    for line in &REFUSED {
        let answer = run_words(alloc, line, &STEADY, NONE)?;
        assert!(rt; answer.is(2, &Is(""), note), "{line}");
    }
    for line in &REFUSED {
        let answer = run_words(alloc, line, &STEADY, SILENT)?;
        assert_eq!(rt; (answer.status, answer.err.faults()), (2, 1), "{line}");
    }
    Ok(())
}
