//! Certificates and the verdicts on them, with answers from outside.

use crate::tests::certificates::{
    CHANGED, EQUAL_UTILITIES, LIVE_EDGE, MUTATED, SMALLEST_INPUT, STEADY_PLAN, UTILITY_TABLE,
};
use crate::tests::inputs::{Case, Inputs, M1, SMALLEST};
use certificate_check::{Verdict, check, check_bound, check_from, check_lines, check_lines_from};
use certificate_text::{Lines, read_certificate};
use lab_model::{Ahead, InputFault};
use player_core::Scene;
use std::alloc::Global;
use std::process::Abort;
use std::test::Fail;

impl Inputs {
    /// The verdict on a text that is read whole.
    fn whole(&self, rt: &impl Abort, alloc: Global, text: &str) -> Result<Verdict, InputFault> {
        assert!(rt; self.set.fits(&self.m));
        let certificate = read_certificate(alloc, text.as_bytes())?;
        Ok(check(&self.m, &self.clock, &self.set, &certificate))
    }

    /// The verdict on a text that is read layer by layer.
    fn by_layer(&self, rt: &impl Abort, alloc: Global, text: &str) -> Result<Verdict, InputFault> {
        assert!(rt; self.set.fits(&self.m));
        let lines = Lines::begin(alloc, text.as_bytes())?;
        check_lines(&self.m, &self.clock, &self.set, lines)
    }
}

/// The text of steady-plan's certificate with other lines, each ended by a slash, in the place of so many from this row on.
fn with_lines(alloc: Global, row: u32, count: u32, other: &str) -> Result<String, Fail> {
    let mut text = String::new(alloc);
    let mut at = 1u32;
    for own in STEADY_PLAN.lines() {
        if at == row {
            text.push_str(&other.replace(alloc, "/", "\n")?)?;
        }
        if at < row || at >= row.saturating_add(count) {
            text.push_str(own)?;
            text.push('\n')?;
        }
        at = at.saturating_add(1);
    }
    Ok(text)
}

/// The text that a line of a table asks for, and what is said of it.
fn change_of(alloc: Global, line: &str) -> Result<(String, &str), Fail> {
    let (change, wanted) = line.split_once('|').ok_or("nothing said")?;
    let (row, rest) = change.split_once(' ').ok_or("no row")?;
    let (count, other) = rest.split_once(' ').ok_or("no count")?;
    let row = row.parse::<u32>().map_err(|_| "not a row")?;
    let count = count.parse::<u32>().map_err(|_| "not a count")?;
    Ok((with_lines(alloc, row, count, other)?, wanted))
}

/// What is said.
fn told(alloc: Global, answer: &Result<Verdict, InputFault>) -> Result<String, Fail> {
    Ok(match answer {
        Ok(Verdict::Yes) => format!(in alloc; "yes")?,
        Ok(
            Verdict::No {
                clause,
                segment,
                rung,
                label,
            },
        ) => format!(in alloc; "no V{clause} segment {segment} rung {rung} label {label}")?,
        Err(InputFault::Refused(refusal)) => {
            let (row, column) = (refusal.row, refusal.column);
            format!(in alloc; "bad-line at line row {row} column {column}")?
        }
        Err(InputFault::Memory) => format!(in alloc; "no memory")?,
    })
}

/// Both checks of a text say this.
fn says(
    rt: &impl Abort,
    alloc: Global,
    inputs: &Inputs,
    text: &str,
    wanted: &str,
) -> Result<(), Fail> {
    let whole = told(alloc, &inputs.whole(rt, alloc, text))?;
    assert_eq!(rt; whole.as_str(), wanted, "{text}");
    let by_layer = told(alloc, &inputs.by_layer(rt, alloc, text))?;
    assert_eq!(rt; by_layer.as_str(), wanted, "{text}");
    Ok(())
}

#[test]
fn valid_certificates(rt: HostRuntime) -> Result<(), Fail> {
    let alloc = rt.alloc();
    let m1 = Inputs::of(alloc, &M1)?;
    says(&rt, alloc, &m1, STEADY_PLAN, "yes")?;
    let equal = Case {
        utilities: &[0, 0],
        ..M1
    };
    let equal = Inputs::of(alloc, &equal)?;
    says(&rt, alloc, &equal, EQUAL_UTILITIES, "yes")?;
    let smallest = Inputs::of(alloc, &SMALLEST)?;
    says(&rt, alloc, &smallest, SMALLEST_INPUT, "yes")
}

#[test]
fn utility_tables(rt: HostRuntime) -> Result<(), Fail> {
    let alloc = rt.alloc();
    let table = Case {
        utilities: &[0, 0, 0, 50, 0, 10],
        table: true,
        ..M1
    };
    let table = Inputs::of(alloc, &table)?;
    let m1 = Inputs::of(alloc, &M1)?;
    let other = "no V1 segment 0 rung 0 label 0";
    says(&rt, alloc, &table, UTILITY_TABLE, "yes")?;
    says(&rt, alloc, &table, STEADY_PLAN, other)?;
    says(&rt, alloc, &m1, UTILITY_TABLE, other)?;
    says(&rt, alloc, &m1, SMALLEST_INPUT, other)
}

#[test]
fn changed_certificates(rt: HostRuntime) -> Result<(), Fail> {
    let alloc = rt.alloc();
    let m1 = Inputs::of(alloc, &M1)?;
    for table in [CHANGED, MUTATED] {
        for line in table.lines() {
            let (text, wanted) = change_of(alloc, line)?;
            says(&rt, alloc, &m1, &text, wanted)?;
        }
    }
    Ok(())
}

#[test]
fn each_prefix(rt: HostRuntime) -> Result<(), Fail> {
    let alloc = rt.alloc();
    let m1 = Inputs::of(alloc, &M1)?;
    let mut row = 1u32;
    for (k, byte) in STEADY_PLAN.as_bytes().iter().enumerate() {
        let wanted = format!(in alloc; "bad-line at line row {row} column 0")?;
        says(
            &rt,
            alloc,
            &m1,
            STEADY_PLAN.get(..k).ok_or("not ASCII")?,
            &wanted,
        )?;
        if *byte == b'\n' {
            row = row.saturating_add(1);
        }
    }
    Ok(())
}

/// What the general checks of a text say, with so much media ahead.
fn with_ahead(
    rt: &impl Abort,
    alloc: Global,
    ahead: u32,
    text: &str,
    bound: i128,
) -> Result<String, Fail> {
    let m1 = Inputs::of(alloc, &M1)?;
    assert!(rt; m1.set.fits(&m1.m));
    let ahead = Ahead::new(ahead).ok_or("too much ahead")?;
    let scene = Scene::new(&m1.m, &m1.clock, &m1.set, ahead);
    let certificate = read_certificate(alloc, text.as_bytes())?;
    let verdict = check_from(&scene, &certificate, bound);
    let lines = Lines::begin(alloc, text.as_bytes())?;
    let by_layer = check_lines_from(&scene, lines, bound)?;
    assert_eq!(rt; by_layer, verdict);
    told(alloc, &Ok(verdict))
}

#[test]
fn other_bounds(rt: HostRuntime) -> Result<(), Fail> {
    let alloc = rt.alloc();
    let m1 = Inputs::of(alloc, &M1)?;
    assert!(rt; m1.set.fits(&m1.m));
    let certificate = read_certificate(alloc, STEADY_PLAN.as_bytes())?;
    let low = check_bound(&m1.m, &m1.clock, &m1.set, &certificate, 28_999);
    let end = "no V5 segment 2 rung 1 label 3";
    assert_eq!(rt; told(alloc, &Ok(low))?.as_str(), end);
    let high = check_bound(&m1.m, &m1.clock, &m1.set, &certificate, 29_001);
    assert_eq!(rt; high, Verdict::Yes);
    let live = with_ahead(&rt, alloc, 0, LIVE_EDGE, 28_000)?;
    assert_eq!(rt; live.as_str(), "yes");
    let early = with_ahead(&rt, alloc, 0, STEADY_PLAN, 29_000)?;
    assert_eq!(rt; early.as_str(), "no V3 segment 0 rung 0 label 0");
    Ok(())
}
