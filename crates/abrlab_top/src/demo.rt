//! `demo`: everything on one made case.

ghost use Rattle.std.specs.Prelude.{◌≡◌, ◌≤◌, IfOk, map};
ghost use Rattle.lab_io.specs.Sink.{Puts};
ghost use Rattle.lab_words.specs.Command.{named};
ghost use Rattle.lab_words.specs.Rules.{spoken};
ghost use Rattle.player_core.specs.Scene.{IsTask};
ghost use Rattle.labels.specs.Parts.{plan_parts};
ghost use Rattle.certificate_text.specs.Form.{certificate_parts};
ghost use Rattle.abrlab_top.specs.Demo.{FitsBudget, demo, demo_line, demo_plan, demo_rules, demo_text, plan_report, task_in};
ghost use Rattle.abrlab_top.specs.Ending.{ended};
ghost use Rattle.abrlab_top.specs.Stages.{Writes, WritesRows, row_by_row};

use crate::ending::Ending;
use crate::row::Bench;
use certificate_check::{Verdict, check};
use certificate_text::Certificate;
use demo_case::{DemoCase, demo_case};
use frontier_planner::{Plan, PlanErr, plan};
use lab_io::Piece::{Number, Word};
use lab_io::{PutErr, Sink, put_fields};
use lab_model::Manifest;
use lab_words::{NamedRule, RuleWords};
use network_clock::Clock;
use std::alloc::{AllocError, Global};

/// The labels that the plan may have.
const BUDGET: u32 = 200_000;

/// A rule and its name.
fn named_rule(alloc: Global, name: &str, rule: RuleWords) -> Result<NamedRule, AllocError>
    ensures { IfOk result (λ r. named r ≡ (name.now, spoken rule)) }
{
    Ok(NamedRule {
        name: String::from_str(alloc, name)?,
        rule,
    })
}

/// The rules of the demo.
fn demo_rules(alloc: Global) -> Result<Vec<NamedRule>, AllocError>
    ensures { IfOk result (λ rules. map named rules.items ≡ demo_rules) }
{
    let windows = Vec::from_slice(alloc, &[3, 5])?;
    let throughput = RuleWords::Throughput { windows };
    let mut rules = Vec::new(alloc);
    rules.push(named_rule(alloc, "fixed:0", RuleWords::Fixed { rung: 0 })?)?;
    rules.push(named_rule(alloc, "fixed:3", RuleWords::Fixed { rung: 3 })?)?;
    rules.push(named_rule(alloc, "throughput:3,5", throughput)?)?;
    rules.push(named_rule(alloc, "bola:5", RuleWords::Bola { g: 5 })?)?;
    rules.push(named_rule(alloc, "mpc:3", RuleWords::Mpc { horizon: 3 })?)?;
    Ok(rules)
}

/// The certificate of a plan for a film.
fn certificate_of(m: &Manifest, plan: Plan) -> Certificate
    ensures { certificate_parts result ≡ plan_parts m.now plan }
{
    Certificate {
        table: plan.table,
        segments: m.segments(),
        rungs: m.rungs(),
        score: plan.score,
        plan: plan.rungs,
        starts: plan.starts,
        chains: plan.chains,
    }
}

/// Writes the line of the plan.
fn put_plan<O: Sink>(out: &mut O, score: i128, labels: u32) -> Result<(), PutErr>
    ensures { Puts (O.seen out.old) (demo_plan score labels) (O.seen out.new) result }
{
    put_fields(
        out,
        &[
            Word("plan"),
            Word("score"),
            Number(score),
            Word("labels"),
            Number(labels as i128),
        ],
    )
}

/// Writes the line of the number.
fn put_demo<O: Sink>(out: &mut O, number: u32) -> Result<(), PutErr>
    ensures { Puts (O.seen out.old) (demo_line number) (O.seen out.new) result }
{
    put_fields(out, &[Word("demo"), Number(number as i128)])
}

/// Plans a case, checks the plan's certificate and writes the two lines of both.
fn write_plan<O: Sink>(
    alloc: Global,
    case: &DemoCase,
    clock: &Clock,
    out: &mut O,
) -> Result<(), PutErr>
    requires task { IsTask (task_in case.now clock.now) }
    requires budget { FitsBudget (task_in case.now clock.now) }
    ensures { WritesRows (O.seen out.old)
        (plan_report (task_in case.now clock.now)) result (O.seen out.new) }
{
    let plan = match plan(alloc, &case.manifest, clock, &case.setup, BUDGET) {
        Ok(plan) => plan,
        Err(PlanErr::Memory) => return Err(PutErr::Memory),
        Err(PlanErr::BudgetSpent { .. }) => unreachable!(),
    };
    put_plan(out, plan.score, plan.labels)?;
    let certificate = certificate_of(&case.manifest, plan);
    match check(&case.manifest, clock, &case.setup, &certificate) {
        Verdict::Yes => put_fields(out, &[Word("check"), Word("yes")]),
        Verdict::No { .. } => unreachable!(),
    }
}

/// Plays, plans and checks the made case of a number, and writes its summary.
fn write_demo<O: Sink>(alloc: Global, number: u32, out: &mut O) -> Result<(), PutErr>
    requires { number ≤ 2147483647 }
    ensures { WritesRows (O.seen out.old) (demo_text number) result (O.seen out.new) }
{
    let (Ok(case), Ok(rules)) = (demo_case(alloc, number), demo_rules(alloc)) else {
        return Err(PutErr::Memory);
    };
    let Ok(clock) = Clock::new(alloc, &case.trace) else {
        return Err(PutErr::Memory);
    };
    put_demo(out, number)?;
    let bench = Bench::new(&case.manifest, &clock, &case.setup, &[]);
    bench.write_rows(alloc, &rules, out)?;
    write_plan(alloc, &case, &clock, out)
}

/// Writes the summary of the made case of a number; it reads no file.
pub(crate) fn demo<O: Sink>(alloc: Global, number: u32, out: &mut O) -> Result<(), Ending>
    requires { number ≤ 2147483647 }
    ensures { Writes row_by_row (demo number) (O.seen out.old) (ended result) (O.seen out.new) }
{
    Ok(write_demo(alloc, number, out)?)
}
