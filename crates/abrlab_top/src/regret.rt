//! `compare --regret`: how far the sessions of rules stay behind the best that each network allowed, or behind a bound by prices.

ghost use Rattle.std.specs.Prelude.{◌≡◌, ◌<◌, ◌≤◌, IfOk, IfSome, None, Some, false, length, map};
ghost use Rattle.std.specs.List.{All, flat_map};
ghost use Rattle.lab_io.specs.Sink.{Puts};
ghost use Rattle.lab_model.specs.Film.{IsWithin};
ghost use Rattle.lab_model.specs.Rules.{KindFits};
ghost use Rattle.lab_words.specs.Command.{named};
ghost use Rattle.lab_words.specs.Limits.{IsRuleWithin};
ghost use Rattle.lab_words.specs.Rules.{spoken};
ghost use Rattle.lab_inputs.specs.Roles.{film_files};
ghost use Rattle.lab_inputs.specs.Stages.{network_of};
ghost use Rattle.player_core.specs.Scene.{IsTask};
ghost use Rattle.session_report.specs.Regret.{IsTotalOf};
ghost use Rattle.abrlab_top.specs.Ending.{ended};
ghost use Rattle.abrlab_top.specs.Outcome.{about};
ghost use Rattle.abrlab_top.specs.Plan.{task_on};
ghost use Rattle.abrlab_top.specs.Regret.{AreCompared, AreRanked, AreScored, CanRank, IsTop, Unspent, best_on, first_spent, network_rows, networks_rows, ranked_text, regret, rows_of, score_on, scored_on, scores_at, seen_scored, spent_there, sums_row, tops_of};
ghost use Rattle.abrlab_top.specs.Choice.{IsBound};
ghost use Rattle.abrlab_top.specs.Chosen.{EndsWithBounds, WritesBounds};
ghost use Rattle.abrlab_top.specs.Runs.{Ends};
ghost use Rattle.abrlab_top.specs.Stages.{Writes, at_the_end};

use crate::ending::Ending;
use crate::plan::list_on;
use crate::request::{PlanOptions, RegretWords};
use crate::rule::any_rule;
use crate::scene::scene_on;
use frontier_planner::PlanErr;
use lab_inputs::{Inputs, Network, read_inputs};
use lab_io::Piece::Word;
use lab_io::{PutErr, Shelf, Sink, put_fields};
use lab_model::{Budget, NoMemory};
use lab_words::NamedRule;
use near_best::near_best;
use network_clock::Clock;
use player_core::play_from;
use quality_score::score;
use session_report::{Top, Total};
use std::alloc::Global;
use std::marker::Model;

/// What was played and planned on one network, in thousandths of a point.
#[derive(Drop)]
struct Scored {
    /// What no rung list has more than: the score of the best one, or a bound.
    top: i128,
    /// The score of each rule's session, in the order of the rules.
    scores: Vec<i128>,
}

/// What rules are ranked by: inputs whose settings fit and which give no download up, and the budget of each plan; without one,
/// bounds by prices.
#[derive(Drop)]
struct Ranking<'a> {
    inputs: &'a Inputs,
    /// The most labels of each plan.
    budget: Option<Budget>,
}

impl<'a> Model for Ranking<'a> {
    ghost use Rattle.abrlab_top.specs.Regret.{CanRank, RankingValue};

    ghost Value = { RankingValue };

    ghost view = { λ r. record { inputs = r.inputs.now; budget = r.budget } };

    ghost invariant = { λ r. CanRank r.inputs.now };
}

impl<'a> Ranking<'a> {
    /// A ranking by these.
    fn new(inputs: &'a Inputs, budget: Option<Budget>) -> Ranking<'a>
        requires { CanRank inputs.now }
        ensures { result ≡ record { inputs = inputs.entry.now; budget = budget } }
    {
        Ranking { inputs, budget }
    }

    /// The inputs.
    fn inputs(&self) -> &Inputs
        ensures value { result.now ≡ self.now.inputs }
        ensures can { CanRank self.now.inputs }
    {
        self.inputs
    }

    /// The most labels of the plan of each network, if rules are ranked by plans.
    fn budget(&self) -> Option<Budget>
        ensures { result ≡ self.now.budget }
    {
        self.budget
    }

    /// The score of a rule's session with an empty history.
    fn score_rule(&self, alloc: Global, clock: &Clock, rule: &NamedRule) -> Result<i128, NoMemory>
        requires within { IsRuleWithin (spoken rule.now.rule) }
        requires fits { KindFits (spoken rule.now.rule) self.now.inputs.film }
        ensures { IfOk result (λ score. score
            ≡ score_on self.now.inputs clock.now (spoken rule.now.rule)) }
    {
        let inputs = self.inputs();
        let played = any_rule(alloc, &rule.rule)?;
        let session = play_from(alloc, &scene_on(inputs, clock), &[], played)?;
        Ok(score(
            &session.played,
            session.stall_ms,
            session.startup_ms,
            &inputs.setup().weights,
        ))
    }

    /// The score of each rule's session, in order.
    fn score_rules(&self, alloc: Global, clock: &Clock) -> Result<Vec<i128>, NoMemory>
        ensures { IfOk result (λ scores. scores.items
            ≡ map (λ rule. score_on self.now.inputs clock.now rule.1) self.now.inputs.rules) }
    {
        let rules = self.inputs().rules();
        let mut scores = Vec::new(alloc);
        for rule in rules {
            let played = self.score_rule(alloc, clock, rule)?;
            scores.push(played)?;
        }
        Ok(scores)
    }

    /// The score of the best rung list on the network of a place, counted from 1, by a plan of so many labels at most.
    fn best_score(
        &self,
        alloc: Global,
        clock: &Clock,
        budget: Budget,
        place: usize,
    ) -> Result<i128, Ending>
        ensures best { Unspent
            (spent_there self.now.inputs (Some budget) place clock.now)
            (λ best. best ≡ best_on self.now.inputs clock.now) result }
        ensures task { IsTask (task_on self.now.inputs clock.now) }
        ensures can { CanRank self.now.inputs }
    {
        let inputs = self.inputs();
        match list_on(alloc, &scene_on(inputs, clock), PlanOptions::exact(budget)) {
            Ok(list) => Ok(list.score),
            Err(PlanErr::BudgetSpent { segment }) => Err(Ending::Spent {
                trace: Some(place),
                segment,
            }),
            Err(PlanErr::Memory) => Err(Ending::NoMemory),
        }
    }

    /// A bound by prices on a network, which no rung list passes.
    fn bound(&self, alloc: Global, clock: &Clock) -> Result<i128, NoMemory>
        ensures bound { IfOk result (IsBound (task_on self.now.inputs clock.now)) }
        ensures task { IsTask (task_on self.now.inputs clock.now) }
        ensures can { CanRank self.now.inputs }
    {
        let inputs = self.inputs();
        Ok(near_best(alloc, &scene_on(inputs, clock))?.bound)
    }

    /// What scores on the network of a place, counted from 1, are compared with.
    fn top(&self, alloc: Global, clock: &Clock, place: usize) -> Result<i128, Ending>
        ensures top { Unspent
            (spent_there self.now.inputs self.now.budget place clock.now)
            (IsTop self.now.inputs self.now.budget clock.now) result }
        ensures task { IsTask (task_on self.now.inputs clock.now) }
        ensures can { CanRank self.now.inputs }
    {
        match self.budget() {
            Some(budget) => self.best_score(alloc, clock, budget, place),
            None => Ok(self.bound(alloc, clock)?),
        }
    }

    /// Finds the top of the network of a place, counted from 1, and plays each rule on it: one clock and one top for all.
    fn score_network(
        &self,
        alloc: Global,
        network: &Network,
        place: usize,
    ) -> Result<Scored, Ending>
        ensures { Unspent
            (spent_there self.now.inputs self.now.budget place network.now.trace)
            (λ s. (seen_scored s ≡ scored_on self.now.inputs (network_of network.now))
            × IsTop self.now.inputs self.now.budget network.now.trace s.top
            × AreRanked s) result }
    {
        let clock = Clock::new(alloc, &network.trace)?;
        let top = self.top(alloc, &clock, place)?;
        let scores = self.score_rules(alloc, &clock)?;
        Ok(Scored { top, scores })
    }

    /// Finds the top of each network and plays on it, in order.
    fn score_networks(&self, alloc: Global) -> Result<Vec<Scored>, Ending>
        ensures { Unspent
            (first_spent self.now.inputs self.now.budget 1 self.now.inputs.networks)
            (λ table. AreCompared self.now.inputs self.now.budget table.items) result }
    {
        let networks = self.inputs().networks();
        let mut table = Vec::new(alloc);
        for (index, network) in networks.iter().enumerate() {
            let scored = self.score_network(alloc, network, index + 1)?;
            table.push(scored)?;
        }
        Ok(table)
    }
}

/// Writes the row of each rule on one network.
fn put_rows<O: Sink>(
    out: &mut O,
    by: Top,
    rules: &[NamedRule],
    scored: &Scored,
) -> Result<(), PutErr>
    requires count { length scored.now.scores.items ≡ length rules.now }
    requires ranked { AreRanked scored.now }
    ensures { Puts (O.seen out.old)
        (rows_of by (map named rules.now) scored.now.scores.items scored.now.top)
        (O.seen out.new) result }
{
    for (index, rule) in rules.iter().enumerate() {
        by.put_row(&rule.name, scored.scores[index], scored.top, out)?;
    }
    Ok(())
}

/// Writes the line of a network, and a row for each rule on it.
fn put_network<O: Sink>(
    out: &mut O,
    by: Top,
    inputs: &Inputs,
    network: &Network,
    scored: &Scored,
) -> Result<(), PutErr>
    requires scored { seen_scored scored.now ≡ scored_on inputs.now (network_of network.now) }
    requires ranked { AreRanked scored.now }
    ensures { Puts (O.seen out.old)
        (network_rows by inputs.now (network_of network.now) scored.now.top)
        (O.seen out.new) result }
{
    put_fields(out, &[Word("trace"), Word(&network.name)])?;
    put_rows(out, by, inputs.rules(), scored)
}

/// Writes each network with its rows, in order.
fn put_networks<O: Sink>(
    out: &mut O,
    by: Top,
    inputs: &Inputs,
    table: &[Scored],
) -> Result<(), PutErr>
    requires table { AreScored inputs.now table.now }
    ensures { Puts (O.seen out.old)
        (networks_rows by inputs.now inputs.now.networks (tops_of table.now))
        (O.seen out.new) result }
{
    let networks = inputs.networks();
    for (index, network) in networks.iter().enumerate() {
        put_network(out, by, inputs, network, &table[index])?;
    }
    Ok(())
}

/// The total of the rule at an index.
fn total_at(table: &[Scored], rule: usize) -> Total
    requires few { length table.now ≤ 64 }
    requires wide { All (λ s. rule < length s.scores.items) table.now }
    requires ranked { All AreRanked table.now }
    ensures { IsTotalOf (map (scores_at rule) table.now) result }
{
    let mut total = Total::start();
    for scored in table {
        total.add(scored.scores[rule], scored.top);
    }
    total
}

/// Writes the total of each rule, in order.
fn put_totals<O: Sink>(
    out: &mut O,
    by: Top,
    inputs: &Inputs,
    table: &[Scored],
) -> Result<(), PutErr>
    requires table { AreScored inputs.now table.now }
    ensures { Puts (O.seen out.old)
        (flat_map (sums_row by inputs.now (tops_of table.now)) inputs.now.rules)
        (O.seen out.new) result }
{
    let rules = inputs.rules();
    for (index, rule) in rules.iter().enumerate() {
        by.put_total(&rule.name, &total_at(table, index), out)?;
    }
    Ok(())
}

/// Writes the networks, and then the totals.
fn put_regrets<O: Sink>(
    out: &mut O,
    by: Top,
    inputs: &Inputs,
    table: &[Scored],
) -> Result<(), PutErr>
    requires table { AreScored inputs.now table.now }
    ensures { Puts (O.seen out.old) (ranked_text by inputs.now (tops_of table.now))
        (O.seen out.new) result }
{
    put_networks(out, by, inputs, table)?;
    put_totals(out, by, inputs, table)
}

/// Plays and plans everything, where the settings fit.
fn score_all(alloc: Global, inputs: &Inputs, budget: Option<Budget>) -> Result<Vec<Scored>, Ending>
    requires { CanRank inputs.now }
    ensures { Unspent (first_spent inputs.now budget 1 inputs.now.networks)
        (λ table. AreCompared inputs.now budget table.items) result }
{
    Ranking::new(inputs, budget).score_networks(alloc)
}

/// Plays and plans everything, and then writes.
fn write_regrets<O: Sink>(
    alloc: Global,
    inputs: &Inputs,
    budget: Budget,
    out: &mut O,
) -> Result<(), Ending>
    requires { inputs.now.setup.abandon ≡ false }
    ensures { Writes at_the_end (regret budget inputs.now)
        (O.seen out.old) (ended result) (O.seen out.new) }
{
    inputs.fit()?;
    let table = score_all(alloc, inputs, Some(budget))?;
    Ok(put_regrets(out, Top::Best, inputs, &table)?)
}

/// Plays and bounds everything, and then writes.
fn write_near_regrets<O: Sink>(alloc: Global, inputs: &Inputs, out: &mut O) -> Result<(), Ending>
    requires { inputs.now.setup.abandon ≡ false }
    ensures { WritesBounds inputs.now (O.seen out.old) (ended result) (O.seen out.new) }
{
    inputs.fit()?;
    let table = score_all(alloc, inputs, None)?;
    Ok(put_regrets(out, Top::Bound, inputs, &table)?)
}

/// Reads the files, plays and plans everything, and then writes.
pub(crate) fn regret<F: Shelf, O: Sink>(
    alloc: Global,
    words: RegretWords,
    shelf: &mut F,
    out: &mut O,
) -> Result<(), Ending>
    ensures { Ends (film_files words) at_the_end (about (regret words.budget) words)
        (F.shelved shelf.old) (O.seen out.old) (ended result)
        (F.shelved shelf.new) (O.seen out.new) }
{
    let budget = words.budget();
    let inputs = read_inputs(alloc, shelf, words.into_film_words())?;
    write_regrets(alloc, &inputs, budget, out)
}

/// Reads the files, plays and bounds everything, and then writes.
pub(crate) fn near_regret<F: Shelf, O: Sink>(
    alloc: Global,
    words: RegretWords,
    shelf: &mut F,
    out: &mut O,
) -> Result<(), Ending>
    ensures { EndsWithBounds words
        (F.shelved shelf.old) (O.seen out.old) (ended result)
        (F.shelved shelf.new) (O.seen out.new) }
{
    let inputs = read_inputs(alloc, shelf, words.into_film_words())?;
    write_near_regrets(alloc, &inputs, out)
}
