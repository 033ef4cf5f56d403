//! The rules of a command line.

ghost use Rattle.std.specs.Prelude.{◌≡◌, [], IfOk, map};
ghost use Rattle.std.specs.List.{All};
ghost use Rattle.lab_words.specs.Limits.{IsRuleWithin};
ghost use Rattle.lab_words.specs.Rules.{spoken};
ghost use Rattle.abrlab_top.specs.Rules.{HasSeen, kind_of};

use bola_rule::Bola;
use lab_model::{Context, Manifest, NoMemory, Rule, Sample, Setup};
use lab_words::{NamedRule, RuleWords};
use mpc_rule::{MpcErr, RobustMpc};
use player_core::{Fixed, Listed};
use std::alloc::Global;
use throughput_rule::{RuleErr, Throughput};

/// A rule of a command line.
#[derive(Drop)]
pub enum AnyRule {
    /// One rung throughout.
    Fixed(Fixed),
    /// A rung for each segment.
    Listed(Listed),
    /// The least mean of some windows of samples.
    Throughput(Throughput),
    /// BOLA.
    Bola(Bola),
    /// RobustMPC.
    Mpc(RobustMpc),
}

impl Rule for AnyRule {
    ghost kind = { kind_of };

    ghost stands_for = { HasSeen };

    fn fits(&self, m: &Manifest) -> bool {
        match self {
            AnyRule::Fixed(rule) => rule.fits(m),
            AnyRule::Listed(rule) => rule.fits(m),
            AnyRule::Throughput(rule) => rule.fits(m),
            AnyRule::Bola(rule) => rule.fits(m),
            AnyRule::Mpc(rule) => rule.fits(m),
        }
    }

    fn observe(&mut self, s: Sample) {
        match self {
            AnyRule::Fixed(rule) => rule.observe(s),
            AnyRule::Listed(rule) => rule.observe(s),
            AnyRule::Throughput(rule) => rule.observe(s),
            AnyRule::Bola(rule) => rule.observe(s),
            AnyRule::Mpc(rule) => rule.observe(s),
        }
    }

    fn choose(&self, m: &Manifest, set: &Setup, c: &Context) -> u8 {
        match self {
            AnyRule::Fixed(rule) => rule.choose(m, set, c),
            AnyRule::Listed(rule) => rule.choose(m, set, c),
            AnyRule::Throughput(rule) => rule.choose(m, set, c),
            AnyRule::Bola(rule) => rule.choose(m, set, c),
            AnyRule::Mpc(rule) => rule.choose(m, set, c),
        }
    }
}

/// The rule that the words spell, before its first sample.
pub(crate) fn any_rule(alloc: Global, rule: &RuleWords) -> Result<AnyRule, NoMemory>
    requires { IsRuleWithin (spoken rule.now) }
    ensures kind { IfOk result (λ r. kind_of r ≡ spoken rule.now) }
    ensures told { IfOk result (λ r. HasSeen r []) }
{
    match rule {
        RuleWords::Fixed { rung } => Ok(AnyRule::Fixed(Fixed { rung: *rung })),
        RuleWords::List { rungs } => {
            let rungs = Vec::from_slice(alloc, rungs)?;
            Ok(AnyRule::Listed(Listed::new(rungs)))
        }
        RuleWords::Throughput { windows } => match Throughput::new(alloc, windows) {
            Ok(rule) => Ok(AnyRule::Throughput(rule)),
            Err(RuleErr::Memory) => Err(NoMemory),
            Err(RuleErr::BadWindows) => unreachable!(),
        },
        RuleWords::Bola { g } => match Bola::new(*g) {
            Some(rule) => Ok(AnyRule::Bola(rule)),
            None => unreachable!(),
        },
        RuleWords::Mpc { horizon } => match RobustMpc::new(alloc, *horizon) {
            Ok(rule) => Ok(AnyRule::Mpc(rule)),
            Err(MpcErr::Memory) => Err(NoMemory),
            Err(MpcErr::BadHorizon) => unreachable!(),
        },
    }
}

/// The rules that the words spell, in order, each before its first sample.
pub(crate) fn any_rules(alloc: Global, rules: &[NamedRule]) -> Result<Vec<AnyRule>, NoMemory>
    requires { All (λ rule. IsRuleWithin (spoken rule.rule)) rules.now }
    ensures kinds { IfOk result (λ rs. map kind_of rs.items
        ≡ map (λ rule. spoken rule.rule) rules.now) }
    ensures told { IfOk result (λ rs. All (λ r. HasSeen r []) rs.items) }
{
    let mut played = Vec::new(alloc);
    for rule in rules {
        played.push(any_rule(alloc, &rule.rule)?)?;
    }
    Ok(played)
}
