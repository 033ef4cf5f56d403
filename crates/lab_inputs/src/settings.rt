//! Whether the settings of a command fit the film.

ghost use Rattle.std.specs.Prelude.{◌≡◌, map, nat_lt};
ghost use Rattle.std.specs.List.{list_all};
ghost use Rattle.lab_model.specs.Rules.{kind_fits};
ghost use Rattle.lab_words.specs.Command.{named};
ghost use Rattle.lab_words.specs.Rules.{spoken};
ghost use Rattle.lab_inputs.specs.Settings.{misfit, misfit_from};

use crate::stop::Setting;
use lab_model::{Manifest, Setup};
use lab_words::{NamedRule, RuleWords};

/// Whether each of these is a rung of the ladder.
fn are_rungs(rungs: &[u8], count: u8) -> bool
    ensures { result ≡ list_all (λ q. nat_lt q count) rungs.now }
{
    rungs.iter().all(|q| *q < count)
}

/// Whether the rule can be asked about the film.
fn rule_fits(rule: &RuleWords, m: &Manifest) -> bool
    ensures { result ≡ kind_fits (spoken rule.now) m.now }
{
    match rule {
        RuleWords::Fixed { rung } => *rung < m.rungs(),
        RuleWords::List { rungs } => {
            rungs.len() == m.segments() as usize && are_rungs(rungs, m.rungs())
        }
        RuleWords::Throughput { .. } | RuleWords::Bola { .. } | RuleWords::Mpc { .. } => true,
    }
}

/// The place from 1 of the first rule that cannot be asked about the film.
fn misfit_rule(rules: &[NamedRule], m: &Manifest) -> Option<usize>
    ensures { result ≡ misfit_from 1 (map named rules.now) m.now }
{
    for (index, rule) in rules.iter().enumerate() {
        if !rule_fits(&rule.rule, m) {
            return Some(index + 1);
        }
    }
    None
}

/// The first setting that does not fit the film: the buffer, then the utilities, then the rules.
#[tactic(auto, unfolding(crate::specs::Settings::misfit))]
pub(crate) fn misfit(setup: &Setup, rules: &[NamedRule], m: &Manifest) -> Option<Setting>
    ensures { result ≡ misfit setup.now (map named rules.now) m.now }
{
    if !setup.buffer_fits(m) {
        return Some(Setting::Buffer);
    }
    if !setup.utilities_fit(m) {
        return Some(Setting::Utilities);
    }
    misfit_rule(rules, m).map(Setting::Rule)
}
