//! Rules as they are spelled on the command line.

ghost use Rattle.std.specs.Prelude.{◌≡◌, ◌==◌, IfOk, map};
ghost use Rattle.std.specs.List.{slice_split};
ghost use Rattle.lab_words.specs.Command.{named};
ghost use Rattle.lab_words.specs.Rules.{named_rule, named_rules, rule_of, rule_of_kind, spoken};
ghost use Rattle.lab_words.specs.Values.{Understands};

use crate::numbers::{number_of, small_number_of, small_numbers_of};
use crate::{NamedRule, RuleWords, WordsErr};
use std::alloc::{AllocError, Global};

/// The rule of this kind with these numbers.
fn rule_of_kind(alloc: Global, kind: &str, numbers: &str) -> Result<RuleWords, WordsErr>
    ensures { Understands spoken result (rule_of_kind kind.now numbers.now) }
{
    match kind {
        "fixed" => Ok(RuleWords::Fixed {
            rung: small_number_of(numbers, 0, 15).ok_or(WordsErr::Usage)?,
        }),
        "list" => Ok(RuleWords::List {
            rungs: small_numbers_of(alloc, numbers, 2000, 0, 15)?,
        }),
        "throughput" => Ok(RuleWords::Throughput {
            windows: small_numbers_of(alloc, numbers, 4, 1, 100)?,
        }),
        "bola" => Ok(RuleWords::Bola {
            g: number_of(numbers, 1, 1_000_000).ok_or(WordsErr::Usage)?,
        }),
        "mpc" => Ok(RuleWords::Mpc {
            horizon: small_number_of(numbers, 1, 5).ok_or(WordsErr::Usage)?,
        }),
        _ => Err(WordsErr::Usage),
    }
}

/// The rule that the text spells: its kind, a `:` and its numbers.
#[tactic(auto, unfolding(crate::specs::Rules::rule_of))]
fn rule_of(alloc: Global, text: &str) -> Result<RuleWords, WordsErr>
    ensures { Understands spoken result (rule_of text.now) }
{
    match text.split_once(':') {
        Some((kind, numbers)) => rule_of_kind(alloc, kind, numbers),
        None => Err(WordsErr::Usage),
    }
}

/// What stands between the slashes of a text.
pub(crate) fn pieces_of<'a>(alloc: Global, text: &'a str) -> Result<Vec<&'a str>, AllocError>
    ensures { IfOk result (λ pieces. map (λ piece. piece.now) pieces.items
        ≡ slice_split (λ b. b == 47) text.entry.now) }
{
    text.split('/').collect(alloc)
}

/// The rule that a text spells, with the text as its name.
pub(crate) fn named_rule(alloc: Global, text: &str) -> Result<NamedRule, WordsErr>
    ensures { Understands named result (named_rule text.now) }
{
    Ok(NamedRule {
        rule: rule_of(alloc, text)?,
        name: text.to_string(alloc)?,
    })
}

/// The rule of each text.
pub(crate) fn named_rules(alloc: Global, texts: &[&str]) -> Result<Vec<NamedRule>, WordsErr>
    ensures { Understands (λ rules. map named rules.items) result
        (named_rules (map (λ text. text.now) texts.now)) }
{
    let mut rules = Vec::new(alloc);
    for text in texts {
        rules.push(named_rule(alloc, text)?)?;
    }
    Ok(rules)
}
