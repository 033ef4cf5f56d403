//! The words of `compare`.

ghost use Rattle.std.specs.Prelude.{◌≡◌, IfOk, map, string_bytes};
ghost use Rattle.clap.specs.Words.{found_of, rows_of};
ghost use Rattle.lab_words.specs.Command.{named, view};
ghost use Rattle.lab_words.specs.Compare.{budget_in, compare_app, compare_in, distinct, few, rules_in, traces_in};
ghost use Rattle.lab_words.specs.Table.{accepted_words};
ghost use Rattle.lab_words.specs.Values.{Understands};
ghost use Rattle.lab_words.specs.Words.{asked_of};

use crate::rules::{named_rules, pieces_of};
use crate::settings::{DEFAULT_BUDGET, SETTINGS, settings_in};
use crate::table::{Kind, Word, table_matches};
use crate::values::{
    at_most_one, file_name, is_given, number_unless, optional_file_name, required_text, several,
};
use crate::{Command, NamedRule, Verb, WordsErr};
use clap::ArgMatches;
use indexmap::IndexSet;
use lab_model::MOST_BUDGET;
use std::alloc::{AllocError, AllocFailed, Global};

/// The words of `compare` alone.
#[rattlefmt::skip]
static COMPARE: [Word; 8] = [
    Word { name: "manifest", kind: Kind::Required },
    Word { name: "rules", kind: Kind::Required },
    Word { name: "abandon", kind: Kind::Flag },
    Word { name: "seeks", kind: Kind::Optional },
    Word { name: "regret", kind: Kind::Flag },
    Word { name: "budget", kind: Kind::Optional },
    Word { name: "near", kind: Kind::Flag },
    Word { name: "trace", kind: Kind::Several },
];

/// The most rules, without repeats.
const MOST_RULES: usize = 32;

/// The most traces, without repeats.
const MOST_TRACES: usize = 64;

/// The matches of `compare` on the words behind it.
fn compare_matches<'a>(alloc: Global, words: &'a [String]) -> Result<ArgMatches<'a>, WordsErr>
    ensures { Understands (λ m. rows_of (found_of m)) result
        (accepted_words compare_app (map string_bytes words.entry.now)) }
{
    table_matches(alloc, "compare", &COMPARE, &SETTINGS, words)
}

/// The texts without repeats, each at its first place.
fn distinct<'a>(alloc: Global, texts: &[&'a str]) -> Result<IndexSet<&'a str>, AllocFailed<&'a str>>
    ensures { IfOk result (λ set. map (λ text. text.now) set.keys
        ≡ distinct (map (λ text. text.now) texts.now)) }
{
    let mut set = IndexSet::new(alloc);
    for text in texts {
        set.insert(*text)?;
    }
    Ok(set)
}

/// At most so many texts without repeats, each at its first place.
#[tactic(auto, unfolding(crate::specs::Compare::few))]
fn few<'a>(alloc: Global, texts: &[&'a str], most: usize) -> Result<IndexSet<&'a str>, WordsErr>
    ensures { Understands (λ set. map (λ text. text.now) set.keys) result
        (few most (map (λ text. text.now) texts.now)) }
{
    let set = distinct(alloc, texts)?;
    if set.len() > most {
        return Err(WordsErr::Usage);
    }
    Ok(set)
}

/// The rules, joined by `/`.
#[tactic(auto, unfolding(crate::specs::Compare::rules_in))]
fn rules_in(alloc: Global, matches: &ArgMatches<'_>) -> Result<Vec<NamedRule>, WordsErr>
    ensures { Understands (λ rules. map named rules.items) result
        (rules_in (rows_of (found_of matches.now))) }
{
    let pieces = pieces_of(alloc, required_text(matches, "rules")?)?;
    let names = few(alloc, &pieces, MOST_RULES)?;
    named_rules(alloc, names.as_slice())
}

/// The texts, owned.
fn owned_texts(alloc: Global, texts: &[&str]) -> Result<Vec<String>, AllocError>
    ensures { IfOk result (λ names. map string_bytes names.items
        ≡ map (λ text. text.now) texts.now) }
{
    let mut names = Vec::new(alloc);
    for text in texts {
        names.push(text.to_string(alloc)?)?;
    }
    Ok(names)
}

/// The traces.
#[tactic(auto, unfolding(crate::specs::Compare::traces_in))]
fn traces_in(alloc: Global, matches: &ArgMatches<'_>) -> Result<Vec<String>, WordsErr>
    ensures { Understands (λ names. map string_bytes names.items) result
        (traces_in (rows_of (found_of matches.now))) }
{
    let names = few(alloc, several(matches, "trace")?, MOST_TRACES)?;
    Ok(owned_texts(alloc, names.as_slice())?)
}

/// The budget, which is for regrets alone, and for the best lists, not for bounds by prices.
fn budget_in(matches: &ArgMatches<'_>, regret: bool, near: bool) -> Result<u32, WordsErr>
    ensures { Understands (λ number. number) result
        (budget_in regret near (rows_of (found_of matches.now))) }
{
    let default = if regret { DEFAULT_BUDGET } else { 0 };
    number_unless(matches, "budget", !regret || near, default, 1, MOST_BUDGET)
}

/// What `compare` is asked for, by the values of its options.
#[tactic(auto, using(crate::proofs::Options::some_map), unfolding(crate::specs::Compare::compare_in))]
fn compare_in(alloc: Global, matches: &ArgMatches<'_>) -> Result<Command, WordsErr>
    ensures { Understands view result (compare_in (rows_of (found_of matches.now))) }
{
    let manifest = file_name(alloc, matches, "manifest")?;
    let rules = rules_in(alloc, matches)?;
    let settings = settings_in(alloc, matches)?;
    let seeks = optional_file_name(alloc, matches, "seeks")?;
    let regret = is_given(matches, "regret");
    let near = is_given(matches, "near");
    let budget = budget_in(matches, regret, near)?;
    let traces = traces_in(alloc, matches)?;
    let abandon = is_given(matches, "abandon");
    if !at_most_one(&[regret, abandon || seeks.is_some()]) || !at_most_one(&[near, !regret]) {
        return Err(WordsErr::Usage);
    }
    Ok(Command {
        manifest,
        traces,
        rules,
        abandon,
        seeks,
        budget,
        regret,
        near,
        ..settings.command(alloc, Verb::Compare)
    })
}

/// What the words behind `compare` ask for.
pub(crate) fn compare_of(alloc: Global, words: &[String]) -> Result<Command, WordsErr>
    ensures { Understands view result (asked_of Verb.Compare (map string_bytes words.now)) }
{
    let matches = compare_matches(alloc, words)?;
    compare_in(alloc, &matches)
}
