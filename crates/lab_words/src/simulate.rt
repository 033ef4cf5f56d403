//! The words of `simulate`.

ghost use Rattle.std.specs.Prelude.{map, string_bytes};
ghost use Rattle.clap.specs.Words.{found_of, rows_of};
ghost use Rattle.lab_words.specs.Command.{named, view};
ghost use Rattle.lab_words.specs.Simulate.{players_in, several_players, simulate_app, simulate_in};
ghost use Rattle.lab_words.specs.Table.{accepted_words};
ghost use Rattle.lab_words.specs.Values.{Understands};
ghost use Rattle.lab_words.specs.Words.{asked_of};

use crate::rules::{named_rule, named_rules, pieces_of};
use crate::settings::{SETTINGS, settings_in};
use crate::table::{Kind, Word, table_matches};
use crate::values::{
    OneOf, at_most_one, file_name, is_given, one_of, optional_file_name, optional_number,
};
use crate::{Command, NamedRule, Verb, WordsErr};
use clap::ArgMatches;
use lab_model::ALL_AHEAD_MS;
use std::alloc::Global;

/// The words of `simulate` alone.
#[rattlefmt::skip]
static SIMULATE: [Word; 7] = [
    Word { name: "manifest", kind: Kind::Required },
    Word { name: "trace", kind: Kind::Required },
    Word { name: "rule", kind: Kind::Optional },
    Word { name: "abandon", kind: Kind::Flag },
    Word { name: "seeks", kind: Kind::Optional },
    Word { name: "live", kind: Kind::Optional },
    Word { name: "players", kind: Kind::Optional },
];

/// The most players.
const MOST_PLAYERS: usize = 8;

/// The matches of `simulate` on the words behind it.
fn simulate_matches<'a>(alloc: Global, words: &'a [String]) -> Result<ArgMatches<'a>, WordsErr>
    ensures { Understands (λ m. rows_of (found_of m)) result
        (accepted_words simulate_app (map string_bytes words.entry.now)) }
{
    table_matches(alloc, "simulate", &SIMULATE, &SETTINGS, words)
}

/// The rules of several players, joined by `/`.
#[tactic(auto, unfolding(crate::specs::Simulate::several_players))]
fn several_players(alloc: Global, text: &str) -> Result<Vec<NamedRule>, WordsErr>
    ensures { Understands (λ rules. map named rules.items) result (several_players text.now) }
{
    let texts = pieces_of(alloc, text)?;
    if texts.len() > MOST_PLAYERS {
        return Err(WordsErr::Usage);
    }
    named_rules(alloc, &texts)
}

/// The rules of the players, and whether it is of several that they are.
#[tactic(auto, unfolding(crate::specs::Simulate::players_in))]
fn players_in(alloc: Global, matches: &ArgMatches<'_>) -> Result<(Vec<NamedRule>, bool), WordsErr>
    ensures { Understands (λ players. (map named players.0.items, players.1)) result
        (players_in (rows_of (found_of matches.now))) }
{
    match one_of(matches, "rule", "players")? {
        OneOf::First(text) => {
            let rule = named_rule(alloc, text)?;
            Ok((vec![in alloc; rule]?, false))
        }
        OneOf::Second(text) => Ok((several_players(alloc, text)?, true)),
    }
}

/// What `simulate` is asked for, by the values of its options.
#[tactic(auto, using(crate::proofs::Options::some_map), unfolding(crate::specs::Simulate::simulate_in))]
fn simulate_in(alloc: Global, matches: &ArgMatches<'_>) -> Result<Command, WordsErr>
    ensures { Understands view result (simulate_in (rows_of (found_of matches.now))) }
{
    let manifest = file_name(alloc, matches, "manifest")?;
    let trace = file_name(alloc, matches, "trace")?;
    let (rules, players) = players_in(alloc, matches)?;
    let settings = settings_in(alloc, matches)?;
    let seeks = optional_file_name(alloc, matches, "seeks")?;
    let live = optional_number(matches, "live", 0, ALL_AHEAD_MS)?;
    let abandon = is_given(matches, "abandon");
    if !at_most_one(&[live.is_some(), players, abandon || seeks.is_some()]) {
        return Err(WordsErr::Usage);
    }
    Ok(Command {
        manifest,
        traces: vec![in alloc; trace]?,
        rules,
        abandon,
        seeks,
        live,
        players,
        ..settings.command(alloc, Verb::Simulate)
    })
}

/// What the words behind `simulate` ask for.
pub(crate) fn simulate_of(alloc: Global, words: &[String]) -> Result<Command, WordsErr>
    ensures { Understands view result (asked_of Verb.Simulate (map string_bytes words.now)) }
{
    let matches = simulate_matches(alloc, words)?;
    simulate_in(alloc, &matches)
}
