//! The words of `check`.

ghost use Rattle.std.specs.Prelude.{map, string_bytes};
ghost use Rattle.clap.specs.Words.{found_of, rows_of};
ghost use Rattle.lab_words.specs.Command.{view};
ghost use Rattle.lab_words.specs.Check.{check_app, check_in};
ghost use Rattle.lab_words.specs.Table.{accepted_words};
ghost use Rattle.lab_words.specs.Values.{Understands};
ghost use Rattle.lab_words.specs.Words.{asked_of};

use crate::settings::{SETTINGS, settings_in};
use crate::table::{Kind, Word, table_matches};
use crate::values::{at_most_one, file_name, is_given, optional_number};
use crate::{Command, Verb, WordsErr};
use clap::ArgMatches;
use lab_model::ALL_AHEAD_MS;
use std::alloc::Global;

/// The words of `check` alone.
#[rattlefmt::skip]
static CHECK: [Word; 6] = [
    Word { name: "manifest", kind: Kind::Required },
    Word { name: "trace", kind: Kind::Required },
    Word { name: "certificate", kind: Kind::Required },
    Word { name: "live", kind: Kind::Optional },
    Word { name: "gap", kind: Kind::Flag },
    Word { name: "near", kind: Kind::Flag },
];

/// The matches of `check` on the words behind it.
fn check_matches<'a>(alloc: Global, words: &'a [String]) -> Result<ArgMatches<'a>, WordsErr>
    ensures { Understands (λ m. rows_of (found_of m)) result
        (accepted_words check_app (map string_bytes words.entry.now)) }
{
    table_matches(alloc, "check", &CHECK, &SETTINGS, words)
}

/// What `check` is asked for, by the values of its options.
#[tactic(auto, unfolding(crate::specs::Check::check_in))]
fn check_in(alloc: Global, matches: &ArgMatches<'_>) -> Result<Command, WordsErr>
    ensures { Understands view result (check_in (rows_of (found_of matches.now))) }
{
    let manifest = file_name(alloc, matches, "manifest")?;
    let trace = file_name(alloc, matches, "trace")?;
    let settings = settings_in(alloc, matches)?;
    let certificate = file_name(alloc, matches, "certificate")?;
    let live = optional_number(matches, "live", 0, ALL_AHEAD_MS)?;
    let gap = is_given(matches, "gap");
    let near = is_given(matches, "near");
    if !at_most_one(&[live.is_some() || near, gap]) {
        return Err(WordsErr::Usage);
    }
    Ok(Command {
        manifest,
        traces: vec![in alloc; trace]?,
        certificate: Some(certificate),
        live,
        gap,
        near,
        ..settings.command(alloc, Verb::Check)
    })
}

/// What the words behind `check` ask for.
pub(crate) fn check_of(alloc: Global, words: &[String]) -> Result<Command, WordsErr>
    ensures { Understands view result (asked_of Verb.Check (map string_bytes words.now)) }
{
    let matches = check_matches(alloc, words)?;
    check_in(alloc, &matches)
}
