//! The words of `plan`.

ghost use Rattle.std.specs.Prelude.{map, string_bytes};
ghost use Rattle.clap.specs.Words.{found_of, rows_of};
ghost use Rattle.lab_words.specs.Command.{view};
ghost use Rattle.lab_words.specs.Plan.{grid_words_in, plan_app, plan_in};
ghost use Rattle.lab_words.specs.Table.{accepted_words};
ghost use Rattle.lab_words.specs.Values.{Understands};
ghost use Rattle.lab_words.specs.Words.{asked_of};

use crate::numbers::grid_of;
use crate::settings::{DEFAULT_BUDGET, SETTINGS, settings_in};
use crate::table::{Kind, Word, table_matches};
use crate::values::{at_most_one, file_name, is_given, number_unless, optional, optional_number};
use crate::{Command, Verb, WordsErr};
use clap::ArgMatches;
use lab_model::{ALL_AHEAD_MS, MOST_BUDGET};
use std::alloc::Global;

/// The words of `plan` alone.
#[rattlefmt::skip]
static PLAN: [Word; 7] = [
    Word { name: "manifest", kind: Kind::Required },
    Word { name: "trace", kind: Kind::Required },
    Word { name: "budget", kind: Kind::Optional },
    Word { name: "as-certificate", kind: Kind::Flag },
    Word { name: "live", kind: Kind::Optional },
    Word { name: "coarse", kind: Kind::Optional },
    Word { name: "near", kind: Kind::Flag },
];

/// The matches of `plan` on the words behind it.
fn plan_matches<'a>(alloc: Global, words: &'a [String]) -> Result<ArgMatches<'a>, WordsErr>
    ensures { Understands (λ m. rows_of (found_of m)) result
        (accepted_words plan_app (map string_bytes words.entry.now)) }
{
    table_matches(alloc, "plan", &PLAN, &SETTINGS, words)
}

/// The grid of a coarse plan, or zeros.
#[tactic(auto, unfolding(crate::specs::Plan::grid_words_in))]
fn grid_in(matches: &ArgMatches<'_>) -> Result<(u32, u32), WordsErr>
    ensures { Understands (λ grid. grid) result (grid_words_in (rows_of (found_of matches.now))) }
{
    match optional(matches, "coarse")? {
        Some(text) => grid_of(text).ok_or(WordsErr::Usage),
        None => Ok((0, 0)),
    }
}

/// What `plan` is asked for, by the values of its options.
#[tactic(auto, unfolding(crate::specs::Plan::plan_in))]
fn plan_in(alloc: Global, matches: &ArgMatches<'_>) -> Result<Command, WordsErr>
    ensures { Understands view result (plan_in (rows_of (found_of matches.now))) }
{
    let manifest = file_name(alloc, matches, "manifest")?;
    let trace = file_name(alloc, matches, "trace")?;
    let settings = settings_in(alloc, matches)?;
    let near = is_given(matches, "near");
    let budget = number_unless(matches, "budget", near, DEFAULT_BUDGET, 1, MOST_BUDGET)?;
    let live = optional_number(matches, "live", 0, ALL_AHEAD_MS)?;
    let (coarse_time, coarse_value) = grid_in(matches)?;
    if !at_most_one(&[live.is_some() || near, coarse_time > 0]) {
        return Err(WordsErr::Usage);
    }
    Ok(Command {
        manifest,
        traces: vec![in alloc; trace]?,
        budget,
        as_certificate: is_given(matches, "as-certificate"),
        live,
        coarse_time,
        coarse_value,
        near,
        ..settings.command(alloc, Verb::Plan)
    })
}

/// What the words behind `plan` ask for.
pub(crate) fn plan_of(alloc: Global, words: &[String]) -> Result<Command, WordsErr>
    ensures { Understands view result (asked_of Verb.Plan (map string_bytes words.now)) }
{
    let matches = plan_matches(alloc, words)?;
    plan_in(alloc, &matches)
}
