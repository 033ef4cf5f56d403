//! The words of `demo`.

ghost use Rattle.std.specs.Prelude.{map, string_bytes};
ghost use Rattle.clap.specs.Words.{found_of, rows_of};
ghost use Rattle.lab_words.specs.Command.{view};
ghost use Rattle.lab_words.specs.Demo.{demo_app, demo_in};
ghost use Rattle.lab_words.specs.Table.{accepted_words};
ghost use Rattle.lab_words.specs.Values.{Understands};
ghost use Rattle.lab_words.specs.Words.{asked_of};

use crate::numbers::number_of;
use crate::table::{Kind, Word, table_matches};
use crate::values::required_text;
use crate::{Command, Verb, WordsErr};
use clap::ArgMatches;
use std::alloc::Global;

/// The words of `demo` alone.
#[rattlefmt::skip]
static DEMO: [Word; 1] = [
    Word { name: "number", kind: Kind::One },
];

/// The matches of `demo` on the words behind it.
fn demo_matches<'a>(alloc: Global, words: &'a [String]) -> Result<ArgMatches<'a>, WordsErr>
    ensures { Understands (λ m. rows_of (found_of m)) result
        (accepted_words demo_app (map string_bytes words.entry.now)) }
{
    table_matches(alloc, "demo", &DEMO, &[], words)
}

/// What `demo` is asked for, by the values of its options.
#[tactic(auto, unfolding(crate::specs::Demo::demo_in))]
fn demo_in(alloc: Global, matches: &ArgMatches<'_>) -> Result<Command, WordsErr>
    ensures { Understands view result (demo_in (rows_of (found_of matches.now))) }
{
    let text = required_text(matches, "number")?;
    let number = number_of(text, 0, 2_147_483_647).ok_or(WordsErr::Usage)?;
    Ok(Command {
        number,
        ..Command::blank(alloc, Verb::Demo)
    })
}

/// What the words behind `demo` ask for.
pub(crate) fn demo_of(alloc: Global, words: &[String]) -> Result<Command, WordsErr>
    ensures { Understands view result (asked_of Verb.Demo (map string_bytes words.now)) }
{
    let matches = demo_matches(alloc, words)?;
    demo_in(alloc, &matches)
}
