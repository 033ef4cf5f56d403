//! The settings that the commands on a manifest share.

ghost use Rattle.std.specs.Prelude.{◌≡◌, option_map, string_bytes};
ghost use Rattle.clap.specs.Words.{found_of, rows_of};
ghost use Rattle.lab_words.specs.Command.{blank, view};
ghost use Rattle.lab_words.specs.Settings.{settings_in, settings_view, utilities_in, with_settings};
ghost use Rattle.lab_words.specs.Values.{Understands};

use crate::numbers::utilities_of;
use crate::table::{Kind, Word};
use crate::values::{OneOf, number_in, one_of};
use crate::{Command, Verb, WordsErr};
use clap::ArgMatches;
use lab_model::{MOST_BUFFER_MS, MOST_WEIGHT};
use std::alloc::Global;

/// The labels that a plan may have where no budget is given.
pub(crate) const DEFAULT_BUDGET: u32 = 200_000;

/// Their words.
#[rattlefmt::skip]
pub(crate) static SETTINGS: [Word; 6] = [
    Word { name: "buffer", kind: Kind::Optional },
    Word { name: "utilities", kind: Kind::Optional },
    Word { name: "utility-table", kind: Kind::Optional },
    Word { name: "switch", kind: Kind::Optional },
    Word { name: "stall", kind: Kind::Optional },
    Word { name: "startup", kind: Kind::Optional },
];

/// What each command on a manifest has.
#[derive(Drop)]
pub(crate) struct Settings {
    pub buffer_ms: u32,
    pub utilities: Vec<u32>,
    pub table: Option<String>,
    pub switch: u32,
    pub stall: u32,
    pub startup: u32,
}

/// The utilities, or none and the file name of their table.
#[tactic(auto, unfolding(crate::specs::Settings::utilities_in))]
fn utilities_in(
    alloc: Global,
    matches: &ArgMatches<'_>,
) -> Result<(Vec<u32>, Option<String>), WordsErr>
    ensures { Understands (λ words. (words.0.items, option_map string_bytes words.1)) result
        (utilities_in (rows_of (found_of matches.now))) }
{
    match one_of(matches, "utilities", "utility-table")? {
        OneOf::First(text) => Ok((utilities_of(alloc, text)?, None)),
        OneOf::Second(name) => Ok((Vec::new(alloc), Some(name.to_string(alloc)?))),
    }
}

/// What the options of a command on a manifest say.
#[tactic(auto, unfolding(crate::specs::Settings::settings_in))]
pub(crate) fn settings_in(alloc: Global, matches: &ArgMatches<'_>) -> Result<Settings, WordsErr>
    ensures { Understands settings_view result (settings_in (rows_of (found_of matches.now))) }
{
    let buffer_ms = number_in(matches, "buffer", 25_000, 1, MOST_BUFFER_MS)?;
    let (utilities, table) = utilities_in(alloc, matches)?;
    Ok(Settings {
        buffer_ms,
        utilities,
        table,
        switch: number_in(matches, "switch", 0, 0, MOST_WEIGHT)?,
        stall: number_in(matches, "stall", 100, 0, MOST_WEIGHT)?,
        startup: number_in(matches, "startup", 1, 0, MOST_WEIGHT)?,
    })
}

impl Settings {
    /// A command that asks for these settings alone.
    pub(crate) fn command(self, alloc: Global, verb: Verb) -> Command
        ensures { view result ≡ with_settings (settings_view self) (blank verb) }
    {
        Command {
            buffer_ms: self.buffer_ms,
            utilities: self.utilities,
            table: self.table,
            switch: self.switch,
            stall: self.stall,
            startup: self.startup,
            ..Command::blank(alloc, verb)
        }
    }
}
