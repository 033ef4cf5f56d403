//! Commands as tables of their words, and their matches by `clap`.

ghost use Rattle.std.specs.Prelude.{◌≡◌, None, true, false, IfOk, map, string_bytes};
ghost use Rattle.clap.specs.Words.{app_of, found_of, is_simple_and_free, rows_of, rule_of};
ghost use Rattle.lab_words.specs.Table.{accepted_words, entry_of, plain_app, rule_of_word, table_app, with_words};
ghost use Rattle.lab_words.specs.Values.{Understands};

use crate::WordsErr;
use clap::error::ErrorKind;
use clap::{Arg, ArgAction, ArgMatches, Command};
use std::alloc::{AllocError, Global};

/// What a word of a command is.
#[derive(Clone, Copy)]
pub enum Kind {
    /// An option with one value, which has to be there.
    Required,
    /// An option with one value.
    Optional,
    /// An option with no value.
    Flag,
    /// One word by its place.
    One,
    /// One or more words by their place.
    Several,
}

/// A word of a command, by its name.
pub struct Word {
    pub name: &'static str,
    pub kind: Kind,
}

fn arg_of<'a>(alloc: Global, name: &'a str, kind: Kind) -> Arg<'a>
    ensures rule { rule_of result ≡ rule_of_word kind name.entry.now }
    ensures own { result.global ≡ false }
{
    let arg = Arg::new(alloc, name);
    match kind {
        Kind::Required => arg.long(name).action(ArgAction::Set).required(true),
        Kind::Optional => arg.long(name).action(ArgAction::Set),
        Kind::Flag => arg.long(name).action(ArgAction::SetTrue),
        Kind::One => arg.action(ArgAction::Set).required(true),
        Kind::Several => arg.action(ArgAction::Append).required(true),
    }
}

fn plain_command<'a>(alloc: Global, name: &'a str) -> Command<'a>
    ensures { app_of result ≡ plain_app name.entry.now }
{
    Command::new(alloc, name)
        .no_binary_name(true)
        .disable_help_flag(true)
        .disable_version_flag(true)
}

/// The command with these words more.
fn with_words<'a>(
    alloc: Global,
    command: Command<'a>,
    table: &[Word],
) -> Result<Command<'a>, AllocError>
    ensures { IfOk result (λ c. app_of c
        ≡ with_words (app_of command.entry) (map entry_of table.now)) }
{
    let mut command = command;
    for word in table {
        command = command.arg(arg_of(alloc, word.name, word.kind))?;
    }
    Ok(command)
}

/// The command of this name with its own words, and those that it shares with others.
#[tactic(auto, unfolding(crate::specs::Table::table_app))]
fn table_command<'a>(
    alloc: Global,
    name: &'a str,
    own: &[Word],
    shared: &[Word],
) -> Result<Command<'a>, AllocError>
    ensures { IfOk result (λ c. app_of c
        ≡ table_app name.entry.now (map entry_of own.now) (map entry_of shared.now)) }
{
    let command = with_words(alloc, plain_command(alloc, name), own)?;
    with_words(alloc, command, shared)
}

/// The matches of the table's command on these words.
pub(crate) fn table_matches<'a>(
    alloc: Global,
    name: &'a str,
    own: &[Word],
    shared: &[Word],
    words: &'a [String],
) -> Result<ArgMatches<'a>, WordsErr>
    requires { is_simple_and_free
        (table_app name.now (map entry_of own.now) (map entry_of shared.now)) ≡ true }
    ensures { Understands (λ m. rows_of (found_of m)) result
        (accepted_words (table_app name.entry.now (map entry_of own.now) (map entry_of shared.now))
        (map string_bytes words.entry.now)) }
{
    let Ok(command) = table_command(alloc, name, own, shared) else {
        return Err(WordsErr::Memory);
    };
    match command.try_get_matches_from(words) {
        Ok(matches) => Ok(matches),
        Err(e) => match e.kind() {
            ErrorKind::OutOfMemory => Err(WordsErr::Memory),
            _ => Err(WordsErr::Usage),
        },
    }
}
