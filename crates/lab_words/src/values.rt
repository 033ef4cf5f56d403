//! The values of a command's options, by `clap`'s matches.

ghost use Rattle.std.specs.Prelude.{◌≡◌, map, option_map, string_bytes};
ghost use Rattle.std.specs.List.{list_any};
ghost use Rattle.clap.specs.Words.{all_of, first_of, found_of, rows_of};
ghost use Rattle.lab_words.specs.Values.{Understands, at_most_one, either_view, is_given, is_stray, number_in, number_unless, one_of, optional, optional_number, required_text, several, some_plain};

use crate::WordsErr;
use crate::numbers::number_of;
use clap::ArgMatches;
use std::alloc::Global;

/// Whether a value is empty or begins with `-`.
fn is_stray(text: &str) -> bool
    ensures { result ≡ is_stray text.now }
{
    match text.as_bytes().first() {
        Some(byte) => *byte == b'-',
        None => true,
    }
}

fn text_of<'a>(matches: &ArgMatches<'a>, name: &str) -> Option<&'a str>
    ensures { option_map (λ text. text.now) result
        ≡ first_of name.now (rows_of (found_of matches.now)) }
{
    matches.get_str(name)
}

/// The value of an option, if it is given.
#[tactic(auto, unfolding(crate::specs::Values::optional))]
pub(crate) fn optional<'a>(
    matches: &ArgMatches<'a>,
    name: &str,
) -> Result<Option<&'a str>, WordsErr>
    ensures { Understands (option_map (λ text. text.now)) result
        (optional name.now (rows_of (found_of matches.now))) }
{
    match text_of(matches, name) {
        Some(text) if is_stray(text) => Err(WordsErr::Usage),
        given => Ok(given),
    }
}

/// The value of an option that has to be given.
#[tactic(auto, unfolding(crate::specs::Values::required_text))]
pub(crate) fn required_text<'a>(matches: &ArgMatches<'a>, name: &str) -> Result<&'a str, WordsErr>
    ensures { Understands (λ text. text.now) result (required_text name.now (rows_of (found_of matches.now))) }
{
    optional(matches, name)?.ok_or(WordsErr::Usage)
}

/// The value of one of two options.
#[derive(Clone, Copy)]
pub(crate) enum OneOf<'a> {
    First(&'a str),
    Second(&'a str),
}

/// The value of two options of which exactly one is to be given.
#[tactic(auto, unfolding(crate::specs::Values::one_of))]
pub(crate) fn one_of<'a>(
    matches: &ArgMatches<'a>,
    name: &str,
    other: &str,
) -> Result<OneOf<'a>, WordsErr>
    ensures { Understands either_view result
        (one_of name.now other.now (rows_of (found_of matches.now))) }
{
    match (optional(matches, name)?, optional(matches, other)?) {
        (Some(text), None) => Ok(OneOf::First(text)),
        (None, Some(text)) => Ok(OneOf::Second(text)),
        _ => Err(WordsErr::Usage),
    }
}

/// A file name that has to be given.
pub(crate) fn file_name(
    alloc: Global,
    matches: &ArgMatches<'_>,
    name: &str,
) -> Result<String, WordsErr>
    ensures { Understands string_bytes result (required_text name.now (rows_of (found_of matches.now))) }
{
    Ok(required_text(matches, name)?.to_string(alloc)?)
}

/// A file name, if it is given.
pub(crate) fn optional_file_name(
    alloc: Global,
    matches: &ArgMatches<'_>,
    name: &str,
) -> Result<Option<String>, WordsErr>
    ensures { Understands (option_map string_bytes) result
        (optional name.now (rows_of (found_of matches.now))) }
{
    match optional(matches, name)? {
        Some(text) => Ok(Some(text.to_string(alloc)?)),
        None => Ok(None),
    }
}

/// The number of an option from `least` to `most`, if it is given.
#[tactic(auto, unfolding(crate::specs::Values::optional_number))]
pub(crate) fn optional_number(
    matches: &ArgMatches<'_>,
    name: &str,
    least: u32,
    most: u32,
) -> Result<Option<u32>, WordsErr>
    ensures { Understands (λ number. number) result
        (optional_number least most name.now (rows_of (found_of matches.now))) }
{
    match optional(matches, name)? {
        Some(text) => match number_of(text, least, most) {
            Some(number) => Ok(Some(number)),
            None => Err(WordsErr::Usage),
        },
        None => Ok(None),
    }
}

/// The number of an option from `least` to `most`, or its default where it isn't given.
#[tactic(auto, unfolding(crate::specs::Values::number_in))]
pub(crate) fn number_in(
    matches: &ArgMatches<'_>,
    name: &str,
    default: u32,
    least: u32,
    most: u32,
) -> Result<u32, WordsErr>
    ensures { Understands (λ number. number) result
        (number_in default least most name.now (rows_of (found_of matches.now))) }
{
    Ok(optional_number(matches, name, least, most)?.unwrap_or(default))
}

fn all_of<'m, 'a>(matches: &'m ArgMatches<'a>, name: &str) -> Option<&'m [&'a str]>
    ensures { option_map (λ texts. map (λ text. text.now) texts.now) result
        ≡ all_of name.now (rows_of (found_of matches.now)) }
{
    matches.get_strs(name)
}

fn any_stray(texts: &[&str]) -> bool
    ensures { result ≡ list_any (λ text. is_stray text.now) texts.now }
{
    texts.iter().any(|text| is_stray(text))
}

/// Whether one of the values is stray.
fn has_stray(texts: &[&str]) -> bool
    ensures { result ≡ list_any is_stray (map (λ text. text.now) texts.now) }
{
    any_stray(texts)
}

/// The values, of which there is one and none is stray.
fn some_plain<'m, 'a>(texts: &'m [&'a str]) -> Result<&'m [&'a str], WordsErr>
    ensures { Understands (λ texts. map (λ text. text.now) texts.now) result
        (some_plain (map (λ text. text.now) texts.entry.now)) }
{
    match texts {
        [_, ..] if !has_stray(texts) => Ok(texts),
        _ => Err(WordsErr::Usage),
    }
}

/// The values of a word that stands once or more.
#[tactic(auto, unfolding(crate::specs::Values::several))]
pub(crate) fn several<'m, 'a>(
    matches: &'m ArgMatches<'a>,
    name: &str,
) -> Result<&'m [&'a str], WordsErr>
    ensures { Understands (λ texts. map (λ text. text.now) texts.now) result
        (several name.now (rows_of (found_of matches.now))) }
{
    match all_of(matches, name) {
        Some(texts) => some_plain(texts),
        None => Err(WordsErr::Usage),
    }
}

/// Whether a flag is given.
pub(crate) fn is_given(matches: &ArgMatches<'_>, name: &str) -> bool
    ensures { result ≡ is_given name.now (rows_of (found_of matches.now)) }
{
    match text_of(matches, name) {
        Some(text) => text == "true",
        None => false,
    }
}

/// Whether at most one of the tests holds.
pub(crate) fn at_most_one(tests: &[bool]) -> bool
    ensures { result ≡ at_most_one tests.now }
{
    tests.iter().filter(|test| **test).count() <= 1
}

/// The number of an option from `least` to `most`, which must not be given where it is barred, or its
/// default.
#[tactic(auto, unfolding(crate::specs::Values::number_unless))]
pub(crate) fn number_unless(
    matches: &ArgMatches<'_>,
    name: &str,
    barred: bool,
    default: u32,
    least: u32,
    most: u32,
) -> Result<u32, WordsErr>
    ensures { Understands (λ number. number) result
        (number_unless barred default least most name.now (rows_of (found_of matches.now))) }
{
    let given = optional_number(matches, name, least, most)?;
    if !at_most_one(&[barred, given.is_some()]) {
        return Err(WordsErr::Usage);
    }
    Ok(given.unwrap_or(default))
}
