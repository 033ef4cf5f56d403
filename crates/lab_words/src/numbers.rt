//! Numbers, lists of numbers and grids as they are spelled on the command line.

ghost use Rattle.std.specs.Prelude.{◌≡◌, ◌≤◌, IfOk, IfSome, length, map};
ghost use Rattle.std.specs.Str.{all_ascii_digits};
ghost use Rattle.lab_words.specs.Spelling.{grid_by, grid_of, is_number, never_falls, number_of, numbers_of, pieces_of, utilities_spelled};
ghost use Rattle.lab_words.specs.Values.{Understands};

use crate::WordsErr;
use lab_model::{MOST_RUNGS, MOST_UTILITY};
use std::alloc::{AllocError, Global};

fn all_digits(bytes: &[u8]) -> bool
    ensures { result ≡ all_ascii_digits bytes.now }
{
    for byte in bytes {
        if !byte.is_ascii_digit() {
            return false;
        }
    }
    true
}

fn is_number(bytes: &[u8]) -> bool
    ensures { result ≡ is_number bytes.now }
{
    match bytes {
        [] => false,
        [_] => all_digits(bytes),
        [first, ..] => *first != b'0' && all_digits(bytes),
    }
}

/// The number from `least` to `most` that the text spells: `0`, or digits of which the first
/// isn't `0`.
#[tactic(auto, unfolding(crate::specs::Spelling::number_of))]
pub(crate) fn number_of(text: &str, least: u32, most: u32) -> Option<u32>
    ensures value { result ≡ number_of least most text.now }
    ensures within { IfSome result (λ n. n ≤ most) }
{
    if !is_number(text.as_bytes()) {
        return None;
    }
    match text.parse::<u32>() {
        Ok(number) if least <= number && number <= most => Some(number),
        _ => None,
    }
}

/// The same for a small number.
pub(crate) fn small_number_of(text: &str, least: u8, most: u8) -> Option<u8>
    ensures { result ≡ number_of least most text.now }
{
    match number_of(text, u32::from(least), u32::from(most)) {
        Some(number) => Some(number as u8),
        None => None,
    }
}

/// What stands between the commas of a text.
fn pieces_of<'a>(alloc: Global, text: &'a str) -> Result<Vec<&'a str>, AllocError>
    ensures { IfOk result (λ pieces. map (λ piece. piece.now) pieces.items
        ≡ pieces_of text.entry.now) }
{
    text.split(',').collect(alloc)
}

/// One number and more, joined by `,`: at most `count`, each from `least` to `most`.
#[tactic(auto, unfolding(crate::specs::Spelling::numbers_of))]
fn numbers_of(
    alloc: Global,
    text: &str,
    count: usize,
    least: u32,
    most: u32,
) -> Result<Vec<u32>, WordsErr>
    ensures { Understands (λ numbers. numbers.items) result (numbers_of count least most text.now) }
{
    let pieces = pieces_of(alloc, text)?;
    if pieces.len() > count {
        return Err(WordsErr::Usage);
    }
    let mut numbers = Vec::new(alloc);
    for piece in &pieces {
        match number_of(piece, least, most) {
            Some(number) => numbers.push(number)?,
            None => return Err(WordsErr::Usage),
        }
    }
    Ok(numbers)
}

/// The same for small numbers.
#[tactic(auto, unfolding(crate::specs::Spelling::numbers_of))]
pub(crate) fn small_numbers_of(
    alloc: Global,
    text: &str,
    count: usize,
    least: u8,
    most: u8,
) -> Result<Vec<u8>, WordsErr>
    ensures { Understands (λ numbers. numbers.items) result (numbers_of count least most text.now) }
{
    let pieces = pieces_of(alloc, text)?;
    if pieces.len() > count {
        return Err(WordsErr::Usage);
    }
    let mut numbers = Vec::new(alloc);
    for piece in &pieces {
        match small_number_of(piece, least, most) {
            Some(number) => numbers.push(number)?,
            None => return Err(WordsErr::Usage),
        }
    }
    Ok(numbers)
}

/// Whether no number is below the one before it.
fn never_falls(numbers: &[u32]) -> bool
    ensures { result ≡ never_falls numbers.now }
{
    numbers.is_sorted()
}

/// 1 to 16 utilities joined by `,`, non-decreasing, each from 0 to 1000000.
#[tactic(auto, unfolding(crate::specs::Spelling::utilities_spelled))]
pub(crate) fn utilities_of(alloc: Global, text: &str) -> Result<Vec<u32>, WordsErr>
    ensures { Understands (λ numbers. numbers.items) result (utilities_spelled text.now) }
{
    let utilities = numbers_of(alloc, text, MOST_RUNGS, 0, MOST_UTILITY)?;
    if never_falls(&utilities) {
        Ok(utilities)
    } else {
        Err(WordsErr::Usage)
    }
}

/// The grid of two texts: milliseconds from 1 to 10000, thousandths of a point from 1 to 1000000.
fn grid_by(time: &str, value: &str) -> Option<(u32, u32)>
    ensures { result ≡ grid_by time.now value.now }
{
    match (number_of(time, 1, 10_000), number_of(value, 1, 1_000_000)) {
        (Some(ms), Some(thousandths)) => Some((ms, thousandths)),
        _ => None,
    }
}

/// The grid that the text spells: its time, a `,` and its value.
#[tactic(auto, unfolding(crate::specs::Spelling::grid_of))]
pub(crate) fn grid_of(text: &str) -> Option<(u32, u32)>
    ensures { result ≡ grid_of text.now }
{
    match text.split_once(',') {
        Some((time, value)) => grid_by(time, value),
        None => None,
    }
}
