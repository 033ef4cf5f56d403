//! The fields of a line, read one after the other.
ghost use Rattle.std.specs.Prelude.{◌≡◌, ◌==◌, ◌≤◌, ◌∷◌, ◌++◌, [], true, length, position, IfErr, IfOk, IfSome, OnOk, pos};
ghost use Rattle.std.specs.Str.{all_ascii_digits};
ghost use Rattle.std.specs.Str.Parse.{digits_value};
ghost use Rattle.lab_io.specs.Number.{is_number, numeral};
ghost use Rattle.lab_model.specs.Reading.{Gives};
ghost use Rattle.lab_model.specs.Film.{IsWithin};
ghost use Rattle.labels.specs.Form.{HasDigits, HasSignedDigits};
ghost use Rattle.certificate_text.specs.Fields.{line_refusal, negative_of, numbers_behind, read_field, read_known, read_number, read_numbers, read_signed, read_within, read_word, signed_of, some_at, stop_before, unsigned_of, value_if};

use lab_model::{InputFault, Key, Kind, Refusal};
use std::alloc::Global;

/// The most digits of a number that names a place, or counts.
pub(crate) const PLACE_DIGITS: usize = 7;

/// How many digits a number may have.
#[derive(Clone, Copy)]
pub(crate) struct Digits {
    /// The most, so few that each such number fits 128 bits.
    pub(crate) most: usize,
    ghost few: { most ≤ 24 },
}

/// From which number to which one a number may lie, both included.
#[derive(Clone, Copy)]
pub struct NumberRange {
    /// The least.
    pub low: u32,
    /// The greatest.
    pub high: u32,
}

/// The refusal that says that the line of this number, the first being 1, is the first without its form.
pub fn line_refusal(row: u32) -> InputFault
    ensures { result ≡ InputFault.Refused (line_refusal row) }
{
    InputFault::Refused(Refusal {
        kind: Kind::CertLine,
        key: Key::Line,
        row,
        column: 0,
    })
}

/// The value, where the test passes.
pub(crate) fn value_if<T: Drop>(row: u32, test: bool, value: T) -> Result<T, InputFault>
    ensures { Gives (λ x. x) result (value_if row test value) }
{
    if test {
        Ok(value)
    } else {
        Err(line_refusal(row))
    }
}

/// The place of the first byte that ends a field.
fn first_stop(stop: u8, bytes: &[u8]) -> Option<usize>
    ensures { result ≡ position (λ b. b == stop) bytes.now }
{
    bytes.iter().position(|byte| *byte == stop)
}

/// What stands before the first byte that ends a field, and what stands behind it.
pub(crate) fn read_field(row: u32, stop: u8, bytes: &[u8]) -> Result<(&[u8], &[u8]), InputFault>
    ensures { Gives (λ x. (x.0.now, x.1.now)) result (read_field row stop bytes.now) }
{
    match first_stop(stop, bytes) {
        Some(place) => Ok((&bytes[..place], &bytes[place + 1..])),
        None => Err(line_refusal(row)),
    }
}

/// What stands behind this word and the byte that ends it. It is refused exactly where the line goes on otherwise.
#[tactic(auto, unfolding(crate::specs::Fields::read_word))]
pub fn read_word<'a>(
    row: u32,
    word: &str,
    stop: u8,
    bytes: &'a [u8],
) -> Result<&'a [u8], InputFault>
    ensures { Gives (λ rest. rest.now) result (read_word row word.now stop bytes.now) }
{
    let (field, rest) = read_field(row, stop, bytes)?;
    value_if(row, field == word.as_bytes(), rest)
}

fn are_ascii_digits(bytes: &[u8]) -> bool
    ensures { result ≡ all_ascii_digits bytes.now }
{
    for byte in bytes {
        if !byte.is_ascii_digit() {
            return false;
        }
    }
    true
}

/// Whether a text is `0`, or digits of which the first isn't `0`.
fn is_number(text: &[u8]) -> bool
    ensures { result ≡ is_number text.now }
{
    match text {
        [] => false,
        [digit] => digit.is_ascii_digit(),
        [first, ..] => *first != b'0' && are_ascii_digits(text),
    }
}

/// The number that digits write.
fn value_of(digits: &[u8]) -> u128
    requires digits { all_ascii_digits digits.now ≡ true }
    requires few { length digits.now ≤ 24 }
    ensures { result ≡ digits_value 10 digits.now }
{
    let mut value = 0u128;
    for digit in digits {
        value = value * 10 + u128::from(*digit - b'0');
    }
    value
}

/// The number that a text of at most so many digits spells.
#[tactic(auto, unfolding(lab_io::specs::Number::numeral))]
fn numeral(digits: Digits, text: &[u8]) -> Option<u128>
    ensures number { result ≡ numeral digits.most text.now }
    ensures digits { IfSome result (λ n. HasDigits digits.most n) }
    ensures most { IfSome result (λ n. HasDigits 24 n) }
{
    if is_number(text) && text.len() <= digits.most {
        Some(value_of(text))
    } else {
        None
    }
}

/// A number of at most so many digits, and what stands behind it and the byte that ends it. It is refused exactly where
/// the line goes on otherwise.
#[tactic(auto, unfolding(crate::specs::Fields::read_number))]
pub fn read_number(
    row: u32,
    digits: usize,
    stop: u8,
    bytes: &[u8],
) -> Result<(u64, &[u8]), InputFault>
    requires { digits ≤ 18 }
    ensures number { Gives (λ x. (x.0, x.1.now)) result (read_number row digits stop bytes.now) }
    ensures digits { IfOk result (λ x. HasDigits digits x.0) }
{
    let (field, rest) = read_field(row, stop, bytes)?;
    match numeral(Digits { most: digits }, field) {
        Some(n) => Ok((n as u64, rest)),
        None => Err(line_refusal(row)),
    }
}

/// What stands behind this number and the byte that ends it. It is refused exactly where the line goes on otherwise.
#[tactic(auto, unfolding(crate::specs::Fields::read_known))]
pub fn read_known(row: u32, known: u32, stop: u8, bytes: &[u8]) -> Result<&[u8], InputFault>
    ensures { Gives (λ rest. rest.now) result (read_known row known stop bytes.now) }
{
    let (n, rest) = read_number(row, PLACE_DIGITS, stop, bytes)?;
    value_if(row, n == u64::from(known), rest)
}

/// A number of a range, and what stands behind it and the byte that ends it. It is refused exactly where the line
/// goes on otherwise.
#[tactic(auto, unfolding(crate::specs::Fields::read_within))]
pub fn read_within(
    row: u32,
    range: NumberRange,
    stop: u8,
    bytes: &[u8],
) -> Result<(u32, &[u8]), InputFault>
    ensures number { Gives (λ x. (x.0, x.1.now)) result
        (read_within row range.low range.high stop bytes.now) }
    ensures within { IfOk result (λ x. IsWithin range.low range.high x.0) }
{
    let (n, rest) = read_number(row, PLACE_DIGITS, stop, bytes)?;
    if u64::from(range.low) <= n && n <= u64::from(range.high) {
        Ok((n as u32, rest))
    } else {
        Err(line_refusal(row))
    }
}

/// The same number with a sign.
fn to_signed(n: u128) -> i128
    requires { HasDigits 24 n }
    ensures { result ≡ pos n }
{
    n as i128
}

/// The number below 0 that a text spells behind its `-`.
fn negative_of(row: u32, digits: Digits, text: &[u8]) -> Result<i128, InputFault>
    ensures number { Gives (λ z. z) result (negative_of row digits.most text.now) }
    ensures digits { IfOk result (λ z. HasSignedDigits digits.most z) }
{
    match numeral(digits, text) {
        Some(n) if n >= 1 => Ok(-to_signed(n)),
        _ => Err(line_refusal(row)),
    }
}

/// The number that a text spells, with a sign.
fn unsigned_of(row: u32, digits: Digits, text: &[u8]) -> Result<i128, InputFault>
    ensures number { Gives (λ z. z) result (unsigned_of row digits.most text.now) }
    ensures digits { IfOk result (λ z. HasSignedDigits digits.most z) }
{
    match numeral(digits, text) {
        Some(n) => Ok(to_signed(n)),
        None => Err(line_refusal(row)),
    }
}

/// The number that a text spells, which may have a `-` before a number that isn't 0.
#[tactic(auto, unfolding(crate::specs::Fields::signed_of))]
fn signed_of(row: u32, digits: Digits, text: &[u8]) -> Result<i128, InputFault>
    ensures number { Gives (λ z. z) result (signed_of row digits.most text.now) }
    ensures digits { IfOk result (λ z. HasSignedDigits digits.most z) }
{
    match text {
        [] => Err(line_refusal(row)),
        [b'-', magnitude @ ..] => negative_of(row, digits, magnitude),
        [_, ..] => unsigned_of(row, digits, text),
    }
}

/// Such a number.
#[tactic(auto, unfolding(crate::specs::Fields::read_signed))]
pub(crate) fn read_signed(
    row: u32,
    digits: Digits,
    stop: u8,
    bytes: &[u8],
) -> Result<(i128, &[u8]), InputFault>
    ensures number { Gives (λ x. (x.0, x.1.now)) result
        (read_signed row digits.most stop bytes.now) }
    ensures digits { IfOk result (λ x. HasSignedDigits digits.most x.0) }
{
    let (field, rest) = read_field(row, stop, bytes)?;
    let z = signed_of(row, digits, field)?;
    Ok((z, rest))
}

/// The byte that ends a field, where so many more follow in its line.
pub(crate) fn stop_before(more: usize) -> u8
    ensures { result ≡ stop_before more }
{
    if more == 0 { b'\n' } else { b' ' }
}

/// Appends a value, if memory allows it.
pub fn push<T: Drop>(into: &mut Vec<T>, value: T) -> Result<(), InputFault>
    ensures ok { OnOk result (into.new.items ≡ into.old.items ++ value ∷ []) }
    ensures memory { IfErr result (λ fault. fault ≡ InputFault.Memory) }
{
    into.push(value).map_err(|_| InputFault::Memory)
}

/// Appends so many numbers of at most 7 digits, which stand to the end of a line.
pub(crate) fn push_numbers<'a>(
    into: &mut Vec<u32>,
    row: u32,
    digits: usize,
    count: usize,
    bytes: &'a [u8],
) -> Result<&'a [u8], InputFault>
    requires { digits ≤ 7 }
    ensures { Gives (λ rest. (into.new.items, rest.now)) result
        (numbers_behind into.old.items (read_numbers row digits count bytes.now)) }
{
    let mut rest = bytes;
    for i in 0..count {
        let (n, behind) = read_number(row, digits, stop_before(count - i - 1), rest)?;
        push(into, n as u32)?;
        rest = behind;
    }
    Ok(rest)
}
