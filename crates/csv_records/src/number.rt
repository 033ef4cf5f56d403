//! Fields that are numbers.

ghost use Rattle.std.specs.Prelude.{◌≡◌, ◌-◌, ◌*◌, ◌+◌, ◌^◌, ◌<◌, ◌≤◌, true, IfOk, min, length, position};
ghost use Rattle.std.specs.Str.{all_ascii_digits};
ghost use Rattle.std.specs.Str.Parse.{digits_value};
ghost use Rattle.csv_records.specs.Field.{are_digits, fraction, csv_number_within, is_decimal, is_in_thousandths, is_point, spelling_fault, thousandths, thousandths_of, whole_number, whole_part};

/// What is wrong with a field that is to be a number.
#[derive(Clone, Copy, Debug, PartialEq, Drop)]
pub enum Fault {
    /// The number has digits behind a point that aren't asked for.
    NotWhole,
    /// The field is no number.
    WrongKind,
    /// The number is outside its range.
    OutOfRange,
}

fn are_ascii_digits(bytes: &[u8]) -> bool
    ensures { result ≡ all_ascii_digits bytes.now }
{
    for byte in bytes {
        if !byte.is_ascii_digit() {
            return false;
        }
    }
    true
}

fn are_digits(bytes: &[u8]) -> bool
    ensures { result ≡ are_digits bytes.now }
{
    !bytes.is_empty() && are_ascii_digits(bytes)
}

/// The number that digits write, or the greatest `u64` where it is greater.
fn value_of(digits: &[u8]) -> u64
    requires { all_ascii_digits digits.now ≡ true }
    ensures { result ≡ min (digits_value 10 digits.now) (2 ^ 64 - 1) }
{
    let mut value = 0u64;
    for digit in digits {
        value = value
            .saturating_mul(10)
            .saturating_add(u64::from(*digit - b'0'));
    }
    value
}

fn point_in(field: &[u8]) -> Option<usize>
    ensures { result ≡ position is_point field.now }
{
    field.iter().position(|byte| *byte == b'.')
}

/// What stands before the first point, and what stands behind it.
fn parts_of(field: &[u8]) -> (&[u8], &[u8])
    ensures whole { result.0.now ≡ whole_part field.now }
    ensures fraction { result.1.now ≡ fraction field.now }
{
    match point_in(field) {
        Some(i) => (&field[..i], &field[i + 1..]),
        None => (field, &[]),
    }
}

/// Whether a field is digits, a point and digits.
fn is_decimal(field: &[u8]) -> bool
    ensures { result ≡ is_decimal field.now }
{
    let (whole, fraction) = parts_of(field);
    are_digits(whole) && are_digits(fraction)
}

fn spelling_fault(field: &[u8]) -> Fault
    ensures { result ≡ spelling_fault field.now }
{
    if is_decimal(field) {
        Fault::NotWhole
    } else {
        Fault::WrongKind
    }
}

fn csv_number_within(least: u64, most: u64, number: u64) -> Result<u64, Fault>
    ensures value { result ≡ csv_number_within least most number }
    ensures most { IfOk result (λ n. n ≤ most) }
{
    if least <= number && number <= most {
        Ok(number)
    } else {
        Err(Fault::OutOfRange)
    }
}

/// The tests of a whole number from `least` to `most`: one or more ASCII digits, of any length. Else the
/// fault is `NotWhole` for digits, a point and digits, `WrongKind` for anything else, and then
/// `OutOfRange`.
pub fn whole_number(field: &[u8], least: u32, most: u32) -> Result<u32, Fault>
    ensures { result ≡ whole_number least most field.now }
{
    if !are_digits(field) {
        return Err(spelling_fault(field));
    }
    match csv_number_within(u64::from(least), u64::from(most), value_of(field)) {
        Ok(number) => Ok(number as u32),
        Err(fault) => Err(fault),
    }
}

/// How many thousandths one unit is at the last of so many places behind the point.
fn scale_of(places: usize) -> u64
    requires least { 1 ≤ places }
    requires most { places ≤ 3 }
    ensures { result ≡ 10 ^ (3 - places) }
{
    match places {
        1 => 100,
        2 => 10,
        _ => 1,
    }
}

/// Whether a field is digits, a point and one to three digits.
fn is_in_thousandths(field: &[u8]) -> bool
    ensures { result ≡ is_in_thousandths field.now }
{
    is_decimal(field) && parts_of(field).1.len() <= 3
}

/// The thousandths that such a field says, or the greatest `u64` where they are more.
fn thousandths_of(field: &[u8]) -> u64
    requires { is_in_thousandths field.now ≡ true }
    ensures { result ≡ min (thousandths_of field.now) (2 ^ 64 - 1) }
{
    let (whole, fraction) = parts_of(field);
    let rest = value_of(fraction).saturating_mul(scale_of(fraction.len()));
    value_of(whole).saturating_mul(1000).saturating_add(rest)
}

/// The tests of a number of thousandths that stands for `least` to `most` wholes: one or more ASCII
/// digits, or digits, a point and one to three digits. Else the fault is `NotWhole` for digits, a point
/// and more digits, `WrongKind` for anything else, and then `OutOfRange`. The answer counts thousandths.
pub fn thousandths(field: &[u8], least: u32, most: u32) -> Result<u64, Fault>
    ensures { result ≡ thousandths least most field.now }
{
    let least = 1000 * u64::from(least);
    let most = 1000 * u64::from(most);
    if are_digits(field) {
        csv_number_within(least, most, value_of(field).saturating_mul(1000))
    } else if is_in_thousandths(field) {
        csv_number_within(least, most, thousandths_of(field))
    } else {
        Err(spelling_fault(field))
    }
}
