//! The lines before the chains, and those of a gap certificate before all others.
ghost use Rattle.std.specs.Prelude.{◌≡◌, ◌+◌, ◌≤◌, ◌<◌, All, IfErr, IfOk};
ghost use Rattle.lab_model.specs.Reading.{Gives};
ghost use Rattle.lab_model.specs.Film.{IsWithin};
ghost use Rattle.labels.specs.Form.{HasDigits, rung_digits};
ghost use Rattle.certificate_text.specs.Line.{read_line};
ghost use Rattle.certificate_text.specs.Grammar.{amount_line, count_line, list_line};
ghost use Rattle.certificate_text.specs.Form.{certificate_parts};
ghost use Rattle.certificate_text.specs.Reading.{counts_of, place_of, read_bound, read_counts, read_head, read_table, read_version};

use crate::certificate::Certificate;
use crate::fields::{
    Digits, NumberRange, PLACE_DIGITS, push, push_numbers, read_known, read_signed, read_within,
    read_word, stop_before,
};
use crate::places::{Counts, Heading, Opening, Spot};
use lab_model::InputFault;
use std::alloc::Global;

/// The most labels of a certificate.
const MOST_LABELS: u32 = 1_000_000;
/// The most segments.
pub const MOST_SEGMENTS: u32 = 2000;
/// The most rungs.
pub const MOST_RUNGS: u32 = 16;
/// The most digits of a score.
const SCORE_DIGITS: Digits = Digits { most: 24 };
/// The most digits of a rung.
pub const RUNG_DIGITS: usize = 2;

/// The number of a line of a word and a number from 1 to the most, and what stands behind the line. It is refused
/// exactly where the line is another.
#[tactic(auto, unfolding(crate::specs::Line::read_line))]
pub fn read_count<'a>(
    row: u32,
    word: &str,
    most: u32,
    bytes: &'a [u8],
) -> Result<(u32, &'a [u8]), InputFault>
    ensures count { Gives (λ x. ((x.0, tt), x.1.now)) result
        (read_line row (count_line word.now most) bytes.now) }
    ensures within { IfOk result (λ x. IsWithin 1 most x.0) }
{
    let rest = read_word(row, word, b' ', bytes)?;
    read_within(row, NumberRange { low: 1, high: most }, b'\n', rest)
}

/// The first line: whether its version is that of a setup with a utility table.
#[tactic(auto, unfolding(crate::specs::Reading::read_version, crate::specs::Line::read_line))]
fn read_version(row: u32, bytes: &[u8]) -> Result<(bool, &[u8]), InputFault>
    ensures { Gives (λ x. (x.0, x.1.now)) result (read_version row bytes.now) }
{
    let rest = read_word(row, "abrlab", b' ', bytes)?;
    let (version, rest) = read_count(row, "certificate", 2, rest)?;
    Ok((version == 2, rest))
}

/// The line of version 2.
#[tactic(auto, unfolding(crate::specs::Reading::read_table, crate::specs::Line::read_line))]
fn read_table(row: u32, table: bool, bytes: &[u8]) -> Result<&[u8], InputFault>
    ensures { Gives (λ rest. (tt, rest.now)) result (read_table row table bytes.now) }
{
    if !table {
        return Ok(bytes);
    }
    let rest = read_word(row, "utilities", b' ', bytes)?;
    read_word(row, "table", b'\n', rest)
}

/// The number of a line of a word and a number of thousandths of a point, which has at most 24 digits, and what stands
/// behind the line. It is refused exactly where the line is another.
#[tactic(auto, unfolding(crate::specs::Line::read_line))]
pub fn read_amount<'a>(
    row: u32,
    word: &str,
    bytes: &'a [u8],
) -> Result<(i128, &'a [u8]), InputFault>
    ensures { Gives (λ x. ((x.0, tt), x.1.now)) result
        (read_line row (amount_line word.now) bytes.now) }
{
    let rest = read_word(row, word, b' ', bytes)?;
    read_signed(row, SCORE_DIGITS, b'\n', rest)
}

/// The two lines that stand before the others in a gap certificate: the bound.
#[tactic(auto, unfolding(crate::specs::Reading::read_bound, crate::specs::Line::read_line))]
pub(crate) fn read_bound(bytes: &[u8]) -> Result<(i128, &[u8]), InputFault>
    ensures { Gives (λ x. (x.0, x.1.now)) result (read_bound bytes.now) }
{
    let rest = read_word(1, "abrlab", b' ', bytes)?;
    let rest = read_word(1, "gap", b' ', rest)?;
    let rest = read_known(1, 1, b'\n', rest)?;
    read_amount(2, "bound", rest)
}

/// A line of a word and numbers.
#[derive(Clone, Copy)]
pub struct NumberList<'a> {
    /// The word.
    pub word: &'a str,
    /// How many numbers there are.
    pub count: usize,
    /// The most digits of each, 7 or fewer.
    pub digits: usize,
    ghost few: { digits ≤ 7 },
}

/// The numbers of such a line, and what stands behind the line. It is refused exactly where the line is another.
#[tactic(auto, unfolding(crate::specs::Line::read_line))]
pub fn read_list<'a>(
    alloc: Global,
    row: u32,
    list: NumberList<'_>,
    bytes: &'a [u8],
) -> Result<(Vec<u32>, &'a [u8]), InputFault>
    ensures { Gives (λ x. (x.0.items, x.1.now)) result
        (read_line row (list_line list.entry.word.now list.entry.count list.entry.digits)
        bytes.now) }
{
    let rest = read_word(row, list.word, stop_before(list.count), bytes)?;
    let mut numbers = Vec::new(alloc);
    let rest = push_numbers(&mut numbers, row, list.digits, list.count, rest)?;
    Ok((numbers, rest))
}

/// The lines of version and counts, behind those of a heading.
#[tactic(auto, unfolding(crate::specs::Reading::read_counts))]
fn read_counts(heading: Heading, bytes: &[u8]) -> Result<(Counts, &[u8]), InputFault>
    ensures { Gives (λ x. (counts_of x.0, x.1.now)) result (read_counts heading.lines bytes.now) }
{
    let row = heading.lines;
    let (table, rest) = read_version(row + 1, bytes)?;
    let (segments, rest) = read_count(row + 2, "segments", MOST_SEGMENTS, rest)?;
    let (rungs, rest) = read_count(row + 3, "rungs", MOST_RUNGS, rest)?;
    let rest = read_table(row + 4, table, rest)?;
    let counts = Counts {
        table,
        segments: segments as u16,
        rungs: rungs as u8,
    };
    Ok((counts, rest))
}

/// Numbers of at most 2 digits in one byte each, if memory allows it.
pub fn small_numbers(alloc: Global, numbers: &[u32]) -> Result<Vec<u8>, InputFault>
    requires { All (HasDigits rung_digits) numbers.now }
    ensures numbers { IfOk result (λ v. v.items ≡ numbers.now) }
    ensures memory { IfErr result (λ e. e ≡ InputFault.Memory) }
{
    let mut small = Vec::new(alloc);
    for number in numbers {
        push(&mut small, *number as u8)?;
    }
    Ok(small)
}

/// What stands before the chains, behind the lines of a heading.
#[tactic(auto, unfolding(crate::specs::Reading::read_head))]
pub(crate) fn read_head(
    alloc: Global,
    heading: Heading,
    bytes: &[u8],
) -> Result<Opening<'_>, InputFault>
    ensures { Gives (λ head. (certificate_parts head.certificate, place_of head.spot)) result
        (read_head heading.lines bytes.now) }
{
    let (counts, rest) = read_counts(heading, bytes)?;
    let row = heading.lines + if counts.table { 5 } else { 4 };
    let (score, rest) = read_amount(row, "score", rest)?;
    let list = NumberList {
        word: "plan",
        count: counts.segments as usize,
        digits: RUNG_DIGITS,
    };
    let (plan, rest) = read_list(alloc, row + 1, list, rest)?;
    let list = NumberList {
        word: "start",
        count: counts.rungs as usize,
        digits: PLACE_DIGITS,
    };
    let (starts, rest) = read_list(alloc, row + 2, list, rest)?;
    let certificate = Certificate {
        table: counts.table,
        segments: counts.segments,
        rungs: counts.rungs,
        score,
        plan: small_numbers(alloc, &plan)?,
        starts,
        chains: Vec::new(alloc),
    };
    let spot = Spot {
        counts,
        number: 0,
        row: row + 3,
        left: MOST_LABELS,
        rest,
    };
    Ok(Opening { certificate, spot })
}
