//! The chains, one after the other, and the last line.
ghost use Rattle.std.specs.Prelude.{◌≡◌, ◌+◌, ◌*◌, ◌≤◌, ◌<◌, map, IfOk};
ghost use Rattle.lab_model.specs.Reading.{Gives};
ghost use Rattle.labels.specs.Parts.{chain_parts};
ghost use Rattle.labels.specs.Form.{names_per};
ghost use Rattle.certificate_text.specs.Reading.{IsFurther, behind, place_of, read_chain, read_chains, read_end, read_label, read_label_count, read_labels, read_last, read_nothing};

use crate::fields::{
    Digits, PLACE_DIGITS, line_refusal, push, push_numbers, read_known, read_number, read_signed,
    read_word, stop_before,
};
use crate::places::Spot;
use lab_model::{InputFault, Label};
use labels::Chain;
use std::alloc::Global;

/// The most digits of a label's numbers.
const LABEL_DIGITS: usize = 18;
/// The same of its value, which may have a `-`.
const SIGNED_DIGITS: Digits = Digits { most: LABEL_DIGITS };

/// Appends a label with so many names.
#[tactic(auto, unfolding(crate::specs::Reading::read_label, crate::specs::Line::read_line))]
fn push_label<'a>(
    chain: &mut Chain,
    row: u32,
    per: usize,
    bytes: &'a [u8],
) -> Result<&'a [u8], InputFault>
    ensures { Gives (λ rest. (chain_parts chain.new, rest.now)) result
        (behind (chain_parts chain.old) (read_label row per bytes.now)) }
{
    let (t, rest) = read_number(row, LABEL_DIGITS, b' ', bytes)?;
    let (p, rest) = read_number(row, LABEL_DIGITS, b' ', rest)?;
    let (v, rest) = read_signed(row, SIGNED_DIGITS, stop_before(per), rest)?;
    push(&mut chain.labels, Label { t, p, v: v as i64 })?;
    push_numbers(&mut chain.names, row, PLACE_DIGITS, per, rest)
}

/// Appends so many labels, each in a line of its own.
fn push_labels<'a>(
    chain: &mut Chain,
    row: u32,
    per: usize,
    count: u32,
    bytes: &'a [u8],
) -> Result<&'a [u8], InputFault>
    requires { row + count ≤ 4000000000 }
    ensures { Gives (λ rest. (chain_parts chain.new, rest.now)) result
        (behind (chain_parts chain.old) (read_labels row per count bytes.now)) }
{
    let mut rest = bytes;
    for i in 0..count {
        rest = push_label(chain, row + i, per, rest)?;
    }
    Ok(rest)
}

/// The line before the labels of a chain: how many they are.
#[tactic(auto, unfolding(crate::specs::Reading::read_label_count, crate::specs::Line::read_line))]
fn read_label_count<'a>(
    segment: u32,
    rung: u32,
    at: Spot<'a>,
) -> Result<(u32, &'a [u8]), InputFault>
    ensures count { Gives (λ x. (x.0, x.1.now)) result
        (read_label_count at.entry.row segment rung at.entry.left at.entry.rest.now) }
    ensures left { IfOk result (λ x. x.0 ≤ at.entry.left) }
{
    let rest = read_word(at.row, "layer", b' ', at.rest)?;
    let rest = read_known(at.row, segment, b' ', rest)?;
    let rest = read_known(at.row, rung, b' ', rest)?;
    let (count, rest) = read_number(at.row, PLACE_DIGITS, b'\n', rest)?;
    if count <= u64::from(at.left) {
        Ok((count as u32, rest))
    } else {
        Err(line_refusal(at.row))
    }
}

/// The next chain, which is that of a segment and rung, and whose labels have so many names each.
#[tactic(auto, unfolding(crate::specs::Reading::read_chain))]
fn read_chain<'a>(
    alloc: Global,
    per: usize,
    segment: u32,
    rung: u32,
    at: Spot<'a>,
) -> Result<(Chain, Spot<'a>), InputFault>
    requires { at.number < at.counts.segments * at.counts.rungs }
    ensures chain { Gives (λ x. (chain_parts x.0, place_of x.1)) result
        (read_chain per segment rung (place_of at.entry)) }
    ensures further { IfOk result (λ x. IsFurther 1 at.entry x.1) }
{
    let (count, rest) = read_label_count(segment, rung, at)?;
    let mut chain = Chain {
        labels: Vec::new(alloc),
        names: Vec::new(alloc),
    };
    let rest = push_labels(&mut chain, at.row + 1, per, count, rest)?;
    let spot = Spot {
        counts: at.counts,
        number: at.number + 1,
        row: at.row + 1 + count,
        left: at.left - count,
        rest,
    };
    Ok((chain, spot))
}

/// How many names stand behind each label of a segment.
pub(crate) fn names_per(segments: usize, rungs: usize, segment: usize) -> usize
    requires { segment < segments }
    ensures { result ≡ names_per segments rungs segment }
{
    if segment + 1 == segments { 0 } else { rungs }
}

/// The next chains, so many of them.
pub(crate) fn read_chains<'a>(
    alloc: Global,
    count: u32,
    at: Spot<'a>,
) -> Result<(Vec<Chain>, Spot<'a>), InputFault>
    requires { at.number + count ≤ at.counts.segments * at.counts.rungs }
    ensures chains { Gives (λ x. (map chain_parts x.0.items, place_of x.1)) result
        (read_chains at.entry.counts.segments at.entry.counts.rungs at.entry.number
        count (place_of at.entry)) }
    ensures further { IfOk result (λ x. IsFurther count at.entry x.1) }
{
    let (segments, rungs) = (at.counts.segments as u32, at.counts.rungs as u32);
    let mut chains = Vec::new(alloc);
    let mut spot = at;
    for i in 0..count {
        let segment = (at.number + i) / rungs;
        let rung = (at.number + i) % rungs;
        let per = names_per(segments as usize, rungs as usize, segment as usize);
        let (chain, behind) = read_chain(alloc, per, segment, rung, spot)?;
        push(&mut chains, chain)?;
        spot = behind;
    }
    Ok((chains, spot))
}

/// Reads the last line, `end`, which has this number. It is refused exactly where the line is another, or where bytes
/// stand behind it: these are a bad line with the next number.
#[tactic(auto, unfolding(crate::specs::Reading::read_last, crate::specs::Line::read_line))]
pub fn read_last(row: u32, bytes: &[u8]) -> Result<(), InputFault>
    requires { row ≤ 4000000000 }
    ensures { Gives (λ done. done) result (read_last row bytes.now) }
{
    match read_word(row, "end", b'\n', bytes)? {
        [] => Ok(()),
        [_, ..] => Err(line_refusal(row + 1)),
    }
}

/// The last line, where a reader of chains stands.
pub(crate) fn read_end(at: Spot<'_>) -> Result<(), InputFault>
    ensures { Gives (λ done. done) result (read_end (place_of at.entry)) }
{
    read_last(at.row, at.rest)
}
