//! The reader of JSON manifests.
//!
//! A manifest is an object with the keys of Sabre, the simulator of Spiteri, Sitaraman and Sparacio
//! (MMSys 2018): `segment_duration_ms`, a number; `bitrates_kbps`, a rising list of numbers; and
//! `segment_sizes_bits`, a list with a row for each segment, which has a size for each bitrate. Other
//! keys are passed over. The keys are tested in this order, and each list from its first member on.
#![tactic(auto)]

ghost use Rattle.std.specs.Prelude.{◌≡◌, ◌∷◌, ◌++◌, [], ◌≤◌, IfOk, IfErr, OnOk, None, length, map};
ghost use Rattle.serde_json.specs.View.{view};
ghost use Rattle.std.specs.List.{concat};
ghost use Rattle.lab_model.specs.Film.{most_rungs, most_segments};
ghost use Rattle.lab_model.specs.Reading.{Gives};
ghost use Rattle.lab_model.specs.Steps.{map_ok};
ghost use Rattle.reader_faults.specs.Each.{each_after, each_from};
ghost use Rattle.manifest_reader.specs.Manifest.{bitrate_in, bitrates_of, members_at, film_of, manifest_of, sizes_in_row, row_members, seg_ms_of, row_of_width, size_in, sizes_of, manifest_object};

use lab_model::{
    InputFault, Key, Kind, MOST_BITRATE_KBPS, MOST_RUNGS, MOST_SEGMENT_BITS, MOST_SEGMENT_MS,
    MOST_SEGMENTS, Manifest,
};
use reader_faults::{members_within, refusal, value_at, whole_value};
use serde_json::Value;
use std::alloc::Global;

/// The object that the bytes are.
fn whole_object(alloc: Global, bytes: &[u8]) -> Result<Value, InputFault>
    ensures { Gives view result (manifest_object bytes.now) }
{
    let value = whole_value(alloc, bytes)?;
    value_at(json_fields::object_from(&value), Key::Whole, 0, 0)?;
    Ok(value)
}

/// The duration of a segment.
fn seg_ms_of(object: &Value) -> Result<u32, InputFault>
    ensures { Gives (λ n. n) result (seg_ms_of (view object.now)) }
{
    value_at(
        json_fields::number_under(object, "segment_duration_ms", 1, MOST_SEGMENT_MS),
        Key::SegmentDuration,
        0,
        0,
    )
}

/// The list of 1 to `most` members under a key.
fn members_at<'a>(
    object: &'a Value,
    name: &str,
    key: Key,
    most: usize,
) -> Result<&'a [Value], InputFault>
    ensures list { Gives (λ v. map view v.now) result
        (members_at key name.now most (view object.now)) }
    ensures most { IfOk result (λ v. length v.now ≤ most) }
{
    let values = value_at(json_fields::list_under(object, name), key, 0, 0)?;
    members_within(values, key, most)
}

/// The bitrate in a column, which is greater than the one before.
fn bitrate_in(value: &Value, before: Option<u32>, column: u32) -> Result<u32, InputFault>
    ensures { Gives (λ n. n) result (bitrate_in before column (view value.now)) }
{
    let bitrate = value_at(
        json_fields::number_from(value, 1, MOST_BITRATE_KBPS),
        Key::Bitrates,
        0,
        column,
    )?;
    match before {
        Some(before) if bitrate <= before => Err(refusal(Kind::Order, Key::Bitrates, 0, column)),
        _ => Ok(bitrate),
    }
}

/// The rising bitrates of a list.
fn rising_bitrates(alloc: Global, values: &[Value]) -> Result<Vec<u32>, InputFault>
    requires { length values.now ≤ most_segments }
    ensures { Gives (λ v. v.items) result (each_after bitrate_in None 1 (map view values.now)) }
{
    let mut bitrates = Vec::new(alloc);
    let mut before = None;
    for (i, value) in values.iter().enumerate() {
        let bitrate = bitrate_in(value, before, i as u32 + 1)?;
        bitrates.push(bitrate)?;
        before = Some(bitrate);
    }
    Ok(bitrates)
}

/// The ladder of bitrates.
fn bitrates_of(alloc: Global, object: &Value) -> Result<Vec<u32>, InputFault>
    ensures { Gives (λ v. v.items) result (bitrates_of (view object.now)) }
{
    let values = members_at(object, "bitrates_kbps", Key::Bitrates, MOST_RUNGS)?;
    rising_bitrates(alloc, values)
}

/// The size in a row and column.
fn size_in(value: &Value, row: u32, column: u32) -> Result<u32, InputFault>
    ensures { Gives (λ n. n) result (size_in row column (view value.now)) }
{
    value_at(
        json_fields::number_from(value, 1, MOST_SEGMENT_BITS),
        Key::SegmentSizes,
        row,
        column,
    )
}

/// Appends the sizes of a row.
fn push_sizes(sizes: &mut Vec<u32>, values: &[Value], row: u32) -> Result<(), InputFault>
    requires { length values.now ≤ most_rungs }
    ensures { Gives (λ _. sizes.new.items) result
        (map_ok (λ xs. sizes.old.items ++ xs) (each_from (size_in row) 1 (map view values.now))) }
{
    for (i, value) in values.iter().enumerate() {
        let size = size_in(value, row, i as u32 + 1)?;
        sizes.push(size)?;
    }
    Ok(())
}

/// A list, if it has a member for each rung.
fn row_of_width(values: &[Value], rungs: usize, row: u32) -> Result<&[Value], InputFault>
    ensures list { Gives (λ v. map view v.now) result (row_of_width rungs row (map view values.now)) }
    ensures count { IfOk result (λ v. length v.now ≡ rungs) }
{
    if values.len() == rungs {
        Ok(values)
    } else {
        Err(refusal(Kind::Shape, Key::SegmentSizes, row, 0))
    }
}

/// The members of a row, one for each rung.
fn row_members(value: &Value, rungs: usize, row: u32) -> Result<&[Value], InputFault>
    ensures list { Gives (λ v. map view v.now) result (row_members rungs row (view value.now)) }
    ensures count { IfOk result (λ v. length v.now ≡ rungs) }
{
    let values = value_at(json_fields::list_from(value), Key::SegmentSizes, row, 0)?;
    row_of_width(values, rungs, row)
}

/// Appends a row, which is a list of a size for each rung.
fn push_row(sizes: &mut Vec<u32>, value: &Value, rungs: usize, row: u32) -> Result<(), InputFault>
    requires { rungs ≤ most_rungs }
    ensures { Gives (λ _. sizes.new.items) result
        (map_ok (λ xs. sizes.old.items ++ xs) (sizes_in_row rungs row (view value.now))) }
{
    let values = row_members(value, rungs, row)?;
    push_sizes(sizes, values, row)
}

/// The sizes of a list of rows, one row after the other.
fn all_sizes(alloc: Global, values: &[Value], rungs: usize) -> Result<Vec<u32>, InputFault>
    requires count { length values.now ≤ most_segments }
    requires rungs { rungs ≤ most_rungs }
    ensures { Gives (λ v. v.items) result
        (map_ok concat (each_from (sizes_in_row rungs) 1 (map view values.now))) }
{
    let mut sizes = Vec::new(alloc);
    for (i, value) in values.iter().enumerate() {
        push_row(&mut sizes, value, rungs, i as u32 + 1)?;
    }
    Ok(sizes)
}

/// The sizes, segment by segment and in each rung by rung.
fn sizes_of(alloc: Global, object: &Value, rungs: usize) -> Result<Vec<u32>, InputFault>
    requires { rungs ≤ most_rungs }
    ensures { Gives (λ v. v.items) result (sizes_of rungs (view object.now)) }
{
    let values = members_at(
        object,
        "segment_sizes_bits",
        Key::SegmentSizes,
        MOST_SEGMENTS,
    )?;
    all_sizes(alloc, values, rungs)
}

/// The manifest that an object is.
fn manifest_from(alloc: Global, object: &Value) -> Result<Manifest, InputFault>
    ensures { Gives (λ m. m) result (film_of (view object.now)) }
{
    let seg_ms = seg_ms_of(object)?;
    let bitrates = bitrates_of(alloc, object)?;
    let sizes = sizes_of(alloc, object, bitrates.len())?;
    match Manifest::from_parts(seg_ms, bitrates, sizes) {
        Some(manifest) => Ok(manifest),
        None => unreachable!(),
    }
}

/// Reads a JSON manifest. The answer is `Refused` exactly where the bytes are no manifest, with the
/// first test that they fail: rows count the segments and columns the rungs, both from 1.
pub fn read_manifest(alloc: Global, bytes: &[u8]) -> Result<Manifest, InputFault>
    ensures { Gives (λ m. m) result (manifest_of bytes.now) }
{
    let object = whole_object(alloc, bytes)?;
    manifest_from(alloc, &object)
}

#[cfg(test)]
mod tests;
