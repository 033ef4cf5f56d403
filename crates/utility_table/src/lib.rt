//! The reader of utility tables: a record of CSV for each segment, with a utility for each rung.
//!
//! There is no header. Spaces and tabs at the ends of a field don't count. Records are tested one after the
//! other, each whole before the next is read.
#![tactic(auto)]

ghost use Rattle.std.specs.Prelude.{◌≡◌, ◌+◌, ◌^◌, ◌++◌, ◌≤◌, ◌<◌, ℕ, List, IfOk, IfSome, OnOk, None, length, map};
ghost use Rattle.std.specs.List.{concat};
ghost use Rattle.csv.specs.Records.{fields_of};
ghost use Rattle.csv_records.specs.Field.{without_blanks};
ghost use Rattle.csv_records.specs.Table.{table_in};
ghost use Rattle.lab_model.specs.Film.{IsWithin, most_rungs, most_segments};
ghost use Rattle.lab_model.specs.Reading.{Gives};
ghost use Rattle.lab_model.specs.Row.{AreUtilities};
ghost use Rattle.lab_model.specs.Steps.{map_ok};
ghost use Rattle.reader_faults.specs.Each.{each_after, each_from};
ghost use Rattle.utility_table.specs.Table.{full_row, utilities_in_row, utility_row_within, rows_to_end, table_rows, table_utilities, utility_in};

use csv::ByteRecord;
use csv_records::{Records, field_in, records_of, whole_number};
use lab_model::{InputFault, Key, Kind, MOST_UTILITY};
use reader_faults::{field_at, refusal};
use std::alloc::Global;

#[cfg(test)]
mod tests;

/// The utilities of a film, segment by segment and in each rung by rung, in points.
#[derive(Drop)]
pub struct Table {
    /// The rows, one after the other.
    pub rows: Vec<u32>,
}

/// A row, if it is one of the segments'.
fn utility_row_within(segments: u16, row: u32) -> Result<u32, InputFault>
    ensures row { Gives (λ n. n) result (utility_row_within segments row) }
    ensures few { OnOk result (row ≤ segments) }
{
    if row > u32::from(segments) {
        return Err(refusal(Kind::Shape, Key::Utility, row, 0));
    }
    Ok(row)
}

/// A record, if it has a field for each rung.
fn full_row(fields: &ByteRecord, rungs: u8, row: u32) -> Result<&ByteRecord, InputFault>
    ensures row { Gives (λ r. fields_of r.now) result (full_row rungs row (fields_of fields.now)) }
    ensures width { OnOk result (length (fields_of fields.now) ≡ rungs) }
{
    if fields.len() == usize::from(rungs) {
        Ok(fields)
    } else {
        Err(refusal(Kind::Shape, Key::Utility, row, 0))
    }
}

/// The utility that a field is, which is no less than the one before.
fn utility_in(field: &[u8], before: Option<u32>, row: u32, column: u32) -> Result<u32, InputFault>
    ensures { Gives (λ u. u) result (utility_in row before column field.now) }
{
    let answer = whole_number(field, 0, MOST_UTILITY);
    let utility = field_at(answer, Key::Utility, row, column)?;
    match before {
        Some(before) if utility < before => Err(refusal(Kind::Order, Key::Utility, row, column)),
        _ => Ok(utility),
    }
}

/// Appends the utilities of a record.
fn push_utilities(utilities: &mut Vec<u32>, fields: &ByteRecord, row: u32) -> Result<(), InputFault>
    requires { length (fields_of fields.now) ≤ 255 }
    ensures { Gives (λ _. utilities.new.items) result
        (map_ok (λ us. utilities.old.items ++ us)
        (each_after (utility_in row) None 1 (map without_blanks (fields_of fields.now)))) }
{
    let mut before = None;
    for column in 0..fields.len() {
        let utility = utility_in(field_in(fields, column), before, row, column as u32 + 1)?;
        utilities.push(utility)?;
        before = Some(utility);
    }
    Ok(())
}

/// Appends the row of a segment.
fn push_row(
    utilities: &mut Vec<u32>,
    fields: &ByteRecord,
    row: u32,
    segments: u16,
    rungs: u8,
) -> Result<(), InputFault>
    ensures utilities { Gives (λ _. utilities.new.items) result
        (map_ok (λ us. utilities.old.items ++ us)
        (utilities_in_row segments rungs row (fields_of fields.now))) }
    ensures few { OnOk result (row ≤ segments) }
{
    utility_row_within(segments, row)?;
    full_row(fields, rungs, row)?;
    push_utilities(utilities, fields, row)
}

/// The utilities of the records, one row after the other.
fn all_rows(
    alloc: Global,
    rows: &[ByteRecord],
    segments: u16,
    rungs: u8,
) -> Result<Vec<u32>, InputFault>
    ensures utilities { Gives (λ v. v.items) result
        (map_ok concat (each_from (utilities_in_row segments rungs) 1 (map fields_of rows.now))) }
    ensures few { OnOk result (length rows.now ≤ segments) }
{
    let mut utilities = Vec::new(alloc);
    for (i, fields) in rows.iter().enumerate() {
        push_row(&mut utilities, fields, i as u32 + 1, segments, rungs)?;
    }
    Ok(utilities)
}

/// The utilities of so many rows, if no uneven record stands behind them and there is one for each segment.
fn rows_to_end(
    utilities: Vec<u32>,
    count: usize,
    uneven: Option<u64>,
    segments: u16,
) -> Result<Vec<u32>, InputFault>
    requires { IfSome uneven (λ row. row < 2 ^ 32) }
    ensures { (rows : List (List ℕ)) → utilities.items ≡ concat rows → count ≡ length rows
        → Gives (λ v. v.items) result (map_ok concat (rows_to_end segments uneven rows)) }
{
    if let Some(row) = uneven {
        return Err(refusal(Kind::NotCsv, Key::Utility, row as u32, 0));
    }
    if count == 0 {
        return Err(refusal(Kind::Empty, Key::Whole, 0, 0));
    }
    if count < usize::from(segments) {
        return Err(refusal(Kind::Shape, Key::Utility, 0, 0));
    }
    Ok(utilities)
}

/// The utilities of a table.
fn table_rows(
    alloc: Global,
    records: &Records,
    segments: u16,
    rungs: u8,
) -> Result<Vec<u32>, InputFault>
    ensures { Gives (λ v. v.items) result
        (map_ok concat (table_rows segments rungs (table_in records.now))) }
{
    let utilities = all_rows(alloc, &records.rows, segments, rungs)?;
    rows_to_end(
        utilities,
        records.rows.len(),
        records.uneven_row(),
        segments,
    )
}

/// Reads the utilities of a film of so many segments and rungs, each from 0 to 1000000 points. The answer is
/// `Refused` exactly where the bytes are no such table, with the first test that they fail: rows count the
/// segments and columns the rungs, both from 1. What stands behind the record that is one too many isn't read.
/// A table that was read has the utilities of that film, where it has 1 to 2000 segments and 1 to 16 rungs.
pub fn read_utilities(
    alloc: Global,
    bytes: &[u8],
    segments: u16,
    rungs: u8,
) -> Result<Table, InputFault>
    ensures table { Gives (λ t. t.rows.items) result (table_utilities bytes.now segments rungs) }
    ensures within { IsWithin 1 most_rungs rungs → IsWithin 1 most_segments segments
        → IfOk result (λ t. AreUtilities t.rows.items rungs segments) }
{
    let Ok(records) = records_of(alloc, bytes, usize::from(segments) + 1) else {
        return Err(InputFault::Memory);
    };
    let rows = table_rows(alloc, &records, segments, rungs)?;
    Ok(Table { rows })
}
