//! The records of a seek script.

ghost use Rattle.std.specs.Prelude.{◌≡◌, ◌∷◌, ◌++◌, ◌+◌, ◌≤◌, ◌<◌, [], None, IfOk, IfErr, IfSome, OnOk, length, map};
ghost use Rattle.csv.specs.Records.{fields_of};
ghost use Rattle.csv_records.specs.Table.{table_in, table_of};
ghost use Rattle.lab_model.specs.Reading.{Gives};
ghost use Rattle.lab_model.specs.Seeks.{SeeksFit};
ghost use Rattle.reader_faults.specs.Each.{each_after};
ghost use Rattle.reader_faults.specs.Header.{behind_header};
ghost use Rattle.seek_script.specs.Script.{below, seek_row_within, instant_in, is_seek_header, later, seek_in, seeks_in, seeks_of, target_in};

use csv::ByteRecord;
use csv_records::{Records, field_in, is_named, records_of, whole_number};
use lab_model::{InputFault, Key, Kind, Seek};
use reader_faults::{field_at, refusal};
use std::alloc::Global;

/// The row of the last record of the longest script: the header and 16 seeks.
const LAST_ROW: u32 = 17;

/// How many records are read: those of the longest script, and the one behind them.
const MOST_RECORDS: usize = LAST_ROW as usize + 1;

/// The last instant of a seek, in milliseconds.
const LAST_INSTANT: u32 = 1_000_000_000;

fn is_seek_header(record: &ByteRecord) -> bool
    ensures { result ≡ is_seek_header (fields_of «record».now) }
{
    record.len() == 2 && is_named(record, 0, "at_ms") && is_named(record, 1, "to_segment")
}

/// The records behind the header.
fn behind_header(rows: &[ByteRecord]) -> Result<&[ByteRecord], InputFault>
    ensures rows { Gives (λ v. map fields_of v.now) result
        (behind_header is_seek_header (map fields_of rows.now)) }
    ensures count { IfOk result (λ v. length rows.now ≡ length v.now + 1) }
{
    match rows {
        [] => Err(refusal(Kind::Empty, Key::Whole, 0, 0)),
        [header, later @ ..] => if is_seek_header(header) {
            Ok(later)
        } else {
            Err(refusal(Kind::Shape, Key::Header, 1, 0))
        },
    }
}

/// A row, if it is one of the 16 behind the header.
fn seek_row_within(row: u32) -> Result<u32, InputFault>
    ensures row { Gives (λ n. n) result (seek_row_within row) }
    ensures few { OnOk result (row ≤ 17) }
{
    if row > LAST_ROW {
        return Err(refusal(Kind::OutOfRange, Key::Whole, row, 0));
    }
    Ok(row)
}

/// The instant of a seek, in milliseconds.
fn instant_in(fields: &ByteRecord, row: u32) -> Result<u32, InputFault>
    ensures { Gives (λ n. n) result (instant_in row (fields_of fields.now)) }
{
    field_at(
        whole_number(field_in(fields, 0), 0, LAST_INSTANT),
        Key::SeekAt,
        row,
        1,
    )
}

/// An instant, if it is later than the seek before.
fn later(before: Option<Seek>, row: u32, at_ms: u32) -> Result<u32, InputFault>
    ensures { Gives (λ n. n) result (later before row at_ms) }
{
    match before {
        Some(seek) => if seek.at_ms < u64::from(at_ms) {
            Ok(at_ms)
        } else {
            Err(refusal(Kind::Order, Key::SeekAt, row, 1))
        },
        None => Ok(at_ms),
    }
}

/// A segment, if it is one of the film's.
fn below(segments: u16, row: u32, to: u32) -> Result<u16, InputFault>
    ensures { Gives (λ n. n) result (below segments row to) }
{
    if to < u32::from(segments) {
        Ok(to as u16)
    } else {
        Err(refusal(Kind::OutOfRange, Key::SeekTo, row, 2))
    }
}

/// The segment that is sought.
fn target_in(fields: &ByteRecord, row: u32, segments: u16) -> Result<u16, InputFault>
    ensures { Gives (λ n. n) result (target_in segments row (fields_of fields.now)) }
{
    let to = field_at(
        whole_number(field_in(fields, 1), 0, u32::from(u16::MAX)),
        Key::SeekTo,
        row,
        2,
    )?;
    below(segments, row, to)
}

/// The seek in a row, behind the one before.
fn seek_in(
    fields: &ByteRecord,
    row: u32,
    before: Option<Seek>,
    segments: u16,
) -> Result<Seek, InputFault>
    ensures seek { Gives (λ s. s) result (seek_in segments before row (fields_of fields.now)) }
    ensures few { OnOk result (row ≤ 17) }
{
    seek_row_within(row)?;
    let at_ms = instant_in(fields, row)?;
    later(before, row, at_ms)?;
    let to = target_in(fields, row, segments)?;
    Ok(Seek {
        at_ms: u64::from(at_ms),
        to,
    })
}

/// The seeks of the records behind the header.
fn all_seeks(alloc: Global, rows: &[ByteRecord], segments: u16) -> Result<Vec<Seek>, InputFault>
    ensures seeks { Gives (λ v. v.items) result
        (each_after (seek_in segments) None 2 (map fields_of rows.now)) }
    ensures few { OnOk result (length rows.now ≤ 16) }
{
    let mut seeks = Vec::new(alloc);
    let mut before = None;
    for (i, fields) in rows.iter().enumerate() {
        let seek = seek_in(fields, i as u32 + 2, before, segments)?;
        seeks.push(seek)?;
        before = Some(seek);
    }
    Ok(seeks)
}

/// The seeks of a table.
fn seeks_in(alloc: Global, records: &Records, segments: u16) -> Result<Vec<Seek>, InputFault>
    ensures { Gives (λ v. v.items) result (seeks_in segments (table_in records.now)) }
{
    let rows = behind_header(&records.rows)?;
    let seeks = all_seeks(alloc, rows, segments)?;
    match records.uneven_row() {
        Some(row) => Err(refusal(Kind::NotCsv, Key::SeekRow, row as u32, 0)),
        None => Ok(seeks),
    }
}

/// Reads the seeks of a script for a film of so many segments. The answer is `Refused` exactly where the
/// bytes are no script, with the first test that they fail: rows count the records from 1, the header
/// being the first, and columns count the fields from 1. What stands behind the record that is one too
/// many isn't read. A script with the header alone has no seeks.
/// Seeks that are read keep their limits: at most 16, at strictly rising instants from 0 to 1000000000
/// ms, each to one of the film's segments.
pub fn read_seeks(alloc: Global, bytes: &[u8], segments: u16) -> Result<Vec<Seek>, InputFault>
    ensures seeks { Gives (λ v. v.items) result (seeks_of bytes.now segments) }
    ensures within { IfOk result (λ v. SeeksFit v.items segments) }
{
    let Ok(records) = records_of(alloc, bytes, MOST_RECORDS) else {
        return Err(InputFault::Memory);
    };
    seeks_in(alloc, &records, segments)
}
