//! The records of a text, and their fields.

ghost use Rattle.std.specs.Prelude.{◌≡◌, ◌+◌, IfOk, IfSome, length};
ghost use Rattle.csv.specs.Records.{fields_of};
ghost use Rattle.csv_records.specs.Field.{field_in, is_blank, is_named, without_blanks, without_indent, without_padding};
ghost use Rattle.csv_records.specs.Table.{is_uneven, table_in, table_within};

use csv::{ByteRecord, Error, ErrorKind, ReaderBuilder};
use std::alloc::{AllocError, Global};

/// The first records of a text, as far as they come before the first uneven one.
#[derive(Drop)]
pub struct Records {
    /// The records, each with as many fields as the first.
    pub rows: Vec<ByteRecord>,
    /// Whether the record behind them was read and has another number of fields.
    pub uneven: bool,
}

impl Records {
    /// The number of the uneven record behind them, counted from 1, if there is one.
    pub fn uneven_row(&self) -> Option<u64>
        ensures value { result ≡ (table_in self.now).uneven }
        ensures place { IfSome result (λ k. k ≡ length self.now.rows.items + 1) }
    {
        if self.uneven {
            Some(self.rows.len() as u64 + 1)
        } else {
            None
        }
    }
}

pub(crate) fn is_uneven(error: &Error) -> bool
    ensures { result ≡ is_uneven error.now.kind }
{
    matches!(error.kind(), ErrorKind::UnequalLengths { .. })
}

/// The records of the bytes, at most `most` of them, up to the first whose number of fields isn't the
/// first record's. What stands behind those `most` isn't read. Any other refusal of `csv` is answered as
/// want of memory.
pub fn records_of(alloc: Global, bytes: &[u8], most: usize) -> Result<Records, AllocError>
    ensures { IfOk result (λ t. table_in t ≡ table_within most bytes.now) }
{
    let rdr = ReaderBuilder::new()
        .has_headers(false)
        .from_reader(alloc, bytes);
    let mut rows = Vec::new(alloc);
    for row in rdr.into_byte_records().take(most) {
        match row {
            Ok(fields) => rows.push(fields)?,
            Err(error) => {
                if !is_uneven(&error) {
                    return Err(AllocError);
                }
                return Ok(Records { rows, uneven: true });
            }
        }
    }
    Ok(Records {
        rows,
        uneven: false,
    })
}

fn is_blank(byte: u8) -> bool
    ensures { result ≡ is_blank byte }
{
    byte == b' ' || byte == b'\t'
}

fn without_indent(field: &[u8]) -> &[u8]
    ensures { result.now ≡ without_indent field.now }
{
    let mut rest = field;
    while let [first, tail @ ..] = rest {
        if !is_blank(*first) {
            return rest;
        }
        rest = tail;
    }
    rest
}

fn without_padding(field: &[u8]) -> &[u8]
    ensures { result.now ≡ without_padding field.now }
{
    let mut rest = field;
    while let [front @ .., last] = rest {
        if !is_blank(*last) {
            return rest;
        }
        rest = front;
    }
    rest
}

/// The field of a record in a column, counted from 0, without the spaces and tabs at its ends; nothing
/// where the record has no such column.
pub fn field_in(row: &ByteRecord, column: usize) -> &[u8]
    ensures { result.now ≡ field_in column (fields_of row.now) }
{
    match row.get(column) {
        Some(field) => without_padding(without_indent(field)),
        None => &[],
    }
}

/// Whether the field in a column, without the spaces and tabs at its ends, is this name.
pub fn is_named(row: &ByteRecord, column: usize, name: &str) -> bool
    ensures { result ≡ is_named column name.now (fields_of row.now) }
{
    field_in(row, column) == name.as_bytes()
}
