//! The reader of CSV traces.
//!
//! The first record is the header `duration_ms`, `bandwidth_kbps`, `latency_ms`, and each later one a
//! period. Spaces and tabs at the ends of a field don't count. A bandwidth may have up to three digits
//! behind a point. Records are tested one after the other, each whole before the next is read, and the
//! cycle after all of them.

ghost use Rattle.std.specs.Prelude.{◌≡◌, ◌≤◌, ℕ, List, [], OnOk};
ghost use Rattle.csv.specs.Records.{fields_of};
ghost use Rattle.csv_records.specs.Table.{table_within};
ghost use Rattle.csv_records.specs.Walk.{HasGiven};
ghost use Rattle.lab_model.specs.Reading.{Gives};
ghost use Rattle.trace_reader.specs.TraceCsv.{bandwidth_in, trace_row_within, duration_in, is_trace_header, latency_in, period_in_row, periods_to_end, table_periods, trace_csv_of};
ghost use Rattle.trace_reader.specs.Walked.{Headed};

use crate::cycle::whole_trace;
use csv::ByteRecord;
use csv_records::{Halt, Walk, field_in, is_named, thousandths, whole_number};
use lab_model::{
    InputFault, Key, Kind, MOST_BANDWIDTH_KBPS, MOST_DURATION_MS, MOST_LATENCY_MS, MOST_PERIODS,
    Period, Trace,
};
use reader_faults::{field_at, refusal};
use std::alloc::Global;

/// The row of the last record of the longest trace: the header and 100000 periods.
const LAST_ROW: u32 = MOST_PERIODS as u32 + 1;

/// How many records are read: those of the longest trace, and the one behind them.
const MOST_RECORDS: usize = LAST_ROW as usize + 1;

fn is_trace_header(fields: &ByteRecord) -> bool
    ensures { result ≡ is_trace_header (fields_of fields.now) }
{
    fields.len() == 3
        && is_named(fields, 0, "duration_ms")
        && is_named(fields, 1, "bandwidth_kbps")
        && is_named(fields, 2, "latency_ms")
}

/// Reads the header.
fn read_header(walk: &mut Walk<'_>) -> Result<(), InputFault>
    ensures { (bytes : List ℕ) → HasGiven bytes 100002 [] walk.old
        → Headed bytes result walk.new }
{
    match walk.advance() {
        Ok(true) => if is_trace_header(walk.row()) {
            Ok(())
        } else {
            Err(refusal(Kind::Shape, Key::Header, 1, 0))
        },
        Ok(false) => Err(refusal(Kind::Empty, Key::Whole, 0, 0)),
        Err(Halt::Uneven) => Err(refusal(Kind::Empty, Key::Whole, 0, 0)),
        Err(Halt::Memory) => Err(InputFault::Memory),
    }
}

/// A row, if it is one of the 100000 behind the header.
fn trace_row_within(row: u32) -> Result<u32, InputFault>
    ensures row { Gives (λ n. n) result (trace_row_within row) }
    ensures few { OnOk result (row ≤ 100001) }
{
    if row > LAST_ROW {
        return Err(refusal(Kind::OutOfRange, Key::Whole, row, 0));
    }
    Ok(row)
}

/// The duration of a period, in milliseconds.
fn duration_in(fields: &ByteRecord, row: u32) -> Result<u32, InputFault>
    ensures { Gives (λ n. n) result (duration_in row (fields_of fields.now)) }
{
    let answer = whole_number(field_in(fields, 0), 1, MOST_DURATION_MS);
    field_at(answer, Key::Duration, row, 1)
}

/// The bandwidth of a period, in thousandths of a kbps.
fn bandwidth_in(fields: &ByteRecord, row: u32) -> Result<u64, InputFault>
    ensures { Gives (λ n. n) result (bandwidth_in row (fields_of fields.now)) }
{
    let answer = thousandths(field_in(fields, 1), 0, MOST_BANDWIDTH_KBPS);
    field_at(answer, Key::Bandwidth, row, 2)
}

/// The latency of a period, in milliseconds.
fn latency_in(fields: &ByteRecord, row: u32) -> Result<u32, InputFault>
    ensures { Gives (λ n. n) result (latency_in row (fields_of fields.now)) }
{
    let answer = whole_number(field_in(fields, 2), 0, MOST_LATENCY_MS);
    field_at(answer, Key::Latency, row, 3)
}

/// The period in a row.
fn period_in_row(fields: &ByteRecord, row: u32) -> Result<Period, InputFault>
    ensures period { Gives (λ p. p) result (period_in_row row (fields_of fields.now)) }
    ensures few { OnOk result (row ≤ 100001) }
{
    trace_row_within(row)?;
    let duration_ms = duration_in(fields, row)?;
    let bandwidth = bandwidth_in(fields, row)?;
    let latency = latency_in(fields, row)?;
    Ok(Period {
        duration_ms,
        bandwidth,
        latency,
    })
}

/// The periods, if no uneven record stands behind theirs and there are some.
fn periods_to_end(periods: Vec<Period>, uneven: Option<u32>) -> Result<Vec<Period>, InputFault>
    ensures { Gives (λ v. v.items) result (periods_to_end uneven periods.items) }
{
    if let Some(row) = uneven {
        return Err(refusal(Kind::NotCsv, Key::Period, row, 0));
    }
    if periods.is_empty() {
        return Err(refusal(Kind::Empty, Key::Whole, 0, 0));
    }
    Ok(periods)
}

/// The periods of a text, each record tested before the next is read.
fn text_periods(alloc: Global, bytes: &[u8]) -> Result<Vec<Period>, InputFault>
    ensures { Gives (λ v. v.items) result (table_periods (table_within 100002 bytes.now)) }
{
    let mut walk = Walk::new(alloc, bytes, MOST_RECORDS);
    read_header(&mut walk)?;
    let mut periods = Vec::new(alloc);
    for row in 2..LAST_ROW + 2 {
        match walk.advance() {
            Ok(true) => {
                let period = period_in_row(walk.row(), row)?;
                periods.push(period)?;
            }
            Ok(false) => return periods_to_end(periods, None),
            Err(Halt::Uneven) => return periods_to_end(periods, Some(row)),
            Err(Halt::Memory) => return Err(InputFault::Memory),
        }
    }
    unreachable!()
}

/// Reads a CSV trace. A bandwidth is a number of kbps with up to three digits behind a point, and is kept
/// in thousandths. The answer is `Refused` exactly where the bytes are no trace, with the first test that
/// they fail: rows count the records from 1, the header being the first, and columns count the fields
/// from 1. What stands behind the record that is one too many isn't read.
pub fn read_trace_csv(alloc: Global, bytes: &[u8]) -> Result<Trace, InputFault>
    ensures { Gives (λ t. t) result (trace_csv_of bytes.now) }
{
    let periods = text_periods(alloc, bytes)?;
    whole_trace(periods)
}
