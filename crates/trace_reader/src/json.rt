//! The reader of JSON traces.
//!
//! A trace is a list of objects with the keys of Sabre, the simulator of Spiteri, Sitaraman and
//! Sparacio (MMSys 2018): `duration_ms`, `bandwidth_kbps` and `latency_ms`, each a number. Other keys
//! are passed over. Each period is tested before the next, and the cycle after all of them.

ghost use Rattle.std.specs.Prelude.{◌≡◌, ◌≤◌, IfOk, length, map};
ghost use Rattle.serde_json.specs.View.{view};
ghost use Rattle.lab_model.specs.Reading.{Gives};
ghost use Rattle.reader_faults.specs.Each.{each_from};
ghost use Rattle.trace_reader.specs.Trace.{field_of, period_of_object, period_members, json_period_in, periods_of, trace_json, trace_of_json};

use crate::cycle::whole_trace;
use lab_model::{
    InputFault, Key, MOST_BANDWIDTH_KBPS, MOST_DURATION_MS, MOST_LATENCY_MS, MOST_PERIODS, Period,
    Trace,
};
use reader_faults::{members_within, value_at, whole_value};
use serde_json::Value;
use std::alloc::Global;

/// The members of the list that a value is.
fn period_members(value: &Value) -> Result<&[Value], InputFault>
    ensures list { Gives (λ v. map view v.now) result (period_members (view value.now)) }
    ensures most { IfOk result (λ v. length v.now ≤ 100000) }
{
    let values = value_at(json_fields::list_from(value), Key::Whole, 0, 0)?;
    members_within(values, Key::Whole, MOST_PERIODS)
}

/// The number under a key of a period.
fn field_of(
    object: &Value,
    name: &str,
    key: Key,
    least: u32,
    most: u32,
    row: u32,
) -> Result<u32, InputFault>
    ensures { Gives (λ n. n) result (field_of key name.now least most row (view object.now)) }
{
    value_at(
        json_fields::number_under(object, name, least, most),
        key,
        row,
        0,
    )
}

/// The period that an object is.
fn period_of_object(object: &Value, row: u32) -> Result<Period, InputFault>
    ensures { Gives (λ p. p) result (period_of_object row (view object.now)) }
{
    let duration_ms = field_of(
        object,
        "duration_ms",
        Key::Duration,
        1,
        MOST_DURATION_MS,
        row,
    )?;
    let bandwidth_kbps = field_of(
        object,
        "bandwidth_kbps",
        Key::Bandwidth,
        0,
        MOST_BANDWIDTH_KBPS,
        row,
    )?;
    let latency = field_of(object, "latency_ms", Key::Latency, 0, MOST_LATENCY_MS, row)?;
    Ok(Period {
        duration_ms,
        bandwidth: 1000 * u64::from(bandwidth_kbps),
        latency,
    })
}

/// The period in a row.
fn json_period_in(value: &Value, row: u32) -> Result<Period, InputFault>
    ensures { Gives (λ p. p) result (json_period_in row (view value.now)) }
{
    let object = value_at(json_fields::object_from(value), Key::Period, row, 0)?;
    period_of_object(object, row)
}

/// The periods that the members of a list are.
fn all_periods(alloc: Global, values: &[Value]) -> Result<Vec<Period>, InputFault>
    requires { length values.now ≤ 100000 }
    ensures { Gives (λ v. v.items) result (each_from json_period_in 1 (map view values.now)) }
{
    let mut periods = Vec::new(alloc);
    for (i, value) in values.iter().enumerate() {
        let period = json_period_in(value, i as u32 + 1)?;
        periods.push(period)?;
    }
    Ok(periods)
}

/// The periods of a list.
fn periods_of(alloc: Global, value: &Value) -> Result<Vec<Period>, InputFault>
    ensures { Gives (λ v. v.items) result (periods_of (view value.now)) }
{
    let values = period_members(value)?;
    all_periods(alloc, values)
}

/// The trace that a value is.
fn trace_of_json(alloc: Global, value: &Value) -> Result<Trace, InputFault>
    ensures { Gives (λ t. t) result (trace_of_json (view value.now)) }
{
    let periods = periods_of(alloc, value)?;
    whole_trace(periods)
}

/// Reads a JSON trace. A bandwidth is a whole number of kbps, and is kept in thousandths. The answer is
/// `Refused` exactly where the bytes are no trace, with the first test that they fail: rows count the
/// periods from 1, and there are no columns.
pub fn read_trace_json(alloc: Global, bytes: &[u8]) -> Result<Trace, InputFault>
    ensures { Gives (λ t. t) result (trace_json bytes.now) }
{
    let value = whole_value(alloc, bytes)?;
    trace_of_json(alloc, &value)
}
