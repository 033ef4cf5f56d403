//! What the readers of files share: the faults of a value or a field, each with its key and its place, and lists
//! that have members, but not too many.
#![tactic(auto)]

ghost use Rattle.std.specs.Prelude.{◌≡◌, ◌≤◌, IfOk, length, map};
ghost use Rattle.serde_json.specs.View.{view};
ghost use Rattle.lab_model.specs.Reading.{Gives, refusal};
ghost use Rattle.json_fields.specs.Fields.{json_value_of};
ghost use Rattle.reader_faults.specs.Faults.{field_at, field_kind, members_within, value_at, value_kind};

use json_fields::ReadErr;
use lab_model::{InputFault, Key, Kind, Refusal};
use serde_json::Value;
use std::alloc::Global;

/// What a fault of a JSON value is called.
fn value_kind(fault: json_fields::Fault) -> Kind
    ensures { result ≡ value_kind fault }
{
    match fault {
        json_fields::Fault::NotJson => Kind::NotJson,
        json_fields::Fault::MissingKey => Kind::MissingKey,
        json_fields::Fault::WrongKind => Kind::WrongKind,
        json_fields::Fault::NotWhole => Kind::NotWhole,
        json_fields::Fault::OutOfRange => Kind::OutOfRange,
    }
}

/// What a fault of a CSV field is called.
fn field_kind(fault: csv_records::Fault) -> Kind
    ensures { result ≡ field_kind fault }
{
    match fault {
        csv_records::Fault::NotWhole => Kind::NotWhole,
        csv_records::Fault::WrongKind => Kind::WrongKind,
        csv_records::Fault::OutOfRange => Kind::OutOfRange,
    }
}

/// The refusal at a key, a row and a column.
pub fn refusal(kind: Kind, key: Key, row: u32, column: u32) -> InputFault
    ensures { result ≡ InputFault.Refused (refusal kind key row column) }
{
    InputFault::Refused(Refusal {
        kind,
        key,
        row,
        column,
    })
}

/// What was made of a JSON value, or its fault with its place.
pub fn value_at<T: Drop>(
    answer: Result<T, json_fields::Fault>,
    key: Key,
    row: u32,
    column: u32,
) -> Result<T, InputFault>
    ensures { Gives (λ x. x) result (value_at key row column answer) }
{
    match answer {
        Ok(value) => Ok(value),
        Err(fault) => Err(refusal(value_kind(fault), key, row, column)),
    }
}

/// What was made of a CSV field, or its fault with its place.
pub fn field_at<T: Drop>(
    answer: Result<T, csv_records::Fault>,
    key: Key,
    row: u32,
    column: u32,
) -> Result<T, InputFault>
    ensures { Gives (λ x. x) result (field_at key row column answer) }
{
    match answer {
        Ok(value) => Ok(value),
        Err(fault) => Err(refusal(field_kind(fault), key, row, column)),
    }
}

/// The value that the bytes of a whole file are.
pub fn whole_value(alloc: Global, bytes: &[u8]) -> Result<Value, InputFault>
    ensures { Gives view result (value_at Key.Whole 0 0 (json_value_of bytes.now)) }
{
    match json_fields::json_value(alloc, bytes) {
        Ok(value) => Ok(value),
        Err(ReadErr::Memory) => Err(InputFault::Memory),
        Err(ReadErr::Fault(fault)) => Err(refusal(value_kind(fault), Key::Whole, 0, 0)),
    }
}

/// The members of a list, if it has 1 to `most`; else `Empty` or `OutOfRange`, with no row and no column.
pub fn members_within(values: &[Value], key: Key, most: usize) -> Result<&[Value], InputFault>
    ensures list { Gives (λ v. map view v.now) result
        (members_within key most (map view values.now)) }
    ensures most { IfOk result (λ v. length v.now ≤ most) }
{
    if values.is_empty() {
        return Err(refusal(Kind::Empty, key, 0, 0));
    }
    if values.len() > most {
        return Err(refusal(Kind::OutOfRange, key, 0, 0));
    }
    Ok(values)
}
