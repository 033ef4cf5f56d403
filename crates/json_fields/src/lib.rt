//! Values of a JSON text, taken out one by one, or what is wrong with them.
//!
//! The text is read by `serde_json`, and what it makes of equal keys in one object stands. A number is
//! tested without floating point: a value that is no number is of the wrong kind, a number that fits
//! neither 64-bit integer type isn't whole, and a whole one outside its range, a negative one among
//! them, is out of range.
#![tactic(auto)]

ghost use Rattle.std.specs.Prelude.{◌≡◌, ◌≤◌, IfOk, map};
ghost use Rattle.serde_json.specs.View.{view};
ghost use Rattle.json_fields.specs.Fields.{list_at, list_of, member_of, json_number_at, json_number_of, object_of, json_value_of, AnswersJson, ReadsJson};

use serde_json::{Category, Value};
use std::alloc::Global;

/// What is wrong with a text or with a value in it.
#[derive(Clone, Copy, Debug, PartialEq, Drop)]
pub enum Fault {
    /// The bytes are no JSON text.
    NotJson,
    /// The object lacks the key.
    MissingKey,
    /// The value is of another kind.
    WrongKind,
    /// The number has a fraction or an exponent, or doesn't fit 64 bits.
    NotWhole,
    /// The whole number is outside its range.
    OutOfRange,
}

/// Why there is no value.
#[derive(Clone, Copy, Debug, PartialEq, Drop)]
pub enum ReadErr {
    /// Memory ran out.
    Memory,
    /// The text or a value in it is at fault.
    Fault(Fault),
}

/// The value of a whole JSON text. The fault is `NotJson`, exactly where `serde_json` refuses the
/// bytes for another cause than memory.
pub fn json_value(alloc: Global, bytes: &[u8]) -> Result<Value, ReadErr>
    ensures { ReadsJson view result (json_value_of bytes.now) }
{
    match Value::from_slice(alloc, bytes) {
        Ok(value) => Ok(value),
        Err(e) => match e.classify() {
            Category::Memory => Err(ReadErr::Memory),
            _ => Err(ReadErr::Fault(Fault::NotJson)),
        },
    }
}

/// The value itself, if it is an object; else `WrongKind`.
pub fn object_from(value: &Value) -> Result<&Value, Fault>
    ensures { AnswersJson (λ v. view v.now) result (object_of (view value.now)) }
{
    if value.is_object() {
        Ok(value)
    } else {
        Err(Fault::WrongKind)
    }
}

/// The members of a list; of another value `WrongKind`.
#[tactic(auto, using(crate::proofs::Members::members_view))]
pub fn list_from(value: &Value) -> Result<&[Value], Fault>
    ensures { AnswersJson (λ v. map view v.now) result (list_of (view value.now)) }
{
    match value.as_array() {
        Some(values) => Ok(values),
        None => Err(Fault::WrongKind),
    }
}

/// The value under a key of an object; `MissingKey` where it is lacking.
pub fn member_from<'a>(object: &'a Value, key: &str) -> Result<&'a Value, Fault>
    ensures { AnswersJson (λ v. view v.now) result (member_of key.now (view object.now)) }
{
    match object.get(key) {
        Some(value) => Ok(value),
        None => Err(Fault::MissingKey),
    }
}

/// A whole number from `least` to `most`; else `WrongKind`, `NotWhole` or `OutOfRange`, the first that holds.
pub fn number_from(value: &Value, least: u32, most: u32) -> Result<u32, Fault>
    ensures { AnswersJson (λ n. n) result (json_number_of least most (view value.now)) }
{
    let Some(number) = value.as_number() else {
        return Err(Fault::WrongKind);
    };
    match number.as_u64() {
        Some(n) => {
            if u64::from(least) <= n && n <= u64::from(most) {
                Ok(n as u32)
            } else {
                Err(Fault::OutOfRange)
            }
        }
        None => match number.as_i64() {
            Some(_) => Err(Fault::OutOfRange),
            None => Err(Fault::NotWhole),
        },
    }
}

/// The whole number from `least` to `most` under a key of an object; else `MissingKey`, or the fault
/// of [`number_from`].
pub fn number_under(object: &Value, key: &str, least: u32, most: u32) -> Result<u32, Fault>
    ensures { AnswersJson (λ n. n) result (json_number_at key.now least most (view object.now)) }
{
    number_from(member_from(object, key)?, least, most)
}

/// The members of the list under a key of an object; else `MissingKey` or `WrongKind`.
pub fn list_under<'a>(object: &'a Value, key: &str) -> Result<&'a [Value], Fault>
    ensures { AnswersJson (λ v. map view v.now) result (list_at key.now (view object.now)) }
{
    list_from(member_from(object, key)?)
}

#[cfg(test)]
mod tests;
