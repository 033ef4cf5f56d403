//! Records of a text of CSV, and the fields and numbers in them.
//!
//! The text is read by `csv`: as byte records, with no header of its own, commas between fields, double
//! quotes with doubling, and without trimming. A byte order mark at the start is taken off, and empty
//! lines are no records.
#![tactic(auto)]

mod number;
mod records;
#[cfg(test)]
mod tests;
mod walk;

pub use number::{Fault, thousandths, whole_number};
pub use records::{Records, field_in, is_named, records_of};
pub use walk::{Halt, Walk};
