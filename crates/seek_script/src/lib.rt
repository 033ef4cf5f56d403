//! The reader of seek scripts: the seeks of a viewer, one record of CSV each.
//!
//! The first record is the header `at_ms`, `to_segment`. Each later one says an instant in milliseconds
//! and the segment that is sought there, counted from 0. Spaces and tabs at the ends of a field don't
//! count. Records are tested one after the other, each whole before the next is read.
#![tactic(auto)]

mod script;
#[cfg(test)]
mod tests;

pub use script::read_seeks;
