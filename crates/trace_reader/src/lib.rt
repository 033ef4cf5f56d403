//! The readers of traces: recorded networks, period by period.
#![tactic(auto)]

#[cfg(test)]
mod csv_tests;
mod csv_trace;
mod cycle;
mod json;
#[cfg(test)]
mod tests;

pub use csv_trace::read_trace_csv;
pub use json::read_trace_json;
