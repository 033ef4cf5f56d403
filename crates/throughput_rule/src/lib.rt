//! The throughput rule: it chooses by the means of the last rates, in one or several windows.
#![tactic(auto)]

mod rule;
mod window;

pub use rule::{RuleErr, Throughput};

#[cfg(test)]
mod tests;
