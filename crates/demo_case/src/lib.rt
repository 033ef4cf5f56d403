//! The made case of a number: a film, a network and a setup, the same for the same number, whose plan needs few labels.
#![tactic(auto)]

mod case;
mod draws;
mod laws;

pub use case::{DemoCase, demo_case};
pub use laws::demo_fits_budget;

#[cfg(test)]
mod tests;
