//! The checker of certificates: it says yes exactly to valid ones, whoever wrote them, and a yes proves the claim.
#![tactic(auto)]

mod by_layer;
mod checker;
mod ranges;
mod verdict;
mod whole;

pub use by_layer::{check_lines, check_lines_from};
pub use verdict::Verdict;
pub use whole::{check, check_bound, check_from};
