//! Plans on a grid with a certified gap: a rung list, its value, and a bound that no rung list passes.
//!
//! Labels are rounded as they are grown, so the frontiers of a long film stay small; the list that is read off them need
//! not be the best. Its gap certificate proves how far it may be from it.
#![tactic(auto)]

mod plan;
mod writer;

pub use certificate_text::{GapCertificate, one_gap_spelling, read_gap};
pub use frontier_planner::{CoarsePlan, Grid, PlanErr, round_label};
pub use plan::plan_coarse;
pub use writer::write_gap;

#[cfg(test)]
mod tests;
