//! Live sessions, their best lists and their certificates: segment `i` may be asked for from the instant
//! `max(0, (i + 1) * S - ahead)` on, where S is the duration of a segment and `ahead` milliseconds of media, at most
//! 120000000, are there at instant 0. Each call is the general one with this `ahead`.
#![tactic(auto)]

mod check;
mod labels_of;
mod plan;
mod play;
mod scene;

pub use certificate_check::Verdict;
pub use check::check_live;
pub use frontier_planner::PlanErr;
pub use labels_of::{live_next, live_start};
pub use plan::plan_live;
pub use play::play_live;
pub use player_core::available;

#[cfg(test)]
mod tests;
