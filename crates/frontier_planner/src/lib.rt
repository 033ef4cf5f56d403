//! The planner: the best rung list that a network allowed, by labels that no other dominates.
#![tactic(auto)]

mod blocks;
mod brief;
mod chains;
mod climb;
mod frontiers;
mod grow;
mod names;
mod planner;
mod plans;
mod read;
mod staircase;
mod thin;

pub use labels::{
    Chain, Grid, Plan, dominance_is_inherited, dominates, end_value, frontiers_grow,
    labels_are_values, next_label, plans_are_accepted, plans_are_best, round_label,
    small_buffers_tell_apart, start_label, valid_is_sound,
};
pub use planner::{list_from, plan, plan_from};
pub use plans::{BoundedList, CoarsePlan, PlanErr};
