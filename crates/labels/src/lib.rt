//! Labels: what is kept of a rung list up to a segment, which of them count, what plan and certificate are read off them, and
//! the laws by which these prove that no rung list is better.
#![tactic(auto)]

mod grid;
mod label;
mod laws;
mod plans;
mod rung_label;
mod values;

pub use grid::{Grid, round_label};
pub use label::{dominates, end_value, next_label, start_label, start_on};
pub use laws::{
    dominance_is_inherited, frontiers_grow, plans_are_accepted, plans_are_best,
    small_buffers_tell_apart, valid_is_sound,
};
pub use plans::{Chain, Plan};
pub use rung_label::{RungLabel, value_of_list};
pub use values::labels_are_values;
