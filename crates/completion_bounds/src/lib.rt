//! Completion bounds: a table, reckoned backward from the last segment, of the most that a label may still gain. What a label has and
//! this bound come to is no less than the value of any list through it.
#![tactic(auto)]

mod cells;
mod grid;
mod laws;
mod layers;
mod table;

pub use grid::TableGrid;
pub use laws::{completions_are_bounded, tight_changes_nothing};
pub use table::Table;
