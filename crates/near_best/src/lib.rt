//! Near-best lists: a good rung list for a film of any length, and windows whose bound by prices is near its value. Nothing rests
//! on the search: what a caller prints is the bound of the windows and the value of the list.
#![tactic(auto)]

mod cap;
mod course;
mod delay;
mod demand;
mod link;
mod list;
mod near;
mod peak;
mod play;
mod prices;
mod prospect;
mod stalls;
mod windows;
mod worth;

pub use near::near_best;
