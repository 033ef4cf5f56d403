//! What is printed of a session: its text, its row in a comparison, and how far it stays behind the best.
#![tactic(auto)]

mod event;
mod regret;
mod session;
#[cfg(test)]
mod tests;

pub use regret::{Top, Total, regret_row, total_row};
pub use session::{compare_row, write_session};
