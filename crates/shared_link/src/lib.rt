//! Several players on one link: each plays the film by its own rule, and in each millisecond those that take bits
//! have equal shares of what the link carries.
#![tactic(auto)]

mod calm;
mod joint;
mod lane;
mod laws;
mod play;
mod table;

pub use joint::{Joint, MOST_PLAYERS};
pub use laws::{alone_is_lone, joint_sessions_end, sessions_are_own};
pub use play::play_shared;

#[cfg(test)]
mod tests;
