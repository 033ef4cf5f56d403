//! The player: a session of a film over a recorded network, millisecond by millisecond.
#![tactic(auto)]

mod body;
mod course;
mod judged;
mod laws;
pub mod limits;
mod mode;
pub mod parts;
mod player;
mod quiet;
mod rules;
mod running;
mod scene;
mod script;
mod session;

pub use laws::{rules_are_lists, sessions_end};
pub use player::{available, play, play_from, seeks_fit};
pub use rules::{Fixed, Listed};
pub use scene::Scene;
pub use session::{Event, Session};
