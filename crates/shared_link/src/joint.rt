//! What a joint session was.

use player_core::Session;

/// The most players on one link.
pub const MOST_PLAYERS: usize = 8;

/// The sessions of several players on one link.
#[derive(Drop)]
pub struct Joint {
    /// The session of each player, in order.
    pub sessions: Vec<Session>,
}
