//! What a session is played on.

use crate::scene::Scene;
use lab_model::Seek;

/// What a session is played on: a film on a network with a setup, and a seek script.
#[derive(Clone, Copy)]
pub struct Course<'a> {
    /// Film, network, setup and the media that are there at instant 0. The network is that of a player that has it for itself.
    pub scene: &'a Scene<'a>,
    /// The seek script.
    pub seeks: &'a [Seek],
}
