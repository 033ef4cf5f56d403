//! What players, plans and checks are given.

ghost use Rattle.std.specs.Prelude.{◌≡◌, ◌≤◌, ◌<◌};
ghost use Rattle.lab_model.specs.Limits.{all_ahead};
ghost use Rattle.lab_model.specs.Film.{segments_of};
ghost use Rattle.lab_model.specs.Fit.{SetupFits};
ghost use Rattle.player_core.specs.Available.{available_at};
ghost use Rattle.player_core.specs.Scene.{IsTask, task_of};

use crate::player::available;
use lab_model::{ALL_AHEAD_MS, Ahead, Manifest, Setup};
use network_clock::Clock;
use std::marker::Model;

/// A film on a network with a setup that fits it, and the media that are there at instant 0.
#[derive(Drop)]
pub struct Scene<'a> {
    film: &'a Manifest,
    clock: &'a Clock,
    setup: &'a Setup,
    ahead: Ahead,
}

impl<'a> Model for Scene<'a> {
    ghost use Rattle.player_core.specs.Scene.{IsTask, Task, task_of};

    ghost Value = { Task };

    ghost view = { λ s. task_of s.film.now s.clock.now s.setup.now s.ahead };

    ghost invariant = { λ s. IsTask (task_of s.film.now s.clock.now s.setup.now s.ahead) };
}

impl<'a> Scene<'a> {
    /// The scene of these: the setup fits the film.
    pub fn new(film: &'a Manifest, clock: &'a Clock, setup: &'a Setup, ahead: Ahead) -> Scene<'a>
        requires setup { SetupFits setup.now film.now }
        ensures value { result ≡ task_of film.entry.now clock.entry.now setup.entry.now ahead }
        ensures task { IsTask result }
    {
        prove!(film.segments() > 0 && setup.weights.count() > 0 && !clock.periods().is_empty());
        prove!(ahead.ms() <= ALL_AHEAD_MS);
        Scene {
            film,
            clock,
            setup,
            ahead,
        }
    }

    /// The scene of a film on demand, all of which is there at instant 0. The setup fits the film.
    pub fn on_demand(film: &'a Manifest, clock: &'a Clock, setup: &'a Setup) -> Scene<'a>
        requires setup { SetupFits setup.now film.now }
        ensures value { result
            ≡ task_of film.entry.now clock.entry.now setup.entry.now all_ahead }
        ensures task { IsTask result }
    {
        Scene::new(film, clock, setup, Ahead::all())
    }

    /// The film.
    pub fn film(&self) -> &'a Manifest
        ensures value { result.now ≡ self.now.film }
        ensures task { IsTask self.now }
    {
        self.film
    }

    /// The clock of the network.
    pub fn clock(&self) -> &'a Clock
        ensures value { result.now ≡ self.now.periods }
        ensures task { IsTask self.now }
    {
        self.clock
    }

    /// The setup.
    pub fn setup(&self) -> &'a Setup
        ensures value { result.now ≡ self.now.setup }
        ensures task { IsTask self.now }
    {
        self.setup
    }

    /// The media that are there at instant 0.
    pub fn ahead(&self) -> Ahead
        ensures value { result ≡ self.now.ahead }
        ensures task { IsTask self.now }
    {
        self.ahead
    }

    /// The instant in milliseconds from which a segment may be asked for.
    pub fn available(&self, seg: u16) -> u64
        requires { seg < segments_of self.now.film }
        ensures { result ≡ available_at self.now.film self.now.ahead seg }
    {
        available(self.film, self.ahead.ms(), seg)
    }
}
