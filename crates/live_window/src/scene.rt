//! The scene of a live film.

ghost use Rattle.std.specs.Prelude.{◌≡◌, ◌≤◌};
ghost use Rattle.lab_model.specs.Fit.{SetupFits};
ghost use Rattle.lab_model.specs.Limits.{all_ahead};
ghost use Rattle.player_core.specs.Scene.{IsTask, task_of};

use lab_model::{Ahead, Manifest, Setup};
use network_clock::Clock;
use player_core::Scene;

/// The scene of a film of which so many milliseconds of media are there at instant 0.
pub(crate) fn live_scene<'a>(
    film: &'a Manifest,
    clock: &'a Clock,
    setup: &'a Setup,
    ahead: u32,
) -> Scene<'a>
    requires setup { SetupFits setup.now film.now }
    requires ahead { ahead ≤ all_ahead }
    ensures value { result ≡ task_of film.entry.now clock.entry.now setup.entry.now ahead }
    ensures task { IsTask result }
{
    match Ahead::new(ahead) {
        Some(ahead) => Scene::new(film, clock, setup, ahead),
        None => unreachable!(),
    }
}
