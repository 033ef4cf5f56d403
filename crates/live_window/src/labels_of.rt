//! The labels of live sessions.

ghost use Rattle.std.specs.Prelude.{◌≡◌, ◌<◌, ◌≤◌};
ghost use Rattle.lab_model.specs.Film.{rungs_of, segments_of};
ghost use Rattle.lab_model.specs.Fit.{SetupFits};
ghost use Rattle.lab_model.specs.Limits.{all_ahead};
ghost use Rattle.player_core.specs.Scene.{IsTask, task_of};
ghost use Rattle.labels.specs.Labels.{next_label, start_label};
ghost use Rattle.labels.specs.Near.{CanFollow};

use crate::scene::live_scene;
use lab_model::{Label, Manifest, Setup};
use labels::{RungLabel, start_on};
use network_clock::Clock;

/// The label of segment 0 on a rung, in a live session.
pub fn live_start(film: &Manifest, clock: &Clock, setup: &Setup, ahead: u32, rung: u8) -> Label
    requires setup { SetupFits setup.now film.now }
    requires ahead { ahead ≤ all_ahead }
    requires rung { rung < rungs_of film.now }
    ensures label { result ≡ start_label (task_of film.now clock.now setup.now ahead) rung }
    ensures task { IsTask (task_of film.now clock.now setup.now ahead) }
{
    start_on(&live_scene(film, clock, setup, ahead), rung)
}

/// The successor, to segment `segment` on `rung`, of a label of the segment before on `old_rung`, in a live session. The
/// times of the old label are at most 10^15, and its value lies within 10^18 of 0.
pub fn live_next(
    film: &Manifest,
    clock: &Clock,
    setup: &Setup,
    ahead: u32,
    segment: u16,
    old_rung: u8,
    old: Label,
    rung: u8,
) -> Label
    requires setup { SetupFits setup.now film.now }
    requires ahead { ahead ≤ all_ahead }
    requires segment { (1 ≤ segment) × (segment < segments_of film.now) }
    requires old_rung { old_rung < rungs_of film.now }
    requires rung { rung < rungs_of film.now }
    requires old { CanFollow old }
    ensures label { let g = task_of film.now clock.now setup.now ahead in
        result ≡ next_label g segment old_rung old rung }
    ensures task { IsTask (task_of film.now clock.now setup.now ahead) }
{
    let scene = live_scene(film, clock, setup, ahead);
    RungLabel::new(&scene, segment - 1, old_rung, old).next(rung)
}
