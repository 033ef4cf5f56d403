//! The calls on labels.

ghost use Rattle.std.specs.Prelude.{◌≡◌, ℕ, ◌+◌, ◌-◌, ◌*◌, ◌<◌, ◌≤◌, pos, ◌+ℤ◌, ◌-ℤ◌};
ghost use Rattle.lab_model.specs.Limits.{all_ahead};
ghost use Rattle.lab_model.specs.Number.{IsNear};
ghost use Rattle.lab_model.specs.Film.{rungs_of, segments_of};
ghost use Rattle.lab_model.specs.Fit.{SetupFits};
ghost use Rattle.labels.specs.Grid.{IsGrid, multiple_above, multiple_below, rounded};
ghost use Rattle.labels.specs.Labels.{Dominates, came_at, dominates, next_label, next_value, request_at, start_label, value_at_end};
ghost use Rattle.player_core.specs.Scene.{IsTask, task_of};
ghost use Rattle.labels.specs.Near.{CanFollow};

use crate::rung_label::RungLabel;
use lab_model::{Label, Manifest, Setup};
use network_clock::Clock;
use player_core::Scene;

/// The value after what is gained and what is lost.
pub(crate) fn value_after(v: i64, gain: u64, loss: u64) -> i64
    requires value { IsNear 1000000000000000000 v }
    requires gain { gain ≤ 1000000000000000000 }
    requires loss { loss ≤ 1000000000000000000 }
    ensures { result ≡ (v +ℤ pos gain) -ℤ pos loss }
{
    v + gain as i64 - loss as i64
}

/// The label of segment 0 on a rung.
pub fn start_on(scene: &Scene<'_>, rung: u8) -> Label
    requires { rung < rungs_of scene.now.film }
    ensures label { result ≡ start_label scene.now rung }
    ensures task { IsTask scene.now }
{
    let film = scene.film();
    let weights = &scene.setup().weights;
    prove!(film.segments() > 0);
    let t = scene
        .clock()
        .finish(scene.available(0), film.size(0, rung))
        .done;
    let gain = 1000 * weights.utility(0, rung) as u64 + weights.stall() as u64 * t;
    let loss = weights.startup() as u64 * t;
    Label {
        t,
        p: t,
        v: value_after(0, gain, loss),
    }
}

/// The label of segment 0 on a rung, of a film on demand.
pub fn start_label(film: &Manifest, clock: &Clock, setup: &Setup, rung: u8) -> Label
    requires setup { SetupFits setup.now film.now }
    requires rung { rung < rungs_of film.now }
    ensures { result ≡ start_label (task_of film.now clock.now setup.now all_ahead) rung }
{
    start_on(&Scene::on_demand(film, clock, setup), rung)
}

/// The successor, to segment `segment` on `rung`, of a label of the segment before on `old_rung`, of a film on demand.
/// The times of the old label are at most 10^15 ms, and its value lies within 10^18 thousandths of a point of 0.
pub fn next_label(
    film: &Manifest,
    clock: &Clock,
    setup: &Setup,
    segment: u16,
    old_rung: u8,
    old: Label,
    rung: u8,
) -> Label
    requires setup { SetupFits setup.now film.now }
    requires segment { (1 ≤ segment) × (segment < segments_of film.now) }
    requires old_rung { old_rung < rungs_of film.now }
    requires rung { rung < rungs_of film.now }
    requires old { CanFollow old }
    ensures { let g = task_of film.now clock.now setup.now all_ahead in
        result ≡ next_label g segment old_rung old rung }
{
    let scene = Scene::on_demand(film, clock, setup);
    RungLabel::new(&scene, segment - 1, old_rung, old).next(rung)
}

/// The value that a label of the last segment comes to, in thousandths of a point: its stalls and startup, at
/// most 2 * 10^15 ms, are weighed.
pub fn end_value(setup: &Setup, last: Label) -> i128
    requires { last.p ≤ 2000000000000000 }
    ensures { result ≡ value_at_end setup.now.weights last }
{
    last.v as i128 - (setup.weights.stall() as u128 * last.p as u128) as i128
}

/// Whether the first label is no later, has no longer a delay and no less a value than the second.
pub fn dominates(a: Label, b: Label) -> bool
    ensures { result ≡ dominates a b }
{
    a.t <= b.t && a.p <= b.p && a.v >= b.v
}
