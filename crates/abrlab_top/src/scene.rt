//! What a command plays, plans or checks on.

ghost use Rattle.std.specs.Prelude.{◌≡◌};
ghost use Rattle.lab_model.specs.Fit.{SetupFits};
ghost use Rattle.player_core.specs.Scene.{IsTask};
ghost use Rattle.abrlab_top.specs.Ahead.{ahead_of};
ghost use Rattle.abrlab_top.specs.Plan.{task_on};

use lab_inputs::Inputs;
use lab_model::Ahead;
use network_clock::Clock;
use player_core::Scene;

/// The media that are there at instant 0: of a film on demand all.
fn media_ahead(inputs: &Inputs) -> Ahead
    ensures { result ≡ ahead_of inputs.now.live }
{
    match inputs.live() {
        Some(ahead) => ahead,
        None => Ahead::all(),
    }
}

/// The scene of a command's inputs, whose setup fits the film, on a network.
pub(crate) fn scene_on<'a>(inputs: &'a Inputs, clock: &'a Clock) -> Scene<'a>
    requires { SetupFits inputs.now.setup inputs.now.film }
    ensures value { result ≡ task_on inputs.entry.now clock.entry.now }
    ensures task { IsTask result }
{
    Scene::new(
        inputs.manifest(),
        clock,
        inputs.setup(),
        media_ahead(inputs),
    )
}
