//! How many segments and rungs a scene's film has.

ghost use Rattle.std.specs.Prelude.{◌≡◌};
ghost use Rattle.lab_model.specs.Film.{rungs_of, segments_of};
ghost use Rattle.player_core.specs.Scene.{IsTask};

use player_core::Scene;

/// The number of segments.
pub fn segments(scene: &Scene<'_>) -> u16
    ensures value { result ≡ segments_of scene.now.film }
    ensures task { IsTask scene.now }
{
    scene.film().segments()
}

/// The number of rungs.
pub fn rungs(scene: &Scene<'_>) -> u8
    ensures value { result ≡ rungs_of scene.now.film }
    ensures task { IsTask scene.now }
{
    scene.film().rungs()
}
