//! What the link carries before a segment's download begins and ends, by delays.

ghost use Rattle.std.specs.Prelude.{◌<◌};
ghost use Rattle.lab_model.specs.Film.{segments_of};

use player_core::Scene;

/// No delay that is tried is longer, in milliseconds.
pub const FARTHEST_DELAY_MS: u64 = 1_000_000_000_000;

/// The instant at which a segment is asked for at the earliest, after a delay of the segment before.
pub fn begin_of(scene: &Scene<'_>, first: u64, segment: u16, delay: u64) -> u64
    requires { segment < segments_of scene.now.film }
{
    let media = (segment as u64 + 1) * scene.film().seg_ms() as u64;
    let wanted = delay.saturating_add(media);
    let room = wanted.saturating_sub(scene.setup().buffer_ms as u64);
    first.max(room).max(scene.available(segment))
}

/// The instant at which it has come at the latest, where it has a delay.
pub fn end_of(scene: &Scene<'_>, segment: u16, delay: u64) -> u64 {
    let media = segment as u64 * scene.film().seg_ms() as u64;
    delay.saturating_add(media)
}

/// The thousandths of a bit that the link carries before the earliest begin.
pub fn carried_to_begin(scene: &Scene<'_>, first: u64, segment: u16, delay: u64) -> u128
    requires { segment < segments_of scene.now.film }
{
    let begin = begin_of(scene, first, segment, delay);
    scene.clock().carried_before(begin)
}

/// Those that it carries before the latest end.
pub fn carried_to_end(scene: &Scene<'_>, segment: u16, delay: u64) -> u128 {
    scene.clock().carried_before(end_of(scene, segment, delay))
}
