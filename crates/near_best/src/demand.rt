//! What a segment takes at each price of the network's bits.

ghost use Rattle.std.specs.Prelude.{◌≡◌, ◌<◌, ◌⊎◌, IfSome};
ghost use Rattle.lab_model.specs.Film.{rungs_of, segments_of};

use player_core::Scene;
use std::alloc::{AllocError, Global};

/// The thousandths of a bit that cost a window's price.
pub const PRICE_UNIT: u64 = 1_000_000_000;

/// The greatest price of a window.
pub const MOST_PRICE: u64 = 1_000_000_000_000;

/// A step down: from this price on a segment takes so many thousandths of a bit less.
#[derive(Clone, Copy, Debug)]
pub struct Step {
    /// The price, at most 10^12.
    pub price: u64,
    /// Thousandths of a bit.
    pub bits: u64,
}

/// From one rung to another of greater size and utility.
#[derive(Clone, Copy, Debug)]
struct Rise {
    /// The other rung.
    rung: u8,
    /// How much greater its utility is.
    utility: u32,
    /// How much greater its size is, in bits.
    size: u32,
}

/// Whether the first rise gains more for its bits than the second, or as much with more bits.
fn is_steeper(a: Rise, b: Rise) -> bool {
    let one = (a.utility as u64).saturating_mul(b.size as u64);
    let other = (b.utility as u64).saturating_mul(a.size as u64);
    one > other || one == other && a.size > b.size
}

/// The rung of the least size.
pub fn smallest_rung(scene: &Scene<'_>, segment: u16) -> u8
    requires { segment < segments_of scene.now.film }
    ensures { result < rungs_of scene.now.film }
{
    let film = scene.film();
    let count = film.rungs();
    let mut least = 0u8;
    for rung in 1..count {
        if film.size(segment, rung) < film.size(segment, least) {
            least = rung;
        }
    }
    least
}

/// The rise from one rung to another, if that has a greater size and utility.
fn rise_to(scene: &Scene<'_>, segment: u16, from: u8, to: u8) -> Option<Rise>
    requires segment { segment < segments_of scene.now.film }
    requires from { from < rungs_of scene.now.film }
    requires to { to < rungs_of scene.now.film }
    ensures { IfSome result (λ r. r.rung < rungs_of scene.now.film) }
{
    let film = scene.film();
    let weights = &scene.setup().weights;
    let utility = weights
        .utility(segment, to)
        .saturating_sub(weights.utility(segment, from));
    let size = film
        .size(segment, to)
        .saturating_sub(film.size(segment, from));
    if utility == 0 || size == 0 {
        return None;
    }
    Some(Rise {
        rung: to,
        utility,
        size,
    })
}

/// The steeper of two rises.
fn steeper_of(best: Option<Rise>, next: Option<Rise>) -> Option<Rise>
    ensures { (result ≡ best) ⊎ (result ≡ next) }
{
    match (best, next) {
        (None, _) => next,
        (_, None) => best,
        (Some(a), Some(b)) => { if is_steeper(b, a) { next } else { best } }
    }
}

/// The steepest rise from a rung.
fn steepest_rise(scene: &Scene<'_>, segment: u16, from: u8) -> Option<Rise>
    requires segment { segment < segments_of scene.now.film }
    requires from { from < rungs_of scene.now.film }
    ensures { IfSome result (λ r. r.rung < rungs_of scene.now.film) }
{
    let count = scene.film().rungs();
    let mut best: Option<Rise> = None;
    for rung in 0..count {
        best = steeper_of(best, rise_to(scene, segment, from, rung));
    }
    best
}

/// The step down that undoes a rise.
fn step_of(rise: Rise) -> Step {
    let gain = PRICE_UNIT * rise.utility as u64;
    let price = gain.div_ceil((rise.size as u64).max(1));
    Step {
        price: price.min(MOST_PRICE),
        bits: 1000 * rise.size as u64,
    }
}

/// The steps of a segment, by falling price.
pub fn steps_of(alloc: Global, scene: &Scene<'_>, segment: u16) -> Result<Vec<Step>, AllocError>
    requires { segment < segments_of scene.now.film }
{
    let mut steps = Vec::new(alloc);
    let mut rung = smallest_rung(scene, segment);
    for _ in 0..scene.film().rungs() {
        match steepest_rise(scene, segment, rung) {
            None => break,
            Some(rise) => {
                steps.push(step_of(rise))?;
                rung = rise.rung;
            }
        }
    }
    Ok(steps)
}
