//! What prices come to: the dual value.

ghost use Rattle.std.specs.Prelude.{◌≡◌, ◌+◌, ◌<◌, length};
ghost use Rattle.lab_model.specs.Film.{rungs_of, segments_of};
ghost use Rattle.near_best.specs.Prices.{IsCourse, IsForEach, IsForEachEdge};

use crate::course::Course;
use crate::demand::PRICE_UNIT;
use player_core::Scene;

/// No worth of bits is taken to be greater.
const MOST_WORTH: u128 = 100_000_000_000_000_000_000_000_000_000_000_000_000;

/// What so many thousandths of a bit are worth at a price.
pub fn worth_of_bits(bits: u128, price: u64) -> i128 {
    bits.saturating_mul(price as u128).min(MOST_WORTH) as i128
}

/// The rise of the price at a segment, which windows that begin there make.
pub fn rise_at(prices: &[u64], shared: &[u64], segment: usize) -> u64
    requires segment { segment < length prices.now }
    requires shared { length shared.now ≡ length prices.now + 1 }
{
    prices[segment].saturating_sub(shared[segment])
}

/// The fall of the price behind a segment, which windows that end there make.
pub fn fall_at(prices: &[u64], shared: &[u64], segment: usize) -> u64
    requires segment { segment < length prices.now }
    requires shared { length shared.now ≡ length prices.now + 1 }
{
    prices[segment].saturating_sub(shared[segment + 1])
}

/// What a segment gains on a rung at a price, in parts of 10^-9 of a thousandth of a point.
fn gain_of(scene: &Scene<'_>, segment: u16, rung: u8, price: u64) -> i128
    requires segment { segment < segments_of scene.now.film }
    requires rung { rung < rungs_of scene.now.film }
{
    let utility = scene.setup().weights.utility(segment, rung);
    let gain = PRICE_UNIT as i128 * 1000 * utility as i128;
    let bits = 1000 * scene.film().size(segment, rung) as i128;
    gain.saturating_sub(bits.saturating_mul(price as i128))
}

/// The rung on which a segment gains the most at a price.
pub fn best_rung(scene: &Scene<'_>, segment: u16, price: u64) -> u8
    requires { segment < segments_of scene.now.film }
    ensures { result < rungs_of scene.now.film }
{
    let count = scene.film().rungs();
    let mut best = 0u8;
    let mut most = gain_of(scene, segment, 0, price);
    for rung in 1..count {
        let gain = gain_of(scene, segment, rung, price);
        if gain > most {
            best = rung;
            most = gain;
        }
    }
    best
}

/// The most that a segment gains at a price.
fn most_gain(scene: &Scene<'_>, segment: u16, price: u64) -> i128
    requires { segment < segments_of scene.now.film }
{
    gain_of(scene, segment, best_rung(scene, segment, price), price)
}

/// The most that all segments but the first gain at their prices.
pub fn all_gains(scene: &Scene<'_>, prices: &[u64]) -> i128
    requires { IsForEach scene.now prices.now }
{
    prove!(scene.film().segments() > 0);
    let mut worth = 0i128;
    for segment in 1..prices.len() {
        worth = worth.saturating_add(most_gain(scene, segment as u16, prices[segment]));
    }
    worth
}

/// What so much stall costs.
pub fn stall_cost(scene: &Scene<'_>, stall_ms: u64) -> i128 {
    let weight = PRICE_UNIT as i128 * scene.setup().weights.stall() as i128;
    weight.saturating_mul(stall_ms as i128)
}

/// What the link's bits come to at prices.
pub fn worth_along(scene: &Scene<'_>, course: &Course, prices: &[u64], shared: &[u64]) -> i128
    requires course { IsCourse scene.now course.now }
    requires prices { IsForEach scene.now prices.now }
    requires shared { IsForEachEdge scene.now shared.now }
{
    prove!(scene.film().segments() > 0);
    let mut worth = 0i128;
    for segment in 1..prices.len() {
        let rise = rise_at(prices, shared, segment);
        let fall = fall_at(prices, shared, segment);
        worth = worth.saturating_add(worth_of_bits(course.ends[segment], fall));
        worth = worth.saturating_sub(worth_of_bits(course.begins[segment], rise));
    }
    worth
}

/// What the first segment gains on a rung that comes at this delay.
pub fn first_worth(scene: &Scene<'_>, rung: u8, first: u64) -> i128
    requires { rung < rungs_of scene.now.film }
{
    prove!(scene.film().segments() > 0);
    let weights = &scene.setup().weights;
    let gain = PRICE_UNIT as i128 * 1000 * weights.utility(0, rung) as i128;
    let weight = PRICE_UNIT as i128 * weights.startup() as i128;
    gain.saturating_sub(weight.saturating_mul(first as i128))
}
