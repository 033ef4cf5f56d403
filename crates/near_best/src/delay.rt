//! The delay at which prices are found: that at which they come to the most.

ghost use Rattle.std.specs.Prelude.{◌<◌, IfOk};
ghost use Rattle.lab_model.specs.Film.{rungs_of};
ghost use Rattle.near_best.specs.Prices.{ArePriced, IsForEach};

use crate::course::{Course, course_along};
use crate::link::FARTHEST_DELAY_MS;
use crate::prices::prices_of;
use crate::windows::shared_prices;
use crate::worth::{all_gains, stall_cost, worth_along};
use labels::start_on;
use player_core::Scene;
use std::alloc::{AllocError, Global};

/// The first step by which the delay is moved, in milliseconds.
const FIRST_MOVE_MS: u64 = 65_536;

/// Prices of segments, and what they come to at their delays.
#[derive(Drop, Debug)]
pub struct Priced {
    /// The delay of all segments but the first.
    pub rest: u64,
    /// The delay of the first segment.
    pub first: u64,
    /// What the link carries at these delays.
    pub course: Course,
    /// In parts of 10^-9 of a thousandth of a point.
    pub worth: i128,
    /// The price of each segment.
    pub prices: Vec<u64>,
}

/// A first delay, and one delay of all other segments.
fn delays_of(
    alloc: Global,
    scene: &Scene<'_>,
    first: u64,
    rest: u64,
) -> Result<Vec<u64>, AllocError>
    ensures { IfOk result (λ v. IsForEach scene.now v.items) }
{
    prove!(scene.film().segments() > 0);
    let mut delays = vec![in alloc; rest; scene.film().segments() as usize]?;
    delays[0] = first;
    Ok(delays)
}

/// The prices where all segments but the first have one delay.
fn priced_at(alloc: Global, scene: &Scene<'_>, first: u64, rest: u64) -> Result<Priced, AllocError>
    ensures { IfOk result (ArePriced scene.now) }
{
    prove!(scene.film().segments() > 0);
    let delays = delays_of(alloc, scene, first, rest)?;
    let course = course_along(alloc, scene, &delays)?;
    let prices = prices_of(alloc, scene, &course)?;
    let shared = shared_prices(alloc, scene, &course, &prices)?;
    let stall_ms = delays[delays.len() - 1].saturating_sub(first);
    let link = worth_along(scene, &course, &prices, &shared).saturating_sub(stall_cost(
        scene, stall_ms,
    ));
    let worth = all_gains(scene, &prices).saturating_add(link);
    Ok(Priced {
        rest,
        first,
        course,
        worth,
        prices,
    })
}

/// The better of prices and those at another delay.
fn better_at(
    alloc: Global,
    scene: &Scene<'_>,
    old: Priced,
    first: u64,
    rest: u64,
) -> Result<Priced, AllocError>
    requires { ArePriced scene.now old }
    ensures { IfOk result (ArePriced scene.now) }
{
    let new = priced_at(alloc, scene, first, rest)?;
    Ok(if new.worth > old.worth { new } else { old })
}

/// The prices behind a first rung, at the delay at which they come to the most.
pub fn priced_on(alloc: Global, scene: &Scene<'_>, rung: u8) -> Result<Priced, AllocError>
    requires { rung < rungs_of scene.now.film }
    ensures { IfOk result (ArePriced scene.now) }
{
    let first = start_on(scene, rung).p;
    let mut best = priced_at(alloc, scene, first, first)?;
    let mut by = FIRST_MOVE_MS;
    while by > 0 {
        let rest = best.rest;
        let later = rest.saturating_add(by).min(FARTHEST_DELAY_MS);
        best = better_at(alloc, scene, best, first, later)?;
        let sooner = rest.saturating_sub(by).max(first);
        best = better_at(alloc, scene, best, first, sooner)?;
        by /= 2;
    }
    Ok(best)
}
