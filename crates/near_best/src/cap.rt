//! Prices where the player may stall: above a cap stalls are cheaper than the link's bits.

ghost use Rattle.std.specs.Prelude.{◌≡◌, ◌<◌, IfOk, length};
ghost use Rattle.lab_model.specs.Film.{rungs_of};
ghost use Rattle.near_best.specs.Prices.{ArePriced, IsForEach};

use crate::delay::{Priced, priced_on};
use crate::play::greatest;
use crate::stalls::link_worth;
use crate::windows::shared_prices;
use crate::worth::{all_gains, first_worth};
use labels::start_on;
use player_core::Scene;
use std::alloc::{AllocError, Global};

/// The parts by one of which a cap is lowered at a time: first to find a cap, then to find the best about it.
const COARSE_PARTS: u64 = 2;

const FINE_PARTS: u64 = 12;

/// What prices come to where the player may stall.
fn worth_with_stalls(
    alloc: Global,
    scene: &Scene<'_>,
    priced: &Priced,
    prices: &[u64],
) -> Result<i128, AllocError>
    requires priced { ArePriced scene.now priced.now }
    requires prices { IsForEach scene.now prices.now }
{
    prove!(scene.film().segments() > 0);
    let shared = shared_prices(alloc, scene, &priced.course, prices)?;
    let link = link_worth(alloc, scene, priced.first, prices, &shared)?;
    Ok(all_gains(scene, prices).saturating_add(link))
}

/// Prices at a cap.
fn prices_under(alloc: Global, prices: &[u64], cap: u64) -> Result<Vec<u64>, AllocError>
    ensures { IfOk result (λ v. length v.items ≡ length prices.now) }
{
    let mut capped = Vec::new(alloc);
    for place in 0..prices.len() {
        capped.push(prices[place].min(cap))?;
    }
    Ok(capped)
}

/// The cap, from one on, below which prices come to more; it is lowered by one of so many parts at a time.
fn best_cap(
    alloc: Global,
    scene: &Scene<'_>,
    priced: &Priced,
    from: u64,
    parts: u64,
) -> Result<u64, AllocError>
    requires priced { ArePriced scene.now priced.now }
    requires parts { 1 < parts }
{
    let mut best = i128::MAX;
    let mut cap = from;
    while cap > 0 {
        let lower = cap - 1 - (cap - 1) / parts;
        let prices = prices_under(alloc, &priced.prices, lower)?;
        let worth = worth_with_stalls(alloc, scene, priced, &prices)?;
        if worth > best {
            return Ok(cap);
        }
        best = worth;
        cap = lower;
    }
    Ok(cap)
}

/// The prices at the cap at which they come to the least.
fn with_cap(alloc: Global, scene: &Scene<'_>, priced: Priced) -> Result<Priced, AllocError>
    requires { ArePriced scene.now priced }
    ensures { IfOk result (ArePriced scene.now) }
{
    let most = greatest(&priced.prices);
    let about = best_cap(alloc, scene, &priced, most, COARSE_PARTS)?;
    let from = about.saturating_mul(2).min(most);
    let cap = best_cap(alloc, scene, &priced, from, FINE_PARTS)?;
    let prices = prices_under(alloc, &priced.prices, cap)?;
    let worth = worth_with_stalls(alloc, scene, &priced, &prices)?;
    let mut found = priced;
    found.prices = prices;
    found.worth = worth;
    Ok(found)
}

/// The prices behind a first rung, with all that its lists may come to.
fn all_priced_on(alloc: Global, scene: &Scene<'_>, rung: u8) -> Result<Priced, AllocError>
    requires { rung < rungs_of scene.now.film }
    ensures { IfOk result (ArePriced scene.now) }
{
    let priced = priced_on(alloc, scene, rung)?;
    let mut found = with_cap(alloc, scene, priced)?;
    let first = first_worth(scene, rung, start_on(scene, rung).p);
    found.worth = found.worth.saturating_add(first);
    Ok(found)
}

/// The prices behind the first rung whose lists may come to the most.
pub fn near_prices(alloc: Global, scene: &Scene<'_>) -> Result<Priced, AllocError>
    ensures { IfOk result (ArePriced scene.now) }
{
    let count = scene.film().rungs();
    let mut best = all_priced_on(alloc, scene, 0)?;
    for rung in 1..count {
        let next = all_priced_on(alloc, scene, rung)?;
        if next.worth > best.worth {
            best = next;
        }
    }
    Ok(best)
}
