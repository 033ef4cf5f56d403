//! A good rung list, and windows that bound all lists, as a certificate.

ghost use Rattle.std.specs.Prelude.{◌≡◌, IfOk};
ghost use Rattle.lab_model.specs.Film.{segments_of};
ghost use Rattle.labels.specs.Form.{HasSignedDigits, score_digits};
ghost use Rattle.labels.specs.Labels.{AreRungs};
ghost use Rattle.price_bounds.specs.Bound.{bound_of};
ghost use Rattle.price_bounds.specs.Verdict.{AreInOrder, IsValid, price_parts};

use crate::cap::near_prices;
use crate::list::best_list;
use crate::play::play;
use crate::windows::windows_of;
use lab_model::NoMemory;
use player_core::Scene;
use price_bounds::{PriceCertificate, Window, are_in_order, bound_of_windows, value_of_list};
use std::alloc::{AllocError, Global};

/// No certificate has a bound of this size or a greater one.
const LEAST_UNSPELLED: i128 = 1_000_000_000_000_000_000_000_000;

/// A rung list, and windows of which nothing is known.
#[derive(Drop, Debug)]
struct Found {
    rungs: Vec<u8>,
    windows: Vec<Window>,
}

/// Windows that are in range and in order, with their bound, which can be spelled.
#[derive(Drop, Debug)]
struct Bounded {
    windows: Vec<Window>,
    bound: i128,
}

/// A good list, and windows of prices near those of the least bound.
fn found_near(alloc: Global, scene: &Scene<'_>) -> Result<Found, AllocError>
    ensures { IfOk result (λ f. AreRungs scene.now (segments_of scene.now.film) f.rungs.items) }
{
    prove!(scene.film().segments() <= 2000);
    let list = best_list(alloc, scene)?;
    let priced = near_prices(alloc, scene)?;
    let tariff = play(alloc, scene, priced)?;
    Ok(Found {
        rungs: list.rungs,
        windows: windows_of(alloc, &tariff.prices, &tariff.shared)?,
    })
}

/// No windows, with their bound.
fn without_windows(alloc: Global, scene: &Scene<'_>) -> Result<Bounded, NoMemory>
    ensures order { IfOk result (λ b. AreInOrder (segments_of scene.now.film) b.windows.items) }
    ensures bound { IfOk result (λ b. b.bound ≡ bound_of scene.now b.windows.items) }
    ensures short { IfOk result (λ b. HasSignedDigits score_digits b.bound) }
{
    let windows = Vec::new(alloc);
    let bound = bound_of_windows(alloc, scene, &windows)?;
    Ok(Bounded { windows, bound })
}

/// Windows with their bound, or no windows where these are out of range or order, or their bound can't be spelled.
fn bound_by(alloc: Global, scene: &Scene<'_>, windows: Vec<Window>) -> Result<Bounded, NoMemory>
    ensures order { IfOk result (λ b. AreInOrder (segments_of scene.now.film) b.windows.items) }
    ensures bound { IfOk result (λ b. b.bound ≡ bound_of scene.now b.windows.items) }
    ensures short { IfOk result (λ b. HasSignedDigits score_digits b.bound) }
{
    if are_in_order(&windows, scene.film().segments()) {
        let bound = bound_of_windows(alloc, scene, &windows)?;
        if bound < LEAST_UNSPELLED {
            return Ok(Bounded { windows, bound });
        }
    }
    without_windows(alloc, scene)
}

/// A good rung list of the film with its value, and windows whose bound is near it: a valid certificate by prices, which can
/// be spelled.
pub fn near_best(alloc: Global, scene: &Scene<'_>) -> Result<PriceCertificate, NoMemory>
    ensures valid { IfOk result (λ c. IsValid scene.now (price_parts c)) }
    ensures score { IfOk result (λ c. HasSignedDigits score_digits c.score) }
    ensures bound { IfOk result (λ c. HasSignedDigits score_digits c.bound) }
    // The bound is that of its own windows.
    ensures exact { IfOk result (λ c. c.bound ≡ bound_of scene.now c.windows.items) }
{
    let film = scene.film();
    let found = found_near(alloc, scene)?;
    let bounded = bound_by(alloc, scene, found.windows)?;
    Ok(PriceCertificate {
        segments: film.segments(),
        rungs: film.rungs(),
        score: value_of_list(scene, &found.rungs),
        bound: bounded.bound,
        plan: found.rungs,
        windows: bounded.windows,
    })
}
