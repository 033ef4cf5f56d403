//! The first rung behind which lists may come to the most at prices.

ghost use Rattle.std.specs.Prelude.{◌<◌, IfOk};
ghost use Rattle.lab_model.specs.Film.{rungs_of};
ghost use Rattle.near_best.specs.Prices.{ArePricesOf};

use crate::stalls::link_worth;
use crate::windows::Tariff;
use crate::worth::{all_gains, first_worth};
use labels::start_on;
use player_core::Scene;
use std::alloc::{AllocError, Global};

/// A first rung, and what the lists behind it may come to.
#[derive(Clone, Copy, Debug)]
pub struct Peak {
    /// The rung.
    pub rung: u8,
    /// What lists may come to, in parts of 10^-9 of a thousandth of a point.
    pub worth: i128,
}

/// What lists may come to behind a first rung, but for what all segments behind the first gain.
fn peak_on(alloc: Global, scene: &Scene<'_>, tariff: &Tariff, rung: u8) -> Result<Peak, AllocError>
    requires tariff { ArePricesOf scene.now tariff.now }
    requires rung { rung < rungs_of scene.now.film }
    ensures { IfOk result (λ p. p.rung < rungs_of scene.now.film) }
{
    let first = start_on(scene, rung).p;
    let link = link_worth(alloc, scene, first, &tariff.prices, &tariff.shared)?;
    let worth = first_worth(scene, rung, first).saturating_add(link);
    Ok(Peak { rung, worth })
}

/// The first rung behind which lists may come to the most.
pub fn peak_of(alloc: Global, scene: &Scene<'_>, tariff: &Tariff) -> Result<Peak, AllocError>
    requires { ArePricesOf scene.now tariff.now }
    ensures { IfOk result (λ p. p.rung < rungs_of scene.now.film) }
{
    let count = scene.film().rungs();
    let mut peak = peak_on(alloc, scene, tariff, 0)?;
    for rung in 1..count {
        let next = peak_on(alloc, scene, tariff, rung)?;
        if next.worth > peak.worth {
            peak = next;
        }
    }
    peak.worth = peak.worth.saturating_add(all_gains(scene, &tariff.prices));
    Ok(peak)
}
