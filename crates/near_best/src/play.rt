//! Prices and delays in play against each other, turn by turn: to the prices so far, on the mean, answer the delays at which
//! the link's bits are worth the most; to what the link carries along the delays so far, on the mean, answer the prices at which
//! it just carries what segments take. The mean prices come ever nearer to those of the least bound.

ghost use Rattle.std.specs.Prelude.{◌≡◌, ◌<◌, ◌⊎◌, IfOk, OnOk, length};
ghost use Rattle.lab_model.specs.Film.{rungs_of};
ghost use Rattle.near_best.specs.Prices.{ArePriced, ArePricesOf, IsLook};

use crate::course::{course_on, mean};
use crate::delay::Priced;
use crate::peak::{Peak, peak_of};
use crate::prices::prices_of;
use crate::windows::{Tariff, tariff_of};
use player_core::Scene;
use std::alloc::{AllocError, Global};

/// Turns between two looks at all first rungs.
const TURNS: u16 = 4;

/// So many segments and looks make up the work of a play.
const WORK: u16 = 16_000;

/// At least so many looks.
const LEAST_LOOKS: u16 = 16;

/// At most so many.
const MOST_LOOKS: u16 = 24;

/// Prices are tried up to the greatest one at first, and higher after each so many looks.
const LOOKS_TO_RAISE: u64 = 3;

/// At least prices up to this one are tried.
const LEAST_CAP: u64 = 1000;

/// The greatest of prices.
pub fn greatest(prices: &[u64]) -> u64 {
    let mut most = 0u64;
    for price in prices {
        most = most.max(*price);
    }
    most
}

/// Moves prices towards others, none above a cap.
fn approach(prices: &mut [u64], others: &[u64], cap: u64, turn: u16)
    requires { length others.now ≡ length prices.old }
    ensures { length prices.new ≡ length prices.old }
{
    for place in 0..prices.len() {
        let other = others[place].min(cap);
        let moved = mean(prices[place] as u128, other as u128, turn);
        prices[place] = moved.min(u64::MAX as u128) as u64;
    }
}

/// The cap of the prices that are tried behind a look, by the first cap.
fn cap_at(first: u64, look: u16) -> u64 {
    first.saturating_mul(1 + look as u64 / LOOKS_TO_RAISE)
}

/// How many looks are taken, so that a long film takes no longer.
fn looks_of(scene: &Scene<'_>) -> u16 {
    let looks = WORK / scene.film().segments().max(1);
    looks.max(LEAST_LOOKS).min(MOST_LOOKS)
}

/// Takes a turn: the delays behind a first rung answer the prices, and prices answer the delays.
fn take_turn(
    alloc: Global,
    scene: &Scene<'_>,
    priced: &mut Priced,
    cap: u64,
    rung: u8,
    turn: u16,
) -> Result<(), AllocError>
    requires priced { ArePriced scene.now priced.old }
    requires rung { rung < rungs_of scene.now.film }
    ensures { OnOk result (ArePriced scene.now priced.new) }
{
    let tariff = tariff_of(alloc, scene, &priced.course, &priced.prices)?;
    let other = course_on(alloc, scene, &tariff, rung)?;
    priced.course.approach(&other, turn);
    let answer = prices_of(alloc, scene, &priced.course)?;
    approach(&mut priced.prices, &answer, cap, turn);
    Ok(())
}

/// Takes all turns behind a look, whose number is given.
fn take_turns(
    alloc: Global,
    scene: &Scene<'_>,
    priced: &mut Priced,
    cap: u64,
    rung: u8,
    look: u16,
) -> Result<(), AllocError>
    requires priced { ArePriced scene.now priced.old }
    requires rung { rung < rungs_of scene.now.film }
    ensures { OnOk result (ArePriced scene.now priced.new) }
{
    let before = look.saturating_mul(TURNS);
    for turn in 0..TURNS {
        take_turn(alloc, scene, priced, cap, rung, before.saturating_add(turn))?;
    }
    Ok(())
}

/// Prices, with the first rung behind which lists may come to the most at them.
#[derive(Drop, Debug)]
pub struct Look {
    tariff: Tariff,
    peak: Peak,
}

/// A look at all first rungs.
fn look_at(alloc: Global, scene: &Scene<'_>, priced: &Priced) -> Result<Look, AllocError>
    requires { ArePriced scene.now priced.now }
    ensures { IfOk result (IsLook scene.now) }
{
    let tariff = tariff_of(alloc, scene, &priced.course, &priced.prices)?;
    let peak = peak_of(alloc, scene, &tariff)?;
    Ok(Look { tariff, peak })
}

/// The one of two looks at which lists may come to less.
fn lower_of(old: Look, new: Look) -> Look
    ensures { (result ≡ old) ⊎ (result ≡ new) }
{
    if new.peak.worth < old.peak.worth {
        new
    } else {
        old
    }
}

/// The prices of the least bound among those of all looks.
pub fn play(alloc: Global, scene: &Scene<'_>, priced: Priced) -> Result<Tariff, AllocError>
    requires { ArePriced scene.now priced }
    ensures { IfOk result (ArePricesOf scene.now) }
{
    let cap = greatest(&priced.prices).max(LEAST_CAP);
    let mut means = priced;
    let mut best = look_at(alloc, scene, &means)?;
    let mut rung = best.peak.rung;
    for look in 0..looks_of(scene) {
        take_turns(alloc, scene, &mut means, cap_at(cap, look), rung, look)?;
        let next = look_at(alloc, scene, &means)?;
        rung = next.peak.rung;
        best = lower_of(best, next);
    }
    Ok(best.tariff)
}
