//! From prices of segments to windows.

ghost use Rattle.std.specs.Prelude.{◌≡◌, ◌+◌, ◌<◌, ◌≤◌, IfOk, length};
ghost use Rattle.lab_model.specs.Film.{segments_of};
ghost use Rattle.near_best.specs.Prices.{ArePricesOf, IsCourse, IsForEach, IsForEachEdge};

use crate::course::Course;
use crate::demand::MOST_PRICE;
use player_core::Scene;
use price_bounds::Window;
use std::alloc::{AllocError, Global};

/// The most windows.
const MOST_WINDOWS: usize = 4000;

/// The prices of segments, and what of them windows carry over from one to the next.
#[derive(Drop, Debug)]
pub struct Tariff {
    /// The price of each segment.
    pub prices: Vec<u64>,
    /// What windows carry over to each segment from the one before, and 0 behind the last.
    pub shared: Vec<u64>,
}

/// The part of the prices that windows carry over from the segment before to each segment, and from the last to none. Where a
/// segment can't begin before the one before has to end, no window holds both.
pub fn shared_prices(
    alloc: Global,
    scene: &Scene<'_>,
    course: &Course,
    prices: &[u64],
) -> Result<Vec<u64>, AllocError>
    requires course { IsCourse scene.now course.now }
    requires prices { IsForEach scene.now prices.now }
    ensures { IfOk result (λ v. IsForEachEdge scene.now v.items) }
{
    prove!(scene.film().segments() > 0);
    let mut shared = Vec::new(alloc);
    shared.push(0)?;
    for segment in 1..prices.len() {
        let is_apart = course.begins[segment] >= course.ends[segment - 1];
        let both = prices[segment].min(prices[segment - 1]);
        shared.push(if segment == 1 || is_apart { 0 } else { both })?;
    }
    shared.push(0)?;
    Ok(shared)
}

/// Prices, with what windows carry over where the link carries so much.
pub fn tariff_of(
    alloc: Global,
    scene: &Scene<'_>,
    course: &Course,
    prices: &[u64],
) -> Result<Tariff, AllocError>
    requires course { IsCourse scene.now course.now }
    requires prices { IsForEach scene.now prices.now }
    ensures { IfOk result (ArePricesOf scene.now) }
{
    Ok(Tariff {
        prices: prices.to_vec(alloc)?,
        shared: shared_prices(alloc, scene, course, prices)?,
    })
}

/// Adds a window, where it has a price and there is room for it.
fn add_window(windows: &mut Vec<Window>, window: Window) -> Result<(), AllocError> {
    if window.price > 0 && windows.len() < MOST_WINDOWS {
        windows.push(window)?;
    }
    Ok(())
}

/// Adds the windows that begin with a segment.
fn add_windows(
    windows: &mut Vec<Window>,
    prices: &[u64],
    shared: &[u64],
    first: usize,
) -> Result<(), AllocError>
    requires few { length prices.now ≤ 2000 }
    requires first { first < length prices.now }
    requires shared { length shared.now ≡ length prices.now + 1 }
{
    let floor = shared[first];
    let mut level = prices[first].min(MOST_PRICE);
    for last in first..prices.len() {
        let next = shared[last + 1].max(floor);
        let window = Window {
            first: first as u16,
            last: last as u16,
            price: level.saturating_sub(next),
        };
        add_window(windows, window)?;
        level = level.min(next);
    }
    Ok(())
}

/// The windows whose prices sum up to those of the segments.
pub fn windows_of(alloc: Global, prices: &[u64], shared: &[u64]) -> Result<Vec<Window>, AllocError>
    requires few { length prices.now ≤ 2000 }
    requires shared { length shared.now ≡ length prices.now + 1 }
{
    let mut windows = Vec::new(alloc);
    for first in 1..prices.len() {
        add_windows(&mut windows, prices, shared, first)?;
    }
    Ok(windows)
}
