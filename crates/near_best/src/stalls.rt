//! What the link's bits are worth where the player may stall: the most over delays that rise along the film, by coarse steps.

ghost use Rattle.std.specs.Prelude.{◌≡◌, ◌<◌, ◌≤◌, IfOk, length};
ghost use Rattle.lab_model.specs.Film.{segments_of};
ghost use Rattle.near_best.specs.Prices.{IsForEach, IsForEachEdge};

use crate::link::{FARTHEST_DELAY_MS, carried_to_begin, carried_to_end};
use crate::worth::{fall_at, rise_at, stall_cost, worth_of_bits};
use player_core::Scene;
use std::alloc::{AllocError, Global};

/// By so many parts of what it lies behind the first delay a step is longer than 1 ms.
const GROWTH_PARTS: u64 = 16;

/// By so many parts of what it lies behind the first delay a cell of delays is wide.
const CELL_PARTS: u64 = 64;

/// Up to so long a stall all delays are tried close together, in milliseconds: a network may be fast for some while.
const LEAST_DEAREST_MS: u64 = 1_000_000;

/// The longest stall that may be worth its cost: that which costs what all segments gain, or a little more.
pub fn dearest_stall(scene: &Scene<'_>) -> u64 {
    let (film, weights) = (scene.film(), &scene.setup().weights);
    prove!(film.rungs() > 0);
    let top = film.rungs() - 1;
    let count = film.segments();
    let mut gain = 0u64;
    for segment in 0..count {
        gain = gain.saturating_add(1000 * weights.utility(segment, top) as u64);
    }
    (gain / (weights.stall() as u64).max(1)).max(LEAST_DEAREST_MS)
}

/// By how much a step behind a stall is longer than 1 ms.
fn growth(stall: u64, dearest: u64) -> u64
    ensures { result ≤ stall }
{
    if stall < dearest {
        stall / GROWTH_PARTS
    } else {
        stall
    }
}

/// The delays that are tried, from the first on: close together up to the dearest stall, then each about double the one before.
fn tried_delays(alloc: Global, first: u64, dearest: u64) -> Result<Vec<u64>, AllocError>
    ensures { IfOk result (λ v. 1 ≤ length v.items) }
{
    let mut delays = Vec::new(alloc);
    let mut delay = first;
    delays.push(delay)?;
    while delay < FARTHEST_DELAY_MS {
        delay = delay + 1 + growth(delay.saturating_sub(first), dearest);
        delays.push(delay)?;
    }
    Ok(delays)
}

/// The latest delay in the cell of one.
pub fn latest_of(first: u64, delay: u64) -> u64 {
    delay.saturating_add(delay.saturating_sub(first) / CELL_PARTS)
}

/// What the link's bits up to the latest end of a segment are worth, in the cell of a delay.
fn worth_to_end(scene: &Scene<'_>, segment: u16, first: u64, delay: u64, price: u64) -> i128 {
    if price == 0 {
        return 0;
    }
    worth_of_bits(
        carried_to_end(scene, segment, latest_of(first, delay)),
        price,
    )
}

/// What those before the earliest begin of a segment are worth.
fn worth_to_begin(scene: &Scene<'_>, segment: u16, first: u64, delay: u64, price: u64) -> i128
    requires { segment < segments_of scene.now.film }
{
    if price == 0 {
        return 0;
    }
    worth_of_bits(carried_to_begin(scene, first, segment, delay), price)
}

/// The most in a table.
fn most_of(table: &[i128]) -> i128 {
    let mut most = i128::MIN;
    for worth in table {
        most = most.max(*worth);
    }
    most
}

/// What the stalls up to each delay cost, as a loss.
fn stall_losses(alloc: Global, scene: &Scene<'_>, delays: &[u64]) -> Result<Vec<i128>, AllocError>
    requires { 1 ≤ length delays.now }
    ensures { IfOk result (λ v. length v.items ≡ length delays.now) }
{
    let mut losses = Vec::new(alloc);
    for place in 0..delays.len() {
        let cost = stall_cost(scene, delays[place].saturating_sub(delays[0]));
        losses.push(0i128.saturating_sub(cost))?;
    }
    Ok(losses)
}

/// Adds the latest end of a segment to what the delays behind it come to: each delay may be followed by a longer one.
fn add_end(scene: &Scene<'_>, delays: &[u64], segment: u16, fall: u64, table: &mut [i128])
    requires delays { 1 ≤ length delays.now }
    requires table { length table.old ≡ length delays.now }
    ensures { length table.new ≡ length delays.now }
{
    let mut best = i128::MIN;
    for done in 0..delays.len() {
        let place = delays.len() - 1 - done;
        let end = worth_to_end(scene, segment, delays[0], delays[place], fall);
        best = best.max(end.saturating_add(table[place]));
        table[place] = best;
    }
}

/// Takes its earliest begin off.
fn take_begin(scene: &Scene<'_>, delays: &[u64], segment: u16, rise: u64, table: &mut [i128])
    requires segment { segment < segments_of scene.now.film }
    requires delays { 1 ≤ length delays.now }
    requires table { length table.old ≡ length delays.now }
    ensures { length table.new ≡ length delays.now }
{
    for place in 0..delays.len() {
        let begin = worth_to_begin(scene, segment, delays[0], delays[place], rise);
        table[place] = table[place].saturating_sub(begin);
    }
}

/// The most that the link's bits come to at these prices, less the stalls.
pub fn link_worth(
    alloc: Global,
    scene: &Scene<'_>,
    first: u64,
    prices: &[u64],
    shared: &[u64],
) -> Result<i128, AllocError>
    requires prices { IsForEach scene.now prices.now }
    requires shared { IsForEachEdge scene.now shared.now }
{
    prove!(scene.film().segments() > 0);
    let delays = tried_delays(alloc, first, dearest_stall(scene))?;
    let mut table = stall_losses(alloc, scene, &delays)?;
    for done in 1..prices.len() {
        let segment = prices.len() - done;
        let rise = rise_at(prices, shared, segment);
        let fall = fall_at(prices, shared, segment);
        if fall > 0 {
            add_end(scene, &delays, segment as u16, fall, &mut table);
        }
        if rise > 0 {
            take_begin(scene, &delays, segment as u16, rise, &mut table);
        }
    }
    Ok(most_of(&table))
}

/// What the link's bits behind each segment may come to, less all stalls, by the delay of the segment.
#[derive(Drop, Debug)]
pub struct Outlook {
    /// The delays that are tried.
    delays: Vec<u64>,
    /// By segment from the last to the first, what the link's bits come to up to all latest ends behind it, after each delay.
    worths: Vec<Vec<i128>>,
}

impl Outlook {
    /// The outlook at these prices, from a first delay on.
    pub fn new(
        alloc: Global,
        scene: &Scene<'_>,
        first: u64,
        prices: &[u64],
        shared: &[u64],
    ) -> Result<Outlook, AllocError>
        requires prices { IsForEach scene.now prices.now }
        requires shared { IsForEachEdge scene.now shared.now }
    {
        prove!(scene.film().segments() > 0);
        let delays = tried_delays(alloc, first, dearest_stall(scene))?;
        let mut table = stall_losses(alloc, scene, &delays)?;
        let mut worths = Vec::new(alloc);
        worths.push(table.to_vec(alloc)?)?;
        for done in 1..prices.len() {
            let segment = prices.len() - done;
            let rise = rise_at(prices, shared, segment);
            let fall = fall_at(prices, shared, segment);
            add_end(scene, &delays, segment as u16, fall, &mut table);
            worths.push(table.to_vec(alloc)?)?;
            take_begin(scene, &delays, segment as u16, rise, &mut table);
        }
        Ok(Outlook { delays, worths })
    }

    /// A delay that is tried.
    pub fn delay(&self, place: usize) -> u64 {
        match self.delays.get(place) {
            None => 0,
            Some(delay) => *delay,
        }
    }

    /// The place of the delay of a segment, behind which so many are left less one, that follows that of the one before best.
    pub fn next_place(&self, left: usize, place: usize) -> usize {
        match self.worths.get(left) {
            None => place,
            Some(worths) => last_equal(worths, place),
        }
    }
}

/// The last place up to which numbers are equal from a place on.
fn last_equal(numbers: &[i128], from: usize) -> usize {
    for place in from.saturating_add(1)..numbers.len() {
        if numbers[place] != numbers[place - 1] {
            return place - 1;
        }
    }
    numbers.len().saturating_sub(1)
}
