//! The prices of segments at which the link just carries what they take.
//!
//! Segment by segment, what the link has carried at the end of a download is known for each price of its bits: at least what it
//! carries before the earliest begin, and at most what it carries before the latest end. At these two the price may change.

ghost use Rattle.std.specs.Prelude.{◌≡◌, ◌+◌, IfOk, length};
ghost use Rattle.lab_model.specs.Film.{segments_of};
ghost use Rattle.near_best.specs.Prices.{IsCourse, IsForEach};

use crate::course::Course;
use crate::demand::{MOST_PRICE, Step, smallest_rung, steps_of};
use player_core::Scene;
use std::alloc::{AllocError, Global};

/// What the link has carried at the end of a download, for each price: `most` at price 0, less from the price of each step on,
/// and `least` behind the last.
#[derive(Drop)]
struct Carried {
    most: u128,
    least: u128,
    /// By rising price.
    steps: Vec<Step>,
}

/// The prices between which the price of a segment lies, unless that of the next one lies between.
#[derive(Clone, Copy, Debug)]
struct Limits {
    low: u64,
    high: u64,
}

impl Carried {
    /// Puts a step in its place.
    fn put(&mut self, step: Step) -> Result<(), AllocError> {
        let mut place = self.steps.len();
        while place > 0 && self.steps[place - 1].price > step.price {
            place -= 1;
        }
        self.steps.insert(place, step)?;
        Ok(())
    }

    /// Adds a download: its least bits and its steps.
    fn add(&mut self, least: u64, steps: &[Step]) -> Result<(), AllocError> {
        let mut most = least;
        for step in steps {
            most = most.saturating_add(step.bits);
            self.put(*step)?;
        }
        self.least = self.least.saturating_add(least as u128);
        self.most = self.most.saturating_add(most as u128);
        Ok(())
    }

    /// Keeps what is carried up to a limit, and answers the least price at which it is no more.
    fn keep_below(&mut self, limit: u128) -> u64 {
        let mut over = self.most.saturating_sub(limit);
        self.most = self.most.min(limit);
        self.least = self.least.min(limit);
        let mut price = 0;
        let mut gone = 0;
        while over > 0 {
            if gone >= self.steps.len() {
                price = MOST_PRICE;
                break;
            }
            let step = self.steps[gone];
            price = step.price;
            if step.bits as u128 > over {
                self.steps[gone].bits = step.bits - over as u64;
                break;
            }
            over -= step.bits as u128;
            gone += 1;
        }
        self.steps.drain(..gone);
        price
    }

    /// Keeps what is carried from a limit on, and answers the least price at which it is no more than that.
    fn keep_above(&mut self, limit: u128) -> u64 {
        let mut under = limit.saturating_sub(self.least);
        self.most = self.most.max(limit);
        self.least = self.least.max(limit);
        let mut price = MOST_PRICE;
        let mut left = self.steps.len();
        while under > 0 {
            if left == 0 {
                price = 0;
                break;
            }
            let step = self.steps[left - 1];
            price = step.price;
            if step.bits as u128 > under {
                self.steps[left - 1].bits = step.bits - under as u64;
                break;
            }
            under -= step.bits as u128;
            left -= 1;
        }
        self.steps.truncate(left);
        price
    }
}

/// The limits of each segment's price, from segment 1 on.
fn limits_of(alloc: Global, scene: &Scene<'_>, course: &Course) -> Result<Vec<Limits>, AllocError>
    requires { IsCourse scene.now course.now }
    ensures { IfOk result (λ v. length v.items + 1 ≡ segments_of scene.now.film) }
{
    let film = scene.film();
    let mut carried = Carried {
        most: 0,
        least: 0,
        steps: Vec::new(alloc),
    };
    let mut limits = Vec::new(alloc);
    let count = film.segments();
    for segment in 1..count {
        let place = segment as usize;
        let high = carried.keep_above(course.begins[place]);
        let least = 1000 * film.size(segment, smallest_rung(scene, segment)) as u64;
        carried.add(least, &steps_of(alloc, scene, segment)?)?;
        let low = carried.keep_below(course.ends[place]);
        limits.push(Limits { low, high })?;
    }
    Ok(limits)
}

/// The price of each segment, at most 10^12; that of segment 0 is 0.
pub fn prices_of(alloc: Global, scene: &Scene<'_>, course: &Course) -> Result<Vec<u64>, AllocError>
    requires { IsCourse scene.now course.now }
    ensures { IfOk result (λ v. IsForEach scene.now v.items) }
{
    let limits = limits_of(alloc, scene, course)?;
    let mut prices = vec![in alloc; 0u64; limits.len() + 1]?;
    let mut high = 0;
    let mut price = 0u64;
    for back in 0..limits.len() {
        let place = limits.len() - 1 - back;
        let low = limits[place].low;
        price = price.min(high).max(low);
        prices[place + 1] = price;
        high = limits[place].high;
    }
    Ok(prices)
}
