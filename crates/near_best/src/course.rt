//! What the link has carried when segments begin and end, along delays and between them.

ghost use Rattle.std.specs.Prelude.{◌≡◌, ◌+◌, ◌<◌, IfOk, length};
ghost use Rattle.lab_model.specs.Film.{rungs_of};
ghost use Rattle.near_best.specs.Prices.{ArePricesOf, IsCourse, IsForEach};

use crate::link::{carried_to_begin, carried_to_end};
use crate::stalls::{Outlook, latest_of};
use crate::windows::Tariff;
use labels::start_on;
use player_core::Scene;
use std::alloc::{AllocError, Global};

/// By such a part more than one turn what is new weighs against the turns before.
const WEIGHT: u64 = 2;

/// What the link has carried, in thousandths of a bit, by segment.
#[derive(Drop, Debug)]
pub struct Course {
    /// Before each segment begins at the earliest.
    pub begins: Vec<u128>,
    /// Before it ends at the latest.
    pub ends: Vec<u128>,
}

/// The mean of what so many turns came to and of what the next one does, where that weighs double.
pub fn mean(old: u128, new: u128, turn: u16) -> u128 {
    let turns = (turn as u128).max(WEIGHT as u128);
    let sum = old
        .saturating_mul(turns)
        .saturating_add(new.saturating_mul(WEIGHT as u128));
    sum / (turns + WEIGHT as u128)
}

/// Moves numbers towards others.
fn approach(numbers: &mut [u128], others: &[u128], turn: u16)
    requires { length others.now ≡ length numbers.old }
    ensures { length numbers.new ≡ length numbers.old }
{
    for place in 0..numbers.len() {
        numbers[place] = mean(numbers[place], others[place], turn);
    }
}

impl Course {
    /// Moves it towards another one.
    pub fn approach(&mut self, other: &Course, turn: u16)
        requires begins { length other.now.begins.items ≡ length self.old.begins.items }
        requires ends { length other.now.ends.items ≡ length self.old.ends.items }
        ensures begins { length self.new.begins.items ≡ length self.old.begins.items }
        ensures ends { length self.new.ends.items ≡ length self.old.ends.items }
    {
        approach(&mut self.begins, &other.begins, turn);
        approach(&mut self.ends, &other.ends, turn);
    }
}

/// What the link has carried where each segment has a delay.
pub fn course_along(alloc: Global, scene: &Scene<'_>, delays: &[u64]) -> Result<Course, AllocError>
    requires { IsForEach scene.now delays.now }
    ensures { IfOk result (IsCourse scene.now) }
{
    prove!(scene.film().segments() > 0);
    let mut begins = Vec::new(alloc);
    let mut ends = Vec::new(alloc);
    begins.push(0)?;
    ends.push(0)?;
    for segment in 1..delays.len() {
        let before = delays[segment - 1];
        begins.push(carried_to_begin(scene, delays[0], segment as u16, before))?;
        ends.push(carried_to_end(scene, segment as u16, delays[segment]))?;
    }
    Ok(Course { begins, ends })
}

/// What the link has carried along the delays behind a first rung at which its bits are worth the most.
pub fn course_on(
    alloc: Global,
    scene: &Scene<'_>,
    tariff: &Tariff,
    rung: u8,
) -> Result<Course, AllocError>
    requires tariff { ArePricesOf scene.now tariff.now }
    requires rung { rung < rungs_of scene.now.film }
    ensures { IfOk result (IsCourse scene.now) }
{
    prove!(scene.film().segments() > 0);
    let first = start_on(scene, rung).p;
    let outlook = Outlook::new(alloc, scene, first, &tariff.prices, &tariff.shared)?;
    let count = tariff.prices.len();
    let mut begins = Vec::new(alloc);
    let mut ends = Vec::new(alloc);
    begins.push(0)?;
    ends.push(0)?;
    let mut place = 0;
    for segment in 1..count {
        let before = outlook.delay(place);
        begins.push(carried_to_begin(scene, first, segment as u16, before))?;
        place = outlook.next_place(count - segment, place);
        let late = latest_of(first, outlook.delay(place));
        ends.push(carried_to_end(scene, segment as u16, late))?;
    }
    Ok(Course { begins, ends })
}
