//! What a trace carries up to any instant, and when so much has been carried, by sums that are kept for
//! the beginning of each period.

ghost use Rattle.std.specs.Prelude.{◌≡◌, ℕ, ◌+◌, ◌-◌, ◌*◌, ◌<◌, ◌≤◌, IfOk, length, slice_index, take};
ghost use Rattle.lab_model.specs.Cycle.{IsPeriod, cycle_bits, cycle_ms};
ghost use Rattle.std.specs.List.{All};
ghost use Rattle.network_clock.specs.Flow.{AreSums, IsPaced, Reaches, Touches, carried_in, flow};
ghost use Rattle.network_clock.specs.Network.{period_at};

use crate::paced::Paced;
use lab_model::Period;
use std::alloc::{AllocError, Global};
use std::marker::Model;

/// The sums of the milliseconds up to the beginning of each period, and of all.
fn starts_of(alloc: Global, paced: &Paced) -> Result<Vec<u64>, AllocError>
    ensures { IfOk result (λ v. AreSums (λ p. p.duration_ms) paced.now
        (length paced.now) v.items) }
{
    let periods = paced.periods();
    let mut starts = Vec::new(alloc);
    let mut sum = 0u64;
    starts.push(sum)?;
    for p in periods {
        sum += p.duration_ms as u64;
        starts.push(sum)?;
    }
    Ok(starts)
}

/// The sums of the thousandths of a bit up to the beginning of each period, and of all.
fn sums_of(alloc: Global, paced: &Paced) -> Result<Vec<u64>, AllocError>
    ensures { IfOk result (λ v. AreSums (λ p. p.duration_ms * p.bandwidth) paced.now
        (length paced.now) v.items) }
{
    let periods = paced.periods();
    let mut sums = Vec::new(alloc);
    let mut sum = 0u64;
    sums.push(sum)?;
    for p in periods {
        sum += p.duration_ms as u64 * p.bandwidth;
        sums.push(sum)?;
    }
    Ok(sums)
}

/// The place from `low` to `high` between whose sum and the next one the target lies, by bisection.
fn place_between(sums: &[u64], mut low: usize, mut high: usize, target: u64) -> usize
    requires order { low < high }
    requires inside { high < length sums.now }
    requires above { slice_index sums.now low < target }
    requires below { target ≤ slice_index sums.now high }
    ensures place { result + 1 < length sums.now }
    ensures above { slice_index sums.now result < target }
    ensures below { target ≤ slice_index sums.now (result + 1) }
{
    while high - low > 1 {
        let middle = low + (high - low) / 2;
        if sums[middle] < target {
            low = middle;
        } else {
            high = middle;
        }
    }
    low
}

/// The place between whose sum and the next one the target lies, from a place on whose sum is below it: by steps that double, then by bisection.
fn place_from(sums: &[u64], from: usize, target: u64) -> usize
    requires some { from + 1 < length sums.now }
    requires above { slice_index sums.now from < target }
    requires below { target ≤ slice_index sums.now (length sums.now - 1) }
    ensures place { result + 1 < length sums.now }
    ensures above { slice_index sums.now result < target }
    ensures below { target ≤ slice_index sums.now (result + 1) }
{
    let last = sums.len() - 1;
    let mut low = from;
    let mut step = 1;
    while step < last - low && sums[low + step] < target {
        low += step;
        step *= 2;
    }
    let high = low + step.min(last - low);
    place_between(sums, low, high, target)
}

/// A place in a trace: so many whole cycles, and a period of the cycle behind them.
#[derive(Clone, Copy)]
pub struct Place {
    /// The whole cycles.
    pub cycles: u64,
    /// The period, counted from 0.
    pub period: usize,
}

/// An instant, and a place whose period it lies in or ends.
#[derive(Clone, Copy)]
pub struct Moment {
    /// The place.
    pub place: Place,
    /// The instant.
    pub instant: u64,
}

/// A trace, or the lane of a number of takers, with its running sums.
#[derive(Drop)]
pub struct Meter {
    periods: Vec<Period>,
    starts: Vec<u64>,
    sums: Vec<u64>,
}

impl Model for Meter {
    ghost use Rattle.std.specs.Prelude.{List};
    ghost use Rattle.lab_model.specs.declared.trace.Period.{Period};
    ghost use Rattle.network_clock.specs.Flow.{IsMeter};

    ghost Value = { List Period };

    ghost view = { λ m. m.periods.items };

    ghost invariant = { λ m. IsMeter m.periods.items m.starts.items m.sums.items };
}

impl Meter {
    /// The meter of these periods.
    pub fn new(alloc: Global, paced: Paced) -> Result<Meter, AllocError>
        ensures { IfOk result (λ m. m ≡ paced) }
    {
        let starts = starts_of(alloc, &paced)?;
        let sums = sums_of(alloc, &paced)?;
        Ok(Meter {
            periods: paced.into_periods(),
            starts,
            sums,
        })
    }

    /// The periods, in order.
    pub fn periods(&self) -> &[Period]
        ensures { result.now ≡ self.now }
    {
        &self.periods
    }

    /// The milliseconds of a cycle.
    fn cycle(&self) -> u64
        ensures value { result ≡ cycle_ms self.now }
        ensures some { 1 ≤ result }
        ensures paced { IsPaced self.now }
    {
        self.starts[self.periods.len()]
    }

    /// What a cycle carries, in thousandths of a bit.
    fn total(&self) -> u64
        ensures value { result ≡ cycle_bits self.now }
        ensures some { 1 ≤ result }
        ensures paced { IsPaced self.now }
    {
        self.sums[self.periods.len()]
    }

    /// The place of an instant.
    pub fn place_at(&self, instant: u64) -> Place
        ensures here { Touches self.now result instant }
        ensures next { Touches self.now result (instant + 1) }
    {
        let cycle = self.cycle();
        let last = self.starts.len() - 1;
        let period = place_between(&self.starts, 0, last, instant % cycle + 1);
        Place {
            cycles: instant / cycle,
            period,
        }
    }

    /// The period of a place.
    pub fn period_of(&self, place: Place) -> Period
        requires { place.period < length self.now }
        ensures { (t : ℕ) → Touches self.now place t → Touches self.now place (t + 1)
            → result ≡ period_at self.now t }
    {
        self.periods[place.period]
    }

    /// What is carried from the beginning of a place's cycle up to an instant in the place's period, in
    /// thousandths of a bit.
    pub fn carried_since(&self, place: Place, instant: u64) -> u64
        requires { Touches self.now place instant }
        ensures value { place.cycles * cycle_bits self.now + result
            ≡ flow carried_in self.now instant }
        ensures least { cycle_bits (take place.period self.now) ≤ result }
        ensures most { result ≤ 1000000000000000000 }
    {
        let begin = place.cycles * self.cycle() + self.starts[place.period];
        self.sums[place.period] + (instant - begin) * self.periods[place.period].bandwidth
    }

    /// What is carried before an instant in a place's period, in thousandths of a bit.
    pub fn carried_at(&self, place: Place, instant: u64) -> u128
        requires { Touches self.now place instant }
        ensures { result ≡ flow carried_in self.now instant }
    {
        place.cycles as u128 * self.total() as u128 + self.carried_since(place, instant) as u128
    }

    /// What is carried before an instant, in thousandths of a bit.
    pub fn carried_before(&self, instant: u64) -> u128
        ensures { result ≡ flow carried_in self.now instant }
    {
        self.carried_at(self.place_at(instant), instant)
    }

    /// The same amount, told from the beginning of the cycle in which the last of it is carried, and a place
    /// of that cycle before which not all of it is.
    fn within_cycle(&self, from: Place, wanted: u64) -> (Place, u64)
        requires inside { from.period < length self.now }
        requires more { cycle_bits (take from.period self.now) < wanted }
        requires soon { from.cycles * cycle_bits self.now + wanted
            ≤ flow carried_in self.now 3000000000000000 }
        ensures inside { result.0.period < length self.now }
        ensures more { cycle_bits (take result.0.period self.now) < result.1 }
        ensures most { result.1 ≤ cycle_bits self.now }
        ensures same { result.0.cycles * cycle_bits self.now + result.1
            ≡ from.cycles * cycle_bits self.now + wanted }
    {
        let total = self.total();
        if wanted <= total {
            return (from, wanted);
        }
        let turns = (wanted - 1) / total;
        let place = Place {
            cycles: from.cycles + turns,
            period: 0,
        };
        (place, wanted - turns * total)
    }

    /// The first instant before which so much is carried from the beginning of a place's cycle on, in
    /// thousandths of a bit, with the place of the millisecond before it.
    pub fn reach_from(&self, from: Place, wanted: u64) -> Moment
        requires inside { from.period < length self.now }
        requires more { cycle_bits (take from.period self.now) < wanted }
        requires soon { from.cycles * cycle_bits self.now + wanted
            ≤ flow carried_in self.now 3000000000000000 }
        ensures reaches { Reaches self.now
            (from.cycles * cycle_bits self.now + wanted) result.instant }
        ensures some { 1 ≤ result.instant }
        ensures last { Touches self.now result.place (result.instant - 1) }
        ensures end { Touches self.now result.place result.instant }
    {
        let (from, rest) = self.within_cycle(from, wanted);
        let period = place_from(&self.sums, from.period, rest);
        let amount = rest - self.sums[period];
        let within = self.starts[period] + amount.div_ceil(self.periods[period].bandwidth);
        Moment {
            place: Place {
                cycles: from.cycles,
                period,
            },
            instant: from.cycles * self.cycle() + within,
        }
    }
}
