//! The periods of a trace, of its delay, or of the lanes of its takers.

ghost use Rattle.std.specs.Prelude.{◌≡◌, ◌≤◌, IfOk};
ghost use Rattle.lab_model.specs.Cycle.{IsTrace};
ghost use Rattle.network_clock.specs.Flow.{IsPaced, delay_in, delay_of, parted_trace, used_in};

use crate::link::share_of;
use lab_model::{Period, Trace};
use std::alloc::{AllocError, Global};
use std::marker::Model;

/// The credit that a millisecond in this period uses: all of it where there is no latency.
fn used_in(period: Period) -> u64
    ensures { result ≡ used_in period }
{
    if period.latency == 0 {
        return 100_000_000;
    }
    100_000_000u64.div_ceil(period.latency as u64)
}

/// The period's delay as a period: what a millisecond carries is the credit that it uses.
fn delay_in(period: Period) -> Period
    ensures { result ≡ delay_in period }
{
    Period {
        bandwidth: used_in(period),
        ..period
    }
}

/// The delay of periods as periods.
fn delay_of(alloc: Global, periods: &[Period]) -> Result<Vec<Period>, AllocError>
    ensures { IfOk result (λ v. v.items ≡ delay_of periods.now) }
{
    periods.iter().map(|p| delay_in(*p)).collect(alloc)
}

/// What each of so many takers gets of periods.
fn lane_of(alloc: Global, periods: &[Period], takers: u8) -> Result<Vec<Period>, AllocError>
    ensures { IfOk result (λ v. v.items ≡ parted_trace takers periods.now) }
{
    periods.iter().map(|p| share_of(*p, takers)).collect(alloc)
}

/// Periods that keep the limits of a trace and of its lanes.
#[derive(Drop)]
pub struct Paced {
    periods: Vec<Period>,
}

impl Model for Paced {
    ghost use Rattle.std.specs.Prelude.{List};
    ghost use Rattle.lab_model.specs.declared.trace.Period.{Period};
    ghost use Rattle.network_clock.specs.Flow.{IsPaced};

    ghost Value = { List Period };

    ghost view = { λ p. p.periods.items };

    ghost invariant = { λ p. IsPaced p.periods.items };
}

impl Paced {
    /// The periods of a trace.
    pub fn of_trace(alloc: Global, trace: &Trace) -> Result<Paced, AllocError>
        ensures periods { IfOk result (λ p. p ≡ trace.now) }
        ensures trace { IsTrace trace.now }
    {
        Ok(Paced {
            periods: Vec::from_slice(alloc, trace.periods())?,
        })
    }

    /// What each of so many takers gets of a trace, at most 8.
    pub fn lane_of(alloc: Global, trace: &Trace, takers: u8) -> Result<Paced, AllocError>
        requires takers { takers ≤ 8 }
        ensures periods { IfOk result (λ p. p ≡ parted_trace takers trace.now) }
        ensures trace { IsTrace trace.now }
    {
        Ok(Paced {
            periods: lane_of(alloc, trace.periods(), takers)?,
        })
    }

    /// Their delay as periods.
    pub fn delay(&self, alloc: Global) -> Result<Paced, AllocError>
        ensures periods { IfOk result (λ p. p ≡ delay_of self.now) }
    {
        Ok(Paced {
            periods: delay_of(alloc, &self.periods)?,
        })
    }

    /// The periods, in order.
    pub fn periods(&self) -> &[Period]
        ensures value { result.now ≡ self.now }
        ensures paced { IsPaced self.now }
    {
        &self.periods
    }

    /// The periods themselves.
    pub fn into_periods(self) -> Vec<Period>
        ensures value { result.items ≡ self }
        ensures paced { IsPaced self }
    {
        self.periods
    }
}
