//! A link that several takers share.

ghost use Rattle.std.specs.Prelude.{◌≡◌, ◌-◌, ◌<◌, ◌≤◌, IfOk};
ghost use Rattle.lab_model.specs.Cycle.{IsTrace};
ghost use Rattle.lab_model.specs.Film.{IsWithin};
ghost use Rattle.network_clock.specs.Limits.{latest_answer, most_left};
ghost use Rattle.network_clock.specs.Flow.{parted_trace};
ghost use Rattle.network_clock.specs.Network.{job_on, lands_on, lane_at, parted};
ghost use Rattle.network_clock.specs.Shared.{shared};

use crate::clock::{Clock, Meters};
use crate::job::Job;
use crate::meter::Meter;
use crate::paced::Paced;
use lab_model::{NoMemory, Period, Trace};
use std::alloc::Global;
use std::marker::Model;

/// What each of so many takers gets of a period: an equal share of its bandwidth, in whole thousandths of a
/// bit. No taker counts as one.
pub fn share_of(period: Period, takers: u8) -> Period
    ensures { result ≡ parted takers period }
{
    Period {
        bandwidth: period.bandwidth / takers.max(1) as u64,
        ..period
    }
}

/// A trace that up to eight takers share, with what each of them gets for every number of takers.
#[derive(Drop)]
pub struct Link {
    clock: Clock,
    lanes: Vec<Meter>,
}

impl Model for Link {
    ghost use Rattle.std.specs.Prelude.{◌+◌, ◌≤◌, length};
    ghost use Rattle.lab_model.specs.Cycle.{IsTrace};
    ghost use Rattle.network_clock.specs.Shared.{AreLanes, Shared, shared};

    ghost Value = { Shared };

    ghost view = { λ l. shared l.clock (length l.lanes.items + 1) };

    ghost invariant = { λ l. IsTrace l.clock × (length l.lanes.items ≤ 7)
        × AreLanes l.clock (length l.lanes.items) l.lanes.items };
}

impl Link {
    /// The link of this trace for so many players, 1 to 8. It keeps the sums of the trace for each number of
    /// takers.
    pub fn new(alloc: Global, trace: &Trace, players: u8) -> Result<Link, NoMemory>
        requires players { IsWithin 1 8 players }
        ensures link { IfOk result (λ l. l ≡ shared trace.now players) }
        ensures trace { IsTrace trace.now }
    {
        let clock = Clock::new(alloc, trace)?;
        let mut lanes = Vec::new(alloc);
        for takers in 2..players + 1 {
            let lane = Paced::lane_of(alloc, trace, takers)?;
            lanes.push(Meter::new(alloc, lane)?)?;
        }
        Ok(Link { clock, lanes })
    }

    /// The clock of the trace, which is the link's for a taker alone.
    pub fn clock(&self) -> &Clock
        ensures value { result.now ≡ self.now.periods }
        ensures trace { IsTrace self.now.periods }
    {
        &self.clock
    }

    /// The lane of so many takers.
    fn lane(&self, takers: u8) -> Meters<'_>
        requires takers { takers ≤ self.now.most }
        ensures value { result ≡ parted_trace takers self.now.periods }
        ensures few { takers ≤ 8 }
        ensures trace { IsTrace self.now.periods }
    {
        if takers < 2 {
            return self.clock.meters();
        }
        Meters {
            delay: self.clock.delay(),
            bits: &self.lanes[takers as usize - 2],
        }
    }

    /// The job after the milliseconds `from` to `to - 1`, at most 2 * 10^15, while so many take.
    pub fn advance(&self, takers: u8, job: Job, from: u64, to: u64) -> Job
        requires takers { takers ≤ self.now.most }
        requires order { from ≤ to }
        requires instants { to ≤ latest_answer }
        requires credit { job.credit ≤ 100000000 }
        requires left { job.left ≤ most_left }
        ensures { result ≡ job_on (lane_at self.now.periods takers) from (to - from) job }
    {
        self.lane(takers).advance(job, from, to)
    }

    /// The instant at which nothing is left of a job that has no delay left at `from`, at most 2 * 10^15, and
    /// still lacks `left` thousandths of a bit, 1 to 200000000000, while so many take.
    pub fn lands(&self, takers: u8, from: u64, left: u64) -> u64
        requires takers { takers ≤ self.now.most }
        requires from { from ≤ latest_answer }
        requires left { IsWithin 1 most_left left }
        ensures lands { result ≡ lands_on (lane_at self.now.periods takers) from
            (record { credit = 0; left = left }) }
        ensures later { from < result }
    {
        let meters = self.lane(takers);
        let lane = meters.bits();
        let place = lane.place_at(from);
        let wanted = lane.carried_since(place, from) + left;
        lane.reach_from(place, wanted).instant
    }
}
