//! The clock of a trace.

ghost use Rattle.std.specs.Prelude.{◌≡◌, ℕ, ◌+◌, ◌-◌, ◌*◌, ◌<◌, ◌≤◌, IfOk};
ghost use Rattle.lab_model.specs.Cycle.{IsTrace};
ghost use Rattle.network_clock.specs.Limits.{latest_answer, most_bits, most_left};
ghost use Rattle.network_clock.specs.Flow.{Opens, Touches, carried_in, delay_of, flow};
ghost use Rattle.network_clock.specs.Network.{done_at, first_at, job_after, period_at};

use crate::job::{Job, Landing};
use crate::meter::{Meter, Moment};
use crate::paced::Paced;
use lab_model::{NoMemory, Period, Trace};
use std::alloc::{AllocError, Global};
use std::marker::Model;

/// The meters of a trace or of a lane: of its bits and of its delay.
#[derive(Drop)]
pub(crate) struct Meters<'a> {
    pub(crate) delay: &'a Meter,
    pub(crate) bits: &'a Meter,
}

impl<'a> Model for Meters<'a> {
    ghost use Rattle.std.specs.Prelude.{◌≡◌, List};
    ghost use Rattle.lab_model.specs.declared.trace.Period.{Period};
    ghost use Rattle.network_clock.specs.Flow.{IsPaced, delay_of};

    ghost Value = { List Period };

    ghost view = { λ m. m.bits.now };

    ghost invariant = { λ m. IsPaced m.bits.now × (m.delay.now ≡ delay_of m.bits.now) };
}

impl<'a> Meters<'a> {
    /// The least instant from `from` on whose millisecond is spent on the bits of a job with this credit.
    fn first_from(&self, from: u64, credit: u32) -> Moment
        requires from { from ≤ latest_answer }
        requires credit { credit ≤ 100000000 }
        ensures opens { Opens self.now from credit result.instant }
        ensures place { Touches self.now result.place result.instant }
    {
        let begin = self.delay.place_at(from);
        if credit == 0 {
            return Moment {
                place: begin,
                instant: from,
            };
        }
        let used = self.delay.carried_since(begin, from) + credit as u64;
        let end = self.delay.reach_from(begin, used);
        let last = end.instant - 1;
        let latency = self.bits.period_of(end.place).latency;
        // a millisecond without latency uses up the credit, and is spent on bits itself
        let first = if latency == 0 { last } else { end.instant };
        Moment {
            place: end.place,
            instant: first,
        }
    }

    /// The meter of the bits.
    pub(crate) fn bits(&self) -> &'a Meter
        ensures { result.now ≡ self.now }
    {
        self.bits
    }

    /// The job after the milliseconds `from` to `to - 1`.
    pub(crate) fn advance(&self, job: Job, from: u64, to: u64) -> Job
        requires order { from ≤ to }
        requires instants { to ≤ latest_answer }
        requires credit { job.credit ≤ 100000000 }
        requires left { job.left ≤ most_left }
        ensures { result ≡ job_after self.now from (to - from) job }
    {
        let first = self.first_from(from, job.credit);
        if to <= first.instant {
            let used = self.delay.carried_before(to) - self.delay.carried_before(from);
            return Job {
                credit: (job.credit as u128).saturating_sub(used) as u32,
                left: job.left,
            };
        }
        let before = self.bits.carried_at(first.place, first.instant);
        let carried = self.bits.carried_before(to) - before;
        Job {
            credit: 0,
            left: (job.left as u128).saturating_sub(carried) as u64,
        }
    }
}

/// The clock of a trace: it answers for any instant.
#[derive(Drop)]
pub struct Clock {
    delay: Meter,
    bits: Meter,
}

impl Model for Clock {
    ghost use Rattle.std.specs.Prelude.{◌≡◌, List};
    ghost use Rattle.lab_model.specs.declared.trace.Period.{Period};
    ghost use Rattle.lab_model.specs.Cycle.{IsTrace};
    ghost use Rattle.network_clock.specs.Flow.{delay_of};

    ghost Value = { List Period };

    ghost view = { λ c. c.bits };

    ghost invariant = { λ c. IsTrace c.bits × (c.delay ≡ delay_of c.bits) };
}

impl Clock {
    /// The clock of this trace. It keeps the running sums of the trace.
    pub fn new(alloc: Global, trace: &Trace) -> Result<Clock, NoMemory>
        ensures clock { IfOk result (λ c. c ≡ trace.now) }
        ensures trace { IsTrace trace.now }
    {
        Self::of_trace(alloc, trace).map_err(|_| NoMemory)
    }

    /// The same, where memory alone can be wanting.
    fn of_trace(alloc: Global, trace: &Trace) -> Result<Clock, AllocError>
        ensures clock { IfOk result (λ c. c ≡ trace.now) }
        ensures trace { IsTrace trace.now }
    {
        let paced = Paced::of_trace(alloc, trace)?;
        let delay = Meter::new(alloc, paced.delay(alloc)?)?;
        let bits = Meter::new(alloc, paced)?;
        Ok(Clock { delay, bits })
    }

    /// When a download of `bits`, 1 to 200000000, begins to take bits, and when it is done, if it is asked
    /// for at `start`, at most 2 * 10^15. No download that is asked for later, and is no smaller, is done
    /// earlier.
    pub fn finish(&self, start: u64, bits: u32) -> Landing
        requires start { start ≤ latest_answer }
        requires bits { (1 ≤ bits) × (bits ≤ most_bits) }
        ensures first { result.first ≡ first_at self.now start bits }
        ensures done { result.done ≡ done_at self.now start bits }
        ensures delays { (start ≤ result.first) × (result.first ≤ start + 10000) }
        ensures carries { result.first < result.done }
        ensures ends { result.done < start + 410000000 }
        ensures ordered { (later more : ℕ)
            → start ≤ later
            → bits ≤ more
            → more ≤ most_bits
            → result.done ≤ done_at self.now later more }
        ensures trace { IsTrace self.now }
    {
        self.request(start).land(bits)
    }

    /// A request at an instant, at most 2 * 10^15, before it is known how much is asked for.
    pub fn request(&self, start: u64) -> Request<'_>
        requires start { start ≤ latest_answer }
        ensures periods { result.periods ≡ self.now }
        ensures start { result.start ≡ start }
    {
        Request {
            bits: &self.bits,
            start,
            first: self.meters().first_from(start, 100_000_000),
        }
    }

    /// The periods of the trace that the clock stands for.
    pub fn periods(&self) -> &[Period]
        ensures value { result.now ≡ self.now }
        ensures trace { IsTrace self.now }
    {
        self.bits.periods()
    }

    /// The period that holds an instant.
    pub fn period_at(&self, instant: u64) -> Period
        ensures value { result ≡ period_at self.now instant }
        ensures trace { IsTrace self.now }
    {
        self.bits.period_of(self.bits.place_at(instant))
    }

    /// What the network carries before an instant, in thousandths of a bit, where every millisecond is spent on bits.
    pub fn carried_before(&self, instant: u64) -> u128
        ensures value { result ≡ flow carried_in self.now instant }
        ensures trace { IsTrace self.now }
    {
        self.bits.carried_before(instant)
    }

    /// The job after the milliseconds `from` to `to - 1`, at most 2 * 10^15.
    pub fn advance(&self, job: Job, from: u64, to: u64) -> Job
        requires order { from ≤ to }
        requires instants { to ≤ latest_answer }
        requires credit { job.credit ≤ 100000000 }
        requires left { job.left ≤ most_left }
        ensures after { result ≡ job_after self.now from (to - from) job }
        ensures trace { IsTrace self.now }
    {
        self.meters().advance(job, from, to)
    }

    /// The meters of the trace.
    pub(crate) fn meters(&self) -> Meters<'_>
        ensures value { result ≡ self.now }
        ensures trace { IsTrace self.now }
    {
        Meters {
            delay: &self.delay,
            bits: &self.bits,
        }
    }

    /// The meter of its delay.
    pub(crate) fn delay(&self) -> &Meter
        ensures value { result.now ≡ delay_of self.now }
    {
        &self.delay
    }
}

/// A request on a recorded network: where bits begin to flow is found once for downloads of all sizes.
#[derive(Drop)]
pub struct Request<'a> {
    bits: &'a Meter,
    start: u64,
    first: Moment,
}

impl<'a> Model for Request<'a> {
    ghost use Rattle.std.specs.Prelude.{◌≡◌, ◌≤◌};
    ghost use Rattle.lab_model.specs.Cycle.{IsTrace};
    ghost use Rattle.network_clock.specs.Limits.{latest_answer};
    ghost use Rattle.network_clock.specs.Flow.{Opens, RequestValue, Touches};

    ghost Value = { RequestValue };

    ghost view = { λ r. record { periods = r.bits.now; start = r.start } };

    ghost invariant = { λ r. (r.start ≤ latest_answer) × IsTrace r.bits.now
        × Opens r.bits.now r.start 100000000 r.first.instant
        × Touches r.bits.now r.first.place r.first.instant };
}

impl<'a> Request<'a> {
    /// When a download of `bits`, 1 to 200000000, that is asked for by this request begins to take bits, and
    /// when it is done.
    fn land(&self, bits: u32) -> Landing
        requires bits { (1 ≤ bits) × (bits ≤ most_bits) }
        ensures first { result.first ≡ first_at self.now.periods self.now.start bits }
        ensures done { result.done ≡ done_at self.now.periods self.now.start bits }
        ensures delays { (self.now.start ≤ result.first)
            × (result.first ≤ self.now.start + 10000) }
        ensures carries { result.first < result.done }
        ensures ends { result.done < self.now.start + 410000000 }
        ensures ordered { (later more : ℕ)
            → self.now.start ≤ later
            → bits ≤ more
            → more ≤ most_bits
            → result.done ≤ done_at self.now.periods later more }
        ensures trace { IsTrace self.now.periods }
    {
        let begin = self
            .bits
            .carried_since(self.first.place, self.first.instant);
        let wanted = begin + 1000 * bits as u64;
        let done = self.bits.reach_from(self.first.place, wanted);
        Landing {
            first: self.first.instant,
            done: done.instant,
        }
    }

    /// When a download of `bits`, 1 to 200000000, is done that is asked for by this request.
    pub fn done(&self, bits: u32) -> u64
        requires { (1 ≤ bits) × (bits ≤ most_bits) }
        ensures { result ≡ done_at self.now.periods self.now.start bits }
    {
        self.land(bits).done
    }
}
