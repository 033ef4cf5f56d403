//! A running download, and the millisecond that passes on it.

ghost use Rattle.std.specs.Prelude.{◌≡◌};
ghost use Rattle.network_clock.specs.Network.{pass, spends, start_job};

use lab_model::Period;

/// A running download.
#[derive(Clone, Copy, PartialEq, Eq, Debug)]
pub struct Job {
    /// The delay that is still to pass, at most 100000000. A millisecond at latency `l` uses
    /// `ceil(100000000 / l)` of it.
    pub credit: u32,
    /// What is still to come, in thousandths of a bit, at most 200000000000.
    pub left: u64,
}

/// Where a download begins to take bits, and where it ends.
#[derive(Clone, Copy, PartialEq, Eq, Debug)]
pub struct Landing {
    /// The least instant whose millisecond is spent on bits.
    pub first: u64,
    /// The instant at which nothing is left.
    pub done: u64,
}

impl Job {
    /// The download of so many bits at its request.
    pub fn start(bits: u32) -> Job
        ensures { result ≡ start_job bits }
    {
        Job {
            credit: 100_000_000,
            left: 1000 * bits as u64,
        }
    }

    /// Whether a millisecond in this period is spent on bits.
    pub fn spends(self, period: Period) -> bool
        ensures { result ≡ spends period self }
    {
        self.credit == 0 || period.latency == 0
    }

    /// The job after a millisecond in this period.
    pub fn pass(self, period: Period) -> Job
        ensures { result ≡ pass period self }
    {
        if self.spends(period) {
            return Job {
                credit: 0,
                left: self.left.saturating_sub(period.bandwidth),
            };
        }
        let used = 100_000_000u32.div_ceil(period.latency);
        Job {
            credit: self.credit.saturating_sub(used),
            left: self.left,
        }
    }
}
