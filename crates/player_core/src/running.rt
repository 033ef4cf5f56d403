//! A running download: what milliseconds make of it.

ghost use Rattle.std.specs.Prelude.{◌≡◌, ℕ, ◌+◌, ◌<◌, ◌≤◌, true, Some, None, is_some, if◌then◌else◌};
ghost use Rattle.network_clock.specs.Limits.{latest_answer};
ghost use Rattle.lab_model.specs.Film.{size_of};
ghost use Rattle.lab_model.specs.Rules.{RuleKind};
ghost use Rattle.network_clock.specs.Network.{first_at, spends};
ghost use Rattle.abandonment.specs.Progress.{longest_elapsed};
ghost use Rattle.player_core.specs.Course.{case_on};
ghost use Rattle.player_core.specs.Parts.{takes_in};
ghost use Rattle.player_core.specs.Quiet.{IsKeptAt, taken_ms};
ghost use Rattle.player_core.specs.Ready.{CanJudge};
ghost use Rattle.player_core.specs.Seen.{CanTake, SameRequest, download_of};
ghost use Rattle.player_core.specs.Sound.{IsCase, DownloadRuns};

use crate::course::Course;
use crate::judged::Judged;
use abandonment::due_in;
use lab_model::Period;
use network_clock::Job;

/// A running download: what was asked for and when, when its bits begin and when it is done, what is left of it, and the first instant
/// spent on bits, if any.
#[derive(Clone, Copy)]
pub struct Running {
    /// The segment, counted from 0.
    pub segment: u16,
    /// The rung, counted from 0.
    pub rung: u8,
    /// The instant of its request.
    pub asked: u64,
    /// The first instant that is spent on bits.
    pub begins: u64,
    /// The instant at which nothing is left, if it has the course's network for itself.
    pub done: u64,
    /// What is left of it.
    pub job: Job,
    /// The first instant spent on bits, if it is past.
    pub first: Option<u64>,
}

impl Running {
    /// The milliseconds from an instant to the arrival, or to the next instant at which the download may be given up.
    pub fn quiet_ms(&self, course: &Course<'_>, t: u64) -> u64
        requires judge { CanJudge course.now.scene.now.film t (download_of self.now) }
        requires running { t < self.now.done }
        requires short { self.now.done ≤ self.now.asked + longest_elapsed }
        ensures some { 1 ≤ result }
        ensures arrives { t + result ≤ self.now.done }
        ensures keeps { course.now.scene.now.setup.abandon ≡ true → (kind : RuleKind)
            → IsCase (case_on course.now kind)
            → DownloadRuns (case_on course.now kind) t (download_of self.now)
            → (m : ℕ) → t < m → m < t + result
            → IsKeptAt (case_on course.now kind) m (download_of self.now) }
    {
        let left = self.done - t;
        if !course.scene.setup().abandon || self.rung == 0 {
            return left;
        }
        let judged = Judged {
            film: course.scene.film(),
            running: *self,
            t,
        };
        let kept = judged.kept_ms().min(left);
        left.min(kept + due_in(t + kept - self.asked))
    }

    /// The first instant spent on bits, once the millisecond of this instant has passed.
    fn first_after(&self, period: Period, t: u64) -> Option<u64>
        ensures { result ≡ (if is_some self.now.first then self.now.first
            else (if spends period self.now.job then Some t else None)) }
    {
        match self.first {
            Some(first) => Some(first),
            None if self.job.spends(period) => Some(t),
            None => None,
        }
    }

    /// The download once its network millisecond has passed, which lies in this period.
    pub fn take_in(&self, period: Period, t: u64) -> Running
        ensures takes { download_of result ≡ takes_in period t (download_of self.now) }
        ensures same { SameRequest self.now result }
    {
        Running {
            job: self.job.pass(period),
            first: self.first_after(period, t),
            ..*self
        }
    }

    /// The download after so many milliseconds from an instant on.
    pub fn after(&self, course: &Course<'_>, t: u64, ms: u64) -> Running
        requires instant { t + ms ≤ latest_answer }
        requires job { CanTake self.now }
        ensures takes { (kind : RuleKind)
            → self.now.begins ≡ first_at course.now.scene.now.periods self.now.asked
            (size_of course.now.scene.now.film self.now.segment self.now.rung)
            → download_of result
            ≡ taken_ms (case_on course.now kind) t ms (download_of self.now) }
        ensures same { SameRequest self.now result }
    {
        let to = t + ms;
        Running {
            job: course.scene.clock().advance(self.job, t, to),
            first: if self.begins < to {
                Some(self.begins)
            } else {
                None
            },
            ..*self
        }
    }
}
