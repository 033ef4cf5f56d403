//! A running download at an instant at which it can be judged for abandonment.

ghost use Rattle.std.specs.Prelude.{◌≡◌, ◌≤◌, true, IfSome};
ghost use Rattle.network_clock.specs.Limits.{most_bits};
ghost use Rattle.lab_model.specs.Film.{size_of};
ghost use Rattle.abandonment.specs.Progress.{longest_elapsed};
ghost use Rattle.abandonment.specs.Test.{abandonment};
ghost use Rattle.player_core.specs.Parts.{bit_ms_of, got_of, progress_of, sample_of};
ghost use Rattle.player_core.specs.Quiet.{IsHeldFrom};
ghost use Rattle.player_core.specs.Ready.{CanJudge, KeepsFor};
ghost use Rattle.player_core.specs.Seen.{download_of};

use crate::limits::LATEST_MS;
use crate::running::Running;
use abandonment::{LATE_DENOMINATOR, LATE_NUMERATOR, Progress, abandon_to, enough_rate};
use lab_model::{Manifest, Sample};

/// A running download at an instant at which it can be judged for abandonment.
#[derive(Clone, Copy)]
pub struct Judged<'a> {
    /// The film.
    pub film: &'a Manifest,
    /// The download, of a segment of the film and a rung of its ladder.
    pub running: Running,
    /// The instant, not before its request.
    pub t: u64,
    pub ghost can: { CanJudge film.now t (download_of running) },
}

impl<'a> Judged<'a> {
    /// The bits that have come.
    pub fn got(&self) -> u32
        ensures value { result ≡ got_of self.now.film.now (download_of self.now.running) }
        ensures part { result
            ≤ size_of self.now.film.now self.now.running.segment self.now.running.rung }
        ensures limit { result ≤ most_bits }
    {
        let size = self.film.size(self.running.segment, self.running.rung) as u64;
        size.saturating_sub(self.running.job.left.div_ceil(1000)) as u32
    }

    /// The milliseconds from the first one spent on bits.
    fn bit_ms(&self) -> u64
        ensures { result ≡ bit_ms_of self.now.t (download_of self.now.running) }
    {
        match self.running.first {
            None => 0,
            Some(first) => self.t.saturating_sub(first),
        }
    }

    /// The sample of the download where it ends at an instant.
    pub fn sample(&self) -> Sample
        requires first { 1 ≤ bit_ms_of self.now.t (download_of self.now.running) }
        ensures { result.rate
            ≡ sample_of self.now.film.now self.now.t (download_of self.now.running) }
    {
        Sample::of(self.got(), self.bit_ms())
    }

    /// The rung for which the download is given up at an instant, if it is.
    pub fn rung_instead(&self) -> Option<u8>
        ensures value { result
            ≡ abandonment self.now.film.now self.now.running.segment self.now.running.rung
            (progress_of self.now.film.now self.now.t (download_of self.now.running)) }
        ensures waited { IfSome result (λ _.
            1 ≤ bit_ms_of self.now.t (download_of self.now.running)) }
    {
        let now = Progress::new(self.t - self.running.asked, self.bit_ms(), self.got());
        abandon_to(self.film, self.running.segment, self.running.rung, &now)
    }

    /// The least rung of which no rung from it on below the download's own is smaller than what is still to come: a target from it on gives
    /// nothing up.
    fn holding_rung(&self) -> u8
        ensures rung { result ≤ self.now.running.rung }
        ensures holds { IsHeldFrom self.now.film.now self.now.running.segment self.now.running.rung
            (got_of self.now.film.now (download_of self.now.running)) result }
    {
        let left = self.film.size(self.running.segment, self.running.rung) - self.got();
        let mut rung = self.running.rung;
        while rung > 0 && self.film.size(self.running.segment, rung - 1) >= left {
            rung -= 1;
        }
        rung
    }

    /// The milliseconds after an instant in which the bits that have come are enough for a rung that holds the download.
    fn held_ms(&self) -> u64
        ensures { KeepsFor self.now.film.now self.now.t (download_of self.now.running) result }
    {
        let rung = self.holding_rung();
        if rung == 0 {
            return LATEST_MS;
        }
        let enough = 1000 * self.got() as u64 / enough_rate(self.film, rung);
        enough.saturating_sub(self.bit_ms())
    }

    /// The milliseconds after an instant for which the bits that have come would keep the download from being late if rates were not
    /// rounded down.
    fn hopeful_ms(&self) -> u64
        ensures limit { result ≤ longest_elapsed }
    {
        let size = self.film.size(self.running.segment, self.running.rung) as u64;
        let got = self.got() as u64;
        let spare = (LATE_NUMERATOR * self.film.seg_ms() as u64).saturating_sub(
            LATE_DENOMINATOR * (self.t - self.running.asked),
        );
        let lost = (LATE_DENOMINATOR * (size - got)) as u128 * self.bit_ms() as u128;
        let ms = ((spare * got) as u128).saturating_sub(lost) / (LATE_DENOMINATOR * size) as u128;
        ms as u64
    }

    /// Whether so many milliseconds after an instant the bits that have come would still keep the download from being late.
    fn stays_on_time(&self, ms: u64) -> bool
        requires limit { ms ≤ longest_elapsed }
        ensures { result ≡ true
            → KeepsFor self.now.film.now self.now.t (download_of self.now.running) ms }
    {
        let got = self.got();
        let left = (self.film.size(self.running.segment, self.running.rung) - got) as u64;
        let spare = (LATE_NUMERATOR * self.film.seg_ms() as u64).saturating_sub(
            LATE_DENOMINATOR * (self.t - self.running.asked + ms),
        );
        let rate = 1000 * got as u64 / (self.bit_ms() + ms).max(1);
        1000 * LATE_DENOMINATOR * left < spare * rate
    }

    /// The milliseconds after an instant in which the bits that have come keep the download from being late.
    fn on_time_ms(&self) -> u64
        ensures { KeepsFor self.now.film.now self.now.t (download_of self.now.running) result }
    {
        let ms = self.hopeful_ms();
        if self.stays_on_time(ms) { ms } else { 0 }
    }

    /// The milliseconds after an instant in which no test gives the download up, whatever bits come.
    pub fn kept_ms(&self) -> u64
        ensures { KeepsFor self.now.film.now self.now.t (download_of self.now.running) result }
    {
        let held = self.held_ms();
        if held > 0 { held } else { self.on_time_ms() }
    }
}
