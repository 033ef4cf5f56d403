//! Stretches of milliseconds in which nothing happens: how long they are, and how they pass at once.

ghost use Rattle.std.specs.Prelude.{◌≡◌, ℕ, ◌+◌, ◌-◌, ◌%◌, ◌<◌, ◌≤◌, ◌⊎◌, List, true, IfOk, IfSome};
ghost use Rattle.lab_model.specs.Limits.{longest_film};
ghost use Rattle.lab_model.specs.Film.{Film, segments_of};
ghost use Rattle.lab_model.specs.Rules.{RuleKind};
ghost use Rattle.player_core.specs.Limits.{latest_ms};
ghost use Rattle.player_core.specs.Available.{available_at};
ghost use Rattle.player_core.specs.Parts.{is_playing};
ghost use Rattle.player_core.specs.Quiet.{IsUneventful, IsUntouched, glides, moves_in, takes_all};
ghost use Rattle.player_core.specs.Seen.{CanGlide, CanIdle, CanMove, CanRest, CanWait, Follows, FollowsOn, IsTimed, KnowsEnd, MustWait, MustWaitFor, SameDownload, WaitsOn, mode_of, seen};
ghost use Rattle.player_core.specs.Sound.{IsCase, DownloadRuns};
ghost use Rattle.player_core.specs.State.{Case};
ghost use Rattle.player_core.specs.Course.{case_on};

use crate::body::Body;
use crate::course::Course;
use crate::limits::LATEST_MS;
use crate::mode::Mode;
use crate::player::available;
use crate::script::seek_in;
use lab_model::{Manifest, NoMemory};

impl Body {
    /// The milliseconds until a segment may be asked for: until it fits the buffer, or else until it is there.
    fn request_in(&self, course: &Course<'_>) -> u64
        requires position { self.now.x ≤ self.now.y }
        requires end { self.now.y ≤ longest_film }
        requires waits { self.now.k < segments_of course.now.scene.now.film
            → MustWait course.now.scene.now.film course.now.scene.now.setup
            course.now.scene.now.ahead self.now }
        ensures some { 1 ≤ result }
        ensures asks { self.now.k < segments_of course.now.scene.now.film
            → MustWaitFor course.now.scene.now.film course.now.scene.now.setup
            course.now.scene.now.ahead self.now result }
    {
        if self.k >= course.scene.film().segments() {
            return LATEST_MS;
        }
        let level = self.y - self.x + course.scene.film().seg_ms();
        if level > course.scene.setup().buffer_ms {
            (level - course.scene.setup().buffer_ms) as u64
        } else {
            course.scene.available(self.k) - self.t
        }
    }

    /// The milliseconds until a segment begins or play stalls.
    fn begin_in(&self, m: &Manifest) -> u64
        ensures some { 1 ≤ result }
        ensures limit { result ≤ latest_ms }
        ensures plays { is_playing (mode_of self.now.mode) ≡ true → self.now.x < self.now.y
            → self.now.x % m.now.seg_ms + result ≤ m.now.seg_ms }
    {
        if self.mode.is_playing() && self.x < self.y {
            (m.seg_ms() - self.x % m.seg_ms()) as u64
        } else {
            LATEST_MS
        }
    }

    /// The milliseconds, at least 1, for which a player has no cause to ask for a segment after an instant, and after the first of which
    /// no segment begins and no stall.
    pub fn untouched_ms(&self, course: &Course<'_>) -> u64
        requires { CanIdle course.now.scene.now.film course.now.scene.now.setup
            course.now.scene.now.ahead self.now }
        ensures some { 1 ≤ result }
        ensures limit { result ≤ latest_ms }
        ensures untouched { (kind : RuleKind) (history : List ℕ)
            → IsUntouched (case_on course.now kind) (seen self.now history) result }
    {
        let begin = self.begin_in(course.scene.film());
        if self.download.is_some() {
            return begin;
        }
        begin.min(self.request_in(course))
    }

    /// The milliseconds, at least 1, for which nothing happens after an instant: no arrival, abandonment, seek or request, and
    /// no beginning of a segment or of a stall after the first of them.
    fn quiet_ms(&self, course: &Course<'_>) -> u64
        requires { CanRest course.now.scene.now.film course.now.scene.now.setup
            course.now.scene.now.ahead self.now }
        ensures some { 1 ≤ result }
        ensures limit { result ≤ latest_ms }
        ensures quiet { KnowsEnd course.now self.now → (kind : RuleKind) (history : List ℕ)
            → IsCase (case_on course.now kind)
            → IfSome (seen self.now history).download
            (DownloadRuns (case_on course.now kind) self.now.t)
            → IsUneventful (case_on course.now kind) (seen self.now history) result }
    {
        let own = self.untouched_ms(course).min(seek_in(course.seeks, self.t));
        match self.download {
            Some(d) => own.min(d.quiet_ms(course, self.t)),
            None => own,
        }
    }

    /// A download, if there is one, takes so many network milliseconds at once.
    fn take_all(&mut self, course: &Course<'_>, ms: u64)
        requires { CanGlide self.old ms }
        ensures takes { KnowsEnd course.now self.old
            → FollowsOn course.now (λ c. takes_all c ms) self.old self.new }
        ensures timed { KnowsEnd course.now self.old → KnowsEnd course.now self.new }
        ensures still { CanMove self.new ms }
        ensures instant { self.new.t ≡ self.old.t }
    {
        if let Some(d) = self.download {
            self.download = Some(d.after(course, self.t, ms));
        }
    }

    /// So many milliseconds of the mode pass at once, in which nothing begins.
    pub fn move_on(&mut self, ms: u64)
        requires { CanMove self.old ms }
        ensures moves { Follows (λ p. moves_in ms p p.mode) self.old self.new }
        ensures same { SameDownload self.old self.new }
    {
        match self.mode {
            Mode::Starting => self.startup_ms += ms,
            Mode::Seeking => self.seek_ms += ms,
            Mode::Playing if self.x < self.y => self.x += ms as u32,
            Mode::Playing => self.stall_ms += ms,
            Mode::Ended => (),
        }
    }

    /// So many milliseconds pass at once, in which nothing begins.
    fn glide(&mut self, course: &Course<'_>, ms: u64)
        requires { CanGlide self.old ms }
        ensures glides { KnowsEnd course.now self.old
            → FollowsOn course.now (λ c. glides c ms) self.old self.new }
        ensures timed { KnowsEnd course.now self.old → KnowsEnd course.now self.new }
        ensures instant { self.new.t ≡ self.old.t + ms }
    {
        self.take_all(course, ms);
        self.move_on(ms);
        self.t += ms;
    }

    /// The milliseconds pass from one instant to the next at which something may happen.
    pub fn wait(&mut self, course: &Course<'_>) -> Result<(), NoMemory>
        requires { CanWait course.now self.old }
        ensures { IfOk result (λ _. WaitsOn course.now self.old self.new) }
    {
        let quiet = self.quiet_ms(course);
        self.pass(course)?;
        self.glide(course, quiet - 1);
        Ok(())
    }
}
