//! The player's state, and what each part of a millisecond does to it.

ghost use Rattle.std.specs.Prelude.{◌≡◌, ℕ, ◌+◌, ◌*◌, ◌<◌, ◌≤◌, List, [], IfOk, Option, option_map, ◌==◌, ◌-◌, None, true, if◌then◌else◌, length, ◌++◌, ◌∷◌, Some, IfSome};
ghost use Rattle.network_clock.specs.Limits.{most_bits};
ghost use Rattle.lab_model.specs.Limits.{longest_film};
ghost use Rattle.std.specs.List.{All, sum_by};
ghost use Rattle.lab_model.specs.Film.{rungs_of, segments_of, size_of, most_segments};
ghost use Rattle.lab_model.specs.Rules.{RuleKind};
ghost use Rattle.abandonment.specs.Test.{abandonment};
ghost use Rattle.player_core.specs.Limits.{latest_ms, most_loaded, most_sought, most_stalls, most_wasted};
ghost use Rattle.player_core.specs.State.{Case, first_player};
ghost use Rattle.player_core.specs.Course.{case_on};
ghost use Rattle.player_core.specs.Parts.{abandon, arrival, asks, begins, bit_ms_of, can_ask, context_of, finish, gives_up, gone_on, instant, loads, pass_in, pass_ms, passes_in, plays, request, rung_for, sample_of, seek, seek_at, stalls_on, stopped, takes_any_in, wasted_by};
ghost use Rattle.player_core.specs.Session.{player_after, shown, shown_by};
ghost use Rattle.player_core.specs.Sound.{IsCase, IsOf, Sound};
ghost use Rattle.player_core.specs.Ready.{CanChoose, CanJudge, CanLoad, CanPass, CanRequest};
ghost use Rattle.player_core.specs.Seen.{CanArrive, Follows, FollowsOn, GoesOn, Hears, KnowsEnd, LeftAt, SameDownload, StandsAt, Step, StepsOn, download_of, seen};

use crate::course::Course;
use crate::judged::Judged;
use crate::mode::Mode;
use crate::player::available;
use crate::running::Running;
use crate::script::seek_at;
use crate::session::{Event, Session};
use lab_model::{Context, Manifest, NoMemory, Period, Played, Rule};
use network_clock::Job;
use std::alloc::Global;
use std::collections::VecDeque;

/// The player at an instant.
#[derive(Drop)]
pub struct Body {
    /// The instant, in milliseconds.
    pub t: u64,
    /// The position, in milliseconds of the film.
    pub x: u32,
    /// The end of what is loaded, in milliseconds of the film.
    pub y: u32,
    /// The next segment to ask for, counted from 0.
    pub k: u16,
    /// The running download, if there is one.
    pub download: Option<Running>,
    /// The rung that the next request must take, after an abandonment.
    pub forced: Option<u8>,
    /// The rung of the last segment that arrived.
    pub last: Option<u8>,
    /// What the player does.
    pub mode: Mode,
    /// The loaded segments that haven't begun, in order.
    pub loaded: VecDeque<Played>,
    /// Whether the millisecond before was one of a stall.
    pub stalling: bool,
    /// The milliseconds before the first segment.
    pub startup_ms: u64,
    /// The milliseconds of stall.
    pub stall_ms: u64,
    /// The milliseconds after seeks before play went on.
    pub seek_ms: u64,
    /// The number of stalls.
    pub stalls: u32,
    /// The bits that seeks and abandoned downloads wasted.
    pub wasted: u64,
    /// The events so far, in order.
    pub events: Vec<Event>,
    /// The segments that began to play, in order.
    pub played: Vec<Played>,
}

impl Body {
    /// The player at the start.
    pub fn new(alloc: Global) -> Body
        ensures { seen result [] ≡ first_player }
    {
        Body {
            t: 0,
            x: 0,
            y: 0,
            k: 0,
            download: None,
            forced: None,
            last: None,
            mode: Mode::Starting,
            loaded: VecDeque::new(alloc),
            stalling: false,
            startup_ms: 0,
            stall_ms: 0,
            seek_ms: 0,
            stalls: 0,
            wasted: 0,
            events: Vec::new(alloc),
            played: Vec::new(alloc),
        }
    }

    /// The parts of an instant: arrival and end, and where the session goes on abandonment, seek and request.
    pub fn instant<T: Rule>(&mut self, course: &Course<'_>, rule: &mut T) -> Result<(), NoMemory>
        requires case { IsCase (case_on course.now (T.kind rule.old)) }
        requires stands { StandsAt (case_on course.now (T.kind rule.old)) self.old }
        requires told { T.stands_for rule.old
            (player_after (case_on course.now (T.kind rule.old)) self.old.t).history }
        ensures instant { IfOk result (λ _. self.new.t ≡ self.old.t) }
        ensures left { IfOk result (λ _.
            LeftAt (case_on course.now (T.kind rule.old)) self.new) }
        ensures told { IfOk result (λ _.
            Hears T.kind T.stands_for course.now instant self.old rule.old rule.new) }
    {
        self.stop(course, rule)?;
        if self.mode.is_ended() {
            return Ok(());
        }
        self.go_on(course, rule)
    }

    /// What an instant begins with: the arrival, and then the end.
    pub fn stop<T: Rule>(&mut self, course: &Course<'_>, rule: &mut T) -> Result<(), NoMemory>
        requires ready { CanArrive course.now.scene.now.film self.old }
        ensures stops { IfOk result (λ _. StepsOn course.now stopped self.old self.new) }
        ensures told { IfOk result (λ _.
            Hears T.kind T.stands_for course.now stopped self.old rule.old rule.new) }
    {
        self.arrive(course, rule)?;
        self.finish(course)
    }

    /// What an instant does where the session goes on: abandonment, seek and request.
    fn go_on<T: Rule>(&mut self, course: &Course<'_>, rule: &mut T) -> Result<(), NoMemory>
        requires case { IsCase (case_on course.now (T.kind rule.old)) }
        requires sound { Sound (case_on course.now (T.kind rule.old))
            self.old.t (seen self.old []) }
        requires instant { self.old.t < latest_ms }
        requires timed { KnowsEnd course.now self.old }
        ensures goes { IfOk result (λ _. (history : List ℕ) → T.stands_for rule.old history
            → GoesOn (case_on course.now (T.kind rule.old)) history self.old self.new) }
        ensures told { IfOk result (λ _.
            Hears T.kind T.stands_for course.now gone_on self.old rule.old rule.new) }
        ensures timed { IfOk result (λ _. KnowsEnd course.now self.new) }
    {
        self.abandon(course, rule)?;
        self.seek(course)?;
        self.request(course, rule)
    }

    /// 1. Arrival: a download of which nothing is left.
    fn arrive<T: Rule>(&mut self, course: &Course<'_>, rule: &mut T) -> Result<(), NoMemory>
        requires ready { CanArrive course.now.scene.now.film self.old }
        ensures arrives { IfOk result (λ _. StepsOn course.now arrival self.old self.new) }
        ensures told { IfOk result (λ _.
            Hears T.kind T.stands_for course.now arrival self.old rule.old rule.new) }
    {
        match self.download {
            Some(d) if d.job.left == 0 => self.load(course, &d, rule),
            _ => Ok(()),
        }
    }

    /// The download has arrived: its segment is loaded, and the rule is told its sample.
    fn load<T: Rule>(
        &mut self,
        course: &Course<'_>,
        d: &Running,
        rule: &mut T,
    ) -> Result<(), NoMemory>
        requires ready { CanLoad course.now.scene.now.film (seen self.old []) (download_of d.now) }
        ensures loads { IfOk result (λ _.
            StepsOn course.now (λ c p. loads c p (download_of d.now)) self.old self.new) }
        ensures told { IfOk result (λ _.
            Hears T.kind T.stands_for course.now (λ c p. loads c p (download_of d.now))
            self.old rule.old rule.new) }
    {
        let judged = Judged {
            film: course.scene.film(),
            running: *d,
            t: self.t,
        };
        let sample = judged.sample();
        self.events.push(Event::Arrive {
            at: self.t,
            segment: d.segment,
            rung: d.rung,
            first: d.first.unwrap_or(0),
            rate: sample.rate,
        })?;
        self.loaded.push_back(Played {
            segment: d.segment,
            rung: d.rung,
        })?;
        rule.observe(sample);
        self.y += course.scene.film().seg_ms();
        self.k += 1;
        self.download = None;
        self.last = Some(d.rung);
        self.mode = self.mode.after_arrival();
        Ok(())
    }

    /// 2. End: all is played.
    fn finish(&mut self, course: &Course<'_>) -> Result<(), NoMemory>
        ensures { IfOk result (λ _. StepsOn course.now finish self.old self.new) }
    {
        let film = course.scene.film();
        let all_ms = film.segments() as u32 * film.seg_ms();
        if self.mode.is_playing() && self.x == all_ms {
            self.events.push(Event::End { at: self.t })?;
            self.mode = Mode::Ended;
        }
        Ok(())
    }

    /// 3. Abandonment: where the setup allows it, by the abandonment test.
    fn abandon<T: Rule>(&mut self, course: &Course<'_>, rule: &mut T) -> Result<(), NoMemory>
        requires judge { IfSome self.old.download (λ d.
            CanJudge course.now.scene.now.film self.old.t (download_of d)) }
        requires wasted { self.old.wasted ≤ most_wasted }
        ensures abandons { IfOk result (λ _. StepsOn course.now abandon self.old self.new) }
        ensures told { IfOk result (λ _.
            Hears T.kind T.stands_for course.now abandon self.old rule.old rule.new) }
    {
        if !course.scene.setup().abandon {
            return Ok(());
        }
        let Some(d) = self.download else {
            return Ok(());
        };
        let judged = Judged {
            film: course.scene.film(),
            running: d,
            t: self.t,
        };
        match judged.rung_instead() {
            Some(to) => self.give_up(course, &d, to, rule),
            None => Ok(()),
        }
    }

    /// A download is given up for a rung.
    fn give_up<T: Rule>(
        &mut self,
        course: &Course<'_>,
        d: &Running,
        to: u8,
        rule: &mut T,
    ) -> Result<(), NoMemory>
        requires judge { CanJudge course.now.scene.now.film self.old.t (download_of d.now) }
        requires first { 1 ≤ bit_ms_of self.old.t (download_of d.now) }
        requires wasted { self.old.wasted ≤ most_wasted }
        ensures gives_up { IfOk result (λ _.
            StepsOn course.now (λ c p. gives_up c p (download_of d.now) (Some to))
            self.old self.new) }
        ensures told { IfOk result (λ _.
            Hears T.kind T.stands_for course.now
            (λ c p. gives_up c p (download_of d.now) (Some to))
            self.old rule.old rule.new) }
    {
        let judged = Judged {
            film: course.scene.film(),
            running: *d,
            t: self.t,
        };
        let got = judged.got();
        self.events.push(Event::Abandon {
            at: self.t,
            segment: d.segment,
            rung: d.rung,
            to,
            got,
        })?;
        rule.observe(judged.sample());
        self.download = None;
        self.forced = Some(to);
        self.wasted += got as u64;
        Ok(())
    }

    /// 4. Seek.
    fn seek(&mut self, course: &Course<'_>) -> Result<(), NoMemory>
        requires judge { IfSome self.old.download (λ d.
            CanJudge course.now.scene.now.film self.old.t (download_of d)) }
        requires loaded { All (IsOf course.now.scene.now.film) self.old.loaded.items }
        requires room { length self.old.loaded.items ≤ most_segments }
        requires wasted { self.old.wasted ≤ most_wasted }
        requires targets { All (λ s. s.to < segments_of course.now.scene.now.film)
            course.now.seeks.now }
        ensures { IfOk result (λ _. StepsOn course.now seek self.old self.new) }
    {
        let Some(s) = seek_at(course.seeks, self.t) else {
            return Ok(());
        };
        let wasted = self.wasted_by(course.scene.film());
        self.events.push(Event::Seek {
            at: self.t,
            to: s.to,
            wasted,
        })?;
        let position = s.to as u32 * course.scene.film().seg_ms();
        self.x = position;
        self.y = position;
        self.k = s.to;
        self.download = None;
        self.forced = None;
        self.loaded.clear();
        self.mode = Mode::Seeking;
        self.wasted += wasted;
        Ok(())
    }

    /// The bits that a seek wastes now: those of a running download, and the loaded segments that haven't begun.
    fn wasted_by(&self, m: &Manifest) -> u64
        requires judge { IfSome self.now.download (λ d.
            CanJudge m.now self.now.t (download_of d)) }
        requires loaded { All (IsOf m.now) self.now.loaded.items }
        requires room { length self.now.loaded.items ≤ most_segments }
        ensures value { result ≡ wasted_by m.now (seen self.now []) }
        ensures limit { result ≤ most_sought }
    {
        let running = match self.download {
            Some(running) => {
                let judged = Judged {
                    film: m,
                    running,
                    t: self.t,
                };
                judged.got() as u64
            }
            None => 0,
        };
        running + sizes_loaded(m, &self.loaded)
    }

    /// 5. Request.
    pub fn request<T: Rule>(&mut self, course: &Course<'_>, rule: &T) -> Result<(), NoMemory>
        requires ready { CanRequest
            (case_on course.now (T.kind rule.now)) (seen self.old []) }
        ensures requests { IfOk result (λ _. (history : List ℕ) → T.stands_for rule.now history
            → seen self.new history
            ≡ request (case_on course.now (T.kind rule.now)) (seen self.old history)) }
        ensures timed { IfOk result (λ _. KnowsEnd course.now self.old
            → KnowsEnd course.now self.new) }
    {
        if !self.can_ask(course) {
            return Ok(());
        }
        let rung = self.rung_for(course, rule);
        self.ask(course, rung)?;
        Ok(())
    }

    /// Whether a segment is asked for now: there is no download, a segment is left, it fits the buffer, and it is there.
    fn can_ask(&self, course: &Course<'_>) -> bool
        requires position { self.now.x ≤ self.now.y }
        requires end { self.now.y ≤ longest_film }
        ensures asks { (kind : RuleKind)
            → result ≡ can_ask (case_on course.now kind) (seen self.now []) }
        ensures next { result ≡ true → self.now.k < segments_of course.now.scene.now.film }
        ensures room { result ≡ true → self.now.y - self.now.x
            ≤ course.now.scene.now.setup.buffer_ms - course.now.scene.now.film.seg_ms }
    {
        self.download.is_none()
            && self.k < course.scene.film().segments()
            && self.y - self.x + course.scene.film().seg_ms() <= course.scene.setup().buffer_ms
            && course.scene.available(self.k) <= self.t
    }

    /// What the rule sees.
    fn context(&self) -> Context
        requires position { self.now.x ≤ self.now.y }
        ensures { result ≡ context_of (seen self.now []) }
    {
        Context {
            level: self.y - self.x,
            next: self.k,
            last: self.last,
        }
    }

    /// The rung that is asked for: the forced one, or else the rule's choice.
    fn rung_for<T: Rule>(&self, course: &Course<'_>, rule: &T) -> u8
        requires choose { CanChoose
            (case_on course.now (T.kind rule.now)) (seen self.now []) }
        ensures value { (history : List ℕ) → T.stands_for rule.now history
            → result ≡ rung_for (case_on course.now (T.kind rule.now)) (seen self.now history) }
        ensures rung { result < rungs_of course.now.scene.now.film }
    {
        match self.forced {
            Some(rung) => rung,
            None => rule.choose(course.scene.film(), course.scene.setup(), &self.context()),
        }
    }

    /// A download of a rung of the next segment starts.
    fn ask(&mut self, course: &Course<'_>, rung: u8) -> Result<(), NoMemory>
        requires next { self.old.k < segments_of course.now.scene.now.film }
        requires rung { rung < rungs_of course.now.scene.now.film }
        requires instant { self.old.t ≤ latest_ms }
        ensures asks { IfOk result (λ _.
            FollowsOn course.now (λ c p. asks c p rung) self.old self.new) }
        ensures timed { IfOk result (λ _. KnowsEnd course.now self.new) }
    {
        let bits = course.scene.film().size(self.k, rung);
        self.events.push(Event::Request {
            at: self.t,
            segment: self.k,
            rung,
        })?;
        let landing = course.scene.clock().finish(self.t, bits);
        self.download = Some(Running {
            segment: self.k,
            rung,
            asked: self.t,
            begins: landing.first,
            done: landing.done,
            job: Job::start(bits),
            first: None,
        });
        self.forced = None;
        Ok(())
    }

    /// The millisecond passes on the course's own network.
    pub fn pass(&mut self, course: &Course<'_>) -> Result<(), NoMemory>
        requires { CanPass (seen self.old []) }
        ensures { IfOk result (λ _. StepsOn course.now pass_ms self.old self.new) }
    {
        self.pass_in(course, course.scene.clock().period_at(self.t))
    }

    /// The millisecond passes, in this period of a network.
    pub fn pass_in(&mut self, course: &Course<'_>, period: Period) -> Result<(), NoMemory>
        requires { CanPass (seen self.old []) }
        ensures { IfOk result (λ _.
            StepsOn course.now (λ c p. pass_in c period p) self.old self.new) }
    {
        self.take_in(period);
        self.pass_in_mode(course)?;
        self.t += 1;
        Ok(())
    }

    /// A download, if there is one, takes its network millisecond, which lies in this period.
    fn take_in(&mut self, period: Period)
        ensures takes { Step (takes_any_in period) self.old self.new }
        ensures ready { CanPass (seen self.old []) → CanPass (seen self.new []) }
    {
        if let Some(d) = self.download {
            self.download = Some(d.take_in(period, self.t));
        }
    }

    /// A millisecond of the mode.
    fn pass_in_mode(&mut self, course: &Course<'_>) -> Result<(), NoMemory>
        requires ready { CanPass (seen self.old []) }
        ensures passes { IfOk result (λ _.
            FollowsOn course.now (λ c p. passes_in c p p.mode) self.old self.new) }
        ensures same { IfOk result (λ _. SameDownload self.old self.new) }
    {
        match self.mode {
            Mode::Starting => {
                self.startup_ms += 1;
                self.stalling = false;
                Ok(())
            }
            Mode::Seeking => {
                self.seek_ms += 1;
                self.stalling = false;
                Ok(())
            }
            Mode::Playing if self.x < self.y => self.play(course),
            Mode::Playing => self.stall(),
            Mode::Ended => Ok(()),
        }
    }

    /// A millisecond of play.
    fn play(&mut self, course: &Course<'_>) -> Result<(), NoMemory>
        requires { self.old.x < longest_film }
        ensures plays { IfOk result (λ _. FollowsOn course.now plays self.old self.new) }
        ensures same { IfOk result (λ _. SameDownload self.old self.new) }
    {
        if self.x % course.scene.film().seg_ms() == 0 {
            self.begin()?;
        }
        self.x += 1;
        self.stalling = false;
        Ok(())
    }

    /// The segment at whose beginning the position stands begins to play.
    fn begin(&mut self) -> Result<(), NoMemory>
        ensures begins { IfOk result (λ _. Follows (λ p. begins p p.loaded) self.old self.new) }
        ensures position { IfOk result (λ _. self.new.x ≡ self.old.x) }
        ensures same { IfOk result (λ _. SameDownload self.old self.new) }
    {
        let Some(q) = self.loaded.pop_front() else {
            return Ok(());
        };
        self.events.push(Event::Play {
            at: self.t,
            segment: q.segment,
            rung: q.rung,
        })?;
        self.played.push(q)?;
        Ok(())
    }

    /// A millisecond of stall.
    fn stall(&mut self) -> Result<(), NoMemory>
        requires time { self.old.stall_ms ≤ latest_ms }
        requires stalls { self.old.stalls ≤ most_stalls }
        ensures stalls { IfOk result (λ _. Follows stalls_on self.old self.new) }
        ensures same { IfOk result (λ _. SameDownload self.old self.new) }
    {
        self.stall_ms += 1;
        if self.stalling {
            return Ok(());
        }
        self.events.push(Event::Stall { at: self.t })?;
        self.stalls += 1;
        self.stalling = true;
        Ok(())
    }

    /// What the player shows at its end.
    pub fn into_session(self) -> Session
        ensures { (history : List ℕ) → shown result ≡ shown_by (seen self history) }
    {
        Session {
            events: self.events,
            played: self.played,
            startup_ms: self.startup_ms,
            stall_ms: self.stall_ms,
            seek_ms: self.seek_ms,
            stalls: self.stalls,
            wasted_bits: self.wasted,
            end: self.t,
        }
    }
}

/// The sizes of loaded segments, summed.
fn sizes_of(m: &Manifest, loaded: &[Played]) -> u64
    requires loaded { All (IsOf m.now) loaded.now }
    requires room { length loaded.now ≤ most_segments }
    ensures value { result ≡ sum_by (λ q. size_of m.now q.segment q.rung) loaded.now }
    ensures limit { result ≤ most_bits * length loaded.now }
{
    let mut total = 0u64;
    for q in loaded {
        total += m.size(q.segment, q.rung) as u64;
    }
    total
}

/// The sizes of all loaded segments, summed.
#[tactic(auto, using(crate::proofs::Halves::of_front, crate::proofs::Halves::sum_of_halves))]
fn sizes_loaded(m: &Manifest, loaded: &VecDeque<Played>) -> u64
    requires loaded { All (IsOf m.now) loaded.now.items }
    requires room { length loaded.now.items ≤ most_segments }
    ensures value { result ≡ sum_by (λ q. size_of m.now q.segment q.rung) loaded.now.items }
    ensures limit { result ≤ most_loaded }
{
    let (front, back) = loaded.as_slices();
    sizes_of(m, front) + sizes_of(m, back)
}
