//! The player.

ghost use Rattle.std.specs.Prelude.{◌≡◌, ℕ, ◌+◌, ◌*◌, ◌<◌, ◌≤◌, ◌↔◌, [], false, length, IfOk, IsTrue};
ghost use Rattle.lab_model.specs.Limits.{all_ahead};
ghost use Rattle.std.specs.List.{All};
ghost use Rattle.lab_model.specs.Film.{rungs_of, segments_of};
ghost use Rattle.lab_model.specs.Fit.{SetupFits};
ghost use Rattle.lab_model.specs.Rules.{KindFits};
ghost use Rattle.lab_model.specs.Seeks.{AreRising, SeeksFit};
ghost use Rattle.player_core.specs.Available.{available_at};
ghost use Rattle.player_core.specs.Limits.{latest_ms, most_played};
ghost use Rattle.player_core.specs.Scene.{case_in};
ghost use Rattle.player_core.specs.State.{case_of};
ghost use Rattle.player_core.specs.Course.{case_on};
ghost use Rattle.player_core.specs.Sound.{IsCase};
ghost use Rattle.player_core.specs.Session.{session_of, shown};
ghost use Rattle.player_core.specs.Lists.{IsListed};

use crate::body::Body;
use crate::course::Course;
use crate::limits::{LATEST_MS, LATEST_SEEK_MS, MOST_SEEKS};
use crate::scene::Scene;
use crate::session::Session;
use lab_model::{Manifest, NoMemory, Rule, Seek, Setup};
use network_clock::Clock;
use std::alloc::Global;

/// The instant in milliseconds from which a segment may be asked for, where `ahead` milliseconds of media, at most 120000000, are there at instant 0.
pub fn available(m: &Manifest, ahead: u32, seg: u16) -> u64
    requires { seg < segments_of m.now }
    ensures { result ≡ available_at m.now ahead seg }
{
    ((seg as u64 + 1) * m.seg_ms() as u64).saturating_sub(ahead as u64)
}

/// Whether each seek comes before the next.
fn rises(seeks: &[Seek]) -> bool
    ensures { IsTrue result ↔ AreRising seeks.now }
{
    for i in 1..seeks.len() {
        if seeks[i].at_ms <= seeks[i - 1].at_ms {
            return false;
        }
    }
    true
}

/// Whether a seek script fits a film: at most 16 seeks, at strictly rising instants up to 1000000000 ms, each to a segment of the film.
pub fn seeks_fit(seeks: &[Seek], m: &Manifest) -> bool
    ensures { IsTrue result ↔ SeeksFit seeks.now (segments_of m.now) }
{
    let segments = m.segments();
    seeks.len() <= MOST_SEEKS
        && seeks.iter().all(|s| s.at_ms <= LATEST_SEEK_MS)
        && rises(seeks)
        && seeks.iter().all(|s| s.to < segments)
}

/// The session of a course, from event to event.
fn session_on<T: Rule + Drop>(
    alloc: Global,
    course: &Course<'_>,
    rule: T,
) -> Result<Session, NoMemory>
    requires case { IsCase (case_on course.now (T.kind rule)) }
    requires told { T.stands_for rule [] }
    ensures { IfOk result (λ s. shown s ≡ session_of (case_on course.now (T.kind rule))) }
{
    let mut body = Body::new(alloc);
    let mut rule = rule;
    for _turn in 0..LATEST_MS {
        body.instant(course, &mut rule)?;
        if body.mode.is_ended() {
            return Ok(body.into_session());
        }
        body.wait(course)?;
    }
    unreachable!()
}

/// The session of a scene with a seek script that fits its film, and a rule that does and was told nothing yet.
pub fn play_from<T: Rule + Drop>(
    alloc: Global,
    scene: &Scene<'_>,
    seeks: &[Seek],
    rule: T,
) -> Result<Session, NoMemory>
    requires rule { KindFits (T.kind rule) scene.now.film }
    requires seeks { SeeksFit seeks.now (segments_of scene.now.film) }
    requires told { T.stands_for rule [] }
    ensures session { IfOk result (λ s. shown s
        ≡ session_of (case_in scene.now seeks.now (T.kind rule))) }
    ensures rungs { IfOk result (λ s. All
        (λ p. (p.rung < rungs_of scene.now.film) × (p.segment < segments_of scene.now.film))
        s.played.items) }
    ensures count { IfOk result (λ s. length s.played.items ≤ most_played) }
    ensures ends { IfOk result (λ s. s.end < latest_ms) }
    ensures times { IfOk result (λ s. s.startup_ms + s.stall_ms + s.seek_ms ≤ s.end) }
    ensures listed { scene.now.setup.abandon ≡ false → seeks.now ≡ []
        → IfOk result (λ s. IsListed scene.now.film scene.now.periods scene.now.setup
        scene.now.ahead s) }
{
    prove!(scene.film().segments() > 0);
    let course = Course { scene, seeks };
    session_on(alloc, &course, rule)
}

/// The session of a film on demand.
pub fn play<T: Rule + Drop>(
    alloc: Global,
    m: &Manifest,
    clock: &Clock,
    set: &Setup,
    seeks: &[Seek],
    rule: T,
) -> Result<Session, NoMemory>
    requires setup { SetupFits set.now m.now }
    requires rule { KindFits (T.kind rule) m.now }
    requires seeks { SeeksFit seeks.now (segments_of m.now) }
    requires told { T.stands_for rule [] }
    ensures session { IfOk result (λ s. shown s
        ≡ session_of (case_of m.now clock.now set.now seeks.now all_ahead (T.kind rule))) }
    ensures rungs { IfOk result (λ s. All
        (λ p. (p.rung < rungs_of m.now) × (p.segment < segments_of m.now)) s.played.items) }
    ensures count { IfOk result (λ s. length s.played.items ≤ most_played) }
    ensures ends { IfOk result (λ s. s.end < latest_ms) }
    ensures times { IfOk result (λ s. s.startup_ms + s.stall_ms + s.seek_ms ≤ s.end) }
    ensures listed { set.now.abandon ≡ false → seeks.now ≡ []
        → IfOk result (λ s. IsListed m.now clock.now set.now all_ahead s) }
{
    let scene = Scene::on_demand(m, clock, set);
    play_from(alloc, &scene, seeks, rule)
}
