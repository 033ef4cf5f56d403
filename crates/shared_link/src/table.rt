//! The players of a joint session side by side: what an instant and a millisecond do to each of them.

ghost use Rattle.std.specs.Prelude.{◌≡◌, ℕ, ◌<◌, ◌≤◌, ◌↔◌, List, [], IfOk, IsTrue, length};
ghost use Rattle.std.specs.List.{All};
ghost use Rattle.player_core.specs.Ready.{CanPass};
ghost use Rattle.player_core.specs.Seen.{seen};
ghost use Rattle.player_core.specs.State.{Player};
ghost use Rattle.shared_link.specs.Joint.{takers_in, takes_bits};
ghost use Rattle.shared_link.specs.Table.{AllCanMeet, AllCanPass, AllMeet, AllPass, AreFirstBodies, AreShown, CanMeet, BodyGoesOn, HasEnded, Meets, Passes, Stand};

use lab_model::{NoMemory, Period, Rule};
use player_core::Session;
use player_core::parts::{Body, Course};
use std::alloc::Global;

/// So many players at the start.
pub fn first_bodies(alloc: Global, count: usize) -> Result<Vec<Body>, NoMemory>
    ensures { IfOk result (λ bs. AreFirstBodies count bs.items) }
{
    let mut bodies = Vec::new(alloc);
    for _place in 0..count {
        bodies.push(Body::new(alloc))?;
    }
    Ok(bodies)
}

/// What an instant does to a player: arrival and end, and where its session goes on the request.
fn meet<T: Rule>(course: &Course<'_>, body: &mut Body, rule: &mut T) -> Result<(), NoMemory>
    requires { CanMeet course.now (T.kind rule.old) body.old }
    ensures { IfOk result (λ _.
        Meets T.kind T.stands_for course.now body.old body.new rule.old rule.new) }
{
    body.stop(course, rule)?;
    if body.mode.is_ended() {
        return Ok(());
    }
    body.request(course, rule)
}

/// What an instant does to each player.
pub fn meet_all<T: Rule>(
    course: &Course<'_>,
    bodies: &mut [Body],
    rules: &mut [T],
) -> Result<(), NoMemory>
    requires { AllCanMeet T.kind course.now bodies.old rules.old }
    ensures { IfOk result (λ _.
        AllMeet T.kind T.stands_for course.now bodies.old bodies.new rules.old rules.new) }
{
    for place in 0..bodies.len() {
        meet(course, &mut bodies[place], &mut rules[place])?;
    }
    Ok(())
}

/// Whether all players have ended.
pub fn have_all_ended(bodies: &[Body]) -> bool
    ensures { IsTrue result ↔ All HasEnded bodies.now }
{
    bodies.iter().all(|body| body.mode.is_ended())
}

/// Whether a player takes bits in a millisecond of this period.
fn takes_bits(body: &Body, period: Period) -> bool
    ensures { (history : List ℕ) → result ≡ takes_bits period (seen body.now history) }
{
    match body.download {
        Some(d) => d.job.spends(period),
        None => false,
    }
}

/// How many players take bits in a millisecond of this period.
pub fn count_takers(bodies: &[Body], period: Period) -> usize
    ensures few { result ≤ length bodies.now }
    ensures takers { (ps : ℕ → Player) → Stand ps bodies.now
        → result ≡ takers_in period ps (length bodies.now) }
{
    let mut takers = 0;
    for body in bodies {
        if takes_bits(body, period) {
            takers += 1;
        }
    }
    takers
}

/// A millisecond passes for a player on this share of the link, unless it has ended.
fn pass(course: &Course<'_>, body: &mut Body, share: Period) -> Result<(), NoMemory>
    requires { BodyGoesOn body.old → CanPass (seen body.old []) }
    ensures { IfOk result (λ _. Passes course.now share body.old body.new) }
{
    if body.mode.is_ended() {
        return Ok(());
    }
    body.pass_in(course, share)
}

/// A millisecond passes for each player that has not ended, on this share of the link.
pub fn pass_all(course: &Course<'_>, bodies: &mut [Body], share: Period) -> Result<(), NoMemory>
    requires { AllCanPass bodies.old }
    ensures { IfOk result (λ _. AllPass course.now share bodies.old bodies.new) }
{
    for body in bodies.iter_mut() {
        pass(course, body, share)?;
    }
    Ok(())
}

/// What each player shows at its end.
pub fn sessions_of(alloc: Global, bodies: Vec<Body>) -> Result<Vec<Session>, NoMemory>
    ensures { IfOk result (λ ss. (ps : ℕ → Player) → Stand ps bodies.items
        → AreShown ps (length bodies.items) ss.items) }
{
    let mut sessions = Vec::new(alloc);
    for body in bodies {
        sessions.push(body.into_session())?;
    }
    Ok(sessions)
}
