//! Stretches of milliseconds in which nothing happens to any player, as long as so many take: how long they are, and
//! how they pass at once.

ghost use Rattle.std.specs.Prelude.{◌≡◌, ◌+◌, ◌-◌, ◌<◌, ◌≤◌};
ghost use Rattle.std.specs.List.{All};
ghost use Rattle.lab_model.specs.Film.{size_of};
ghost use Rattle.lab_model.specs.Rules.{RuleKind};
ghost use Rattle.network_clock.specs.Network.{first_at, lane_at};
ghost use Rattle.player_core.specs.Limits.{latest_ms};
ghost use Rattle.player_core.specs.Quiet.{taken_ms, takes_all};
ghost use Rattle.player_core.specs.Seen.{CanMove, Follows, KnowsEnd, SameRequest, download_of};
ghost use Rattle.player_core.specs.State.{Case};
ghost use Rattle.shared_link.specs.Calm.{AllGlide, AllRestAt, CanCome, CanRunOn, Glides, RestsAt, StaysCalm, lane_case};
ghost use Rattle.shared_link.specs.Table.{BodyGoesOn};

use crate::lane::Lane;
use lab_model::Period;
use player_core::limits::LATEST_MS;
use player_core::parts::{Body, Running};

/// The instant, after its own, before which nothing happens to a player as long as so many take. Its own instant lies
/// in this period.
fn calm_until(lane: &Lane<'_>, body: &Body, period: Period) -> u64
    requires { RestsAt lane.now.stage.course.now period body.now }
    ensures { StaysCalm lane.now.stage.course.now lane.now.takers result body.now }
{
    let own = body.t + body.untouched_ms(lane.stage.course);
    match body.download {
        None => own,
        Some(d) if d.job.spends(period) => {
            own.min(lane.stage.link.lands(lane.takers, body.t, d.job.left))
        }
        Some(d) => own.min(d.begins),
    }
}

/// The instant after `t` before which nothing happens to any player as long as so many take. `t` lies in this period.
pub fn all_calm_until(lane: &Lane<'_>, bodies: &[Body], period: Period, t: u64) -> u64
    requires { AllRestAt lane.now.stage.course.now period t bodies.now }
    ensures later { t < result }
    ensures limit { result ≤ t + latest_ms }
    ensures calm { All (λ b. BodyGoesOn b
        → StaysCalm lane.now.stage.course.now lane.now.takers result b) bodies.now }
{
    let mut until = t + LATEST_MS;
    for body in bodies {
        if !body.mode.is_ended() {
            until = until.min(calm_until(lane, body, period));
        }
    }
    until
}

/// A download after the milliseconds `from` to `until - 1`, while so many take.
fn run_on(lane: &Lane<'_>, d: Running, from: u64, until: u64) -> Running
    requires { CanRunOn d from until }
    ensures takes { (c : Case)
        → d.begins ≡ first_at lane.now.stage.link.now.periods d.asked (size_of c.film d.segment d.rung)
        → download_of result ≡ taken_ms
        (record c { network = lane_at lane.now.stage.link.now.periods lane.now.takers })
        from (until - from) (download_of d) }
    ensures same { SameRequest d result }
{
    Running {
        job: lane.stage.link.advance(lane.takers, d.job, from, until),
        first: if d.begins < until {
            Some(d.begins)
        } else {
            None
        },
        ..d
    }
}

/// A player's download, if there is one, comes to an instant at once, as that of one of so many takers.
fn take_all(lane: &Lane<'_>, body: &mut Body, until: u64)
    requires { CanCome until body.old }
    ensures takes { KnowsEnd lane.now.stage.course.now body.old → (kind : RuleKind)
        → Follows (takes_all (lane_case lane.now.stage.course.now lane.now.takers kind)
        (until - body.old.t)) body.old body.new }
    ensures timed { KnowsEnd lane.now.stage.course.now body.old
        → KnowsEnd lane.now.stage.course.now body.new }
    ensures still { CanMove body.new (until - body.old.t) }
    ensures instant { body.new.t ≡ body.old.t }
{
    if let Some(d) = body.download {
        body.download = Some(run_on(lane, d, body.t, until));
    }
}

/// A player comes to an instant at once, as one of so many takers, unless it has ended.
fn glide(lane: &Lane<'_>, body: &mut Body, until: u64)
    requires { BodyGoesOn body.old → CanCome until body.old }
    ensures { Glides lane.now.stage.course.now lane.now.takers until body.old body.new }
{
    if body.mode.is_ended() {
        return;
    }
    let ms = until - body.t;
    take_all(lane, body, until);
    body.move_on(ms);
    body.t += ms;
}

/// Each player that has not ended comes to an instant at once, as one of so many takers.
pub fn glide_all(lane: &Lane<'_>, bodies: &mut [Body], until: u64)
    requires { All (λ b. BodyGoesOn b → CanCome until b) bodies.old }
    ensures { AllGlide lane.now.stage.course.now lane.now.takers until bodies.old bodies.new }
{
    for body in bodies.iter_mut() {
        glide(lane, body, until);
    }
}
