//! The joint session, from event to event.

ghost use Rattle.std.specs.Prelude.{◌≡◌, ℕ, [], false, length, map, get_or, IfOk};
ghost use Rattle.lab_model.specs.Limits.{all_ahead};
ghost use Rattle.std.specs.List.{All};
ghost use Rattle.lab_model.specs.Film.{IsWithin};
ghost use Rattle.lab_model.specs.Fit.{SetupFits};
ghost use Rattle.lab_model.specs.Rules.{KindFits, fixed};
ghost use Rattle.player_core.specs.Session.{session_of, shown};
ghost use Rattle.player_core.specs.State.{case_of};
ghost use Rattle.shared_link.specs.Joint.{IsJoint, joint_of};
ghost use Rattle.shared_link.specs.Table.{AreSessions, IsWholeSession, joint_on_course};

use crate::calm::{all_calm_until, glide_all};
use crate::joint::Joint;
use crate::lane::{Lane, Stage};
use crate::table::{count_takers, first_bodies, have_all_ended, meet_all, pass_all, sessions_of};
use lab_model::{Manifest, NoMemory, Rule, Setup, Trace};
use network_clock::{Link, share_of};
use player_core::Scene;
use player_core::limits::LATEST_MS;
use player_core::parts::Course;
use std::alloc::Global;

/// The joint session on a stage, whose link is for as many players as there are rules.
fn play_on<T: Rule + Drop>(
    alloc: Global,
    stage: &Stage<'_>,
    rules: Vec<T>,
) -> Result<Joint, NoMemory>
    requires joint { IsJoint (joint_on_course stage.now.course.now (map T.kind rules.items)) }
    requires players { stage.now.link.now.most ≡ length rules.items }
    requires told { All (λ r. T.stands_for r []) rules.items }
    ensures { IfOk result (λ g.
        AreSessions (joint_on_course stage.now.course.now (map T.kind rules.items))
        g.sessions.items) }
{
    let mut rules = rules;
    let mut bodies = first_bodies(alloc, rules.len())?;
    let mut t = 0u64;
    for _turn in 0..LATEST_MS {
        meet_all(stage.course, &mut bodies, &mut rules)?;
        if have_all_ended(&bodies) {
            return Ok(Joint {
                sessions: sessions_of(alloc, bodies)?,
            });
        }
        let period = stage.link.clock().period_at(t);
        let takers = count_takers(&bodies, period) as u8;
        let lane = Lane {
            stage: *stage,
            takers,
        };
        let until = all_calm_until(&lane, &bodies, period, t);
        pass_all(stage.course, &mut bodies, share_of(period, takers))?;
        glide_all(&lane, &mut bodies, until);
        t = until;
    }
    unreachable!()
}

/// The joint session of several players on one link: a film on demand, without seeks and abandonment, and 1 to 8
/// rules, one for each player. In each millisecond a player with a download past its delay has an equal share of
/// what the link carries with the others that do.
pub fn play_shared<T: Rule + Drop>(
    alloc: Global,
    m: &Manifest,
    trace: &Trace,
    set: &Setup,
    rules: Vec<T>,
) -> Result<Joint, NoMemory>
    requires players { IsWithin 1 8 (length rules.items) }
    requires setup { SetupFits set.now m.now }
    requires keeps { set.now.abandon ≡ false }
    requires rules { All (λ r. KindFits (T.kind r) m.now) rules.items }
    requires told { All (λ r. T.stands_for r []) rules.items }
    ensures sessions { IfOk result (λ g. AreSessions
        (joint_of m.now trace.now set.now (map T.kind rules.items)) g.sessions.items) }
    ensures whole { IfOk result (λ g. All (IsWholeSession m.now) g.sessions.items) }
    ensures alone { length rules.items ≡ 1 → IfOk result (λ g. All (λ s. shown s ≡ session_of
        (case_of m.now trace.now set.now [] all_ahead
        (get_or (map T.kind rules.items) 0 (fixed 0)))) g.sessions.items) }
{
    let link = Link::new(alloc, trace, rules.len() as u8)?;
    let scene = Scene::on_demand(m, link.clock(), set);
    let course = Course {
        scene: &scene,
        seeks: &[],
    };
    let stage = Stage {
        course: &course,
        link: &link,
    };
    play_on(alloc, &stage, rules)
}
