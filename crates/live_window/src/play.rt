//! The live player.

ghost use Rattle.std.specs.Prelude.{◌≡◌, ◌+◌, ◌<◌, ◌≤◌, [], false, length, IfOk};
ghost use Rattle.std.specs.List.{All};
ghost use Rattle.lab_model.specs.Film.{rungs_of, segments_of};
ghost use Rattle.lab_model.specs.Fit.{SetupFits};
ghost use Rattle.lab_model.specs.Limits.{all_ahead};
ghost use Rattle.lab_model.specs.Rules.{KindFits};
ghost use Rattle.player_core.specs.Limits.{latest_ms, most_played};
ghost use Rattle.player_core.specs.State.{case_of};
ghost use Rattle.player_core.specs.Session.{session_of, shown};
ghost use Rattle.player_core.specs.Lists.{IsListed};

use crate::scene::live_scene;
use lab_model::{Manifest, NoMemory, Rule, Setup};
use network_clock::Clock;
use player_core::{Session, play_from};
use std::alloc::Global;

/// The live session of a rule, without abandonment and seeks: of the film so much is there at instant 0 as `ahead` says,
/// in milliseconds, at most 120000000. It ends before 10^15 ms.
pub fn play_live<T: Rule + Drop>(
    alloc: Global,
    film: &Manifest,
    clock: &Clock,
    setup: &Setup,
    ahead: u32,
    rule: T,
) -> Result<Session, NoMemory>
    requires setup { SetupFits setup.now film.now }
    requires abandon { setup.now.abandon ≡ false }
    requires ahead { ahead ≤ all_ahead }
    requires rule { KindFits (T.kind rule) film.now }
    requires told { T.stands_for rule [] }
    ensures session { IfOk result (λ s. shown s
        ≡ session_of (case_of film.now clock.now setup.now [] ahead (T.kind rule))) }
    ensures rungs { IfOk result (λ s. All
        (λ p. (p.rung < rungs_of film.now) × (p.segment < segments_of film.now)) s.played.items) }
    ensures count { IfOk result (λ s. length s.played.items ≤ most_played) }
    ensures ends { IfOk result (λ s. s.end < latest_ms) }
    ensures times { IfOk result (λ s. s.startup_ms + s.stall_ms + s.seek_ms ≤ s.end) }
    // It is the session of the rung list that it played.
    ensures listed { IfOk result (λ s. IsListed film.now clock.now setup.now ahead s) }
{
    play_from(alloc, &live_scene(film, clock, setup, ahead), &[], rule)
}
