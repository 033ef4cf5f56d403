//! The row of a session in a comparison, which is played right before it is written.

ghost use Rattle.std.specs.Prelude.{◌≡◌, map};
ghost use Rattle.std.specs.List.{All, flat_map};
ghost use Rattle.lab_model.specs.Fit.{SetupFits};
ghost use Rattle.lab_model.specs.Film.{segments_of};
ghost use Rattle.lab_model.specs.Rules.{KindFits};
ghost use Rattle.lab_model.specs.Seeks.{SeeksFit};
ghost use Rattle.lab_words.specs.Command.{named};
ghost use Rattle.lab_words.specs.Limits.{IsRuleWithin};
ghost use Rattle.lab_words.specs.Rules.{spoken};
ghost use Rattle.abrlab_top.specs.Rows.{BenchValue, session_row};
ghost use Rattle.abrlab_top.specs.Stages.{WritesRows};

use crate::rule::any_rule;
use lab_io::{PutErr, Sink};
use lab_model::{Manifest, Seek, Setup};
use lab_words::NamedRule;
use network_clock::Clock;
use player_core::play;
use session_report::compare_row;
use std::alloc::Global;
use std::marker::Model;

/// What rules are put side by side on: a film, a network, a setup and the seeks, which fit one another.
#[derive(Drop)]
pub(crate) struct Bench<'a> {
    m: &'a Manifest,
    clock: &'a Clock,
    set: &'a Setup,
    seeks: &'a [Seek],
}

impl<'a> Model for Bench<'a> {
    ghost Value = { BenchValue };

    ghost view = { λ b.
        record { film = b.m.now; periods = b.clock.now; setup = b.set.now; seeks = b.seeks.now } };

    ghost invariant = { λ b. SetupFits b.set.now b.m.now
        × SeeksFit b.seeks.now (segments_of b.m.now) };
}

impl<'a> Bench<'a> {
    /// A bench of these, which fit one another.
    pub fn new(m: &'a Manifest, clock: &'a Clock, set: &'a Setup, seeks: &'a [Seek]) -> Bench<'a>
        requires setup { SetupFits set.now m.now }
        requires seeks { SeeksFit seeks.now (segments_of m.now) }
        ensures { result ≡ record {
          film = m.entry.now;
          periods = clock.entry.now;
          setup = set.entry.now;
          seeks = seeks.entry.now;
        } }
    {
        Bench {
            m,
            clock,
            set,
            seeks,
        }
    }

    /// Plays the session of a rule with an empty history, and writes its row.
    pub fn write_row<O: Sink>(
        &self,
        alloc: Global,
        rule: &NamedRule,
        out: &mut O,
    ) -> Result<(), PutErr>
        requires within { IsRuleWithin (spoken rule.now.rule) }
        requires fits { KindFits (spoken rule.now.rule) self.now.film }
        ensures { WritesRows (O.seen out.old)
            (session_row self.now (named rule.now)) result (O.seen out.new) }
    {
        let Ok(played) = any_rule(alloc, &rule.rule) else {
            return Err(PutErr::Memory);
        };
        let Ok(session) = play(alloc, self.m, self.clock, self.set, self.seeks, played) else {
            return Err(PutErr::Memory);
        };
        compare_row(&rule.name, &session, &self.set.weights, out)
    }

    /// Writes a row for each rule, in order.
    pub fn write_rows<O: Sink>(
        &self,
        alloc: Global,
        rules: &[NamedRule],
        out: &mut O,
    ) -> Result<(), PutErr>
        requires within { All (λ rule. IsRuleWithin (spoken rule.rule)) rules.now }
        requires fits { All (λ rule. KindFits (spoken rule.rule) self.now.film) rules.now }
        ensures { WritesRows (O.seen out.old)
            (flat_map (session_row self.now) (map named rules.now))
            result (O.seen out.new) }
    {
        for rule in rules {
            self.write_row(alloc, rule, out)?;
        }
        Ok(())
    }
}
