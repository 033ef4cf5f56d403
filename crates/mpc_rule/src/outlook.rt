//! What a choice is made from, and what it foretells of a segment on a rung.

ghost use Rattle.std.specs.Prelude.{◌≡◌, ◌<◌};
ghost use Rattle.lab_model.specs.Film.{segments_of};
ghost use Rattle.mpc_rule.specs.Lookahead.{IsLookahead, ladder_of};
ghost use Rattle.mpc_rule.specs.Search.{IsForetold, IsForetoldRow};

use lab_model::{Context, MOST_RUNGS, Manifest, Setup};
use std::marker::Model;

/// What a choice is made from: the setup fits the film, the context is one of the film's, and the segments that are
/// looked at are 1 to 5, none past the last.
#[derive(Drop)]
pub(crate) struct Outlook<'a> {
    pub(crate) film: &'a Manifest,
    pub(crate) setup: &'a Setup,
    pub(crate) context: &'a Context,
    /// The rate that is reckoned with, in bits per second.
    pub(crate) rate: u64,
    /// How many segments are looked at, from the next one on.
    pub(crate) span: u8,
}

impl<'a> Model for Outlook<'a> {
    ghost use Rattle.mpc_rule.specs.Lookahead.{IsLookahead, Lookahead};

    ghost Value = { Lookahead };

    ghost view = { λ o. record {
      film = o.film.now;
      setup = o.setup.now;
      context = o.context.now;
      rate = o.rate;
      span = o.span;
    } };

    ghost invariant = { λ o. IsLookahead (record {
      film = o.film.now;
      setup = o.setup.now;
      context = o.context.now;
      rate = o.rate;
      span = o.span;
    }) };
}

/// What is foretold of a segment on a rung.
#[derive(Clone, Copy)]
pub(crate) struct Foretold {
    /// The milliseconds in which it comes.
    pub(crate) wait: u64,
    /// Its utility, 0 to 1000000.
    pub(crate) utility: u32,
}

/// What is foretold of no rung.
pub(crate) const NOTHING: Foretold = Foretold {
    wait: 0,
    utility: 0,
};

impl Outlook<'_> {
    /// The number of rungs of the ladder, 1 to 16.
    pub(crate) fn rungs(&self) -> u8
        ensures value { result ≡ ladder_of self.now }
        ensures lookahead { IsLookahead self.now }
    {
        self.film.rungs()
    }

    /// What is foretold of a segment on a rung.
    fn foretold(&self, seg: u16, rung: u8) -> Foretold
        requires segment { seg < segments_of self.now.film }
        requires rung { rung < ladder_of self.now }
        ensures { IsForetold self.now seg rung result }
    {
        Foretold {
            wait: (1000 * self.film.size(seg, rung) as u64).div_ceil(self.rate),
            utility: self.setup.weights.utility(seg, rung),
        }
    }

    /// What is foretold of a segment, rung by rung.
    pub(crate) fn row(&self, seg: u16) -> [Foretold; MOST_RUNGS]
        requires { seg < segments_of self.now.film }
        ensures { IsForetoldRow self.now seg result }
    {
        let mut row = [NOTHING; MOST_RUNGS];
        for rung in 0..self.rungs() {
            row[rung as usize] = self.foretold(seg, rung);
        }
        row
    }
}
