//! The search of RobustMPC: the lists of rungs for the segments that come, in lexicographic order, and what each promises.

ghost use Rattle.std.specs.Prelude.{◌≡◌, ◌<◌, ◌≤◌, false};
ghost use Rattle.mpc_rule.specs.Lookahead.{ladder_of};
ghost use Rattle.mpc_rule.specs.Search.{IsDraft, IsWholeDraft, best_after, best_rung, rungs_left};
ghost use Rattle.mpc_rule.specs.Relaxations.{IsCeiling};

use crate::forecast::{Draft, Forecast};
use crate::outlook::Outlook;
use crate::relaxation::Relaxation;
use std::marker::Model;

/// A search for the best list.
#[derive(Drop)]
struct Search<'a> {
    forecast: &'a Forecast<'a>,
    /// What can be added where media costs nothing.
    free: Relaxation<'a>,
    /// What can be added at the price at which that is about least.
    tight: Relaxation<'a>,
}

impl<'a> Model for Search<'a> {
    ghost use Rattle.std.specs.Prelude.{◌≡◌};
    ghost use Rattle.mpc_rule.specs.Lookahead.{IsLookahead, Lookahead};

    ghost Value = { Lookahead };

    ghost view = { λ s. s.forecast.now };

    ghost invariant = { λ s. IsLookahead s.forecast.now × (s.free ≡ s.forecast.now)
        × (s.tight ≡ s.forecast.now) };
}

impl Search<'_> {
    /// The most that a list can come to.
    fn prospect(&self, draft: &Draft) -> i64
        requires { IsDraft self.now draft.now }
        ensures { IsCeiling self.now draft.now result }
    {
        if draft.count == self.forecast.span() {
            return draft.score;
        }
        self.free.bound(draft).min(self.tight.bound(draft))
    }

    /// Whether a list might come to a greater score than the best one so far.
    fn could_beat(&self, draft: &Draft, best: &Draft) -> bool
        requires { IsDraft self.now draft.now }
        ensures { result ≡ false → IsCeiling self.now draft.now best.now.score }
    {
        best.score < self.prospect(draft)
    }

    /// The best list so far, after the whole lists that begin with this one, in lexicographic order: the first of the
    /// greatest score. A list is left where it can't come to more than the best score so far.
    fn best_after(&self, draft: Draft, best: Draft) -> Draft
        requires { IsDraft self.now draft }
        ensures { Some result ≡ best_after self.now (rungs_left self.now draft) draft (Some best) }
    {
        if draft.count == self.forecast.span() {
            return if best.score < draft.score {
                draft
            } else {
                best
            };
        }
        let mut best = best;
        for rung in 0..self.forecast.rungs() {
            let longer = self.forecast.with_rung(draft, rung);
            if self.could_beat(&longer, &best) {
                best = self.best_after(longer, best);
            }
        }
        best
    }

    /// The list of one rung throughout.
    fn constant(&self, rung: u8) -> Draft
        requires { rung < ladder_of self.now }
        ensures { IsWholeDraft self.now result }
    {
        let mut draft = self.forecast.start();
        for i in 0..self.forecast.span() {
            draft = self.forecast.with_rung(draft, rung);
        }
        draft
    }

    /// The rung by which a list can come to most.
    fn lead(&self, draft: Draft) -> u8
        requires draft { IsDraft self.now draft }
        requires room { draft.count < self.now.span }
        ensures { result < ladder_of self.now }
    {
        let (mut lead, mut most) = (0, i64::MIN);
        for rung in 0..self.forecast.rungs() {
            let prospect = self.prospect(&self.forecast.with_rung(draft, rung));
            if most < prospect {
                (lead, most) = (rung, prospect);
            }
        }
        lead
    }

    /// A list each of whose rungs is the one by which it can come to most.
    fn leading_list(&self) -> Draft
        ensures { IsWholeDraft self.now result }
    {
        let mut draft = self.forecast.start();
        for count in 0..self.forecast.span() {
            draft = self.forecast.with_rung(draft, self.lead(draft));
        }
        draft
    }

    /// A whole list with a great score.
    fn incumbent(&self) -> Draft
        ensures { IsWholeDraft self.now result }
    {
        let mut incumbent = self.leading_list();
        for rung in 0..self.forecast.rungs() {
            let list = self.constant(rung);
            if incumbent.score < list.score {
                incumbent = list;
            }
        }
        incumbent
    }

    /// The first rung of the first list with the greatest score. The search begins with a score that some list passes.
    fn first_rung(&self) -> u8
        ensures { result ≡ best_rung self.now }
    {
        let start = self.forecast.start();
        let mut below = self.incumbent();
        below.score -= 1;
        self.best_after(start, below).first
    }
}

impl Outlook<'_> {
    /// The first rung of the first list with the greatest score, of those as long as the look ahead.
    pub(crate) fn best_rung(&self) -> u8
        ensures { result ≡ best_rung self.now }
    {
        let forecast = Forecast::of(&*self);
        let search = Search {
            forecast: &forecast,
            free: Relaxation::at(&forecast, 0),
            tight: Relaxation::tight(&forecast),
        };
        search.first_rung()
    }
}
