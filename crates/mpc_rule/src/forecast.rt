//! The segments that are looked at, and the lists of rungs for them.

ghost use Rattle.std.specs.Prelude.{◌≡◌, ◌<◌, ◌≤◌};
ghost use Rattle.mpc_rule.specs.Lookahead.{IsLookahead, ladder_of, room_of, weights_of};
ghost use Rattle.mpc_rule.specs.Search.{IsDraft, IsForetoldTable, IsTold, change_after, extended, start_of};

use crate::outlook::{Foretold, NOTHING, Outlook};
use lab_model::MOST_RUNGS;
use std::marker::Model;

/// The longest horizon, in segments.
pub(crate) const LONGEST: usize = 5;

/// What is foretold of the segments that are looked at.
#[derive(Drop)]
pub(crate) struct Forecast<'a> {
    outlook: &'a Outlook<'a>,
    table: Table,
}

impl<'a> Model for Forecast<'a> {
    ghost use Rattle.mpc_rule.specs.Lookahead.{IsLookahead, Lookahead};
    ghost use Rattle.mpc_rule.specs.Search.{IsForetoldTable};

    ghost Value = { Lookahead };

    ghost view = { λ f. f.outlook.now };

    ghost invariant = { λ f. IsLookahead f.outlook.now × IsForetoldTable f.outlook.now f.table };
}

/// What is foretold, segment by segment from the next one on, and in each rung by rung.
#[derive(Clone, Copy)]
pub(crate) struct Table {
    pub(crate) rows: [[Foretold; MOST_RUNGS]; LONGEST],
}

/// The list in hand: rungs for the segments that come, and what they promise.
#[derive(Clone, Copy)]
pub(crate) struct Draft {
    /// The first rung, where there is one.
    pub(crate) first: u8,
    /// The last rung; of the list of no rungs, that of the segment before, where there is one.
    pub(crate) before: Option<u8>,
    /// The number of rungs.
    pub(crate) count: u8,
    /// The level after these segments, in milliseconds.
    pub(crate) level: u32,
    /// The score so far, in thousandths of a point.
    pub(crate) score: i64,
}

impl Outlook<'_> {
    /// What is foretold of the segments that are looked at.
    fn table(&self) -> Table
        ensures table { IsForetoldTable self.now result }
        ensures lookahead { IsLookahead self.now }
    {
        let mut rows = [[NOTHING; MOST_RUNGS]; LONGEST];
        for k in 0..self.span {
            rows[k as usize] = self.row(self.context.next + k as u16);
        }
        Table { rows }
    }
}

impl<'a> Forecast<'a> {
    /// The forecast of the segments that are looked at.
    pub(crate) fn of(outlook: &'a Outlook<'a>) -> Forecast<'a>
        ensures value { result ≡ outlook.entry.now }
        ensures lookahead { IsLookahead result }
    {
        let table = outlook.table();
        Forecast { outlook, table }
    }

    /// How many segments are looked at, 1 to 5.
    pub(crate) fn span(&self) -> u8
        ensures value { result ≡ self.now.span }
        ensures lookahead { IsLookahead self.now }
    {
        let outlook = self.outlook;
        outlook.span
    }

    /// The number of rungs of the ladder, 1 to 16.
    pub(crate) fn rungs(&self) -> u8
        ensures value { result ≡ ladder_of self.now }
        ensures lookahead { IsLookahead self.now }
    {
        self.outlook.rungs()
    }

    /// The duration of a segment, in milliseconds.
    pub(crate) fn seg_ms(&self) -> u32
        ensures value { result ≡ self.now.film.seg_ms }
        ensures lookahead { IsLookahead self.now }
    {
        let outlook = self.outlook;
        outlook.film.seg_ms()
    }

    /// The level to which a segment can fill the buffer, in milliseconds.
    pub(crate) fn room(&self) -> u32
        ensures value { result ≡ room_of self.now }
        ensures lookahead { IsLookahead self.now }
    {
        let outlook = self.outlook;
        outlook.setup.buffer_ms - outlook.film.seg_ms()
    }

    /// The weight of a change of utility.
    fn switch_weight(&self) -> u32
        ensures value { result ≡ (weights_of self.now).switch }
        ensures lookahead { IsLookahead self.now }
    {
        let outlook = self.outlook;
        outlook.setup.weights.switch()
    }

    /// The weight of a millisecond of stall.
    pub(crate) fn stall_weight(&self) -> u32
        ensures value { result ≡ (weights_of self.now).stall }
        ensures lookahead { IsLookahead self.now }
    {
        let outlook = self.outlook;
        outlook.setup.weights.stall()
    }

    /// The list of no rungs.
    pub(crate) fn start(&self) -> Draft
        ensures value { result ≡ start_of self.now }
        ensures draft { IsDraft self.now result }
    {
        let outlook = self.outlook;
        let context = outlook.context;
        Draft {
            first: 0,
            before: context.last,
            count: 0,
            level: context.level,
            score: 0,
        }
    }

    /// What is foretold on a rung of the segment after so many.
    pub(crate) fn foretold(&self, count: u8, rung: u8) -> Foretold
        requires segment { count < self.now.span }
        requires rung { rung < ladder_of self.now }
        ensures { IsTold self.now count rung result }
    {
        self.table.rows[count as usize][rung as usize]
    }

    /// How far the utility changes to one more rung from the rung before, 0 where there is none.
    fn change(&self, draft: &Draft, rung: u8, told: Foretold) -> u32
        requires draft { IsDraft self.now draft.now }
        requires room { draft.now.count < self.now.span }
        requires told { IsTold self.now draft.now.count rung told }
        ensures value { result ≡ change_after self.now draft.now rung }
        ensures limit { result ≤ 1000000 }
    {
        match draft.before {
            None => 0,
            Some(before) => told
                .utility
                .abs_diff(self.foretold(draft.count, before).utility),
        }
    }

    /// The list with one more rung.
    pub(crate) fn with_rung(&self, draft: Draft, rung: u8) -> Draft
        requires draft { IsDraft self.now draft }
        requires room { draft.count < self.now.span }
        requires rung { rung < ladder_of self.now }
        ensures value { result ≡ extended self.now draft rung }
        ensures draft { IsDraft self.now result }
    {
        let told = self.foretold(draft.count, rung);
        let change = self.change(&draft, rung, told);
        let stall = told.wait.saturating_sub(draft.level as u64);
        let loss = self.switch_weight() as u64 * change as u64 + self.stall_weight() as u64 * stall;
        let left = (draft.level as u64).saturating_sub(told.wait) as u32;
        let gain = 1000 * told.utility as i64 - loss as i64;
        Draft {
            first: if draft.count == 0 { rung } else { draft.first },
            before: Some(rung),
            count: draft.count + 1,
            level: (left + self.seg_ms()).min(self.room()),
            score: draft.score + gain,
        }
    }
}
