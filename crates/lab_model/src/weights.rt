//! How a session is weighed.

ghost use Rattle.std.specs.Prelude.{◌≡◌, ℕ, ◌+◌, ◌*◌, ◌<◌, ◌≤◌, ◌↔◌, IfSome, IfNone, IsTrue, length, max, slice_index};
ghost use Rattle.std.specs.List.{All};
ghost use Rattle.lab_model.specs.Film.{IsWithin, most_rungs, most_segments};
ghost use Rattle.lab_model.specs.Row.{AreRows, AreUtilities, AreWeights, IsRow};
ghost use Rattle.lab_model.specs.Weighing.{HasUtility, IsWeighing, change_of, row_no, table_weighing, utility_of, weighing};

use crate::manifest::{MOST_RUNGS, MOST_SEGMENTS};
use std::marker::Model;

/// Utilities by segment and rung, and the weights of switches, stalls and startup. The utilities of a segment
/// number 1 to 16, are 0 to 1000000 each and don't fall along the rungs; each weight is 0 to 1000000.
#[derive(Drop)]
pub struct Weights {
    utilities: Vec<u32>,
    count: usize,
    rows: usize,
    switch: u32,
    stall: u32,
    startup: u32,
}

impl Model for Weights {
    ghost use Rattle.lab_model.specs.Weighing.{IsWeighing, Weighing};

    ghost Value = { Weighing };

    ghost view = { λ w. record {
      utilities = w.utilities.items;
      count = w.count;
      rows = w.rows;
      switch = w.switch;
      stall = w.stall;
      startup = w.startup;
    } };

    ghost invariant = { λ w. IsWeighing (record {
      utilities = w.utilities.items;
      count = w.count;
      rows = w.rows;
      switch = w.switch;
      stall = w.stall;
      startup = w.startup;
    }) };
}

/// The greatest utility, in points.
pub const MOST_UTILITY: u32 = 1_000_000;

/// The greatest weight.
pub const MOST_WEIGHT: u32 = 1_000_000;

fn are_small(row: &[u32]) -> bool
    ensures { IsTrue result ↔ All (λ u. u ≤ 1000000) row.now }
{
    row.iter().all(|u| *u <= MOST_UTILITY)
}

fn never_falls(row: &[u32]) -> bool
    ensures { IsTrue result ↔ ((rung : ℕ) → rung + 1 < length row.now
        → slice_index row.now rung ≤ slice_index row.now (rung + 1)) }
{
    for i in 1..row.len() {
        if row[i] < row[i - 1] {
            return false;
        }
    }
    true
}

fn is_row(row: &[u32]) -> bool
    ensures { IsTrue result ↔ IsRow row.now }
{
    are_small(row) && never_falls(row)
}

fn are_rows(utilities: &[u32], count: usize, rows: usize) -> bool
    requires whole { length utilities.now ≡ rows * count }
    requires few { count ≤ most_rungs }
    requires most { rows ≤ most_segments }
    ensures { IsTrue result ↔ AreRows utilities.now count rows }
{
    for row in 0..rows {
        if !is_row(&utilities[row * count..row * count + count]) {
            return false;
        }
    }
    true
}

fn has_shape(len: usize, count: usize, rows: usize) -> bool
    ensures { IsTrue result ↔ (IsWithin 1 most_rungs count × (rows ≤ most_segments) × (len ≡ max rows 1 * count)) }
{
    1 <= count && count <= MOST_RUNGS && rows <= MOST_SEGMENTS && len == rows.max(1) * count
}

fn are_utilities(utilities: &[u32], count: usize, rows: usize) -> bool
    ensures { IsTrue result ↔ AreUtilities utilities.now count rows }
{
    has_shape(utilities.len(), count, rows) && are_rows(utilities, count, rows.max(1))
}

fn are_weights(switch: u32, stall: u32, startup: u32) -> bool
    ensures { IsTrue result ↔ AreWeights switch stall startup }
{
    switch <= MOST_WEIGHT && stall <= MOST_WEIGHT && startup <= MOST_WEIGHT
}

impl Weights {
    /// The weights whose one row of utilities serves every segment. `None` exactly where there are none or more
    /// than 16 utilities, they fall, or a number is above 1000000.
    pub fn from_parts(utilities: Vec<u32>, switch: u32, stall: u32, startup: u32) -> Option<Weights>
        ensures some { IfSome result
            (λ w. (w ≡ weighing utilities.items switch stall startup) × IsWeighing w) }
        ensures none { IfNone result
            (IsWeighing (weighing utilities.items switch stall startup) → ⊥) }
    {
        let count = utilities.len();
        if !are_utilities(&utilities, count, 0) || !are_weights(switch, stall, startup) {
            return None;
        }
        Some(Weights {
            utilities,
            count,
            rows: 0,
            switch,
            stall,
            startup,
        })
    }

    /// The weights whose table has a row of `rungs` utilities for each segment. `None` exactly where `rungs` is 0 or
    /// above 16, there aren't 1 to 2000 whole rows, a row falls, or a number is above 1000000.
    pub fn from_table(
        utilities: Vec<u32>,
        rungs: u8,
        switch: u32,
        stall: u32,
        startup: u32,
    ) -> Option<Weights>
        ensures some { IfSome result
            (λ w. (w ≡ table_weighing utilities.items rungs switch stall startup)
            × IsWeighing w × (0 < w.rows)) }
        ensures none { IfNone result
            (IsWeighing (table_weighing utilities.items rungs switch stall startup) → ⊥) }
    {
        let count = rungs as usize;
        let rows = utilities.len().checked_div(count)?;
        if !are_utilities(&utilities, count, rows) || !are_weights(switch, stall, startup) {
            return None;
        }
        Some(Weights {
            utilities,
            count,
            rows,
            switch,
            stall,
            startup,
        })
    }

    fn row_no(&self, seg: u16) -> usize
        ensures { result ≡ row_no self.now seg }
    {
        if self.rows == 0 { 0 } else { seg as usize }
    }

    /// The utility of a rung at a segment, 0 to 1000000.
    #[tactic(auto, using(crate::proofs::Rows::utility_there, crate::proofs::Rows::utility_limit))]
    pub fn utility(&self, seg: u16, rung: u8) -> u32
        requires { HasUtility self.now seg rung }
        ensures value { result ≡ utility_of self.now seg rung }
        ensures limit { result ≤ 1000000 }
    {
        self.utilities[self.row_no(seg) * self.count + rung as usize]
    }

    /// How far the utility changes to a rung from the rung before, both taken at this segment, 0 to 1000000; 0 where there
    /// is no rung before.
    pub fn change(&self, seg: u16, before: Option<u8>, rung: u8) -> u32
        requires utility { HasUtility self.now seg rung }
        requires before { IfSome before (λ q. q < self.now.count) }
        ensures value { result ≡ change_of self.now seg before rung }
        ensures limit { result ≤ 1000000 }
    {
        match before {
            None => 0,
            Some(q) => self.utility(seg, rung).abs_diff(self.utility(seg, q)),
        }
    }

    /// The number of utilities of a segment, 1 to 16.
    pub fn count(&self) -> u8
        ensures value { result ≡ self.now.count }
        ensures weighing { IsWeighing self.now }
    {
        self.count as u8
    }

    /// The number of rows of the utility table, 0 where one row serves every segment.
    pub fn rows(&self) -> u16
        ensures value { result ≡ self.now.rows }
        ensures weighing { IsWeighing self.now }
    {
        self.rows as u16
    }

    /// The weight of a change of utility, 0 to 1000000.
    pub fn switch(&self) -> u32
        ensures value { result ≡ self.now.switch }
        ensures weighing { IsWeighing self.now }
    {
        self.switch
    }

    /// The weight of a millisecond of stall, 0 to 1000000.
    pub fn stall(&self) -> u32
        ensures value { result ≡ self.now.stall }
        ensures weighing { IsWeighing self.now }
    {
        self.stall
    }

    /// The weight of a millisecond of startup, 0 to 1000000.
    pub fn startup(&self) -> u32
        ensures value { result ≡ self.now.startup }
        ensures weighing { IsWeighing self.now }
    {
        self.startup
    }
}
