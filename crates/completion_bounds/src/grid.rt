//! Grids of tables.

ghost use Rattle.std.specs.Prelude.{◌≡◌, ℕ, ◌*◌, ◌≤◌, ◌<◌, ◌↔◌, IfNone, IfSome, IsTrue, length, slice_index};
ghost use Rattle.std.specs.List.Sorted.{IsStrictlyIncreasing};
ghost use Rattle.player_core.specs.Scene.{IsTask};
ghost use Rattle.completion_bounds.specs.Table.{kind_among};
ghost use Rattle.completion_bounds.specs.Grid.{GridParts, IsGridOf, IsTableGrid, kinds_of, longest_delay, most_numbers, delay_row, table_numbers};

use player_core::Scene;
use std::marker::Model;

/// The longest step, in milliseconds.
const LONGEST_STEP_MS: u32 = 10_000;

/// The longest delay of a row, in milliseconds.
const LONGEST_DELAY_MS: u64 = 1_000_000_000_000;

/// The most numbers of a table.
const MOST_NUMBERS: u128 = 64_000_000;

/// The grid of a table: rows stand for delays from so many steps on, and columns for how many steps the next request comes after them.
#[derive(Drop, Debug)]
pub struct TableGrid {
    step: u32,
    columns: u32,
    rows: Vec<u32>,
}

impl Model for TableGrid {
    ghost use Rattle.completion_bounds.specs.Table.{kind_among};
    ghost use Rattle.completion_bounds.specs.Grid.{GridParts, IsTableGrid};

    ghost Value = { GridParts };

    ghost view = { λ d. record { step = d.step; columns = d.columns; rows = d.rows.items } };

    ghost invariant = { λ d.
        IsTableGrid (record { step = d.step; columns = d.columns; rows = d.rows.items }) };
}

/// Whether each number is greater than the one before.
fn is_rising(numbers: &[u32]) -> bool
    ensures { IsTrue result ↔ IsStrictlyIncreasing numbers.now }
{
    for i in 1..numbers.len() {
        if numbers[i] <= numbers[i - 1] {
            return false;
        }
    }
    true
}

/// Whether these are some rows that rise from 0 on.
fn are_rows(rows: &[u32]) -> bool
    ensures { IsTrue result ↔ ((1 ≤ length rows.now) × (slice_index rows.now 0 ≡ 0)
        × IsStrictlyIncreasing rows.now) }
{
    !rows.is_empty() && rows[0] == 0 && is_rising(rows)
}

/// Whether no row, each in steps, is too long.
#[tactic(auto, using(crate::proofs::Grids::delays_low))]
fn are_short(step: u32, rows: &[u32]) -> bool
    requires some { 1 ≤ length rows.now }
    requires rising { IsStrictlyIncreasing rows.now }
    ensures { IsTrue result ↔ ((k : ℕ) → step * slice_index rows.now k ≤ longest_delay) }
{
    step as u64 * rows[rows.len() - 1] as u64 <= LONGEST_DELAY_MS
}

/// Whether these are a grid within its limits.
fn is_table_grid(step: u32, columns: u32, rows: &[u32]) -> bool
    ensures { IsTrue result
        ↔ IsTableGrid (record { step = step; columns = columns; rows = rows.now }) }
{
    if step == 0 || step > LONGEST_STEP_MS || columns == 0 || !are_rows(rows) {
        return false;
    }
    are_short(step, rows)
}

/// The rungs that the table of a scene tells apart: one serves all where a change costs nothing.
pub(crate) fn kinds(scene: &Scene<'_>) -> usize
    ensures value { result ≡ kinds_of scene.now }
    ensures task { IsTask scene.now }
{
    if scene.setup().weights.switch() == 0 {
        1
    } else {
        scene.film().rungs() as usize
    }
}

/// The kind of a rung among so many: where one serves all it is 0.
pub(crate) fn kind_among(kinds: usize, rung: usize) -> usize
    ensures { result ≡ kind_among kinds rung }
{
    if kinds == 1 { 0 } else { rung }
}

impl TableGrid {
    /// The grid of a step, 1 to 10000 ms, of a greatest column, 1 or more, and of rows, each in steps: the first is 0, they rise, and the
    /// last is at most 10^12 ms. `None` exactly where a limit is broken.
    pub fn new(step: u32, columns: u32, rows: Vec<u32>) -> Option<TableGrid>
        ensures some { IfSome result (λ d.
            (d ≡ record { step = step; columns = columns; rows = rows.items }) × IsTableGrid d) }
        ensures none { IfNone result
            (IsTableGrid (record { step = step; columns = columns; rows = rows.items }) → ⊥) }
    {
        if !is_table_grid(step, columns, &rows) {
            return None;
        }
        Some(TableGrid {
            step,
            columns,
            rows,
        })
    }

    /// The step, 1 to 10000 ms.
    pub fn step(&self) -> u32
        ensures value { result ≡ self.now.step }
        ensures grid { IsTableGrid self.now }
    {
        self.step
    }

    /// The greatest column, 1 or more.
    pub fn columns(&self) -> u32
        ensures value { result ≡ self.now.columns }
        ensures grid { IsTableGrid self.now }
    {
        self.columns
    }

    /// The rows, each in steps.
    pub fn rows(&self) -> &[u32]
        ensures value { result.now ≡ self.now.rows }
        ensures grid { IsTableGrid self.now }
    {
        &self.rows
    }

    /// Whether a table on this grid has at most 64000000 numbers for a scene.
    pub fn fits(&self, scene: &Scene<'_>) -> bool
        ensures { IsTrue result ↔ IsGridOf scene.now self.now }
    {
        let layer = self.rows.len() as u128 * (self.columns as u128 + 1) * kinds(scene) as u128;
        scene.film().segments() as u128 * layer <= MOST_NUMBERS
    }

    /// The row of a delay in milliseconds: the last one that isn't longer.
    pub(crate) fn delay_row(&self, delay: u64) -> usize
        ensures value { result ≡ delay_row self.now delay }
        ensures inside { result < length self.now.rows }
        ensures grid { IsTableGrid self.now }
    {
        let mut low = 0;
        let mut high = self.rows.len();
        while high - low > 1 {
            let middle = low + (high - low) / 2;
            if self.step as u64 * self.rows[middle] as u64 <= delay {
                low = middle;
            } else {
                high = middle;
            }
        }
        low
    }
}
