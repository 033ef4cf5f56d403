//! The table of completion bounds.

ghost use Rattle.std.specs.Prelude.{◌≡◌, ℕ, ◌+◌, ◌<◌, ◌≤◌, ◌↔◌, IfOk, IsTrue, List, ◌≤ℤ◌, length};
ghost use Rattle.lab_model.specs.Film.{rungs_of, segments_of};
ghost use Rattle.lab_model.specs.Number.{IsNear};
ghost use Rattle.player_core.specs.Scene.{IsTask};
ghost use Rattle.labels.specs.Best.{task_value};
ghost use Rattle.labels.specs.Labels.{AreRungs, start_label};
ghost use Rattle.labels.specs.Near.{CanFollow};
ghost use Rattle.completion_bounds.specs.Bound.{IsHopeless, most_of, table_bound};
ghost use Rattle.completion_bounds.specs.Gain.{column_of, gain_left, label_gain};
ghost use Rattle.completion_bounds.specs.Grid.{IsGridOf, kinds_of, delay_row};
ghost use Rattle.completion_bounds.specs.Table.{AreLayers, cell_at, cells_of, most_gain};

use crate::cells::{cell_at, column_in, less_lead};
use crate::grid::{TableGrid, kind_among, kinds};
use crate::layers::{last_layer, layer_before};
use lab_model::{Label, NoMemory};
use labels::{RungLabel, start_on};
use player_core::Scene;
use std::alloc::{AllocError, Global};
use std::marker::Model;

/// The completion bounds of a scene on a grid.
#[derive(Drop)]
pub struct Table<'a> {
    scene: &'a Scene<'a>,
    grid: TableGrid,
    /// The bounds of each segment, from the last to the first, by row, column and rung.
    layers: Vec<Vec<i64>>,
}

impl<'a> Model for Table<'a> {
    ghost use Rattle.completion_bounds.specs.Table.{IsGainTable, TableValue};

    ghost Value = { TableValue };

    ghost view = { λ t. record { scene = t.scene.now; grid = t.grid } };

    ghost invariant = { λ t. IsGainTable t.scene.now t.grid t.layers.items };
}

/// The layers, from the last segment to the first.
fn layers_of(
    alloc: Global,
    scene: &Scene<'_>,
    grid: &TableGrid,
) -> Result<Vec<Vec<i64>>, AllocError>
    requires { IsGridOf scene.now grid.now }
    ensures layers { IfOk result (λ v.
        AreLayers scene.now grid.now (segments_of scene.now.film) v.items) }
    ensures task { IsTask scene.now }
{
    let count = scene.film().segments();
    let mut layers = Vec::new(alloc);
    layers.push(last_layer(alloc, scene, grid)?)?;
    for left in 1..count {
        let behind = &layers[left as usize - 1];
        let layer = layer_before(alloc, scene, grid, count - left, behind)?;
        layers.push(layer)?;
    }
    Ok(layers)
}

impl<'a> Table<'a> {
    /// The table of a scene on a grid that fits it. It takes 8 bytes for each of its numbers.
    pub fn new(alloc: Global, scene: &'a Scene<'a>, grid: TableGrid) -> Result<Table<'a>, NoMemory>
        requires { IsGridOf scene.now grid }
        ensures value { IfOk result (λ t. t ≡ record { scene = scene.entry.now; grid = grid }) }
    {
        let layers = layers_of(alloc, scene, &grid).map_err(|_| NoMemory)?;
        Ok(Table {
            scene: &*scene,
            grid,
            layers,
        })
    }

    /// The grid.
    pub fn grid(&self) -> &TableGrid
        ensures value { result.now ≡ self.now.grid }
        ensures fits { IsGridOf self.now.scene self.now.grid }
    {
        &self.grid
    }

    /// The column of a label, in its row; of the last segment any one serves.
    fn column_of(&self, segment: u16, rung: u8, label: Label, row: usize) -> usize
        requires segment { segment < segments_of self.now.scene.film }
        requires rung { rung < rungs_of self.now.scene.film }
        requires label { CanFollow label }
        requires row { row ≡ delay_row self.now.grid label.p }
        requires row_inside { row < length self.now.grid.rows }
        ensures value { segment + 1 < segments_of self.now.scene.film
            → result ≡ column_of self.now.scene self.now.grid segment label }
        ensures inside { result ≤ self.now.grid.columns }
    {
        if segment >= self.scene.film().segments() - 1 {
            return 0;
        }
        let request = RungLabel::new(self.scene, segment, rung, label).request();
        let late = less_lead(self.scene, segment + 1, request) / self.grid.step() as u64;
        column_in(&self.grid, self.grid.rows()[row] as u64, late)
    }

    /// The number of a cell and a kind with so many segments left.
    fn number_at(&self, left: usize, cell: usize, kind: usize) -> i64
        requires left { left < segments_of self.now.scene.film }
        requires cell { cell < cells_of self.now.grid }
        requires kind { kind < kinds_of self.now.scene }
        ensures { (k column : ℕ) → cell ≡ cell_at self.now.grid k column
            → k < length self.now.grid.rows
            → column ≤ self.now.grid.columns
            → result ≡ gain_left self.now.scene self.now.grid left kind k column }
    {
        let layer = &self.layers[left];
        layer[cell * kinds(self.scene) + kind]
    }

    /// The completion bound of a label of a segment on a rung, in thousandths of a point: the most that it may still gain.
    pub fn gain(&self, segment: u16, rung: u8, label: Label) -> i64
        requires segment { segment < segments_of self.now.scene.film }
        requires rung { rung < rungs_of self.now.scene.film }
        requires label { CanFollow label }
        ensures value { result ≡ label_gain self.now.scene self.now.grid segment rung label }
        ensures near { IsNear most_gain result }
    {
        let row = self.grid.delay_row(label.p);
        let column = self.column_of(segment, rung, label, row);
        let cell = cell_at(&self.grid, row, column);
        let left = self.scene.film().segments() - 1 - segment;
        let kind = kind_among(kinds(self.scene), rung as usize);
        self.number_at(left as usize, cell, kind)
    }

    /// What the lists through a label end at, at most, in thousandths of a point.
    pub fn most_of(&self, segment: u16, rung: u8, label: Label) -> i128
        requires segment { segment < segments_of self.now.scene.film }
        requires rung { rung < rungs_of self.now.scene.film }
        requires label { CanFollow label }
        ensures { result ≡ most_of self.now.scene self.now.grid segment rung label }
    {
        label.v as i128 + self.gain(segment, rung, label) as i128
    }

    /// Whether no list through a label of a segment on a rung ends above a value.
    pub fn is_hopeless(&self, segment: u16, rung: u8, label: Label, most: i128) -> bool
        requires segment { segment < segments_of self.now.scene.film }
        requires rung { rung < rungs_of self.now.scene.film }
        requires label { CanFollow label }
        ensures { IsTrue result
            ↔ IsHopeless self.now.scene self.now.grid segment rung label most }
    {
        self.most_of(segment, rung, label) <= most
    }

    /// What the lists that begin with a rung end at, at most, in thousandths of a point.
    fn most_of_start(&self, rung: u8) -> i128
        requires { rung < rungs_of self.now.scene.film }
        ensures { result ≡ most_of self.now.scene self.now.grid 0 rung
            (start_label self.now.scene rung) }
    {
        prove!(self.scene.film().segments() > 0);
        self.most_of(0, rung, start_on(self.scene, rung))
    }

    /// The table's bound, in thousandths of a point: no rung list has a greater value.
    pub fn bound(&self) -> i128
        ensures value { result ≡ table_bound self.now.scene self.now.grid }
        ensures bounds { (rungs : List ℕ)
            → AreRungs self.now.scene (segments_of self.now.scene.film) rungs
            → task_value self.now.scene rungs ≤ℤ result }
    {
        let count = self.scene.film().rungs();
        let mut best = self.most_of_start(0);
        for rung in 1..count {
            best = best.max(self.most_of_start(rung));
        }
        best
    }
}
