//! What is planned.

ghost use Rattle.std.specs.Prelude.{◌≡◌, ◌+◌, ◌-◌, ◌<◌, ◌≤◌};
ghost use Rattle.lab_model.specs.Number.{IsNear};
ghost use Rattle.lab_model.specs.Film.{rungs_of, segments_of};
ghost use Rattle.labels.specs.Grid.{rounded};
ghost use Rattle.labels.specs.Labels.{came_at, end_value, start_label};
ghost use Rattle.labels.specs.Near.{CanFollow};
ghost use Rattle.labels.specs.Read.{has_table};
ghost use Rattle.frontier_planner.specs.Planning.{IsPlanning};

use lab_model::{Label, Weights};
use labels::{Grid, RungLabel, end_value, round_label, start_on};
use player_core::Scene;
use std::marker::Model;

/// What is planned: a scene, and the grid on which labels are rounded.
#[derive(Drop)]
pub(crate) struct Brief<'a> {
    scene: &'a Scene<'a>,
    grid: Grid,
}

impl<'a> Model for Brief<'a> {
    ghost use Rattle.labels.specs.Grown.{CanPlan};
    ghost use Rattle.frontier_planner.specs.Planning.{Planning};

    ghost Value = { Planning };

    ghost view = { λ b. record { scene = b.scene.now; grid = b.grid } };

    ghost invariant = { λ b. CanPlan b.grid b.scene.now };
}

impl<'a> Brief<'a> {
    /// The brief of a scene and a grid.
    pub(crate) fn new(scene: &'a Scene<'a>, grid: Grid) -> Brief<'a>
        ensures value { result ≡ record { scene = scene.entry.now; grid = grid } }
        ensures can { IsPlanning result }
    {
        prove!(scene.film().segments() > 0 && grid.time() > 0);
        Brief { scene, grid }
    }

    /// The number of segments.
    pub(crate) fn segments(&self) -> u16
        ensures value { result ≡ segments_of self.now.scene.film }
        ensures can { IsPlanning self.now }
    {
        self.scene.film().segments()
    }

    /// The number of rungs.
    pub(crate) fn rungs(&self) -> u8
        ensures value { result ≡ rungs_of self.now.scene.film }
        ensures can { IsPlanning self.now }
    {
        self.scene.film().rungs()
    }

    /// Whether the setup has a utility table.
    pub(crate) fn has_table(&self) -> bool
        ensures { result ≡ has_table self.now.scene.setup }
    {
        self.scene.setup().weights.rows() != 0
    }

    /// The weights.
    pub(crate) fn weights(&self) -> &Weights
        ensures value { result.now ≡ self.now.scene.setup.weights }
        ensures can { IsPlanning self.now }
    {
        &self.scene.setup().weights
    }

    /// The step of values on the grid, 1 to 1000000 thousandths of a point.
    pub(crate) fn value_step(&self) -> u64
        ensures value { result ≡ self.now.grid.value }
        ensures can { IsPlanning self.now }
    {
        self.grid.value() as u64
    }

    /// The label on the grid. Its value lies within 9 * 10^17 of 0.
    pub(crate) fn round(&self, label: Label) -> Label
        requires { IsNear 900000000000000000 label.v }
        ensures { result ≡ rounded self.now.grid label }
    {
        if self.grid == Grid::exact() {
            return label;
        }
        round_label(self.grid, label)
    }

    /// The scene.
    pub(crate) fn scene(&self) -> &'a Scene<'a>
        ensures value { result.now ≡ self.now.scene }
        ensures can { IsPlanning self.now }
    {
        self.scene
    }

    /// The label of segment 0 on a rung.
    pub(crate) fn start(&self, rung: u8) -> Label
        requires { rung < rungs_of self.now.scene.film }
        ensures { result ≡ start_label self.now.scene rung }
    {
        start_on(self.scene, rung)
    }

    /// The label of the segment before one, with its rung.
    pub(crate) fn label_before(&self, segment: u16, old: (u8, Label)) -> RungLabel<'a>
        requires segment { (1 ≤ segment) × (segment < segments_of self.now.scene.film) }
        requires rung { old.0 < rungs_of self.now.scene.film }
        requires label { CanFollow old.1 }
        ensures scene { result.scene ≡ self.now.scene }
        ensures next { result.segment + 1 ≡ segment }
        ensures rung { result.rung ≡ old.0 }
        ensures label { result.label ≡ old.1 }
    {
        RungLabel::new(self.scene, segment - 1, old.0, old.1)
    }

    /// The instant at which a segment is done on a rung that is asked for at an instant, at most 2 * 10^15.
    pub(crate) fn done(&self, request: u64, segment: u16, rung: u8) -> u64
        requires request { request ≤ 2000000000000000 }
        requires segment { segment < segments_of self.now.scene.film }
        requires rung { rung < rungs_of self.now.scene.film }
        ensures { result ≡ came_at self.now.scene request segment rung }
    {
        let size = self.scene.film().size(segment, rung);
        self.scene.clock().finish(request, size).done
    }

    /// What a label comes to at the end, in thousandths of a point.
    pub(crate) fn end_value(&self, last: Label) -> i128
        requires { last.p ≤ 2000000000000000 }
        ensures { result ≡ end_value self.now.scene last }
    {
        end_value(self.scene.setup(), last)
    }
}
