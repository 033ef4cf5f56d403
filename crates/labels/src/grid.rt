//! Grids, on which labels are rounded.

ghost use Rattle.std.specs.Prelude.{◌≡◌, ℕ, ◌≤◌, IfNone, IfSome};
ghost use Rattle.lab_model.specs.Number.{IsNear};
ghost use Rattle.labels.specs.Grid.{IsGrid, Rounding, exact, multiple_above, multiple_below, rounded};
ghost use Rattle.labels.specs.Labels.{Dominates};

use lab_model::Label;
use std::marker::Model;

/// The longest step of times, in milliseconds.
const LONGEST_STEP_MS: u32 = 10_000;

/// The largest step of values, in thousandths of a point.
const LARGEST_STEP: u32 = 1_000_000;

/// A grid on which labels are rounded.
#[derive(Clone, Copy, PartialEq, Eq, Debug, Drop)]
pub struct Grid {
    time: u32,
    value: u32,
}

impl Model for Grid {
    ghost use Rattle.labels.specs.Grid.{IsGrid, Rounding};

    ghost Value = { Rounding };

    ghost view = { λ g. record { time = g.time; value = g.value } };

    ghost invariant = { λ g. IsGrid (record { time = g.time; value = g.value }) };

    ghost inverse = { λ d. record { time = d.time; value = d.value } };
}

impl Grid {
    /// The grid of these steps: of times, 1 to 10000 ms, and of values, 1 to 1000000 thousandths of a point. `None`
    /// exactly where one is out of its range.
    pub fn new(time: u32, value: u32) -> Option<Grid>
        ensures some { IfSome result (λ g. (g ≡ record { time = time; value = value }) × IsGrid g) }
        ensures none { IfNone result (IsGrid (record { time = time; value = value }) → ⊥) }
    {
        if time == 0 || time > LONGEST_STEP_MS || value == 0 || value > LARGEST_STEP {
            return None;
        }
        Some(Grid { time, value })
    }

    /// The grid on which nothing changes.
    pub fn exact() -> Grid
        ensures value { result ≡ exact }
        ensures grid { IsGrid result }
    {
        Grid { time: 1, value: 1 }
    }

    /// The step of times, 1 to 10000 ms.
    pub fn time(&self) -> u32
        ensures value { result ≡ self.now.time }
        ensures grid { IsGrid self.now }
    {
        self.time
    }

    /// The step of values, 1 to 1000000 thousandths of a point.
    pub fn value(&self) -> u32
        ensures value { result ≡ self.now.value }
        ensures grid { IsGrid self.now }
    {
        self.value
    }
}

/// The greatest multiple of the step that isn't above the number.
fn multiple_below(step: u32, n: u64) -> u64
    requires { 1 ≤ step }
    ensures value { result ≡ multiple_below step n }
    ensures below { result ≤ n }
{
    n / step as u64 * step as u64
}

/// The least multiple of the step that isn't below the number.
fn multiple_above(step: u32, v: i64) -> i64
    requires step { (1 ≤ step) × (step ≤ 1000000) }
    requires number { IsNear 900000000000000000 v }
    ensures { result ≡ multiple_above step v }
{
    let size = v.unsigned_abs();
    if v >= 0 {
        (size.div_ceil(step as u64) * step as u64) as i64
    } else {
        -(multiple_below(step, size) as i64)
    }
}

/// The label on the grid: its times down to multiples, its value up to one. It dominates the label. The value
/// lies within 9 * 10^17 of 0.
pub fn round_label(g: Grid, a: Label) -> Label
    requires { IsNear 900000000000000000 a.v }
    ensures label { result ≡ rounded g a }
    ensures dominates { Dominates result a }
{
    let (time, value) = (g.time(), g.value());
    Label {
        t: multiple_below(time, a.t),
        p: multiple_below(time, a.p),
        v: multiple_above(value, a.v),
    }
}
