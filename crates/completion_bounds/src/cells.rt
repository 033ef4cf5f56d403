//! Cells of a table: a row and a column, numbered row by row.

ghost use Rattle.std.specs.Prelude.{◌≡◌, ℕ, ◌+◌, ◌-◌, ◌*◌, ◌<◌, ◌≤◌, length, min};
ghost use Rattle.lab_model.specs.Film.{rungs_of, segments_of};
ghost use Rattle.player_core.specs.Scene.{IsTask, Task};
ghost use Rattle.labels.specs.Labels.{there_at};
ghost use Rattle.completion_bounds.specs.Gain.{column_at, less_lead};
ghost use Rattle.completion_bounds.specs.Grid.{IsGridOf, most_numbers, row_delay, row_steps};
ghost use Rattle.completion_bounds.specs.Table.{IsWay, came_after, cell_at, cell_of, cells_of, request_after};

use crate::grid::TableGrid;
use player_core::Scene;

/// The columns of a grid, from 0 on.
pub(crate) fn width(grid: &TableGrid) -> usize
    ensures { result ≡ grid.now.columns + 1 }
{
    grid.columns() as usize + 1
}

/// The instant from which a segment may be asked for, also of one behind the last.
fn there_at(scene: &Scene<'_>, segment: u16) -> u64
    requires { segment ≤ segments_of scene.now.film }
    ensures value { result ≡ there_at scene.now segment }
    ensures limit { result ≤ 120060000 }
{
    prove!(scene.film().segments() <= 2000);
    let end = (segment as u64 + 1) * scene.film().seg_ms() as u64;
    end.saturating_sub(scene.ahead().ms() as u64)
}

/// A request of a segment less what the buffer adds to a delay.
pub(crate) fn less_lead(scene: &Scene<'_>, segment: u16, request: u64) -> u64
    requires segment { segment ≤ segments_of scene.now.film }
    requires request { request ≤ 4000000000000000 }
    ensures { result ≡ less_lead scene.now segment request }
{
    prove!(scene.film().segments() <= 2000);
    let end = (segment as u64 + 1) * scene.film().seg_ms() as u64;
    (request + scene.setup().buffer_ms as u64).saturating_sub(end)
}

/// The earliest request of a segment after the labels whose row and column come to so many steps.
pub(crate) fn request_after(scene: &Scene<'_>, grid: &TableGrid, segment: u16, steps: u64) -> u64
    requires segment { segment ≤ segments_of scene.now.film }
    requires steps { grid.now.step * steps ≤ 1700000000000 }
    ensures value { result ≡ request_after scene.now grid.now segment steps }
    ensures limit { result ≤ 2000000000000 }
{
    prove!(scene.film().segments() <= 2000);
    let end = (segment as u64 + 1) * scene.film().seg_ms() as u64;
    let wanted = grid.step() as u64 * steps + end;
    wanted
        .saturating_sub(scene.setup().buffer_ms as u64)
        .max(there_at(scene, segment))
}

/// The column, in a row of so many steps, of a label whose next segment is asked for so many steps after the lead.
pub(crate) fn column_in(grid: &TableGrid, steps: u64, late: u64) -> usize
    ensures value { result ≡ min grid.now.columns (late - steps) }
    ensures inside { result ≤ grid.now.columns }
{
    late.saturating_sub(steps).min(grid.columns() as u64) as usize
}

/// The number of the cell of a row and a column.
pub(crate) fn cell_at(grid: &TableGrid, row: usize, column: usize) -> usize
    requires row { row < length grid.now.rows }
    requires column { column ≤ grid.now.columns }
    requires cells { cells_of grid.now ≤ most_numbers }
    ensures value { result ≡ cell_at grid.now row column }
    ensures inside { result < cells_of grid.now }
{
    row * width(grid) + column
}

/// What a segment that comes at an instant leads to.
#[derive(Clone, Copy, Debug)]
pub(crate) struct Way {
    /// The delay that the instant needs by itself, in milliseconds.
    delay: u64,
    /// The next request less the lead, in steps, where the delay doesn't put it off.
    late: u64,
    /// The cell of a label with that instant and that delay.
    cell: usize,
}

impl Way {
    /// What a segment leads to when it comes at an instant.
    pub(crate) fn new(scene: &Scene<'_>, grid: &TableGrid, segment: u16, came: u64) -> Way
        requires segment { segment < segments_of scene.now.film }
        requires came { came ≤ 2000000000000000 }
        requires cells { cells_of grid.now ≤ most_numbers }
        ensures way { IsWay scene.now grid.now segment came result }
        ensures inside { result.cell < cells_of grid.now }
    {
        let film = scene.film();
        let delay = came.saturating_sub(segment as u64 * film.seg_ms() as u64);
        let asked = came.max(there_at(scene, segment + 1));
        let step = grid.step() as u64;
        let late = less_lead(scene, segment + 1, asked) / step;
        let row = grid.delay_row(delay);
        let column = column_in(grid, grid.rows()[row] as u64, late.max(delay / step));
        Way {
            delay,
            late,
            cell: cell_at(grid, row, column),
        }
    }

    /// The cell of the label that comes then, after the labels of a row.
    pub(crate) fn cell_behind(&self, grid: &TableGrid, row: usize) -> usize
        requires row { row < length grid.now.rows }
        requires cell { self.now.cell < cells_of grid.now }
        requires cells { cells_of grid.now ≤ most_numbers }
        ensures inside { result < cells_of grid.now }
        ensures value { (g : Task) (segment came : ℕ) → IsWay g grid.now segment came self.now
            → result ≡ cell_of g grid.now segment (came_after g grid.now segment came row) }
    {
        let steps = grid.rows()[row] as u64;
        if self.delay > grid.step() as u64 * steps {
            return self.cell;
        }
        cell_at(grid, row, column_in(grid, steps, self.late))
    }
}
