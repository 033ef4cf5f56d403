//! The cells of delays.

ghost use Rattle.std.specs.Prelude.{◌≤◌, IfOk};
ghost use Rattle.price_bounds.specs.Cells.{farthest_delay};
ghost use Rattle.price_bounds.specs.Tables.{AreEdges};

use std::alloc::{AllocError, Global};

/// No delay of a rung list is later, in milliseconds.
const FARTHEST_DELAY_MS: u64 = 1_000_000_000_000;

/// By so many parts of what it lies behind the first delay a cell is wider than 1 ms.
const GROWTH_PARTS: u64 = 64;

/// The least delays of all cells behind a first delay, and of one cell more.
pub fn least_delays(alloc: Global, first: u64) -> Result<Vec<u64>, AllocError>
    requires { first ≤ farthest_delay }
    ensures { IfOk result (λ v. AreEdges first v.items) }
{
    let mut edges = Vec::new(alloc);
    let mut edge = first;
    edges.push(edge)?;
    while edge <= FARTHEST_DELAY_MS {
        edge = edge + 1 + (edge - first) / GROWTH_PARTS;
        edges.push(edge)?;
    }
    Ok(edges)
}
