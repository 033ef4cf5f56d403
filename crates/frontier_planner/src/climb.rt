//! Chains along which times, delays and values rise together: there the first label with enough value is found by
//! bisection, and its time and delay need no look.

ghost use Rattle.std.specs.Prelude.{◌≡◌, ℕ, ◌+◌, ◌-◌, ◌*◌, ◌<◌, ◌≤◌, IsTrue, length};
ghost use Rattle.frontier_planner.specs.Climbing.{ClimbsTo, IsClimbing, IsLessBefore, IsWorthAt, Reaches};

use lab_model::Label;

/// Whether the second label has no less time, delay and value.
fn climbs_to(a: Label, b: Label) -> bool
    ensures { IsTrue result → ClimbsTo a b }
{
    a.t <= b.t && a.p <= b.p && a.v <= b.v
}

/// Whether neither times nor delays nor values fall along the chain.
pub fn climbs(chain: &[Label]) -> bool
    ensures { IsTrue result → IsClimbing chain.now }
{
    for place in 1..chain.len() {
        if !climbs_to(chain[place - 1], chain[place]) {
            return false;
        }
    }
    true
}

/// The place between two others at which the chain comes to the value, by bisection.
fn place_between(chain: &[Label], from: usize, to: usize, value: i64) -> usize
    requires order { from ≤ to }
    requires inside { to ≤ length chain.now }
    requires before { IsLessBefore chain.now from value }
    requires here { IsWorthAt chain.now to value }
    ensures { Reaches chain.now result value }
{
    let mut low = from;
    let mut high = to;
    while low < high {
        let middle = low + (high - low) / 2;
        if chain[middle].v < value {
            low = middle + 1;
        } else {
            high = middle;
        }
    }
    low
}

/// The place at which a search that is given a hint may begin.
fn start_at(chain: &[Label], hint: usize, value: i64) -> usize
    ensures bound { result ≤ length chain.now }
    ensures before { IsLessBefore chain.now result value }
{
    if hint > 0 && hint <= chain.len() && chain[hint - 1].v < value {
        return hint;
    }
    0
}

/// The place at which the chain comes to the value: from the hint on by steps that double, then by bisection.
pub fn place_of_value(chain: &[Label], hint: usize, value: i64) -> usize
    requires { length chain.now ≤ 1000000 }
    ensures { Reaches chain.now result value }
{
    let mut low = start_at(chain, hint, value);
    let mut step = 1;
    while step <= chain.len() - low && chain[low + step - 1].v < value {
        low += step;
        step *= 2;
    }
    let high = (low + step - 1).min(chain.len());
    place_between(chain, low, high, value)
}
