//! Thinning: of the labels of a segment, those that are enough for the frontiers of the next one. They serve each
//! next rung, so that few labels are followed.

ghost use Rattle.std.specs.Prelude.{◌≡◌, ℕ, ◌+◌, ◌-◌, ◌*◌, ◌<◌, ◌≤◌, IfOk, List, map};
ghost use Rattle.std.specs.List.{All};
ghost use Rattle.std.specs.List.Sorted.{IsPermutation, IsSortedBy};
ghost use Rattle.std.specs.Ordering.{is_lt};
ghost use Rattle.lab_model.specs.Film.{rungs_of, segments_of};
ghost use Rattle.frontier_planner.specs.Brief.{AreFollowed};
ghost use Rattle.labels.specs.Grown.{grown_labels};
ghost use Rattle.labels.specs.Near.{CanFollow};
ghost use Rattle.frontier_planner.specs.Linked.{pair_of};
ghost use Rattle.frontier_planner.specs.Sweep.{sweep_cmp};
ghost use Rattle.frontier_planner.specs.Thinned.{AreLeaders, AreWaiting, CoversChange, raised};

use crate::brief::Brief;
use crate::chains::Reached;
use crate::grow::sweep_order;
use crate::staircase::Staircase;
use lab_model::Label;
use std::alloc::{AllocError, Global};

/// A label that is followed to the next segment.
#[derive(Clone, Copy)]
pub struct Followed {
    /// Its rung.
    pub rung: u8,
    /// The label, with the instant of its request in place of its finish time.
    pub label: Label,
    /// Its place among the labels of its segment, by rung, then place.
    pub place: usize,
}

/// The labels of the segment before, each with the instant of its request in place of its finish time.
fn waiting_labels(
    alloc: Global,
    brief: &Brief,
    segment: u16,
    before: &[Reached],
) -> Result<Vec<Followed>, AllocError>
    requires segment { (1 ≤ segment) × (segment < segments_of brief.now.scene.film) }
    requires before { All
        (λ c. (c.rung < rungs_of brief.now.scene.film) × CanFollow c.label) before.now }
    ensures { IfOk result (λ v. AreWaiting brief.now.scene segment
        (map pair_of before.now) v.items) }
{
    let mut waits = Vec::with_capacity(alloc, before.len())?;
    for old in before {
        let here = brief.label_before(segment, (old.rung, old.label));
        let request = here.request();
        let place = waits.len();
        waits.push(Followed {
            rung: old.rung,
            label: Label {
                t: request,
                ..old.label
            },
            place,
        })?;
    }
    Ok(waits)
}

/// Puts labels into the order of the sweep, whatever their rungs.
fn put_in_order(labels: &mut Vec<Followed>)
    ensures sorted { IsSortedBy (λ a b. is_lt (sweep_cmp a.label b.label)) labels.new.items }
    ensures same { IsPermutation labels.old.items labels.new.items }
{
    labels.sort_unstable_by(|a, b| sweep_order(&a.label, &b.label));
}

/// What a change of rung costs at a segment at most: 0 to 10^12 thousandths of a point.
fn dearest_change(brief: &Brief, segment: u16) -> u64
    requires { segment < segments_of brief.now.scene.film }
    ensures most { CoversChange brief.now.scene segment result }
    ensures limit { result ≤ 1000000000000 }
{
    let weights = brief.weights();
    let mut top = 0;
    for rung in 0..brief.rungs() {
        top = weights.utility(segment, rung).max(top);
    }
    weights.switch() as u64 * top as u64
}

/// The label with so much more value.
fn with_slack(label: Label, slack: u64) -> Label
    requires label { CanFollow label }
    requires slack { slack ≤ 1000001000000 }
    ensures { result ≡ raised slack label }
{
    Label {
        v: label.v + slack as i64,
        ..label
    }
}

/// Of labels in the order of the sweep, those that no earlier one leads by the slack, at most 10^12 + 10^6
/// thousandths of a point.
fn leaders(alloc: Global, labels: &[Followed], slack: u64) -> Result<Vec<Followed>, AllocError>
    requires sorted { IsSortedBy (λ a b. is_lt (sweep_cmp a.label b.label)) labels.now }
    requires follow { All (λ c. CanFollow c.label) labels.now }
    requires slack { slack ≤ 1000001000000 }
    ensures { IfOk result (λ v. AreLeaders slack labels.now v.items) }
{
    let mut kept = Vec::new(alloc);
    let mut staircase = Staircase::new(alloc);
    for reached in labels {
        let label = reached.label;
        if !staircase.covers(with_slack(label, slack)) {
            kept.push(*reached)?;
            if !staircase.covers(label) {
                staircase.add(label)?;
            }
        }
    }
    Ok(kept)
}

/// Labels that are enough to follow to a segment, in place of all labels of the segment before. What is left out is
/// led by a change of rung and a step of the grid, so that it isn't the parent of any label that stays.
pub fn labels_to_follow(
    alloc: Global,
    brief: &Brief,
    segment: u16,
    before: &[Reached],
) -> Result<Vec<Followed>, AllocError>
    requires segment { (1 ≤ segment) × (segment < segments_of brief.now.scene.film) }
    requires before { map pair_of before.now
        ≡ grown_labels brief.now.grid brief.now.scene (segment - 1) }
    ensures { IfOk result (λ v. AreFollowed brief.now segment v.items) }
{
    prove!(brief.segments() > 0);
    let mut waits = waiting_labels(alloc, brief, segment, before)?;
    put_in_order(&mut waits);
    let slack = dearest_change(brief, segment) + brief.value_step();
    leaders(alloc, &waits, slack)
}
