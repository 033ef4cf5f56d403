//! What lists may still come to behind a segment, by its rung, its delay and its lead, which is how long it has come before it
//! is played: worked out backwards on a grid of delays and leads, between whose points it is taken to be straight.

ghost use Rattle.std.specs.Prelude.{◌<◌, ◌≤◌};
ghost use Rattle.lab_model.specs.Film.{rungs_of, segments_of};
ghost use Rattle.labels.specs.Near.{CanFollow};

use crate::demand::smallest_rung;
use crate::link::FARTHEST_DELAY_MS;
use crate::stalls::dearest_stall;
use lab_model::Label;
use labels::{RungLabel, start_on};
use player_core::Scene;
use std::alloc::{AllocError, Global};

/// No instant or delay of the grid is later, in milliseconds.
const LATEST_MS: u64 = 1_000_000_000_000_000;

/// How fine a grid is.
#[derive(Clone, Copy, Debug)]
pub struct Fineness {
    /// It has so many leads.
    pub leads: u64,
    /// The second delay lies so many milliseconds behind the first.
    pub first_ms: u64,
    /// Each later one lies farther behind it than the one before by such a part.
    pub parts: u64,
}

/// What lists may still come to.
#[derive(Drop, Debug)]
pub struct Prospect {
    /// The number of leads.
    leads: u64,
    /// The milliseconds between two leads.
    step: u64,
    /// The delays, from the least on.
    delays: Vec<u64>,
    /// The number of rungs.
    rungs: usize,
    /// By segment from the last to the first, the thousandths of a point to come behind it, by lead, then delay, then rung.
    rows: Vec<Vec<i64>>,
}

/// What a list may come to on each rung of a segment.
type ByRung = [i64; 16];

/// The place of a rung.
fn place_of(rung: u8) -> usize
    ensures { result < 16 }
{
    (rung as usize).min(15)
}

/// The most that a segment may come to behind a rung of the one before.
fn most_after(scene: &Scene<'_>, segment: u16, before: u8, worths: &ByRung) -> i64
    requires segment { segment < segments_of scene.now.film }
    requires before { before < rungs_of scene.now.film }
{
    let weights = &scene.setup().weights;
    let old = weights.utility(segment, before);
    let count = scene.film().rungs();
    let mut most = i64::MIN;
    for rung in 0..count {
        let change = weights.utility(segment, rung).abs_diff(old) as i64;
        let cost = (weights.switch() as i64).saturating_mul(change);
        most = most.max(worths[place_of(rung)].saturating_sub(cost));
    }
    most
}

/// The part of an amount that it grows by.
fn growth(amount: u64, parts: u64) -> u64
    ensures { result ≤ amount }
{
    amount / parts.max(1)
}

/// The delays of a grid, from the least on.
fn grid_delays(
    alloc: Global,
    least: u64,
    dearest: u64,
    fineness: Fineness,
) -> Result<Vec<u64>, AllocError> {
    let mut delays = Vec::new(alloc);
    delays.push(least)?;
    let mut behind = fineness.first_ms;
    while behind < dearest.min(FARTHEST_DELAY_MS) {
        delays.push(least.saturating_add(behind))?;
        behind = behind + 1 + growth(behind, fineness.parts);
    }
    Ok(delays)
}

/// The amount so far from one to another as the part is of the width.
fn between(low: i64, high: i64, part: u64, width: u64) -> i64 {
    let width = width.max(1).min(LATEST_MS);
    let rise = high.saturating_sub(low);
    let rise = rise.saturating_mul(part.min(width) as i64) / width as i64;
    low.saturating_add(rise)
}

/// The last of the delays that isn't above one.
fn place_below(delays: &[u64], delay: u64) -> usize {
    delays.partition_point(|d| *d <= delay).saturating_sub(1)
}

/// A delay, or the last one.
fn delay_at(delays: &[u64], place: usize) -> u64 {
    match delays.get(place.min(delays.len().saturating_sub(1))) {
        None => 0,
        Some(delay) => *delay,
    }
}

/// What stands in a row at a place.
fn amount_at(row: &[i64], place: usize) -> i64 {
    match row.get(place) {
        None => 0,
        Some(amount) => *amount,
    }
}

/// What the stalls up to a delay cost, in thousandths of a point.
fn cost_of(scene: &Scene<'_>, delay: u64) -> i64 {
    let cost = (scene.setup().weights.stall() as u64).saturating_mul(delay);
    cost.min(i64::MAX as u64) as i64
}

/// How long a segment has come before it is played.
fn lead_of(scene: &Scene<'_>, segment: u16, label: Label) -> u64 {
    let media = segment as u64 * scene.film().seg_ms() as u64;
    label.p.saturating_add(media).saturating_sub(label.t)
}

/// The label of a segment that has a lead and a delay, and no value.
fn label_at(scene: &Scene<'_>, segment: u16, lead: u64, delay: u64) -> Label
    ensures { CanFollow result }
{
    let media = segment as u64 * scene.film().seg_ms() as u64;
    let t = delay.saturating_add(media).saturating_sub(lead);
    Label {
        t: t.min(LATEST_MS),
        p: delay.min(LATEST_MS),
        v: 0,
    }
}

impl Prospect {
    /// What stands in a row at a lead and a rung, behind a delay whose place is given.
    fn at_lead(&self, row: &[i64], lead: u64, place: usize, delay: u64, rung: u8) -> i64 {
        let lead = lead.min(self.leads.saturating_sub(1)) as usize;
        let start = lead.saturating_mul(self.delays.len());
        let next = place
            .saturating_add(1)
            .min(self.delays.len().saturating_sub(1));
        let from = delay_at(&self.delays, place);
        let width = delay_at(&self.delays, next).saturating_sub(from);
        let low = amount_at(row, self.number(start.saturating_add(place), rung));
        let high = amount_at(row, self.number(start.saturating_add(next), rung));
        between(low, high, delay.saturating_sub(from), width)
    }

    /// The place in a row of a rung at a point of the grid.
    fn number(&self, point: usize, rung: u8) -> usize {
        point
            .saturating_mul(self.rungs)
            .saturating_add(rung as usize)
    }

    /// What may still come, where so many segments are left behind one on a rung that has a lead and a delay.
    fn to_come(&self, left: usize, lead: u64, delay: u64, rung: u8) -> i64 {
        match self.rows.get(left) {
            None => 0,
            Some(row) => {
                let place = place_below(&self.delays, delay);
                let step = self.step.max(1);
                let at = (lead / step).min(self.leads.saturating_sub(1));
                let low = self.at_lead(row, at, place, delay, rung);
                let high = self.at_lead(row, at.saturating_add(1), place, delay, rung);
                between(
                    low,
                    high,
                    lead.saturating_sub(at.saturating_mul(step)),
                    step,
                )
            }
        }
    }

    /// What a list that has a label of a segment on a rung may come to. Behind the last segment it is its value.
    pub fn worth(&self, scene: &Scene<'_>, segment: u16, label: Label, rung: u8) -> i64 {
        let left = scene
            .film()
            .segments()
            .saturating_sub(segment)
            .saturating_sub(1) as usize;
        let to_come = self.to_come(left, lead_of(scene, segment, label), label.p, rung);
        label
            .v
            .saturating_sub(cost_of(scene, label.p))
            .saturating_add(to_come)
    }

    /// What may come from a segment on, by its rung, behind a label of the segment before that has no value.
    fn worths_behind(&self, scene: &Scene<'_>, segment: u16, label: Label) -> ByRung
        requires segment { (1 ≤ segment) × (segment < segments_of scene.now.film) }
        requires label { CanFollow label }
    {
        let stalled = cost_of(scene, label.p);
        let count = scene.film().rungs();
        let mut worths = [i64::MIN; 16];
        for rung in 0..count {
            let next = RungLabel::new(&*scene, segment - 1, rung, label).next(rung);
            let worth = self.worth(scene, segment, next, rung);
            worths[place_of(rung)] = worth.saturating_add(stalled);
        }
        worths
    }

    /// Adds what may come from a segment on behind a label of the segment before, by the rung of that.
    fn add_behind(
        &self,
        scene: &Scene<'_>,
        segment: u16,
        label: Label,
        row: &mut Vec<i64>,
    ) -> Result<(), AllocError>
        requires segment { (1 ≤ segment) × (segment < segments_of scene.now.film) }
        requires label { CanFollow label }
    {
        let worths = self.worths_behind(scene, segment, label);
        let count = scene.film().rungs();
        for before in 0..count {
            row.push(most_after(scene, segment, before, &worths))?;
        }
        Ok(())
    }

    /// What may come from a segment on, by the lead, the delay and the rung of the segment before.
    fn row_of(&self, alloc: Global, scene: &Scene<'_>, segment: u16) -> Result<Vec<i64>, AllocError>
        requires { (1 ≤ segment) × (segment < segments_of scene.now.film) }
    {
        let mut row = Vec::new(alloc);
        for lead in 0..self.leads {
            for delay in &self.delays {
                let lead_ms = lead.saturating_mul(self.step);
                let label = label_at(scene, segment - 1, lead_ms, *delay);
                self.add_behind(scene, segment, label, &mut row)?;
            }
        }
        Ok(row)
    }

    /// The prospect on a grid.
    pub fn new(
        alloc: Global,
        scene: &Scene<'_>,
        fineness: Fineness,
    ) -> Result<Prospect, AllocError> {
        prove!(scene.film().segments() > 0);
        let film = scene.film();
        let least = start_on(scene, smallest_rung(scene, 0)).p;
        let longest = (scene.setup().buffer_ms as u64).saturating_sub(2 * film.seg_ms() as u64);
        let mut prospect = Prospect {
            leads: fineness.leads,
            step: longest / fineness.leads.saturating_sub(1).max(1) + 1,
            delays: grid_delays(alloc, least, dearest_stall(scene), fineness)?,
            rungs: film.rungs() as usize,
            rows: Vec::new(alloc),
        };
        prospect.rows.push(Vec::new(alloc))?;
        let count = film.segments();
        for left in 1..count {
            let row = prospect.row_of(alloc, scene, count - left)?;
            prospect.rows.push(row)?;
        }
        Ok(prospect)
    }
}
