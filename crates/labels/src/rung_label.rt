//! Labels with the segment and the rung on which they stand.

ghost use Rattle.std.specs.Prelude.{◌≡◌, ◌+◌, ◌<◌, ◌≤◌, ◌+ℤ◌, ◌-ℤ◌, pos};
ghost use Rattle.lab_model.specs.Number.{IsNear};
ghost use Rattle.lab_model.specs.Film.{rungs_of, segments_of};
ghost use Rattle.player_core.specs.Scene.{IsTask};
ghost use Rattle.labels.specs.Labels.{AreRungs, came_at, end_value, next_label, next_value, request_at};
ghost use Rattle.labels.specs.Near.{CanFollow};
ghost use Rattle.labels.specs.OnRung.{IsOnRung, OnRung};
ghost use Rattle.labels.specs.Read.{list_value};

use crate::label::{end_value, start_on, value_after};
use lab_model::Label;
use player_core::Scene;
use std::marker::Model;

/// A label of a segment on a rung of a scene. Its times are at most 10^15 ms, and its value lies within 10^18
/// thousandths of a point of 0.
#[derive(Drop)]
pub struct RungLabel<'a> {
    scene: &'a Scene<'a>,
    segment: u16,
    rung: u8,
    label: Label,
}

impl<'a> Model for RungLabel<'a> {
    ghost use Rattle.labels.specs.OnRung.{IsOnRung, OnRung};

    ghost Value = { OnRung };

    ghost view = { λ l.
        record { scene = l.scene.now; segment = l.segment; rung = l.rung; label = l.label } };

    ghost invariant = { λ l. IsOnRung
        (record { scene = l.scene.now; segment = l.segment; rung = l.rung; label = l.label }) };
}

impl<'a> RungLabel<'a> {
    /// The label of a segment on a rung.
    pub fn new(scene: &'a Scene<'a>, segment: u16, rung: u8, label: Label) -> RungLabel<'a>
        requires segment { segment < segments_of scene.now.film }
        requires rung { rung < rungs_of scene.now.film }
        requires label { CanFollow label }
        ensures value { result ≡
            record { scene = scene.entry.now; segment = segment; rung = rung; label = label } }
        ensures within { IsOnRung result }
    {
        prove!(scene.film().segments() > 0);
        RungLabel {
            scene,
            segment,
            rung,
            label,
        }
    }

    /// The instant in milliseconds, at most 2 * 10^15, at which the next segment is asked for.
    pub fn request(&self) -> u64
        requires { self.now.segment + 1 < segments_of self.now.scene.film }
        ensures value { result ≡ request_at self.now.scene (self.now.segment + 1) self.now.label }
        ensures limit { result ≤ 2000000000000000 }
    {
        let film = self.scene.film();
        prove!(film.segments() <= 2000);
        let wanted = self.label.p + (self.segment as u64 + 2) * film.seg_ms() as u64;
        let room = wanted.saturating_sub(self.scene.setup().buffer_ms as u64);
        self.label
            .t
            .max(room)
            .max(self.scene.available(self.segment + 1))
    }

    /// The instant at which the next segment is done on a rung, where it is asked for at an instant, at most 2 * 10^15.
    pub fn done(&self, request: u64, rung: u8) -> u64
        requires next { self.now.segment + 1 < segments_of self.now.scene.film }
        requires request { request ≤ 2000000000000000 }
        requires rung { rung < rungs_of self.now.scene.film }
        ensures { result ≡ came_at self.now.scene request (self.now.segment + 1) rung }
    {
        let size = self.scene.film().size(self.segment + 1, rung);
        self.scene.clock().finish(request, size).done
    }

    /// The value of the successor on a rung of the next segment, in thousandths of a point.
    pub fn next_value(&self, rung: u8) -> i64
        requires next { self.now.segment + 1 < segments_of self.now.scene.film }
        requires rung { rung < rungs_of self.now.scene.film }
        ensures { result ≡ next_value self.now.scene.setup.weights (self.now.segment + 1)
            self.now.rung self.now.label.v rung }
    {
        let weights = &self.scene.setup().weights;
        let segment = self.segment + 1;
        let utility = weights.utility(segment, rung);
        let change = utility.abs_diff(weights.utility(segment, self.rung));
        let gain = 1000 * utility as u64;
        let loss = weights.switch() as u64 * change as u64;
        value_after(self.label.v, gain, loss)
    }

    /// The successor on a rung of the next segment, where that one is done at the instant `done`.
    pub fn next_done(&self, rung: u8, done: u64) -> Label
        requires next { self.now.segment + 1 < segments_of self.now.scene.film }
        requires rung { rung < rungs_of self.now.scene.film }
        requires done { done ≡ came_at self.now.scene
            (request_at self.now.scene (self.now.segment + 1) self.now.label)
            (self.now.segment + 1) rung }
        ensures label { result ≡ next_label self.now.scene (self.now.segment + 1)
            self.now.rung self.now.label rung }
        ensures within { IsOnRung self.now }
    {
        let film = self.scene.film();
        prove!(film.segments() <= 2000);
        let played_from = done.saturating_sub((self.segment as u64 + 1) * film.seg_ms() as u64);
        Label {
            t: done,
            p: self.label.p.max(played_from),
            v: self.next_value(rung),
        }
    }

    /// The successor on a rung of the next segment.
    pub fn next(&self, rung: u8) -> Label
        requires next { self.now.segment + 1 < segments_of self.now.scene.film }
        requires rung { rung < rungs_of self.now.scene.film }
        ensures label { result ≡ next_label self.now.scene (self.now.segment + 1)
            self.now.rung self.now.label rung }
        ensures within { IsOnRung self.now }
    {
        let done = self.done(self.request(), rung);
        self.next_done(rung, done)
    }

    /// What the label comes to at the end, in thousandths of a point: its stalls and startup are weighed.
    pub fn end_value(&self) -> i128
        ensures { result ≡ end_value self.now.scene self.now.label }
    {
        end_value(self.scene.setup(), self.label)
    }
}

/// The value of a rung list, in thousandths of a point: what the labels along it end at.
pub fn value_of_list(scene: &Scene<'_>, rungs: &[u8]) -> i128
    requires { AreRungs scene.now (segments_of scene.now.film) rungs.now }
    ensures value { result ≡ list_value scene.now rungs.now }
    ensures task { IsTask scene.now }
{
    let last = scene.film().segments() - 1;
    let mut label = start_on(scene, rungs[0]);
    for segment in 0..last {
        let here = RungLabel::new(&*scene, segment, rungs[segment as usize], label);
        label = here.next(rungs[segment as usize + 1]);
    }
    end_value(scene.setup(), label)
}
