//! The check of a certificate by prices.

ghost use Rattle.std.specs.Prelude.{◌≡◌, ◌↔◌, ◌≤◌, ◌&&◌, IfOk, IsTrue, length};
ghost use Rattle.lab_model.specs.Film.{segments_of};
ghost use Rattle.labels.specs.Best.{Settles, task_value};
ghost use Rattle.labels.specs.Form.{HasSignedDigits, score_digits};
ghost use Rattle.labels.specs.Labels.{AreRungs};
ghost use Rattle.player_core.specs.Scene.{IsTask};
ghost use Rattle.price_bounds.specs.Verdict.{AreInOrder, IsValid, bad_rung, bad_window, bound_verdict, comes_after, is_of_film, is_window, price_parts, score_verdict, verdict_of};
ghost use Rattle.price_bounds.specs.Windows.{CanBound, most_windows};
ghost use Rattle.price_bounds.specs.declared.verdict.PriceVerdict.TheVariants.{Yes};

use crate::bound::bound_of_windows;
use crate::certificate::PriceCertificate;
use crate::counts::{rungs, segments};
use crate::verdict::PriceVerdict;
use crate::window::{MOST_PRICE, MOST_WINDOWS, Window};
use lab_model::NoMemory;
use player_core::Scene;
use std::alloc::Global;

/// The value of a rung list: the score of the session that plays it, in thousandths of a point.
pub fn value_of_list(scene: &Scene<'_>, rungs: &[u8]) -> i128
    requires { AreRungs scene.now (segments_of scene.now.film) rungs.now }
    ensures value { result ≡ task_value scene.now rungs.now }
    // It can be spelled in a certificate.
    ensures short { HasSignedDigits score_digits result }
{
    labels::value_of_list(scene, rungs)
}

/// The first segment whose rung isn't below the count.
fn bad_rung(plan: &[u8], rungs: u8) -> Option<u16>
    requires { length plan.now ≤ 65535 }
    ensures { result ≡ bad_rung rungs 0 plan.now }
{
    for segment in 0..plan.len() {
        if plan[segment] >= rungs {
            return Some(segment as u16);
        }
    }
    None
}

/// Whether a window is within the limits of a film of so many segments.
fn is_window(w: &Window, segments: u16) -> bool
    ensures { result ≡ is_window segments w.now }
{
    1 <= w.first && w.first <= w.last && w.last < segments && 1 <= w.price && w.price <= MOST_PRICE
}

/// Whether a window comes after one from `first` to `last`.
fn comes_after(first: u16, last: u16, w: &Window) -> bool
    ensures { result ≡ comes_after first last w.now }
{
    first < w.first || first == w.first && last < w.last
}

/// Whether a window is in range and comes after one from `first` to `last`.
fn comes_next(first: u16, last: u16, w: &Window, segments: u16) -> bool
    ensures { result ≡ is_window segments w.now && comes_after first last w.now }
{
    is_window(w, segments) && comes_after(first, last, w)
}

/// The first window that is out of range, or doesn't come after the one before.
fn bad_window(windows: &[Window], segments: u16) -> Option<u16>
    requires { length windows.now ≤ most_windows }
    ensures { result ≡ bad_window segments 0 0 0 windows.now }
{
    let (mut first, mut last) = (0, 0);
    for number in 0..windows.len() {
        let w = windows[number];
        if !comes_next(first, last, &w, segments) {
            return Some(number as u16);
        }
        first = w.first;
        last = w.last;
    }
    None
}

/// Whether windows are within the limits for a film of so many segments, at most 4000, and in order of their first segments,
/// then of their last.
pub fn are_in_order(windows: &[Window], segments: u16) -> bool
    ensures { IsTrue result ↔ AreInOrder segments windows.now }
{
    windows.len() <= MOST_WINDOWS && bad_window(windows, segments).is_none()
}

/// P1: whether a certificate's counts are the film's.
fn is_of_film(scene: &Scene<'_>, certificate: &PriceCertificate) -> bool
    ensures value { result ≡ is_of_film scene.now (price_parts certificate.now) }
    ensures task { IsTask scene.now }
{
    certificate.segments == segments(scene) && certificate.rungs == rungs(scene)
}

/// P4, where the list is a rung list.
fn score_verdict(scene: &Scene<'_>, certificate: &PriceCertificate) -> PriceVerdict
    requires { AreRungs scene.now (segments_of scene.now.film) certificate.now.plan.items }
    ensures { result ≡ score_verdict scene.now (price_parts certificate.now) }
{
    let score = value_of_list(scene, &certificate.plan);
    if score != certificate.score {
        return PriceVerdict::OtherScore { score };
    }
    PriceVerdict::Yes
}

/// P3 and P4, where the list is a rung list and the windows are in range.
fn bound_verdict(
    alloc: Global,
    scene: &Scene<'_>,
    certificate: &PriceCertificate,
) -> Result<PriceVerdict, NoMemory>
    requires rungs { AreRungs scene.now (segments_of scene.now.film) certificate.now.plan.items }
    requires windows { CanBound (segments_of scene.now.film) certificate.now.windows.items }
    ensures { IfOk result (λ v. v ≡ bound_verdict scene.now (price_parts certificate.now)) }
{
    let bound = bound_of_windows(alloc, scene, &certificate.windows)?;
    if bound > certificate.bound {
        return Ok(PriceVerdict::BoundAbove { bound });
    }
    Ok(score_verdict(scene, certificate))
}

/// P1 to P4 in their order.
fn verdict_on(
    alloc: Global,
    scene: &Scene<'_>,
    certificate: &PriceCertificate,
) -> Result<PriceVerdict, NoMemory>
    requires plan { length certificate.now.plan.items ≡ certificate.now.segments }
    requires windows { length certificate.now.windows.items ≤ most_windows }
    ensures verdict { IfOk result (λ v. v ≡ verdict_of scene.now (price_parts certificate.now)) }
    ensures task { IsTask scene.now }
{
    if !is_of_film(scene, certificate) {
        return Ok(PriceVerdict::OtherFilm);
    }
    if let Some(segment) = bad_rung(&certificate.plan, certificate.rungs) {
        return Ok(PriceVerdict::BadRung { segment });
    }
    if let Some(window) = bad_window(&certificate.windows, certificate.segments) {
        return Ok(PriceVerdict::BadWindow { window });
    }
    bound_verdict(alloc, scene, certificate)
}

/// The verdict on a certificate whose list has a rung for each of its segments, and which has at most 4000 windows.
pub fn check_prices(
    alloc: Global,
    scene: &Scene<'_>,
    certificate: &PriceCertificate,
) -> Result<PriceVerdict, NoMemory>
    requires plan { length certificate.now.plan.items ≡ certificate.now.segments }
    requires windows { length certificate.now.windows.items ≤ most_windows }
    ensures verdict { IfOk result (λ v. v ≡ verdict_of scene.now (price_parts certificate.now)) }
    // Yes is said exactly to those whose claims hold.
    ensures valid { IfOk result (λ v. (v ≡ Yes) ↔ IsValid scene.now (price_parts certificate.now)) }
    // A yes proves that the rung list has the score, and that no rung list has a value above the bound.
    ensures sound { IfOk result (λ v. v ≡ Yes →
        Settles scene.now certificate.now.plan.items certificate.now.score certificate.now.bound) }
{
    verdict_on(alloc, scene, certificate)
}
