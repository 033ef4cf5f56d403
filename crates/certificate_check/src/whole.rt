//! The checks of whole certificates.

ghost use Rattle.std.specs.Prelude.{◌≡◌, ◌↔◌, ◌<◌, ◌≤◌};
ghost use Rattle.lab_model.specs.Limits.{all_ahead};
ghost use Rattle.lab_model.specs.Fit.{SetupFits};
ghost use Rattle.player_core.specs.Scene.{task_of};
ghost use Rattle.labels.specs.Best.{Settles};
ghost use Rattle.labels.specs.Valid.{IsValid};
ghost use Rattle.certificate_check.specs.declared.verdict.Verdict.TheVariants.{Yes};
ghost use Rattle.labels.specs.Form.{IsCertificate, names_per};
ghost use Rattle.certificate_text.specs.Form.{certificate_parts};
ghost use Rattle.certificate_check.specs.Layers.{IsLayer, IsLayerOf};
ghost use Rattle.certificate_check.specs.Verdict.{verdict_of};

use crate::checker::{final_verdict, found_first, found_more, head_verdict};
use crate::verdict::Verdict;
use certificate_text::Certificate;
use lab_model::{Manifest, Setup};
use labels::Chain;
use network_clock::Clock;
use player_core::Scene;

/// The chains of a segment, by rung.
fn layer(cert: &Certificate, segment: u16) -> &[Chain]
    requires form { IsCertificate (certificate_parts cert.now) }
    requires segment { segment < cert.now.segments }
    ensures own { IsLayerOf (certificate_parts cert.now) segment result.now }
    ensures form { IsLayer (names_per cert.now.segments cert.now.rungs segment) result.now }
{
    let rungs = cert.rungs as usize;
    let start = segment as usize * rungs;
    &cert.chains[start..start + rungs]
}

/// The verdict in a scene on a certificate, with this bound in V5.
fn verdict_on(scene: &Scene<'_>, cert: &Certificate, bound: i128) -> Verdict
    requires { IsCertificate (certificate_parts cert.now) }
    ensures { result ≡ verdict_of scene.now (certificate_parts cert.now) bound }
{
    let head = head_verdict(scene, cert.table, cert.segments, cert.rungs, &cert.plan);
    let last = cert.segments - 1;
    let mut found = found_first(scene, head, &cert.starts, layer(cert, 0));
    for segment in 0..last {
        let here = layer(cert, segment);
        let next = layer(cert, segment + 1);
        found = found_more(scene, found, segment, here, next);
    }
    final_verdict(
        scene,
        found,
        last,
        layer(cert, last),
        &cert.plan,
        cert.score,
        bound,
    )
}

/// The verdict on a certificate in a scene, with this bound in V5: yes exactly where it is valid, else the first
/// failing clause with the first place where it fails.
///
/// A yes means that the certificate's rung list has its score, and that no rung list has a value above the bound,
/// whoever made the certificate. It takes no memory.
pub fn check_from(scene: &Scene<'_>, cert: &Certificate, bound: i128) -> Verdict
    requires form { IsCertificate (certificate_parts cert.now) }
    ensures verdict { result ≡ verdict_of scene.now (certificate_parts cert.now) bound }
    ensures valid { (result ≡ Yes) ↔ IsValid scene.now (certificate_parts cert.now) bound }
    ensures sound { result ≡ Yes →
        Settles scene.now cert.now.plan.items cert.now.score bound }
{
    prove!(scene.film().segments() > 0);
    verdict_on(scene, cert, bound)
}

/// The verdict for a film on demand: see `check_from`.
pub fn check_bound(
    film: &Manifest,
    clock: &Clock,
    setup: &Setup,
    cert: &Certificate,
    bound: i128,
) -> Verdict
    requires setup { SetupFits setup.now film.now }
    requires form { IsCertificate (certificate_parts cert.now) }
    ensures verdict { result ≡
        verdict_of (task_of film.now clock.now setup.now all_ahead) (certificate_parts cert.now) bound }
    ensures valid { (result ≡ Yes) ↔
        IsValid (task_of film.now clock.now setup.now all_ahead) (certificate_parts cert.now) bound }
    ensures sound { result ≡ Yes → Settles (task_of film.now clock.now setup.now all_ahead)
        cert.now.plan.items cert.now.score bound }
{
    check_from(&Scene::on_demand(film, clock, setup), cert, bound)
}

/// The verdict for a film on demand, with the certificate's own score as the bound. A yes means that its rung list
/// has its score, and that no rung list has a greater value.
pub fn check(film: &Manifest, clock: &Clock, setup: &Setup, cert: &Certificate) -> Verdict
    requires setup { SetupFits setup.now film.now }
    requires form { IsCertificate (certificate_parts cert.now) }
    ensures verdict { result ≡ verdict_of (task_of film.now clock.now setup.now all_ahead)
        (certificate_parts cert.now) cert.now.score }
    ensures valid { (result ≡ Yes) ↔ IsValid (task_of film.now clock.now setup.now all_ahead)
        (certificate_parts cert.now) cert.now.score }
    ensures sound { result ≡ Yes → Settles (task_of film.now clock.now setup.now all_ahead)
        cert.now.plan.items cert.now.score cert.now.score }
{
    check_bound(film, clock, setup, cert, cert.score)
}
