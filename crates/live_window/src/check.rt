//! The check of certificates of live sessions.

ghost use Rattle.std.specs.Prelude.{◌≡◌, ◌↔◌, ◌≤◌};
ghost use Rattle.lab_model.specs.Fit.{SetupFits};
ghost use Rattle.lab_model.specs.Limits.{all_ahead};
ghost use Rattle.player_core.specs.Scene.{task_of};
ghost use Rattle.labels.specs.Best.{Settles};
ghost use Rattle.labels.specs.Form.{IsCertificate};
ghost use Rattle.labels.specs.Valid.{IsValid};
ghost use Rattle.certificate_check.specs.declared.verdict.Verdict.TheVariants.{Yes};
ghost use Rattle.certificate_text.specs.Form.{certificate_parts};
ghost use Rattle.certificate_check.specs.Verdict.{verdict_of};

use crate::scene::live_scene;
use certificate_check::{Verdict, check_from};
use certificate_text::Certificate;
use lab_model::{Manifest, Setup};
use network_clock::Clock;

/// The verdict on a certificate of a live session: yes exactly where it is valid by the live labels, else the first
/// failing clause with the first place where it fails. A yes means that its rung list has its score for the live player,
/// and that no rung list has a greater value. It takes no memory.
pub fn check_live(
    film: &Manifest,
    clock: &Clock,
    setup: &Setup,
    ahead: u32,
    cert: &Certificate,
) -> Verdict
    requires setup { SetupFits setup.now film.now }
    requires ahead { ahead ≤ all_ahead }
    requires form { IsCertificate (certificate_parts cert.now) }
    ensures verdict { result ≡ verdict_of (task_of film.now clock.now setup.now ahead)
        (certificate_parts cert.now) cert.now.score }
    ensures valid { (result ≡ Yes) ↔ IsValid (task_of film.now clock.now setup.now ahead)
        (certificate_parts cert.now) cert.now.score }
    ensures sound { result ≡ Yes → Settles (task_of film.now clock.now setup.now ahead)
        cert.now.plan.items cert.now.score cert.now.score }
{
    check_from(&live_scene(film, clock, setup, ahead), cert, cert.score)
}
