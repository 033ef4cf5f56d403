//! The check of a certificate that is read layer by layer.

ghost use Rattle.std.specs.Prelude.{◌≡◌, ◌<◌, ◌≤◌, ℕ, List, map, Some, Ok, IfOk};
ghost use Rattle.lab_model.specs.Limits.{all_ahead};
ghost use Rattle.lab_model.specs.Fit.{SetupFits};
ghost use Rattle.lab_model.specs.Reading.{Gives};
ghost use Rattle.player_core.specs.Scene.{task_of};
ghost use Rattle.labels.specs.Best.{Settles};
ghost use Rattle.labels.specs.Parts.{chain_parts};
ghost use Rattle.certificate_check.specs.declared.verdict.Verdict.TheVariants.{Yes};
ghost use Rattle.certificate_text.specs.Walk.{IsBegun, begun, begun_gap, certificate_by, layer_of};
ghost use Rattle.certificate_check.specs.Verdict.{SaysGapValid, SaysValid, bounded_verdict, gap_verdict, lines_verdict, verdict_on};

use crate::checker::{final_verdict, found_first, found_more, head_verdict};
use crate::verdict::Verdict;
use certificate_text::{Layer, Lines};
use lab_model::{InputFault, Manifest, Setup};
use network_clock::Clock;
use player_core::Scene;

/// The next layer, where one is left.
fn next_layer(lines: &mut Lines<'_>) -> Result<Layer, InputFault>
    requires { lines.old.segment < lines.old.head.segments }
    ensures { Gives (λ layer. (Some (map chain_parts layer.chains.items), lines.new)) result
        (layer_of lines.old) }
{
    match lines.next_layer()? {
        Some(layer) => Ok(layer),
        None => unreachable!(),
    }
}

/// The verdict in a scene on lines that have just begun, with this bound in V5.
fn verdict_on(scene: &Scene<'_>, lines: Lines<'_>, bound: i128) -> Result<Verdict, InputFault>
    requires { IsBegun lines }
    ensures { Gives (λ v. v) result
        (verdict_on scene.now bound (certificate_by lines.entry)) }
{
    let mut lines = lines;
    let head = head_verdict(
        scene,
        lines.table(),
        lines.segments(),
        lines.rungs(),
        lines.plan(),
    );
    let last = lines.segments() - 1;
    let mut here = next_layer(&mut lines)?;
    let mut found = found_first(scene, head, lines.starts(), &here.chains);
    for segment in 0..last {
        let next = next_layer(&mut lines)?;
        found = found_more(scene, found, segment, &here.chains, &next.chains);
        here = next;
    }
    let score = lines.score();
    let verdict = final_verdict(scene, found, last, &here.chains, lines.plan(), score, bound);
    lines.next_layer()?;
    Ok(verdict)
}

/// The verdict in a scene on a certificate that is read layer by layer, with this bound in V5: see `check_from`. The
/// lines are as `begin` or `begin_gap` answered them; the bound that they stand for is `lines.bound()`.
///
/// The faults are those of the lines, and come before any verdict. It holds two layers at a time.
pub fn check_lines_from(
    scene: &Scene<'_>,
    lines: Lines<'_>,
    bound: i128,
) -> Result<Verdict, InputFault>
    requires begun { IsBegun lines }
    // A bad line comes first, then the verdict on the whole certificate.
    ensures verdict { (bytes : List ℕ) → begun bytes ≡ Ok lines.entry →
        Gives (λ v. v) result (bounded_verdict scene.now bytes bound) }
    ensures valid { (bytes : List ℕ) → begun bytes ≡ Ok lines.entry →
        IfOk result (SaysValid scene.now bytes bound) }
    // The same of a gap certificate.
    ensures gap { (bytes : List ℕ) → begun_gap bytes ≡ Ok lines.entry →
        Gives (λ v. v) result (gap_verdict scene.now bytes bound) }
    ensures gap_valid { (bytes : List ℕ) → begun_gap bytes ≡ Ok lines.entry →
        IfOk result (SaysGapValid scene.now bytes bound) }
    // A yes proves that the rung list has the score, and that no rung list has a value above the bound.
    ensures sound { IfOk result (λ v. v ≡ Yes →
        Settles scene.now lines.entry.head.plan lines.entry.head.score bound) }
{
    prove!(scene.film().segments() > 0);
    verdict_on(scene, lines, bound)
}

/// The verdict for a film on demand on a certificate that is read layer by layer, with its own score as the bound: see
/// `check_lines_from`.
pub fn check_lines(
    film: &Manifest,
    clock: &Clock,
    setup: &Setup,
    lines: Lines<'_>,
) -> Result<Verdict, InputFault>
    requires setup { SetupFits setup.now film.now }
    requires begun { IsBegun lines }
    ensures verdict { (bytes : List ℕ) → begun bytes ≡ Ok lines.entry → Gives (λ v. v) result
        (lines_verdict (task_of film.now clock.now setup.now all_ahead) bytes) }
    ensures valid { (bytes : List ℕ) → begun bytes ≡ Ok lines.entry → IfOk result
        (SaysValid (task_of film.now clock.now setup.now all_ahead) bytes lines.entry.head.score) }
    ensures sound { IfOk result (λ v. v ≡ Yes →
        Settles (task_of film.now clock.now setup.now all_ahead) lines.entry.head.plan
        lines.entry.head.score lines.entry.head.score) }
{
    let score = lines.score();
    check_lines_from(&Scene::on_demand(film, clock, setup), lines, score)
}
