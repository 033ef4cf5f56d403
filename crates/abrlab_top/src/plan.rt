//! `plan`: the best rung list that the network allowed, or on a grid one with a bound; or its certificate.

ghost use Rattle.std.specs.Prelude.{◌≡◌, ◌∷◌, [], codes, false, true};
ghost use Rattle.std.specs.Fmt.{decimal};
ghost use Rattle.lab_io.specs.Piece.{fields_line};
ghost use Rattle.lab_io.specs.Sink.{Puts};
ghost use Rattle.player_core.specs.Scene.{IsTask};
ghost use Rattle.labels.specs.Parts.{plan_parts};
ghost use Rattle.certificate_text.specs.Form.{IsGapCertificate};
ghost use Rattle.gap_plan.specs.Gap.{plan_gap};
ghost use Rattle.lab_inputs.specs.Roles.{film_files};
ghost use Rattle.abrlab_top.specs.Ending.{ended};
ghost use Rattle.abrlab_top.specs.Outcome.{about};
ghost use Rattle.abrlab_top.specs.Plan.{IsListFound, IsPlanned, bound_line, certificate_lines, coarse_lines, list_lines, plan, plan_lines, planned_on, steps_of};
ghost use Rattle.abrlab_top.specs.Runs.{Ends};
ghost use Rattle.abrlab_top.specs.Stages.{Writes, at_the_end};

use crate::ending::Ending;
use crate::request::PlanOptions;
use crate::scene::scene_on;
use certificate_text::{put_plan, put_score, write_certificate};
use frontier_planner::{BoundedList, CoarsePlan, Grid, PlanErr, list_from, plan_from};
use gap_plan::write_gap;
use lab_inputs::{FilmWords, Inputs, read_inputs};
use lab_io::Piece::{Number, Word};
use lab_io::{PutErr, Shelf, Sink, put_fields};
use lab_model::Manifest;
use network_clock::Clock;
use player_core::Scene;
use std::alloc::Global;

/// The steps of the planner's grid: without one nothing is rounded.
fn steps_of(grid: Option<Grid>) -> Grid
    ensures { result ≡ steps_of grid }
{
    match grid {
        Some(grid) => grid,
        None => Grid::exact(),
    }
}

/// Writes the line of the number of labels.
fn put_labels<O: Sink>(out: &mut O, labels: u32) -> Result<(), PutErr>
    ensures { Puts (O.seen out.old) (fields_line (codes "labels" ∷ decimal labels ∷ []))
        (O.seen out.new) result }
{
    put_fields(out, &[Word("labels"), Number(labels as i128)])
}

/// Writes the three lines of a list without a grid.
fn put_lines<O: Sink>(out: &mut O, list: &BoundedList) -> Result<(), PutErr>
    ensures { Puts (O.seen out.old) (plan_lines list.now.score list.now.labels list.now.rungs.items)
        (O.seen out.new) result }
{
    put_score(out, list.score)?;
    put_labels(out, list.labels)?;
    put_plan(out, &list.rungs)
}

/// Writes the line of a bound.
pub(crate) fn put_bound<O: Sink>(out: &mut O, bound: i128) -> Result<(), PutErr>
    ensures { Puts (O.seen out.old) (bound_line bound) (O.seen out.new) result }
{
    put_fields(out, &[Word("bound"), Number(bound)])
}

/// Writes the four lines of a list on a grid.
fn put_coarse_lines<O: Sink>(out: &mut O, list: &BoundedList) -> Result<(), PutErr>
    ensures { Puts (O.seen out.old) (coarse_lines list.now.score list.now.bound
        list.now.labels list.now.rungs.items) (O.seen out.new) result }
{
    put_score(out, list.score)?;
    put_bound(out, list.bound)?;
    put_labels(out, list.labels)?;
    put_plan(out, &list.rungs)
}

/// Writes the lines of a list, which has a bound of its own on a grid.
fn put_list<O: Sink>(out: &mut O, grid: Option<Grid>, list: &BoundedList) -> Result<(), PutErr>
    ensures { Puts (O.seen out.old)
        (list_lines grid list.now.score list.now.bound list.now.labels list.now.rungs.items)
        (O.seen out.new) result }
{
    match grid {
        Some(_) => put_coarse_lines(out, list),
        None => put_lines(out, list),
    }
}

/// Writes the certificate of a plan, on a grid its gap certificate.
fn put_certificate<O: Sink>(
    out: &mut O,
    m: &Manifest,
    grid: Option<Grid>,
    planned: &CoarsePlan,
) -> Result<(), PutErr>
    requires form { IsGapCertificate (plan_gap m.now planned.now) }
    ensures { Puts (O.seen out.old)
        (certificate_lines grid (plan_parts m.now planned.now.plan) planned.now.bound)
        (O.seen out.new) result }
{
    match grid {
        Some(_) => write_gap(m, planned, out),
        None => write_certificate(m, &planned.plan, out),
    }
}

/// The list of a plan on a scene, without what certifies it.
pub(crate) fn list_on(
    alloc: Global,
    scene: &Scene<'_>,
    options: PlanOptions,
) -> Result<BoundedList, PlanErr>
    ensures answer { IsListFound options.grid scene.now options.budget result }
    ensures task { IsTask scene.now }
{
    prove!(scene.film().segments() > 0);
    list_from(alloc, scene, steps_of(options.grid()), options.budget())
}

/// The plan on a scene.
fn plan_on(alloc: Global, scene: &Scene<'_>, options: PlanOptions) -> Result<CoarsePlan, PlanErr>
    ensures { IsPlanned options.grid scene.now options.budget result }
{
    plan_from(alloc, scene, steps_of(options.grid()), options.budget())
}

/// Plans on a scene and writes the list.
fn write_list<O: Sink>(
    alloc: Global,
    scene: &Scene<'_>,
    options: PlanOptions,
    out: &mut O,
) -> Result<(), Ending>
    requires list { options.as_certificate ≡ false }
    ensures { Writes at_the_end (planned_on options scene.now)
        (O.seen out.old) (ended result) (O.seen out.new) }
{
    let list = list_on(alloc, scene, options)?;
    Ok(put_list(out, options.grid(), &list)?)
}

/// Plans on a scene and writes the certificate.
fn write_proof<O: Sink>(
    alloc: Global,
    scene: &Scene<'_>,
    options: PlanOptions,
    out: &mut O,
) -> Result<(), Ending>
    requires certificate { options.as_certificate ≡ true }
    ensures { Writes at_the_end (planned_on options scene.now)
        (O.seen out.old) (ended result) (O.seen out.new) }
{
    let planned = plan_on(alloc, scene, options)?;
    Ok(put_certificate(out, scene.film(), options.grid(), &planned)?)
}

/// Plans and writes the plan, or its certificate.
fn write_plan<O: Sink>(
    alloc: Global,
    inputs: &Inputs,
    options: PlanOptions,
    out: &mut O,
) -> Result<(), Ending>
    ensures { Writes at_the_end (plan options inputs.now)
        (O.seen out.old) (ended result) (O.seen out.new) }
{
    let Some(network) = inputs.network() else {
        return Ok(());
    };
    inputs.fit()?;
    let clock = Clock::new(alloc, &network.trace)?;
    let scene = scene_on(inputs, &clock);
    if options.as_certificate() {
        write_proof(alloc, &scene, options, out)
    } else {
        write_list(alloc, &scene, options, out)
    }
}

/// Reads the files, plans and writes the plan.
pub(crate) fn plan<F: Shelf, O: Sink>(
    alloc: Global,
    words: FilmWords,
    options: PlanOptions,
    shelf: &mut F,
    out: &mut O,
) -> Result<(), Ending>
    ensures { Ends (film_files words) at_the_end (about (plan options) words)
        (F.shelved shelf.old) (O.seen out.old) (ended result)
        (F.shelved shelf.new) (O.seen out.new) }
{
    let inputs = read_inputs(alloc, shelf, words)?;
    write_plan(alloc, &inputs, options, out)
}
