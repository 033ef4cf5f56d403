//! `simulate`: the session of one network and one rule, on demand or live.

ghost use Rattle.lab_inputs.specs.Roles.{film_files};
ghost use Rattle.abrlab_top.specs.Ending.{ended};
ghost use Rattle.abrlab_top.specs.Outcome.{about};
ghost use Rattle.abrlab_top.specs.Runs.{Ends};
ghost use Rattle.abrlab_top.specs.Simulate.{simulate};
ghost use Rattle.abrlab_top.specs.Stages.{Writes, at_the_end};

use crate::ending::Ending;
use crate::rule::any_rule;
use crate::scene::scene_on;
use lab_inputs::{FilmWords, Inputs, read_inputs};
use lab_io::{Shelf, Sink};
use network_clock::Clock;
use player_core::play_from;
use session_report::write_session;
use std::alloc::Global;

/// Plays the session and writes its text.
fn write_simulation<O: Sink>(alloc: Global, inputs: &Inputs, out: &mut O) -> Result<(), Ending>
    ensures { Writes at_the_end (simulate inputs.now)
        (O.seen out.old) (ended result) (O.seen out.new) }
{
    let Some(network) = inputs.network() else {
        return Ok(());
    };
    let Some(rule) = inputs.rule() else {
        return Ok(());
    };
    inputs.fit()?;
    let clock = Clock::new(alloc, &network.trace)?;
    let rule = any_rule(alloc, &rule.rule)?;
    let scene = scene_on(inputs, &clock);
    let session = play_from(alloc, &scene, inputs.seeks(), rule)?;
    Ok(write_session(&session, &inputs.setup().weights, out)?)
}

/// Reads the files, plays the session and writes its text.
pub(crate) fn simulate<F: Shelf, O: Sink>(
    alloc: Global,
    words: FilmWords,
    shelf: &mut F,
    out: &mut O,
) -> Result<(), Ending>
    ensures { Ends (film_files words) at_the_end (about simulate words)
        (F.shelved shelf.old) (O.seen out.old) (ended result)
        (F.shelved shelf.new) (O.seen out.new) }
{
    let inputs = read_inputs(alloc, shelf, words)?;
    write_simulation(alloc, &inputs, out)
}
