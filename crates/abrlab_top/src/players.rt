//! `simulate --players`: the joint session of several players on one network.

ghost use Rattle.std.specs.Prelude.{◌≡◌, ◌+◌, ℕ, false, length};
ghost use Rattle.std.specs.List.{All};
ghost use Rattle.lab_io.specs.Sink.{Puts};
ghost use Rattle.lab_model.specs.Film.{IsWithin};
ghost use Rattle.lab_inputs.specs.Roles.{film_files};
ghost use Rattle.player_core.specs.Session.{Shown, shown};
ghost use Rattle.session_report.specs.Session.{CanReport};
ghost use Rattle.abrlab_top.specs.Ending.{ended};
ghost use Rattle.abrlab_top.specs.Outcome.{about};
ghost use Rattle.abrlab_top.specs.Players.{AreOf, play_jointly, player_line, players_text};
ghost use Rattle.abrlab_top.specs.Runs.{Ends};
ghost use Rattle.abrlab_top.specs.Stages.{Writes, at_the_end};

use crate::ending::Ending;
use crate::request::PlayersWords;
use crate::rule::any_rules;
use lab_inputs::{Inputs, read_inputs};
use lab_io::Piece::{Number, Word};
use lab_io::{PutErr, Shelf, Sink, put_fields};
use lab_model::Weights;
use player_core::Session;
use session_report::write_session;
use shared_link::play_shared;
use std::alloc::Global;

/// Writes the line of a player, whose place is counted from 0.
fn put_player<O: Sink>(out: &mut O, place: usize) -> Result<(), PutErr>
    ensures { Puts (O.seen out.old) (player_line (place + 1)) (O.seen out.new) result }
{
    put_fields(out, &[Word("player"), Number(place as i128 + 1)])
}

/// Writes the text of each player, in order.
fn write_players<O: Sink>(
    sessions: &[Session],
    weights: &Weights,
    out: &mut O,
) -> Result<(), PutErr>
    requires { All (λ s. CanReport (shown s) weights.now) sessions.now }
    ensures { (shows : ℕ → Shown) → AreOf shows sessions.now → Puts (O.seen out.old)
        (players_text shows weights.now (length sessions.now)) (O.seen out.new) result }
{
    for (place, session) in sessions.iter().enumerate() {
        put_player(out, place)?;
        write_session(session, weights, out)?;
    }
    Ok(())
}

/// Plays the joint session and writes the text of each player.
fn write_joint_session<O: Sink>(alloc: Global, inputs: &Inputs, out: &mut O) -> Result<(), Ending>
    requires players { IsWithin 1 8 (length inputs.now.rules) }
    requires keeps { inputs.now.setup.abandon ≡ false }
    ensures { Writes at_the_end (play_jointly inputs.now)
        (O.seen out.old) (ended result) (O.seen out.new) }
{
    let Some(network) = inputs.network() else {
        return Ok(());
    };
    inputs.fit()?;
    let rules = any_rules(alloc, inputs.rules())?;
    let joint = play_shared(
        alloc,
        inputs.manifest(),
        &network.trace,
        inputs.setup(),
        rules,
    )?;
    Ok(write_players(&joint.sessions, &inputs.setup().weights, out)?)
}

/// Reads the files, plays the joint session and writes the text of each player.
pub(crate) fn players<F: Shelf, O: Sink>(
    alloc: Global,
    words: PlayersWords,
    shelf: &mut F,
    out: &mut O,
) -> Result<(), Ending>
    ensures { Ends (film_files words) at_the_end (about play_jointly words)
        (F.shelved shelf.old) (O.seen out.old) (ended result)
        (F.shelved shelf.new) (O.seen out.new) }
{
    let inputs = read_inputs(alloc, shelf, words.into_film_words())?;
    write_joint_session(alloc, &inputs, out)
}
