//! `compare`: rules side by side on networks.

ghost use Rattle.std.specs.Prelude.{map};
ghost use Rattle.std.specs.List.{flat_map};
ghost use Rattle.lab_inputs.specs.Roles.{film_files};
ghost use Rattle.lab_inputs.specs.Settings.{Fits};
ghost use Rattle.lab_inputs.specs.Stages.{network_of};
ghost use Rattle.abrlab_top.specs.Compare.{compare, network_rows};
ghost use Rattle.abrlab_top.specs.Ending.{ended};
ghost use Rattle.abrlab_top.specs.Outcome.{about};
ghost use Rattle.abrlab_top.specs.Runs.{Ends};
ghost use Rattle.abrlab_top.specs.Stages.{Writes, WritesRows, row_by_row};

use crate::ending::Ending;
use crate::row::Bench;
use lab_inputs::{FilmWords, Inputs, Network, read_inputs};
use lab_io::Piece::Word;
use lab_io::{PutErr, Shelf, Sink, put_fields};
use network_clock::Clock;
use std::alloc::Global;

/// Writes the line of a network, and a row for each rule on it.
fn write_network<O: Sink>(
    alloc: Global,
    inputs: &Inputs,
    network: &Network,
    out: &mut O,
) -> Result<(), PutErr>
    requires fits { Fits inputs.now }
    ensures { WritesRows (O.seen out.old) (network_rows inputs.now (network_of network.now))
        result (O.seen out.new) }
{
    put_fields(out, &[Word("trace"), Word(&network.name)])?;
    let Ok(clock) = Clock::new(alloc, &network.trace) else {
        return Err(PutErr::Memory);
    };
    let bench = Bench::new(inputs.manifest(), &clock, inputs.setup(), inputs.seeks());
    bench.write_rows(alloc, inputs.rules(), out)
}

/// Writes each network with its rows, in order.
fn write_networks<O: Sink>(
    alloc: Global,
    inputs: &Inputs,
    networks: &[Network],
    out: &mut O,
) -> Result<(), PutErr>
    requires fits { Fits inputs.now }
    ensures { WritesRows (O.seen out.old)
        (flat_map (network_rows inputs.now) (map network_of networks.now))
        result (O.seen out.new) }
{
    for network in networks {
        write_network(alloc, inputs, network, out)?;
    }
    Ok(())
}

/// Plays each session right before its row is written.
fn write_comparison<O: Sink>(alloc: Global, inputs: &Inputs, out: &mut O) -> Result<(), Ending>
    ensures { Writes row_by_row (compare inputs.now)
        (O.seen out.old) (ended result) (O.seen out.new) }
{
    inputs.fit()?;
    Ok(write_networks(alloc, inputs, inputs.networks(), out)?)
}

/// Reads the files, and plays each session right before its row is written.
pub(crate) fn compare<F: Shelf, O: Sink>(
    alloc: Global,
    words: FilmWords,
    shelf: &mut F,
    out: &mut O,
) -> Result<(), Ending>
    ensures { Ends (film_files words) row_by_row (about compare words)
        (F.shelved shelf.old) (O.seen out.old) (ended result)
        (F.shelved shelf.new) (O.seen out.new) }
{
    let inputs = read_inputs(alloc, shelf, words)?;
    write_comparison(alloc, &inputs, out)
}
