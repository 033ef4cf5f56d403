//! The whole run of a command line: from its words and files to a status, a text and a note.
#![tactic(auto)]

mod check;
mod command;
mod compare;
mod demo;
mod ending;
mod laws;
mod memory;
mod near;
mod plan;
mod players;
mod regret;
mod request;
mod row;
mod rule;
mod scene;
mod simulate;

ghost use Rattle.std.specs.Prelude.{◌≡◌, map, string_bytes};
ghost use Rattle.abrlab_top.specs.declared.ending.Ending.{Ending};
ghost use Rattle.abrlab_top.specs.Ending.{status_of};
ghost use Rattle.abrlab_top.specs.Proves.{BoundsRegrets, BoundsTheBest, Headline, PlansTheBest, PlaysJointly, SaysYesByPrices, SaysYesSoundly, Simulates, TellsRegrets};
ghost use Rattle.abrlab_top.specs.Runs.{Runs, world};

use crate::command::run_command;
pub use ending::Ending;
use lab_io::{Shelf, Sink};
pub use laws::{
    near_plans_are_accepted, plans_are_accepted, runs_are_complete, runs_leave_the_shelf,
    statuses_have_causes,
};
pub use memory::{Printed, run_in_memory};
pub use rule::AnyRule;
use std::alloc::Global;

/// Runs a command line, `words`, without the program's name: reads its files from `shelf`, puts its text on `out` and, where
/// it does not end with status 0 or 1, one line on `err`.
///
/// The answer is the status. 0: the text went out whole. 1: the same, and it says that a certificate isn't valid. 2: the words
/// are refused. 3: a file is longer than its limit or is refused by its reader, or the settings do not fit the film. 4: a file
/// was not read. 5: `out` did not take the text. 6: the labels of a plan are more than the budget; with `--regret` of the plan on
/// some trace; with `--near` never. 9: out of memory.
///
/// Refusals come in this order: the words; the files one after the other, of each first that it was not read, then that it is
/// too long, then its first fault; the first bad line of a certificate; the buffer, the utilities and the rules; the budget. Only
/// the files that the words name are fetched, in this order and each once. Nothing stands on `out` before all is played and
/// planned, but `demo` and `compare` without `--regret` write a row as soon as they have it.
pub fn run<F: Shelf, O: Sink, E: Sink>(
    alloc: Global,
    words: &[String],
    shelf: &mut F,
    out: &mut O,
    err: &mut E,
) -> u8
    // How it ended, with the cause of that: the outcome of the words and the files, what the shelf was asked, what went out.
    ensures runs { (e : Ending) × (result ≡ status_of e) × Runs (map string_bytes words.now)
        (world (F.shelved shelf.old) (O.seen out.old) (E.seen err.old))
        e (world (F.shelved shelf.new) (O.seen out.new) (E.seen err.new)) }
    // What its text proves where it answers 0, at the task that words and files give.
    ensures simulates { Simulates (map string_bytes words.now)
        (world (F.shelved shelf.old) (O.seen out.old) (E.seen err.old))
        result
        (world (F.shelved shelf.new) (O.seen out.new) (E.seen err.new)) }
    ensures plays_jointly { PlaysJointly (map string_bytes words.now)
        (world (F.shelved shelf.old) (O.seen out.old) (E.seen err.old))
        result
        (world (F.shelved shelf.new) (O.seen out.new) (E.seen err.new)) }
    ensures plans { PlansTheBest (map string_bytes words.now)
        (world (F.shelved shelf.old) (O.seen out.old) (E.seen err.old))
        result
        (world (F.shelved shelf.new) (O.seen out.new) (E.seen err.new)) }
    ensures checks { SaysYesSoundly (map string_bytes words.now)
        (world (F.shelved shelf.old) (O.seen out.old) (E.seen err.old))
        result
        (world (F.shelved shelf.new) (O.seen out.new) (E.seen err.new)) }
    ensures regrets { TellsRegrets (map string_bytes words.now)
        (world (F.shelved shelf.old) (O.seen out.old) (E.seen err.old))
        result
        (world (F.shelved shelf.new) (O.seen out.new) (E.seen err.new)) }
    ensures bounds { BoundsTheBest (map string_bytes words.now)
        (world (F.shelved shelf.old) (O.seen out.old) (E.seen err.old))
        result
        (world (F.shelved shelf.new) (O.seen out.new) (E.seen err.new)) }
    ensures price_checks { SaysYesByPrices (map string_bytes words.now)
        (world (F.shelved shelf.old) (O.seen out.old) (E.seen err.old))
        result
        (world (F.shelved shelf.new) (O.seen out.new) (E.seen err.new)) }
    ensures near_regrets { BoundsRegrets (map string_bytes words.now)
        (world (F.shelved shelf.old) (O.seen out.old) (E.seen err.old))
        result
        (world (F.shelved shelf.new) (O.seen out.new) (E.seen err.new)) }
    // The same for command lines without an option of further reach.
    ensures headline { Headline (map string_bytes words.now)
        (world (F.shelved shelf.old) (O.seen out.old) (E.seen err.old))
        result
        (world (F.shelved shelf.new) (O.seen out.new) (E.seen err.new)) }
{
    let ending = run_command(alloc, words, shelf, out);
    ending.tell(err);
    ending.status()
}
