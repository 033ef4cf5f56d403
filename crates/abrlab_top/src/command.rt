//! The command that the words ask for, and what became of it.

ghost use Rattle.std.specs.Prelude.{◌≡◌, Some, map, string_bytes};
ghost use Rattle.lab_words.specs.Command.{view};
ghost use Rattle.lab_words.specs.Limits.{IsWithinLimits};
ghost use Rattle.lab_words.specs.Words.{command_of};
ghost use Rattle.abrlab_top.specs.Ending.{ended};
ghost use Rattle.abrlab_top.specs.Runs.{Admits, EndsBy};

use crate::check::check;
use crate::compare::compare;
use crate::demo::demo;
use crate::ending::Ending;
use crate::near::{near_plan, price_check};
use crate::plan::plan;
use crate::players::players;
use crate::regret::{near_regret, regret};
use crate::request::Request;
use crate::simulate::simulate;
use lab_io::{Shelf, Sink};
use lab_words::{Command, WordsErr, read_words};
use std::alloc::Global;

/// Reads what a command needs, and writes what it answers.
fn answer_command<F: Shelf, O: Sink>(
    alloc: Global,
    command: Command,
    shelf: &mut F,
    out: &mut O,
) -> Result<(), Ending>
    requires limits { IsWithinLimits (view command) }
    ensures { EndsBy (Some (view command))
        (F.shelved shelf.old) (O.seen out.old) (ended result)
        (F.shelved shelf.new) (O.seen out.new) }
{
    match Request::of(command) {
        Request::Simulate(words) => simulate(alloc, words, shelf, out),
        Request::Players(words) => players(alloc, words, shelf, out),
        Request::Compare(words) => compare(alloc, words, shelf, out),
        Request::Regret(words) => regret(alloc, words, shelf, out),
        Request::NearRegret(words) => near_regret(alloc, words, shelf, out),
        Request::Plan(words, options) => plan(alloc, words, options, shelf, out),
        Request::NearPlan {
            words,
            as_certificate,
        } => near_plan(alloc, words, as_certificate, shelf, out),
        Request::Check(words) => check(alloc, words, shelf, out),
        Request::PriceCheck(words) => price_check(alloc, words, shelf, out),
        Request::Demo(number) => demo(alloc, number, out),
    }
}

/// How a command ended.
fn ending_of(came: Result<(), Ending>) -> Ending
    ensures { result ≡ ended came }
{
    match came {
        Ok(()) => Ending::Done,
        Err(ending) => ending,
    }
}

/// Everything but what is said on `err`.
pub(crate) fn run_command<F: Shelf, O: Sink>(
    alloc: Global,
    words: &[String],
    shelf: &mut F,
    out: &mut O,
) -> Ending
    ensures words { Admits (map string_bytes words.now)
        (command_of (map string_bytes words.now)) result }
    ensures ends { EndsBy (command_of (map string_bytes words.now))
        (F.shelved shelf.old) (O.seen out.old) result (F.shelved shelf.new) (O.seen out.new) }
{
    match read_words(alloc, words) {
        Ok(command) => ending_of(answer_command(alloc, command, shelf, out)),
        Err(WordsErr::Usage) => Ending::Usage,
        Err(WordsErr::Memory) => Ending::NoMemory,
    }
}
