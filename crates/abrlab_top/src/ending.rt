//! How a run ends: its status and its note.

ghost use Rattle.std.specs.Prelude.{◌≡◌, ◌++◌, ◌∷◌, [], Some, codes};
ghost use Rattle.std.specs.Fmt.{decimal};
ghost use Rattle.lab_io.specs.Piece.{fields_line};
ghost use Rattle.lab_io.specs.Sink.{Puts};
ghost use Rattle.abrlab_top.specs.Ending.{Told, fault_status, note_of, spender, spending, status_of, stop_status};

use frontier_planner::PlanErr;
use lab_inputs::{FileFault, Halt, Stop, put_stop};
use lab_io::Piece::{Number, Word};
use lab_io::{PutErr, Sink, put_fields, put_number, put_text};
use lab_model::NoMemory;
use std::alloc::AllocFailed;

/// How a run ends.
#[derive(Clone, Copy, PartialEq, Eq, Debug)]
pub enum Ending {
    /// The text went out whole.
    Done,
    /// The text went out whole, which says that a certificate isn't valid.
    Invalid,
    /// The words are refused.
    Usage,
    /// The command stopped before it wrote: a file or a setting is refused, or a file was not read.
    Stopped(Stop),
    /// The labels of a plan are more than the budget.
    Spent {
        /// The place of the plan's trace, counted from 1, where each trace is planned.
        trace: Option<usize>,
        /// The first segment, counted from 0, up to whose end the labels are more.
        segment: u16,
    },
    /// `out` did not take the text.
    OutputFailed,
    /// Memory was wanting.
    NoMemory,
}

impl From<Halt> for Ending {
    ghost use Rattle.std.specs.Prelude.{◌≡◌};
    ghost use Rattle.abrlab_top.specs.Ending.{after_halt};

    ghost from_gives = { λ halt e. e ≡ after_halt halt };

    fn from(halt: Halt) -> Ending {
        match halt {
            Halt::Stopped(stop) => Ending::Stopped(stop),
            Halt::NoMemory => Ending::NoMemory,
        }
    }
}

impl From<Stop> for Ending {
    ghost use Rattle.std.specs.Prelude.{◌≡◌};
    ghost use Rattle.abrlab_top.specs.declared.ending.Ending.TheVariants.{Stopped};

    ghost from_gives = { λ why e. e ≡ Stopped why };

    fn from(stop: Stop) -> Ending {
        Ending::Stopped(stop)
    }
}

impl From<PutErr> for Ending {
    ghost use Rattle.std.specs.Prelude.{◌≡◌};
    ghost use Rattle.abrlab_top.specs.Ending.{after_put};

    ghost from_gives = { λ failure e. e ≡ after_put failure };

    fn from(failure: PutErr) -> Ending {
        match failure {
            PutErr::Failed => Ending::OutputFailed,
            PutErr::Memory => Ending::NoMemory,
        }
    }
}

impl From<PlanErr> for Ending {
    ghost use Rattle.std.specs.Prelude.{◌≡◌};
    ghost use Rattle.abrlab_top.specs.Ending.{after_plan};

    ghost from_gives = { λ failure e. e ≡ after_plan failure };

    fn from(failure: PlanErr) -> Ending {
        match failure {
            PlanErr::BudgetSpent { segment } => Ending::Spent {
                trace: None,
                segment,
            },
            PlanErr::Memory => Ending::NoMemory,
        }
    }
}

impl From<NoMemory> for Ending {
    ghost use Rattle.std.specs.Prelude.{◌≡◌};
    ghost use Rattle.abrlab_top.specs.declared.ending.Ending.TheVariants as ending;

    ghost from_gives = { λ _ e. e ≡ ending.NoMemory };

    fn from(_refused: NoMemory) -> Ending {
        Ending::NoMemory
    }
}

impl<T: Drop> From<AllocFailed<T>> for Ending {
    ghost use Rattle.std.specs.Prelude.{◌≡◌};
    ghost use Rattle.abrlab_top.specs.declared.ending.Ending.TheVariants as ending;

    ghost from_gives = { λ _ e. e ≡ ending.NoMemory };

    fn from(_refused: AllocFailed<T>) -> Ending {
        Ending::NoMemory
    }
}

fn fault_status(fault: FileFault) -> u8
    ensures { result ≡ fault_status fault }
{
    match fault {
        FileFault::NotRead => 4,
        FileFault::TooLong | FileFault::Refused(_) => 3,
    }
}

fn stop_status(stop: Stop) -> u8
    ensures { result ≡ stop_status stop }
{
    match stop {
        Stop::File(_, fault) => fault_status(fault),
        Stop::Settings(_) => 3,
    }
}

/// Says a place.
fn put_place<E: Sink>(err: &mut E, place: usize) -> Result<(), PutErr>
    ensures { Puts (E.seen err.old) (decimal place) (E.seen err.new) result }
{
    put_number(err, place as i128)
}

/// Says a place, and that something about it follows.
fn put_head<E: Sink>(err: &mut E, place: usize) -> Result<(), PutErr>
    ensures { Puts (E.seen err.old) (decimal place ++ codes ": ") (E.seen err.new) result }
{
    put_place(err, place)?;
    put_text(err, ": ")
}

/// Says which of several traces it is about.
fn put_trace<E: Sink>(err: &mut E, place: usize) -> Result<(), PutErr>
    ensures { Puts (E.seen err.old) (spender (Some place)) (E.seen err.new) result }
{
    put_text(err, "abrlab: trace ")?;
    put_head(err, place)
}

/// Says whose budget it is about.
fn put_spender<E: Sink>(err: &mut E, trace: Option<usize>) -> Result<(), PutErr>
    ensures { Puts (E.seen err.old) (spender trace) (E.seen err.new) result }
{
    match trace {
        Some(place) => put_trace(err, place),
        None => put_text(err, "abrlab: "),
    }
}

/// Says which segment, and ends the line.
fn put_segment<E: Sink>(err: &mut E, segment: u16) -> Result<(), PutErr>
    ensures { Puts (E.seen err.old) (fields_line (decimal segment ∷ [])) (E.seen err.new) result }
{
    put_fields(err, &[Number(segment as i128)])
}

/// Says at the end of which segment a budget was spent.
fn put_spending<E: Sink>(err: &mut E, segment: u16) -> Result<(), PutErr>
    ensures { Puts (E.seen err.old) (spending segment) (E.seen err.new) result }
{
    put_text(err, "budget spent at segment ")?;
    put_segment(err, segment)
}

/// Says whose budget was spent, and at the end of which segment.
fn put_spent<E: Sink>(err: &mut E, trace: Option<usize>, segment: u16) -> Result<(), PutErr>
    ensures { Puts (E.seen err.old) (note_of (Ending.Spent trace segment)) (E.seen err.new) result }
{
    put_spender(err, trace)?;
    put_spending(err, segment)
}

impl Ending {
    /// The status of a run that ended so.
    pub(crate) fn status(self) -> u8
        ensures { result ≡ status_of self }
    {
        match self {
            Ending::Done => 0,
            Ending::Invalid => 1,
            Ending::Usage => 2,
            Ending::Stopped(stop) => stop_status(stop),
            Ending::Spent { .. } => 6,
            Ending::OutputFailed => 5,
            Ending::NoMemory => 9,
        }
    }

    /// Says on `err` how a run ended, and nothing where its text went out whole. Where `err` does not take the line,
    /// nobody is told.
    pub(crate) fn tell<E: Sink>(self, err: &mut E)
        ensures { Told (E.seen err.old) self (E.seen err.new) }
    {
        let usage = "abrlab: usage: simulate, compare, plan, check, demo";
        let _ = match self {
            Ending::Done | Ending::Invalid => Ok(()),
            Ending::Usage => put_fields(err, &[Word(usage)]),
            Ending::Stopped(stop) => put_stop(err, stop),
            Ending::Spent { trace, segment } => put_spent(err, trace, segment),
            Ending::OutputFailed => put_fields(err, &[Word("abrlab: output failed")]),
            Ending::NoMemory => put_fields(err, &[Word("abrlab: no memory")]),
        };
    }
}
