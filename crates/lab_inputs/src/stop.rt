//! Why a command stops before it writes.

use crate::role::Role;
use lab_model::Refusal;
use std::alloc::AllocError;

/// What is wrong with a file.
#[derive(Clone, Copy, PartialEq, Eq, Debug)]
pub enum FileFault {
    /// It was not read.
    NotRead,
    /// It is longer than its limit.
    TooLong,
    /// Its reader refuses it.
    Refused(Refusal),
}

/// What does not fit the film.
#[derive(Clone, Copy, PartialEq, Eq, Debug)]
pub enum Setting {
    /// The buffer does not hold a segment.
    Buffer,
    /// The utilities are not one for each rung.
    Utilities,
    /// A rule, by its place from 1, asks for what the film does not have.
    Rule(usize),
}

/// Why a command stops before it writes.
#[derive(Clone, Copy, PartialEq, Eq, Debug)]
pub enum Stop {
    /// Something is wrong with a file.
    File(Role, FileFault),
    /// The settings do not fit the film.
    Settings(Setting),
}

/// Why there is nothing to write.
#[derive(Clone, Copy, PartialEq, Eq, Debug)]
pub enum Halt {
    /// The command stops.
    Stopped(Stop),
    /// Memory was wanting.
    NoMemory,
}

impl From<AllocError> for Halt {
    ghost use Rattle.std.specs.Prelude.{◌≡◌};
    ghost use Rattle.lab_inputs.specs.declared.stop.Halt.TheVariants.{NoMemory};

    ghost from_gives = { λ _ e. e ≡ NoMemory };

    fn from(_refused: AllocError) -> Halt {
        Halt::NoMemory
    }
}
