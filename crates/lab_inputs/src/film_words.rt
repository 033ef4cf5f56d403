//! The words of a command on a film.

ghost use Rattle.std.specs.Prelude.{◌≡◌};
ghost use Rattle.lab_words.specs.Command.{view};
ghost use Rattle.lab_words.specs.Limits.{HasFilm, IsWithinLimits};

use lab_words::Command;
use std::marker::Model;

/// What a command on a film is asked for, within the limits of its options.
#[derive(Drop)]
pub struct FilmWords {
    command: Command,
}

impl Model for FilmWords {
    ghost use Rattle.lab_words.specs.Command.{CommandWords};
    ghost use Rattle.lab_words.specs.Limits.{HasFilm, IsWithinLimits};
    ghost use Rattle.lab_inputs.specs.Inputs.{words_of};

    ghost Value = { CommandWords };

    ghost view = { λ w. words_of w.command };

    ghost invariant = { λ w. IsWithinLimits (words_of w.command)
        × HasFilm (words_of w.command).verb };
}

impl FilmWords {
    /// The words that a command was read from.
    pub fn of(command: Command) -> FilmWords
        requires limits { IsWithinLimits (view command) }
        requires film { HasFilm (view command).verb }
        ensures { result ≡ view command }
    {
        FilmWords { command }
    }

    /// The command.
    pub(crate) fn command(&self) -> &Command
        ensures { view result.now ≡ self.now }
    {
        &self.command
    }

    /// The command, for its parts.
    pub(crate) fn into_command(self) -> Command
        ensures value { view result ≡ self }
        ensures limits { IsWithinLimits (view result) }
        ensures film { HasFilm (view result).verb }
    {
        self.command
    }
}
