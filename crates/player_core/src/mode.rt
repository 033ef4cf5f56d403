//! What a player does: wait, play, or nothing more.

ghost use Rattle.std.specs.Prelude.{◌≡◌};
ghost use Rattle.player_core.specs.Parts.{is_ended, is_playing, mode_after_arrival};
ghost use Rattle.player_core.specs.Seen.{mode_of};

/// Before the first segment, playing, after a seek, and at the end.
#[derive(Clone, Copy)]
pub enum Mode {
    /// It waits for its first segment.
    Starting,
    /// It plays, or stalls.
    Playing,
    /// It waits for the segment that was sought.
    Seeking,
    /// All is played.
    Ended,
}

impl Mode {
    /// The mode once a segment has arrived.
    pub fn after_arrival(self) -> Mode
        ensures { mode_of result ≡ mode_after_arrival (mode_of self) }
    {
        match self {
            Mode::Starting | Mode::Playing | Mode::Seeking => Mode::Playing,
            Mode::Ended => Mode::Ended,
        }
    }

    /// Whether it plays.
    pub fn is_playing(self) -> bool
        ensures { result ≡ is_playing (mode_of self) }
    {
        matches!(self, Mode::Playing)
    }

    /// Whether the session is over.
    pub fn is_ended(self) -> bool
        ensures { result ≡ is_ended (mode_of self) }
    {
        matches!(self, Mode::Ended)
    }
}
