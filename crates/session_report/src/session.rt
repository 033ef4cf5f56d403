//! The text of a session: a line for each event, then one for each of its seven counters.
ghost use Rattle.std.specs.Prelude.{◌≡◌, ◌∷◌, [], map};
ghost use Rattle.std.specs.List.{flat_map};
ghost use Rattle.lab_io.specs.Piece.{fields_line, piece_text};
ghost use Rattle.lab_io.specs.Sink.{Puts};
ghost use Rattle.player_core.specs.Session.{shown};
ghost use Rattle.session_report.specs.Session.{CanReport, comparison_row, counter_lines, event_fields, session_score, session_text};

use crate::event::put_event;
use lab_io::Piece::{Number, Word};
use lab_io::{Piece, PutErr, Sink, put_fields};
use lab_model::Weights;
use player_core::{Event, Session};
use quality_score::score;

fn put_events<O: Sink>(out: &mut O, events: &[Event]) -> Result<(), PutErr>
    ensures { Puts (O.seen out.old) (flat_map (λ e. fields_line (event_fields e)) events.now)
        (O.seen out.new) result }
{
    for event in events {
        put_event(out, *event)?;
    }
    Ok(())
}

// A line for each word and its number.
fn put_counters<O: Sink>(out: &mut O, counters: &[[Piece<'_>; 2]]) -> Result<(), PutErr>
    ensures { Puts (O.seen out.old) (flat_map (λ c. fields_line (map piece_text c)) counters.now)
        (O.seen out.new) result }
{
    for counter in counters {
        put_fields(out, counter)?;
    }
    Ok(())
}

// In thousandths of a point.
fn score_of(s: &Session, w: &Weights) -> i128
    requires { CanReport (shown s.now) w.now }
    ensures { result ≡ session_score (shown s.now) w.now }
{
    score(&s.played, s.stall_ms, s.startup_ms, w)
}

// The seven counters, of which the score is the last.
fn put_summary<O: Sink>(out: &mut O, s: &Session, score: i128) -> Result<(), PutErr>
    ensures { Puts (O.seen out.old) (counter_lines (shown s.now) score) (O.seen out.new) result }
{
    put_counters(
        out,
        &[
            [Word("startup"), Number(s.startup_ms as i128)],
            [Word("stall"), Number(s.stall_ms as i128)],
            [Word("stalls"), Number(s.stalls as i128)],
            [Word("seeking"), Number(s.seek_ms as i128)],
            [Word("wasted"), Number(s.wasted_bits as i128)],
            [Word("end"), Number(s.end as i128)],
            [Word("score"), Number(score)],
        ],
    )
}

/// Puts the text of a session: a line for each event in order, then seven lines, `startup`, `stall`, `stalls`,
/// `seeking`, `wasted`, `end` and `score`, each with its number. Times are in milliseconds, and the score is in
/// thousandths of a point.
///
/// Each played segment has a utility, there are at most 40000, and the times of startup and stall are at most 10^15.
/// After an `Err` a prefix of the text went out. It takes no memory of its own.
pub fn write_session<O: Sink>(s: &Session, w: &Weights, out: &mut O) -> Result<(), PutErr>
    requires { CanReport (shown s.now) w.now }
    ensures { Puts (O.seen out.old) (session_text (shown s.now) w.now) (O.seen out.new) result }
{
    put_events(out, &s.events)?;
    put_summary(out, s, score_of(s, w))
}

/// Puts the row of a rule in a comparison: `rule NAME` and the seven counters, in one line.
///
/// The conditions are those of `write_session`. After an `Err` a prefix of the row went out. It takes no memory of its own.
pub fn compare_row<O: Sink>(name: &str, s: &Session, w: &Weights, out: &mut O) -> Result<(), PutErr>
    requires { CanReport (shown s.now) w.now }
    ensures { Puts (O.seen out.old) (comparison_row name.now (shown s.now) w.now)
        (O.seen out.new) result }
{
    put_fields(
        out,
        &[
            Word("rule"),
            Word(name),
            Word("startup"),
            Number(s.startup_ms as i128),
            Word("stall"),
            Number(s.stall_ms as i128),
            Word("stalls"),
            Number(s.stalls as i128),
            Word("seeking"),
            Number(s.seek_ms as i128),
            Word("wasted"),
            Number(s.wasted_bits as i128),
            Word("end"),
            Number(s.end as i128),
            Word("score"),
            Number(score_of(s, w)),
        ],
    )
}
