//! Sessions that are read from their text.
ghost use Rattle.std.specs.Prelude.{◌≡◌, ◌+◌, ◌≤◌, Ok, IfOk, length, map};
ghost use Rattle.lab_model.specs.Reading.{Gives};
ghost use Rattle.lab_model.specs.Weighing.{Weighing};
ghost use Rattle.player_core.specs.Session.{Shown};
ghost use Rattle.session_report.specs.Session.{session_text};
ghost use Rattle.certificate_text.specs.Reading.{read_nothing};
ghost use Rattle.session_reader.specs.Form.{IsTelling, Tellings, alone, line_count, most_events, most_players, telling, telling_of, tellings};
ghost use Rattle.session_reader.specs.Reading.{HasToldText, begins_players, read_alone, read_events, read_players, read_telling, sheet_of};
ghost use Rattle.session_reader.specs.Spelling.{sheet_text};

use crate::lines::{read_counters, read_event, read_player};
use crate::told::{Sheet, Told};
use certificate_text::{line_refusal, push};
use lab_model::InputFault;
use player_core::Event;
use std::alloc::Global;

/// The most events of a session that a text tells: more than a text of 64 MiB has lines.
const MOST_EVENTS: u32 = 67_108_864;
/// The most players of a text.
const MOST_PLAYERS: u32 = 8;

/// The events before the first line that is none, and what stands behind them.
fn read_events(alloc: Global, bytes: &[u8]) -> Result<(Vec<Event>, &[u8]), InputFault>
    ensures events { Gives (λ x. (x.0.items, x.1.now)) result
        (Ok (read_events most_events bytes.now)) }
    ensures few { IfOk result (λ x. length x.0.items ≤ most_events) }
{
    let mut events = Vec::new(alloc);
    let mut rest = bytes;
    for _ in 0..MOST_EVENTS {
        match read_event(1, rest) {
            Ok((event, behind)) => {
                push(&mut events, event)?;
                rest = behind;
            }
            Err(InputFault::Refused(_)) => return Ok((events, rest)),
            Err(InputFault::Memory) => return Err(InputFault::Memory),
        }
    }
    Ok((events, rest))
}

/// A session from the line of this number on, and what stands behind it.
#[tactic(auto, unfolding(crate::specs::Reading::read_telling))]
fn read_telling(alloc: Global, row: u32, bytes: &[u8]) -> Result<(Told, &[u8]), InputFault>
    requires { row ≤ 600000000 }
    ensures told { Gives (λ x. (telling x.0, x.1.now)) result (read_telling row bytes.now) }
    ensures few { IfOk result (λ x. length x.0.events.items ≤ most_events) }
{
    let (events, rest) = read_events(alloc, bytes)?;
    let (counters, rest) = read_counters(row + events.len() as u32, rest)?;
    Ok((Told { events, counters }, rest))
}

/// How many lines the text of a session has.
fn line_count(told: &Told) -> u32
    requires { length told.now.events.items ≤ most_events }
    ensures { result ≡ line_count (telling told.now) }
{
    told.events.len() as u32 + 7
}

/// Whether nothing is left; else the line of this number is bad.
fn read_nothing(row: u32, bytes: &[u8]) -> Result<(), InputFault>
    ensures { Gives (λ done. done) result (read_nothing row bytes.now) }
{
    match bytes {
        [] => Ok(()),
        [_, ..] => Err(line_refusal(row)),
    }
}

/// One session alone.
#[tactic(auto, unfolding(crate::specs::Reading::read_alone))]
fn read_alone(alloc: Global, bytes: &[u8]) -> Result<Sheet, InputFault>
    ensures { Gives tellings result (read_alone bytes.now) }
{
    let (told, rest) = read_telling(alloc, 1, bytes)?;
    read_nothing(1 + line_count(&told), rest)?;
    let mut sessions = Vec::new(alloc);
    push(&mut sessions, told)?;
    Ok(Sheet {
        joint: false,
        sessions,
    })
}

/// The sessions of players, to the end of the bytes.
fn read_players(alloc: Global, bytes: &[u8]) -> Result<Vec<Told>, InputFault>
    ensures { Gives (λ v. map telling v.items) result (read_players most_players 1 1 bytes.now) }
{
    let mut sessions = Vec::new(alloc);
    let mut rest = bytes;
    let mut row = 1u32;
    for i in 0..MOST_PLAYERS {
        if rest.is_empty() {
            return Ok(sessions);
        }
        let behind = read_player(row, i + 1, rest)?;
        let (told, behind) = read_telling(alloc, row + 1, behind)?;
        row += 1 + line_count(&told);
        push(&mut sessions, told)?;
        rest = behind;
    }
    read_nothing(row, rest)?;
    Ok(sessions)
}

/// Whether the first byte is that of the word `player`.
fn begins_players(bytes: &[u8]) -> bool
    ensures { result ≡ begins_players bytes.now }
{
    matches!(bytes, [b'p', ..])
}

/// The sessions that the bytes spell.
#[tactic(auto, unfolding(crate::specs::Reading::sheet_of))]
fn sheet_of(alloc: Global, bytes: &[u8]) -> Result<Sheet, InputFault>
    ensures { Gives tellings result (sheet_of bytes.now) }
{
    if begins_players(bytes) {
        let sessions = read_players(alloc, bytes)?;
        Ok(Sheet {
            joint: true,
            sessions,
        })
    } else {
        read_alone(alloc, bytes)
    }
}

/// The sessions that the bytes spell: one alone, or those of one to eight players. They are refused exactly where they are
/// no spelling, with the first bad line.
pub fn read_sessions(alloc: Global, bytes: &[u8]) -> Result<Sheet, InputFault>
    // What is read has a text, and the bytes are it.
    ensures found { IfOk result (λ s. HasToldText (tellings s)
        × (bytes.now ≡ sheet_text (tellings s))) }
    // What has a text is read from it.
    ensures again { (s : Tellings) → HasToldText s → bytes.now ≡ sheet_text s
        → Gives tellings result (Ok s) }
    // What is written of a session is read as its events and its counters.
    ensures written { (s : Shown) (w : Weighing) → IsTelling (telling_of s w)
        → bytes.now ≡ session_text s w → Gives tellings result (Ok (alone (telling_of s w))) }
    // Which line is the first bad one.
    ensures exact { Gives tellings result (sheet_of bytes.now) }
{
    sheet_of(alloc, bytes)
}
