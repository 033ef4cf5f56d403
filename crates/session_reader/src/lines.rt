//! The lines of a session's text, read one after the other.
ghost use Rattle.std.specs.Prelude.{◌≡◌, ◌+◌, ◌≤◌, IfOk};
ghost use Rattle.lab_model.specs.Reading.{Gives};
ghost use Rattle.certificate_text.specs.Line.{read_line};
ghost use Rattle.session_reader.specs.Grammar.{abandon_line, arrive_line, counter_line, end_event_line, play_line, told_player_line, request_line, seek_line, stall_line};
ghost use Rattle.session_reader.specs.Reading.{abandon_event, arrive_event, end_event, play_event, read_line_as, read_counters, read_event, request_event, seek_event, stall_event};

use crate::told::Counters;
use certificate_text::{RUNG_DIGITS, read_amount, read_known, read_number, read_word};
use lab_model::InputFault;
use player_core::Event;

/// The most digits of a time in milliseconds.
const TIME_DIGITS: usize = 15;
/// The most digits of a segment's number.
const SEGMENT_DIGITS: usize = 4;
/// The most digits of the bits of one download, or of a number of stalls.
const PART_DIGITS: usize = 9;
/// The most digits of the bits of many downloads, or of a rate.
const BITS_DIGITS: usize = 18;

/// The line of a request.
#[tactic(auto, unfolding(certificate_text::specs::Line::read_line))]
fn request_event(row: u32, bytes: &[u8]) -> Result<(Event, &[u8]), InputFault>
    ensures { Gives (λ x. (x.0, x.1.now)) result (read_line_as request_line request_event row bytes.now) }
{
    let (at, rest) = read_number(row, TIME_DIGITS, b' ', bytes)?;
    let rest = read_word(row, "request", b' ', rest)?;
    let (segment, rest) = read_number(row, SEGMENT_DIGITS, b' ', rest)?;
    let (rung, rest) = read_number(row, RUNG_DIGITS, b'\n', rest)?;
    let request = Event::Request {
        at,
        segment: segment as u16,
        rung: rung as u8,
    };
    Ok((request, rest))
}

/// The line of an arrival.
#[tactic(auto, unfolding(certificate_text::specs::Line::read_line))]
fn read_arrive(row: u32, bytes: &[u8]) -> Result<(Event, &[u8]), InputFault>
    ensures { Gives (λ x. (x.0, x.1.now)) result (read_line_as arrive_line arrive_event row bytes.now) }
{
    let (at, rest) = read_number(row, TIME_DIGITS, b' ', bytes)?;
    let rest = read_word(row, "arrive", b' ', rest)?;
    let (segment, rest) = read_number(row, SEGMENT_DIGITS, b' ', rest)?;
    let (rung, rest) = read_number(row, RUNG_DIGITS, b' ', rest)?;
    let rest = read_word(row, "first", b' ', rest)?;
    let (first, rest) = read_number(row, TIME_DIGITS, b' ', rest)?;
    let rest = read_word(row, "rate", b' ', rest)?;
    let (rate, rest) = read_number(row, BITS_DIGITS, b'\n', rest)?;
    let arrival = Event::Arrive {
        at,
        segment: segment as u16,
        rung: rung as u8,
        first,
        rate,
    };
    Ok((arrival, rest))
}

/// The line of an abandonment.
#[tactic(auto, unfolding(certificate_text::specs::Line::read_line))]
fn read_abandon(row: u32, bytes: &[u8]) -> Result<(Event, &[u8]), InputFault>
    ensures { Gives (λ x. (x.0, x.1.now)) result (read_line_as abandon_line abandon_event row bytes.now) }
{
    let (at, rest) = read_number(row, TIME_DIGITS, b' ', bytes)?;
    let rest = read_word(row, "abandon", b' ', rest)?;
    let (segment, rest) = read_number(row, SEGMENT_DIGITS, b' ', rest)?;
    let (rung, rest) = read_number(row, RUNG_DIGITS, b' ', rest)?;
    let rest = read_word(row, "to", b' ', rest)?;
    let (to, rest) = read_number(row, RUNG_DIGITS, b' ', rest)?;
    let rest = read_word(row, "got", b' ', rest)?;
    let (got, rest) = read_number(row, PART_DIGITS, b'\n', rest)?;
    let abandonment = Event::Abandon {
        at,
        segment: segment as u16,
        rung: rung as u8,
        to: to as u8,
        got: got as u32,
    };
    Ok((abandonment, rest))
}

/// The line of a seek.
#[tactic(auto, unfolding(certificate_text::specs::Line::read_line))]
fn read_seek(row: u32, bytes: &[u8]) -> Result<(Event, &[u8]), InputFault>
    ensures { Gives (λ x. (x.0, x.1.now)) result (read_line_as seek_line seek_event row bytes.now) }
{
    let (at, rest) = read_number(row, TIME_DIGITS, b' ', bytes)?;
    let rest = read_word(row, "seek", b' ', rest)?;
    let (to, rest) = read_number(row, SEGMENT_DIGITS, b' ', rest)?;
    let rest = read_word(row, "wasted", b' ', rest)?;
    let (wasted, rest) = read_number(row, BITS_DIGITS, b'\n', rest)?;
    let seek = Event::Seek {
        at,
        to: to as u16,
        wasted,
    };
    Ok((seek, rest))
}

/// The line of a segment that begins to play.
#[tactic(auto, unfolding(certificate_text::specs::Line::read_line))]
fn read_play(row: u32, bytes: &[u8]) -> Result<(Event, &[u8]), InputFault>
    ensures { Gives (λ x. (x.0, x.1.now)) result (read_line_as play_line play_event row bytes.now) }
{
    let (at, rest) = read_number(row, TIME_DIGITS, b' ', bytes)?;
    let rest = read_word(row, "play", b' ', rest)?;
    let (segment, rest) = read_number(row, SEGMENT_DIGITS, b' ', rest)?;
    let (rung, rest) = read_number(row, RUNG_DIGITS, b'\n', rest)?;
    let play = Event::Play {
        at,
        segment: segment as u16,
        rung: rung as u8,
    };
    Ok((play, rest))
}

/// The line of a stall.
#[tactic(auto, unfolding(certificate_text::specs::Line::read_line))]
fn read_stall(row: u32, bytes: &[u8]) -> Result<(Event, &[u8]), InputFault>
    ensures { Gives (λ x. (x.0, x.1.now)) result (read_line_as stall_line stall_event row bytes.now) }
{
    let (at, rest) = read_number(row, TIME_DIGITS, b' ', bytes)?;
    let rest = read_word(row, "stall", b'\n', rest)?;
    Ok((Event::Stall { at }, rest))
}

/// The line of the end.
#[tactic(auto, unfolding(certificate_text::specs::Line::read_line))]
fn end_event(row: u32, bytes: &[u8]) -> Result<(Event, &[u8]), InputFault>
    ensures { Gives (λ x. (x.0, x.1.now)) result (read_line_as end_event_line end_event row bytes.now) }
{
    let (at, rest) = read_number(row, TIME_DIGITS, b' ', bytes)?;
    let rest = read_word(row, "end", b'\n', rest)?;
    Ok((Event::End { at }, rest))
}

/// The line of an event: the first of seven forms that it has.
#[tactic(auto, unfolding(crate::specs::Reading::read_event))]
pub(crate) fn read_event(row: u32, bytes: &[u8]) -> Result<(Event, &[u8]), InputFault>
    ensures { Gives (λ x. (x.0, x.1.now)) result (read_event row bytes.now) }
{
    match request_event(row, bytes) {
        Err(InputFault::Refused(_)) => {}
        read => return read,
    }
    match read_arrive(row, bytes) {
        Err(InputFault::Refused(_)) => {}
        read => return read,
    }
    match read_abandon(row, bytes) {
        Err(InputFault::Refused(_)) => {}
        read => return read,
    }
    match read_seek(row, bytes) {
        Err(InputFault::Refused(_)) => {}
        read => return read,
    }
    match read_play(row, bytes) {
        Err(InputFault::Refused(_)) => {}
        read => return read,
    }
    match read_stall(row, bytes) {
        Err(InputFault::Refused(_)) => {}
        read => return read,
    }
    end_event(row, bytes)
}

/// The line of a counter: its word and a number of at most so many digits, 18 or fewer.
#[tactic(auto, unfolding(certificate_text::specs::Line::read_line))]
fn read_counter<'a>(
    row: u32,
    word: &str,
    digits: usize,
    bytes: &'a [u8],
) -> Result<(u64, &'a [u8]), InputFault>
    requires { digits ≤ 18 }
    ensures { Gives (λ x. ((x.0, tt), x.1.now)) result
        (read_line row (counter_line word.now digits) bytes.now) }
{
    let rest = read_word(row, word, b' ', bytes)?;
    read_number(row, digits, b'\n', rest)
}

/// The lines of the seven counters.
#[tactic(auto, unfolding(crate::specs::Reading::read_counters))]
pub(crate) fn read_counters(row: u32, bytes: &[u8]) -> Result<(Counters, &[u8]), InputFault>
    requires { row ≤ 4000000000 }
    ensures { Gives (λ x. (x.0, x.1.now)) result (read_counters row bytes.now) }
{
    let (startup_ms, rest) = read_counter(row, "startup", TIME_DIGITS, bytes)?;
    let (stall_ms, rest) = read_counter(row + 1, "stall", TIME_DIGITS, rest)?;
    let (stalls, rest) = read_counter(row + 2, "stalls", PART_DIGITS, rest)?;
    let (seek_ms, rest) = read_counter(row + 3, "seeking", TIME_DIGITS, rest)?;
    let (wasted_bits, rest) = read_counter(row + 4, "wasted", BITS_DIGITS, rest)?;
    let (end, rest) = read_counter(row + 5, "end", TIME_DIGITS, rest)?;
    let (score, rest) = read_amount(row + 6, "score", rest)?;
    let counters = Counters {
        startup_ms,
        stall_ms,
        stalls,
        seek_ms,
        wasted_bits,
        end,
        score,
    };
    Ok((counters, rest))
}

/// The line before the session of a player.
#[tactic(auto, unfolding(certificate_text::specs::Line::read_line))]
pub(crate) fn read_player(row: u32, number: u32, bytes: &[u8]) -> Result<&[u8], InputFault>
    ensures { Gives (λ rest. (tt, rest.now)) result (read_line row (told_player_line number) bytes.now) }
{
    let rest = read_word(row, "player", b' ', bytes)?;
    read_known(row, number, b'\n', rest)
}
