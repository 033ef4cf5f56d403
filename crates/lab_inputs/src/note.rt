//! The line of a stop.

ghost use Rattle.std.specs.Prelude.{◌≡◌};
ghost use Rattle.lab_io.specs.Piece.{fields_line};
ghost use Rattle.lab_io.specs.Sink.{Puts};
ghost use Rattle.lab_inputs.specs.Notes.{fault_fields, key_word, kind_word, refusal_fields, setting_fields, stop_note};

use crate::role::Role;
use crate::stop::{FileFault, Setting, Stop};
use lab_io::Piece::{Number, Word};
use lab_io::{PutErr, Sink, put_fields, put_text};
use lab_model::{Key, Kind, Refusal};

fn kind_word(kind: Kind) -> &'static str
    ensures { result.now ≡ kind_word kind }
{
    match kind {
        Kind::NotJson => "not-json",
        Kind::NotCsv => "not-csv",
        Kind::MissingKey => "missing-key",
        Kind::WrongKind => "wrong-kind",
        Kind::NotWhole => "not-whole",
        Kind::OutOfRange => "out-of-range",
        Kind::Shape => "shape",
        Kind::Order => "order",
        Kind::Empty => "empty",
        Kind::TooSlow => "too-slow",
        Kind::CertLine => "bad-line",
    }
}

fn key_word(key: Key) -> &'static str
    ensures { result.now ≡ key_word key }
{
    match key {
        Key::Whole => "whole",
        Key::SegmentDuration => "segment_duration_ms",
        Key::Bitrates => "bitrates_kbps",
        Key::SegmentSizes => "segment_sizes_bits",
        Key::Header => "header",
        Key::Period => "period",
        Key::Duration => "duration_ms",
        Key::Bandwidth => "bandwidth_kbps",
        Key::Latency => "latency_ms",
        Key::Cycle => "cycle",
        Key::SeekRow => "seek",
        Key::SeekAt => "at_ms",
        Key::SeekTo => "to_segment",
        Key::Line => "line",
        Key::Utility => "utility",
    }
}

/// Says why a reader refused a file, and where.
fn put_refusal<E: Sink>(err: &mut E, why: Refusal) -> Result<(), PutErr>
    ensures { Puts (E.seen err.old) (fields_line (refusal_fields why)) (E.seen err.new) result }
{
    put_fields(
        err,
        &[
            Word(kind_word(why.kind)),
            Word("at"),
            Word(key_word(why.key)),
            Word("row"),
            Number(why.row as i128),
            Word("column"),
            Number(why.column as i128),
        ],
    )
}

/// Says what is wrong with a file.
fn put_fault<E: Sink>(err: &mut E, fault: FileFault) -> Result<(), PutErr>
    ensures { Puts (E.seen err.old) (fields_line (fault_fields fault)) (E.seen err.new) result }
{
    match fault {
        FileFault::NotRead => put_fields(err, &[Word("not read")]),
        FileFault::TooLong => put_fields(err, &[Word("too long")]),
        FileFault::Refused(why) => put_refusal(err, why),
    }
}

/// Says which rule does not fit.
fn put_rule<E: Sink>(err: &mut E, place: usize) -> Result<(), PutErr>
    ensures { Puts (E.seen err.old) (fields_line (setting_fields (Setting.Rule place)))
        (E.seen err.new) result }
{
    put_fields(err, &[Word("rule"), Number(place as i128)])
}

/// Says which setting does not fit.
fn put_setting<E: Sink>(err: &mut E, setting: Setting) -> Result<(), PutErr>
    ensures { Puts (E.seen err.old) (fields_line (setting_fields setting)) (E.seen err.new) result }
{
    match setting {
        Setting::Buffer => put_fields(err, &[Word("buffer")]),
        Setting::Utilities => put_fields(err, &[Word("utilities")]),
        Setting::Rule(place) => put_rule(err, place),
    }
}

/// Says what is wrong with a file, and what it is for.
fn put_file<E: Sink>(err: &mut E, role: Role, fault: FileFault) -> Result<(), PutErr>
    ensures { Puts (E.seen err.old) (stop_note (Stop.File role fault)) (E.seen err.new) result }
{
    put_text(err, "abrlab: ")?;
    role.put(err)?;
    put_text(err, " file: ")?;
    put_fault(err, fault)
}

/// Says that a setting does not fit.
fn put_settings<E: Sink>(err: &mut E, setting: Setting) -> Result<(), PutErr>
    ensures { Puts (E.seen err.old) (stop_note (Stop.Settings setting)) (E.seen err.new) result }
{
    put_text(err, "abrlab: settings: ")?;
    put_setting(err, setting)
}

/// Says why a command stopped before it wrote, as one line.
pub fn put_stop<E: Sink>(err: &mut E, stop: Stop) -> Result<(), PutErr>
    ensures { Puts (E.seen err.old) (stop_note stop) (E.seen err.new) result }
{
    match stop {
        Stop::File(role, fault) => put_file(err, role, fault),
        Stop::Settings(setting) => put_settings(err, setting),
    }
}
