//! Certificates by prices that are written.
ghost use Rattle.std.specs.Prelude.{◌≤◌, length, map};
ghost use Rattle.lab_io.specs.Piece.{fields_line};
ghost use Rattle.lab_io.specs.Sink.{Puts};
ghost use Rattle.certificate_text.specs.Line.{fields_of};
ghost use Rattle.certificate_text.specs.Spelling.{lines_text};
ghost use Rattle.price_bounds.specs.Verdict.{price_parts};
ghost use Rattle.price_bounds.specs.Windows.{most_windows};
ghost use Rattle.price_text.specs.Form.{IsPrices};
ghost use Rattle.price_text.specs.Grammar.{prices_line, windows_line};
ghost use Rattle.price_text.specs.Spelling.{count_lines, prices_text, value_lines, window_fields, window_lines};

use certificate_text::{put_bound, put_count, put_plan, put_score};
use lab_io::Piece::{Number, Word};
use lab_io::{PutErr, Sink, put_fields, put_line};
use price_bounds::{PriceCertificate, Window};

/// The first line, which tells the form of the text.
fn put_first_line<O: Sink>(out: &mut O) -> Result<(), PutErr>
    ensures { Puts (O.seen out.old) (fields_line (fields_of prices_line tt))
        (O.seen out.new) result }
{
    put_fields(out, &[Word("abrlab"), Word("prices"), Number(1)])
}

/// The first lines: the form and the counts.
fn put_counts<O: Sink>(out: &mut O, certificate: &PriceCertificate) -> Result<(), PutErr>
    ensures { Puts (O.seen out.old) (lines_text (count_lines (price_parts certificate.now)))
        (O.seen out.new) result }
{
    put_first_line(out)?;
    put_count(out, "segments", certificate.segments)?;
    put_count(out, "rungs", u16::from(certificate.rungs))
}

/// The lines of the score, the bound and the rung list.
fn put_values<O: Sink>(out: &mut O, certificate: &PriceCertificate) -> Result<(), PutErr>
    ensures { Puts (O.seen out.old) (lines_text (value_lines (price_parts certificate.now)))
        (O.seen out.new) result }
{
    put_score(out, certificate.score)?;
    put_bound(out, certificate.bound)?;
    put_plan(out, &certificate.plan)
}

/// The line of a window.
fn put_window<O: Sink>(out: &mut O, window: Window) -> Result<(), PutErr>
    ensures { Puts (O.seen out.old) (fields_line (window_fields window))
        (O.seen out.new) result }
{
    put_fields(
        out,
        &[
            Number(window.first as i128),
            Number(window.last as i128),
            Number(window.price as i128),
        ],
    )
}

/// The lines of the windows, one for each.
fn put_each_window<O: Sink>(out: &mut O, windows: &[Window]) -> Result<(), PutErr>
    ensures { Puts (O.seen out.old) (lines_text (map window_fields windows.now))
        (O.seen out.new) result }
{
    for window in windows {
        put_window(out, *window)?;
    }
    Ok(())
}

/// The lines of the windows: how many they are, and one for each.
fn put_windows<O: Sink>(out: &mut O, windows: &[Window]) -> Result<(), PutErr>
    requires { length windows.now ≤ most_windows }
    ensures { Puts (O.seen out.old) (lines_text (window_lines windows.now))
        (O.seen out.new) result }
{
    put_count(out, "windows", windows.len() as u16)?;
    put_each_window(out, windows)
}

/// Puts the text of a certificate by prices, line by line, and takes no memory of its own.
///
/// The certificate's counts are within the limits, and its numbers have no more digits than the text allows. After an
/// `Err` a prefix of the text went out, as for every writer.
pub fn write_prices<O: Sink>(certificate: &PriceCertificate, out: &mut O) -> Result<(), PutErr>
    requires { IsPrices (price_parts certificate.now) }
    ensures { Puts (O.seen out.old) (prices_text (price_parts certificate.now))
        (O.seen out.new) result }
{
    put_counts(out, certificate)?;
    put_values(out, certificate)?;
    put_windows(out, &certificate.windows)?;
    put_line(out, "end")
}
