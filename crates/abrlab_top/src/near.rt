//! `plan --near` and `check --near`: a rung list with a bound by prices, or its certificate; and the verdict on anybody's.

ghost use Rattle.std.specs.Prelude.{◌≡◌, ◌∷◌, [], codes};
ghost use Rattle.std.specs.Fmt.{decimal, signed_decimal};
ghost use Rattle.lab_io.specs.Piece.{fields_line};
ghost use Rattle.lab_io.specs.Sink.{Puts};
ghost use Rattle.lab_inputs.specs.Roles.{film_files};
ghost use Rattle.price_bounds.specs.Verdict.{price_parts};
ghost use Rattle.price_bounds.specs.declared.verdict.PriceVerdict.TheVariants.{Yes};
ghost use Rattle.price_text.specs.Form.{IsPrices};
ghost use Rattle.abrlab_top.specs.Chosen.{EndsNear, WritesNear};
ghost use Rattle.abrlab_top.specs.Ending.{ended};
ghost use Rattle.abrlab_top.specs.Near.{near_check, near_lines, near_text, price_ending, price_verdict_text};
ghost use Rattle.abrlab_top.specs.Outcome.{about};
ghost use Rattle.abrlab_top.specs.Runs.{Ends};
ghost use Rattle.abrlab_top.specs.Stages.{Writes, of_a_price_check};

use crate::check::bad_line;
use crate::ending::Ending;
use crate::plan::put_bound;
use crate::request::PriceCheckWords;
use crate::scene::scene_on;
use certificate_text::{put_plan, put_score};
use lab_inputs::{FilmWords, Inputs, Role, read_inputs};
use lab_io::Piece::{Number, Word};
use lab_io::{PutErr, Shelf, Sink, put_fields};
use near_best::near_best;
use network_clock::Clock;
use price_bounds::{PriceCertificate, PriceVerdict, check_prices};
use price_text::{read_prices, write_prices};
use std::alloc::Global;

/// Writes the three lines of a rung list with its score and a bound.
fn put_near_lines<O: Sink>(out: &mut O, certificate: &PriceCertificate) -> Result<(), PutErr>
    ensures { Puts (O.seen out.old)
        (near_lines certificate.now.score certificate.now.bound certificate.now.plan.items)
        (O.seen out.new) result }
{
    put_score(out, certificate.score)?;
    put_bound(out, certificate.bound)?;
    put_plan(out, &certificate.plan)
}

/// Writes what is asked for of a certificate by prices.
fn put_near<O: Sink>(
    out: &mut O,
    certificate: &PriceCertificate,
    as_certificate: bool,
) -> Result<(), PutErr>
    requires form { IsPrices (price_parts certificate.now) }
    ensures { Puts (O.seen out.old) (near_text as_certificate (price_parts certificate.now))
        (O.seen out.new) result }
{
    if as_certificate {
        write_prices(certificate, out)
    } else {
        put_near_lines(out, certificate)
    }
}

/// Searches for a rung list and a bound, and writes them, or the certificate of both.
fn write_near<O: Sink>(
    alloc: Global,
    inputs: &Inputs,
    as_certificate: bool,
    out: &mut O,
) -> Result<(), Ending>
    ensures { WritesNear as_certificate inputs.now
        (O.seen out.old) (ended result) (O.seen out.new) }
{
    let Some(network) = inputs.network() else {
        return Ok(());
    };
    inputs.fit()?;
    let clock = Clock::new(alloc, &network.trace)?;
    let scene = scene_on(inputs, &clock);
    let certificate = near_best(alloc, &scene)?;
    Ok(put_near(out, &certificate, as_certificate)?)
}

/// Reads the files, searches and writes what was found.
pub(crate) fn near_plan<F: Shelf, O: Sink>(
    alloc: Global,
    words: FilmWords,
    as_certificate: bool,
    shelf: &mut F,
    out: &mut O,
) -> Result<(), Ending>
    ensures { EndsNear as_certificate words
        (F.shelved shelf.old) (O.seen out.old) (ended result)
        (F.shelved shelf.new) (O.seen out.new) }
{
    let inputs = read_inputs(alloc, shelf, words)?;
    write_near(alloc, &inputs, as_certificate, out)
}

/// Says yes, with the score and the bound.
fn put_price_yes<O: Sink>(out: &mut O, score: i128, bound: i128) -> Result<(), PutErr>
    ensures { Puts (O.seen out.old) (price_verdict_text score bound Yes) (O.seen out.new) result }
{
    put_fields(
        out,
        &[
            Word("yes"),
            Word("score"),
            Number(score),
            Word("bound"),
            Number(bound),
        ],
    )
}

/// Says no: at this place the list or the windows are out of range.
fn put_bad_place<O: Sink>(out: &mut O, kind: &'static str, place: u16) -> Result<(), PutErr>
    ensures { Puts (O.seen out.old)
        (fields_line (codes "no" ∷ codes "P2" ∷ kind.now ∷ decimal place ∷ []))
        (O.seen out.new) result }
{
    put_fields(
        out,
        &[Word("no"), Word("P2"), Word(kind), Number(place as i128)],
    )
}

/// Says no: this number is another.
fn put_other_number<O: Sink>(
    out: &mut O,
    test: &'static str,
    kind: &'static str,
    number: i128,
) -> Result<(), PutErr>
    ensures { Puts (O.seen out.old)
        (fields_line (codes "no" ∷ test.now ∷ kind.now ∷ signed_decimal number ∷ []))
        (O.seen out.new) result }
{
    put_fields(out, &[Word("no"), Word(test), Word(kind), Number(number)])
}

/// Says the verdict on a certificate with this score and bound.
fn put_price_verdict<O: Sink>(
    out: &mut O,
    score: i128,
    bound: i128,
    verdict: PriceVerdict,
) -> Result<(), PutErr>
    ensures { Puts (O.seen out.old) (price_verdict_text score bound verdict)
        (O.seen out.new) result }
{
    match verdict {
        PriceVerdict::Yes => put_price_yes(out, score, bound),
        PriceVerdict::OtherFilm => put_fields(out, &[Word("no"), Word("P1")]),
        PriceVerdict::BadRung { segment } => put_bad_place(out, "segment", segment),
        PriceVerdict::BadWindow { window } => put_bad_place(out, "window", window),
        PriceVerdict::BoundAbove { bound } => put_other_number(out, "P3", "bound", bound),
        PriceVerdict::OtherScore { score } => put_other_number(out, "P4", "score", score),
    }
}

/// That the verdict is yes, or the ending of a run that says no.
fn price_end(verdict: PriceVerdict) -> Result<(), Ending>
    ensures { ended result ≡ price_ending verdict }
{
    match verdict {
        PriceVerdict::Yes => Ok(()),
        PriceVerdict::OtherFilm
        | PriceVerdict::BadRung { .. }
        | PriceVerdict::BadWindow { .. }
        | PriceVerdict::BoundAbove { .. }
        | PriceVerdict::OtherScore { .. } => Err(Ending::Invalid),
    }
}

/// Checks the certificate by prices and writes the verdict.
fn write_price_verdict<O: Sink>(alloc: Global, inputs: &Inputs, out: &mut O) -> Result<(), Ending>
    ensures { Writes of_a_price_check (near_check inputs.now)
        (O.seen out.old) (ended result) (O.seen out.new) }
{
    let Some(network) = inputs.network() else {
        return Ok(());
    };
    let certificate = match read_prices(alloc, inputs.certificate()) {
        Ok(certificate) => certificate,
        Err(fault) => return Err(bad_line(Role::PriceCertificate, fault)),
    };
    inputs.fit()?;
    let clock = Clock::new(alloc, &network.trace)?;
    let scene = scene_on(inputs, &clock);
    let verdict = check_prices(alloc, &scene, &certificate)?;
    put_price_verdict(out, certificate.score, certificate.bound, verdict)?;
    price_end(verdict)
}

/// Reads the files, checks the certificate by prices and writes the verdict.
pub(crate) fn price_check<F: Shelf, O: Sink>(
    alloc: Global,
    words: PriceCheckWords,
    shelf: &mut F,
    out: &mut O,
) -> Result<(), Ending>
    ensures { Ends (film_files words) of_a_price_check (about near_check words)
        (F.shelved shelf.old) (O.seen out.old) (ended result)
        (F.shelved shelf.new) (O.seen out.new) }
{
    let inputs = read_inputs(alloc, shelf, words.into_film_words())?;
    write_price_verdict(alloc, &inputs, out)
}
