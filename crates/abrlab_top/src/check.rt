//! `check`: the verdict on anybody's certificate.

ghost use Rattle.std.specs.Prelude.{◌≡◌, IfOk, List, Some, Ok, Err};
ghost use Rattle.std.specs.List.{slice_get};
ghost use Rattle.lab_io.specs.Piece.{fields_line};
ghost use Rattle.lab_io.specs.Sink.{Puts, Text};
ghost use Rattle.lab_model.specs.declared.trace.Period.{Period};
ghost use Rattle.lab_inputs.specs.Inputs.{InputValues};
ghost use Rattle.lab_inputs.specs.Roles.{film_files};
ghost use Rattle.lab_inputs.specs.Settings.{Fits, settled};
ghost use Rattle.lab_inputs.specs.Stages.{network_of};
ghost use Rattle.lab_model.specs.Reading.{Gives};
ghost use Rattle.certificate_text.specs.Walk.{IsBegun};
ghost use Rattle.abrlab_top.specs.Claim.{claim_begun};
ghost use Rattle.abrlab_top.specs.Check.{check, place_fields, verdict_ending, verdict_text, yes_line};
ghost use Rattle.abrlab_top.specs.Ending.{ended};
ghost use Rattle.abrlab_top.specs.Outcome.{about};
ghost use Rattle.abrlab_top.specs.Runs.{Ends};
ghost use Rattle.abrlab_top.specs.Stages.{Judges, Writes, bad_line, of_a_check};

use crate::ending::Ending;
use crate::request::CheckWords;
use crate::scene::scene_on;
use certificate_check::{Verdict, check_lines_from};
use certificate_text::Lines;
use lab_inputs::{FileFault, Inputs, Network, Role, Stop, read_inputs};
use lab_io::Piece::{Number, Word};
use lab_io::{PutErr, Shelf, Sink, put_fields, put_text};
use lab_model::InputFault;
use network_clock::Clock;
use std::alloc::Global;

/// What a certificate claims, and the verdict on it.
#[derive(Clone, Copy)]
pub(crate) struct Judgement {
    /// The score of its rung list, in thousandths of a point.
    pub score: i128,
    /// What no rung list is to have more than, in thousandths of a point.
    pub bound: i128,
    pub verdict: Verdict,
}

/// How a fault of a certificate of this role ends the command.
pub(crate) fn bad_line(role: Role, fault: InputFault) -> Ending
    ensures { result ≡ bad_line role fault }
{
    match fault {
        InputFault::Memory => Ending::NoMemory,
        InputFault::Refused(why) => Ending::Stopped(Stop::File(role, FileFault::Refused(why))),
    }
}

/// The lines of a certificate, plain or with a gap, behind those before its first layer.
fn begin(alloc: Global, gap: bool, bytes: &[u8]) -> Result<Lines<'_>, InputFault>
    ensures walk { Gives (λ lines. lines) result (claim_begun gap bytes.now) }
    ensures begun { IfOk result IsBegun }
{
    if gap {
        Lines::begin_gap(alloc, bytes)
    } else {
        Lines::begin(alloc, bytes)
    }
}

/// The verdict of lines that have just begun, on this network.
fn judge_lines(
    alloc: Global,
    inputs: &Inputs,
    network: &Network,
    gap: bool,
    lines: Lines<'_>,
) -> Result<Judgement, Ending>
    requires network { slice_get inputs.now.networks 0 ≡ Some (network_of network.now) }
    requires settled { settled inputs.now ≡ Ok inputs.now }
    requires fits { Fits inputs.now }
    requires lines { IsBegun lines }
    requires certificate { claim_begun gap inputs.now.certificate ≡ Ok lines }
    ensures { Judges gap inputs.now result }
{
    let clock = Clock::new(alloc, &network.trace)?;
    let score = lines.score();
    let bound = lines.bound();
    match check_lines_from(&scene_on(inputs, &clock), lines, bound) {
        Ok(verdict) => Ok(Judgement {
            score,
            bound,
            verdict,
        }),
        Err(fault) => Err(bad_line(Role::Certificate, fault)),
    }
}

/// How a setting that does not fit ends the command: a bad line of the certificate comes first.
fn misfit_behind(gap: bool, lines: Lines<'_>, why: Stop) -> Ending
    ensures { (i : InputValues) → (n : Text × List Period) → slice_get i.networks 0 ≡ Some n
        → settled i ≡ Err why
        → claim_begun gap i.certificate ≡ Ok lines.entry
        → Judges gap i (Err result) }
{
    match lines.read_rest() {
        Ok(()) => Ending::Stopped(why),
        Err(fault) => bad_line(Role::Certificate, fault),
    }
}

/// The verdict on the certificate, on this network.
fn judge(alloc: Global, inputs: &Inputs, network: &Network, gap: bool) -> Result<Judgement, Ending>
    requires network { slice_get inputs.now.networks 0 ≡ Some (network_of network.now) }
    ensures { Judges gap inputs.now result }
{
    let lines = match begin(alloc, gap, inputs.certificate()) {
        Ok(lines) => lines,
        Err(fault) => return Err(bad_line(Role::Certificate, fault)),
    };
    match inputs.fit() {
        Ok(()) => judge_lines(alloc, inputs, network, gap, lines),
        Err(stop) => Err(misfit_behind(gap, lines, stop)),
    }
}

/// Says a clause by its number, and a place where it fails.
fn put_failure<O: Sink>(
    out: &mut O,
    clause: u8,
    segment: u16,
    rung: u8,
    label: u32,
) -> Result<(), PutErr>
    ensures { Puts (O.seen out.old) (fields_line (place_fields clause segment rung label))
        (O.seen out.new) result }
{
    put_fields(
        out,
        &[
            Number(clause as i128),
            Word("segment"),
            Number(segment as i128),
            Word("rung"),
            Number(rung as i128),
            Word("label"),
            Number(label as i128),
        ],
    )
}

/// Says yes, with the score, and to a gap certificate with the bound.
fn put_yes<O: Sink>(out: &mut O, gap: bool, score: i128, bound: i128) -> Result<(), PutErr>
    ensures { Puts (O.seen out.old) (yes_line gap score bound) (O.seen out.new) result }
{
    if gap {
        put_fields(
            out,
            &[
                Word("yes"),
                Word("score"),
                Number(score),
                Word("bound"),
                Number(bound),
            ],
        )
    } else {
        put_fields(out, &[Word("yes"), Word("score"), Number(score)])
    }
}

/// Says yes, or no, with the first failing clause and its place.
fn put_judgement<O: Sink>(out: &mut O, gap: bool, said: Judgement) -> Result<(), PutErr>
    ensures { Puts (O.seen out.old)
        (verdict_text gap said.score said.bound said.verdict) (O.seen out.new) result }
{
    match said.verdict {
        Verdict::Yes => put_yes(out, gap, said.score, said.bound),
        Verdict::No {
            clause,
            segment,
            rung,
            label,
        } => {
            put_text(out, "no V")?;
            put_failure(out, clause, segment, rung, label)
        }
    }
}

/// That the verdict is yes, or the ending of a run that says no.
fn verdict_end(verdict: Verdict) -> Result<(), Ending>
    ensures { ended result ≡ verdict_ending verdict }
{
    match verdict {
        Verdict::Yes => Ok(()),
        Verdict::No { .. } => Err(Ending::Invalid),
    }
}

/// Checks the certificate and writes the verdict.
fn write_verdict<O: Sink>(
    alloc: Global,
    inputs: &Inputs,
    gap: bool,
    out: &mut O,
) -> Result<(), Ending>
    ensures { Writes of_a_check (check gap inputs.now)
        (O.seen out.old) (ended result) (O.seen out.new) }
{
    let Some(network) = inputs.network() else {
        return Ok(());
    };
    let said = judge(alloc, inputs, network, gap)?;
    put_judgement(out, gap, said)?;
    verdict_end(said.verdict)
}

/// Reads the files, checks the certificate and writes the verdict.
pub(crate) fn check<F: Shelf, O: Sink>(
    alloc: Global,
    words: CheckWords,
    shelf: &mut F,
    out: &mut O,
) -> Result<(), Ending>
    ensures { Ends (film_files words) of_a_check (about (check words.gap) words)
        (F.shelved shelf.old) (O.seen out.old) (ended result)
        (F.shelved shelf.new) (O.seen out.new) }
{
    let gap = words.gap();
    let inputs = read_inputs(alloc, shelf, words.into_film_words())?;
    write_verdict(alloc, &inputs, gap, out)
}
