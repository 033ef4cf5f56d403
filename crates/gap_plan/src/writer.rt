//! Gap certificates that are written.

ghost use Rattle.lab_io.specs.Sink.{Puts};
ghost use Rattle.certificate_text.specs.Form.{IsGapCertificate};
ghost use Rattle.certificate_text.specs.Spelling.{gap_spelling};
ghost use Rattle.gap_plan.specs.Gap.{plan_gap};

use certificate_text::{put_gap, write_certificate};
use frontier_planner::CoarsePlan;
use lab_io::{PutErr, Sink};
use lab_model::Manifest;

/// Puts the text of the gap certificate of a coarse plan for this film, line by line, and takes no memory of its own.
///
/// The plan's counts are the film's, and its numbers have no more digits than the text allows: 24 for the bound. After an
/// `Err` a prefix of the text went out.
pub fn write_gap<O: Sink>(film: &Manifest, coarse: &CoarsePlan, out: &mut O) -> Result<(), PutErr>
    requires { IsGapCertificate (plan_gap film.now coarse.now) }
    ensures { Puts (O.seen out.old) (gap_spelling (plan_gap film.now coarse.now))
        (O.seen out.new) result }
{
    put_gap(out, coarse.bound)?;
    write_certificate(film, &coarse.plan, out)
}
