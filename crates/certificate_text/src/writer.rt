//! Certificates that are written.
ghost use Rattle.std.specs.Prelude.{◌≡◌, ◌∷◌, ◌++◌, ◌*◌, [], drop, length, map, take};
ghost use Rattle.std.specs.Fmt.{decimal};
ghost use Rattle.lab_io.specs.Piece.{fields_line, later_fields};
ghost use Rattle.lab_io.specs.Batch.{Gathers};
ghost use Rattle.lab_io.specs.Sink.{Puts};
ghost use Rattle.lab_model.specs.Film.{rungs_of, segments_of};
ghost use Rattle.labels.specs.Parts.{chain_parts, plan_parts};
ghost use Rattle.certificate_text.specs.Line.{fields_of};
ghost use Rattle.certificate_text.specs.Grammar.{gap_bound_line, plan_line, rungs_line, score_line, segments_line, start_line, version_line};
ghost use Rattle.labels.specs.Form.{IsCertificate};
ghost use Rattle.certificate_text.specs.Spelling.{chain_lines, chains_lines, gap_lines, head_lines, label_fields, label_lines, layer_fields, lines_text, spelling, table_lines, version_fields, version_number};

use crate::chains::names_per;
use lab_io::Piece::{Number, Word};
use lab_io::{Batch, PutErr, Sink, put_fields, put_line, put_number, put_text};
use lab_model::{Label, Manifest};
use labels::{Chain, Plan};

/// A number that isn't the first of its line.
fn put_later_number<O: Sink>(out: &mut O, n: u32) -> Result<(), PutErr>
    ensures { Puts (O.seen out.old) (32 ∷ decimal n) (O.seen out.new) result }
{
    put_text(out, " ")?;
    put_number(out, n as i128)
}

/// The numbers that end a line.
fn put_numbers<O: Sink>(out: &mut O, numbers: &[u32]) -> Result<(), PutErr>
    ensures { Puts (O.seen out.old) (later_fields (map decimal numbers.now))
        (O.seen out.new) result }
{
    for number in numbers {
        put_later_number(out, *number)?;
    }
    put_text(out, "\n")
}

/// The rungs that end a line.
fn put_rungs<O: Sink>(out: &mut O, rungs: &[u8]) -> Result<(), PutErr>
    ensures { Puts (O.seen out.old) (later_fields (map decimal rungs.now)) (O.seen out.new) result }
{
    for rung in rungs {
        put_later_number(out, u32::from(*rung))?;
    }
    put_text(out, "\n")
}

/// Puts the line of a rung list: `plan` and its numbers. It takes no memory of its own; after an `Err` a prefix went out.
pub fn put_plan<O: Sink>(out: &mut O, rungs: &[u8]) -> Result<(), PutErr>
    ensures { Puts (O.seen out.old)
        (fields_line (fields_of (plan_line (length rungs.now)) rungs.now)) (O.seen out.new) result }
{
    put_text(out, "plan")?;
    put_rungs(out, rungs)
}

/// The line of the starts.
fn put_starts<O: Sink>(out: &mut O, starts: &[u32]) -> Result<(), PutErr>
    ensures { Puts (O.seen out.old)
        (fields_line (fields_of (start_line (length starts.now)) starts.now))
        (O.seen out.new) result }
{
    put_text(out, "start")?;
    put_numbers(out, starts)
}

/// The number of the version: 2 for a setup with a utility table.
fn version_number(table: bool) -> u16
    ensures { result ≡ version_number table }
{
    if table { 2 } else { 1 }
}

/// The first line.
fn put_version<O: Sink>(out: &mut O, version: u16) -> Result<(), PutErr>
    ensures { Puts (O.seen out.old) (fields_line (fields_of version_line (version, tt)))
        (O.seen out.new) result }
{
    put_fields(
        out,
        &[Word("abrlab"), Word("certificate"), Number(version as i128)],
    )
}

/// Puts the line of a word and a count. It takes no memory of its own; after an `Err` a prefix went out.
pub fn put_count<O: Sink>(out: &mut O, word: &str, count: u16) -> Result<(), PutErr>
    ensures { Puts (O.seen out.old) (fields_line (word.now ∷ decimal count ∷ []))
        (O.seen out.new) result }
{
    put_fields(out, &[Word(word), Number(count as i128)])
}

/// Puts the line of a score, in thousandths of a point: `score` and the number. It takes no memory of its own; after an `Err` a
/// prefix went out.
pub fn put_score<O: Sink>(out: &mut O, score: i128) -> Result<(), PutErr>
    ensures { Puts (O.seen out.old) (fields_line (fields_of score_line (score, tt)))
        (O.seen out.new) result }
{
    put_fields(out, &[Word("score"), Number(score)])
}

/// Puts the two lines that stand before the others in a gap certificate: `abrlab gap 1`, and `bound` with the bound in
/// thousandths of a point. It takes no memory of its own; after an `Err` a prefix went out.
pub fn put_gap<O: Sink>(out: &mut O, bound: i128) -> Result<(), PutErr>
    ensures { Puts (O.seen out.old) (lines_text (gap_lines bound)) (O.seen out.new) result }
{
    put_fields(out, &[Word("abrlab"), Word("gap"), Number(1)])?;
    put_bound(out, bound)
}

/// Puts the line of a bound, in thousandths of a point: `bound` and the number. It takes no memory of its own; after an
/// `Err` a prefix went out.
pub fn put_bound<O: Sink>(out: &mut O, bound: i128) -> Result<(), PutErr>
    ensures { Puts (O.seen out.old) (fields_line (fields_of gap_bound_line (bound, tt)))
        (O.seen out.new) result }
{
    put_fields(out, &[Word("bound"), Number(bound)])
}

/// The line of version 2.
fn put_table<O: Sink>(out: &mut O, table: bool) -> Result<(), PutErr>
    ensures { Puts (O.seen out.old) (lines_text (table_lines table)) (O.seen out.new) result }
{
    if table {
        put_fields(out, &[Word("utilities"), Word("table")])?;
    }
    Ok(())
}

/// The lines of version and counts.
fn put_counts<O: Sink>(out: &mut O, film: &Manifest, table: bool) -> Result<(), PutErr>
    ensures { Puts (O.seen out.old)
        (fields_line (version_fields table)
        ++ (fields_line (fields_of segments_line (segments_of film.now, tt))
        ++ (fields_line (fields_of rungs_line (rungs_of film.now, tt))
        ++ lines_text (table_lines table)))) (O.seen out.new) result }
{
    put_version(out, version_number(table))?;
    put_count(out, "segments", film.segments())?;
    put_count(out, "rungs", u16::from(film.rungs()))?;
    put_table(out, table)
}

/// The lines before the chains.
fn put_head<O: Sink>(out: &mut O, film: &Manifest, plan: &Plan) -> Result<(), PutErr>
    ensures { Puts (O.seen out.old) (lines_text (head_lines (plan_parts film.now plan.now)))
        (O.seen out.new) result }
{
    put_counts(out, film, plan.table)?;
    put_score(out, plan.score)?;
    put_plan(out, &plan.rungs)?;
    put_starts(out, &plan.starts)
}

/// A name of a label.
fn put_name<O: Sink>(batch: &mut Batch, out: &mut O, name: u32) -> Result<(), PutErr>
    ensures { Gathers (O.seen out.old) batch.old (32 ∷ decimal name)
        (O.seen out.new) batch.new result }
{
    batch.put_text(out, " ")?;
    batch.put_count(out, u64::from(name))
}

/// The names that end the line of a label.
fn put_names<O: Sink>(batch: &mut Batch, out: &mut O, names: &[u32]) -> Result<(), PutErr>
    ensures { Gathers (O.seen out.old) batch.old (later_fields (map decimal names.now))
        (O.seen out.new) batch.new result }
{
    for name in names {
        put_name(batch, out, *name)?;
    }
    batch.put_text(out, "\n")
}

/// The line of a label.
fn put_label<O: Sink>(
    batch: &mut Batch,
    out: &mut O,
    label: Label,
    names: &[u32],
) -> Result<(), PutErr>
    ensures { Gathers (O.seen out.old) batch.old (fields_line (label_fields label names.now))
        (O.seen out.new) batch.new result }
{
    batch.put_count(out, label.t)?;
    batch.put_text(out, " ")?;
    batch.put_count(out, label.p)?;
    batch.put_text(out, " ")?;
    batch.put_number(out, label.v)?;
    put_names(batch, out, names)
}

/// The names of a label, which are so many, and those of the labels behind it.
fn split_names(per: usize, names: &[u32]) -> (&[u32], &[u32])
    ensures own { result.0.now ≡ take per names.now }
    ensures later { result.1.now ≡ drop per names.now }
{
    names.split_at(per.min(names.len()))
}

/// The lines of the labels, each with so many of the names.
fn batch_labels<O: Sink>(
    batch: &mut Batch,
    out: &mut O,
    per: usize,
    labels: &[Label],
    names: &[u32],
) -> Result<(), PutErr>
    ensures { Gathers (O.seen out.old) batch.old (lines_text (label_lines per labels.now names.now))
        (O.seen out.new) batch.new result }
{
    let mut names = names;
    for label in labels {
        let (own, later) = split_names(per, names);
        put_label(batch, out, *label, own)?;
        names = later;
    }
    Ok(())
}

/// The same, many of them in one piece.
fn put_labels<O: Sink>(
    out: &mut O,
    per: usize,
    labels: &[Label],
    names: &[u32],
) -> Result<(), PutErr>
    ensures { Puts (O.seen out.old) (lines_text (label_lines per labels.now names.now))
        (O.seen out.new) result }
{
    let mut batch = Batch::new();
    batch_labels(&mut batch, out, per, labels, names)?;
    batch.finish(out)
}

/// The line before the labels of a chain.
fn put_layer<O: Sink>(out: &mut O, segment: usize, rung: usize, count: usize) -> Result<(), PutErr>
    ensures { Puts (O.seen out.old) (fields_line (layer_fields segment rung count))
        (O.seen out.new) result }
{
    put_fields(
        out,
        &[
            Word("layer"),
            Number(segment as i128),
            Number(rung as i128),
            Number(count as i128),
        ],
    )
}

/// The lines of a chain, whose labels have so many names each.
fn put_chain<O: Sink>(
    out: &mut O,
    per: usize,
    segment: usize,
    rung: usize,
    chain: &Chain,
) -> Result<(), PutErr>
    ensures { Puts (O.seen out.old)
        (lines_text (chain_lines per segment rung (chain_parts chain.now)))
        (O.seen out.new) result }
{
    let labels = chain.labels.as_slice();
    put_layer(out, segment, rung, labels.len())?;
    put_labels(out, per, labels, &chain.names)
}

/// The lines of the chains, by segment, then rung.
fn put_chains<O: Sink>(out: &mut O, film: &Manifest, chains: &[Chain]) -> Result<(), PutErr>
    requires { length chains.now ≡ segments_of film.now * rungs_of film.now }
    ensures { Puts (O.seen out.old)
        (lines_text (chains_lines (segments_of film.now) (rungs_of film.now) 0
        (map chain_parts chains.now))) (O.seen out.new) result }
{
    let segments = film.segments() as usize;
    let rungs = film.rungs() as usize;
    for (number, chain) in chains.iter().enumerate() {
        let segment = number / rungs;
        let per = names_per(segments, rungs, segment);
        put_chain(out, per, segment, number % rungs, chain)?;
    }
    Ok(())
}

/// Puts the text of the certificate of a plan for this film, line by line, and takes no memory of its own.
///
/// The plan's counts are the film's, and its numbers have no more digits than the text allows. After an `Err` a
/// prefix of the text went out, as for every writer.
pub fn write_certificate<O: Sink>(film: &Manifest, plan: &Plan, out: &mut O) -> Result<(), PutErr>
    requires { IsCertificate (plan_parts film.now plan.now) }
    ensures { Puts (O.seen out.old) (spelling (plan_parts film.now plan.now)) (O.seen out.new) result }
{
    put_head(out, film, plan)?;
    put_chains(out, film, &plan.chains)?;
    put_line(out, "end")
}
