//! Certificates that are read, whole or layer by layer.
ghost use Rattle.std.specs.Prelude.{◌≡◌, ◌+◌, ◌*◌, ◌≤◌, ◌<◌, Ok, Err, IfOk};
ghost use Rattle.lab_io.specs.Sink.{Text};
ghost use Rattle.lab_model.specs.declared.fault.Refusal.{Refusal};
ghost use Rattle.lab_model.specs.Reading.{Gives};
ghost use Rattle.labels.specs.Parts.{CertificateParts};
ghost use Rattle.labels.specs.Form.{IsCertificate};
ghost use Rattle.certificate_text.specs.Form.{GapParts, IsGapCertificate, certificate_parts, gap_parts};
ghost use Rattle.certificate_text.specs.Reading.{certificate_behind, certificate_of, gap_of, place_of};
ghost use Rattle.certificate_text.specs.Spelling.{gap_spelling, spelling};
ghost use Rattle.certificate_text.specs.Walk.{BeginsBadly, BeginsGap, BeginsLayers, GivesLayer, IsBegun, MeetsBadLine, Steps, Walk, WillGive, WillRefuse, accepted, after_fault, begun, begun_gap, first_walk, gap_accepted, place_or_refusal, rest_of, silent};

use crate::certificate::{Certificate, GapCertificate, Layer};
use crate::chains::{read_chains, read_end};
use crate::head::{read_bound, read_head};
use crate::places::{Heading, Opening, Spot};
use lab_model::{InputFault, Refusal};
use std::alloc::Global;
use std::marker::Model;

/// What stands before a plain certificate.
const NO_HEADING: Heading = Heading { lines: 0 };

/// What stands before the certificate in a gap certificate.
const GAP_HEADING: Heading = Heading { lines: 2 };

/// A certificate or a gap certificate that is read layer by layer.
#[derive(Drop)]
pub struct Lines<'a> {
    alloc: Global,
    head: Certificate,
    bound: i128,
    segment: u16,
    spot: Spot<'a>,
    refused: Option<Refusal>,
}

impl<'a> Model for Lines<'a> {
    ghost Value = { Walk };

    ghost view = { λ l. record {
      head = certificate_parts l.head;
      bound = l.bound;
      segment = l.segment;
      at = place_or_refusal l.refused l.spot;
    } };

    ghost invariant = { λ l. (l.spot.counts.segments ≡ l.head.segments)
        × (l.spot.counts.rungs ≡ l.head.rungs)
        × (l.segment ≤ l.head.segments)
        × (l.spot.number ≡ l.segment * l.head.rungs) };
}

impl<'a> Lines<'a> {
    /// Reads the lines before the first layer. It is refused exactly where a bad line is among them.
    pub fn begin(alloc: Global, bytes: &'a [u8]) -> Result<Lines<'a>, InputFault>
        ensures walk { Gives (λ lines. lines) result (begun bytes.now) }
        ensures begun { IfOk result IsBegun }
        ensures layers { (c : CertificateParts)
            → certificate_of bytes.now ≡ Ok c → BeginsLayers c result }
        ensures bad_line { (e : Refusal)
            → certificate_of bytes.now ≡ Err e → BeginsBadly e result }
    {
        Self::behind_head(alloc, bytes)
    }

    /// The same of a gap certificate: its bound is read too, and the bad line counts over the whole text.
    pub fn begin_gap(alloc: Global, bytes: &'a [u8]) -> Result<Lines<'a>, InputFault>
        ensures walk { Gives (λ lines. lines) result (begun_gap bytes.now) }
        ensures begun { IfOk result IsBegun }
        ensures layers { (c : GapParts) → gap_of bytes.now ≡ Ok c → BeginsGap c result }
        ensures bad_line { (e : Refusal) → gap_of bytes.now ≡ Err e → BeginsBadly e result }
    {
        Self::behind_bound(alloc, bytes)
    }

    /// The reader behind the lines before the first layer.
    #[tactic(auto, unfolding(crate::specs::Walk::begun))]
    fn behind_head(alloc: Global, bytes: &'a [u8]) -> Result<Lines<'a>, InputFault>
        ensures { Gives (λ lines. lines) result (begun bytes.now) }
    {
        let head = read_head(alloc, NO_HEADING, bytes)?;
        let bound = head.certificate.score;
        Ok(Self::at_first_layer(alloc, head, bound))
    }

    /// The same of a gap certificate.
    #[tactic(auto, unfolding(crate::specs::Walk::begun_gap))]
    fn behind_bound(alloc: Global, bytes: &'a [u8]) -> Result<Lines<'a>, InputFault>
        ensures { Gives (λ lines. lines) result (begun_gap bytes.now) }
    {
        let (bound, rest) = read_bound(bytes)?;
        let head = read_head(alloc, GAP_HEADING, rest)?;
        Ok(Self::at_first_layer(alloc, head, bound))
    }

    /// The reader behind these lines, which stands at the first layer.
    fn at_first_layer(alloc: Global, head: Opening<'a>, bound: i128) -> Lines<'a>
        ensures { result ≡ first_walk bound
            (certificate_parts head.entry.certificate, place_of head.entry.spot) }
    {
        Lines {
            alloc,
            head: head.certificate,
            bound,
            segment: 0,
            spot: head.spot,
            refused: None,
        }
    }

    /// The next layer. None comes exactly after the last one, with the line `end` read and nothing behind it.
    ///
    /// It is refused exactly where the lines that it reads hold the first bad line; then every later call answers
    /// the same. After `Memory` the reader stands where it stood.
    pub fn next_layer(&mut self) -> Result<Option<Layer>, InputFault>
        ensures steps { Steps self.old result self.new }
        // Where a certificate is still to come, this is its next layer, or its end.
        ensures layers { (c : CertificateParts)
            → WillGive c self.old → GivesLayer c self.old result self.new }
        // Where a bad line is still to come, this is a whole layer before it, or that line.
        ensures bad_line { (e : Refusal)
            → WillRefuse e self.old → MeetsBadLine e self.old result self.new }
    {
        self.read_layer()
    }

    /// Reads the next layer.
    #[tactic(auto, unfolding(crate::specs::Walk::layer_of))]
    fn read_layer(&mut self) -> Result<Option<Layer>, InputFault>
        ensures steps { Steps self.old result self.new }
        ensures inside { self.old.segment ≤ self.old.head.segments }
    {
        if let Some(refusal) = self.refused {
            return Err(InputFault::Refused(refusal));
        }
        if self.segment == self.head.segments {
            return match read_end(self.spot) {
                Ok(()) => Ok(None),
                Err(fault) => Err(self.keep(fault)),
            };
        }
        match read_chains(self.alloc, u32::from(self.head.rungs), self.spot) {
            Ok((chains, spot)) => {
                self.segment += 1;
                self.spot = spot;
                Ok(Some(Layer { chains }))
            }
            Err(fault) => Err(self.keep(fault)),
        }
    }

    /// Reads what is left, layer by layer, and keeps nothing of it.
    ///
    /// Where the lines are as `begin` answered them, it is refused exactly where the bytes are no spelling, with the
    /// first bad line.
    pub fn read_rest(self) -> Result<(), InputFault>
        ensures plain { (bytes : Text) → begun bytes ≡ Ok self.entry
            → Gives (λ done. done) result (accepted bytes) }
        ensures gap { (bytes : Text) → begun_gap bytes ≡ Ok self.entry
            → Gives (λ done. done) result (gap_accepted bytes) }
    {
        self.pass_rest()
    }

    /// Reads what is left.
    fn pass_rest(mut self) -> Result<(), InputFault>
        ensures { Gives (λ done. done) result (silent (rest_of self.entry)) }
    {
        while self.next_layer()?.is_some() {}
        Ok(())
    }

    /// Keeps a refusal for later calls.
    fn keep(&mut self, fault: InputFault) -> InputFault
        ensures fault { result ≡ fault }
        ensures after { self.new ≡ after_fault self.old fault }
    {
        if let InputFault::Refused(refusal) = fault {
            self.refused = Some(refusal);
        }
        fault
    }

    /// The number of segments, 1 to 2000.
    pub fn segments(&self) -> u16
        ensures { result ≡ self.now.head.segments }
    {
        self.head.segments
    }

    /// The number of rungs, 1 to 16.
    pub fn rungs(&self) -> u8
        ensures { result ≡ self.now.head.rungs }
    {
        self.head.rungs
    }

    /// The score, in thousandths of a point.
    pub fn score(&self) -> i128
        ensures { result ≡ self.now.head.score }
    {
        self.head.score
    }

    /// What no rung list is to have more than, in thousandths of a point: the bound of a gap certificate, or the own
    /// score of another.
    pub fn bound(&self) -> i128
        ensures { result ≡ self.now.bound }
    {
        self.bound
    }

    /// The rung list.
    pub fn plan(&self) -> &[u8]
        ensures { result.now ≡ self.now.head.plan }
    {
        &self.head.plan
    }

    /// For each rung the place of a label of segment 0.
    pub fn starts(&self) -> &[u32]
        ensures { result.now ≡ self.now.head.starts }
    {
        &self.head.starts
    }

    /// Whether it is for a setup with a utility table.
    pub fn table(&self) -> bool
        ensures { result ≡ self.now.head.table }
    {
        self.head.table
    }
}

/// No certificate of the form has a spelling that another one has.
pub fn one_spelling()
    ensures { (c d : CertificateParts) → IsCertificate c → IsCertificate d
        → spelling c ≡ spelling d → c ≡ d }
{}

/// No gap certificate of the form has a spelling that another one has.
pub fn one_gap_spelling()
    ensures { (c d : GapParts) → IsGapCertificate c → IsGapCertificate d
        → gap_spelling c ≡ gap_spelling d → c ≡ d }
{}

/// The certificate that the bytes spell behind the lines of a heading.
#[tactic(auto, unfolding(crate::specs::Reading::certificate_behind))]
fn certificate_behind(
    alloc: Global,
    heading: Heading,
    bytes: &[u8],
) -> Result<Certificate, InputFault>
    ensures { Gives certificate_parts result (certificate_behind heading.lines bytes.now) }
{
    let head = read_head(alloc, heading, bytes)?;
    let certificate = head.certificate;
    let count = u32::from(certificate.segments) * u32::from(certificate.rungs);
    let (chains, spot) = read_chains(alloc, count, head.spot)?;
    read_end(spot)?;
    Ok(Certificate {
        chains,
        ..certificate
    })
}

/// The certificate that the bytes spell. It is refused exactly where they are no spelling, with the first bad line.
pub fn read_certificate(alloc: Global, bytes: &[u8]) -> Result<Certificate, InputFault>
    // What is read is of the form, and the bytes are its spelling.
    ensures found { IfOk result (λ c. IsCertificate (certificate_parts c)
        × (bytes.now ≡ spelling (certificate_parts c))) }
    // What was written is read again.
    ensures again { (c : CertificateParts) → IsCertificate c → bytes.now ≡ spelling c
        → Gives certificate_parts result (Ok c) }
    // Which line is the first bad one.
    ensures exact { Gives certificate_parts result (certificate_of bytes.now) }
{
    certificate_behind(alloc, NO_HEADING, bytes)
}

/// The gap certificate that the bytes spell.
#[tactic(auto, unfolding(crate::specs::Reading::gap_of))]
fn gap_of(alloc: Global, bytes: &[u8]) -> Result<GapCertificate, InputFault>
    ensures { Gives gap_parts result (gap_of bytes.now) }
{
    let (bound, rest) = read_bound(bytes)?;
    let inner = certificate_behind(alloc, GAP_HEADING, rest)?;
    Ok(GapCertificate { bound, inner })
}

/// The gap certificate that the bytes spell. It is refused exactly where they are no spelling, with the first bad line,
/// which counts over the whole text.
pub fn read_gap(alloc: Global, bytes: &[u8]) -> Result<GapCertificate, InputFault>
    // What is read is of the form, and the bytes are its spelling.
    ensures found { IfOk result (λ c. IsGapCertificate (gap_parts c)
        × (bytes.now ≡ gap_spelling (gap_parts c))) }
    // What was written is read again.
    ensures again { (c : GapParts) → IsGapCertificate c → bytes.now ≡ gap_spelling c
        → Gives gap_parts result (Ok c) }
    // Which line is the first bad one.
    ensures exact { Gives gap_parts result (gap_of bytes.now) }
{
    gap_of(alloc, bytes)
}
