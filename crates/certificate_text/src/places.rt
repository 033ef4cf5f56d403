//! Where a reader of a certificate stands.
ghost use Rattle.std.specs.Prelude.{◌≡◌, ◌+◌, ◌*◌, ◌≤◌};
ghost use Rattle.lab_model.specs.Film.{IsWithin};

use crate::certificate::Certificate;

/// What stands before a certificate: no line, or the two of a gap certificate.
#[derive(Clone, Copy)]
pub(crate) struct Heading {
    /// The number of its lines.
    pub(crate) lines: u32,
    ghost few: { lines ≤ 2 },
}

/// Version and counts.
#[derive(Clone, Copy)]
pub(crate) struct Counts {
    /// Whether the version is that of a setup with a utility table.
    pub(crate) table: bool,
    /// The number of segments.
    pub(crate) segments: u16,
    /// The number of rungs.
    pub(crate) rungs: u8,
    ghost some_segments: { IsWithin 1 2000 segments },
    ghost some_rungs: { IsWithin 1 16 rungs },
}

/// Where a reader of chains stands.
#[derive(Clone, Copy)]
pub(crate) struct Spot<'a> {
    /// The counts of the certificate.
    pub(crate) counts: Counts,
    /// The number of the next chain, by segment, then rung, the first being 0.
    pub(crate) number: u32,
    /// The number of the next line, the first being 1.
    pub(crate) row: u32,
    /// How many labels may still come.
    pub(crate) left: u32,
    /// The bytes that are left.
    pub(crate) rest: &'a [u8],
    ghost inside: { number ≤ counts.segments * counts.rungs },
    ghost room: { row + left ≤ 1000010 + number },
}

/// What stands before the chains, in a certificate that has no chains yet, and where these begin.
#[derive(Drop)]
pub(crate) struct Opening<'a> {
    /// The certificate.
    pub(crate) certificate: Certificate,
    /// The place of its first chain.
    pub(crate) spot: Spot<'a>,
    ghost same_segments: { spot.counts.segments ≡ certificate.segments },
    ghost same_rungs: { spot.counts.rungs ≡ certificate.rungs },
    ghost first_chain: { spot.number ≡ 0 },
}
