//! Faults of input files: their kind, their key and their place.

ghost use Rattle.std.specs.Prelude.{◌≡◌};
ghost use Rattle.lab_model.specs.Kinds.{kind_number};

use std::alloc::{AllocError, AllocFailed};

/// What is wrong.
#[derive(Clone, Copy, PartialEq, Eq, Debug)]
pub enum Kind {
    /// The bytes are no JSON value.
    NotJson = 1,
    /// A record has another number of fields than the first.
    NotCsv = 2,
    /// A key is lacking.
    MissingKey = 3,
    /// A value is of another kind than is asked for.
    WrongKind = 4,
    /// A number isn't whole.
    NotWhole = 5,
    /// A number or a count is outside its range.
    OutOfRange = 6,
    /// A row or a table has another shape than is asked for.
    Shape = 7,
    /// Numbers aren't in their order.
    Order = 8,
    /// There is nothing where something is asked for.
    Empty = 9,
    /// A trace carries less than one bit a millisecond on the mean.
    TooSlow = 10,
    /// A line of a certificate doesn't have its form.
    CertLine = 11,
}

impl Kind {
    /// The number of the kind, 1 to 11.
    pub fn number(self) -> u8
        ensures { result ≡ kind_number self }
    {
        self as u8
    }
}

/// Where it is wrong.
#[derive(Clone, Copy, PartialEq, Eq, Debug)]
pub enum Key {
    /// The whole file.
    Whole,
    /// The key `segment_duration_ms` of a manifest.
    SegmentDuration,
    /// The key `bitrates_kbps` of a manifest.
    Bitrates,
    /// The key `segment_sizes_bits` of a manifest.
    SegmentSizes,
    /// The header of a table.
    Header,
    /// A period of a trace.
    Period,
    /// The key `duration_ms` of a period.
    Duration,
    /// The key `bandwidth_kbps` of a period.
    Bandwidth,
    /// The key `latency_ms` of a period.
    Latency,
    /// The cycle of a trace.
    Cycle,
    /// A row of a seek script.
    SeekRow,
    /// The field `at_ms` of a seek.
    SeekAt,
    /// The field `to_segment` of a seek.
    SeekTo,
    /// A line of a certificate.
    Line,
    /// A utility of a table.
    Utility,
}

/// The first fault of a file. Rows and columns count from 1, and 0 says that there is none.
#[derive(Clone, Copy, PartialEq, Eq, Debug)]
pub struct Refusal {
    /// What is wrong.
    pub kind: Kind,
    /// Where it is wrong.
    pub key: Key,
    /// The row.
    pub row: u32,
    /// The column.
    pub column: u32,
}

/// Why a reader gives no value.
#[derive(Clone, Copy, PartialEq, Eq, Debug)]
pub enum InputFault {
    /// Memory was wanting.
    Memory,
    /// The bytes are refused.
    Refused(Refusal),
}

impl From<AllocError> for InputFault {
    ghost use Rattle.lab_model.specs.declared.fault.InputFault.{InputFault};
    ghost use Rattle.lab_model.specs.declared.fault.InputFault.TheVariants.{Memory};
    ghost use Rattle.std.specs.Prelude.{◌≡◌};

    ghost from_gives = { λ _ fault. fault ≡ Memory };

    fn from(_refused: AllocError) -> InputFault {
        InputFault::Memory
    }
}

impl<T: Drop> From<AllocFailed<T>> for InputFault {
    ghost use Rattle.lab_model.specs.declared.fault.InputFault.{InputFault};
    ghost use Rattle.lab_model.specs.declared.fault.InputFault.TheVariants.{Memory};
    ghost use Rattle.std.specs.Prelude.{◌≡◌};

    ghost from_gives = { λ _ fault. fault ≡ Memory };

    fn from(_refused: AllocFailed<T>) -> InputFault {
        InputFault::Memory
    }
}
