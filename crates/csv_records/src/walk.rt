//! A walk along the records of a text, in which one record serves all.

ghost use Rattle.std.specs.Prelude.{◌≡◌, ℕ, List, []};
ghost use Rattle.csv_records.specs.Table.{Fields};
ghost use Rattle.csv_records.specs.Walk.{HasGiven, AdvancesWalk};

use crate::records::is_uneven;
use csv::{ByteRecord, Reader, ReaderBuilder};
use std::alloc::Global;

/// Why a walk has no record to give.
#[derive(Clone, Copy, Debug, PartialEq, Eq)]
pub enum Halt {
    /// The next record has another number of fields than the first.
    Uneven,
    /// Memory was wanting, or `csv` refused the text for another cause.
    Memory,
}

/// The records of a text, one after the other, as far as they come before the first uneven one.
#[derive(Drop)]
pub struct Walk<'a> {
    reader: Reader<&'a [u8]>,
    row: ByteRecord,
    left: usize,
}

impl<'a> Walk<'a> {
    /// A walk along the first records of the bytes, at most `most` of them.
    pub fn new(alloc: Global, bytes: &'a [u8], most: usize) -> Walk<'a>
        ensures { HasGiven bytes.entry.now most [] result }
    {
        Walk {
            reader: ReaderBuilder::new()
                .has_headers(false)
                .from_reader(alloc, bytes),
            row: ByteRecord::new(alloc),
            left: most,
        }
    }

    /// Reads the next record, and says whether there is one. What stands behind those that were asked for
    /// isn't read. Once there is none the walk is over.
    pub fn advance(&mut self) -> Result<bool, Halt>
        ensures { (bytes : List ℕ) (most : ℕ) (rows : List Fields) → HasGiven bytes most rows self.old
            → AdvancesWalk bytes most rows self.new result }
    {
        if self.left == 0 {
            return Ok(false);
        }
        match self.reader.read_byte_record(&mut self.row) {
            Ok(true) => {
                self.left -= 1;
                Ok(true)
            }
            Ok(false) => Ok(false),
            Err(error) => {
                if is_uneven(&error) {
                    Err(Halt::Uneven)
                } else {
                    Err(Halt::Memory)
                }
            }
        }
    }

    /// The record that was read last.
    pub fn row(&self) -> &ByteRecord
        ensures { result.now ≡ self.now.row }
    {
        &self.row
    }
}
