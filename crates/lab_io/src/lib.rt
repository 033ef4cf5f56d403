//! Where files come from and where text goes, each with the causes of its failures.
#![tactic(auto)]

ghost use Rattle.std.specs.Prelude.{◌≡◌, ◌≢◌, [], IsErrOf};
ghost use Rattle.lab_io.specs.Shelf.{Fetches, Shelved, fetched_as};
ghost use Rattle.lab_io.specs.Sink.{Puts, Seen};

mod batch;
mod files;
mod memory;
mod streams;
#[cfg(test)]
mod tests;
mod text;

pub use batch::Batch;
pub use files::FileShelf;
pub use memory::{MemShelf, MemSink, SureSink};
use std::alloc::Global;
pub use streams::StreamSink;
pub use text::{Piece, put_fields, put_line, put_number, put_pieces, put_text};

/// Why a file was not fetched.
#[derive(Clone, Copy, Debug, PartialEq, Eq)]
pub enum FetchErr {
    /// The shelf does not have the file, or could not read it.
    Failed,
    /// Memory was lacking.
    Memory,
}

/// Where files come from.
pub trait Shelf {
    /// The files, where the shelf tells them; for each name a count of faults, and whether it is sure, which says
    /// that its count never rises; and the names and limits that were asked for, in order.
    ghost shelved: { Self → Shelved };

    /// The first `most` bytes of the file of this name, all of it where it is shorter.
    ///
    /// No call changes the files or what is sure, and no count of faults falls; that of a sure name stays.
    /// `Failed` comes only where the count of this name rose in this call: it is then greater than before, or
    /// stands at the last value of a `u64`. A name that told files lack is a failure. What was asked for grows by
    /// this name and limit, but may stay as it was after `Memory`.
    fn fetch(&mut self, alloc: Global, name: &str, most: u64) -> Result<Vec<u8>, FetchErr>
        ensures { Fetches (shelved self.old) name.now most (shelved self.new) (fetched_as result) };
}

/// Why a piece was not taken.
#[derive(Clone, Copy, Debug, PartialEq, Eq)]
pub enum PutErr {
    /// The sink did not take all of the piece.
    Failed,
    /// Memory was lacking.
    Memory,
}

/// Where text goes.
pub trait Sink {
    /// The bytes written, where the sink tells them, its counts of faults and of wants of memory, and whether it
    /// is sure, which says that its count of faults never rises.
    ghost seen: { Self → Seen };

    /// Puts a piece at the end of what was written.
    ///
    /// After `Ok` all of it stands there. After `Failed` a prefix of it does, and the count of faults rose.
    /// After `Memory` nothing of it does, and the count of wants rose. A count that rose is greater than before,
    /// or stands at the last value of a `u64`; none falls. No call changes whether the sink is sure, and the count
    /// of faults of a sure one stays. A piece is never empty: text goes out in pieces that each say something.
    fn put(&mut self, bytes: &[u8]) -> Result<(), PutErr>
        requires { bytes.now ≢ [] }
        ensures puts { Puts (seen self.old) bytes.now (seen self.new) result }
        ensures memory { IsErrOf result PutErr.Memory
            → (seen self.new).written ≡ (seen self.old).written };
}
