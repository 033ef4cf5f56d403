//! A run over files and sinks in memory, of which none fails.

ghost use Rattle.std.specs.Prelude.{map, string_bytes};
ghost use Rattle.lab_io.specs.Memory.{file_of, told_files};
ghost use Rattle.abrlab_top.specs.Memory.{IsPrinted};

use crate::run;
use lab_io::{MemShelf, SureSink};
use std::alloc::Global;

/// What a run in memory came to.
#[derive(Drop)]
pub struct Printed {
    pub status: u8,
    pub out: SureSink,
    pub err: SureSink,
}

/// Runs a command line, `words`, without the program's name, over files in memory, each with its name. Where a name
/// stands twice, its first file counts.
///
/// The status is the one that words and files ask for, with just their text on `out` and their note on `err`; or it is 9
/// where memory was wanting, with a prefix of the text and the note on want of memory. Where memory for the note itself was
/// wanting, the count of wants of `err` tells so, and a prefix of the note stands there.
pub fn run_in_memory(alloc: Global, words: &[String], files: Vec<(String, Vec<u8>)>) -> Printed
    ensures { IsPrinted (map string_bytes words.now) (file_of (told_files files.items))
        result.status result.out result.err }
{
    let mut shelf = MemShelf::new(alloc, files, Vec::new(alloc));
    let mut out = SureSink::new(alloc);
    let mut err = SureSink::new(alloc);
    let status = run(alloc, words, &mut shelf, &mut out, &mut err);
    Printed { status, out, err }
}
