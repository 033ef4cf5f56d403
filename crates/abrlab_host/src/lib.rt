//! The run on a real machine: its words, its files, its streams.
#![tactic(auto)]

use abrlab_top::run;
use lab_io::{FileShelf, StreamSink};
use std::io::Write;
use std::process::ExitCode;
use std::rt::{Env, Files};
use std::{env, io};

// The status where the machine refuses the words.
fn status_of(error: &io::Error) -> ExitCode {
    match error.kind() {
        io::ErrorKind::OutOfMemory => ExitCode::from(9),
        _ => ExitCode::from(8),
    }
}

/// Runs the words that the machine was given over its files and these two streams, and answers the status of the run.
///
/// Where the machine refuses the words for want of memory nothing is printed and the status is 9, and 8 where it refuses
/// them for another cause.
pub fn run_here<R: AllocGlobal + Files + Env, O: Write + Drop, E: Write + Drop>(
    rt: &R,
    out: O,
    err: E,
) -> ExitCode {
    let words = match env::args(rt) {
        Ok(words) => words,
        Err(error) => return status_of(&error),
    };
    let Ok(words) = words.skip(1).collect::<Vec<String>>(rt.alloc()) else {
        return ExitCode::from(9);
    };
    let mut shelf = FileShelf::new(rt.alloc(), rt);
    let mut out = StreamSink::new(out);
    let mut err = StreamSink::new(err);
    ExitCode::from(run(rt.alloc(), &words, &mut shelf, &mut out, &mut err))
}
