//! Real files. What they hold is not told; the calls that failed are counted.
ghost use Rattle.std.specs.Prelude.{◌≡◌, ◌≤◌, ◌↔◌, [], length, take, IfOk, IfSome, is_err, if◌then◌else◌};
ghost use Rattle.std.specs.IoError.{error_kind};
ghost use Rattle.lab_io.specs.Edge.{FileCalls, file_shelved};
ghost use Rattle.lab_io.specs.Memory.{one_more, told_calls};
ghost use Rattle.lab_io.specs.Shelf.{Fetches, fetched_as};

use crate::memory::{note_call, one_more};
use crate::{FetchErr, Shelf};
use std::alloc::Global;
use std::io::{ErrorKind, Read};
use std::marker::Model;
use std::rt::Files;
use std::{fs, io};

/// The files of a runtime. It counts the calls that answered an `Err`; this is its count of every name, and no name
/// is sure.
#[derive(Drop)]
pub struct FileShelf<'r, R: Files> {
    rt: &'r R,
    failures: u64,
    asked: Vec<(String, u64)>,
}

impl<'r, R: Files> Model for FileShelf<'r, R> {
    ghost Value = { FileCalls };

    ghost view = { λ s. record { failures = s.failures; asked = told_calls s.asked.items } };
}

impl<'r, R: Files> FileShelf<'r, R> {
    /// The files that `rt` reaches, with no failure yet. It takes no memory.
    pub fn new(alloc: Global, rt: &'r R) -> FileShelf<'r, R>
        ensures { result ≡ record { failures = 0; asked = [] } }
    {
        FileShelf {
            rt,
            failures: 0,
            asked: Vec::new(alloc),
        }
    }
}

// The count after a call.
pub(crate) fn failures_after(failures: u64, failed: bool) -> u64
    ensures { result ≡ (if failed then one_more failures else failures) }
{
    if failed { one_more(failures) } else { failures }
}

// Why a file was not fetched, by the kind of the error.
fn cause(error: &io::Error) -> FetchErr
    ensures { (result ≡ FetchErr.Memory) ↔ (error_kind error.now ≡ ErrorKind.OutOfMemory) }
{
    match error.kind() {
        ErrorKind::OutOfMemory => FetchErr::Memory,
        _ => FetchErr::Failed,
    }
}

// The first `most` bytes of what a reader has left, all of it where it is shorter; at an error of the reader an
// error. Where what is left isn't known, the length is at most `most` all the same.
fn first_bytes<I: Read + Drop>(alloc: Global, input: I, most: u64) -> Result<Vec<u8>, FetchErr>
    ensures bound { IfOk result (λ bytes. length bytes.items ≤ most) }
    ensures bytes { IfOk result (λ bytes. IfSome (I.remaining input)
        (λ left. bytes.items ≡ take most left)) }
{
    let mut bytes = Vec::new(alloc);
    input
        .take(most)
        .read_to_end(&mut bytes)
        .map_err(|error| cause(&error))?;
    bytes.truncate(most as usize);
    Ok(bytes)
}

// The first `most` bytes of the file of this name.
fn read_file<R: Files>(rt: &R, alloc: Global, name: &str, most: u64) -> Result<Vec<u8>, FetchErr>
    ensures { IfOk result (λ bytes. length bytes.items ≤ most) }
{
    let file = fs::open(rt, name).map_err(|error| cause(&error))?;
    first_bytes(alloc, file, most)
}

impl<'r, R: Files> Shelf for FileShelf<'r, R> {
    ghost shelved = { file_shelved };

    /// The count rises exactly at an `Err`, whichever it is.
    fn fetch(&mut self, alloc: Global, name: &str, most: u64) -> Result<Vec<u8>, FetchErr>
        ensures fetches { Fetches (file_shelved self.old) name.now most
            (file_shelved self.new) (fetched_as result) }
        ensures counts { self.new.failures
            ≡ (if is_err result then one_more self.old.failures else self.old.failures) }
    {
        let answer = if note_call(alloc, &mut self.asked, name, most) {
            read_file(self.rt, alloc, name, most)
        } else {
            Err(FetchErr::Memory)
        };
        self.failures = failures_after(self.failures, answer.is_err());
        answer
    }
}

#[cfg(test)]
mod tests {
    use super::*;
    use std::test::Fail;

    #[test]
    fn a_file_that_is_lacking(rt: HostRuntime) -> Result<(), Fail> {
        let mut shelf = FileShelf::new(rt.alloc(), &rt);
        let file = shelf.fetch(rt.alloc(), "no/such/file", 10);
        assert!(rt; matches!(file, Err(FetchErr::Failed)));
        assert_eq!(rt; shelf.failures, 1);
        Ok(())
    }

    // A reader that is interrupted before each byte of `ab`, and then ends or fails.
    #[derive(Drop)]
    struct Halting {
        reads: u8,
        fails: bool,
    }

    impl Read for Halting {
        fn read(&mut self, buf: &mut [u8]) -> io::Result<usize> {
            if buf.is_empty() {
                return Ok(0);
            }
            self.reads = self.reads.saturating_add(1);
            match self.reads {
                1 | 3 => Err(io::Error::from(ErrorKind::Interrupted)),
                2 => {
                    buf[0] = b'a';
                    Ok(1)
                }
                4 => {
                    buf[0] = b'b';
                    Ok(1)
                }
                _ if self.fails => Err(io::Error::from(ErrorKind::TimedOut)),
                _ => Ok(0),
            }
        }
    }

    #[test]
    fn a_file_up_to_its_end_or_an_error(rt: HostRuntime) -> Result<(), Fail> {
        let cases = [
            (false, 9, Ok(b"ab".as_slice())),
            (false, 1, Ok(b"a".as_slice())),
            (true, 9, Err(FetchErr::Failed)),
            (true, 2, Ok(b"ab".as_slice())),
        ];
        for (fails, most, wanted) in cases {
            let bytes = first_bytes(rt.alloc(), Halting { reads: 0, fails }, most);
            match bytes {
                Ok(bytes) => assert_eq!(rt; Ok(bytes.as_slice()), wanted),
                Err(why) => assert_eq!(rt; Err(why), wanted),
            }
        }
        Ok(())
    }
}
