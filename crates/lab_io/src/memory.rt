//! A shelf and sinks in memory, with failures that are known beforehand.
ghost use Rattle.std.specs.Prelude.{◌≡◌, ◌↔◌, [], ◌++◌, ◌∷◌, true, if◌then◌else◌, option_map, take, IfErr, IfOk, IsErrOf, IsOk, IsTrue};
ghost use Rattle.lab_io.specs.Memory.{MemFetches, MemFiles, MemPuts, MemText, SurePuts, SureText, file_of, is_failing, mem_seen, mem_shelved, one_more, sure_seen, told_calls, told_files};
ghost use Rattle.lab_io.specs.Shelf.{Fetches, fetched_as};
ghost use Rattle.lab_io.specs.Sink.{Puts};

use crate::{FetchErr, PutErr, Shelf, Sink};
use std::alloc::Global;
use std::marker::Model;

// Counts stay at their last value.
pub(crate) fn one_more(count: u64) -> u64
    ensures { result ≡ one_more count }
{
    count.saturating_add(1)
}

fn stands_in(failing: &[u64], number: u64) -> bool
    ensures { result ≡ is_failing failing.now number }
{
    failing.contains(&number)
}

/// Files in memory. Each call of `fetch` has a number, from 1 on, and fails where that number was named beforehand.
#[derive(Drop)]
pub struct MemShelf {
    files: Vec<(String, Vec<u8>)>,
    failing: Vec<u64>,
    calls: u64,
    failed: u64,
    lacking: u64,
    asked: Vec<(String, u64)>,
}

impl Model for MemShelf {
    ghost Value = { MemFiles };

    ghost view = { λ s. record {
      files = told_files s.files.items;
      failing = s.failing.items;
      calls = s.calls;
      failed = s.failed;
      lacking = s.lacking;
      asked = told_calls s.asked.items;
    } };
}

// The file of this name.
fn file_named<'a>(files: &'a [(String, Vec<u8>)], name: &str) -> Option<&'a Vec<u8>>
    ensures { option_map (λ file. file.now.items) result ≡ file_of (told_files files.now) name.now }
{
    for file in files {
        if file.0.as_str() == name {
            return Some(&file.1);
        }
    }
    None
}

// The first bytes of a file.
fn first_bytes(alloc: Global, file: &[u8], most: u64) -> Result<Vec<u8>, FetchErr>
    ensures ok { IfOk result (λ bytes. bytes.items ≡ take most file.now) }
    ensures memory { IfErr result (λ why. why ≡ FetchErr.Memory) }
{
    let kept = file.len().min(most as usize);
    Vec::from_slice(alloc, &file[..kept]).map_err(|_| FetchErr::Memory)
}

// Whether memory sufficed for the name and the limit, which then stand at the end.
pub(crate) fn note_call(
    alloc: Global,
    asked: &mut Vec<(String, u64)>,
    name: &str,
    most: u64,
) -> bool
    ensures { told_calls asked.new.items
        ≡ (if result then told_calls asked.old.items ++ (name.now, most) ∷ []
        else told_calls asked.old.items) }
{
    let Ok(name) = String::from_str(alloc, name) else {
        return false;
    };
    asked.push((name, most)).is_ok()
}

impl MemShelf {
    /// A shelf with these files, each with its name, whose calls with a number in `failing` fail.
    /// Where a name stands twice, its first file counts. It takes no memory.
    pub fn new(alloc: Global, files: Vec<(String, Vec<u8>)>, failing: Vec<u64>) -> MemShelf
        ensures { result ≡ record {
          files = told_files files.items;
          failing = failing.items;
          calls = 0;
          failed = 0;
          lacking = 0;
          asked = [];
        } }
    {
        MemShelf {
            files,
            failing,
            calls: 0,
            failed: 0,
            lacking: 0,
            asked: Vec::new(alloc),
        }
    }
}

impl Shelf for MemShelf {
    ghost shelved = { mem_shelved };

    /// It fails exactly where the number of the call stands in `failing` or the name is lacking; else it answers
    /// the bytes. Or it answers that memory was lacking: for what it was asked, and then all is as before and the
    /// call has no number, or for the bytes of a call that doesn't fail.
    ///
    /// The count of a name that it holds is the number of calls so far whose number stood in `failing`. To that of
    /// a name that it lacks all other calls for such names are added. Where `failing` is empty it is sure of just
    /// the names that it holds, else of none.
    fn fetch(&mut self, alloc: Global, name: &str, most: u64) -> Result<Vec<u8>, FetchErr>
        ensures fetches { Fetches (mem_shelved self.old) name.now most
            (mem_shelved self.new) (fetched_as result) }
        ensures exact { MemFetches self.old name.now most self.new (fetched_as result) }
    {
        if !note_call(alloc, &mut self.asked, name, most) {
            return Err(FetchErr::Memory);
        }
        self.calls = one_more(self.calls);
        if stands_in(&self.failing, self.calls) {
            self.failed = one_more(self.failed);
            return Err(FetchErr::Failed);
        }
        let Some(file) = file_named(&self.files, name) else {
            self.lacking = one_more(self.lacking);
            return Err(FetchErr::Failed);
        };
        first_bytes(alloc, file, most)
    }
}

// Whether memory sufficed for the bytes, which then stand at the end.
fn append(written: &mut Vec<u8>, bytes: &[u8]) -> bool
    ensures { written.new.items
        ≡ (if result then written.old.items ++ bytes.now else written.old.items) }
{
    written.extend_from_slice(bytes).is_ok()
}

/// What was written, in memory. Each call of `put` has a number, from 1 on, and fails where that number was named
/// beforehand and the piece is not empty. It is sure where none was named.
#[derive(Drop)]
pub struct MemSink {
    written: Vec<u8>,
    failing: Vec<u64>,
    calls: u64,
    faults: u64,
    wants: u64,
}

impl Model for MemSink {
    ghost Value = { MemText };

    ghost view = { λ s. record {
      written = s.written.items;
      failing = s.failing.items;
      calls = s.calls;
      faults = s.faults;
      wants = s.wants;
    } };
}

impl MemSink {
    /// A sink with nothing in it, whose calls with a number in `failing` fail. It takes no memory.
    pub fn new(alloc: Global, failing: Vec<u64>) -> MemSink
        ensures { result
            ≡ record { written = []; failing = failing.items; calls = 0; faults = 0; wants = 0 } }
    {
        MemSink {
            written: Vec::new(alloc),
            failing,
            calls: 0,
            faults: 0,
            wants: 0,
        }
    }

    /// All that was written.
    pub fn written(&self) -> &[u8]
        ensures { result.now ≡ self.now.written }
    {
        &self.written
    }

    /// How many calls failed by their number.
    pub fn faults(&self) -> u64
        ensures { result ≡ self.now.faults }
    {
        self.faults
    }
}

impl Sink for MemSink {
    ghost seen = { mem_seen };

    /// It fails exactly where the number of the call stands in `failing` and the piece is not empty, and then
    /// writes nothing. Else it writes all, or answers that memory was lacking.
    fn put(&mut self, bytes: &[u8]) -> Result<(), PutErr>
        ensures puts { Puts (mem_seen self.old) bytes.now (mem_seen self.new) result }
        ensures memory { IsErrOf result PutErr.Memory
            → (mem_seen self.new).written ≡ (mem_seen self.old).written }
        ensures empty { bytes.now ≡ [] → IsOk result }
        ensures exact { MemPuts self.old bytes.now self.new result }
    {
        self.calls = one_more(self.calls);
        if bytes.is_empty() {
            return Ok(());
        }
        if stands_in(&self.failing, self.calls) {
            self.faults = one_more(self.faults);
            return Err(PutErr::Failed);
        }
        if !append(&mut self.written, bytes) {
            self.wants = one_more(self.wants);
            return Err(PutErr::Memory);
        }
        Ok(())
    }
}

/// What was written, in memory. No call of it fails, but for want of memory, so it is sure.
#[derive(Drop)]
pub struct SureSink {
    written: Vec<u8>,
    wants: u64,
}

impl Model for SureSink {
    ghost Value = { SureText };

    ghost view = { λ s. record { written = s.written.items; wants = s.wants } };
}

impl SureSink {
    /// A sink with nothing in it. It takes no memory.
    pub fn new(alloc: Global) -> SureSink
        ensures { result ≡ record { written = []; wants = 0 } }
    {
        SureSink {
            written: Vec::new(alloc),
            wants: 0,
        }
    }

    /// All that was written.
    pub fn written(&self) -> &[u8]
        ensures { result.now ≡ self.now.written }
    {
        &self.written
    }
}

impl Sink for SureSink {
    ghost seen = { sure_seen };

    /// It writes all, or answers that memory was lacking.
    fn put(&mut self, bytes: &[u8]) -> Result<(), PutErr>
        ensures puts { Puts (sure_seen self.old) bytes.now (sure_seen self.new) result }
        ensures memory { IsErrOf result PutErr.Memory
            → (sure_seen self.new).written ≡ (sure_seen self.old).written }
        ensures empty { bytes.now ≡ [] → IsOk result }
        ensures exact { SurePuts self.old bytes.now self.new result }
    {
        if bytes.is_empty() {
            return Ok(());
        }
        if !append(&mut self.written, bytes) {
            self.wants = one_more(self.wants);
            return Err(PutErr::Memory);
        }
        Ok(())
    }
}
