//! Pieces of text that wait until many of them go out as one.
ghost use Rattle.std.specs.Prelude.{◌≡◌, [], IsOk};
ghost use Rattle.std.specs.Fmt.{decimal, signed_decimal};
ghost use Rattle.lab_io.specs.Batch.{Gathers};
ghost use Rattle.lab_io.specs.Sink.{Puts};

use crate::text::put_bytes;
use crate::{PutErr, Sink};
use arrayvec::ArrayVec;
use itoa::Buffer;
use std::marker::Model;

/// How many bytes may wait in a batch.
const MOST_WAITING: usize = 4096;

/// Text that waits to go out, in a buffer of a fixed size. It takes no memory of its own.
///
/// What is put into it goes out to the sink that the call names, at the latest with [`Batch::finish`]. Each call of a
/// batch names the same sink, and after an `Err` the batch is done with: a prefix of its text went out.
#[derive(Drop)]
pub struct Batch {
    waiting: ArrayVec<u8, MOST_WAITING>,
}

impl Model for Batch {
    ghost use Rattle.lab_io.specs.Sink.{Text};

    ghost Value = { Text };

    ghost view = { λ b. b.waiting.items };
}

impl Batch {
    /// A batch in which nothing waits.
    pub fn new() -> Batch
        ensures { result ≡ [] }
    {
        Batch {
            waiting: ArrayVec::new(),
        }
    }

    // What waits goes out, and then the bytes wait, or where they are too many go out too.
    fn make_way<O: Sink>(&mut self, out: &mut O, bytes: &[u8]) -> Result<(), PutErr>
        ensures { Gathers (O.seen out.old) self.old bytes.now (O.seen out.new) self.new result }
    {
        put_bytes(out, self.waiting.as_slice())?;
        self.waiting.clear();
        if self.waiting.try_extend_from_slice(bytes).is_ok() {
            return Ok(());
        }
        put_bytes(out, bytes)
    }

    // Puts bytes at the end of what waits.
    fn put_bytes<O: Sink>(&mut self, out: &mut O, bytes: &[u8]) -> Result<(), PutErr>
        ensures { Gathers (O.seen out.old) self.old bytes.now (O.seen out.new) self.new result }
    {
        if self.waiting.try_extend_from_slice(bytes).is_ok() {
            return Ok(());
        }
        self.make_way(out, bytes)
    }

    /// Puts the text as it is.
    pub fn put_text<O: Sink>(&mut self, out: &mut O, text: &str) -> Result<(), PutErr>
        ensures { Gathers (O.seen out.old) self.old text.now (O.seen out.new) self.new result }
    {
        self.put_bytes(out, text.as_bytes())
    }

    /// Puts the decimal digits, with `-` before a negative number.
    pub fn put_number<O: Sink>(&mut self, out: &mut O, n: i64) -> Result<(), PutErr>
        ensures { Gathers (O.seen out.old) self.old (signed_decimal n)
            (O.seen out.new) self.new result }
    {
        let mut digits = Buffer::new();
        self.put_bytes(out, digits.format(n).as_bytes())
    }

    /// Puts the decimal digits of a count.
    pub fn put_count<O: Sink>(&mut self, out: &mut O, n: u64) -> Result<(), PutErr>
        ensures { Gathers (O.seen out.old) self.old (decimal n) (O.seen out.new) self.new result }
    {
        let mut digits = Buffer::new();
        self.put_bytes(out, digits.format(n).as_bytes())
    }

    /// What still waits goes out.
    pub fn finish<O: Sink>(self, out: &mut O) -> Result<(), PutErr>
        ensures { Puts (O.seen out.old) self (O.seen out.new) result }
    {
        put_bytes(out, self.waiting.as_slice())
    }
}
