//! Real streams. What they hold is not told; the pieces that they did not take are counted.
ghost use Rattle.std.specs.Prelude.{◌≡◌, ◌≤◌, ◌↔◌, [], length, take, IsOk, IsErrOf, IsTrue, is_err, if◌then◌else◌};
ghost use Rattle.std.specs.Io.KnownBytes.{Appends};
ghost use Rattle.lab_io.specs.Edge.{Stream, StreamPuts, Takes, WritesWaiting, stream_seen};
ghost use Rattle.lab_io.specs.Memory.{one_more};
ghost use Rattle.lab_io.specs.Sink.{Puts};

use crate::files::failures_after;
use crate::{PutErr, Sink};
use arrayvec::ArrayVec;
use std::io::{ErrorKind, Write};
use std::marker::Model;

/// How many bytes may wait to be written.
const MOST_WAITING: usize = 4096;

/// How often a stream is asked to take bytes that it has not taken yet.
const MOST_WRITES: u64 = u64::MAX;

/// A stream as a sink. It counts the pieces that failed, never answers `Memory`, and isn't sure.
///
/// Pieces wait in a buffer of a fixed size. They are written where a piece does not fit behind them, and behind a
/// piece that ends in a newline; then the stream is flushed too. So a failure of the stream shows at one of these
/// two, and shows before the text ends, where that ends in a newline. What waits when the sink is dropped is lost.
#[derive(Drop)]
pub struct StreamSink<W: Write + Drop> {
    stream: W,
    waiting: ArrayVec<u8, MOST_WAITING>,
    failures: u64,
}

impl<W: Write + Drop> Model for StreamSink<W> {
    ghost Value = { Stream W };

    ghost view = { λ s.
        record { stream = s.stream; waiting = s.waiting.items; failures = s.failures } };
}

// Writes the bytes, and answers how many of them the stream took: fewer than all only where it failed.
fn bytes_taken<W: Write>(stream: &mut W, bytes: &[u8]) -> usize
    ensures count { result ≤ length bytes.now }
    ensures written { Appends (W.contents stream.old) (W.contents stream.new)
        (take result bytes.now) }
{
    let mut taken = 0;
    for _ in 0..MOST_WRITES {
        if taken == bytes.len() {
            return taken;
        }
        match stream.write(&bytes[taken..]) {
            Ok(0) => return taken,
            Ok(count) => taken += count,
            Err(error) if error.kind() == ErrorKind::Interrupted => {}
            Err(_) => return taken,
        }
    }
    taken
}

impl<W: Write + Drop> StreamSink<W> {
    /// The stream, with no failure yet and nothing that waits. It takes no memory.
    pub fn new(stream: W) -> StreamSink<W>
        ensures { result ≡ record { stream = stream; waiting = []; failures = 0 } }
    {
        StreamSink {
            stream,
            waiting: ArrayVec::new(),
            failures: 0,
        }
    }

    // Writes what waits, and answers whether the stream took it all; what it did not take waits on.
    fn write_waiting(&mut self) -> bool
        ensures { WritesWaiting W.contents self.old self.new result }
    {
        let taken = bytes_taken(&mut self.stream, self.waiting.as_slice());
        self.waiting.drain(..taken);
        self.waiting.is_empty()
    }

    // Writes what waits and then a piece, and answers whether the stream took all of it.
    fn write_piece(&mut self, bytes: &[u8]) -> bool
        ensures { Takes W.contents self.old bytes.now self.new result }
    {
        if !self.write_waiting() {
            return false;
        }
        bytes_taken(&mut self.stream, bytes) == bytes.len()
    }

    // Takes a piece: it waits where there is room, else it is written. Answers whether all of it was taken.
    fn take_piece(&mut self, bytes: &[u8]) -> bool
        ensures { Takes W.contents self.old bytes.now self.new result }
    {
        self.waiting.try_extend_from_slice(bytes).is_ok() || self.write_piece(bytes)
    }

    // Writes what waits and flushes the stream, and answers whether both went well.
    fn finish_line(&mut self) -> bool
        ensures { WritesWaiting W.contents self.old self.new result }
    {
        self.write_waiting() && self.stream.flush().is_ok()
    }
}

impl<W: Write + Drop> Sink for StreamSink<W> {
    ghost seen = { stream_seen };

    /// The count rises exactly at an `Err`, which is always `Failed`: where the stream answered an error other than
    /// an interruption, to a write or to the flush behind a newline, or took nothing of what was left.
    ///
    /// Where the stream tells what it holds, that and what waits have grown by the piece after `Ok`, and by a prefix
    /// of it after `Failed`. Nothing waits after the `Ok` of a piece that ends in a newline.
    fn put(&mut self, bytes: &[u8]) -> Result<(), PutErr>
        ensures puts { Puts (stream_seen self.old) bytes.now (stream_seen self.new) result }
        ensures memory { IsErrOf result PutErr.Memory
            → (stream_seen self.new).written ≡ (stream_seen self.old).written }
        ensures empty { bytes.now ≡ [] → IsOk result }
        ensures counts { self.new.failures
            ≡ (if is_err result then one_more self.old.failures else self.old.failures) }
        ensures stream { StreamPuts W.contents self.old bytes.now self.new result }
    {
        if bytes.is_empty() {
            return Ok(());
        }
        let done = self.take_piece(bytes) && (!bytes.ends_with(b"\n") || self.finish_line());
        self.failures = failures_after(self.failures, !done);
        if done { Ok(()) } else { Err(PutErr::Failed) }
    }
}

#[cfg(test)]
mod tests {
    use super::*;
    use std::io;
    use std::test::Fail;

    // A stream that takes one byte at a time until it is full, is interrupted before each, and counts its flushes.
    #[derive(Drop)]
    struct Narrow {
        taken: Vec<u8>,
        room: usize,
        interrupts: bool,
        flushes: u8,
    }

    impl Write for Narrow {
        fn write(&mut self, buf: &[u8]) -> io::Result<usize> {
            self.interrupts = !self.interrupts;
            if self.interrupts {
                return Err(io::Error::from(ErrorKind::Interrupted));
            }
            if buf.is_empty() || self.taken.len() >= self.room {
                return Ok(0);
            }
            self.taken.push(buf[0])?;
            Ok(1)
        }

        fn flush(&mut self) -> io::Result<()> {
            self.flushes = self.flushes.saturating_add(1);
            Ok(())
        }
    }

    #[test]
    fn a_stream_that_fills(rt: HostRuntime) -> Result<(), Fail> {
        let mut sink = StreamSink::new(Narrow {
            taken: Vec::new(rt.alloc()),
            room: 6,
            interrupts: false,
            flushes: 0,
        });
        // each piece, what is answered, and what the stream has then
        let calls = [
            ("ab", Ok(()), ""),
            ("c\n", Ok(()), "abc\n"),
            ("", Ok(()), "abc\n"),
            ("d", Ok(()), "abc\n"),
            ("ef\n", Err(PutErr::Failed), "abc\nde"),
            ("g\n", Err(PutErr::Failed), "abc\nde"),
        ];
        for (piece, answer, taken) in calls {
            assert_eq!(rt; sink.put(piece.as_bytes()), answer);
            assert_eq!(rt; sink.stream.taken.as_slice(), taken.as_bytes());
        }
        assert_eq!(rt; sink.stream.flushes, 1);
        assert_eq!(rt; sink.failures, 2);
        sink.stream.room = 11;
        assert_eq!(rt; sink.put(b"\n"), Ok(()));
        assert_eq!(rt; sink.stream.taken.as_slice(), b"abc\ndef\ng\n\n".as_slice());
        Ok(())
    }

    #[test]
    fn a_piece_that_is_too_long_to_wait(rt: HostRuntime) -> Result<(), Fail> {
        let mut sink = StreamSink::new(Vec::new(rt.alloc()));
        let long = "x".repeat(rt.alloc(), 5000)?;
        for piece in ["ab", long.as_str(), "c", "\n"] {
            assert_eq!(rt; sink.put(piece.as_bytes()), Ok(()));
        }
        assert_eq!(rt; sink.stream.len(), 5004);
        assert!(rt; sink.stream.starts_with(b"abx"));
        assert!(rt; sink.stream.ends_with(b"xc\n"));
        Ok(())
    }
}
