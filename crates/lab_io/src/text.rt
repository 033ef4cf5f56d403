//! Words, numbers and lines that go out through a sink.
ghost use Rattle.std.specs.Prelude.{map};
ghost use Rattle.std.specs.Fmt.{signed_decimal};
ghost use Rattle.lab_io.specs.Piece.{fields_line, later_fields, piece_text, pieces_text};
ghost use Rattle.lab_io.specs.Sink.{Puts, line};

use crate::{PutErr, Sink};
use itoa::Buffer;

/// A piece of a line, or one of its fields.
#[derive(Clone, Copy)]
pub enum Piece<'a> {
    /// The text as it is.
    Word(&'a str),
    /// Its decimal digits, with `-` before a negative number.
    Number(i128),
}

// Puts the bytes in one piece, or where there are none puts no piece.
pub(crate) fn put_bytes<O: Sink>(out: &mut O, bytes: &[u8]) -> Result<(), PutErr>
    ensures { Puts (O.seen out.old) bytes.now (O.seen out.new) result }
{
    if bytes.is_empty() {
        return Ok(());
    }
    out.put(bytes)
}

/// Puts the text as it is, in one piece, or where it is empty puts nothing and answers `Ok`.
///
/// As for every call of this file, after an `Err` a prefix of the bytes went out, `Failed` comes only where
/// the sink's count of faults rose in this call, and `Memory` only where its count of wants did.
pub fn put_text<O: Sink>(out: &mut O, text: &str) -> Result<(), PutErr>
    ensures { Puts (O.seen out.old) text.now (O.seen out.new) result }
{
    put_bytes(out, text.as_bytes())
}

/// Puts the decimal digits, with `-` before a negative number, in one piece. It takes no memory of its own.
pub fn put_number<O: Sink>(out: &mut O, n: i128) -> Result<(), PutErr>
    ensures { Puts (O.seen out.old) (signed_decimal n) (O.seen out.new) result }
{
    let mut digits = Buffer::new();
    out.put(digits.format(n).as_bytes())
}

/// Puts the text and a newline. It takes no memory of its own.
pub fn put_line<O: Sink>(out: &mut O, text: &str) -> Result<(), PutErr>
    ensures { Puts (O.seen out.old) (line text.now) (O.seen out.new) result }
{
    put_text(out, text)?;
    out.put(b"\n")
}

// One piece.
fn put_piece<O: Sink>(out: &mut O, piece: Piece<'_>) -> Result<(), PutErr>
    ensures { Puts (O.seen out.old) (piece_text piece.entry) (O.seen out.new) result }
{
    match piece {
        Piece::Word(word) => put_text(out, word),
        Piece::Number(n) => put_number(out, n),
    }
}

/// Puts the pieces one after the other. It takes no memory of its own.
pub fn put_pieces<O: Sink>(out: &mut O, pieces: &[Piece<'_>]) -> Result<(), PutErr>
    ensures { Puts (O.seen out.old) (pieces_text pieces.now) (O.seen out.new) result }
{
    for piece in pieces {
        put_piece(out, *piece)?;
    }
    Ok(())
}

// The fields that follow the first, each behind one space, and the newline.
fn put_later_fields<O: Sink>(out: &mut O, fields: &[Piece<'_>]) -> Result<(), PutErr>
    ensures { Puts (O.seen out.old) (later_fields (map piece_text fields.now))
        (O.seen out.new) result }
{
    for field in fields {
        put_text(out, " ")?;
        put_piece(out, *field)?;
    }
    put_text(out, "\n")
}

/// Puts a line of fields, which are parted by one space. It takes no memory of its own.
pub fn put_fields<O: Sink>(out: &mut O, fields: &[Piece<'_>]) -> Result<(), PutErr>
    ensures { Puts (O.seen out.old) (fields_line (map piece_text fields.now))
        (O.seen out.new) result }
{
    match fields {
        [] => put_text(out, "\n"),
        [first, later @ ..] => {
            put_piece(out, *first)?;
            put_later_fields(out, later)
        }
    }
}
