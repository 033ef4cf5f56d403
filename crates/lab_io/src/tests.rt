// Each public call once, at numbers and failures taken from the rules by hand.
use crate::{
    Batch, FetchErr, MemShelf, MemSink, Piece, PutErr, Shelf, Sink, SureSink, put_fields, put_line,
    put_number, put_pieces, put_text,
};
use std::test::Fail;

fn text(file: &Result<Vec<u8>, FetchErr>) -> Result<&[u8], FetchErr> {
    match file {
        Ok(bytes) => Ok(bytes.as_slice()),
        Err(why) => Err(*why),
    }
}

#[test]
fn files_in_memory(rt: HostRuntime) -> Result<(), Fail> {
    let alloc = rt.alloc();
    let files = vec![in alloc; (String::from_str(alloc, "film")?, b"hello".to_vec(alloc)?)]?;
    let mut shelf = MemShelf::new(alloc, files, vec![in alloc; 2u64]?);
    let calls = [
        ("film", 3, Ok(b"hel".as_slice())),
        ("film", 3, Err(FetchErr::Failed)),
        ("trace", 9, Err(FetchErr::Failed)),
        ("film", 9, Ok(b"hello".as_slice())),
    ];
    for (name, most, answer) in calls {
        let file = shelf.fetch(alloc, name, most);
        assert_eq!(rt; text(&file), answer);
    }
    Ok(())
}

#[test]
fn a_sink_that_fails_at_calls(rt: HostRuntime) -> Result<(), Fail> {
    let alloc = rt.alloc();
    let mut sink = MemSink::new(alloc, vec![in alloc; 2u64, 3]?);
    let calls = [
        ("ab", Ok(())),
        ("cd", Err(PutErr::Failed)),
        ("", Ok(())),
        ("ef", Ok(())),
    ];
    for (piece, answer) in calls {
        assert_eq!(rt; sink.put(piece.as_bytes()), answer);
    }
    assert_eq!(rt; sink.written(), b"abef".as_slice());
    assert_eq!(rt; sink.faults(), 1);
    Ok(())
}

#[test]
fn numbers_and_words(rt: HostRuntime) -> Result<(), Fail> {
    let mut out = SureSink::new(rt.alloc());
    let numbers = [
        0,
        -1,
        18446744073709551615,
        -18446744073709551616,
        i128::MAX,
        i128::MIN,
    ];
    for n in numbers {
        put_number(&mut out, n)?;
        put_text(&mut out, ";")?;
    }
    put_line(&mut out, " end")?;
    put_pieces(&mut out, &[Piece::Word("V"), Piece::Number(4)])?;
    put_fields(
        &mut out,
        &[Piece::Word("stall"), Piece::Number(12), Piece::Word("ms")],
    )?;
    let text = "0;-1;18446744073709551615;-18446744073709551616;\
        170141183460469231731687303715884105727;-170141183460469231731687303715884105728; end\nV4stall 12 ms\n";
    assert_eq!(rt; out.written(), text.as_bytes());
    Ok(())
}

#[test]
fn a_batch_that_fills(rt: HostRuntime) -> Result<(), Fail> {
    let mut out = SureSink::new(rt.alloc());
    let mut plain = SureSink::new(rt.alloc());
    let mut batch = Batch::new();
    for n in -500i64..1500 {
        batch.put_number(&mut out, n)?;
        batch.put_text(&mut out, " ")?;
        put_pieces(
            &mut plain,
            &[Piece::Number(i128::from(n)), Piece::Word(" ")],
        )?;
    }
    let long = "x".repeat(rt.alloc(), 5000)?;
    batch.put_text(&mut out, &long)?;
    put_text(&mut plain, &long)?;
    batch.put_text(&mut out, "y")?;
    put_text(&mut plain, "y")?;
    assert!(rt; out.written() != plain.written());
    batch.finish(&mut out)?;
    assert_eq!(rt; out.written(), plain.written());
    Ok(())
}
