//! Certificates by prices that are read.
ghost use Rattle.std.specs.Prelude.{◌≡◌, ◌+◌, ◌≤◌, Ok, IfOk};
ghost use Rattle.lab_model.specs.Film.{IsWithin, most_segments};
ghost use Rattle.lab_model.specs.Reading.{Gives};
ghost use Rattle.price_bounds.specs.Verdict.{PriceParts, price_parts};
ghost use Rattle.price_bounds.specs.Windows.{most_windows};
ghost use Rattle.certificate_text.specs.Line.{read_line};
ghost use Rattle.price_text.specs.Form.{IsPrices};
ghost use Rattle.price_text.specs.Grammar.{prices_line, windows_line};
ghost use Rattle.price_text.specs.Reading.{behind, counts_at, counts_of, head_at, prices_of, window_at, windows_at};
ghost use Rattle.price_text.specs.Spelling.{prices_text};

use certificate_text::{
    MOST_RUNGS, MOST_SEGMENTS, NumberList, NumberRange, RUNG_DIGITS, push, read_amount, read_count,
    read_known, read_last, read_list, read_number, read_within, read_word, small_numbers,
};
use lab_model::InputFault;
use price_bounds::{PriceCertificate, Window};
use std::alloc::Global;

/// The most windows.
const MOST_WINDOWS: u32 = 4000;
/// How many windows there may be.
const WINDOW_COUNTS: NumberRange = NumberRange {
    low: 0,
    high: MOST_WINDOWS,
};
/// The most digits of a segment of a window.
const SEGMENT_DIGITS: usize = 4;
/// The most digits of a price.
const PRICE_DIGITS: usize = 13;
/// The number of the line that tells how many windows follow it.
const WINDOWS_ROW: u32 = 7;

/// The first line, which tells the form of the text.
#[tactic(auto, unfolding(certificate_text::specs::Line::read_line))]
fn first_line_at(bytes: &[u8]) -> Result<&[u8], InputFault>
    ensures { Gives (λ rest. (tt, rest.now)) result (read_line 1 prices_line bytes.now) }
{
    let rest = read_word(1, "abrlab", b' ', bytes)?;
    let rest = read_word(1, "prices", b' ', rest)?;
    read_known(1, 1, b'\n', rest)
}

/// Segments and rungs.
#[derive(Clone, Copy)]
struct Counts {
    segments: u16,
    rungs: u8,
}

/// The first lines: the form and the counts.
#[tactic(auto, unfolding(crate::specs::Reading::counts_at))]
fn counts_at(bytes: &[u8]) -> Result<(Counts, &[u8]), InputFault>
    ensures counts { Gives (λ x. (counts_of x.0, x.1.now)) result (counts_at bytes.now) }
    ensures segments { IfOk result (λ x. IsWithin 1 most_segments x.0.segments) }
{
    let rest = first_line_at(bytes)?;
    let (segments, rest) = read_count(2, "segments", MOST_SEGMENTS, rest)?;
    let (rungs, rest) = read_count(3, "rungs", MOST_RUNGS, rest)?;
    let counts = Counts {
        segments: segments as u16,
        rungs: rungs as u8,
    };
    Ok((counts, rest))
}

/// All lines before the windows, in a certificate that has no windows yet.
#[tactic(auto, unfolding(crate::specs::Reading::head_at))]
fn head_at(alloc: Global, bytes: &[u8]) -> Result<(PriceCertificate, &[u8]), InputFault>
    ensures { Gives (λ x. (price_parts x.0, x.1.now)) result (head_at bytes.now) }
{
    let (counts, rest) = counts_at(bytes)?;
    let (score, rest) = read_amount(4, "score", rest)?;
    let (bound, rest) = read_amount(5, "bound", rest)?;
    let list = NumberList {
        word: "plan",
        count: counts.segments as usize,
        digits: RUNG_DIGITS,
    };
    let (plan, rest) = read_list(alloc, 6, list, rest)?;
    let certificate = PriceCertificate {
        segments: counts.segments,
        rungs: counts.rungs,
        score,
        bound,
        plan: small_numbers(alloc, &plan)?,
        windows: Vec::new(alloc),
    };
    Ok((certificate, rest))
}

/// The line that tells how many windows follow it.
#[tactic(auto, unfolding(certificate_text::specs::Line::read_line))]
fn window_count_at(row: u32, bytes: &[u8]) -> Result<(u32, &[u8]), InputFault>
    ensures count { Gives (λ x. ((x.0, tt), x.1.now)) result
        (read_line row windows_line bytes.now) }
    ensures few { IfOk result (λ x. x.0 ≤ most_windows) }
{
    let rest = read_word(row, "windows", b' ', bytes)?;
    read_within(row, WINDOW_COUNTS, b'\n', rest)
}

/// The line of a window.
#[tactic(auto, unfolding(crate::specs::Reading::window_at, certificate_text::specs::Line::read_line))]
fn window_at(row: u32, bytes: &[u8]) -> Result<(Window, &[u8]), InputFault>
    ensures { Gives (λ x. (x.0, x.1.now)) result (window_at row bytes.now) }
{
    let (first, rest) = read_number(row, SEGMENT_DIGITS, b' ', bytes)?;
    let (last, rest) = read_number(row, SEGMENT_DIGITS, b' ', rest)?;
    let (price, rest) = read_number(row, PRICE_DIGITS, b'\n', rest)?;
    let window = Window {
        first: first as u16,
        last: last as u16,
        price,
    };
    Ok((window, rest))
}

/// Appends so many windows, each in a line of its own.
fn push_windows<'a>(
    into: &mut Vec<Window>,
    row: u32,
    count: u32,
    bytes: &'a [u8],
) -> Result<&'a [u8], InputFault>
    requires { row + count ≤ 4000000000 }
    ensures { Gives (λ rest. (into.new.items, rest.now)) result
        (behind into.old.items (windows_at row count bytes.now)) }
{
    let mut rest = bytes;
    for i in 0..count {
        let (window, later) = window_at(row + i, rest)?;
        push(into, window)?;
        rest = later;
    }
    Ok(rest)
}

/// The certificate that the bytes spell.
#[tactic(auto, unfolding(crate::specs::Reading::prices_of))]
fn prices_of(alloc: Global, bytes: &[u8]) -> Result<PriceCertificate, InputFault>
    ensures { Gives price_parts result (prices_of bytes.now) }
{
    let (head, rest) = head_at(alloc, bytes)?;
    let (count, rest) = window_count_at(WINDOWS_ROW, rest)?;
    let mut windows = Vec::new(alloc);
    let rest = push_windows(&mut windows, WINDOWS_ROW + 1, count, rest)?;
    read_last(WINDOWS_ROW + 1 + count, rest)?;
    Ok(PriceCertificate { windows, ..head })
}

/// The certificate that the bytes spell. It is refused exactly where they are no spelling, with the first bad line.
///
/// Of rungs and windows only the digits are asked: whether they are those of a film is for its check.
pub fn read_prices(alloc: Global, bytes: &[u8]) -> Result<PriceCertificate, InputFault>
    // What is read is of the form, and the bytes are its spelling.
    ensures found { IfOk result (λ c. IsPrices (price_parts c)
        × (bytes.now ≡ prices_text (price_parts c))) }
    // What was written is read again.
    ensures again { (c : PriceParts) → IsPrices c → bytes.now ≡ prices_text c
        → Gives price_parts result (Ok c) }
    // Which line is the first bad one.
    ensures exact { Gives price_parts result (prices_of bytes.now) }
{
    prices_of(alloc, bytes)
}
