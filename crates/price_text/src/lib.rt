//! Certificates by prices as text. Each certificate has one spelling, and a text that is no spelling has one first bad line.
//!
//! A text is lines of fields, which are parted by one space:
//!
//! ```text
//! abrlab prices 1
//! segments N                1 to 2000
//! rungs R                   1 to 16
//! score X                   at most 24 digits
//! bound Y                   at most 24 digits
//! plan Q ..                 N numbers of at most 2 digits
//! windows W                 0 to 4000
//! K I L                     W windows: the first and the last segment, at most 4 digits each, and the price, at most 13
//! end
//! ```
//!
//! A number is `0`, or digits of which the first isn't `0`; X and Y may have a `-` before a number that isn't 0. Lines,
//! fields and numbers are spelled as in `certificate_text`. Whether the rungs and windows are those of a film is not asked
//! here.
#![tactic(auto)]

mod laws;
mod reader;
#[cfg(test)]
mod tests;
mod writer;

pub use laws::{one_prices_spelling, texts_fit, told_apart};
pub use reader::read_prices;
pub use writer::write_prices;
