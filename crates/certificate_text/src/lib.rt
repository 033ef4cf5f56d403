//! Certificates as text. Each certificate has one spelling, and a text that is no spelling has one first bad line.
//!
//! A text is lines of fields, which are parted by one space:
//!
//! ```text
//! abrlab certificate 1     or 2 for a setup with a utility table
//! segments N                1 to 2000
//! rungs R                   1 to 16
//! utilities table           in version 2
//! score X                   at most 24 digits
//! plan Q ..                 N numbers of at most 2 digits
//! start K ..                R numbers of at most 7 digits
//! layer I Q COUNT           for each segment I and in it for each rung Q
//! T P V K ..                COUNT labels, each with R names, but for the last segment, which has none
//! end
//! ```
//!
//! A number is `0`, or digits of which the first isn't `0`; V and X may have a `-` before a number that isn't 0.
//! T, P and V have at most 18 digits, COUNT and names at most 7, and all COUNTs together are at most 1000000.
//!
//! A gap certificate is the lines `abrlab gap 1` and `bound Y`, with Y spelled as X is, and then a certificate.
//!
//! What reads and writes single lines and fields is public too, for other texts of such lines.
#![tactic(auto)]

mod certificate;
mod chains;
mod fields;
mod head;
mod lines;
mod places;
mod writer;

pub use certificate::{Certificate, GapCertificate, Layer};
pub use chains::read_last;
pub use fields::{
    NumberRange, line_refusal, push, read_known, read_number, read_within, read_word,
};
pub use head::{
    MOST_RUNGS, MOST_SEGMENTS, NumberList, RUNG_DIGITS, read_amount, read_count, read_list,
    small_numbers,
};
pub use lines::{Lines, one_gap_spelling, one_spelling, read_certificate, read_gap};
pub use writer::{put_bound, put_count, put_gap, put_plan, put_score, write_certificate};
