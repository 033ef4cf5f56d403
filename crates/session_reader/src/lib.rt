//! Texts of sessions that are read: one session alone, or those of several players.
//!
//! A text of one session is a line for each event and seven lines of counters, as `session_report` writes them:
//!
//! ```text
//! T request I Q             an event at T
//! T arrive I Q first T rate B
//! T abandon I Q to Q got G
//! T seek I wasted B
//! T play I Q
//! T stall
//! T end
//! startup T                 behind all events
//! stall T
//! stalls G
//! seeking T
//! wasted B
//! end T
//! score X
//! ```
//!
//! A text of one to eight players has for each a line `player K`, counted from 1, and then the text of its session.
//!
//! A number is `0`, or digits of which the first isn't `0`; X may have a `-` before a number that isn't 0. T has at most
//! 15 digits, I 4, Q 2, G 9, B 18 and X 24. Lines, fields and numbers are spelled as in `certificate_text`. Nothing more is
//! asked: instants need not rise, and the counters need not be those of the events.
#![tactic(auto)]

mod laws;
mod lines;
mod reader;
#[cfg(test)]
mod tests;
mod told;

pub use laws::one_sheet_text;
pub use reader::read_sessions;
pub use told::{Counters, Sheet, Told};
