//! The recorded network as a clock: when a download begins to take bits, when it is done, and what is
//! left of a running one at any instant. (The network after Sabre, MMSys 2018.)
#![tactic(auto)]

mod clock;
mod job;
mod link;
mod meter;
mod paced;

pub use clock::{Clock, Request};
pub use job::{Job, Landing};
pub use link::{Link, share_of};

#[cfg(test)]
mod tests;
