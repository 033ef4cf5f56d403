//! What every command on a manifest begins with: its files, read in the order of refusals, as one value with the setup and
//! the rules of its words; and whether these fit the film.
#![tactic(auto)]

mod contents;
mod fetch;
mod film_words;
mod inputs;
mod note;
mod role;
mod settings;
mod stop;

pub use contents::Network;
pub use film_words::FilmWords;
pub use inputs::{Inputs, read_inputs};
pub use note::put_stop;
pub use role::Role;
pub use stop::{FileFault, Halt, Setting, Stop};
