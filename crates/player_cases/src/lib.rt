//! Sessions of the player: worked examples and tables of cases.
#![tactic(auto)]

#[cfg(test)]
mod tests;
