//! Completion bounds: tables of cases.
#![tactic(auto)]

#[cfg(test)]
mod tests;
