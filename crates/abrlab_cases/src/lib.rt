//! Whole runs of the program's call over files and sinks in memory: worked examples and tables of cases.
#![tactic(auto)]

#[cfg(test)]
mod tests;
