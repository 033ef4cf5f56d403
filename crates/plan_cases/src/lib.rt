//! Labels, plans, certificates and their checks: worked examples and tables of cases.
#![tactic(auto)]

#[cfg(test)]
mod tests;
