//! Bounds by prices, the checks of their certificates, and near-best lists: worked examples and tables of cases.
#![tactic(auto)]

#[cfg(test)]
mod near;
#[cfg(test)]
mod tests;
