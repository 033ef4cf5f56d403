//! Labels in an arena: chains of nodes that are linked by index in one vector, with the nodes that are spare.
#![tactic(auto)]

mod arena;
mod links;
mod node;
mod walk;

pub use arena::{Arena, MOST_CHAINS, MOST_NODES};
pub use node::NodeId;
pub use walk::{Step, Walk};

#[cfg(test)]
mod tests;
