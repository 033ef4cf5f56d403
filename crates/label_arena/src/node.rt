//! Nodes, and where a chain begins.

use lab_model::Label;

/// A node of an arena.
#[derive(Clone, Copy, PartialEq, Eq, Debug)]
pub struct NodeId(pub(crate) u32);

/// What a node holds. Its next link serves its chain, or the free list.
#[derive(Clone, Copy)]
pub(crate) struct Node {
    /// The label.
    pub label: Label,
    /// The node behind this one.
    pub next: Option<NodeId>,
    /// The node that the label follows.
    pub parent: Option<NodeId>,
}

/// Where a chain begins, and whether it may still change.
#[derive(Clone, Copy)]
pub(crate) struct Head {
    /// The first node.
    pub first: Option<NodeId>,
    /// Whether the chain is sealed.
    pub sealed: bool,
}
