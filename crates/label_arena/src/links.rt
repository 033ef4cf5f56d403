//! Links: reading them, setting them, and stringing new nodes to the free list.

ghost use Rattle.std.specs.Prelude.{◌≡◌, ◌+◌, ◌-◌, ◌^◌, ◌<◌, ◌≤◌, ◌++◌, IfOk, IfSome, OnErr, OnOk, length, replicate};
ghost use Rattle.label_arena.specs.Links.{blank, free_after, heads_linked, heads_sealed, link_behind, no_head, node_at, nodes_linked, nodes_strung};

use crate::node::{Head, Node, NodeId};
use lab_model::Label;
use std::alloc::{AllocError, Global};

/// What a node holds.
pub(crate) fn node_at(nodes: &[Node], node: NodeId) -> Node
    requires { node.0 < length nodes.now }
    ensures { result ≡ node_at nodes.now node }
{
    nodes[node.0 as usize]
}

/// The link behind a node, or to the first node of a chain.
pub(crate) fn link_behind(
    nodes: &[Node],
    heads: &[Head],
    chain: u32,
    after: Option<NodeId>,
) -> Option<NodeId>
    requires chain { chain < length heads.now }
    requires after { IfSome after (λ k. k.0 < length nodes.now) }
    ensures { result ≡ link_behind nodes.now heads.now chain after }
{
    match after {
        Some(node) => node_at(nodes, node).next,
        None => heads[chain as usize].first,
    }
}

/// Sets the link behind a node.
pub(crate) fn set_next(nodes: &mut Vec<Node>, node: NodeId, to: Option<NodeId>)
    requires { node.0 < length nodes.old.items }
    ensures { nodes.new.items ≡ nodes_linked (Some node) to nodes.old.items }
{
    nodes[node.0 as usize].next = to;
}

/// Sets the link behind a node, or to the first node of a chain.
pub(crate) fn set_link(
    nodes: &mut Vec<Node>,
    heads: &mut Vec<Head>,
    chain: u32,
    after: Option<NodeId>,
    to: Option<NodeId>,
)
    requires chain { chain < length heads.old.items }
    requires after { IfSome after (λ k. k.0 < length nodes.old.items) }
    ensures nodes { nodes.new.items ≡ nodes_linked after to nodes.old.items }
    ensures heads { heads.new.items ≡ heads_linked chain after to heads.old.items }
{
    match after {
        Some(node) => set_next(nodes, node, to),
        None => heads[chain as usize].first = to,
    }
}

/// Seals a chain.
pub(crate) fn seal_head(heads: &mut Vec<Head>, chain: u32)
    requires { chain < length heads.old.items }
    ensures { heads.new.items ≡ heads_sealed chain heads.old.items }
{
    heads[chain as usize].sealed = true;
}

/// What a node holds before it was ever in a chain.
const BLANK: Node = Node {
    label: Label { t: 0, p: 0, v: 0 },
    next: None,
    parent: None,
};

/// What a chain begins with before it has nodes.
const EMPTY: Head = Head {
    first: None,
    sealed: false,
};

/// The beginnings of so many chains, which are open and empty.
pub(crate) fn empty_heads(alloc: Global, chains: u32) -> Result<Vec<Head>, AllocError>
    ensures { IfOk result (λ v. v.items ≡ replicate chains no_head) }
{
    let mut heads = Vec::new(alloc);
    heads.resize(chains as usize, EMPTY)?;
    Ok(heads)
}

/// Adds so many blank nodes at the end. After the refusal all is as before.
pub(crate) fn lengthen(nodes: &mut Vec<Node>, more: u32) -> Result<(), AllocError>
    requires { length nodes.old.items + more < 2 ^ 32 }
    ensures ok { OnOk result (nodes.new.items ≡ nodes.old.items ++ replicate more blank) }
    ensures err { OnErr result (nodes.new.items ≡ nodes.old.items) }
{
    let most = nodes.len() + more as usize;
    nodes.resize(most, BLANK)
}

/// Strings the nodes from a place on to a list, one before the other, and gives where the list then begins.
pub(crate) fn string(nodes: &mut Vec<Node>, from: u32, list: Option<NodeId>) -> Option<NodeId>
    requires few { length nodes.old.items < 2 ^ 32 }
    requires from { from ≤ length nodes.old.items }
    ensures nodes { nodes.new.items
        ≡ nodes_strung from (length nodes.old.items - from) list nodes.old.items }
    ensures first { result ≡ free_after from (length nodes.old.items - from) list }
{
    let mut first = list;
    for place in from..nodes.len() as u32 {
        let node = NodeId(place);
        set_next(nodes, node, first);
        first = Some(node);
    }
    first
}
