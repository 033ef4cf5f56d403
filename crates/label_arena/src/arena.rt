//! The arena.

ghost use Rattle.std.specs.Prelude.{◌≡◌, ◌+◌, ◌<◌, ◌≤◌, IfOk, IfSome, OnErr, OnOk, length, option_map};
ghost use Rattle.label_arena.specs.Chains.{HasLabel, HasLink, HasNext, HasParent, IsNew, IsOpen, IsSound, StandsAfter, StandsIn, StandsSealed, Stands, chain_at, empty_holdings, first_node, label_behind, node_count, standing, steps_of, with_added, with_dropped, with_raised, with_room, with_seal};

use crate::links::{
    empty_heads, lengthen, link_behind, node_at, seal_head, set_link, set_next, string,
};
use crate::node::{Head, Node, NodeId};
use crate::walk::Walk;
use lab_model::{Label, NoMemory};
use std::alloc::Global;
use std::marker::Model;

/// The most chains of an arena.
pub const MOST_CHAINS: u32 = 32_000;

/// The most nodes of an arena.
pub const MOST_NODES: u32 = 4_000_000;

/// Chains of labels, whose nodes stand in one vector.
#[derive(Drop)]
pub struct Arena {
    nodes: Vec<Node>,
    heads: Vec<Head>,
    free: Option<NodeId>,
    spare: u32,
}

impl Model for Arena {
    ghost use Rattle.label_arena.specs.Chains.{Holdings};
    ghost use Rattle.label_arena.specs.Links.{IsArena, holdings};

    ghost Value = { Holdings };

    ghost view = { λ a. holdings a.nodes.items a.heads.items a.spare };

    ghost invariant = { λ a. IsArena a.nodes.items a.heads.items a.free a.spare };
}

impl Arena {
    /// An arena of so many chains, at most 32000, which are open and empty, with so many spare nodes, at most 4000000.
    pub fn with_room(alloc: Global, chains: u32, room: u32) -> Result<Arena, NoMemory>
        requires chains { chains ≤ 32000 }
        requires room { room ≤ 4000000 }
        ensures { IfOk result (λ a. a ≡ empty_holdings chains room) }
    {
        let heads = empty_heads(alloc, chains)?;
        let mut arena = Arena {
            nodes: Vec::new(alloc),
            heads,
            free: None,
            spare: 0,
        };
        arena.make_room(room)?;
        Ok(arena)
    }

    /// Sees to it that at least so many nodes are spare. The nodes in chains and these are at most 4000000. After
    /// the refusal all is as before.
    pub fn make_room(&mut self, n: u32) -> Result<(), NoMemory>
        requires { node_count self.old + n ≤ 4000000 }
        ensures ok { OnOk result (self.new ≡ with_room n self.old) }
        ensures err { OnErr result (self.new ≡ self.old) }
    {
        if n <= self.spare {
            return Ok(());
        }
        let from = self.nodes.len() as u32;
        lengthen(&mut self.nodes, n - self.spare)?;
        self.free = string(&mut self.nodes, from, self.free);
        self.spare = n;
        Ok(())
    }

    /// Adds a node to an open chain: behind one that stands there, or first where `after` is none. Some node is spare,
    /// and the parent stands in a sealed chain.
    pub fn add(
        &mut self,
        chain: u32,
        after: Option<NodeId>,
        label: Label,
        parent: Option<NodeId>,
    ) -> NodeId
        requires spare { 0 < self.old.spare }
        requires chain { IsOpen self.old chain }
        requires after { StandsAfter self.old chain after }
        requires parent { HasParent self.old parent }
        ensures added { self.new ≡ with_added chain after (standing result label parent) self.old }
        ensures fresh { IsNew self.old result }
    {
        let Some(node) = self.free else {
            unreachable!()
        };
        let next = link_behind(&self.nodes, &self.heads, chain, after);
        self.free = node_at(&self.nodes, node).next;
        self.nodes[node.0 as usize] = Node {
            label,
            next,
            parent,
        };
        set_link(&mut self.nodes, &mut self.heads, chain, after, Some(node));
        self.spare -= 1;
        node
    }

    /// Gives a node of an open chain another label and parent. The parent stands in a sealed chain.
    pub fn raise(&mut self, chain: u32, node: NodeId, label: Label, parent: Option<NodeId>)
        requires chain { IsOpen self.old chain }
        requires node { StandsIn self.old chain node }
        requires parent { HasParent self.old parent }
        ensures { self.new ≡ with_raised chain (standing node label parent) self.old }
    {
        let held = node_at(&self.nodes, node);
        self.nodes[node.0 as usize] = Node {
            label,
            parent,
            ..held
        };
    }

    /// Takes the node behind one that stands in an open chain out of it, or the first where `after` is none, and gives
    /// its label. None exactly where there is no such node; then nothing changes.
    pub fn drop_node(&mut self, chain: u32, after: Option<NodeId>) -> Option<Label>
        requires chain { IsOpen self.old chain }
        requires after { StandsAfter self.old chain after }
        ensures label { result ≡ label_behind after (chain_at self.old chain).nodes }
        ensures dropped { self.new ≡ with_dropped chain after self.old }
    {
        let node = link_behind(&self.nodes, &self.heads, chain, after)?;
        let dropped = node_at(&self.nodes, node);
        set_link(&mut self.nodes, &mut self.heads, chain, after, dropped.next);
        set_next(&mut self.nodes, node, self.free);
        self.free = Some(node);
        self.spare += 1;
        Some(dropped.label)
    }

    /// Seals an open chain, which then never changes.
    pub fn seal(&mut self, chain: u32)
        requires { IsOpen self.old chain }
        ensures { self.new ≡ with_seal chain self.old }
    {
        seal_head(&mut self.heads, chain);
    }

    /// The first node of a chain, if it has any.
    pub fn first(&self, chain: u32) -> Option<NodeId>
        requires { chain < length self.now.chains }
        ensures value { result ≡ first_node (chain_at self.now chain).nodes }
        ensures stands { IfSome result (StandsIn self.now chain) }
    {
        self.heads[chain as usize].first
    }

    /// The node behind one that stands in a chain, if there is any.
    pub fn next(&self, node: NodeId) -> Option<NodeId>
        requires { Stands self.now node }
        ensures { HasNext self.now node result }
    {
        node_at(&self.nodes, node).next
    }

    /// The label of a node that stands in a chain.
    pub fn label(&self, node: NodeId) -> Label
        requires { Stands self.now node }
        ensures { HasLabel self.now node result }
    {
        node_at(&self.nodes, node).label
    }

    /// The parent of a node that stands in a chain: none exactly where it was added, or last raised, without one.
    pub fn parent(&self, node: NodeId) -> Option<NodeId>
        requires { Stands self.now node }
        ensures value { HasLink self.now node result }
        ensures stands { HasParent self.now result }
    {
        node_at(&self.nodes, node).parent
    }

    /// The number of spare nodes.
    pub fn spare(&self) -> u32
        ensures value { result ≡ self.now.spare }
        ensures sound { IsSound self.now }
    {
        self.spare
    }

    /// The nodes of a chain in order, with their labels.
    pub fn walk(&self, chain: u32) -> Walk<'_>
        requires { chain < length self.now.chains }
        ensures { result ≡ steps_of (chain_at self.now chain).nodes }
    {
        Walk::new(&self.nodes, self.heads[chain as usize].first)
    }
}
