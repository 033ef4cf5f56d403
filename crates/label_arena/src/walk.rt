//! Walking along a chain.

ghost use Rattle.std.specs.Prelude.{◌≡◌};
ghost use Rattle.std.specs.Iterator.{YieldsFirst, item_count};
ghost use Rattle.label_arena.specs.Links.{IsLinked, steps_from};

use crate::links::node_at;
use crate::node::{Node, NodeId};
use lab_model::Label;
use std::marker::Model;

/// A node of a chain, with its label.
#[derive(Clone, Copy, PartialEq, Eq, Debug)]
pub struct Step {
    /// The node.
    pub node: NodeId,
    /// Its label.
    pub label: Label,
}

/// The nodes of a chain that are still to come, in order.
#[derive(Drop)]
pub struct Walk<'a> {
    nodes: &'a [Node],
    next: Option<NodeId>,
}

impl<'a> Model for Walk<'a> {
    ghost use Rattle.std.specs.Prelude.{List};
    ghost use Rattle.label_arena.specs.declared.walk.Step.{Step};
    ghost use Rattle.label_arena.specs.Links.{IsLinked, steps_from};

    ghost Value = { List Step };

    ghost view = { λ w. steps_from w.nodes.now w.next };

    ghost invariant = { λ w. IsLinked w.nodes.now w.next };
}

impl<'a> Walk<'a> {
    /// The walk from a node on, along its links.
    pub(crate) fn new(nodes: &'a [Node], next: Option<NodeId>) -> Walk<'a>
        requires { IsLinked nodes.now next }
        ensures { result ≡ steps_from nodes.entry.now next }
    {
        Walk { nodes, next }
    }
}

impl<'a> Iterator for Walk<'a> {
    type Item = Step;

    ghost next_gives = { YieldsFirst (λ w. w) };

    ghost remaining = { item_count (λ w. w) };

    fn next(&mut self) -> Option<Step> {
        let node = self.next?;
        let held = node_at(self.nodes, node);
        self.next = held.next;
        Some(Step {
            node,
            label: held.label,
        })
    }
}
