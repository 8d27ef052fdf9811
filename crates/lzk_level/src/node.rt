//! Nodes and gates.

ghost use Rattle.std.specs.Prelude.{◌≡◌};
ghost use Rattle.lzk_circuit_reduce.specs.Renumbering.{at};

use std::marker::Model;

/// A node of a builder, by its number: the public inputs come first, from 1, then the private ones, and
/// then the nodes in the order in which they were made.
#[derive(Clone, Copy, Debug, PartialEq, Eq)]
pub struct Node {
    number: u32,
}

impl Model for Node {
    ghost use Rattle.std.specs.Prelude.{ℕ};

    ghost Value = { ℕ };

    ghost view = { λ node. node.number };

    ghost inverse = { λ n. record { number = n } };
}

impl Node {
    pub(crate) fn new(number: u32) -> Node
        ensures { result ≡ number }
    {
        Node { number }
    }

    pub(crate) fn number(&self) -> u32
        ensures { result ≡ self.now }
    {
        self.number
    }
}

/// What a list has at a place, and 0 where the list is shorter.
pub(crate) fn number_at(list: &[u32], place: usize) -> u32
    ensures { result ≡ at list.now place }
{
    match list.get(place) {
        Some(number) => *number,
        None => 0,
    }
}

/// What a list has for a node, by the node's number.
pub(crate) fn of_node(list: &[u32], node: Node) -> u32
    ensures { result ≡ at list.now node }
{
    number_at(list, node.number() as usize)
}
