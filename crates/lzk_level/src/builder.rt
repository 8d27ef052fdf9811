//! Builders.

ghost use Rattle.std.specs.Prelude.{◌≡◌, ◌+◌, ◌<◌, ◌≤◌, length, take, IfOk, OnErr, [], ◌++◌, ◌∷◌};
ghost use Rattle.lzk_profile.specs.Profile.{most_privates};
ghost use Rattle.lzk_level.specs.Nodes.{node_count, nodes_from, with_gate, IsNode, ArePartsOf};
ghost use Rattle.lzk_level.specs.Gates.{Constant, Combine, Mul};
ghost use Rattle.lzk_level.specs.declared.lets.Operand.TheVariants.{AtNode};

use crate::gates::{Gates, Made};
use crate::lets::Operand;
use crate::node::Node;
use lzk_field::Field;
use std::alloc::{AllocError, Global};
use std::marker::Model;

/// Nodes over a field, which grow one by one from the inputs.
#[derive(Drop)]
pub struct Builder<F: Field> {
    pub(crate) alloc: Global,
    pub(crate) publics: u32,
    pub(crate) privates: u32,
    pub(crate) gates: Gates<F>,
}

impl<F: Field> Model for Builder<F> {
    ghost use Rattle.std.specs.Prelude.{◌+◌, ◌≤◌, length};
    ghost use Rattle.lzk_profile.specs.Profile.{most_privates};
    ghost use Rattle.lzk_level.specs.Nodes.{Nodes, AreGates};

    ghost Value = { Nodes F };

    ghost view = { λ b. record { publics = b.publics; privates = b.privates; made = b.gates } };

    ghost invariant = { λ b.
        (b.publics ≤ 65535)
        × (b.privates ≤ most_privates)
        × (b.publics + b.privates + length b.gates ≤ 2147483648)
        × AreGates (b.publics + b.privates) b.gates };
}

impl<F: Field> Builder<F> {
    /// A builder of so many inputs, and no further node.
    pub fn new(alloc: Global, publics: u32, privates: u32) -> Result<Builder<F>, AllocError>
        requires publics { publics ≤ 65535 }
        requires privates { privates ≤ most_privates }
        ensures inputs { IfOk result (λ b. b ≡ record { publics = publics; privates = privates; made = [] }) }
    {
        Ok(Builder {
            alloc,
            publics,
            privates,
            gates: Gates::new(alloc),
        })
    }

    /// Such a builder with room for so many gates and as many parts of sums. More are taken where they come.
    pub(crate) fn with_room(
        alloc: Global,
        publics: u32,
        privates: u32,
        room: usize,
    ) -> Result<Builder<F>, AllocError>
        requires publics { publics ≤ 65535 }
        requires privates { privates ≤ most_privates }
        ensures inputs { IfOk result (λ b. b ≡ record { publics = publics; privates = privates; made = [] }) }
    {
        let gates = Gates::with_room(alloc, room)?;
        Ok(Builder {
            alloc,
            publics,
            privates,
            gates,
        })
    }

    /// How many nodes there are, the inputs among them.
    pub fn len(&self) -> u32
        ensures count { result ≡ node_count self.now }
        ensures limit { node_count self.now ≤ 2147483648 }
    {
        self.publics + self.privates + self.gates.len() as u32
    }

    // The node that is made next.
    fn next(&self) -> Node
        requires { node_count self.now < 2147483648 }
        ensures { result ≡ 1 + node_count self.now }
    {
        Node::new(1 + self.len())
    }

    /// Public input `i`.
    pub fn public(&self, i: u32) -> Node
        requires { i < self.now.publics }
        ensures { result ≡ 1 + i }
    {
        let publics = self.publics;
        prove!(i < publics);
        Node::new(1 + i)
    }

    /// Private input `i`.
    pub fn private(&self, i: u32) -> Node
        requires { i < self.now.privates }
        ensures { result ≡ 1 + self.now.publics + i }
    {
        Node::new(1 + self.publics + i)
    }

    /// A node that is `c` on every input.
    pub fn constant(&mut self, c: F) -> Result<Node, AllocError>
        requires room { node_count self.old < 2147483648 }
        ensures node { IfOk result (λ node. node ≡ 1 + node_count self.old) }
        ensures added { IfOk result (λ _. self.new ≡ with_gate self.old (Constant c)) }
        ensures same { OnErr result (self.new ≡ self.old) }
    {
        let node = self.next();
        self.gates.push_alone(Made::Constant(c)).and(Ok(node))
    }

    /// The sum of the coefficients times the nodes. All sums have fewer than 2^32 parts: for more there is no memory.
    pub fn combine(&mut self, parts: &[(F, Node)]) -> Result<Node, AllocError>
        requires room { node_count self.old < 2147483648 }
        requires some { 1 ≤ length parts.now }
        requires nodes { ArePartsOf (node_count self.old) parts.now }
        ensures node { IfOk result (λ node. node ≡ 1 + node_count self.old) }
        ensures added { IfOk result (λ _. self.new ≡ with_gate self.old (Combine parts.now)) }
        ensures same { OnErr result (self.new ≡ self.old) }
    {
        let node = self.next();
        self.gates.push_sum(parts).and(Ok(node))
    }

    /// A multiple of a node.
    pub(crate) fn multiple(&mut self, c: F, node: Node) -> Result<Operand<F>, AllocError>
        requires room { node_count self.old < 2147483648 }
        requires node { IsNode (node_count self.old) node }
        ensures node { IfOk result (λ made. made ≡ AtNode (1 + node_count self.old)) }
        ensures added { IfOk result (λ _. self.new ≡ with_gate self.old (Combine ((c, node) ∷ []))) }
        ensures same { OnErr result (self.new ≡ self.old) }
    {
        let next = self.next();
        self.gates
            .push_multiple((c, node))
            .and(Ok(Operand::AtNode(next)))
    }

    /// How many of them are no inputs.
    pub(crate) fn gate_count(&self) -> u32
        ensures { result ≡ length self.now.made }
    {
        self.gates.len() as u32
    }

    /// The product of two nodes.
    pub fn mul(&mut self, x: Node, y: Node) -> Result<Node, AllocError>
        requires room { node_count self.old < 2147483648 }
        requires left { IsNode (node_count self.old) x }
        requires right { IsNode (node_count self.old) y }
        ensures node { IfOk result (λ node. node ≡ 1 + node_count self.old) }
        ensures added { IfOk result (λ _. self.new ≡ with_gate self.old (Mul x y)) }
        ensures same { OnErr result (self.new ≡ self.old) }
    {
        let node = self.next();
        self.gates.push_alone(Made::Mul(x, y)).and(Ok(node))
    }

    /// Takes the nodes away that were made behind so many of them.
    pub(crate) fn cut(&mut self, count: u32)
        ensures { self.new ≡ nodes_from self.old.publics self.old.privates (take count self.old.made) }
    {
        self.gates.cut(count as usize);
    }
}
