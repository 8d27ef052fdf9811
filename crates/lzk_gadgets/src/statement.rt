//! Statements.

ghost use Rattle.std.specs.Prelude.{◌≡◌, ◌<◌, ◌≤◌, ◌↔◌, List, [], length, IfOk, IfErr};
ghost use Rattle.lzk_field.specs.Sums.{entry};
ghost use Rattle.lzk_goldilocks.specs.Elements.{ops};
ghost use Rattle.lzk_goldilocks.specs.declared.element.Gold.{Gold};
ghost use Rattle.lzk_level.specs.Bounds.{IsLevelError};
ghost use Rattle.lzk_level.specs.Nodes.{node_count, nodes_from, IsNode};
ghost use Rattle.lzk_circuit.specs.Wires.{inputs_of, wires_of};
ghost use Rattle.lzk_gadgets.specs.Claims.{AreInputs, AreAllZero, Holds, value, Makes, Adds};
ghost use Rattle.lzk_circuit.specs.Limits.{most_privates, most_publics, most_wires};

use lzk_circuit::Circuit;
use lzk_goldilocks::Gold;
use lzk_level::{Builder, LevelError, Node};
use std::alloc::{AllocError, Global};
use std::marker::Model;

/// Nodes over the prime field, some of which are asserted to be 0. It has at most 2^31 nodes: for more there is no
/// memory.
#[derive(Drop)]
pub struct Statement {
    builder: Builder<Gold>,
    asserts: Vec<Node>,
}

impl Model for Statement {
    ghost use Rattle.lzk_goldilocks.specs.declared.element.Gold.{Gold};
    ghost use Rattle.lzk_level.specs.Nodes.{node_count};
    ghost use Rattle.lzk_gadgets.specs.Claims.{Claims, AreNodes};

    ghost Value = { Claims Gold };

    ghost view = { λ s. record { nodes = s.builder; asserts = s.asserts.items } };

    ghost invariant = { λ s. AreNodes (node_count s.builder) s.asserts.items };
}

// How many nodes a builder has at most.
const MOST_NODES: u32 = 2_147_483_648;

// One node more: past so many there is no memory.
fn has_room(builder: &Builder<Gold>) -> Result<(), AllocError>
    ensures { IfOk result (λ _. node_count builder.now < 2147483648) }
{
    if builder.len() == MOST_NODES {
        return Err(AllocError);
    }
    Ok(())
}

impl Statement {
    /// A statement of so many inputs, which claims nothing.
    pub fn new(alloc: Global, publics: u32, privates: u32) -> Result<Statement, AllocError>
        requires publics { publics ≤ most_publics }
        requires privates { privates ≤ most_privates }
        ensures { IfOk result (λ s. s ≡ record { nodes = nodes_from publics privates []; asserts = [] }) }
    {
        let builder = Builder::new(alloc, publics, privates)?;
        Ok(Statement {
            builder,
            asserts: Vec::new(alloc),
        })
    }

    /// A statement has at most 2^31 nodes: a law, for callers that see its value alone. Nothing is done.
    pub fn room_laws(&self)
        ensures { node_count self.now.nodes ≤ 2147483648 }
    {
        let _ = self.builder.len();
    }

    /// Public input `i`.
    pub fn public(&self, i: u32) -> Node
        requires { i < self.now.nodes.publics }
        ensures node { IsNode (node_count self.now.nodes) result }
        ensures value { (public private : List Gold) → AreInputs self.now public private →
            value ops self.now public private result ≡ entry ops public i }
    {
        self.builder.public(i)
    }

    /// Private input `i`.
    pub fn private(&self, i: u32) -> Node
        requires { i < self.now.nodes.privates }
        ensures node { IsNode (node_count self.now.nodes) result }
        ensures value { (public private : List Gold) → AreInputs self.now public private →
            value ops self.now public private result ≡ entry ops private i }
    {
        self.builder.private(i)
    }

    /// A node that is `c` on every input.
    pub fn constant(&mut self, c: Gold) -> Result<Node, AllocError>
        ensures makes { IfOk result (λ node. Makes ops 1 self.old self.new node) }
        ensures value { (public private : List Gold) → AreInputs self.old public private →
            IfOk result (λ node. value ops self.new public private node ≡ c) }
    {
        has_room(&self.builder)?;
        let node = self.builder.constant(c)?;
        Ok(node)
    }

    /// The product of two nodes.
    pub fn product(&mut self, x: Node, y: Node) -> Result<Node, AllocError>
        requires nodes { IsNode (node_count self.old.nodes) x × IsNode (node_count self.old.nodes) y }
        ensures makes { IfOk result (λ node. Makes ops 1 self.old self.new node) }
        ensures value { (public private : List Gold) → AreInputs self.old public private →
            IfOk result (λ node. value ops self.new public private node ≡
            ops.times (value ops self.old public private x) (value ops self.old public private y)) }
    {
        has_room(&self.builder)?;
        let node = self.builder.mul(x, y)?;
        Ok(node)
    }

    /// `a` times a node and `b` times another.
    pub fn weighted(&mut self, a: Gold, x: Node, b: Gold, y: Node) -> Result<Node, AllocError>
        requires nodes { IsNode (node_count self.old.nodes) x × IsNode (node_count self.old.nodes) y }
        ensures makes { IfOk result (λ node. Makes ops 1 self.old self.new node) }
        ensures value { (public private : List Gold) → AreInputs self.old public private →
            IfOk result (λ node. value ops self.new public private node ≡
            ops.plus (ops.times a (value ops self.old public private x))
            (ops.times b (value ops self.old public private y))) }
    {
        has_room(&self.builder)?;
        let node = self.builder.combine(&[(a, x), (b, y)])?;
        Ok(node)
    }

    /// Asserts that a node is 0.
    pub fn assert_zero(&mut self, x: Node) -> Result<(), AllocError>
        requires { IsNode (node_count self.old.nodes) x }
        ensures { IfOk result (λ _. Adds ops 0 1 self.old self.new
            (λ public private. value ops self.old public private x ≡ ops.zero)) }
    {
        self.asserts.push(x)?;
        Ok(())
    }

    /// The statement's circuit: on every input its outputs are all 0 exactly where the statement holds. It has an
    /// assert or more. A fault is the first limit of circuits that its nodes pass.
    pub fn finish(self) -> Result<Circuit<Gold>, LevelError>
        requires some { 1 ≤ length self.asserts }
        requires few { length self.asserts ≤ most_wires }
        ensures version { IfOk result (λ c. c.version ≡ 1) }
        ensures publics { IfOk result (λ c. c.publics ≡ self.nodes.publics) }
        ensures privates { IfOk result (λ c. c.privates ≡ self.nodes.privates) }
        ensures holds { (public private : List Gold) → AreInputs self public private →
            IfOk result (λ c. AreAllZero ops (wires_of ops c.layers (inputs_of ops public private)) ↔
            Holds ops self public private) }
        ensures fault { IfErr result (IsLevelError self.nodes self.asserts) }
    {
        let circuit = self.builder.finish(&self.asserts)?;
        Ok(circuit)
    }
}
