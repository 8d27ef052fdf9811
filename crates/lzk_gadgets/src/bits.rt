//! Equality, bits, choices.

ghost use Rattle.std.specs.Prelude.{◌≡◌, ◌*◌, List, length, IfOk};
ghost use Rattle.lzk_goldilocks.specs.Elements.{ops, of_number};
ghost use Rattle.lzk_goldilocks.specs.declared.element.Gold.{Gold};
ghost use Rattle.lzk_level.specs.Nodes.{node_count, IsNode};
ghost use Rattle.lzk_gadgets.specs.Claims.{AreInputs, AreNodes, value, values, Makes, Adds};
ghost use Rattle.lzk_gadgets.specs.Spelled.{IsBit, AreBits};

use crate::statement::Statement;
use lzk_field::Field;
use lzk_goldilocks::Gold;
use lzk_level::Node;
use std::alloc::AllocError;

impl Statement {
    /// One node less another.
    pub fn difference(&mut self, x: Node, y: Node) -> Result<Node, AllocError>
        requires nodes { IsNode (node_count self.old.nodes) x × IsNode (node_count self.old.nodes) y }
        ensures makes { IfOk result (λ node. Makes ops 1 self.old self.new node) }
        ensures value { (public private : List Gold) → AreInputs self.old public private →
            IfOk result (λ node. value ops self.new public private node ≡
            ops.plus (value ops self.old public private x) (ops.neg (value ops self.old public private y))) }
    {
        let node = self.weighted(Gold::one(), x, Gold::one().neg(), y)?;
        Ok(node)
    }

    /// Claims that two nodes are equal.
    pub fn assert_equal(&mut self, x: Node, y: Node) -> Result<(), AllocError>
        requires nodes { IsNode (node_count self.old.nodes) x × IsNode (node_count self.old.nodes) y }
        ensures { IfOk result (λ _. Adds ops 1 1 self.old self.new
            (λ public private. value ops self.old public private x ≡ value ops self.old public private y)) }
    {
        let difference = self.difference(x, y)?;
        self.assert_zero(difference)?;
        Ok(())
    }

    /// Claims that a node is 0 or 1.
    pub fn assert_bit(&mut self, x: Node) -> Result<(), AllocError>
        requires node { IsNode (node_count self.old.nodes) x }
        ensures { IfOk result (λ _. Adds ops 2 1 self.old self.new
            (λ public private. IsBit (value ops self.old public private x))) }
    {
        let square = self.product(x, x)?;
        self.assert_equal(square, x)?;
        Ok(())
    }

    /// Claims that each node is 0 or 1.
    pub fn assert_bits(&mut self, xs: &[Node]) -> Result<(), AllocError>
        requires nodes { AreNodes (node_count self.old.nodes) xs.now }
        ensures { IfOk result (λ _. Adds ops (2 * length xs.now) (length xs.now) self.old self.new
            (λ public private. AreBits (values ops self.old public private xs.now))) }
    {
        let Some((&x, rest)) = xs.split_first() else {
            return Ok(());
        };
        self.assert_bits(rest)?;
        self.assert_bit(x)?;
        Ok(())
    }

    /// `x` where the bit is 1, and `y` where it is 0: what it is elsewhere is not said.
    pub fn select(&mut self, bit: Node, x: Node, y: Node) -> Result<Node, AllocError>
        requires nodes { IsNode (node_count self.old.nodes) bit × IsNode (node_count self.old.nodes) x ×
            IsNode (node_count self.old.nodes) y }
        ensures makes { IfOk result (λ node. Makes ops 3 self.old self.new node) }
        ensures one { (public private : List Gold) → AreInputs self.old public private →
            value ops self.old public private bit ≡ of_number 1 →
            IfOk result (λ node. value ops self.new public private node ≡ value ops self.old public private x) }
        ensures zero { (public private : List Gold) → AreInputs self.old public private →
            value ops self.old public private bit ≡ of_number 0 →
            IfOk result (λ node. value ops self.new public private node ≡ value ops self.old public private y) }
    {
        let difference = self.difference(x, y)?;
        let chosen = self.product(bit, difference)?;
        let node = self.weighted(Gold::one(), chosen, Gold::one(), y)?;
        Ok(node)
    }
}
