//! Nodes that are not 0, nodes that differ, and nodes that are one of a list.

ghost use Rattle.std.specs.Prelude.{◌≡◌, ◌+◌, ◌*◌, List, length, IfOk};
ghost use Rattle.lzk_goldilocks.specs.Elements.{ops};
ghost use Rattle.lzk_goldilocks.specs.declared.element.Gold.{Gold};
ghost use Rattle.lzk_level.specs.Nodes.{node_count, IsNode};
ghost use Rattle.lzk_gadgets.specs.Claims.{AreInputs, value, Makes, Adds};
ghost use Rattle.lzk_gadgets.specs.Inverses.{AreInverse, difference, IsAmong, distance};

use crate::statement::Statement;
use lzk_field::Field;
use lzk_goldilocks::Gold;
use lzk_level::Node;
use std::alloc::AllocError;

impl Statement {
    /// Claims that a node is not 0, and that another is its inverse: there is one exactly where it is not 0
    /// ([`crate::inverse_laws`]).
    pub fn assert_nonzero(&mut self, x: Node, inverse: Node) -> Result<(), AllocError>
        requires nodes { IsNode (node_count self.old.nodes) x × IsNode (node_count self.old.nodes) inverse }
        ensures { IfOk result (λ _. Adds ops 3 1 self.old self.new
            (λ public private.
            AreInverse (value ops self.old public private x) (value ops self.old public private inverse))) }
    {
        let product = self.product(x, inverse)?;
        let one = self.constant(Gold::one())?;
        self.assert_equal(product, one)?;
        Ok(())
    }

    /// Claims that two nodes differ, and that another is the inverse of their difference: there is one exactly where
    /// they differ.
    pub fn assert_different(&mut self, x: Node, y: Node, inverse: Node) -> Result<(), AllocError>
        requires nodes { IsNode (node_count self.old.nodes) x × IsNode (node_count self.old.nodes) y ×
            IsNode (node_count self.old.nodes) inverse }
        ensures { IfOk result (λ _. Adds ops 4 1 self.old self.new (λ public private.
            AreInverse (difference (value ops self.old public private x) (value ops self.old public private y))
            (value ops self.old public private inverse))) }
    {
        let difference = self.difference(x, y)?;
        self.assert_nonzero(difference, inverse)?;
        Ok(())
    }

    // The product of a node's differences from these elements.
    fn distance(&mut self, x: Node, choices: &[Gold]) -> Result<Node, AllocError>
        requires node { IsNode (node_count self.old.nodes) x }
        ensures makes { IfOk result (λ node. Makes ops (1 + 3 * length choices.now) self.old self.new node) }
        ensures value { (public private : List Gold) → AreInputs self.old public private →
            IfOk result (λ node. value ops self.new public private node ≡
            distance (value ops self.old public private x) choices.now) }
    {
        let Some((&choice, rest)) = choices.split_first() else {
            let one = self.constant(Gold::one())?;
            return Ok(one);
        };
        let others = self.distance(x, rest)?;
        let own = self.constant(choice)?;
        let difference = self.difference(x, own)?;
        let node = self.product(difference, others)?;
        Ok(node)
    }

    /// Claims that a node is one of these elements.
    pub fn assert_among(&mut self, x: Node, choices: &[Gold]) -> Result<(), AllocError>
        requires node { IsNode (node_count self.old.nodes) x }
        ensures { IfOk result (λ _. Adds ops (1 + 3 * length choices.now) 1 self.old self.new
            (λ public private. IsAmong (value ops self.old public private x) choices.now)) }
    {
        let distance = self.distance(x, choices)?;
        self.assert_zero(distance)?;
        Ok(())
    }
}
