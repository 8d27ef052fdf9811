//! Numbers by their bits, and order.

ghost use Rattle.std.specs.Prelude.{◌≡◌, ◌+◌, ◌-◌, ◌*◌, ◌<◌, ◌≤◌, ◌^◌, ◌↔◌, List, ◌∷◌, length, IfOk};
ghost use Rattle.lzk_goldilocks.specs.Elements.{ops};
ghost use Rattle.lzk_goldilocks.specs.declared.element.Gold.{Gold};
ghost use Rattle.lzk_level.specs.Nodes.{node_count};
ghost use Rattle.lzk_gadgets.specs.Claims.{AreInputs, AreNodes, value, values, Holds, Keeps, Makes, Adds};
ghost use Rattle.lzk_gadgets.specs.Spelled.{worth, Spells};

use crate::statement::Statement;
use lzk_field::Field;
use lzk_goldilocks::Gold;
use lzk_level::Node;
use std::alloc::AllocError;

impl Statement {
    /// What entries are worth, the first one the least: 1, 2, 4, and so on.
    pub fn worth(&mut self, xs: &[Node]) -> Result<Node, AllocError>
        requires nodes { AreNodes (node_count self.old.nodes) xs.now }
        ensures makes { IfOk result (λ node. Makes ops (1 + length xs.now) self.old self.new node) }
        ensures value { (public private : List Gold) → AreInputs self.old public private →
            IfOk result (λ node. value ops self.new public private node ≡
            worth (values ops self.old public private xs.now)) }
    {
        let Some((&x, rest)) = xs.split_first() else {
            let zero = self.constant(Gold::zero())?;
            return Ok(zero);
        };
        let above = self.worth(rest)?;
        let node = self.weighted(Gold::one(), x, Gold::of_word(2), above)?;
        Ok(node)
    }

    /// Claims that these are bits, and that a node is the number that they spell: so it is below 2^k for k bits, and
    /// each such number is
    /// spelled in one way ([`crate::gadget_laws`]).
    pub fn assert_spelled(&mut self, x: Node, bits: &[Node]) -> Result<(), AllocError>
        requires few { length bits.now ≤ 63 }
        requires nodes { AreNodes (node_count self.old.nodes) (x ∷ bits.now) }
        ensures { IfOk result (λ _. Adds ops (2 + 3 * length bits.now) (1 + length bits.now) self.old self.new
            (λ public private.
            Spells (value ops self.old public private x).n (values ops self.old public private bits.now))) }
    {
        self.assert_bits(bits)?;
        let worth = self.worth(bits)?;
        self.assert_equal(x, worth)?;
        Ok(())
    }

    /// Claims of two numbers below 2^62 that the first is at most the second, and that these are the bits of the
    /// difference.
    pub fn assert_at_most(&mut self, x: Node, y: Node, bits: &[Node]) -> Result<(), AllocError>
        requires few { length bits.now ≤ 62 }
        requires nodes { AreNodes (node_count self.old.nodes) (x ∷ y ∷ bits.now) }
        ensures keeps { IfOk result (λ _. Keeps ops (3 + 3 * length bits.now) self.old self.new) }
        ensures count { IfOk result (λ _. length self.new.asserts ≡ length self.old.asserts + (1 + length bits.now)) }
        ensures claim { (public private : List Gold) → AreInputs self.old public private →
            (value ops self.old public private x).n < 2 ^ 62 → (value ops self.old public private y).n < 2 ^ 62 →
            IfOk result (λ _. Holds ops self.new public private ↔ (Holds ops self.old public private ×
            (((value ops self.old public private x).n ≤ (value ops self.old public private y).n) ×
            Spells ((value ops self.old public private y).n - (value ops self.old public private x).n)
            (values ops self.old public private bits.now)))) }
    {
        let difference = self.difference(y, x)?;
        self.assert_spelled(difference, bits)?;
        Ok(())
    }
}
