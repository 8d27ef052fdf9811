//! Texts by the bits of their bytes.

ghost use Rattle.std.specs.Prelude.{◌≡◌, ◌+◌, ◌*◌, ◌/◌, List, length, IfOk};
ghost use Rattle.lzk_goldilocks.specs.Elements.{ops};
ghost use Rattle.lzk_goldilocks.specs.declared.element.Gold.{Gold};
ghost use Rattle.lzk_level.specs.Nodes.{node_count};
ghost use Rattle.lzk_gadgets.specs.Claims.{AreInputs, AreNodes, value, values, Makes, Yields, Adds};
ghost use Rattle.lzk_gadgets.specs.Texts.{AreBitsOf, byte_worth, byte_worths};

use crate::statement::Statement;
use crate::witness::text_bits;
use lzk_goldilocks::Gold;
use lzk_level::Node;
use std::alloc::{AllocError, Global};

impl Statement {
    /// What eight nodes are worth, the first one the most: where they are bits, the byte that they spell.
    pub fn byte(&mut self, bits: &[Node]) -> Result<Node, AllocError>
        requires eight { length bits.now ≡ 8 }
        requires nodes { AreNodes (node_count self.old.nodes) bits.now }
        ensures makes { IfOk result (λ node. Makes ops 9 self.old self.new node) }
        ensures value { (public private : List Gold) → AreInputs self.old public private →
            IfOk result (λ node. value ops self.new public private node ≡
            byte_worth (values ops self.old public private bits.now)) }
    {
        let lowest_first = [
            bits[7], bits[6], bits[5], bits[4], bits[3], bits[2], bits[1], bits[0],
        ];
        let node = self.worth(&lowest_first)?;
        Ok(node)
    }

    /// What nodes are worth eight by eight: where they are the bits of a text, its bytes ([`crate::text_laws`]).
    pub fn bytes(&mut self, alloc: Global, bits: &[Node]) -> Result<Vec<Node>, AllocError>
        requires nodes { AreNodes (node_count self.old.nodes) bits.now }
        ensures yields { IfOk result (λ nodes. Yields ops (9 * (length bits.now / 8)) self.old self.new nodes.items) }
        ensures count { IfOk result (λ nodes. length nodes.items ≡ length bits.now / 8) }
        ensures values { (public private : List Gold) → AreInputs self.old public private →
            IfOk result (λ nodes. values ops self.new public private nodes.items ≡
            byte_worths (length bits.now / 8) (values ops self.old public private bits.now)) }
    {
        let mut nodes = Vec::new(alloc);
        for k in 0..bits.len() / 8 {
            let node = self.byte(&bits[8 * k..8 * k + 8])?;
            nodes.push(node)?;
        }
        Ok(nodes)
    }

    /// Claims that nodes have these values, one for one.
    pub fn assert_values(&mut self, xs: &[Node], wanted: &[Gold]) -> Result<(), AllocError>
        requires count { length xs.now ≡ length wanted.now }
        requires nodes { AreNodes (node_count self.old.nodes) xs.now }
        ensures { IfOk result (λ _. Adds ops (2 * length xs.now) (length xs.now) self.old self.new
            (λ public private. values ops self.old public private xs.now ≡ wanted.now)) }
    {
        let Some((&x, rest)) = xs.split_first() else {
            return Ok(());
        };
        self.assert_values(rest, &wanted[1..])?;
        let constant = self.constant(wanted[0])?;
        self.assert_equal(x, constant)?;
        Ok(())
    }

    /// Claims that nodes are the bits of a text, the highest of a byte first.
    pub fn assert_text(
        &mut self,
        alloc: Global,
        bits: &[Node],
        text: &[u8],
    ) -> Result<(), AllocError>
        requires count { length bits.now ≡ 8 * length text.now }
        requires nodes { AreNodes (node_count self.old.nodes) bits.now }
        ensures { IfOk result (λ _. Adds ops (2 * length bits.now) (length bits.now) self.old self.new
            (λ public private. AreBitsOf text.now (values ops self.old public private bits.now))) }
    {
        let wanted = text_bits(alloc, text)?;
        self.assert_values(bits, &wanted)?;
        Ok(())
    }
}
