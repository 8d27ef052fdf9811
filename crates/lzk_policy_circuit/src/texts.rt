//! What a statement asserts of a field that is one of some texts.

ghost use Rattle.std.specs.Prelude.{◌≡◌, ◌+◌, ◌*◌, ◌≤◌, List, IsTrue, length, map, IfOk};
ghost use Rattle.lzk_goldilocks.specs.Elements.{ops, of_number};
ghost use Rattle.lzk_goldilocks.specs.declared.element.Gold.{Gold};
ghost use Rattle.lzk_gadgets.specs.Claims.{Adds, AreInputs, AreNodes, Makes, Yields, value, values};
ghost use Rattle.lzk_gadgets.specs.Inverses.{IsAmong};
ghost use Rattle.lzk_level.specs.Nodes.{IsNode, node_count};
ghost use Rattle.lzk_policy.specs.Policies.{are_texts_of};
ghost use Rattle.lzk_policy_circuit.specs.Met.{byte_worths, number_worth, text_element, IsOneOf};
ghost use Rattle.lzk_policy_circuit.specs.Squares as sums;
ghost use Rattle.lzk_policy_circuit.specs.Squares.{IsAtText};

use crate::numbers::{byte, number};
use lzk_expr::Name;
use lzk_field::Field;
use lzk_gadgets::Statement;
use lzk_goldilocks::Gold;
use lzk_level::Node;
use std::alloc::{AllocError, Global};

// ---- short texts

// A number behind which one byte more stands.
fn with_byte(number: Gold, b: u8) -> Gold
    ensures { result ≡ ops.plus (ops.times (of_number 256) number) (of_number b) }
{
    Gold::of_word(256)
        .mul(number)
        .add(Gold::of_word(u128::from(b)))
}

// The number of a text's bytes, the first worth most.
fn element_of(text: &[u8]) -> Gold
    ensures { result ≡ text_element text.now }
{
    let mut number = Gold::zero();
    for i in 0..text.len() {
        number = with_byte(number, text[i]);
    }
    number
}

// The numbers of texts.
fn elements_of(alloc: Global, texts: &[Name]) -> Result<Vec<Gold>, AllocError>
    ensures { IfOk result (λ list. list.items ≡ map text_element texts.now) }
{
    let mut elements = Vec::new(alloc);
    for text in texts {
        elements.push(element_of(text.text()))?;
    }
    Ok(elements)
}

// Claims that the number of some bytes is that of one of these texts.
fn assert_short(
    alloc: Global,
    s: &mut Statement,
    at: u32,
    size: u32,
    texts: &[Name],
) -> Result<(), AllocError>
    requires there { at + 8 * size ≤ s.old.nodes.privates }
    ensures { IfOk result (λ _. Adds ops (2 + 10 * size + 3 * length texts.now) 1 s.old s.new
        (λ public private. IsAmong (number_worth private at size) (map text_element texts.now))) }
{
    let choices = elements_of(alloc, texts)?;
    let x = number(s, at, size)?;
    s.assert_among(x, &choices)?;
    Ok(())
}

// ---- long texts

// The bytes whose bits stand from private input `at` on.
fn bytes_of(alloc: Global, s: &mut Statement, at: u32, size: u32) -> Result<Vec<Node>, AllocError>
    requires there { at + 8 * size ≤ s.old.nodes.privates }
    ensures yields { IfOk result (λ nodes. Yields ops (9 * size) s.old s.new nodes.items) }
    ensures count { IfOk result (λ nodes. length nodes.items ≡ size) }
    ensures values { (public private : List Gold) → AreInputs s.old public private →
        IfOk result (λ nodes. values ops s.new public private nodes.items ≡ byte_worths private at size) }
{
    if size == 0 {
        return Ok(Vec::new(alloc));
    }
    s.room_laws();
    let mut nodes = bytes_of(alloc, s, at, size - 1)?;
    let last = byte(s, at + 8 * (size - 1))?;
    nodes.push(last)?;
    Ok(nodes)
}

// The sum of the squares of nodes.
fn squares(s: &mut Statement, xs: &[Node]) -> Result<Node, AllocError>
    requires nodes { AreNodes (node_count s.old.nodes) xs.now }
    ensures makes { IfOk result (λ node. Makes ops (1 + 2 * length xs.now) s.old s.new node) }
    ensures value { (public private : List Gold) → AreInputs s.old public private →
        IfOk result (λ node. value ops s.new public private node ≡
        sums.squares (values ops s.old public private xs.now)) }
{
    let Some((&x, rest)) = xs.split_first() else {
        let zero = s.constant(Gold::zero())?;
        return Ok(zero);
    };
    let others = squares(s, rest)?;
    let square = s.product(x, x)?;
    let node = s.weighted(Gold::one(), square, Gold::one(), others)?;
    Ok(node)
}

// The inner product of nodes and the bytes of a text.
fn inner(s: &mut Statement, xs: &[Node], text: &[u8]) -> Result<Node, AllocError>
    requires nodes { AreNodes (node_count s.old.nodes) xs.now }
    ensures makes { IfOk result (λ node. Makes ops (1 + length xs.now) s.old s.new node) }
    ensures value { (public private : List Gold) → AreInputs s.old public private →
        IfOk result (λ node. value ops s.new public private node ≡
        sums.inner (values ops s.old public private xs.now) text.now) }
{
    let Some((&x, nodes)) = xs.split_first() else {
        let zero = s.constant(Gold::zero())?;
        return Ok(zero);
    };
    let Some((&b, bytes)) = text.split_first() else {
        let zero = s.constant(Gold::zero())?;
        return Ok(zero);
    };
    let others = inner(s, nodes, bytes)?;
    let node = s.weighted(Gold::of_word(u128::from(b)), x, Gold::one(), others)?;
    Ok(node)
}

// The sum of the squares of a text's bytes.
fn text_squares(text: &[u8]) -> Gold
    ensures { result ≡ of_number (sums.text_squares text.now) }
{
    let Some((&b, rest)) = text.split_first() else {
        return Gold::zero();
    };
    let byte = Gold::of_word(u128::from(b));
    byte.mul(byte).add(text_squares(rest))
}

// The distance of nodes from a text, where another node is the sum of their squares.
fn distance(s: &mut Statement, norm: Node, xs: &[Node], text: &[u8]) -> Result<Node, AllocError>
    requires nodes { IsNode (node_count s.old.nodes) norm × AreNodes (node_count s.old.nodes) xs.now }
    ensures makes { IfOk result (λ node. Makes ops (4 + length xs.now) s.old s.new node) }
    ensures value { (public private : List Gold) → AreInputs s.old public private →
        IfOk result (λ node. value ops s.new public private node ≡ sums.distance_by
        (value ops s.old public private norm) (values ops s.old public private xs.now) text.now) }
{
    let product = inner(s, xs, text)?;
    let own = s.constant(text_squares(text))?;
    let both = s.weighted(Gold::one(), norm, Gold::one(), own)?;
    let node = s.weighted(Gold::one(), both, Gold::of_word(2).neg(), product)?;
    Ok(node)
}

// The product of the distances from texts.
fn distances(s: &mut Statement, norm: Node, xs: &[Node], texts: &[Name]) -> Result<Node, AllocError>
    requires nodes { IsNode (node_count s.old.nodes) norm × AreNodes (node_count s.old.nodes) xs.now }
    ensures makes { IfOk result
        (λ node. Makes ops (1 + (5 + length xs.now) * length texts.now) s.old s.new node) }
    ensures value { (public private : List Gold) → AreInputs s.old public private →
        IfOk result (λ node. value ops s.new public private node ≡ sums.distances
        (value ops s.old public private norm) (values ops s.old public private xs.now) texts.now) }
{
    let Some((text, rest)) = texts.split_first() else {
        let one = s.constant(Gold::one())?;
        return Ok(one);
    };
    let others = distances(s, norm, xs, rest)?;
    let own = distance(s, norm, xs, text.text())?;
    let node = s.product(own, others)?;
    Ok(node)
}

// Claims that some bytes are at one of these texts.
fn assert_long(
    alloc: Global,
    s: &mut Statement,
    at: u32,
    size: u32,
    texts: &[Name],
) -> Result<(), AllocError>
    requires there { at + 8 * size ≤ s.old.nodes.privates }
    requires texts { IsTrue (are_texts_of size texts.now) }
    ensures { IfOk result (λ _. Adds ops (2 + 11 * size + (5 + size) * length texts.now) 1 s.old s.new
        (λ public private. IsAtText (byte_worths private at size) texts.now)) }
{
    let bytes = bytes_of(alloc, s, at, size)?;
    let norm = squares(s, &bytes)?;
    let product = distances(s, norm, &bytes, texts)?;
    s.assert_zero(product)?;
    Ok(())
}

/// Claims that a field is one of these texts: a short one by its number, a long one byte by byte.
pub(crate) fn assert_one_of(
    alloc: Global,
    s: &mut Statement,
    at: u32,
    size: u32,
    texts: &[Name],
) -> Result<(), AllocError>
    requires there { at + 8 * size ≤ s.old.nodes.privates }
    requires few { size ≤ 119 }
    requires count { length texts.now ≤ 16 }
    requires texts { IsTrue (are_texts_of size texts.now) }
    ensures { IfOk result (λ _. Adds ops 4000 1 s.old s.new (λ public private. IsOneOf private at size texts.now)) }
{
    if size <= 7 {
        return assert_short(alloc, s, at, size, texts);
    }
    assert_long(alloc, s, at, size, texts)
}
